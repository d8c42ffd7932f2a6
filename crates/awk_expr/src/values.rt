//! Arguments that are no expressions.
ghost use Rattle.std.specs.Prelude.{◌≡◌, map};
ghost use Rattle.serde_json.specs.Find.{as_str};
ghost use Rattle.serde_json.specs.View.{view};
ghost use Rattle.awk_types.specs.Names.{is_among};
ghost use Rattle.awk_expr.specs.Arguments.{fixed_of, items_in, i64_in, u64_in, step_in};
ghost use Rattle.awk_expr.specs.Arguments.{some_count_in, primitive_in, primitives, texts_in};
ghost use Rattle.awk_expr.specs.Arguments.{all_of, edges_in};
ghost use Rattle.awk_expr.specs.Told.{Reads};
ghost use Rattle.awk_expr.specs.WholeNumbers as numbers;
ghost use Rattle.awk_expr.specs.WholeNumbers.{whole_of};

use crate::fault::QueryFault;
use crate::fixed::FixedArg;
use crate::kind::ArgKind;
use awk_types::{Name, Names, Wholes};
use serde_json::Value;
use std::alloc::Global;

// The names of the nine leaf types.
const PRIMITIVES: [&str; 9] = [
    "bool", "int8", "int16", "int32", "int64", "uint8", "uint16", "uint32", "uint64",
];

/// An argument of a kind that is no expression.
pub fn fixed_arg(alloc: Global, kind: ArgKind, value: &Value) -> Result<FixedArg, QueryFault>
    ensures { Reads (λ arg. arg) result (fixed_of kind (view value.now)) }
{
    match kind {
        ArgKind::Place => Ok(FixedArg::Place(place(value)?)),
        ArgKind::Bound => match value {
            Value::Null => Ok(FixedArg::Missing),
            _ => Ok(FixedArg::Place(place(value)?)),
        },
        ArgKind::Step => Ok(FixedArg::Place(step(value)?)),
        ArgKind::Count => Ok(FixedArg::Count(count(value)?)),
        ArgKind::SomeCount => Ok(FixedArg::Count(count_of_some(value)?)),
        ArgKind::Truth => Ok(FixedArg::Truth(value.as_bool().ok_or(QueryFault::Query)?)),
        ArgKind::Text => Ok(FixedArg::Text(name(alloc, value)?)),
        ArgKind::Texts => Ok(FixedArg::Texts(texts(alloc, value)?)),
        ArgKind::Primitive => Ok(FixedArg::Text(primitive(alloc, value)?)),
        ArgKind::Edges => Ok(FixedArg::Wholes(edges(alloc, value)?)),
        ArgKind::Expr | ArgKind::Exprs | ArgKind::NamedExprs => Err(QueryFault::Query),
    }
}

fn place(value: &Value) -> Result<i64, QueryFault>
    ensures { Reads (λ z. z) result (i64_in (view value.now)) }
{
    value.as_i64().ok_or(QueryFault::Query)
}

// A place other than 0.
fn step(value: &Value) -> Result<i64, QueryFault>
    ensures { Reads (λ z. z) result (step_in (view value.now)) }
{
    let step = place(value)?;
    if step == 0 {
        return Err(QueryFault::Query);
    }
    Ok(step)
}

fn count(value: &Value) -> Result<u64, QueryFault>
    ensures { Reads (λ n. n) result (u64_in (view value.now)) }
{
    value.as_u64().ok_or(QueryFault::Query)
}

// A count other than 0.
fn count_of_some(value: &Value) -> Result<u64, QueryFault>
    ensures { Reads (λ n. n) result (some_count_in (view value.now)) }
{
    let count = count(value)?;
    if count == 0 {
        return Err(QueryFault::Query);
    }
    Ok(count)
}

fn name(alloc: Global, value: &Value) -> Result<Name, QueryFault>
    ensures { Reads (λ name. name) result (as_str (view value.now)) }
{
    Ok(Name::new(alloc, value.as_str().ok_or(QueryFault::Query)?)?)
}

// The name of a primitive.
fn primitive(alloc: Global, value: &Value) -> Result<Name, QueryFault>
    ensures { Reads (λ name. name) result (primitive_in (view value.now)) }
{
    let text = value.as_str().ok_or(QueryFault::Query)?;
    if is_primitive(text) {
        return Ok(Name::new(alloc, text)?);
    }
    Err(QueryFault::Query)
}

// Whether a text is the name of a primitive.
fn is_primitive(text: &str) -> bool
    ensures { result ≡ is_among text.now primitives }
{
    is_any(&PRIMITIVES, text)
}

// Whether a text is one of these.
fn is_any(names: &[&str], text: &str) -> bool
    ensures { result ≡ is_among text.now (map (λ name. name.now) names.now) }
{
    for name in names {
        if *name == text {
            return true;
        }
    }
    false
}

/// The items of a list.
pub fn items(value: &Value) -> Result<&[Value], QueryFault>
    ensures { Reads (λ values. map view values.now) result (items_in (view value.now)) }
{
    let values = value.as_array().ok_or(QueryFault::Query)?;
    Ok(values.as_slice())
}

// Texts of a list, none of which comes twice.
fn texts(alloc: Global, value: &Value) -> Result<Names, QueryFault>
    ensures { Reads (λ names. names) result (texts_in (view value.now)) }
{
    let values = items(value)?;
    let mut names = Names::new(alloc);
    for value in values {
        let text = name(alloc, value)?;
        names.push(text)?;
    }
    if !names.are_distinct(alloc)? {
        return Err(QueryFault::Query);
    }
    Ok(names)
}

// At least two whole numbers, each greater than the one before.
fn edges(alloc: Global, value: &Value) -> Result<Wholes, QueryFault>
    ensures { Reads (λ edges. edges) result (edges_in (view value.now)) }
{
    let values = items(value)?;
    let edges = whole_numbers(alloc, values)?;
    if !are_edges(&edges) {
        return Err(QueryFault::Query);
    }
    Ok(edges)
}

fn whole_numbers(alloc: Global, values: &[Value]) -> Result<Wholes, QueryFault>
    ensures { Reads (λ made. made) result (all_of whole_of (map view values.now)) }
{
    let mut made = Wholes::new(alloc);
    for value in values {
        let z = whole_number(value)?;
        made.push(z)?;
    }
    Ok(made)
}

/// A whole number that is kept as u64 or i64.
pub fn whole_number(value: &Value) -> Result<i128, QueryFault>
    ensures { Reads (λ z. z) result (whole_of (view value.now)) }
{
    if let Some(n) = value.as_u64() {
        return Ok(i128::from(n));
    }
    match value.as_i64() {
        Some(z) => Ok(i128::from(z)),
        None => Err(QueryFault::Query),
    }
}

fn are_edges(edges: &Wholes) -> bool
    ensures { result ≡ numbers.are_edges edges.now }
{
    edges.len() >= 2 && are_rising(edges)
}

// Whether each is greater than the one before.
fn are_rising(edges: &Wholes) -> bool
    ensures { result ≡ numbers.are_rising edges.now }
{
    let pairs = edges.len().saturating_sub(1);
    for i in 0..pairs {
        if *edges.get(i + 1) <= *edges.get(i) {
            return false;
        }
    }
    true
}
