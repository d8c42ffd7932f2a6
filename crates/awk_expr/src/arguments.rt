//! The arguments of a call.
ghost use Rattle.std.specs.Prelude.{◌≡◌, map, option_map};
ghost use Rattle.serde_json.specs.View.{view};
ghost use Rattle.awk_expr.specs.ArgsView.{args_view};
ghost use Rattle.awk_expr.specs.Arguments.{args_of, both, part_of};
ghost use Rattle.awk_expr.specs.Arguments.{exprs_in, named_exprs_in, pair_in};
ghost use Rattle.awk_expr.specs.Told.{Reads};

use crate::fault::QueryFault;
use crate::fixed::{Fixed, FixedArg};
use crate::kind::ArgKind;
use crate::values::{fixed_arg, items};
use awk_types::{Name, Names};
use serde_json::Value;
use std::alloc::Global;

/// What the arguments of a call give: the values of its expressions, and its other arguments.
#[derive(Drop)]
pub struct Args<'v> {
    pub exprs: Vec<&'v Value>,
    pub fixed: Fixed,
}

/// The arguments of these kinds.
pub fn read_args<'v>(
    alloc: Global,
    kinds: &[ArgKind],
    values: &'v [Value],
) -> Result<Args<'v>, QueryFault>
    ensures { Reads args_view result (args_of kinds.now (map view values.now)) }
{
    if kinds.len() != values.len() {
        return Err(QueryFault::Query);
    }
    let mut args = Args {
        exprs: Vec::new(alloc),
        fixed: Fixed::new(alloc),
    };
    for i in 0..kinds.len() {
        read_part(alloc, kinds[i], &values[i], &mut args)?;
    }
    Ok(args)
}

// Puts what an argument gives behind what the others gave.
fn read_part<'v>(
    alloc: Global,
    kind: ArgKind,
    value: &'v Value,
    args: &mut Args<'v>,
) -> Result<(), QueryFault>
    ensures { Reads (λ done. args_view args.new) result
        (option_map (both (args_view args.old)) (part_of kind (view value.now))) }
{
    match kind {
        ArgKind::Expr => {
            args.exprs.push(value)?;
            Ok(())
        }
        ArgKind::Exprs => read_exprs(value, args),
        ArgKind::NamedExprs => read_named_exprs(alloc, value, args),
        _ => {
            let arg = fixed_arg(alloc, kind, value)?;
            args.fixed.push(arg)?;
            Ok(())
        }
    }
}

// Puts the values of a list of at least one expression.
fn read_exprs<'v>(value: &'v Value, args: &mut Args<'v>) -> Result<(), QueryFault>
    ensures { Reads (λ done. args_view args.new) result
        (option_map (both (args_view args.old)) (exprs_in (view value.now))) }
{
    let values = items(value)?;
    if values.is_empty() {
        return Err(QueryFault::Query);
    }
    for value in values {
        args.exprs.push(value)?;
    }
    Ok(())
}

// Puts the values of a list of at least one pair of a name and an expression, and the names.
fn read_named_exprs<'v>(
    alloc: Global,
    value: &'v Value,
    args: &mut Args<'v>,
) -> Result<(), QueryFault>
    ensures { Reads (λ done. args_view args.new) result
        (option_map (both (args_view args.old)) (named_exprs_in (view value.now))) }
{
    let pairs = items(value)?;
    if pairs.is_empty() {
        return Err(QueryFault::Query);
    }
    let mut names = Names::new(alloc);
    for pair in pairs {
        let (name, value) = named(pair)?;
        names.push(Name::new(alloc, name)?)?;
        args.exprs.push(value)?;
    }
    if !names.are_distinct(alloc)? {
        return Err(QueryFault::Query);
    }
    args.fixed.push(FixedArg::Texts(names))?;
    Ok(())
}

// A name, and the value beside it.
fn named(pair: &Value) -> Result<(&str, &Value), QueryFault>
    ensures { Reads (λ p. (p.0.now, view p.1.now)) result (pair_in (view pair.now)) }
{
    match items(pair)? {
        [name, value] => Ok((name.as_str().ok_or(QueryFault::Query)?, value)),
        _ => Err(QueryFault::Query),
    }
}
