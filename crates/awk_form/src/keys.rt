//! The values at the keys of a node.
ghost use Rattle.std.specs.Prelude.{◌≡◌, ◌∷◌, ◌++◌, List, ℕ, Bool, Some, None, Ok, codes, map};
ghost use Rattle.std.specs.Prelude.{length, option_map, option_and_then};
ghost use Rattle.serde_json.specs.Find.{get, as_str};
ghost use Rattle.awk_types.specs.Gives.{Gives};
ghost use Rattle.serde_json.specs.View.{view, items_view};
ghost use Rattle.awk_form.specs.Tables.{meaning, index_kinds, option_index_kinds, byte_kinds};
ghost use Rattle.awk_form.specs.Tables.{bit_kinds, primitives};
ghost use Rattle.awk_form.specs.Told.{why_told, unit};
ghost use Rattle.awk_form.specs.Node.{present_or, text_at as text_said, number_at as number_said};
ghost use Rattle.awk_form.specs.Node.{truth_at as truth_said, kind_at as kind_said};
ghost use Rattle.awk_form.specs.Node.{primitive_at as primitive_said, numbers_of};
ghost use Rattle.awk_form.specs.Node.{inner_shape_at as inner_shape_said};
ghost use Rattle.awk_form.specs.Node.{content_at as content_said, contents_at as contents_said};
ghost use Rattle.awk_form.specs.Node.{parameters_at as parameters_said};
ghost use Rattle.awk_form.specs.Node.{form_key_at as form_key_said};
ghost use Rattle.awk_form.specs.declared.fault.FormWhy.TheVariants.{Key};

use crate::dims::Dims;
use crate::fault::{FormWhy, NodeFault};
use crate::kind::IndexKind;
use awk_types::{Name, Prim};
use serde_json::Value;
use std::alloc::Global;

/// The text at a key, if there is one.
pub fn text_if_any<'a>(json: &'a Value, key: &str) -> Option<&'a str>
    ensures { option_map (λ text. text.now) result
        ≡ option_and_then as_str (get key.now (view json.now)) }
{
    json.get(key).and_then(Value::as_str)
}

/// The text at a key.
pub fn text_at<'a>(json: &'a Value, key: &str) -> Result<&'a str, FormWhy>
    ensures { Gives (λ text. text.now) Some result (text_said key.now (view json.now)) }
{
    text_if_any(json, key).ok_or(FormWhy::Key)
}

/// The number at a key.
pub fn number_at(json: &Value, key: &str) -> Result<u64, FormWhy>
    ensures { Gives (λ n. n) Some result (number_said key.now (view json.now)) }
{
    json.get(key).and_then(Value::as_u64).ok_or(FormWhy::Key)
}

/// The truth value at a key.
pub fn truth_at(json: &Value, key: &str) -> Result<bool, FormWhy>
    ensures { Gives (λ b. b) Some result (truth_said key.now (view json.now)) }
{
    json.get(key).and_then(Value::as_bool).ok_or(FormWhy::Key)
}

fn index_kind(text: &str) -> Option<IndexKind>
    ensures { result ≡ meaning index_kinds text.now }
{
    match text {
        "i32" => Some(IndexKind::I32),
        "u32" => Some(IndexKind::U32),
        "i64" => Some(IndexKind::I64),
        _ => None,
    }
}

fn option_index_kind(text: &str) -> Option<IndexKind>
    ensures { result ≡ meaning option_index_kinds text.now }
{
    match text {
        "i32" => Some(IndexKind::I32),
        "i64" => Some(IndexKind::I64),
        _ => None,
    }
}

/// The kind of an index at a key.
pub fn index_kind_at(json: &Value, key: &str) -> Result<IndexKind, FormWhy>
    ensures { Gives (λ kind. kind) Some result (kind_said index_kinds key.now (view json.now)) }
{
    index_kind(text_at(json, key)?).ok_or(FormWhy::Kind)
}

/// The kind of an index at a key, whose negative numbers mean nulls.
pub fn option_index_kind_at(json: &Value, key: &str) -> Result<IndexKind, FormWhy>
    ensures { Gives (λ kind. kind) Some result
        (kind_said option_index_kinds key.now (view json.now)) }
{
    option_index_kind(text_at(json, key)?).ok_or(FormWhy::Kind)
}

/// The kind of tags or of a mask of bytes at a key, of which there is one.
pub fn byte_kind_at(json: &Value, key: &str) -> Result<(), FormWhy>
    ensures { Gives (λ kind. kind) Some result (kind_said byte_kinds key.now (view json.now)) }
{
    match text_at(json, key)? {
        "i8" => Ok(()),
        _ => Err(FormWhy::Kind),
    }
}

/// The kind of a mask of bits at a key, of which there is one.
pub fn bit_kind_at(json: &Value, key: &str) -> Result<(), FormWhy>
    ensures { Gives (λ kind. kind) Some result (kind_said bit_kinds key.now (view json.now)) }
{
    match text_at(json, key)? {
        "u8" => Ok(()),
        _ => Err(FormWhy::Kind),
    }
}

fn primitive_named(text: &str) -> Option<Prim>
    ensures { result ≡ meaning primitives text.now }
{
    match text {
        "bool" => Some(Prim::Bool),
        "int8" => Some(Prim::I8),
        "int16" => Some(Prim::I16),
        "int32" => Some(Prim::I32),
        "int64" => Some(Prim::I64),
        "uint8" => Some(Prim::U8),
        "uint16" => Some(Prim::U16),
        "uint32" => Some(Prim::U32),
        "uint64" => Some(Prim::U64),
        _ => None,
    }
}

/// The primitive of a node.
pub fn primitive_at(json: &Value) -> Result<Prim, FormWhy>
    ensures { Gives (λ prim. prim) Some result (primitive_said (view json.now)) }
{
    primitive_named(text_at(json, "primitive")?).ok_or(FormWhy::Primitive)
}

/// The numbers of a list, if each item is one.
fn numbers(alloc: Global, items: &Vec<Value>) -> Result<Dims, NodeFault>
    ensures { Gives (λ dims. dims) why_told result
        (present_or Key (numbers_of (items_view items.now.items))) }
{
    let mut dims = Dims::new(alloc);
    for item in items {
        dims.push(item.as_u64().ok_or(FormWhy::Key)?)?;
    }
    Ok(dims)
}

/// The inner shape of a node, which is empty where it is absent.
pub fn inner_shape_at(alloc: Global, json: &Value) -> Result<Dims, NodeFault>
    ensures { Gives (λ dims. dims) why_told result (inner_shape_said (view json.now)) }
{
    match json.get("inner_shape") {
        None => Ok(Dims::new(alloc)),
        Some(shape) => numbers(alloc, shape.as_array().ok_or(FormWhy::Key)?),
    }
}

/// The content of a node, which is judged as a node of its own.
pub fn content_at(json: &Value) -> Result<&Value, FormWhy>
    ensures { Gives (λ content. view content.now) Some result (content_said (view json.now)) }
{
    json.get("content").ok_or(FormWhy::Key)
}

/// The contents of a node, each of which is judged as a node of its own.
pub fn contents_at(json: &Value) -> Result<&[Value], FormWhy>
    ensures { Gives (λ contents. map view contents.now) Some result
        (contents_said (view json.now)) }
{
    let contents = json
        .get("contents")
        .and_then(Value::as_array)
        .ok_or(FormWhy::Key)?;
    Ok(contents.as_slice())
}

/// Judges the parameters of a node.
pub fn judge_parameters(json: &Value) -> Result<(), FormWhy>
    ensures { Gives unit Some result (parameters_said (view json.now)) }
{
    let Some(parameters) = json.get("parameters") else {
        return Ok(());
    };
    match parameters {
        Value::Null => Ok(()),
        Value::Object(_) => match parameters.get("__array__") {
            None | Some(Value::Null) => Ok(()),
            Some(_) => Err(FormWhy::Parameter),
        },
        _ => Err(FormWhy::Parameter),
    }
}

/// The form key of a node, which may be absent only where it is not needed.
pub fn form_key_at(alloc: Global, is_needed: bool, json: &Value) -> Result<Option<Name>, NodeFault>
    ensures { Gives (λ key. key) why_told result (form_key_said is_needed (view json.now)) }
{
    match json.get("form_key") {
        Some(Value::String(key)) => Ok(Some(Name::new(alloc, key)?)),
        None | Some(Value::Null) if !is_needed => Ok(None),
        _ => Err(FormWhy::FormKey.into()),
    }
}
