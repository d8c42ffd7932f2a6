//! One node of a form, before its contents are read.
ghost use Rattle.std.specs.Prelude.{◌≡◌, Some};
ghost use Rattle.awk_types.specs.Gives.{Gives};
ghost use Rattle.serde_json.specs.View.{view};
ghost use Rattle.awk_form.specs.Told.{why_told};
ghost use Rattle.awk_form.specs.Node.{class_at as class_said, head_at, node_at};
ghost use Rattle.awk_form.specs.NodeView.{head_of, node_of};
ghost use Rattle.awk_form.specs.declared.class.Class.TheVariants as class;

use crate::class::{Class, class_named, has_buffers};
use crate::dims::Dims;
use crate::fault::{FormWhy, NodeFault};
use crate::keys::{
    bit_kind_at, byte_kind_at, content_at, contents_at, form_key_at, index_kind_at, inner_shape_at,
    judge_parameters, number_at, option_index_kind_at, primitive_at, text_if_any, truth_at,
};
use crate::kind::IndexKind;
use crate::names::fields_at;
use awk_types::{Name, Names, Prim};
use serde_json::Value;
use std::alloc::Global;

/// A class with the values of its keys. A content is any JSON value.
#[derive(Drop)]
pub enum Head<'a> {
    Empty,
    Numpy {
        prim: Prim,
        inner: Dims,
    },
    Regular {
        size: u64,
        content: &'a Value,
    },
    List {
        starts: IndexKind,
        stops: IndexKind,
        content: &'a Value,
    },
    ListOffset {
        offsets: IndexKind,
        content: &'a Value,
    },
    Row {
        names: Option<Names>,
        contents: &'a [Value],
    },
    Indexed {
        index: IndexKind,
        content: &'a Value,
    },
    IndexedOption {
        index: IndexKind,
        content: &'a Value,
    },
    ByteMasked {
        valid_when: bool,
        content: &'a Value,
    },
    BitMasked {
        valid_when: bool,
        lsb_order: bool,
        content: &'a Value,
    },
    Unmasked {
        content: &'a Value,
    },
    Union {
        index: IndexKind,
        contents: &'a [Value],
    },
}

/// What a node says.
#[derive(Drop)]
pub struct Node<'a> {
    pub key: Option<Name>,
    pub head: Head<'a>,
}

/// What the JSON value of a node says, or the first cause against it.
#[tactic(auto, unfolding(crate::specs::Node::node_at))]
pub fn read_node(alloc: Global, json: &Value) -> Result<Node<'_>, NodeFault>
    ensures { Gives node_of why_told result (node_at (view json.now)) }
{
    let class = class_at(json)?;
    let head = read_head(alloc, class, json)?;
    judge_parameters(json)?;
    let key = form_key_at(alloc, has_buffers(class), json)?;
    Ok(Node { key, head })
}

fn class_at(json: &Value) -> Result<Class, FormWhy>
    ensures { Gives (λ class. class) Some result (class_said (view json.now)) }
{
    let text = text_if_any(json, "class").ok_or(FormWhy::Class)?;
    class_named(text).ok_or(FormWhy::Class)
}

fn read_head(alloc: Global, class: Class, json: &Value) -> Result<Head<'_>, NodeFault>
    ensures { Gives head_of why_told result (head_at class (view json.now)) }
{
    match class {
        Class::Empty => Ok(Head::Empty),
        Class::Numpy => numpy(alloc, json),
        Class::Regular => Ok(regular(json)?),
        Class::List => Ok(list(json)?),
        Class::ListOffset => Ok(list_offset(json)?),
        Class::Row => row(alloc, json),
        Class::Indexed => Ok(indexed(json)?),
        Class::IndexedOption => Ok(indexed_option(json)?),
        Class::ByteMasked => Ok(byte_masked(json)?),
        Class::BitMasked => Ok(bit_masked(json)?),
        Class::Unmasked => Ok(unmasked(json)?),
        Class::Union => Ok(union(json)?),
    }
}

fn numpy(alloc: Global, json: &Value) -> Result<Head<'_>, NodeFault>
    ensures { Gives head_of why_told result (head_at class.Numpy (view json.now)) }
{
    let prim = primitive_at(json)?;
    let inner = inner_shape_at(alloc, json)?;
    Ok(Head::Numpy { prim, inner })
}

fn regular(json: &Value) -> Result<Head<'_>, FormWhy>
    ensures { Gives head_of Some result (head_at class.Regular (view json.now)) }
{
    let size = number_at(json, "size")?;
    let content = content_at(json)?;
    Ok(Head::Regular { size, content })
}

fn list(json: &Value) -> Result<Head<'_>, FormWhy>
    ensures { Gives head_of Some result (head_at class.List (view json.now)) }
{
    let starts = index_kind_at(json, "starts")?;
    let stops = index_kind_at(json, "stops")?;
    let content = content_at(json)?;
    Ok(Head::List {
        starts,
        stops,
        content,
    })
}

fn list_offset(json: &Value) -> Result<Head<'_>, FormWhy>
    ensures { Gives head_of Some result (head_at class.ListOffset (view json.now)) }
{
    let offsets = index_kind_at(json, "offsets")?;
    let content = content_at(json)?;
    Ok(Head::ListOffset { offsets, content })
}

fn row(alloc: Global, json: &Value) -> Result<Head<'_>, NodeFault>
    ensures { Gives head_of why_told result (head_at class.Row (view json.now)) }
{
    let names = fields_at(alloc, json)?;
    let contents = contents_at(json)?;
    if let Some(names) = &names {
        if names.len() != contents.len() {
            return Err(FormWhy::Key.into());
        }
    }
    Ok(Head::Row { names, contents })
}

fn indexed(json: &Value) -> Result<Head<'_>, FormWhy>
    ensures { Gives head_of Some result (head_at class.Indexed (view json.now)) }
{
    let index = index_kind_at(json, "index")?;
    let content = content_at(json)?;
    Ok(Head::Indexed { index, content })
}

fn indexed_option(json: &Value) -> Result<Head<'_>, FormWhy>
    ensures { Gives head_of Some result (head_at class.IndexedOption (view json.now)) }
{
    let index = option_index_kind_at(json, "index")?;
    let content = content_at(json)?;
    Ok(Head::IndexedOption { index, content })
}

fn byte_masked(json: &Value) -> Result<Head<'_>, FormWhy>
    ensures { Gives head_of Some result (head_at class.ByteMasked (view json.now)) }
{
    byte_kind_at(json, "mask")?;
    let valid_when = truth_at(json, "valid_when")?;
    let content = content_at(json)?;
    Ok(Head::ByteMasked {
        valid_when,
        content,
    })
}

fn bit_masked(json: &Value) -> Result<Head<'_>, FormWhy>
    ensures { Gives head_of Some result (head_at class.BitMasked (view json.now)) }
{
    bit_kind_at(json, "mask")?;
    let valid_when = truth_at(json, "valid_when")?;
    let lsb_order = truth_at(json, "lsb_order")?;
    let content = content_at(json)?;
    Ok(Head::BitMasked {
        valid_when,
        lsb_order,
        content,
    })
}

fn unmasked(json: &Value) -> Result<Head<'_>, FormWhy>
    ensures { Gives head_of Some result (head_at class.Unmasked (view json.now)) }
{
    let content = content_at(json)?;
    Ok(Head::Unmasked { content })
}

fn union(json: &Value) -> Result<Head<'_>, FormWhy>
    ensures { Gives head_of Some result (head_at class.Union (view json.now)) }
{
    byte_kind_at(json, "tags")?;
    let index = index_kind_at(json, "index")?;
    let contents = contents_at(json)?;
    if contents.is_empty() || contents.len() > 127 {
        return Err(FormWhy::Alternatives);
    }
    Ok(Head::Union { index, contents })
}
