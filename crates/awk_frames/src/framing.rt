//! A column of ends under a frame.
ghost use Rattle.std.specs.Prelude.{◌≡◌, ◌-◌, List, map, IfOk};
ghost use Rattle.std.specs.List.{AllByRecursion};
ghost use Rattle.awk_types.specs.DataType.{DataType};
ghost use Rattle.awk_types.specs.Has.{Has};
ghost use Rattle.awk_types.specs.Value.{Value};
ghost use Rattle.awk_columns.specs.Joined.{AreOffsets};
ghost use Rattle.awk_columns.specs.ListNode.{AreEven, list_layout};
ghost use Rattle.awk_frames.specs.Framed.{IsFrame, IsAlike, places, framed_layout, over, over_type};
ghost use Rattle.awk_frames.specs.Shape.{shape as shape_by, ends as ends_by};
ghost use Rattle.awk_frames.specs.View.{shape_of};
ghost use Rattle.awk_lanes.specs.Places.{size_of};
ghost use Rattle.awk_layout.specs.Typing.{array_type, array_items};
ghost use Rattle.awk_layout.specs.Valid.{len};

use crate::frame::Frame;
use awk_lanes::{Lane, NoMemory, Steps};
use awk_layout::Node;
use std::alloc::Global;
use std::sync::ledger::Ledger;

/// Lists over their content: even ones of a sized class.
fn list_node<'a, L: Ledger>(
    alloc: Global,
    class: Option<u64>,
    offsets: Lane<'a>,
    content: Node<'a>,
    steps: &mut Steps<L>,
) -> Result<Node<'a>, NoMemory>
    requires offsets { AreOffsets offsets (size_of offsets - 1) (len content) }
    requires even { AreEven class offsets (size_of offsets - 1) }
    ensures { let n = size_of offsets.entry - 1 in
        IfOk result (λ y. y ≡ list_layout class n offsets.entry content.entry) }
{
    let content = Box::new(alloc, content)?;
    match class {
        None => Ok(Node::list_offset(offsets, content, steps)),
        Some(size) => Ok(Node::regular(size, offsets.len() - 1, content, steps)),
    }
}

/// A column of ends under a frame.
#[cycle(framed)]
fn node_under<'a, L: Ledger>(
    alloc: Global,
    shape: &Frame<'a>,
    ends: Node<'a>,
    steps: &mut Steps<L>,
) -> Result<Node<'a>, NoMemory>
    requires { IsFrame (shape_of shape.now) (len ends) }
    ensures { IfOk result (IsAlike (framed_layout (shape_of shape.now) ends.entry)) }
{
    match shape {
        Frame::Leaf(_) => Ok(ends),
        Frame::Items {
            offsets,
            regular,
            below,
        } => {
            let content = node_under(alloc, below, ends, steps)?;
            list_node(alloc, *regular, offsets.copy(), content, steps)
        }
        Frame::Missing { index, below } => {
            let content = node_under(alloc, below, ends, steps)?;
            let content = Box::new(alloc, content)?;
            Ok(Node::indexed_option(index.lane(), content, steps))
        }
    }
}

/// The node of a column of ends under a frame: values with the column's items at their ends.
///
/// Where the column has what a function gives for what stands at the ends of values, the node has
/// the values with the function applied at their ends. A column of rows is one column: this builds
/// records too. A null of the column under an option is null, and the type is one option.
pub fn framed<'a, L: Ledger>(
    alloc: Global,
    shape: &Frame<'a>,
    ends: Node<'a>,
    steps: &mut Steps<L>,
) -> Result<Node<'a>, NoMemory>
    requires frame { IsFrame (shape_of shape.now) (len ends) }
    ensures items { (t : DataType) (f : Value → Value) (vs : List Value) → AllByRecursion (Has t) vs
        → shape_of shape.now ≡ shape_by t vs → array_items ends.entry ≡ map f (ends_by t vs)
        → IfOk result (λ y. array_items y ≡ map (over t f) vs) }
    ensures typ { (t : DataType) (vs : List Value) → shape_of shape.now ≡ shape_by t vs
        → IfOk result (λ y. array_type y ≡ over_type t (array_type ends.entry)) }
    ensures size { IfOk result (λ y. len y ≡ places (shape_of shape.now)) }
{
    node_under(alloc, shape, ends, steps)
}
