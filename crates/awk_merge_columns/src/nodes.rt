//! Nodes over what is merged below them.
ghost use Rattle.std.specs.Prelude.{◌≡◌, ◌*◌, ◌<◌, ◌≤◌, ◌^◌, IfOk, IfSome};
ghost use Rattle.awk_types.specs.DataType.{unknown};
ghost use Rattle.awk_types.specs.View.{typ_of};
ghost use Rattle.awk_lanes.specs.Places.{size_of, AreSpans};
ghost use Rattle.awk_layout.specs.Layout.{count, layouts_from, lists, regular, rows};
ghost use Rattle.awk_layout.specs.Valid.{len, AllReach, AreNames};
ghost use Rattle.awk_merge_rows.specs.PresentLevels.{option_over, IsIndexOf};
ghost use Rattle.awk_merge_rows.specs.RowLevels.{row_names};
ghost use Rattle.awk_merge_sides.specs.Sides.{sides_of, AreSides, IsMerged};

use awk_lanes::{Lane, Steps};
use awk_layout::{Node, Nodes};
use awk_merge_sides::Sides;
use awk_types::{NoMemory, Typ, same};
use awk_unify::{Lift, field_names};
use std::alloc::Global;
use std::sync::ledger::Ledger;

/// The only column, where its values are of the type and stay.
pub fn only<'a>(alloc: Global, t: &Typ, sides: &Sides<'a>) -> Result<Option<Node<'a>>, NoMemory>
    ensures { IfOk result (λ found. IfSome found (IsMerged (typ_of t.now) (sides_of sides.now))) }
{
    if sides.len() != 1 {
        return Ok(None);
    }
    let side = sides.get(0);
    match side.lift {
        Lift::Same if same(side.column.typ(), t) => Ok(Some(side.column.node().copy(alloc)?)),
        _ => Ok(None),
    }
}

/// A node without items, as no column has an item of unknown type.
pub fn nothing<'a, L: Ledger>(sides: &Sides<'a>, steps: &mut Steps<L>) -> Node<'a>
    requires { AreSides unknown (sides_of sides.now) }
    ensures { IsMerged unknown (sides_of sides.now) result }
{
    if sides.len() > 0 {
        let _ = sides.get(0).column.len();
        unreachable!()
    }
    Node::empty(steps)
}

/// The items at an index, and null at each negative number of it; or all items, where there is no
/// index.
pub fn option_node<'a, L: Ledger>(
    alloc: Global,
    index: Option<Lane<'a>>,
    content: Node<'a>,
    steps: &mut Steps<L>,
) -> Result<Node<'a>, NoMemory>
    requires { IsIndexOf (len content) index }
    ensures { IfOk result (λ x. x ≡ option_over index.entry content.entry) }
{
    let n = content.len();
    let content = Box::new(alloc, content)?;
    match index {
        Some(index) => Ok(Node::indexed_option(index, content, steps)),
        None => Ok(Node::unmasked(content, n, steps)),
    }
}

/// Lists from their starts below their stops.
pub fn list_node<'a, L: Ledger>(
    alloc: Global,
    starts: Lane<'a>,
    stops: Lane<'a>,
    content: Node<'a>,
    steps: &mut Steps<L>,
) -> Result<Node<'a>, NoMemory>
    requires length { size_of starts < 2 ^ 63 }
    requires valid { AreSpans starts stops (len content) }
    ensures { IfOk result (λ x. x ≡ lists starts.entry stops.entry content.entry) }
{
    let content = Box::new(alloc, content)?;
    Ok(Node::list(starts, stops, content, steps))
}

/// So many lists of one length.
pub fn regular_node<'a, L: Ledger>(
    alloc: Global,
    size: u64,
    n: u64,
    content: Node<'a>,
    steps: &mut Steps<L>,
) -> Result<Node<'a>, NoMemory>
    requires length { n < 2 ^ 63 }
    requires valid { n * size ≤ len content }
    ensures { IfOk result (λ x. x ≡ regular size n content.entry) }
{
    let content = Box::new(alloc, content)?;
    Ok(Node::regular(size, n, content, steps))
}

/// So many records or tuples of a type.
pub fn row_node<'a, L: Ledger>(
    alloc: Global,
    t: &Typ,
    n: u64,
    contents: Nodes<'a>,
    steps: &mut Steps<L>,
) -> Result<Node<'a>, NoMemory>
    requires length { n < 2 ^ 63 }
    requires names { AreNames (row_names (typ_of t.now)) (count (layouts_from contents)) }
    requires valid { AllReach n (layouts_from contents) }
    ensures { let names = row_names (typ_of t.now) in
        IfOk result (λ x. x ≡ rows names n (layouts_from contents.entry)) }
{
    let names = match t {
        Typ::Rec(fields) => Some(field_names(alloc, fields)?),
        _ => None,
    };
    Ok(Node::row(names, n, contents, steps))
}
