//! Arrays and data, made low.
ghost use Rattle.std.specs.Prelude.{◌≡◌, IfOk};
ghost use Rattle.awk_layout.specs.Datum.{datum_of, kept, IsDatum};
ghost use Rattle.awk_heights.specs.Low.{IsLow, IsLowNode, AreLowNodes, IsLowArray};

use crate::higher::is_high;
use crate::level::{Level, level_of};
use crate::nodes::covered;
use awk_lanes::{Arena, Steps};
use awk_layout::{Array, Arrays, Datum, Node, Nodes, framed};
use awk_types::{NoMemory, copy_type};
use std::alloc::Global;
use std::sync::ledger::Ledger;

/// The low node of an array.
#[cycle(low)]
fn low_node<'a, L: Ledger>(
    alloc: Global,
    x: &Array<'a>,
    arena: &'a Arena,
    steps: &mut Steps<L>,
) -> Result<Node<'a>, NoMemory>
    ensures { IfOk result (IsLowNode x.now) }
{
    match level_of(alloc, x, arena, steps)? {
        Level::Whole(node) => Ok(node),
        Level::Over(cover, contents) => {
            let node = low_node(alloc, contents.get(0), arena, steps)?;
            covered(alloc, cover, node, steps)
        }
        Level::Beside(frame, contents) => {
            let nodes = low_nodes(alloc, &contents, arena, steps)?;
            Ok(framed(x.len(), frame, nodes, steps))
        }
    }
}

/// The low nodes of arrays, one after another.
#[cycle(low)]
fn low_nodes<'a, L: Ledger>(
    alloc: Global,
    xs: &Arrays<'a>,
    arena: &'a Arena,
    steps: &mut Steps<L>,
) -> Result<Nodes<'a>, NoMemory>
    ensures { IfOk result (AreLowNodes xs.now) }
{
    let mut nodes = Nodes::new(alloc);
    for i in 0..xs.len() {
        let node = low_node(alloc, xs.get(i), arena, steps)?;
        nodes.push(node)?;
    }
    Ok(nodes)
}

/// The same array, built again so that it is low.
fn rebuild<'a, L: Ledger>(
    alloc: Global,
    x: &Array<'a>,
    arena: &'a Arena,
    steps: &mut Steps<L>,
) -> Result<Array<'a>, NoMemory>
    ensures { IfOk result (IsLowArray x.now) }
{
    let node = low_node(alloc, x, arena, steps)?;
    let _ = node.len();
    let typ = copy_type(alloc, x.typ())?;
    Ok(Array::with_type(node, typ))
}

/// The same array, low: as it stands where it is so already.
fn lower_array<'a, L: Ledger>(
    alloc: Global,
    x: Array<'a>,
    arena: &'a Arena,
    steps: &mut Steps<L>,
) -> Result<Array<'a>, NoMemory>
    ensures { IfOk result (IsLowArray x.entry) }
{
    if is_high(&x) {
        rebuild(alloc, &x, arena, steps)
    } else {
        Ok(x)
    }
}

/// The same datum, no higher than twice the depth of its type, which is at most 60.
///
/// How it works, which no clause says: what is low already is given as it stands, without a look
/// deeper than the limit. Of any other, lanes are cut at the places that options and indexes name,
/// and lists keep their starts and stops: none of their items is moved.
pub fn lower<'a, L: Ledger>(
    alloc: Global,
    x: Datum<'a>,
    arena: &'a Arena,
    steps: &mut Steps<L>,
) -> Result<Datum<'a>, NoMemory>
    requires datum { IsDatum x }
    ensures same { IfOk result (λ made. datum_of made ≡ datum_of x.entry) }
    ensures datum { IfOk result (λ made. IsDatum made) }
    ensures low { IfOk result (λ made. IsLow (kept made)) }
{
    match x {
        Datum::Arr(x) => Ok(Datum::Arr(lower_array(alloc, x, arena, steps)?)),
        Datum::One(x) => Ok(Datum::One(lower_array(alloc, x, arena, steps)?)),
    }
}
