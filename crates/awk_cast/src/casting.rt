//! Arrays and data, cast.
ghost use Rattle.std.specs.Prelude.{◌≡◌, IfOk};
ghost use Rattle.awk_types.specs.Faults.{fault_told};
ghost use Rattle.awk_types.specs.Gives.{Gives};
ghost use Rattle.awk_layout.specs.Datum.{datum_of, IsDatum};
ghost use Rattle.awk_layout.specs.Valid.{len};
ghost use Rattle.awk_cast.specs.Cast.{cast_of};
ghost use Rattle.awk_cast.specs.Casting.{IsAnswer, AreAnswer, IsTaken, IsMade};

use crate::fault::CastFault;
use crate::level::{Level, level_of};
use crate::nodes::covered;
use awk_kernels::Kernels;
use awk_lanes::{Arena, Steps};
use awk_layout::{Array, Arrays, Datum, Node, Nodes, framed};
use awk_types::{Fault, ITEM_LIMIT, Prim};
use std::alloc::Global;
use std::sync::ledger::Ledger;

/// An array with each leaf in a primitive.
#[cycle(cast)]
fn cast_column<'a, N: Kernels, L: Ledger>(
    alloc: Global,
    to: Prim,
    x: &Array<'a>,
    kernels: &N,
    arena: &'a Arena,
    steps: &mut Steps<L>,
) -> Result<Node<'a>, CastFault>
    ensures { IsAnswer to x.now result }
{
    match level_of(alloc, to, x, kernels, arena, steps)? {
        Level::Whole(node) => Ok(node),
        Level::Over(cover, contents) => {
            let node = cast_column(alloc, to, contents.get(0), kernels, arena, steps)?;
            Ok(covered(alloc, x.len(), cover, node, steps)?)
        }
        Level::Beside(frame, contents) => {
            let nodes = cast_each(alloc, to, &contents, kernels, arena, steps)?;
            Ok(framed(x.len(), frame, nodes, steps))
        }
    }
}

/// One more node, or an overflow, after which only a size is still told.
fn taken<'a>(
    overflows: bool,
    nodes: &mut Nodes<'a>,
    made: Result<Node<'a>, CastFault>,
) -> Result<bool, CastFault>
    ensures { IsTaken overflows nodes.old made.entry nodes.new result }
{
    match made {
        Ok(node) => {
            nodes.push(node)?;
            Ok(overflows)
        }
        Err(CastFault::Overflow) => Ok(true),
        Err(CastFault::Size) => Err(CastFault::Size),
        Err(CastFault::NoMemory) => Err(CastFault::NoMemory),
    }
}

/// Arrays one after another, with each leaf in a primitive.
#[cycle(cast)]
fn cast_each<'a, N: Kernels, L: Ledger>(
    alloc: Global,
    to: Prim,
    xs: &Arrays<'a>,
    kernels: &N,
    arena: &'a Arena,
    steps: &mut Steps<L>,
) -> Result<Nodes<'a>, CastFault>
    ensures { AreAnswer to xs.now result }
{
    let mut nodes = Nodes::new(alloc);
    let mut overflows = false;
    for i in 0..xs.len() {
        let made = cast_column(alloc, to, xs.get(i), kernels, arena, steps);
        overflows = taken(overflows, &mut nodes, made)?;
    }
    if overflows {
        return Err(CastFault::Overflow);
    }
    Ok(nodes)
}

/// The array that a datum is kept as, with each leaf in a primitive.
fn cast_array<'a, N: Kernels, L: Ledger>(
    alloc: Global,
    to: Prim,
    x: &Array<'a>,
    kernels: &N,
    arena: &'a Arena,
    steps: &mut Steps<L>,
) -> Result<Array<'a>, CastFault>
    ensures { IsMade to x.now result }
{
    let node = cast_column(alloc, to, x, kernels, arena, steps)?;
    let _ = node.len();
    let _ = x.typ();
    Ok(Array::of_node(alloc, node)?)
}

/// The datum with each leaf in a primitive: a truth value is 0 or 1, and a number is true where it
/// is not 0. Nulls, unknown, the lengths of lists and the alternatives of unions stay.
///
/// `Size` comes where the array, or the lists at one node of its type together, have more than
/// 1,073,741,824 items, and else `Overflow` where the primitive does not hold a number.
pub fn cast<'a, N: Kernels, L: Ledger>(
    alloc: Global,
    x: &Datum<'a>,
    to: Prim,
    kernels: &N,
    arena: &'a Arena,
    steps: &mut Steps<L>,
) -> Result<Datum<'a>, Fault>
    requires datum { IsDatum x.now }
    ensures answer { Gives datum_of fault_told result (cast_of to (datum_of x.now)) }
    ensures datum { IfOk result (λ made. IsDatum made) }
{
    match x {
        Datum::Arr(x) => {
            if x.len() > ITEM_LIMIT {
                return Err(Fault::Size);
            }
            Ok(Datum::Arr(cast_array(alloc, to, x, kernels, arena, steps)?))
        }
        Datum::One(x) => Ok(Datum::One(cast_array(alloc, to, x, kernels, arena, steps)?)),
    }
}
