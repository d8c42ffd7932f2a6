//! Columns of leaves, cast.
ghost use Rattle.std.specs.Prelude.{◌≡◌, true, IfOk, IsTrue};
ghost use Rattle.awk_types.specs.DataType.{leaf};
ghost use Rattle.awk_layout.specs.Typing.{array_type, array_items};
ghost use Rattle.awk_pointwise.specs.Sides.{lane_values};
ghost use Rattle.awk_cast.specs.Casting.{is_primitive, leaf_fault, IsAnswer, IsLaneOf};

use crate::fault::CastFault;
use awk_kernels::Kernels;
use awk_lanes::{Arena, Lane, NoMemory, Steps};
use awk_layout::{Array, Node};
use awk_leaves::Unary;
use awk_open::{Opened, in_order};
use awk_pointwise::{Side, unary_leaves};
use awk_types::{Fault, Prim};
use std::alloc::Global;
use std::sync::ledger::Ledger;

/// The lane of an array of numbers or truth values.
fn leaf_lane<'a, L: Ledger>(
    alloc: Global,
    x: &Array<'a>,
    arena: &'a Arena,
    steps: &mut Steps<L>,
) -> Result<Lane<'a>, NoMemory>
    requires { is_primitive (array_type x.now) ≡ true }
    ensures { IfOk result (IsLaneOf x.now) }
{
    match in_order(alloc, x, arena, steps)? {
        Opened::Leaf(lane) => Ok(lane),
        _ => unreachable!(),
    }
}

/// The fault of leaves, which is an overflow where memory is not wanting.
fn leaf_fault(fault: &Fault) -> CastFault
    ensures { result ≡ leaf_fault fault.now }
{
    match fault {
        Fault::NoMemory => CastFault::NoMemory,
        _ => CastFault::Overflow,
    }
}

/// An array of numbers or truth values, each in a primitive.
fn cast_numbers<'a, N: Kernels, L: Ledger>(
    alloc: Global,
    to: Prim,
    x: &Array<'a>,
    kernels: &N,
    arena: &'a Arena,
    steps: &mut Steps<L>,
) -> Result<Node<'a>, CastFault>
    requires { is_primitive (array_type x.now) ≡ true }
    ensures { IsAnswer to x.now result }
{
    let n = x.len();
    let lane = leaf_lane(alloc, x, arena, steps)?;
    let side = Side::Column(&lane);
    match unary_leaves(alloc, Unary::Cast(to), &side, n, kernels, arena, steps) {
        Ok(cast) => Ok(Node::numpy(cast, steps)),
        Err(fault) => Err(leaf_fault(&fault)),
    }
}

fn are_same(a: Prim, b: Prim) -> bool
    ensures { IsTrue result → a ≡ b }
{
    a == b
}

/// An array of leaves of one primitive, each in another. Where both are the same the array is
/// borrowed as it lies.
pub(crate) fn cast_leaves<'a, N: Kernels, L: Ledger>(
    alloc: Global,
    to: Prim,
    from: Prim,
    x: &Array<'a>,
    kernels: &N,
    arena: &'a Arena,
    steps: &mut Steps<L>,
) -> Result<Node<'a>, CastFault>
    requires { array_type x.now ≡ leaf from }
    ensures { IsAnswer to x.now result }
{
    if are_same(from, to) {
        let _ = x.len();
        return Ok(x.node().copy(alloc)?);
    }
    cast_numbers(alloc, to, x, kernels, arena, steps)
}
