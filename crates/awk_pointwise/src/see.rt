//! The numbers of a side at each place.
ghost use Rattle.std.specs.Prelude.{◌≡◌, ◌≤◌, replicate, slice_range, IfOk};
ghost use Rattle.awk_lanes.specs.Places.{size_of};
ghost use Rattle.awk_types.specs.Value.{int, null};
ghost use Rattle.awk_layout.specs.Kinds.{primitive_of};
ghost use Rattle.awk_leaves.specs.Values.{value_in};
ghost use Rattle.awk_leaves.specs.declared.leaf_type.LeafType.TheVariants.{Of, Unknown, Literal};
ghost use Rattle.awk_pointwise.specs.Numbers.{AreNumbersOf};
ghost use Rattle.awk_pointwise.specs.Sides.{leaf_type, lane_values};
ghost use Rattle.awk_pointwise.specs.Blocks.{IsSidePast, side_part};
ghost use Rattle.awk_pointwise.specs.Sides.{IsLeafNumber, IsNumber64};

use crate::sides::Side;
use crate::words::{Words, repeated, words_of};
use awk_lanes::{Lane, NoMemory, Steps};
use awk_types::Prim;
use std::alloc::Global;
use std::sync::ledger::Ledger;

/// The numbers of a lane.
fn see_lane<L: Ledger>(alloc: Global, lane: &Lane, steps: &mut Steps<L>) -> Result<Words, NoMemory>
    ensures { IfOk result (AreNumbersOf (Of (primitive_of lane.now.kind)) (lane_values lane.now)) }
{
    let _ = lane.len(); // each number is one of its kind
    words_of(alloc, lane, steps)
}

/// A number of a primitive at each of n places.
fn see_one(alloc: Global, prim: Prim, z: i128, n: u64) -> Result<Words, NoMemory>
    requires { IsLeafNumber prim z }
    ensures { IfOk result (AreNumbersOf (Of prim) (replicate n (value_in prim z))) }
{
    repeated(alloc, z, n)
}

/// A literal at each of n places.
fn see_literal(alloc: Global, z: i128, n: u64) -> Result<Words, NoMemory>
    requires { IsNumber64 z }
    ensures { IfOk result (AreNumbersOf (Literal z) (replicate n (int z))) }
{
    repeated(alloc, z, n)
}

/// The numbers of unknown, which has no places.
fn see_missing(alloc: Global, n: u64) -> Result<Words, NoMemory>
    requires { n ≡ 0 }
    ensures { IfOk result (AreNumbersOf Unknown (replicate n null)) }
{
    Ok(Words::Ints(Vec::new(alloc)))
}

/// The numbers of a lane from place lo below place hi.
fn see_cut<L: Ledger>(
    alloc: Global,
    lane: &Lane,
    lo: u64,
    hi: u64,
    steps: &mut Steps<L>,
) -> Result<Words, NoMemory>
    requires order { lo ≤ hi }
    requires within { hi ≤ size_of lane.now }
    ensures { IfOk result (AreNumbersOf (Of (primitive_of lane.now.kind))
        (slice_range (lane_values lane.now) lo hi)) }
{
    let part = lane.cut(lo, hi, steps);
    see_lane(alloc, &part, steps)
}

/// The numbers of a side from place lo below place hi of n places.
pub(crate) fn see_part<L: Ledger>(
    alloc: Global,
    side: &Side,
    lo: u64,
    hi: u64,
    steps: &mut Steps<L>,
) -> Result<Words, NoMemory>
    requires order { lo ≤ hi }
    requires side { IsSidePast hi side.now }
    ensures { IfOk result (AreNumbersOf (leaf_type side.now) (side_part lo hi side.now)) }
{
    match side {
        Side::Column(lane) => see_cut(alloc, lane, lo, hi, steps),
        Side::Missing => see_missing(alloc, hi - lo),
        Side::Number(prim, z) => see_one(alloc, *prim, *z, hi - lo),
        Side::Literal(z) => see_literal(alloc, *z, hi - lo),
    }
}
