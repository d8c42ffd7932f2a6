//! Places read from lanes.
ghost use Rattle.std.specs.Prelude.{◌≡◌, ◌<◌, ◌^◌, ◌≤ℤ◌, pos};
ghost use Rattle.awk_lanes.specs.Places.{size_of, at, place_at};
ghost use Rattle.awk_lanes.specs.declared.kind.Kind.TheVariants as Kinds;

use awk_lanes::{Lane, Steps, wide_at};
use std::sync::ledger::Ledger;

/// The place at place i of a lane.
#[inline(always)]
pub(crate) fn place_of<L: Ledger>(lane: &Lane, i: u64, steps: &mut Steps<L>) -> u64
    requires kind { lane.now.kind ≡ Kinds.I64 }
    requires within { i < size_of lane.now }
    requires positive { pos 0 ≤ℤ at lane.now i }
    ensures value { result ≡ place_at lane.now i }
    ensures fits { result < 2 ^ 63 }
{
    wide_at(lane, i, steps) as u64
}
