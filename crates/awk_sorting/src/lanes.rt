//! A lane with each part in order.
ghost use Rattle.std.specs.Prelude.{◌≡◌, ◌≢◌, map, IfOk};
ghost use Rattle.awk_lanes.specs.Numbers.{element};
ghost use Rattle.awk_lanes.specs.Places.{size_of};
ghost use Rattle.awk_lanes.specs.Words.{integers};
ghost use Rattle.awk_lanes.specs.declared.kind.Kind.TheVariants as Kind;
ghost use Rattle.awk_numbers.specs.Folds.{lane_numbers};
ghost use Rattle.awk_parts.specs.Parts.{AreRising};
ghost use Rattle.awk_sorting.specs.Lanes.{SortsLane};

use crate::parts::sort_parts;
use crate::wide::wide_in_order;
use awk_index::{Index, byte_numbers, index_of, nats_of, numbers_of};
use awk_lanes::{Arena, Kind, Lane, NoMemory, Steps, lane_of_nats, lane_of_numbers};
use std::alloc::Global;
use std::sync::ledger::Ledger;

/// Truth values as 0 or 1, by their bytes.
fn truths_of(alloc: Global, bytes: &[u8]) -> Result<Vec<i64>, NoMemory>
    ensures { IfOk result (λ v. v.items ≡ map (element Kind.Bool) (integers bytes.now)) }
{
    let mut numbers = Vec::with_capacity(alloc, bytes.len())?;
    for i in 0..bytes.len() {
        numbers.push_reserved((bytes[i] != 0) as i64);
    }
    Ok(numbers)
}

/// The numbers of a lane, a truth value as 0 or 1.
fn small_numbers<L: Ledger>(
    alloc: Global,
    lane: &Lane,
    steps: &mut Steps<L>,
) -> Result<Vec<i64>, NoMemory>
    requires { lane.now.kind ≢ Kind.U64 }
    ensures { IfOk result (λ v. v.items ≡ lane_numbers lane.now) }
{
    match lane.kind() {
        Kind::Bool => truths_of(alloc, byte_numbers(lane, steps)),
        _ => numbers_of(alloc, lane, steps),
    }
}

/// The same lane of numbers that an i64 holds with each of n parts in order.
fn small_in_order<'a, L: Ledger>(
    alloc: Global,
    lane: &Lane,
    offsets: &Index,
    n: u64,
    up: bool,
    arena: &'a Arena,
    steps: &mut Steps<L>,
) -> Result<Lane<'a>, NoMemory>
    requires kind { lane.now.kind ≢ Kind.U64 }
    requires rising { AreRising offsets.now n (size_of lane.now) }
    ensures { IfOk result (SortsLane up offsets.now n lane.now) }
{
    let _ = lane.len();
    let mut numbers = small_numbers(alloc, lane, steps)?;
    sort_parts(&mut numbers, offsets, n, up);
    lane_of_numbers(lane.kind(), &numbers, arena)
}

/// The same of a lane of numbers that need a u64.
fn great_in_order<'a, L: Ledger>(
    alloc: Global,
    lane: &Lane,
    offsets: &Index,
    n: u64,
    up: bool,
    arena: &'a Arena,
    steps: &mut Steps<L>,
) -> Result<Lane<'a>, NoMemory>
    requires kind { lane.now.kind ≡ Kind.U64 }
    requires rising { AreRising offsets.now n (size_of lane.now) }
    ensures { IfOk result (SortsLane up offsets.now n lane.now) }
{
    let _ = lane.len();
    let mut numbers = nats_of(alloc, lane, steps)?;
    sort_parts(&mut numbers, offsets, n, up);
    lane_of_nats(lane.kind(), &numbers, arena)
}

/// A lane with each of n parts in order, by their offsets: rising or falling.
pub fn lane_in_order<'a, L: Ledger>(
    alloc: Global,
    lane: &Lane,
    offsets: &Lane<'a>,
    n: u64,
    up: bool,
    arena: &'a Arena,
    steps: &mut Steps<L>,
) -> Result<Lane<'a>, NoMemory>
    requires rising { AreRising offsets.now n (size_of lane.now) }
    ensures { IfOk result (SortsLane up offsets.now n lane.now) }
{
    let ends = index_of(alloc, offsets, arena, steps)?;
    let kind = lane.kind();
    if kind == Kind::I64 {
        wide_in_order(lane, &ends, n, up, arena, steps)
    } else if kind == Kind::U64 {
        great_in_order(alloc, lane, &ends, n, up, arena, steps)
    } else {
        small_in_order(alloc, lane, &ends, n, up, arena, steps)
    }
}
