//! The places in one slot of tuples, as runs of equal places.
ghost use Rattle.std.specs.Prelude.{◌≡◌, ◌-◌, ◌/◌, ◌<◌, ◌≤◌, ◌^◌, ◌++◌, IfOk};
ghost use Rattle.std.specs.List.{flat_map, range_with_len};
ghost use Rattle.awk_lanes.specs.Words.{column, integers};
ghost use Rattle.awk_lanes.specs.declared.kind.Kind.TheVariants as Kinds;
ghost use Rattle.awk_places.specs.Products as spec;
ghost use Rattle.awk_places.specs.Products.{AreCounts, AreSpansOf, each_times, times};
ghost use Rattle.awk_places.specs.Runs.{slot_runs, IsSlotOf};

use crate::maker::{PlaceMaker, put_places, put_times};
use crate::reading::place_of;
use awk_lanes::{Arena, Lane, Steps};
use awk_types::NoMemory;
use std::sync::ledger::Ledger;

/// How many of a count fall to each of some parts. One each needs no division.
#[tactic(auto, using(crate::proofs::Quotients::sharing))]
fn part_of(count: u64, parts: u64) -> u64
    requires { 0 < parts }
    ensures { result ≡ count / parts }
{
    if parts == count {
        return 1;
    }
    count / parts
}

/// How many of a count fall to each of so many parts.
pub(crate) fn share(count: u64, parts: u64) -> u64
    ensures { result ≡ spec.share count parts }
{
    if parts == 0 { 0 } else { part_of(count, parts) }
}

/// Adds each place from a first one below an end so many times.
fn put_each(made: &mut PlaceMaker, first: u64, end: u64, after: u64) -> Result<(), NoMemory>
    requires { end ≤ 2 ^ 63 }
    ensures { IfOk result (λ _. made.new
        ≡ made.old ++ each_times after first (end - first)) }
{
    for place in first..end {
        put_times(made, place, after)?;
    }
    Ok(())
}

/// The same, without a loop a place where each is put once.
fn put_span(made: &mut PlaceMaker, first: u64, end: u64, after: u64) -> Result<(), NoMemory>
    requires { end ≤ 2 ^ 63 }
    ensures { IfOk result (λ _. made.new
        ≡ made.old ++ each_times after first (end - first)) }
{
    if after == 1 {
        return put_places(made, first, end);
    }
    put_each(made, first, end, after)
}

/// Adds all these places so many times.
fn put_runs(
    made: &mut PlaceMaker,
    first: u64,
    end: u64,
    before: u64,
    after: u64,
) -> Result<(), NoMemory>
    requires { end ≤ 2 ^ 63 }
    ensures { IfOk result (λ _. made.new
        ≡ made.old ++ times before (each_times after first (end - first))) }
{
    for i in 0..before {
        put_span(made, first, end, after)?;
    }
    Ok(())
}

/// A slot of tuples: for each list its first place and its length, how often each place follows
/// itself, and how often all that is repeated.
#[derive(Drop)]
pub(crate) struct Slot<'b, 'a> {
    pub(crate) firsts: &'b Lane<'a>,
    pub(crate) lengths: &'b Lane<'a>,
    pub(crate) before: &'b Lane<'a>,
    pub(crate) after: &'b Lane<'a>,
}

/// Adds the places in a slot of the tuples of list i. Where there are none, nothing is repeated.
fn put_row<L: Ledger>(
    made: &mut PlaceMaker,
    n: u64,
    slot: &Slot,
    i: u64,
    steps: &mut Steps<L>,
) -> Result<(), NoMemory>
    requires slot { IsSlotOf n slot.now }
    requires within { i < n }
    ensures { IfOk result (λ _. made.new ≡ made.old ++ slot_runs slot.now i) }
{
    let first = place_of(slot.firsts, i, steps);
    let length = place_of(slot.lengths, i, steps);
    let before = place_of(slot.before, i, steps);
    let after = place_of(slot.after, i, steps);
    if after == 0 {
        return Ok(());
    }
    if length == 0 {
        return Ok(());
    }
    put_runs(made, first, first + length, before, after)
}

/// The places in a slot of the tuples of n lists, of which there are `total`, as a lane.
pub(crate) fn slot_lane<'a, L: Ledger>(
    n: u64,
    total: u64,
    slot: &Slot,
    arena: &'a Arena,
    steps: &mut Steps<L>,
) -> Result<Lane<'a>, NoMemory>
    requires slot { IsSlotOf n slot.now }
    ensures { IfOk result (λ r. r ≡ column Kinds.I64
        (integers (flat_map (slot_runs slot.now) (range_with_len 0 n)))) }
{
    let mut made = PlaceMaker::new(total, arena)?;
    for i in 0..n {
        put_row(&mut made, n, slot, i, steps)?;
    }
    Ok(made.finish())
}
