//! One place of each of several lists: how many tuples there are, before any is made, and the
//! places in each slot. Of pairs nothing is counted again.
ghost use Rattle.std.specs.Prelude.{◌≡◌, ℕ, ◌<◌, ◌≤◌, ◌^◌, length, get_or, IsTrue, IsFalse, IfOk};
ghost use Rattle.std.specs.List.{AllByRecursion};
ghost use Rattle.awk_types.specs.ItemLimit.{item_limit};
ghost use Rattle.awk_lanes.specs.Column.{no_places};
ghost use Rattle.awk_lanes.specs.Counted.{before, AreOffsetsBy};
ghost use Rattle.awk_places.specs.Places.{place_count, IsCounted};
ghost use Rattle.awk_places.specs.Products.{AreCounts, AreSpansOf, lengths_at, product_count};
ghost use Rattle.awk_places.specs.Products.{product_lanes, counts_lane, shares_lane, once_lane};

use crate::offsets::{TupleCounts, tuple_offsets};
use crate::reading::place_of;
use crate::runs::{Slot, share, slot_lane};
use awk_lanes::{Arena, Kind, Lane, Lanes, Num, Numbers, Offsets, Steps, made_lane, number};
use awk_types::{ITEM_LIMIT, NoMemory};
use std::alloc::Global;
use std::sync::ledger::Ledger;

/// The length of list i by one of the lanes.
fn length_by<L: Ledger>(n: u64, lengths: &Lanes, j: usize, i: u64, steps: &mut Steps<L>) -> u64
    requires all { AllByRecursion (AreCounts n) lengths.now }
    requires list { i < n }
    requires within { j < length lengths.now }
    ensures { result ≡ get_or (lengths_at lengths.now i) j 0 }
{
    place_of(lengths.get(j), i, steps)
}

/// Whether list i of some lane is empty.
fn some_empty<L: Ledger>(n: u64, lengths: &Lanes, i: u64, steps: &mut Steps<L>) -> bool
    requires all { AllByRecursion (AreCounts n) lengths.now }
    requires list { i < n }
    ensures empty { IsTrue result → place_count (lengths_at lengths.now i) ≡ 0 }
    ensures full { IsFalse result → (j : ℕ) → j < length lengths.now →
        0 < get_or (lengths_at lengths.now i) j 0 }
{
    for j in 0..lengths.len() {
        if length_by(n, lengths, j, i, steps) == 0 {
            return true;
        }
    }
    false
}

/// How many tuples there are of one place of list i of each lane, or none where they are more than
/// the limit of a column.
fn count_product<L: Ledger>(n: u64, lengths: &Lanes, i: u64, steps: &mut Steps<L>) -> Option<u64>
    requires all { AllByRecursion (AreCounts n) lengths.now }
    requires list { i < n }
    ensures { IsCounted (place_count (lengths_at lengths.now i)) result }
{
    if some_empty(n, lengths, i, steps) {
        return Some(0);
    }
    let mut count: u64 = 1;
    for j in 0..lengths.len() {
        let length = length_by(n, lengths, j, i, steps);
        if length > ITEM_LIMIT {
            return None;
        }
        if count * length > ITEM_LIMIT {
            return None;
        }
        count *= length;
    }
    Some(count)
}

/// Lists with the tuples of one place of each of several.
#[derive(Drop)]
struct ProductCounts<'b, 'a> {
    n: u64,
    lengths: &'b Lanes<'a>,
}

impl<'b, 'a> TupleCounts for ProductCounts<'b, 'a> {
    ghost use Rattle.std.specs.List.{AllByRecursion};
    ghost use Rattle.awk_places.specs.Products.{AreCounts, product_count};

    ghost count = { λ f. product_count f.lengths.now };

    ghost size = { λ f. f.n };

    ghost IsReady = { λ f. AllByRecursion (AreCounts f.n) f.lengths.now };

    fn count<L: Ledger>(&self, i: u64, steps: &mut Steps<L>) -> Option<u64> {
        count_product(self.n, self.lengths, i, steps)
    }
}

impl<'b, 'a> Numbers for ProductCounts<'b, 'a> {
    ghost use Rattle.std.specs.Prelude.{pos, ◌≤◌};
    ghost use Rattle.std.specs.List.{AllByRecursion};
    ghost use Rattle.awk_types.specs.ItemLimit.{item_limit};
    ghost use Rattle.awk_lanes.specs.Counted.{before};
    ghost use Rattle.awk_lanes.specs.declared.kind.Kind.TheVariants as Kinds;
    ghost use Rattle.awk_places.specs.Products.{AreCounts, product_count};

    ghost kind = { λ _. Kinds.I64 };

    ghost at = { λ f i. pos (product_count f.lengths.now i) };

    ghost size = { λ f. f.n };

    ghost IsReady = { λ f. AllByRecursion (AreCounts f.n) f.lengths.now
        × (before (product_count f.lengths.now) f.n ≤ item_limit) };

    fn number<L: Ledger>(&self, i: u64, steps: &mut Steps<L>) -> Num {
        match count_product(self.n, self.lengths, i, steps) {
            Some(count) => number(count),
            None => unreachable!(),
        }
    }
}

/// Where the tuples of one place of list i of each lane lie among those of all n lists, or none
/// where they are more than the limit of a column. No tuple is made.
pub fn product_offsets<'a, L: Ledger>(
    n: u64,
    lengths: &Lanes,
    arena: &'a Arena,
    steps: &mut Steps<L>,
) -> Result<Option<Offsets<'a>>, NoMemory>
    requires lengths { AllByRecursion (AreCounts n) lengths.now }
    requires fits { n < 2 ^ 63 }
    ensures { IfOk result (AreOffsetsBy item_limit (product_count lengths.now) n) }
{
    let source = ProductCounts { n, lengths };
    tuple_offsets(n, &source, arena, steps)
}

/// How many tuples each list has.
fn counts_lane<'a, L: Ledger>(
    n: u64,
    lengths: &Lanes,
    arena: &'a Arena,
    steps: &mut Steps<L>,
) -> Result<Lane<'a>, NoMemory>
    requires lengths { AllByRecursion (AreCounts n) lengths.now }
    requires few { before (product_count lengths.now) n ≤ item_limit }
    ensures { IfOk result (λ r. r ≡ counts_lane n lengths.now) }
{
    let source = ProductCounts { n, lengths };
    made_lane(Kind::I64, n, &source, arena, steps)
}

/// How many of a count fall to each part, for each list.
#[derive(Drop)]
struct Shares<'b, 'a> {
    n: u64,
    counts: &'b Lane<'a>,
    parts: &'b Lane<'a>,
}

impl<'b, 'a> Numbers for Shares<'b, 'a> {
    ghost use Rattle.std.specs.Prelude.{pos};
    ghost use Rattle.awk_lanes.specs.Places.{place_at};
    ghost use Rattle.awk_lanes.specs.declared.kind.Kind.TheVariants as Kinds;
    ghost use Rattle.awk_places.specs.Products.{AreCounts, share};

    ghost kind = { λ _. Kinds.I64 };

    ghost at = { λ f i. pos (share (place_at f.counts.now i) (place_at f.parts.now i)) };

    ghost size = { λ f. f.n };

    ghost IsReady = { λ f. AreCounts f.n f.counts.now × AreCounts f.n f.parts.now };

    fn number<L: Ledger>(&self, i: u64, steps: &mut Steps<L>) -> Num {
        let count = place_of(self.counts, i, steps);
        number(share(count, place_of(self.parts, i, steps)))
    }
}

/// How many of a count fall to each part, for each list, as a lane.
fn shares_lane<'a, L: Ledger>(
    n: u64,
    counts: &Lane,
    parts: &Lane,
    arena: &'a Arena,
    steps: &mut Steps<L>,
) -> Result<Lane<'a>, NoMemory>
    requires counts { AreCounts n counts.now }
    requires parts { AreCounts n parts.now }
    ensures { IfOk result (λ r. r ≡ shares_lane n counts.now parts.now) }
{
    let source = Shares { n, counts, parts };
    made_lane(Kind::I64, n, &source, arena, steps)
}

/// One for each list.
#[derive(Drop)]
struct Once {
    n: u64,
}

impl Numbers for Once {
    ghost use Rattle.std.specs.Prelude.{pos};
    ghost use Rattle.awk_lanes.specs.declared.kind.Kind.TheVariants as Kinds;

    ghost kind = { λ _. Kinds.I64 };

    ghost at = { λ _ _. pos 1 };

    ghost size = { λ o. o.n };

    fn number<L: Ledger>(&self, _i: u64, _steps: &mut Steps<L>) -> Num {
        number(1)
    }
}

/// One for each of n lists, as a lane.
fn once_lane<'a, L: Ledger>(
    n: u64,
    arena: &'a Arena,
    steps: &mut Steps<L>,
) -> Result<Lane<'a>, NoMemory>
    ensures { IfOk result (λ r. r ≡ once_lane n) }
{
    made_lane(Kind::I64, n, &Once { n }, arena, steps)
}

/// The lanes of both slots of pairs: each place of the first list as often as the second has
/// places, and all places of the second as often as the first has some.
fn two_lanes<'a, L: Ledger>(
    alloc: Global,
    n: u64,
    total: u64,
    firsts: &Lanes<'a>,
    lengths: &Lanes<'a>,
    arena: &'a Arena,
    steps: &mut Steps<L>,
) -> Result<Lanes<'a>, NoMemory>
    requires two { length lengths.now ≡ 2 }
    requires same { length firsts.now ≡ length lengths.now }
    requires spans { (j : ℕ) → j < length lengths.now →
        AreSpansOf n (get_or firsts.now j no_places) (get_or lengths.now j no_places) }
    ensures { IfOk result (λ r. r ≡ product_lanes n firsts.now lengths.now) }
{
    let first = firsts.get(0);
    let second = firsts.get(1);
    let outer = lengths.get(0);
    let inner = lengths.get(1);
    let once = once_lane(n, arena, steps)?;
    let slot = Slot {
        firsts: first,
        lengths: outer,
        before: &once,
        after: inner,
    };
    let left = slot_lane(n, total, &slot, arena, steps)?;
    let slot = Slot {
        firsts: second,
        lengths: inner,
        before: outer,
        after: &once,
    };
    let right = slot_lane(n, total, &slot, arena, steps)?;
    let mut lanes = Lanes::new(alloc);
    lanes.push(left)?;
    lanes.push(right)?;
    Ok(lanes)
}

/// The lanes of all slots, by how many of the tuples fall to each place.
fn shared_lanes<'a, L: Ledger>(
    alloc: Global,
    n: u64,
    total: u64,
    firsts: &Lanes<'a>,
    lengths: &Lanes<'a>,
    arena: &'a Arena,
    steps: &mut Steps<L>,
) -> Result<Lanes<'a>, NoMemory>
    requires same { length firsts.now ≡ length lengths.now }
    requires lengths { AllByRecursion (AreCounts n) lengths.now }
    requires spans { (j : ℕ) → j < length lengths.now →
        AreSpansOf n (get_or firsts.now j no_places) (get_or lengths.now j no_places) }
    requires few { before (product_count lengths.now) n ≤ item_limit }
    ensures { IfOk result (λ r. r ≡ product_lanes n firsts.now lengths.now) }
{
    let mut lanes = Lanes::new(alloc);
    let counts = counts_lane(n, lengths, arena, steps)?;
    let mut rests = counts.copy();
    for j in 0..lengths.len() {
        let before = shares_lane(n, &counts, &rests, arena, steps)?;
        let after = shares_lane(n, &rests, lengths.get(j), arena, steps)?;
        let slot = Slot {
            firsts: firsts.get(j),
            lengths: lengths.get(j),
            before: &before,
            after: &after,
        };
        lanes.push(slot_lane(n, total, &slot, arena, steps)?)?;
        rests = after;
    }
    Ok(lanes)
}

/// The places of all tuples of n lists, list by list: a lane for each slot.
pub fn product_lanes<'a, L: Ledger>(
    alloc: Global,
    n: u64,
    total: u64,
    firsts: &Lanes<'a>,
    lengths: &Lanes<'a>,
    arena: &'a Arena,
    steps: &mut Steps<L>,
) -> Result<Lanes<'a>, NoMemory>
    requires same { length firsts.now ≡ length lengths.now }
    requires lengths { AllByRecursion (AreCounts n) lengths.now }
    requires spans { (j : ℕ) → j < length lengths.now →
        AreSpansOf n (get_or firsts.now j no_places) (get_or lengths.now j no_places) }
    requires few { before (product_count lengths.now) n ≤ item_limit }
    ensures { IfOk result (λ r. r ≡ product_lanes n firsts.now lengths.now) }
{
    if lengths.len() == 2 {
        return two_lanes(alloc, n, total, firsts, lengths, arena, steps);
    }
    shared_lanes(alloc, n, total, firsts, lengths, arena, steps)
}
