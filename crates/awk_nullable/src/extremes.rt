//! Where in a list the least or the greatest item that is not null stands.
ghost use Rattle.std.specs.Prelude.{◌≡◌, ◌<◌, ◌^◌, ℕ, true, cond, nat_lt, Option, IfSome};
ghost use Rattle.awk_lanes.specs.Places.{size_of};
ghost use Rattle.awk_nullable.specs.Extremes.{extreme_place, is_some_number, leaf_key};
ghost use Rattle.awk_nullable.specs.Extremes.{next_placed, number_place};
ghost use Rattle.awk_nullable.specs.Extremes.{IsFound, IsItem, IsPlaced, IsWorst};
ghost use Rattle.awk_nullable.specs.Numbers.{leaf_number, numbers_from, AreItems, AreAhead};

use crate::cells::Cells;
use crate::keys::{Found, after, key_by, key_of, worst_key};
use crate::numbers::{Leaves, is_ahead, is_sparse, is_void};
use crate::places::Places;
use awk_lanes::Steps;
use awk_numbers::{Extreme, Greater, Lesser, Side};
use std::sync::ledger::Ledger;

/// Whether a key is that of an item that is not null.
#[inline(always)]
fn is_key(key: i64, there: Option<i64>) -> bool
    ensures { result ≡ is_some_number key there }
{
    match there {
        Some(other) => key == other,
        None => false,
    }
}

/// Item i where it is the one that is looked for, else no item of so many.
#[inline(always)]
fn item_or_none(is_it: bool, i: u64, count: u64) -> u64
    ensures { result ≡ cond is_it i count }
{
    if is_it { i } else { count }
}

/// The earlier one of two items.
#[inline(always)]
fn earlier(old: u64, next: u64) -> u64
    ensures { result ≡ cond (nat_lt next old) next old }
{
    if next < old { next } else { old }
}

/// The first item of a key, counted from the first one, or the count where none has it. Each is
/// read, ahead or not, without a branch.
#[inline(always)]
fn place_by<P: Places, C: Cells, L: Ledger>(
    ahead: bool,
    key: i64,
    x: &Leaves<'_, P, C>,
    first: u64,
    count: u64,
    steps: &mut Steps<L>,
) -> u64
    requires items { AreItems (P.at x.now.places.now) (P.size x.now.places.now)
        (C.lane x.now.cells.now) first count }
    requires ahead { ahead ≡ true → AreAhead (P.ahead x.now.places.now) first count
        (size_of (C.lane x.now.cells.now)) }
    ensures { IsItem count count (number_place (leaf_key (P.at x.now.places.now)
        (C.lane x.now.cells.now) (C.shift x.now.cells.now)) first count key) result }
{
    let mut place = count;
    for i in 0..count {
        let is_it = is_key(key, key_by(ahead, x, first + i, steps));
        place = earlier(place, item_or_none(is_it, i, count));
    }
    place
}

/// An item, if it is one of so many.
#[inline(always)]
fn item_of(place: u64, count: u64) -> Option<u64>
    ensures item { (o : Option ℕ) → IsItem count count o place → result ≡ o }
    ensures inside { IfSome result (λ k. k < count) }
{
    if place < count { Some(place) } else { None }
}

/// The first item of a key, counted from the first one.
fn place_among<P: Places, C: Cells, L: Ledger>(
    key: i64,
    x: &Leaves<'_, P, C>,
    first: u64,
    count: u64,
    steps: &mut Steps<L>,
) -> Option<u64>
    requires items { AreItems (P.at x.now.places.now) (P.size x.now.places.now)
        (C.lane x.now.cells.now) first count }
    ensures place { result ≡ number_place (leaf_key (P.at x.now.places.now)
        (C.lane x.now.cells.now) (C.shift x.now.cells.now)) first count key }
    ensures inside { IfSome result (λ k. k < count) }
{
    if is_ahead(x, first, count) {
        return item_of(place_by(true, key, x, first, count, steps), count);
    }
    item_of(place_by(false, key, x, first, count, steps), count)
}

/// The best key so far, and the first item that has it, if it is better than the worst one.
#[derive(Clone, Copy)]
pub(crate) struct Placed {
    pub found: Found,
    pub place: u64,
}

/// What is found after item i, whose key is the next one. There is no branch at an item.
#[inline(always)]
fn placed_after<S: Side>(old: Placed, worst: i64, i: u64, next: Option<i64>) -> Placed
    ensures { result ≡ next_placed S.how worst i old next }
{
    let beats = S::beats(next.unwrap_or(worst), old.found.key);
    Placed {
        found: after::<S>(old.found, worst, next),
        place: item_or_none(beats, i, old.place),
    }
}

/// What is found among so many items from a first one on, each read ahead or not.
#[inline(always)]
fn placed_by<S: Side, P: Places, C: Cells, L: Ledger>(
    ahead: bool,
    worst: i64,
    x: &Leaves<'_, P, C>,
    first: u64,
    count: u64,
    steps: &mut Steps<L>,
) -> Placed
    requires worst { IsWorst S.how worst }
    requires items { AreItems (P.at x.now.places.now) (P.size x.now.places.now)
        (C.lane x.now.cells.now) first count }
    requires ahead { ahead ≡ true → AreAhead (P.ahead x.now.places.now) first count
        (size_of (C.lane x.now.cells.now)) }
    ensures found { IsFound S.how (C.lane x.now.cells.now) (C.shift x.now.cells.now) worst
        (numbers_from (leaf_number (P.at x.now.places.now) (C.lane x.now.cells.now)) first count)
        result.found }
    ensures place { IsPlaced S.how worst count (leaf_key (P.at x.now.places.now)
        (C.lane x.now.cells.now) (C.shift x.now.cells.now)) first count result }
{
    let found = Found {
        key: worst,
        some: false,
    };
    let mut placed = Placed {
        found,
        place: count,
    };
    for i in 0..count {
        placed = placed_after::<S>(placed, worst, i, key_by(ahead, x, first + i, steps));
    }
    placed
}

/// The same, read ahead where that is faster.
#[inline(always)]
fn placed_among<S: Side, P: Places, C: Cells, L: Ledger>(
    worst: i64,
    x: &Leaves<'_, P, C>,
    first: u64,
    count: u64,
    steps: &mut Steps<L>,
) -> Placed
    requires worst { IsWorst S.how worst }
    requires items { AreItems (P.at x.now.places.now) (P.size x.now.places.now)
        (C.lane x.now.cells.now) first count }
    ensures found { IsFound S.how (C.lane x.now.cells.now) (C.shift x.now.cells.now) worst
        (numbers_from (leaf_number (P.at x.now.places.now) (C.lane x.now.cells.now)) first count)
        result.found }
    ensures place { IsPlaced S.how worst count (leaf_key (P.at x.now.places.now)
        (C.lane x.now.cells.now) (C.shift x.now.cells.now)) first count result }
{
    if is_ahead(x, first, count) {
        return placed_by::<S, P, C, L>(true, worst, x, first, count, steps);
    }
    placed_by::<S, P, C, L>(false, worst, x, first, count, steps)
}

/// Where the extreme stands. Where it is the worst key, that beats none, the items are looked
/// through once more.
fn place_by_side<S: Side, P: Places, C: Cells, L: Ledger>(
    worst: i64,
    x: &Leaves<'_, P, C>,
    first: u64,
    count: u64,
    steps: &mut Steps<L>,
) -> Option<u64>
    requires worst { IsWorst S.how worst }
    requires items { AreItems (P.at x.now.places.now) (P.size x.now.places.now)
        (C.lane x.now.cells.now) first count }
    ensures place { result ≡ extreme_place S.how (leaf_number (P.at x.now.places.now)
        (C.lane x.now.cells.now)) first count }
    ensures inside { IfSome result (λ k. k < count) }
{
    let placed = placed_among::<S, P, C, L>(worst, x, first, count, steps);
    if !placed.found.some {
        return None;
    }
    if placed.place < count {
        return Some(placed.place);
    }
    place_among(placed.found.key, x, first, count, steps)
}

/// The place, looked for at once with the extreme itself.
#[inline(always)]
fn place_at_once<P: Places, C: Cells, L: Ledger>(
    how: Extreme,
    x: &Leaves<'_, P, C>,
    first: u64,
    count: u64,
    steps: &mut Steps<L>,
) -> Option<u64>
    requires items { AreItems (P.at x.now.places.now) (P.size x.now.places.now)
        (C.lane x.now.cells.now) first count }
    ensures place { result ≡ extreme_place how (leaf_number (P.at x.now.places.now)
        (C.lane x.now.cells.now)) first count }
    ensures inside { IfSome result (λ k. k < count) }
{
    let worst = worst_key(how, count);
    match how {
        Extreme::Least => place_by_side::<Lesser, P, C, L>(worst, x, first, count, steps),
        Extreme::Greatest => place_by_side::<Greater, P, C, L>(worst, x, first, count, steps),
    }
}

/// The same, where the items are read twice, once for the extreme itself.
#[inline(always)]
fn place_twice<P: Places, C: Cells, L: Ledger>(
    how: Extreme,
    x: &Leaves<'_, P, C>,
    first: u64,
    count: u64,
    steps: &mut Steps<L>,
) -> Option<u64>
    requires items { AreItems (P.at x.now.places.now) (P.size x.now.places.now)
        (C.lane x.now.cells.now) first count }
    ensures place { result ≡ extreme_place how (leaf_number (P.at x.now.places.now)
        (C.lane x.now.cells.now)) first count }
    ensures inside { IfSome result (λ k. k < count) }
{
    match key_of(how, x, first, count, steps) {
        Some(key) => place_among(key, x, first, count, steps),
        None => None,
    }
}

/// The same where most items are null. They are counted first, since mostly all are null. It stands
/// apart, so that other places are found as fast as without it.
#[inline(never)]
fn sparse_place<P: Places, C: Cells, L: Ledger>(
    how: Extreme,
    x: &Leaves<'_, P, C>,
    first: u64,
    count: u64,
    steps: &mut Steps<L>,
) -> Option<u64>
    requires items { AreItems (P.at x.now.places.now) (P.size x.now.places.now)
        (C.lane x.now.cells.now) first count }
    ensures place { result ≡ extreme_place how (leaf_number (P.at x.now.places.now)
        (C.lane x.now.cells.now)) first count }
    ensures inside { IfSome result (λ k. k < count) }
{
    if is_void(x, first, count, steps) {
        return None;
    }
    place_at_once(how, x, first, count, steps)
}

/// Where in a span of items the extreme stands first, nulls counted. By an index the items are read
/// once; by a mask, where they lie side by side, twice, each time without a branch at an item.
pub fn place_of<P: Places, C: Cells, L: Ledger>(
    how: Extreme,
    x: &Leaves<'_, P, C>,
    first: u64,
    count: u64,
    steps: &mut Steps<L>,
) -> Option<u64>
    requires items { AreItems (P.at x.now.places.now) (P.size x.now.places.now)
        (C.lane x.now.cells.now) first count }
    ensures place { result ≡ extreme_place how (leaf_number (P.at x.now.places.now)
        (C.lane x.now.cells.now)) first count }
    ensures small { IfSome result (λ k. k < 2 ^ 63) }
{
    if is_sparse(x) {
        return sparse_place(how, x, first, count, steps);
    }
    if x.places.is_apart() {
        return place_at_once(how, x, first, count, steps);
    }
    place_twice(how, x, first, count, steps)
}
