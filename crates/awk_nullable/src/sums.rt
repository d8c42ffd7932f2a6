//! The sum of the items that are not null.
ghost use Rattle.std.specs.Prelude.{◌≡◌, ◌<◌, ◌≤◌, ◌+ℤ◌, true, pos, unsigned_abs};
ghost use Rattle.std.specs.Option.{unwrap_or};
ghost use Rattle.awk_kernels.specs.Kernels.{total};
ghost use Rattle.awk_lanes.specs.Places.{size_of};
ghost use Rattle.awk_nullable.specs.Halves.{IsHalves, IsSum};
ghost use Rattle.awk_nullable.specs.Numbers.{leaf_number, numbers_from};
ghost use Rattle.awk_nullable.specs.Numbers.{AreItems, AreLeading, AreAhead};

use crate::cells::Cells;
use crate::halves::{Halves, whole_of};
use crate::numbers::{Leaves, is_sparse, is_void};
use crate::places::Places;
use awk_lanes::Steps;
use std::sync::ledger::Ledger;

/// The number of item i in two halves, and 0 where the item is null.
#[inline(always)]
fn halves_at<P: Places, C: Cells, L: Ledger>(
    x: &Leaves<'_, P, C>,
    i: u64,
    steps: &mut Steps<L>,
) -> Halves
    requires within { i < P.size x.now.places.now }
    requires leads { AreLeading (P.at x.now.places.now) (P.size x.now.places.now)
        (size_of (C.lane x.now.cells.now)) }
    ensures { IsHalves (unwrap_or (leaf_number (P.at x.now.places.now) (C.lane x.now.cells.now) i)
        (pos 0)) result }
{
    match x.places.place(i, steps) {
        Some(place) => x.cells.halves(place, steps),
        None => Halves { high: 0, low: 0 },
    }
}

/// The same, where a number is read before the item is asked whether it is null.
#[inline(always)]
fn halves_ahead<P: Places, C: Cells, L: Ledger>(
    x: &Leaves<'_, P, C>,
    i: u64,
    steps: &mut Steps<L>,
) -> Halves
    requires within { i < P.size x.now.places.now }
    requires ahead { P.ahead x.now.places.now i < size_of (C.lane x.now.cells.now) }
    ensures { IsHalves (unwrap_or (leaf_number (P.at x.now.places.now) (C.lane x.now.cells.now) i)
        (pos 0)) result }
{
    let halves = x.cells.halves(x.places.ahead(i), steps);
    if x.places.shows(i, steps) {
        halves
    } else {
        Halves { high: 0, low: 0 }
    }
}

/// The same, read ahead or not.
#[inline(always)]
fn halves_by<P: Places, C: Cells, L: Ledger>(
    ahead: bool,
    x: &Leaves<'_, P, C>,
    i: u64,
    steps: &mut Steps<L>,
) -> Halves
    requires within { i < P.size x.now.places.now }
    requires leads { AreLeading (P.at x.now.places.now) (P.size x.now.places.now)
        (size_of (C.lane x.now.cells.now)) }
    requires ahead { ahead ≡ true → P.ahead x.now.places.now i < size_of (C.lane x.now.cells.now) }
    ensures { IsHalves (unwrap_or (leaf_number (P.at x.now.places.now) (C.lane x.now.cells.now) i)
        (pos 0)) result }
{
    if ahead {
        return halves_ahead(x, i, steps);
    }
    halves_at(x, i, steps)
}

/// A sum and a number more.
#[inline(always)]
fn plus(sum: Halves, next: Halves) -> Halves
    requires high { unsigned_abs sum.high ≤ 4611686018427387904 }
    requires low { unsigned_abs sum.low ≤ 4611686018427387904 }
    requires next_high { unsigned_abs next.high ≤ 4294967296 }
    requires next_low { unsigned_abs next.low ≤ 4294967296 }
    ensures high { result.high ≡ sum.high +ℤ next.high }
    ensures low { result.low ≡ sum.low +ℤ next.low }
{
    Halves {
        high: sum.high + next.high,
        low: sum.low + next.low,
    }
}

/// The sum of so many items from a first one on, each read ahead or not.
#[inline(always)]
fn sum_by<P: Places, C: Cells, L: Ledger>(
    ahead: bool,
    x: &Leaves<'_, P, C>,
    first: u64,
    count: u64,
    steps: &mut Steps<L>,
) -> Halves
    requires items { AreItems (P.at x.now.places.now) (P.size x.now.places.now)
        (C.lane x.now.cells.now) first count }
    requires ahead { ahead ≡ true → AreAhead (P.ahead x.now.places.now) first count
        (size_of (C.lane x.now.cells.now)) }
    ensures { IsSum count result (numbers_from (leaf_number (P.at x.now.places.now)
        (C.lane x.now.cells.now)) first count) }
{
    let mut sum = Halves { high: 0, low: 0 };
    for i in 0..count {
        sum = plus(sum, halves_by(ahead, x, first + i, steps));
    }
    sum
}

/// The exact sum, where most items are null. They are counted first, since mostly all are null. It
/// stands apart, so that other sums are made as fast as without it.
#[inline(never)]
fn sparse_sum<P: Places, C: Cells, L: Ledger>(
    x: &Leaves<'_, P, C>,
    first: u64,
    count: u64,
    steps: &mut Steps<L>,
) -> i128
    requires items { AreItems (P.at x.now.places.now) (P.size x.now.places.now)
        (C.lane x.now.cells.now) first count }
    ensures { result ≡ total (numbers_from (leaf_number (P.at x.now.places.now)
        (C.lane x.now.cells.now)) first count) }
{
    if is_void(x, first, count, steps) {
        return 0;
    }
    whole_of(sum_by(false, x, first, count, steps))
}

/// The exact sum of so many items from a first one on.
pub fn sum_of<P: Places, C: Cells, L: Ledger>(
    x: &Leaves<'_, P, C>,
    first: u64,
    count: u64,
    steps: &mut Steps<L>,
) -> i128
    requires items { AreItems (P.at x.now.places.now) (P.size x.now.places.now)
        (C.lane x.now.cells.now) first count }
    ensures { result ≡ total (numbers_from (leaf_number (P.at x.now.places.now)
        (C.lane x.now.cells.now)) first count) }
{
    if is_sparse(x) {
        return sparse_sum(x, first, count, steps);
    }
    if x.places.reaches(x.cells, first, count) {
        return whole_of(sum_by(true, x, first, count, steps));
    }
    whole_of(sum_by(false, x, first, count, steps))
}
