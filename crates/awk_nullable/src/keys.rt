//! The least or the greatest item of a list that is not null, by its key.
ghost use Rattle.std.specs.Prelude.{◌≡◌, ◌<◌, ◌≤◌, ℤ, ◌-ℤ◌, true, Some, FitsSigned};
ghost use Rattle.std.specs.Int.{w64};
ghost use Rattle.awk_lanes.specs.Places.{size_of};
ghost use Rattle.awk_nullable.specs.Extremes.{better_key, found_key, leaf_key, next_found};
ghost use Rattle.awk_nullable.specs.Extremes.{IsWorst, IsFound, IsExtreme, IsExtremeKey};
ghost use Rattle.awk_nullable.specs.Numbers.{leaf_number, numbers_from};
ghost use Rattle.awk_nullable.specs.Numbers.{AreItems, AreLeading, AreAhead};

use crate::cells::Cells;
use crate::numbers::{Leaves, is_ahead, is_sparse, is_void};
use crate::places::Places;
use awk_lanes::Steps;
use awk_numbers::{Extreme, Greater, Lesser, Side};
use std::sync::ledger::Ledger;

/// The key of item i, if that is not null.
#[inline(always)]
fn key_at<P: Places, C: Cells, L: Ledger>(
    x: &Leaves<'_, P, C>,
    i: u64,
    steps: &mut Steps<L>,
) -> Option<i64>
    requires within { i < P.size x.now.places.now }
    requires leads { AreLeading (P.at x.now.places.now) (P.size x.now.places.now)
        (size_of (C.lane x.now.cells.now)) }
    ensures key { result ≡ leaf_key (P.at x.now.places.now) (C.lane x.now.cells.now)
        (C.shift x.now.cells.now) i }
    ensures fits { (z : ℤ) → result ≡ Some z → FitsSigned w64 z }
{
    match x.places.place(i, steps) {
        Some(place) => Some(x.cells.key(place, steps)),
        None => None,
    }
}

/// The same, where a number is read before the item is asked whether it is null.
#[inline(always)]
fn key_ahead<P: Places, C: Cells, L: Ledger>(
    x: &Leaves<'_, P, C>,
    i: u64,
    steps: &mut Steps<L>,
) -> Option<i64>
    requires within { i < P.size x.now.places.now }
    requires ahead { P.ahead x.now.places.now i < size_of (C.lane x.now.cells.now) }
    ensures key { result ≡ leaf_key (P.at x.now.places.now) (C.lane x.now.cells.now)
        (C.shift x.now.cells.now) i }
    ensures fits { (z : ℤ) → result ≡ Some z → FitsSigned w64 z }
{
    let key = x.cells.key(x.places.ahead(i), steps);
    if x.places.shows(i, steps) {
        Some(key)
    } else {
        None
    }
}

/// The same, read ahead or not.
#[inline(always)]
pub(crate) fn key_by<P: Places, C: Cells, L: Ledger>(
    ahead: bool,
    x: &Leaves<'_, P, C>,
    i: u64,
    steps: &mut Steps<L>,
) -> Option<i64>
    requires within { i < P.size x.now.places.now }
    requires leads { AreLeading (P.at x.now.places.now) (P.size x.now.places.now)
        (size_of (C.lane x.now.cells.now)) }
    requires ahead { ahead ≡ true → P.ahead x.now.places.now i < size_of (C.lane x.now.cells.now) }
    ensures key { result ≡ leaf_key (P.at x.now.places.now) (C.lane x.now.cells.now)
        (C.shift x.now.cells.now) i }
    ensures fits { (z : ℤ) → result ≡ Some z → FitsSigned w64 z }
{
    if ahead {
        return key_ahead(x, i, steps);
    }
    key_at(x, i, steps)
}

/// The best key so far, or one that beats none where there is none.
#[derive(Clone, Copy)]
pub(crate) struct Found {
    pub key: i64,
    pub some: bool,
}

/// The better one of two keys.
#[inline(always)]
fn better<S: Side>(old: i64, next: i64) -> i64
    ensures { result ≡ better_key S.how old next }
{
    if S::beats(next, old) { next } else { old }
}

/// What is found after one item more. A null counts as a key that beats none, so that there is no
/// branch at an item.
#[inline(always)]
pub(crate) fn after<S: Side>(old: Found, worst: i64, next: Option<i64>) -> Found
    ensures { result ≡ next_found S.how worst old next }
{
    Found {
        key: better::<S>(old.key, next.unwrap_or(worst)),
        some: old.some | next.is_some(),
    }
}

/// What is found among so many items from a first one on, each read ahead or not.
#[inline(always)]
fn found_by<S: Side, P: Places, C: Cells, L: Ledger>(
    ahead: bool,
    worst: i64,
    x: &Leaves<'_, P, C>,
    first: u64,
    count: u64,
    steps: &mut Steps<L>,
) -> Found
    requires worst { IsWorst S.how worst }
    requires items { AreItems (P.at x.now.places.now) (P.size x.now.places.now)
        (C.lane x.now.cells.now) first count }
    requires ahead { ahead ≡ true → AreAhead (P.ahead x.now.places.now) first count
        (size_of (C.lane x.now.cells.now)) }
    ensures { IsFound S.how (C.lane x.now.cells.now) (C.shift x.now.cells.now) worst
        (numbers_from (leaf_number (P.at x.now.places.now) (C.lane x.now.cells.now)) first count)
        result }
{
    let mut found = Found {
        key: worst,
        some: false,
    };
    for i in 0..count {
        found = after::<S>(found, worst, key_by(ahead, x, first + i, steps));
    }
    found
}

/// The key of what is found.
#[inline(always)]
fn key_in(found: Found) -> Option<i64>
    ensures { result ≡ found_key found }
{
    if found.some { Some(found.key) } else { None }
}

/// The key of the extreme of the items, or none where all are null.
fn key_among<S: Side, P: Places, C: Cells, L: Ledger>(
    worst: i64,
    x: &Leaves<'_, P, C>,
    first: u64,
    count: u64,
    steps: &mut Steps<L>,
) -> Option<i64>
    requires worst { IsWorst S.how worst }
    requires items { AreItems (P.at x.now.places.now) (P.size x.now.places.now)
        (C.lane x.now.cells.now) first count }
    ensures { IsExtremeKey S.how (C.lane x.now.cells.now) (C.shift x.now.cells.now)
        (numbers_from (leaf_number (P.at x.now.places.now) (C.lane x.now.cells.now)) first count)
        result }
{
    if is_ahead(x, first, count) {
        return key_in(found_by::<S, P, C, L>(true, worst, x, first, count, steps));
    }
    key_in(found_by::<S, P, C, L>(false, worst, x, first, count, steps))
}

/// A key that beats none. It is made of the count, of which nothing is left: where the compiler
/// knows the key, it makes a branch at each null of it.
#[inline(always)]
pub(crate) fn worst_key(how: Extreme, count: u64) -> i64
    requires few { count ≤ 1073741824 }
    ensures { IsWorst how result }
{
    let nothing = (count >> 62) as i64;
    match how {
        Extreme::Least => i64::MAX - nothing,
        Extreme::Greatest => i64::MIN + nothing,
    }
}

/// The key of the extreme of the items, or none where all are null.
#[inline(always)]
pub(crate) fn key_of<P: Places, C: Cells, L: Ledger>(
    how: Extreme,
    x: &Leaves<'_, P, C>,
    first: u64,
    count: u64,
    steps: &mut Steps<L>,
) -> Option<i64>
    requires items { AreItems (P.at x.now.places.now) (P.size x.now.places.now)
        (C.lane x.now.cells.now) first count }
    ensures { IsExtremeKey how (C.lane x.now.cells.now) (C.shift x.now.cells.now)
        (numbers_from (leaf_number (P.at x.now.places.now) (C.lane x.now.cells.now)) first count)
        result }
{
    let worst = worst_key(how, count);
    match how {
        Extreme::Least => key_among::<Lesser, P, C, L>(worst, x, first, count, steps),
        Extreme::Greatest => key_among::<Greater, P, C, L>(worst, x, first, count, steps),
    }
}

/// The number of a key that lies so far from it.
#[inline(always)]
fn number_of_key(key: i64, shift: i64) -> i128
    ensures { result ≡ key -ℤ shift }
{
    i128::from(key) - i128::from(shift)
}

/// The number of the key of the extreme of the items, or none where all are null.
#[inline(always)]
fn keyed_number<P: Places, C: Cells, L: Ledger>(
    how: Extreme,
    x: &Leaves<'_, P, C>,
    first: u64,
    count: u64,
    steps: &mut Steps<L>,
) -> Option<i128>
    requires items { AreItems (P.at x.now.places.now) (P.size x.now.places.now)
        (C.lane x.now.cells.now) first count }
    ensures { IsExtreme how (C.lane x.now.cells.now) (numbers_from (leaf_number
        (P.at x.now.places.now) (C.lane x.now.cells.now)) first count) result }
{
    match key_of(how, x, first, count, steps) {
        Some(key) => Some(number_of_key(key, x.cells.shift())),
        None => None,
    }
}

/// The extreme where most items are null. They are counted first, since mostly all are null. It
/// stands apart, so that other extremes are found as fast as without it.
#[inline(never)]
fn sparse_number<P: Places, C: Cells, L: Ledger>(
    how: Extreme,
    x: &Leaves<'_, P, C>,
    first: u64,
    count: u64,
    steps: &mut Steps<L>,
) -> Option<i128>
    requires items { AreItems (P.at x.now.places.now) (P.size x.now.places.now)
        (C.lane x.now.cells.now) first count }
    ensures { IsExtreme how (C.lane x.now.cells.now) (numbers_from (leaf_number
        (P.at x.now.places.now) (C.lane x.now.cells.now)) first count) result }
{
    if is_void(x, first, count, steps) {
        return None;
    }
    keyed_number(how, x, first, count, steps)
}

/// The least or the greatest of so many items from a first one on, or none where all are null.
pub fn extreme_number<P: Places, C: Cells, L: Ledger>(
    how: Extreme,
    x: &Leaves<'_, P, C>,
    first: u64,
    count: u64,
    steps: &mut Steps<L>,
) -> Option<i128>
    requires items { AreItems (P.at x.now.places.now) (P.size x.now.places.now)
        (C.lane x.now.cells.now) first count }
    ensures { IsExtreme how (C.lane x.now.cells.now) (numbers_from (leaf_number
        (P.at x.now.places.now) (C.lane x.now.cells.now)) first count) result }
{
    if is_sparse(x) {
        return sparse_number(how, x, first, count, steps);
    }
    keyed_number(how, x, first, count, steps)
}
