//! The numbers of items one after another, those of nulls left out.
ghost use Rattle.std.specs.Prelude.{◌≡◌, ◌<◌, ◌≤◌, true, [], length, unsigned_abs, IfSome};
ghost use Rattle.awk_lanes.specs.Places.{size_of};
ghost use Rattle.awk_nullable.specs.Numbers.{leaf_number, numbers_from};
ghost use Rattle.awk_nullable.specs.Numbers.{AreItems, AreLeading, AreAhead};

use crate::cells::Cells;
use crate::places::Places;
use awk_lanes::Steps;
use std::sync::ledger::Ledger;

/// Items, of which some may be null, and the numbers of the others.
#[derive(Drop)]
pub struct Leaves<'c, P: Places, C: Cells> {
    pub places: &'c P,
    pub cells: &'c C,
    /// Whether most items are null, as it is told.
    pub sparse: bool,
}

/// Whether most items are null, as it is told. Where numbers lie beside their items, it is never
/// asked.
#[inline(always)]
pub(crate) fn is_sparse<P: Places, C: Cells>(x: &Leaves<'_, P, C>) -> bool {
    if x.places.is_apart() {
        return x.sparse;
    }
    false
}

/// Whether the number of each item is read before it is asked whether that is null: where each has
/// a place, and a processor would not foresee that most are null.
#[inline(always)]
pub(crate) fn is_ahead<P: Places, C: Cells>(x: &Leaves<'_, P, C>, first: u64, count: u64) -> bool
    requires { AreItems (P.at x.now.places.now) (P.size x.now.places.now) (C.lane x.now.cells.now)
        first count }
    ensures { result ≡ true → AreAhead (P.ahead x.now.places.now) first count
        (size_of (C.lane x.now.cells.now)) }
{
    if is_sparse(x) {
        return false;
    }
    x.places.reaches(x.cells, first, count)
}

/// Whether so many items are all null.
#[inline(always)]
pub(crate) fn is_void<P: Places, C: Cells, L: Ledger>(
    x: &Leaves<'_, P, C>,
    first: u64,
    count: u64,
    steps: &mut Steps<L>,
) -> bool
    requires items { AreItems (P.at x.now.places.now) (P.size x.now.places.now)
        (C.lane x.now.cells.now) first count }
    ensures { result ≡ true → numbers_from (leaf_number (P.at x.now.places.now)
        (C.lane x.now.cells.now)) first count ≡ [] }
{
    x.places.present(first, count, steps) == 0
}

/// The number of item i, if that is not null.
#[inline(always)]
pub(crate) fn number_of<P: Places, C: Cells, L: Ledger>(
    x: &Leaves<'_, P, C>,
    i: u64,
    steps: &mut Steps<L>,
) -> Option<i128>
    requires within { i < P.size x.now.places.now }
    requires leads { AreLeading (P.at x.now.places.now) (P.size x.now.places.now)
        (size_of (C.lane x.now.cells.now)) }
    ensures number { result ≡ leaf_number (P.at x.now.places.now) (C.lane x.now.cells.now) i }
    ensures near { IfSome result (λ z. unsigned_abs z < 18446744073709551616) }
{
    match x.places.place(i, steps) {
        Some(place) => Some(x.cells.exact(place, steps)),
        None => None,
    }
}

/// The same, where a number is read before the item is asked whether it is null.
#[inline(always)]
fn number_ahead<P: Places, C: Cells, L: Ledger>(
    x: &Leaves<'_, P, C>,
    i: u64,
    steps: &mut Steps<L>,
) -> Option<i128>
    requires within { i < P.size x.now.places.now }
    requires ahead { P.ahead x.now.places.now i < size_of (C.lane x.now.cells.now) }
    ensures number { result ≡ leaf_number (P.at x.now.places.now) (C.lane x.now.cells.now) i }
    ensures near { IfSome result (λ z. unsigned_abs z < 18446744073709551616) }
{
    let z = x.cells.exact(x.places.ahead(i), steps);
    if x.places.shows(i, steps) {
        Some(z)
    } else {
        None
    }
}

/// The same, read ahead or not.
#[inline(always)]
fn number_by<P: Places, C: Cells, L: Ledger>(
    ahead: bool,
    x: &Leaves<'_, P, C>,
    i: u64,
    steps: &mut Steps<L>,
) -> Option<i128>
    requires within { i < P.size x.now.places.now }
    requires leads { AreLeading (P.at x.now.places.now) (P.size x.now.places.now)
        (size_of (C.lane x.now.cells.now)) }
    requires ahead { ahead ≡ true → P.ahead x.now.places.now i < size_of (C.lane x.now.cells.now) }
    ensures number { result ≡ leaf_number (P.at x.now.places.now) (C.lane x.now.cells.now) i }
    ensures near { IfSome result (λ z. unsigned_abs z < 18446744073709551616) }
{
    if ahead {
        return number_ahead(x, i, steps);
    }
    number_of(x, i, steps)
}

/// What numbers come to, one after another.
pub(crate) trait Total {
    ghost use Rattle.std.specs.Prelude.{ℤ, List, ◌++◌};
    ghost use Rattle.awk_nullable.specs.Numbers.{number_list};

    /// What it is after numbers.
    ghost IsOf: { Self → List ℤ → Type 0 };

    /// After one item more, whose number is left out where it is null.
    fn after(self, number: Option<i128>) -> Self
        requires near { IfSome number (λ z. unsigned_abs z < 18446744073709551616) }
        requires few { (zs : List ℤ) × IsOf self zs × (length zs < 1073741824) }
        ensures { (zs : List ℤ) → IsOf self zs → IsOf result (zs ++ number_list number) };
}

/// What the numbers of so many items from a first one on come to, each read ahead or not.
#[inline(always)]
fn total_by<T: Total, P: Places, C: Cells, L: Ledger>(
    ahead: bool,
    none: T,
    x: &Leaves<'_, P, C>,
    first: u64,
    count: u64,
    steps: &mut Steps<L>,
) -> T
    requires none { T.IsOf none [] }
    requires items { AreItems (P.at x.now.places.now) (P.size x.now.places.now)
        (C.lane x.now.cells.now) first count }
    requires ahead { ahead ≡ true → AreAhead (P.ahead x.now.places.now) first count
        (size_of (C.lane x.now.cells.now)) }
    ensures { T.IsOf result (numbers_from (leaf_number (P.at x.now.places.now)
        (C.lane x.now.cells.now)) first count) }
{
    let mut total = none;
    for i in 0..count {
        total = total.after(number_by(ahead, x, first + i, steps));
    }
    total
}

/// What the numbers of so many items from a first one on come to. They are read ahead where they
/// can be, since a branch at each null costs more than a number that is not asked for.
pub(crate) fn total_of<T: Total, P: Places, C: Cells, L: Ledger>(
    none: T,
    x: &Leaves<'_, P, C>,
    first: u64,
    count: u64,
    steps: &mut Steps<L>,
) -> T
    requires none { T.IsOf none [] }
    requires items { AreItems (P.at x.now.places.now) (P.size x.now.places.now)
        (C.lane x.now.cells.now) first count }
    ensures { T.IsOf result (numbers_from (leaf_number (P.at x.now.places.now)
        (C.lane x.now.cells.now)) first count) }
{
    if is_ahead(x, first, count) {
        return total_by(true, none, x, first, count, steps);
    }
    total_by(false, none, x, first, count, steps)
}

/// How many of so many items from a first one on are not null.
#[inline(always)]
pub fn count_of<P: Places, C: Cells, L: Ledger>(
    x: &Leaves<'_, P, C>,
    first: u64,
    count: u64,
    steps: &mut Steps<L>,
) -> u64
    requires items { AreItems (P.at x.now.places.now) (P.size x.now.places.now)
        (C.lane x.now.cells.now) first count }
    ensures present { result ≡ length (numbers_from (leaf_number (P.at x.now.places.now)
        (C.lane x.now.cells.now)) first count) }
    ensures few { result ≤ count }
{
    x.places.present(first, count, steps)
}
