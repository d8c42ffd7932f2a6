//! Products and counts of the items of a list that are not null.
ghost use Rattle.std.specs.Prelude.{◌≡◌, ◌<◌, ◌≤◌, ◌++◌, ◌∷◌, ℤ, List, [], cond};
ghost use Rattle.std.specs.Prelude.{unsigned_abs};
ghost use Rattle.std.specs.List.{count_by, list_any, list_all};
ghost use Rattle.awk_lanes.specs.Numbers.{int_of, is_nonzero, IsOf as IsOfKind};
ghost use Rattle.awk_numbers.specs.Folds.{tallied, tally_kind, product, IsNear};
ghost use Rattle.awk_nullable.specs.Numbers.{leaf_number, numbers_from, AreItems};
ghost use Rattle.awk_nullable.specs.Totals.{is_true_number, is_false, IsEarly, IsProduct};

use crate::cells::Cells;
use crate::numbers::{Leaves, Total, count_of, number_of, total_of};
use crate::places::Places;
use awk_lanes::{Num, Steps, number};
use awk_numbers::{Tally, near, one_if};
use std::sync::ledger::Ledger;

/// The product of numbers, or none where that of the first ones is not one of 64 bits.
#[derive(Clone, Copy)]
pub(crate) struct Early {
    product: Option<i64>,
}

/// A product after one number more, if both and it are numbers of 64 bits.
#[inline(always)]
fn times_early(product: Option<i64>, z: i128) -> Option<i64>
    ensures { (zs : List ℤ) → IsEarly product zs → IsEarly result (zs ++ z ∷ []) }
{
    let so_far = product?;
    if z < -0x8000_0000_0000_0000 || z > 0x7fff_ffff_ffff_ffff {
        return None;
    }
    so_far.checked_mul(z as i64)
}

impl Total for Early {
    ghost use Rattle.awk_nullable.specs.Totals.{IsEarly};

    ghost IsOf = { λ x zs. IsEarly x.product zs };

    #[inline(always)]
    fn after(self, number: Option<i128>) -> Early {
        match number {
            Some(z) => Early {
                product: times_early(self.product, z),
            },
            None => self,
        }
    }
}

/// The product of numbers.
#[derive(Clone, Copy)]
pub(crate) enum Product {
    /// One of them is 0.
    Zero,
    /// None is 0, and it is as far from 0 as 2 to the power of 64.
    Far,
    /// None is 0, and it is nearer.
    Near(i128),
}

/// A product after one number more.
#[inline(always)]
fn times(product: Product, z: i128) -> Product
    requires { unsigned_abs z < 18446744073709551616 }
    ensures { (zs : List ℤ) → IsProduct product zs → IsProduct result (zs ++ z ∷ []) }
{
    if z == 0 {
        return Product::Zero;
    }
    match product {
        Product::Zero => Product::Zero,
        Product::Far => Product::Far,
        Product::Near(so_far) => match near(so_far, z) {
            Some(next) => Product::Near(next),
            None => Product::Far,
        },
    }
}

impl Total for Product {
    ghost use Rattle.awk_nullable.specs.Totals.{IsProduct};

    ghost IsOf = { IsProduct };

    #[inline(always)]
    fn after(self, number: Option<i128>) -> Product {
        match number {
            Some(z) => times(self, z),
            None => self,
        }
    }
}

/// A product as it is, or none where it is far.
fn near_product(x: Product) -> Option<i128>
    ensures { (zs : List ℤ) → IsProduct x zs → IsNear (product zs) result }
{
    match x {
        Product::Zero => Some(0),
        Product::Far => None,
        Product::Near(z) => Some(z),
    }
}

/// How many numbers are not 0.
#[derive(Clone, Copy)]
pub(crate) struct Nonzero {
    count: u64,
}

impl Total for Nonzero {
    ghost use Rattle.std.specs.Prelude.{◌≡◌};
    ghost use Rattle.std.specs.List.{count_by, list_any, list_all};
    ghost use Rattle.awk_lanes.specs.Numbers.{is_nonzero};

    ghost IsOf = { λ x zs. x.count ≡ count_by is_nonzero zs };

    #[inline(always)]
    fn after(self, number: Option<i128>) -> Nonzero {
        match number {
            Some(z) => Nonzero {
                count: self.count + one_if(z),
            },
            None => self,
        }
    }
}

/// 1 for 0, else 0.
#[inline(always)]
fn one_if_zero(z: i128) -> u64
    ensures one { result ≡ cond (is_false z) 1 0 }
    ensures small { result ≤ 1 }
{
    if z == 0 { 1 } else { 0 }
}

/// How many numbers are 0.
#[derive(Clone, Copy)]
pub(crate) struct Zeros {
    count: u64,
}

impl Total for Zeros {
    ghost use Rattle.std.specs.Prelude.{◌≡◌};
    ghost use Rattle.std.specs.List.{count_by};
    ghost use Rattle.awk_nullable.specs.Totals.{is_false};

    ghost IsOf = { λ x zs. x.count ≡ count_by is_false zs };

    #[inline(always)]
    fn after(self, number: Option<i128>) -> Zeros {
        match number {
            Some(z) => Zeros {
                count: self.count + one_if_zero(z),
            },
            None => self,
        }
    }
}

/// The exact product of so many items from a first one on, or none where no number of 64 bits is so
/// far from 0. It is made in 64 bits, and in 128 where it is found in no 64.
pub fn product_of<P: Places, C: Cells, L: Ledger>(
    x: &Leaves<'_, P, C>,
    first: u64,
    count: u64,
    steps: &mut Steps<L>,
) -> Option<i128>
    requires items { AreItems (P.at x.now.places.now) (P.size x.now.places.now)
        (C.lane x.now.cells.now) first count }
    ensures { IsNear (product (numbers_from (leaf_number (P.at x.now.places.now)
        (C.lane x.now.cells.now)) first count)) result }
{
    match total_of(Early { product: Some(1) }, x, first, count, steps).product {
        Some(z) => Some(i128::from(z)),
        None => near_product(total_of(Product::Near(1), x, first, count, steps)),
    }
}

/// How many items are not 0 and not null.
fn nonzero_of<P: Places, C: Cells, L: Ledger>(
    x: &Leaves<'_, P, C>,
    first: u64,
    count: u64,
    steps: &mut Steps<L>,
) -> u64
    requires items { AreItems (P.at x.now.places.now) (P.size x.now.places.now)
        (C.lane x.now.cells.now) first count }
    ensures nonzero { result ≡ count_by is_nonzero (numbers_from (leaf_number
        (P.at x.now.places.now) (C.lane x.now.cells.now)) first count) }
    ensures few { result ≤ count }
{
    total_of(Nonzero { count: 0 }, x, first, count, steps).count
}

/// Whether a number is not 0.
#[inline(always)]
fn is_true(z: i128) -> bool
    ensures { result ≡ is_nonzero z }
{
    z != 0
}

/// Whether an item is not null and not 0.
#[inline(always)]
fn is_true_there(number: Option<i128>) -> bool
    ensures { result ≡ is_true_number number }
{
    match number {
        Some(z) => is_true(z),
        None => false,
    }
}

/// Whether some item is not null and not 0.
fn is_some_true<P: Places, C: Cells, L: Ledger>(
    x: &Leaves<'_, P, C>,
    first: u64,
    count: u64,
    steps: &mut Steps<L>,
) -> bool
    requires items { AreItems (P.at x.now.places.now) (P.size x.now.places.now)
        (C.lane x.now.cells.now) first count }
    ensures { result ≡ list_any is_nonzero (numbers_from (leaf_number (P.at x.now.places.now)
        (C.lane x.now.cells.now)) first count) }
{
    for i in 0..count {
        if is_true_there(number_of(x, first + i, steps)) {
            return true;
        }
    }
    false
}

/// How many of so many items from a first one on are 0 and not null.
fn zeros_of<P: Places, C: Cells, L: Ledger>(
    x: &Leaves<'_, P, C>,
    first: u64,
    count: u64,
    steps: &mut Steps<L>,
) -> u64
    requires items { AreItems (P.at x.now.places.now) (P.size x.now.places.now)
        (C.lane x.now.cells.now) first count }
    ensures { result ≡ count_by is_false (numbers_from (leaf_number (P.at x.now.places.now)
        (C.lane x.now.cells.now)) first count) }
{
    total_of(Zeros { count: 0 }, x, first, count, steps).count
}

/// Whether no item of a block that is not null is 0. Each is read.
#[inline(always)]
fn is_block_true<P: Places, C: Cells, L: Ledger>(
    x: &Leaves<'_, P, C>,
    first: u64,
    count: u64,
    steps: &mut Steps<L>,
) -> bool
    requires items { AreItems (P.at x.now.places.now) (P.size x.now.places.now)
        (C.lane x.now.cells.now) first count }
    ensures { result ≡ list_all is_nonzero (numbers_from (leaf_number (P.at x.now.places.now)
        (C.lane x.now.cells.now)) first count) }
{
    if zeros_of(x, first, count, steps) > 0 {
        return false;
    }
    true
}

/// Whether no item that is not null is 0. A block has 64, so that long lists are left early and
/// short ones have no branch at an item.
fn are_all_true<P: Places, C: Cells, L: Ledger>(
    x: &Leaves<'_, P, C>,
    first: u64,
    count: u64,
    steps: &mut Steps<L>,
) -> bool
    requires items { AreItems (P.at x.now.places.now) (P.size x.now.places.now)
        (C.lane x.now.cells.now) first count }
    ensures { result ≡ list_all is_nonzero (numbers_from (leaf_number (P.at x.now.places.now)
        (C.lane x.now.cells.now)) first count) }
{
    let blocks = count / 64;
    for i in 0..blocks {
        if !is_block_true(x, first + i * 64, 64, steps) {
            return false;
        }
    }
    is_block_true(x, first + blocks * 64, count - blocks * 64, steps)
}

/// What is told of the items that are not null.
pub fn tally_of<P: Places, C: Cells, L: Ledger>(
    how: Tally,
    x: &Leaves<'_, P, C>,
    first: u64,
    count: u64,
    steps: &mut Steps<L>,
) -> Num
    requires items { AreItems (P.at x.now.places.now) (P.size x.now.places.now)
        (C.lane x.now.cells.now) first count }
    ensures number { int_of result ≡ tallied how (numbers_from (leaf_number
        (P.at x.now.places.now) (C.lane x.now.cells.now)) first count) }
    ensures kind { IsOfKind (tally_kind how) result }
{
    match how {
        Tally::Items => number(count_of(x, first, count, steps)),
        Tally::Nonzero => number(nonzero_of(x, first, count, steps)),
        Tally::Any => Num::Truth(is_some_true(x, first, count, steps)),
        Tally::All => Num::Truth(are_all_true(x, first, count, steps)),
    }
}
