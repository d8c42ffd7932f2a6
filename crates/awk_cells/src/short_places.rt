//! Where the least or the greatest of numbers that fit an i32 stands first. Each is compared
//! together with its place, as one number, so that several are at once and without a branch.
ghost use Rattle.std.specs.Prelude.{◌≡◌, ◌<◌, ◌≤◌, ◌+ℤ◌, ◌*ℤ◌, ℕ, ℤ, pos, get_or, length, map};
ghost use Rattle.std.specs.Prelude.{unsigned_abs, Some, IfSome};
ghost use Rattle.awk_cells.specs.Extremes.{better_number, packed as packed_of, turned as turned_of};
ghost use Rattle.awk_numbers.specs.Folds.{first_extreme};
ghost use Rattle.awk_numbers.specs.declared.extremes.Extreme.TheVariants.{Least as LeastOf};

use crate::cells::Cell;
use awk_numbers::{Extreme, Lesser, Side};

/// The number at place i, which needs no more than 31 bits beside its sign.
#[inline(always)]
fn near_at<const W: usize, C: Cell<W>>(groups: &[[u8; W]], i: usize) -> i64
    requires within { i < length groups.now }
    requires short { C.reach ≤ 2147483647 }
    ensures number { result ≡ get_or (map C.number groups.now) i (pos 0) }
    ensures near { unsigned_abs result ≤ 2147483647 }
{
    C::number(&groups[i])
}

/// A number, turned round where the greatest is looked for: the better one is then the lesser one.
#[inline(always)]
fn turned(how: Extreme, z: i64) -> i64
    requires { unsigned_abs z ≤ 2147483647 }
    ensures turned { result ≡ turned_of how z }
    ensures near { unsigned_abs result ≤ 2147483647 }
{
    match how {
        Extreme::Least => z,
        Extreme::Greatest => -z,
    }
}

/// A number and its place in one.
#[inline(always)]
fn packed(how: Extreme, z: i64, place: u64) -> i64
    requires near { unsigned_abs z ≤ 2147483647 }
    requires few { place ≤ 1073741824 }
    ensures { result ≡ packed_of how z place }
{
    turned(how, z) * 4_294_967_296 + place as i64
}

/// The lesser one of two numbers.
#[inline(always)]
fn lesser(old: i64, next: i64) -> i64
    ensures { result ≡ better_number LeastOf old next }
{
    if Lesser::beats(next, old) { next } else { old }
}

/// The place in a number and its place.
#[inline(always)]
fn place_in(packed: i64) -> u64
    ensures { (z : ℤ) (p : ℕ) → p ≤ 1073741824 → packed ≡ pos p +ℤ z *ℤ pos 4294967296
        → result ≡ p }
{
    (packed & 0xffff_ffff) as u64
}

/// The first place of the extreme.
#[inline(always)]
fn first_in<const W: usize, C: Cell<W>>(how: Extreme, groups: &[[u8; W]]) -> u64
    requires short { C.reach ≤ 2147483647 }
    requires some { 0 < length groups.now }
    requires few { length groups.now ≤ 1073741824 }
    ensures place { Some result ≡ first_extreme how (map C.number groups.now) }
    ensures inside { result < length groups.now }
{
    let mut best = packed(how, near_at::<W, C>(groups, 0), 0);
    for i in 0..groups.len() {
        best = lesser(best, packed(how, near_at::<W, C>(groups, i), i as u64));
    }
    place_in(best)
}

/// The first place of the extreme, or none of none.
#[inline(always)]
pub fn short_place<const W: usize, C: Cell<W>>(how: Extreme, groups: &[[u8; W]]) -> Option<u64>
    requires short { C.reach ≤ 2147483647 }
    requires few { length groups.now ≤ 1073741824 }
    ensures place { result ≡ first_extreme how (map C.number groups.now) }
    ensures inside { IfSome result (λ k. k < length groups.now) }
{
    if groups.is_empty() {
        return None;
    }
    match how {
        Extreme::Least => Some(first_in::<W, C>(Extreme::Least, groups)),
        Extreme::Greatest => Some(first_in::<W, C>(Extreme::Greatest, groups)),
    }
}
