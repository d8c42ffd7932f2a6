//! The least or the greatest of numbers that fit an i64, which are compared as such.
ghost use Rattle.std.specs.Prelude.{◌≡◌, ◌<◌, pos, get_or, length, map, IfSome};
ghost use Rattle.awk_cells.specs.Extremes.{better_of, IsBest};
ghost use Rattle.awk_numbers.specs.Folds.{first_extreme};

use crate::cells::Cell;
use awk_numbers::{Extreme, Greater, Lesser, Side};

/// The number at place i.
#[inline(always)]
pub fn number_at<const W: usize, C: Cell<W>>(groups: &[[u8; W]], i: usize) -> i64
    requires { i < length groups.now }
    ensures { result ≡ get_or (map C.number groups.now) i (pos 0) }
{
    C::number(&groups[i])
}

/// An extreme number, and the first of its places.
#[derive(Clone, Copy)]
pub struct Best {
    pub place: usize,
    pub number: i64,
}

/// The better one of the best so far and the next number.
#[inline(always)]
fn better<S: Side>(old: Best, next: Best) -> Best
    ensures { result ≡ better_of S.how old next }
{
    if S::beats(next.number, old.number) {
        next
    } else {
        old
    }
}

/// The extreme.
#[inline(always)]
fn best_in<S: Side, const W: usize, C: Cell<W>>(groups: &[[u8; W]]) -> Best
    requires some { 0 < length groups.now }
    ensures { IsBest S.how C.number groups.now result }
{
    let first = number_at::<W, C>(groups, 0);
    let mut best = Best {
        place: 0,
        number: first,
    };
    for i in 0..groups.len() {
        let number = number_at::<W, C>(groups, i);
        best = better::<S>(best, Best { place: i, number });
    }
    best
}

/// The extreme.
#[inline(always)]
pub fn best_of<const W: usize, C: Cell<W>>(how: Extreme, groups: &[[u8; W]]) -> Best
    requires some { 0 < length groups.now }
    ensures { IsBest how C.number groups.now result }
{
    match how {
        Extreme::Least => best_in::<Lesser, W, C>(groups),
        Extreme::Greatest => best_in::<Greater, W, C>(groups),
    }
}

/// The first place of the extreme, or none of none.
#[inline(always)]
pub fn extreme_place<const W: usize, C: Cell<W>>(how: Extreme, groups: &[[u8; W]]) -> Option<u64>
    ensures place { result ≡ first_extreme how (map C.number groups.now) }
    ensures inside { IfSome result (λ k. k < length groups.now) }
{
    if groups.is_empty() {
        return None;
    }
    Some(best_of::<W, C>(how, groups).place as u64)
}
