//! The least or the greatest of numbers that fit an i32: these are compared as such, several at
//! once, and no place is kept.
ghost use Rattle.std.specs.Prelude.{◌≡◌, ◌<◌, ◌++◌, ℤ, List, true, pos, get_or, length, map};
ghost use Rattle.std.specs.List.{flat_map};
ghost use Rattle.awk_cells.specs.Extremes.{IsExtreme, better_number, number_or_zero};
ghost use Rattle.awk_numbers.specs.Folds.{first_extreme};

use crate::blocks::{eights_of, has_blocks};
use crate::cells::Cell;
use awk_numbers::{Extreme, Greater, Lesser, Side};

/// The number at place i.
#[inline(always)]
fn short_at<const W: usize, C: Cell<W>>(groups: &[[u8; W]], i: usize) -> i32
    requires within { i < length groups.now }
    requires short { C.is_short ≡ true }
    ensures { result ≡ get_or (map C.number groups.now) i (pos 0) }
{
    C::number(&groups[i]) as i32
}

/// The better one of the best so far and the next number.
#[inline(always)]
fn better<S: Side>(old: i32, next: i32) -> i32
    ensures { result ≡ better_number S.how old next }
{
    if S::beats(i64::from(next), i64::from(old)) {
        next
    } else {
        old
    }
}

/// The extreme, by one number after another.
#[inline(always)]
fn short_in<S: Side, const W: usize, C: Cell<W>>(groups: &[[u8; W]]) -> i32
    requires short { C.is_short ≡ true }
    requires some { 0 < length groups.now }
    ensures { IsExtreme S.how (map C.number groups.now) result }
{
    let mut best = short_at::<W, C>(groups, 0);
    for i in 0..groups.len() {
        best = better::<S>(best, short_at::<W, C>(groups, i));
    }
    best
}

/// The better one of the best so far and the extreme of blocks.
#[inline(always)]
fn short_in_blocks<S: Side, const W: usize, C: Cell<W>>(first: i32, blocks: &[[[u8; W]; 8]]) -> i32
    requires short { C.is_short ≡ true }
    ensures { (zs : List ℤ) → IsExtreme S.how zs first
        → IsExtreme S.how (zs ++ map C.number (flat_map (λ b. b) blocks.now)) result }
{
    let mut best = first;
    for i in 0..blocks.len() {
        best = better::<S>(best, short_in::<S, W, C>(&blocks[i]));
    }
    best
}

/// The extreme, in blocks of eight and of the last eight where that pays.
#[inline(always)]
fn short_in_all<S: Side, const W: usize, C: Cell<W>>(groups: &[[u8; W]]) -> i32
    requires short { C.is_short ≡ true }
    requires some { 0 < length groups.now }
    ensures { let zs = map C.number groups.now in
        result ≡ number_or_zero zs (first_extreme S.how zs) }
{
    if !has_blocks::<W>(groups.len()) {
        return short_in::<S, W, C>(groups);
    }
    let (blocks, last) = eights_of::<W>(groups);
    short_in_blocks::<S, W, C>(short_in::<S, W, C>(last), blocks)
}

/// The extreme, and 0 of none.
#[inline(always)]
pub fn short_of<const W: usize, C: Cell<W>>(how: Extreme, groups: &[[u8; W]]) -> i32
    requires short { C.is_short ≡ true }
    ensures { let zs = map C.number groups.now in
        result ≡ number_or_zero zs (first_extreme how zs) }
{
    if groups.is_empty() {
        return 0;
    }
    match how {
        Extreme::Least => short_in_all::<Lesser, W, C>(groups),
        Extreme::Greatest => short_in_all::<Greater, W, C>(groups),
    }
}
