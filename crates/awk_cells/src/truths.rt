//! Truth values as numbers, and whether some or all numbers are not 0. Each is tested for being 0:
//! vectors of whole numbers have no `!=` on x86-64, where the result of `==` would be inverted.
ghost use Rattle.std.specs.Prelude.{◌≡◌, ◌<◌, ◌&&◌, ◌||◌, pos, not, get_or, length, map};
ghost use Rattle.std.specs.List.{list_any, list_all, flat_map};
ghost use Rattle.awk_lanes.specs.Numbers.{element, is_nonzero, number};
ghost use Rattle.awk_lanes.specs.declared.kind.Kind.TheVariants as Kind;

use crate::blocks::{eights_of, has_blocks};
use crate::cells::Cell;
use crate::extremes::number_at;

/// Truth values, each in a group of its own.
#[inline(always)]
pub fn truth_groups<'a>(bytes: &'a [u8]) -> &'a [[u8; 1]]
    ensures { map (λ g. element Kind.Bool (number Kind.Bool g)) result.now
        ≡ map (λ b. element Kind.Bool (pos b)) bytes.now }
{
    bytes.as_chunks::<1>().0
}

/// Whether a number is 0.
#[inline(always)]
fn is_zero(z: i64) -> bool
    ensures { result ≡ not (is_nonzero z) }
{
    z == 0
}

/// Whether the number at place i is 0.
#[inline(always)]
pub(crate) fn is_zero_at<const W: usize, C: Cell<W>>(groups: &[[u8; W]], i: usize) -> bool
    requires { i < length groups.now }
    ensures { result ≡ not (is_nonzero (get_or (map C.number groups.now) i (pos 0))) }
{
    is_zero(number_at::<W, C>(groups, i))
}

/// Whether two hold, without a branch.
#[inline(always)]
fn both(x: bool, y: bool) -> bool
    ensures { result ≡ (x && y) }
{
    x & y
}

/// Whether one of two holds, without a branch.
#[inline(always)]
fn either(x: bool, y: bool) -> bool
    ensures { result ≡ (x || y) }
{
    x | y
}

/// Whether no number is other than 0, of which each is read.
#[inline(always)]
fn are_all_zero<const W: usize, C: Cell<W>>(groups: &[[u8; W]]) -> bool
    ensures { result ≡ not (list_any is_nonzero (map C.number groups.now)) }
{
    let mut zero = true;
    for i in 0..groups.len() {
        zero = both(zero, is_zero_at::<W, C>(groups, i));
    }
    zero
}

/// Whether some number is 0, of which each is read.
#[inline(always)]
fn is_some_zero<const W: usize, C: Cell<W>>(groups: &[[u8; W]]) -> bool
    ensures { result ≡ not (list_all is_nonzero (map C.number groups.now)) }
{
    let mut found = false;
    for i in 0..groups.len() {
        found = either(found, is_zero_at::<W, C>(groups, i));
    }
    found
}

/// Whether no number of blocks is other than 0.
#[inline(always)]
fn are_blocks_zero<const W: usize, C: Cell<W>>(blocks: &[[[u8; W]; 8]]) -> bool
    ensures { result ≡ not (list_any is_nonzero (map C.number (flat_map (λ b. b) blocks.now))) }
{
    let mut zero = true;
    for i in 0..blocks.len() {
        zero = both(zero, are_all_zero::<W, C>(&blocks[i]));
    }
    zero
}

/// Whether some number of blocks is 0.
#[inline(always)]
fn is_some_block_zero<const W: usize, C: Cell<W>>(blocks: &[[[u8; W]; 8]]) -> bool
    ensures { result ≡ not (list_all is_nonzero (map C.number (flat_map (λ b. b) blocks.now))) }
{
    let mut found = false;
    for i in 0..blocks.len() {
        found = either(found, is_some_zero::<W, C>(&blocks[i]));
    }
    found
}

/// Whether some number is not 0.
#[inline(always)]
pub fn is_some_true<const W: usize, C: Cell<W>>(groups: &[[u8; W]]) -> bool
    ensures { result ≡ list_any is_nonzero (map C.number groups.now) }
{
    if !has_blocks::<W>(groups.len()) {
        return !are_all_zero::<W, C>(groups);
    }
    let (blocks, last) = eights_of::<W>(groups);
    !both(are_blocks_zero::<W, C>(blocks), are_all_zero::<W, C>(last))
}

/// Whether no number is 0.
#[inline(always)]
pub fn are_all_true<const W: usize, C: Cell<W>>(groups: &[[u8; W]]) -> bool
    ensures { result ≡ list_all is_nonzero (map C.number groups.now) }
{
    if !has_blocks::<W>(groups.len()) {
        return !is_some_zero::<W, C>(groups);
    }
    let (blocks, last) = eights_of::<W>(groups);
    !either(
        is_some_block_zero::<W, C>(blocks),
        is_some_zero::<W, C>(last),
    )
}
