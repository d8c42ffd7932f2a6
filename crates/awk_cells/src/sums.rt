//! Sums of numbers that fit an i64.
ghost use Rattle.std.specs.Prelude.{◌≡◌, ◌<◌, ◌≤◌, pos, get_or, length, map, unsigned_abs};
ghost use Rattle.awk_kernels.specs.Kernels.{total};
ghost use Rattle.awk_lanes.specs.Numbers.{number};
ghost use Rattle.awk_lanes.specs.declared.kind.Kind.TheVariants as Kind;

use crate::cells::Cell;
use crate::extremes::number_at;

/// The number at place i, which needs no more than 32 bits beside its sign.
#[inline(always)]
fn narrow_at<const W: usize, C: Cell<W>>(groups: &[[u8; W]], i: usize) -> i64
    requires within { i < length groups.now }
    requires narrow { C.reach ≤ 4294967296 }
    ensures number { result ≡ get_or (map C.number groups.now) i (pos 0) }
    ensures near { unsigned_abs result ≤ 4294967296 }
{
    C::number(&groups[i])
}

/// The sum of numbers of which each needs so few bits, and which are so few, that no i64 is left.
#[inline(always)]
pub fn sum_in<const W: usize, C: Cell<W>>(groups: &[[u8; W]]) -> i64
    requires narrow { C.reach ≤ 4294967296 }
    requires few { length groups.now ≤ 1073741824 }
    ensures { result ≡ total (map C.number groups.now) }
{
    let mut sum: i64 = 0;
    for i in 0..groups.len() {
        sum += narrow_at::<W, C>(groups, i);
    }
    sum
}

/// The number at place i, in 128 bits.
#[inline(always)]
fn wide_at(groups: &[[u8; 8]], i: usize) -> i128
    requires { i < length groups.now }
    ensures number { result ≡ get_or (map (number Kind.I64) groups.now) i (pos 0) }
    ensures near { unsigned_abs result < 18446744073709551616 }
{
    i128::from(number_at::<8, i64>(groups, i))
}

/// The sum of numbers, which are so few that no i128 is left.
#[inline(always)]
pub fn int_sum_in(groups: &[[u8; 8]]) -> i128
    requires few { length groups.now ≤ 1073741824 }
    ensures { result ≡ total (map (number Kind.I64) groups.now) }
{
    let mut sum: i128 = 0;
    for i in 0..groups.len() {
        sum += wide_at(groups, i);
    }
    sum
}
