//! Each operation on two numbers.
ghost use Rattle.std.specs.Prelude.{◌≡◌, ◌≢◌, pos, negsuc};
ghost use Rattle.awk_kernels.specs.declared.operation.Arith.TheVariants.{Add, Sub, Mul, FloorDiv};
ghost use Rattle.awk_kernels.specs.declared.operation.Arith.TheVariants.{Rem};
ghost use Rattle.awk_kernels.specs.Operations.{leaf, within, whole, holds, floor_div, floor_rem};

use crate::operation::{Arith, Compare, Why};

#[inline(always)]
fn within(z: i64, lo: i64, hi: i64) -> Result<i64, Why>
    ensures { result ≡ within lo hi z }
{
    if z < lo || z > hi {
        Err(Why::Overflow)
    } else {
        Ok(z)
    }
}

#[inline(always)]
fn sum(x: i64, y: i64, lo: i64, hi: i64) -> Result<i64, Why>
    ensures { result ≡ leaf Add lo hi x y }
{
    match x.checked_add(y) {
        Some(z) => within(z, lo, hi),
        None => Err(Why::Overflow),
    }
}

#[inline(always)]
fn difference(x: i64, y: i64, lo: i64, hi: i64) -> Result<i64, Why>
    ensures { result ≡ leaf Sub lo hi x y }
{
    match x.checked_sub(y) {
        Some(z) => within(z, lo, hi),
        None => Err(Why::Overflow),
    }
}

#[inline(always)]
fn product(x: i64, y: i64, lo: i64, hi: i64) -> Result<i64, Why>
    ensures { result ≡ leaf Mul lo hi x y }
{
    match x.checked_mul(y) {
        Some(z) => within(z, lo, hi),
        None => Err(Why::Overflow),
    }
}

/// The quotient rounded towards minus infinity, and what is left.
#[inline(always)]
fn divide(x: i64, y: i64) -> (i64, i64)
    requires zero { y ≢ pos 0 }
    requires minus { y ≢ negsuc 0 }
    ensures quotient { result.0 ≡ floor_div x y }
    ensures rest { result.1 ≡ floor_rem x y }
{
    let quotient = x.div_euclid(y);
    let rest = x.rem_euclid(y);
    if y > 0 {
        return (quotient, rest);
    }
    if rest == 0 {
        (quotient, rest)
    } else {
        (quotient - 1, rest + y)
    }
}

#[inline(always)]
fn quotient(x: i64, y: i64, lo: i64, hi: i64) -> Result<i64, Why>
    ensures { result ≡ leaf FloorDiv lo hi x y }
{
    if y == 0 {
        Err(Why::Zero)
    } else if y == -1 {
        difference(0, x, lo, hi)
    } else {
        within(divide(x, y).0, lo, hi)
    }
}

#[inline(always)]
fn remainder(x: i64, y: i64, lo: i64, hi: i64) -> Result<i64, Why>
    ensures { result ≡ leaf Rem lo hi x y }
{
    if y == 0 {
        Err(Why::Zero)
    } else if y == -1 {
        within(0, lo, hi)
    } else {
        within(divide(x, y).1, lo, hi)
    }
}

/// The exact result within `lo` to `hi`, or why there is none.
#[inline(always)]
pub fn calculate(op: Arith, x: i64, y: i64, lo: i64, hi: i64) -> Result<i64, Why>
    ensures { result ≡ leaf op lo hi x y }
{
    match op {
        Arith::Add => sum(x, y, lo, hi),
        Arith::Sub => difference(x, y, lo, hi),
        Arith::Mul => product(x, y, lo, hi),
        Arith::FloorDiv => quotient(x, y, lo, hi),
        Arith::Rem => remainder(x, y, lo, hi),
    }
}

#[inline(always)]
pub(crate) fn test(how: Compare, x: i64, y: i64) -> bool
    ensures { result ≡ holds how x y }
{
    match how {
        Compare::Eq => x == y,
        Compare::Ne => x != y,
        Compare::Lt => x < y,
        Compare::Le => x <= y,
        Compare::Gt => x > y,
        Compare::Ge => x >= y,
    }
}

#[inline(always)]
pub(crate) fn test_nat(how: Compare, x: u64, y: u64) -> bool
    ensures { result ≡ holds how (pos x) (pos y) }
{
    match how {
        Compare::Eq => x == y,
        Compare::Ne => x != y,
        Compare::Lt => x < y,
        Compare::Le => x <= y,
        Compare::Gt => x > y,
        Compare::Ge => x >= y,
    }
}

#[inline(always)]
pub(crate) fn test_mixed(how: Compare, x: i64, y: u64) -> bool
    ensures { result ≡ holds how x (pos y) }
{
    if x < 0 {
        matches!(how, Compare::Ne | Compare::Lt | Compare::Le)
    } else {
        test_nat(how, x as u64, y)
    }
}

#[inline(always)]
fn within_nat(z: u64, hi: u64) -> Result<u64, Why>
    ensures { whole result ≡ within (pos 0) (pos hi) (pos z) }
{
    if z > hi { Err(Why::Overflow) } else { Ok(z) }
}

/// The same, of numbers that are not below 0.
#[inline(always)]
pub(crate) fn calculate_nat(op: Arith, x: u64, y: u64, hi: u64) -> Result<u64, Why>
    ensures { whole result ≡ leaf op (pos 0) (pos hi) (pos x) (pos y) }
{
    match op {
        Arith::Add => match x.checked_add(y) {
            Some(z) => within_nat(z, hi),
            None => Err(Why::Overflow),
        },
        Arith::Sub => {
            if x < y {
                Err(Why::Overflow)
            } else {
                within_nat(x - y, hi)
            }
        }
        Arith::Mul => match x.checked_mul(y) {
            Some(z) => within_nat(z, hi),
            None => Err(Why::Overflow),
        },
        Arith::FloorDiv => {
            if y == 0 {
                Err(Why::Zero)
            } else {
                within_nat(x / y, hi)
            }
        }
        Arith::Rem => {
            if y == 0 {
                Err(Why::Zero)
            } else {
                within_nat(x % y, hi)
            }
        }
    }
}
