//! Exact sums and products.
ghost use Rattle.std.specs.Prelude.{◌≡◌, ◌-◌, ◌<◌, ◌≤◌, ◌*ℤ◌, ℤ, unsigned_abs, length, Some};
ghost use Rattle.std.specs.List.{slice_range, list_any};
ghost use Rattle.awk_kernels.specs.Kernels.{total};
ghost use Rattle.awk_numbers.specs.Folds.{whole_numbers, product, is_zero, IsNear};
ghost use Rattle.awk_numbers.specs.Folds as spec;

use crate::row::Row;
use crate::whole::{Pass, Whole};

/// What numbers come to by one operation on all of them.
#[derive(Clone, Copy, Debug, PartialEq, Eq)]
pub enum Fold {
    /// Of none 0.
    Sum,
    /// Of none 1.
    Product,
}

/// The sum of numbers.
fn sum<R: Row>(row: &R) -> i128
    requires few { length (R.numbers row.now) ≤ 1073741824 }
    ensures { result ≡ total (R.numbers row.now) }
{
    let mut sum: i128 = 0;
    for i in 0..row.len() {
        sum += row.at(i);
    }
    sum
}

/// Whether one of the numbers is 0.
fn has_zero<R: Row>(row: &R) -> bool
    ensures { result ≡ list_any is_zero (R.numbers row.now) }
{
    for i in 0..row.len() {
        if row.at(i) == 0 {
            return true;
        }
    }
    false
}

/// A product, if it is nearer to 0 than 2 to the power of 64.
#[inline(always)]
pub fn near(so_far: i128, factor: i128) -> Option<i128>
    ensures near { IsNear (so_far *ℤ factor) result }
    ensures small { (z : ℤ) → result ≡ Some z → unsigned_abs z < 18446744073709551616 }
{
    let next = so_far.checked_mul(factor)?;
    if next.unsigned_abs() >= 0x1_0000_0000_0000_0000 {
        None
    } else {
        Some(next)
    }
}

/// The product of numbers, or none where it is as far from 0 as 2 to the power of 64. Once a
/// product is so far, it comes back by a factor 0 alone.
fn product<R: Row>(row: &R) -> Option<i128>
    ensures { IsNear (product (R.numbers row.now)) result }
{
    if has_zero(row) {
        return Some(0);
    }
    let mut so_far: i128 = 1;
    for i in 0..row.len() {
        match near(so_far, row.at(i)) {
            Some(next) => so_far = next,
            None => return None,
        }
    }
    Some(so_far)
}

impl Pass for Fold {
    ghost use Rattle.awk_numbers.specs.Folds.{folded, IsNear};

    type Told = Option<i128>;

    ghost tells = { λ how zs result. IsNear (folded how zs) result };

    #[inline(always)]
    fn over<R: Row>(&self, row: &R) -> Option<i128> {
        match self {
            Fold::Sum => Some(sum(row)),
            Fold::Product => product(row),
        }
    }
}

/// The exact sum or product of the numbers from a start below a stop, or none where no number of 64
/// bits is so far from 0.
pub fn folded(how: Fold, numbers: &Whole, start: u64, stop: u64) -> Option<i128>
    requires order { start ≤ stop }
    requires within { stop ≤ length (whole_numbers numbers.now) }
    requires few { stop - start ≤ 1073741824 }
    ensures { IsNear (spec.folded how (slice_range (whole_numbers numbers.now) start stop)) result }
{
    numbers.told(&how, start, stop)
}
