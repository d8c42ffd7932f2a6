//! Products of numbers that fit an i64, made in numbers of 64 bits where these hold them.
ghost use Rattle.std.specs.Prelude.{◌≡◌, ◌*ℤ◌, ℤ, map, Some, IfSome, FitsSigned};
ghost use Rattle.std.specs.Int.{w64};
ghost use Rattle.awk_numbers.specs.Folds.{product};

use crate::cells::Cell;
use crate::extremes::number_at;

/// A product, if it is one of 64 bits.
#[inline(always)]
fn times(so_far: i64, factor: i64) -> Option<i64>
    ensures product { IfSome result (λ z. z ≡ so_far *ℤ factor) }
    ensures fits { (z : ℤ) → result ≡ Some z → FitsSigned w64 z }
{
    so_far.checked_mul(factor)
}

/// The product of numbers, or none where the product of the first ones is not one of 64 bits.
#[inline(always)]
pub fn product_in<const W: usize, C: Cell<W>>(groups: &[[u8; W]]) -> Option<i64>
    ensures { IfSome result (λ z. z ≡ product (map C.number groups.now)) }
{
    let mut so_far: i64 = 1;
    for i in 0..groups.len() {
        match times(so_far, number_at::<W, C>(groups, i)) {
            Some(next) => so_far = next,
            None => return None,
        }
    }
    Some(so_far)
}
