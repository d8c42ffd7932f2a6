//! The first place of the least or of the greatest number.
ghost use Rattle.std.specs.Prelude.{◌≡◌, ◌-◌, ◌<◌, ◌≤◌, length, IfSome};
ghost use Rattle.std.specs.List.{slice_range};
ghost use Rattle.awk_numbers.specs.Folds.{whole_numbers, first_extreme, beats};

use crate::row::Row;
use crate::whole::{Pass, Whole};

/// The least number or the greatest.
#[derive(Clone, Copy, Debug, PartialEq, Eq)]
pub enum Extreme {
    Least,
    Greatest,
}

/// Whether a number comes before another in looking for the extreme.
#[inline(always)]
fn beats(how: Extreme, x: i128, y: i128) -> bool
    ensures { result ≡ beats how x y }
{
    match how {
        Extreme::Least => x < y,
        Extreme::Greatest => y < x,
    }
}

/// The first place of the extreme number, or none of none.
fn first_in<R: Row>(how: Extreme, row: &R) -> Option<u64>
    ensures { result ≡ first_extreme how (R.numbers row.now) }
{
    if row.len() == 0 {
        return None;
    }
    let mut place = 0;
    let mut best = row.at(0);
    for i in 0..row.len() {
        let z = row.at(i);
        if beats(how, z, best) {
            place = i;
            best = z;
        }
    }
    Some(place as u64)
}

impl Pass for Extreme {
    ghost use Rattle.std.specs.Prelude.{◌≡◌};
    ghost use Rattle.awk_numbers.specs.Folds.{first_extreme};

    type Told = Option<u64>;

    ghost tells = { λ how zs result. result ≡ first_extreme how zs };

    #[inline(always)]
    fn over<R: Row>(&self, row: &R) -> Option<u64> {
        first_in(*self, row)
    }
}

/// The first place of the extreme number of those from a start below a stop, counted from the
/// start.
pub fn extreme_of(how: Extreme, numbers: &Whole, start: u64, stop: u64) -> Option<u64>
    requires order { start ≤ stop }
    requires within { stop ≤ length (whole_numbers numbers.now) }
    requires few { stop - start ≤ 1073741824 }
    ensures place { result
        ≡ first_extreme how (slice_range (whole_numbers numbers.now) start stop) }
    ensures inside { IfSome result (λ k. k < stop - start) }
{
    numbers.told(&how, start, stop)
}
