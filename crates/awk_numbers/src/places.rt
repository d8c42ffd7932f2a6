//! Numbers as places, where a negative number is none: how many there are, and where one stands.
ghost use Rattle.std.specs.Prelude.{◌≡◌, ◌-◌, ◌<◌, ◌≤◌, cond, length, IfSome};
ghost use Rattle.std.specs.List.{slice_range, count_by};
ghost use Rattle.awk_numbers.specs.Folds.{whole_numbers};
ghost use Rattle.awk_numbers.specs.Places as spec;
ghost use Rattle.awk_numbers.specs.Places.{is_place};

use crate::row::Row;
use crate::whole::{Pass, Whole};

/// How many numbers are places.
struct PlaceCount;

impl Pass for PlaceCount {
    ghost use Rattle.std.specs.Prelude.{◌≡◌};
    ghost use Rattle.std.specs.List.{count_by};
    ghost use Rattle.awk_numbers.specs.Places.{is_place};

    type Told = u64;

    ghost tells = { λ _ zs result. result ≡ count_by is_place zs };

    #[inline(always)]
    fn over<R: Row>(&self, row: &R) -> u64 {
        places_in(row)
    }
}

/// Where a place stands that so many others stand before.
#[derive(Drop)]
struct NthPlace {
    before: u64,
}

impl Pass for NthPlace {
    ghost use Rattle.std.specs.Prelude.{◌≡◌};
    ghost use Rattle.awk_numbers.specs.Places.{nth_place};

    type Told = Option<u64>;

    ghost tells = { λ f zs result. result ≡ nth_place f.before zs };

    #[inline(always)]
    fn over<R: Row>(&self, row: &R) -> Option<u64> {
        nth_in(self.before, row)
    }
}

/// 1 for a place, else 0.
#[inline(always)]
fn one_if_place(z: i128) -> u64
    ensures one { result ≡ cond (is_place z) 1 0 }
    ensures small { result ≤ 1 }
{
    if z >= 0 { 1 } else { 0 }
}

fn places_in<R: Row>(row: &R) -> u64
    requires few { length (R.numbers row.now) ≤ 1073741824 }
    ensures { result ≡ count_by is_place (R.numbers row.now) }
{
    let mut count: u64 = 0;
    for i in 0..row.len() {
        count += one_if_place(row.at(i));
    }
    count
}

fn nth_in<R: Row>(before: u64, row: &R) -> Option<u64>
    ensures { result ≡ spec.nth_place before (R.numbers row.now) }
{
    let mut left = before;
    for i in 0..row.len() {
        if row.at(i) >= 0 {
            if left == 0 {
                return Some(i as u64);
            }
            left -= 1;
        }
    }
    None
}

/// How many numbers from a start below a stop are not negative.
pub fn count_places(numbers: &Whole, start: u64, stop: u64) -> u64
    requires order { start ≤ stop }
    requires within { stop ≤ length (whole_numbers numbers.now) }
    requires few { stop - start ≤ 1073741824 }
    ensures { result ≡ count_by is_place (slice_range (whole_numbers numbers.now) start stop) }
{
    numbers.told(&PlaceCount, start, stop)
}

/// Where among the numbers from a start below a stop, counted from the start, one stands that is
/// not negative and that so many such stand before.
pub fn nth_place(numbers: &Whole, start: u64, stop: u64, before: u64) -> Option<u64>
    requires order { start ≤ stop }
    requires within { stop ≤ length (whole_numbers numbers.now) }
    requires few { stop - start ≤ 1073741824 }
    ensures place { result
        ≡ spec.nth_place before (slice_range (whole_numbers numbers.now) start stop) }
    ensures inside { IfSome result (λ k. k < stop - start) }
{
    let pass = NthPlace { before };
    numbers.told(&pass, start, stop)
}
