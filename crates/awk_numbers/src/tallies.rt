//! Counts of numbers, and whether they are not 0.
ghost use Rattle.std.specs.Prelude.{◌≡◌, ◌-◌, ◌≤◌, cond, length, map, pos};
ghost use Rattle.std.specs.List.{slice_range, count_by};
ghost use Rattle.awk_lanes.specs.Numbers.{element, int_of, is_nonzero, IsOf};
ghost use Rattle.awk_lanes.specs.declared.kind.Kind.TheVariants as Kind;
ghost use Rattle.awk_numbers.specs.Folds.{whole_numbers, tallied, tally_kind};

use crate::row::Row;
use crate::whole::{Pass, Whole};
use awk_kernels::Kernels;
use awk_lanes::{Num, number};

/// What is told of numbers by how many are not 0.
#[derive(Clone, Copy, Debug, PartialEq, Eq)]
pub enum Tally {
    /// How many there are.
    Items,
    /// How many are not 0.
    Nonzero,
    /// Whether some is not 0.
    Any,
    /// Whether none is 0.
    All,
}

/// How many numbers are not 0.
struct Nonzero;

impl Pass for Nonzero {
    ghost use Rattle.std.specs.Prelude.{◌≡◌};
    ghost use Rattle.std.specs.List.{count_by};
    ghost use Rattle.awk_lanes.specs.Numbers.{is_nonzero};

    type Told = u64;

    ghost tells = { λ _ zs result. result ≡ count_by is_nonzero zs };

    #[inline(always)]
    fn over<R: Row>(&self, row: &R) -> u64 {
        nonzero_in(row)
    }
}

/// 1 for a number that is not 0, else 0.
#[inline(always)]
pub fn one_if(z: i128) -> u64
    ensures one { result ≡ cond (is_nonzero z) 1 0 }
    ensures small { result ≤ 1 }
{
    if z == 0 { 0 } else { 1 }
}

fn nonzero_in<R: Row>(row: &R) -> u64
    requires few { length (R.numbers row.now) ≤ 1073741824 }
    ensures { result ≡ count_by is_nonzero (R.numbers row.now) }
{
    let mut count: u64 = 0;
    for i in 0..row.len() {
        count += one_if(row.at(i));
    }
    count
}

/// How many truth values are true.
fn count_true<N: Kernels>(bytes: &[u8], kernels: &N) -> u64
    ensures { result ≡ count_by is_nonzero (map (λ b. element Kind.Bool (pos b)) bytes.now) }
{
    kernels.count_true(bytes)
}

/// How many numbers from a start below a stop are not 0.
fn count_nonzero<N: Kernels>(numbers: &Whole, start: u64, stop: u64, kernels: &N) -> u64
    requires order { start ≤ stop }
    requires within { stop ≤ length (whole_numbers numbers.now) }
    requires few { stop - start ≤ 1073741824 }
    ensures count { result
        ≡ count_by is_nonzero (slice_range (whole_numbers numbers.now) start stop) }
    ensures few { result ≤ stop - start }
{
    match numbers {
        Whole::Truths(bytes) => count_true(&bytes[start as usize..stop as usize], kernels),
        _ => numbers.told(&Nonzero, start, stop),
    }
}

/// What is told of the numbers from a start below a stop.
pub fn tally_of<N: Kernels>(how: Tally, numbers: &Whole, start: u64, stop: u64, kernels: &N) -> Num
    requires order { start ≤ stop }
    requires within { stop ≤ length (whole_numbers numbers.now) }
    requires few { stop - start ≤ 1073741824 }
    ensures number { int_of result
        ≡ tallied how (slice_range (whole_numbers numbers.now) start stop) }
    ensures kind { IsOf (tally_kind how) result }
{
    match how {
        Tally::Items => number(stop - start),
        Tally::Nonzero => number(count_nonzero(numbers, start, stop, kernels)),
        Tally::Any => Num::Truth(count_nonzero(numbers, start, stop, kernels) > 0),
        Tally::All => Num::Truth(count_nonzero(numbers, start, stop, kernels) == stop - start),
    }
}
