//! The first place that a test finds.
ghost use Rattle.std.specs.Prelude.{◌≡◌, ℕ, ◌<◌, ◌≤◌, length, get_or, pos, false};
ghost use Rattle.awk_kernels.specs.Kernels.{first_outside, is_outside};
ghost use Rattle.awk_kernels.specs.Kernels.{first_out_of_order, is_out_of_order};

use crate::blocks::{LANES, known, some_below, some_from, some_less};
use crate::rest;

/// How many numbers from the first on are found to be within.
fn within(xs: &[i64], lo: i64, hi: i64) -> usize
    ensures count { result ≤ length xs.now }
    ensures passed { (k : ℕ) → k < result → is_outside lo hi (get_or xs.now k (pos 0)) ≡ false }
{
    known(xs);
    for n in 0..xs.len() / LANES {
        if some_below(xs, n * LANES, lo) || some_from(xs, n * LANES, hi) {
            return n * LANES;
        }
    }
    xs.len() / LANES * LANES
}

pub(crate) fn first_outside(xs: &[i64], lo: i64, hi: i64) -> Option<usize>
    ensures { result ≡ first_outside xs.now lo hi }
{
    let passed = within(xs, lo, hi);
    rest::first_outside(xs, lo, hi, passed)
}

/// How many lists from the first on are found to be in order.
fn in_order(starts: &[i64], stops: &[i64]) -> usize
    requires stops { length stops.now ≡ length starts.now }
    ensures count { result ≤ length starts.now }
    ensures passed { (k : ℕ) → k < result
        → is_out_of_order (get_or starts.now k (pos 0), get_or stops.now k (pos 0)) ≡ false }
{
    known(starts);
    known(stops);
    for n in 0..starts.len() / LANES {
        if some_less(stops, starts, n * LANES) || some_below(starts, n * LANES, 0) {
            return n * LANES;
        }
    }
    starts.len() / LANES * LANES
}

pub(crate) fn first_out_of_order(starts: &[i64], stops: &[i64]) -> Option<usize>
    requires stops { length stops.now ≡ length starts.now }
    ensures { result ≡ first_out_of_order starts.now stops.now }
{
    let passed = in_order(starts, stops);
    rest::first_out_of_order(starts, stops, passed)
}
