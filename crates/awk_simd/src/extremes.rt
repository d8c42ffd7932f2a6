//! The first least and the first greatest number.
ghost use Rattle.std.specs.Prelude.{◌≡◌, ◌<◌, ◌≤◌, length, get_or, pos};
ghost use Rattle.awk_kernels.specs.Kernels.{first_least, first_greatest};
ghost use Rattle.awk_simd.specs.Firsts.{IsFirstLeast, IsFirstGreatest};

use crate::blocks::{LANES, known, some_above, some_below};

/// The first least of the numbers before `to`, where `place` has that of those before `from`.
#[inline(always)]
fn least_on(xs: &[i64], from: usize, to: usize, place: usize) -> usize
    requires within { (from ≤ to) × (to ≤ length xs.now) }
    requires least { IsFirstLeast xs.now from place }
    ensures { IsFirstLeast xs.now to result }
{
    let mut place = place;
    let mut least = xs[place];
    for i in from..to {
        if xs[i] < least {
            place = i;
            least = xs[i];
        }
    }
    place
}

fn place_of_least(xs: &[i64]) -> usize
    requires { 0 < length xs.now }
    ensures { IsFirstLeast xs.now (length xs.now) result }
{
    known(xs);
    let mut place = 0;
    for n in 0..xs.len() / LANES {
        if some_below(xs, n * LANES, xs[place]) {
            place = least_on(xs, n * LANES, n * LANES + LANES, place);
        }
    }
    least_on(xs, xs.len() / LANES * LANES, xs.len(), place)
}

pub(crate) fn first_least(xs: &[i64]) -> Option<usize>
    ensures { result ≡ first_least xs.now }
{
    if xs.is_empty() {
        return None;
    }
    Some(place_of_least(xs))
}

/// The first greatest of the numbers before `to`, where `place` has that of those before `from`.
#[inline(always)]
fn greatest_on(xs: &[i64], from: usize, to: usize, place: usize) -> usize
    requires within { (from ≤ to) × (to ≤ length xs.now) }
    requires greatest { IsFirstGreatest xs.now from place }
    ensures { IsFirstGreatest xs.now to result }
{
    let mut place = place;
    let mut greatest = xs[place];
    for i in from..to {
        if xs[i] > greatest {
            place = i;
            greatest = xs[i];
        }
    }
    place
}

fn place_of_greatest(xs: &[i64]) -> usize
    requires { 0 < length xs.now }
    ensures { IsFirstGreatest xs.now (length xs.now) result }
{
    known(xs);
    let mut place = 0;
    for n in 0..xs.len() / LANES {
        if some_above(xs, n * LANES, xs[place]) {
            place = greatest_on(xs, n * LANES, n * LANES + LANES, place);
        }
    }
    greatest_on(xs, xs.len() / LANES * LANES, xs.len(), place)
}

pub(crate) fn first_greatest(xs: &[i64]) -> Option<usize>
    ensures { result ≡ first_greatest xs.now }
{
    if xs.is_empty() {
        return None;
    }
    Some(place_of_greatest(xs))
}
