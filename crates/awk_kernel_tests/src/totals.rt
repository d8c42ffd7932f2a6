// Counts, sums, running sums and gathers.
ghost use Rattle.std.specs.Prelude.{◌≡◌, ◌≤◌, ◌<◌, ◌+◌, ℕ, length, get_or};

use crate::rows::{bytes, numbers, sizes};
use awk_kernels::{Kernels, Plain};
use awk_simd::Wide;
use std::process::Abort;

fn same_count(rt: &impl Abort, xs: &[u8]) {
    assert!(rt; Wide.count_true(xs) == Plain.count_true(xs));
}

fn same_sum(rt: &impl Abort, xs: &[i64])
    requires { length xs.now ≤ 70 }
{
    assert!(rt; Wide.sum_i64(xs) == Plain.sum_i64(xs));
}

fn same_sum_nat(rt: &impl Abort, xs: &[u64])
    requires { length xs.now ≤ 70 }
{
    assert!(rt; Wide.sum_u64(xs) == Plain.sum_u64(xs));
}

fn same_sums(rt: &impl Abort, xs: &[u64], wide: &mut [u64], plain: &mut [u64])
    requires wide { length wide.old ≡ length xs.now + 1 }
    requires plain { length plain.old ≡ length xs.now + 1 }
{
    let past = Wide.prefix_sums(xs, wide);
    assert!(rt; past == Plain.prefix_sums(xs, plain));
    if past.is_none() {
        assert!(rt; *wide == *plain);
    }
}

fn same_items(rt: &impl Abort, xs: &[i64], places: &[u64], wide: &mut [i64], plain: &mut [i64])
    requires places { (k : ℕ) → k < length places.now → get_or places.now k 0 < length xs.now }
    requires wide { length wide.old ≡ length places.now }
    requires plain { length plain.old ≡ length places.now }
{
    Wide.gather(xs, places, wide);
    Plain.gather(xs, places, plain);
    assert!(rt; *wide == *plain);
}

fn try_totals(rt: &impl Abort, n: usize, place: usize)
    requires { n ≤ 70 }
{
    let mask = bytes(place, 0, 200);
    same_count(rt, &mask[..n]);
    let xs = numbers(place, 3, i64::MIN);
    same_sum(rt, &xs[..n]);
    let ys = sizes(place, 1, u64::MAX);
    same_sum_nat(rt, &ys[..n]);
}

fn try_sums(rt: &impl Abort, n: usize, place: usize)
    requires { n ≤ 70 }
{
    let ys = sizes(place, 1, u64::MAX);
    let (mut wide, mut plain) = ([0; 71], [0; 71]);
    same_sums(rt, &ys[..n], &mut wide[..n + 1], &mut plain[..n + 1]);
}

fn try_items(rt: &impl Abort, places: &[u64])
    requires length { length places.now ≤ 70 }
    requires places { (k : ℕ) → k < length places.now → get_or places.now k 0 < 70 }
{
    let xs = numbers(69, 3, 4);
    let (mut wide, mut plain) = ([0; 70], [0; 70]);
    let n = places.len();
    same_items(rt, &xs, places, &mut wide[..n], &mut plain[..n]);
}

fn try_places(rt: &impl Abort, n: usize)
    requires { n ≤ 70 }
{
    for place in 0..71 {
        try_totals(rt, n, place);
        try_sums(rt, n, place);
    }
}

#[test]
fn totals_are_those_of_plain_loops(rt: HostRuntime) {
    for n in 0..71 {
        try_places(&rt, n);
    }
    try_items(&rt, &[]);
    try_items(&rt, &[69, 0, 69, 1, 68, 2, 67, 3, 66]);
}
