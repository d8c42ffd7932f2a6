// The first list out of order, the first number outside, and the least and the greatest.
ghost use Rattle.std.specs.Prelude.{◌≡◌, ◌≤◌, length};

use crate::rows::{numbers, steps};
use awk_kernels::{Kernels, Plain};
use awk_simd::Wide;
use std::process::Abort;

fn same_order(rt: &impl Abort, starts: &[i64], stops: &[i64])
    requires { length starts.now ≡ length stops.now }
{
    let found = Wide.first_out_of_order(starts, stops);
    assert!(rt; found == Plain.first_out_of_order(starts, stops));
}

fn same_outside(rt: &impl Abort, xs: &[i64]) {
    assert!(rt; Wide.first_outside(xs, 0, 9) == Plain.first_outside(xs, 0, 9));
}

fn same_greatest(rt: &impl Abort, xs: &[i64]) {
    assert!(rt; Wide.greatest(xs) == Plain.greatest(xs));
}

fn same_first_greatest(rt: &impl Abort, xs: &[i64]) {
    assert!(rt; Wide.first_greatest(xs) == Plain.first_greatest(xs));
}

fn same_first_least(rt: &impl Abort, xs: &[i64]) {
    assert!(rt; Wide.first_least(xs) == Plain.first_least(xs));
}

fn try_numbers(rt: &impl Abort, xs: &[i64]) {
    same_outside(rt, xs);
    same_greatest(rt, xs);
    same_first_greatest(rt, xs);
    same_first_least(rt, xs);
}

fn try_lists(rt: &impl Abort, n: usize, place: usize, start: i64, stop: i64)
    requires { n ≤ 70 }
{
    let starts = numbers(place, 3, start);
    let stops = numbers(place, 4, stop);
    same_order(rt, &starts[..n], &stops[..n]);
}

fn try_one(rt: &impl Abort, n: usize, place: usize, one: i64)
    requires { n ≤ 70 }
{
    let xs = numbers(place, 3, one);
    try_numbers(rt, &xs[..n]);
}

fn try_steps(rt: &impl Abort, n: usize, step: i64)
    requires { n ≤ 70 }
{
    let xs = steps(step);
    try_numbers(rt, &xs[..n]);
}

fn try_places(rt: &impl Abort, n: usize)
    requires { n ≤ 70 }
{
    for place in 0..71 {
        try_one(rt, n, place, 9);
        try_one(rt, n, place, -1);
        try_lists(rt, n, place, 3, 2);
        try_lists(rt, n, place, -1, 2);
        try_lists(rt, n, place, -1, -1);
    }
}

#[test]
fn searches_find_what_plain_ones_find(rt: HostRuntime) {
    for n in 0..71 {
        try_steps(&rt, n, 1);
        try_steps(&rt, n, -1);
        try_places(&rt, n);
    }
}
