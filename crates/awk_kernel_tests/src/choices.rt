// Choices by the bytes of a mask, and gathers.
ghost use Rattle.std.specs.Prelude.{◌≡◌, ◌≤◌, length};

use crate::rows::{bytes, numbers, sizes};
use awk_kernels::{Kernels, Plain};
use awk_simd::Wide;
use std::process::Abort;

fn same_choice(
    rt: &impl Abort,
    mask: &[u8],
    a: &[i64],
    b: &[i64],
    wide: &mut [i64],
    plain: &mut [i64],
)
    requires a { length a.now ≡ length mask.now }
    requires b { length b.now ≡ length mask.now }
    requires wide { length wide.old ≡ length mask.now }
    requires plain { length plain.old ≡ length mask.now }
{
    Wide.select_i64(mask, a, b, wide);
    Plain.select_i64(mask, a, b, plain);
    assert!(rt; *wide == *plain);
}

fn same_choice_nat(
    rt: &impl Abort,
    mask: &[u8],
    a: &[u64],
    b: &[u64],
    wide: &mut [u64],
    plain: &mut [u64],
)
    requires a { length a.now ≡ length mask.now }
    requires b { length b.now ≡ length mask.now }
    requires wide { length wide.old ≡ length mask.now }
    requires plain { length plain.old ≡ length mask.now }
{
    Wide.select_u64(mask, a, b, wide);
    Plain.select_u64(mask, a, b, plain);
    assert!(rt; *wide == *plain);
}

fn try_choice(rt: &impl Abort, n: usize, mask: &[u8])
    requires n { n ≤ 70 }
    requires mask { length mask.now ≡ n }
{
    let a = numbers(70, -5, 0);
    let b = numbers(70, i64::MAX, 0);
    let (mut wide, mut plain) = ([0; 70], [0; 70]);
    same_choice(rt, mask, &a[..n], &b[..n], &mut wide[..n], &mut plain[..n]);
}

fn try_choice_nat(rt: &impl Abort, n: usize, mask: &[u8])
    requires n { n ≤ 70 }
    requires mask { length mask.now ≡ n }
{
    let a = sizes(70, 5, 0);
    let b = sizes(70, u64::MAX, 0);
    let (mut wide, mut plain) = ([0; 70], [0; 70]);
    same_choice_nat(rt, mask, &a[..n], &b[..n], &mut wide[..n], &mut plain[..n]);
}

fn try_mask(rt: &impl Abort, n: usize, place: usize, all: u8, one: u8)
    requires { n ≤ 70 }
{
    let mask = bytes(place, all, one);
    try_choice(rt, n, &mask[..n]);
    try_choice_nat(rt, n, &mask[..n]);
}

fn try_places(rt: &impl Abort, n: usize)
    requires { n ≤ 70 }
{
    for place in 0..71 {
        try_mask(rt, n, place, 0, 128);
        try_mask(rt, n, place, 1, 0);
    }
}

#[test]
fn choices_take_what_plain_ones_take(rt: HostRuntime) {
    for n in 0..71 {
        try_places(&rt, n);
    }
}
