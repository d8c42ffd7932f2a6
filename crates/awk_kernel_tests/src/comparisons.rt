// Comparisons, of numbers of either sign and of those that are not below 0.
ghost use Rattle.std.specs.Prelude.{◌≡◌, ◌≤◌, length};

use crate::rows::{numbers, sizes};
use awk_kernels::{Compare, Kernels, Plain};
use awk_simd::Wide;
use std::process::Abort;

const COMPARISONS: [Compare; 6] = [
    Compare::Eq,
    Compare::Ne,
    Compare::Lt,
    Compare::Le,
    Compare::Gt,
    Compare::Ge,
];

fn same_flags(
    rt: &impl Abort,
    how: Compare,
    a: &[i64],
    b: &[i64],
    wide: &mut [u8],
    plain: &mut [u8],
)
    requires b { length b.now ≡ length a.now }
    requires wide { length wide.old ≡ length a.now }
    requires plain { length plain.old ≡ length a.now }
{
    Wide.compare_i64(how, a, b, wide);
    Plain.compare_i64(how, a, b, plain);
    assert!(rt; *wide == *plain);
}

fn same_flags_nat(
    rt: &impl Abort,
    how: Compare,
    a: &[u64],
    b: &[u64],
    wide: &mut [u8],
    plain: &mut [u8],
)
    requires b { length b.now ≡ length a.now }
    requires wide { length wide.old ≡ length a.now }
    requires plain { length plain.old ≡ length a.now }
{
    Wide.compare_u64(how, a, b, wide);
    Plain.compare_u64(how, a, b, plain);
    assert!(rt; *wide == *plain);
}

fn same_flags_mixed(
    rt: &impl Abort,
    how: Compare,
    a: &[i64],
    b: &[u64],
    wide: &mut [u8],
    plain: &mut [u8],
)
    requires b { length b.now ≡ length a.now }
    requires wide { length wide.old ≡ length a.now }
    requires plain { length plain.old ≡ length a.now }
{
    Wide.compare_mixed(how, a, b, wide);
    Plain.compare_mixed(how, a, b, plain);
    assert!(rt; *wide == *plain);
}

fn try_flags(rt: &impl Abort, how: Compare, n: usize, place: usize, one: i64)
    requires { n ≤ 70 }
{
    let a = numbers(place, -1, one);
    let b = numbers(70, -1, 0);
    let (mut wide, mut plain) = ([9; 70], [9; 70]);
    same_flags(rt, how, &a[..n], &b[..n], &mut wide[..n], &mut plain[..n]);
}

fn try_flags_nat(rt: &impl Abort, how: Compare, n: usize, place: usize, one: u64)
    requires { n ≤ 70 }
{
    let a = sizes(place, 3, one);
    let b = sizes(70, 3, 0);
    let (mut wide, mut plain) = ([9; 70], [9; 70]);
    same_flags_nat(rt, how, &a[..n], &b[..n], &mut wide[..n], &mut plain[..n]);
}

fn try_flags_mixed(rt: &impl Abort, how: Compare, n: usize, place: usize, pair: (i64, u64))
    requires { n ≤ 70 }
{
    let a = numbers(place, 3, pair.0);
    let b = sizes(place, 3, pair.1);
    let (mut wide, mut plain) = ([9; 70], [9; 70]);
    same_flags_mixed(rt, how, &a[..n], &b[..n], &mut wide[..n], &mut plain[..n]);
}

fn try_comparisons(rt: &impl Abort, comparisons: &[Compare], n: usize, place: usize)
    requires { n ≤ 70 }
{
    for how in comparisons {
        try_flags(rt, *how, n, place, 4);
        try_flags(rt, *how, n, place, i64::MIN);
        try_flags_nat(rt, *how, n, place, 2);
        try_flags_nat(rt, *how, n, place, u64::MAX);
        try_flags_mixed(rt, *how, n, place, (-1, u64::MAX));
        try_flags_mixed(rt, *how, n, place, (-4, 3));
        try_flags_mixed(rt, *how, n, place, (4, 3));
    }
}

fn try_places(rt: &impl Abort, n: usize)
    requires { n ≤ 70 }
{
    for place in 0..71 {
        try_comparisons(rt, &COMPARISONS, n, place);
    }
}

#[test]
fn comparisons_write_what_plain_ones_write(rt: HostRuntime) {
    for n in 0..71 {
        try_places(&rt, n);
    }
}
