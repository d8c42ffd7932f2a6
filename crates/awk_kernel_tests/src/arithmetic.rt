// Arithmetic within bounds, with a place that is past them, that wraps, or whose divisor is 0.
ghost use Rattle.std.specs.Prelude.{◌≡◌, ◌≤◌, length};

use crate::rows::{numbers, sizes};
use awk_kernels::{Arith, Kernels, Plain};
use awk_simd::Wide;
use std::process::Abort;

const OPERATIONS: [Arith; 5] = [
    Arith::Add,
    Arith::Sub,
    Arith::Mul,
    Arith::FloorDiv,
    Arith::Rem,
];

const PAIRS: [(i64, i64); 6] = [
    (7, 2),
    (7, 0),
    (90, 20),
    (-40, 20),
    (i64::MAX, 1),
    (i64::MIN, -1),
];

fn same_arith(rt: &impl Abort, op: Arith, a: &[i64], b: &[i64], wide: &mut [i64], plain: &mut [i64])
    requires b { length b.now ≡ length a.now }
    requires wide { length wide.old ≡ length a.now }
    requires plain { length plain.old ≡ length a.now }
{
    let found = Wide.arith_i64(op, a, b, -50, 99, wide);
    assert!(rt; found == Plain.arith_i64(op, a, b, -50, 99, plain));
    if found.is_none() {
        assert!(rt; *wide == *plain);
    }
}

fn try_arith(rt: &impl Abort, op: Arith, n: usize, place: usize, pair: (i64, i64))
    requires { n ≤ 70 }
{
    let a = numbers(place, 7, pair.0);
    let b = numbers(place, 2, pair.1);
    let (mut wide, mut plain) = ([0; 70], [0; 70]);
    same_arith(rt, op, &a[..n], &b[..n], &mut wide[..n], &mut plain[..n]);
}

fn same_arith_nat(
    rt: &impl Abort,
    op: Arith,
    a: &[u64],
    b: &[u64],
    wide: &mut [u64],
    plain: &mut [u64],
)
    requires b { length b.now ≡ length a.now }
    requires wide { length wide.old ≡ length a.now }
    requires plain { length plain.old ≡ length a.now }
{
    let found = Wide.arith_u64(op, a, b, 99, wide);
    assert!(rt; found == Plain.arith_u64(op, a, b, 99, plain));
    if found.is_none() {
        assert!(rt; *wide == *plain);
    }
}

fn try_arith_nat(rt: &impl Abort, op: Arith, n: usize, place: usize, pair: (u64, u64))
    requires { n ≤ 70 }
{
    let a = sizes(place, 7, pair.0);
    let b = sizes(place, 2, pair.1);
    let (mut wide, mut plain) = ([0; 70], [0; 70]);
    same_arith_nat(rt, op, &a[..n], &b[..n], &mut wide[..n], &mut plain[..n]);
}

fn try_pairs(rt: &impl Abort, pairs: &[(i64, i64)], op: Arith, n: usize, place: usize)
    requires { n ≤ 70 }
{
    for pair in pairs {
        try_arith(rt, op, n, place, *pair);
    }
}

fn try_operations(rt: &impl Abort, operations: &[Arith], n: usize, place: usize)
    requires { n ≤ 70 }
{
    for op in operations {
        try_pairs(rt, &PAIRS, *op, n, place);
        try_arith_nat(rt, *op, n, place, (7, 0));
        try_arith_nat(rt, *op, n, place, (90, 20));
        try_arith_nat(rt, *op, n, place, (1, 2));
        try_arith_nat(rt, *op, n, place, (u64::MAX, 1));
    }
}

fn try_places(rt: &impl Abort, n: usize)
    requires { n ≤ 70 }
{
    for place in 0..71 {
        try_operations(rt, &OPERATIONS, n, place);
    }
}

#[test]
fn arithmetic_gives_what_plain_gives(rt: HostRuntime) {
    for n in 0..71 {
        try_places(&rt, n);
    }
}
