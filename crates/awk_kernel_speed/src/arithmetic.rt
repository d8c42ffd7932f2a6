//! Arithmetic, within the bounds of the type.
ghost use Rattle.std.specs.Prelude.{◌≡◌, length};

use crate::data::{Lanes, report};
use awk_kernels::{Arith, Kernels};
use std::hint::black_box;
use std::io;
use std::time::Instant;

const OPERATIONS: [(Arith, &str, &str); 5] = [
    (Arith::Add, "add_i64", "add_u64"),
    (Arith::Sub, "subtract_i64", "subtract_u64"),
    (Arith::Mul, "multiply_i64", "multiply_u64"),
    (Arith::FloorDiv, "floor_div_i64", "floor_div_u64"),
    (Arith::Rem, "rem_i64", "rem_u64"),
];

fn arith<K: Kernels>(
    rt: &HostRuntime,
    kernels: &K,
    op: Arith,
    a: &[i64],
    b: &[i64],
    out: &mut [i64],
) -> io::Result<u128>
    requires b { length b.now ≡ length a.now }
    requires out { length out.old ≡ length a.now }
{
    Ok(quickest!(
        rt,
        _i,
        kernels
            .arith_i64(
                black_box(op),
                a,
                b,
                black_box(i64::MIN),
                black_box(i64::MAX),
                out,
            )
            .is_none()
    ))
}

fn arith_nat<K: Kernels>(
    rt: &HostRuntime,
    kernels: &K,
    op: Arith,
    a: &[u64],
    b: &[u64],
    out: &mut [u64],
) -> io::Result<u128>
    requires b { length b.now ≡ length a.now }
    requires out { length out.old ≡ length a.now }
{
    Ok(quickest!(
        rt,
        _i,
        kernels
            .arith_u64(black_box(op), a, b, black_box(u64::MAX), out)
            .is_none()
    ))
}

fn time_operation<K: Kernels>(
    rt: &HostRuntime,
    name: &str,
    kernels: &K,
    op: Arith,
    method: &str,
    lanes: &mut Lanes,
) -> io::Result<()> {
    let (a, b, out) = (&lanes.a[..], &lanes.b[..], &mut lanes.out[..]);
    if b.len() != a.len() || out.len() != a.len() {
        return Ok(());
    }
    report(rt, name, method, arith(rt, kernels, op, a, b, out)?)
}

fn time_operation_nat<K: Kernels>(
    rt: &HostRuntime,
    name: &str,
    kernels: &K,
    op: Arith,
    method: &str,
    lanes: &mut Lanes,
) -> io::Result<()> {
    let (a, b, out) = (&lanes.nat_a[..], &lanes.nat_b[..], &mut lanes.nat_out[..]);
    if b.len() != a.len() || out.len() != a.len() {
        return Ok(());
    }
    report(rt, name, method, arith_nat(rt, kernels, op, a, b, out)?)
}

fn time_table<K: Kernels>(
    rt: &HostRuntime,
    name: &str,
    kernels: &K,
    table: &[(Arith, &str, &str)],
    lanes: &mut Lanes,
) -> io::Result<()> {
    for row in table {
        time_operation(rt, name, kernels, row.0, row.1, lanes)?;
        time_operation_nat(rt, name, kernels, row.0, row.2, lanes)?;
    }
    Ok(())
}

pub(crate) fn time<K: Kernels>(
    rt: &HostRuntime,
    name: &str,
    kernels: &K,
    lanes: &mut Lanes,
) -> io::Result<()> {
    time_table(rt, name, kernels, &OPERATIONS, lanes)
}
