//! Comparisons and choices.
ghost use Rattle.std.specs.Prelude.{◌≡◌, length};

use crate::data::{Lanes, report};
use awk_kernels::{Compare, Kernels};
use std::hint::black_box;
use std::io;
use std::time::Instant;

fn compare<K: Kernels>(
    rt: &HostRuntime,
    kernels: &K,
    how: Compare,
    a: &[i64],
    b: &[i64],
    out: &mut [u8],
) -> io::Result<u128>
    requires b { length b.now ≡ length a.now }
    requires out { length out.old ≡ length a.now }
{
    Ok(quickest!(rt, _i, kernels.compare_i64(black_box(how), a, b, out)))
}

fn compare_nat<K: Kernels>(
    rt: &HostRuntime,
    kernels: &K,
    how: Compare,
    a: &[u64],
    b: &[u64],
    out: &mut [u8],
) -> io::Result<u128>
    requires b { length b.now ≡ length a.now }
    requires out { length out.old ≡ length a.now }
{
    Ok(quickest!(rt, _i, kernels.compare_u64(black_box(how), a, b, out)))
}

fn compare_mixed<K: Kernels>(
    rt: &HostRuntime,
    kernels: &K,
    how: Compare,
    a: &[i64],
    b: &[u64],
    out: &mut [u8],
) -> io::Result<u128>
    requires b { length b.now ≡ length a.now }
    requires out { length out.old ≡ length a.now }
{
    Ok(quickest!(rt, _i, kernels.compare_mixed(black_box(how), a, b, out)))
}

fn choose<K: Kernels>(
    rt: &HostRuntime,
    kernels: &K,
    mask: &[u8],
    a: &[i64],
    b: &[i64],
    out: &mut [i64],
) -> io::Result<u128>
    requires a { length a.now ≡ length mask.now }
    requires b { length b.now ≡ length mask.now }
    requires out { length out.old ≡ length mask.now }
{
    Ok(quickest!(rt, _i, kernels.select_i64(mask, a, b, out)))
}

fn choose_nat<K: Kernels>(
    rt: &HostRuntime,
    kernels: &K,
    mask: &[u8],
    a: &[u64],
    b: &[u64],
    out: &mut [u64],
) -> io::Result<u128>
    requires a { length a.now ≡ length mask.now }
    requires b { length b.now ≡ length mask.now }
    requires out { length out.old ≡ length mask.now }
{
    Ok(quickest!(rt, _i, kernels.select_u64(mask, a, b, out)))
}

fn time_comparison<K: Kernels>(
    rt: &HostRuntime,
    name: &str,
    kernels: &K,
    how: Compare,
    method: [&str; 3],
    lanes: &mut Lanes,
) -> io::Result<()> {
    let (a, b, flags) = (&lanes.a[..], &lanes.b[..], &mut lanes.flags[..]);
    let (nat_a, nat_b) = (&lanes.nat_a[..], &lanes.nat_b[..]);
    if b.len() != a.len() || flags.len() != a.len() {
        return Ok(());
    }
    if nat_a.len() != a.len() || nat_b.len() != a.len() {
        return Ok(());
    }
    report(rt, name, method[0], compare(rt, kernels, how, a, b, flags)?)?;
    report(
        rt,
        name,
        method[1],
        compare_nat(rt, kernels, how, nat_a, nat_b, flags)?,
    )?;
    report(
        rt,
        name,
        method[2],
        compare_mixed(rt, kernels, how, a, nat_b, flags)?,
    )
}

fn time_choice<K: Kernels>(
    rt: &HostRuntime,
    name: &str,
    kernels: &K,
    lanes: &mut Lanes,
) -> io::Result<()> {
    let (a, b, out) = (&lanes.a[..], &lanes.b[..], &mut lanes.out[..]);
    let mask = &lanes.mask[..];
    if a.len() != mask.len() || b.len() != mask.len() || out.len() != mask.len() {
        return Ok(());
    }
    report(
        rt,
        name,
        "select_i64",
        choose(rt, kernels, mask, a, b, out)?,
    )
}

fn time_choice_nat<K: Kernels>(
    rt: &HostRuntime,
    name: &str,
    kernels: &K,
    lanes: &mut Lanes,
) -> io::Result<()> {
    let (a, b, out) = (&lanes.nat_a[..], &lanes.nat_b[..], &mut lanes.nat_out[..]);
    let mask = &lanes.mask[..];
    if a.len() != mask.len() || b.len() != mask.len() || out.len() != mask.len() {
        return Ok(());
    }
    report(
        rt,
        name,
        "select_u64",
        choose_nat(rt, kernels, mask, a, b, out)?,
    )
}

pub(crate) fn time<K: Kernels>(
    rt: &HostRuntime,
    name: &str,
    kernels: &K,
    lanes: &mut Lanes,
) -> io::Result<()> {
    let less = ["compare_i64_lt", "compare_u64_lt", "compare_mixed_lt"];
    time_comparison(rt, name, kernels, Compare::Lt, less, lanes)?;
    let equal = ["compare_i64_eq", "compare_u64_eq", "compare_mixed_eq"];
    time_comparison(rt, name, kernels, Compare::Eq, equal, lanes)?;
    time_choice(rt, name, kernels, lanes)?;
    time_choice_nat(rt, name, kernels, lanes)
}
