//! Counts, sums, running sums and gathers.
ghost use Rattle.std.specs.Prelude.{◌≡◌, ◌≤◌, ◌+◌, length};

use crate::data::{Lanes, report};
use awk_kernels::Kernels;
use std::hint::black_box;
use std::io;
use std::time::Instant;

fn count<K: Kernels>(rt: &HostRuntime, kernels: &K, xs: &[u8]) -> io::Result<u128>
    requires some { 8 ≤ length xs.now }
{
    Ok(quickest_answer!(rt, i, kernels.count_true(&xs[i % 8..])))
}

fn sum<K: Kernels>(rt: &HostRuntime, kernels: &K, xs: &[i64]) -> io::Result<u128>
    requires some { 8 ≤ length xs.now }
    requires few { length xs.now ≤ 65536 }
{
    Ok(quickest_answer!(rt, i, u64::from(kernels.sum_i64(&xs[i % 8..]) == 7)))
}

fn sum_nat<K: Kernels>(rt: &HostRuntime, kernels: &K, xs: &[u64]) -> io::Result<u128>
    requires some { 8 ≤ length xs.now }
    requires few { length xs.now ≤ 65536 }
{
    Ok(quickest_answer!(rt, i, u64::from(kernels.sum_u64(&xs[i % 8..]) == 7)))
}

fn sums<K: Kernels>(rt: &HostRuntime, kernels: &K, xs: &[u64], out: &mut [u64]) -> io::Result<u128>
    requires out { length out.old ≡ length xs.now + 1 }
{
    Ok(quickest!(rt, _i, kernels.prefix_sums(xs, out).is_none()))
}

pub(crate) fn time<K: Kernels>(
    rt: &HostRuntime,
    name: &str,
    kernels: &K,
    lanes: &mut Lanes,
) -> io::Result<()> {
    let n = lanes.a.len();
    if n < 8 || n > 65536 || lanes.nat_a.len() != n || lanes.sums.len() != n + 1 {
        return Ok(());
    }
    if lanes.mask.len() < 8 {
        return Ok(());
    }
    report(rt, name, "count_true", count(rt, kernels, &lanes.mask)?)?;
    report(rt, name, "sum_i64", sum(rt, kernels, &lanes.a)?)?;
    report(rt, name, "sum_u64", sum_nat(rt, kernels, &lanes.nat_a)?)?;
    report(
        rt,
        name,
        "prefix_sums",
        sums(rt, kernels, &lanes.nat_a, &mut lanes.sums)?,
    )
}
