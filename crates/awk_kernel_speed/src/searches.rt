//! Searches, and the least and the greatest.
ghost use Rattle.std.specs.Prelude.{◌≡◌, ◌≤◌, length};

use crate::data::{Lanes, report};
use awk_kernels::Kernels;
use std::io;
use std::time::Instant;

fn place(found: Option<usize>) -> u64 {
    match found {
        Some(place) => place as u64,
        None => 1,
    }
}

fn in_order<K: Kernels>(rt: &HostRuntime, kernels: &K, xs: &[i64], ys: &[i64]) -> io::Result<u128>
    requires some { 8 ≤ length xs.now }
    requires ys { length ys.now ≡ length xs.now }
{
    Ok(quickest_answer!(
        rt,
        i,
        place(kernels.first_out_of_order(&xs[i % 8..], &ys[i % 8..]))
    ))
}

fn outside<K: Kernels>(rt: &HostRuntime, kernels: &K, xs: &[i64]) -> io::Result<u128>
    requires some { 8 ≤ length xs.now }
{
    Ok(quickest_answer!(
        rt,
        i,
        place(kernels.first_outside(&xs[i % 8..], 0, i64::MAX))
    ))
}

fn greatest<K: Kernels>(rt: &HostRuntime, kernels: &K, xs: &[i64]) -> io::Result<u128>
    requires some { 8 ≤ length xs.now }
{
    Ok(quickest_answer!(rt, i, u64::from(kernels.greatest(&xs[i % 8..]) == Some(7))))
}

fn first_greatest<K: Kernels>(rt: &HostRuntime, kernels: &K, xs: &[i64]) -> io::Result<u128>
    requires some { 8 ≤ length xs.now }
{
    Ok(quickest_answer!(rt, i, place(kernels.first_greatest(&xs[i % 8..]))))
}

fn first_least<K: Kernels>(rt: &HostRuntime, kernels: &K, xs: &[i64]) -> io::Result<u128>
    requires some { 8 ≤ length xs.now }
{
    Ok(quickest_answer!(rt, i, place(kernels.first_least(&xs[i % 8..]))))
}

pub(crate) fn time<K: Kernels>(
    rt: &HostRuntime,
    name: &str,
    kernels: &K,
    lanes: &Lanes,
) -> io::Result<()> {
    let (xs, ys, stops) = (&lanes.b[..], &lanes.a[..], &lanes.stops[..]);
    if xs.len() < 8 || ys.len() < 8 || stops.len() != xs.len() {
        return Ok(());
    }
    report(
        rt,
        name,
        "first_out_of_order",
        in_order(rt, kernels, xs, stops)?,
    )?;
    report(rt, name, "first_outside", outside(rt, kernels, xs)?)?;
    report(rt, name, "greatest", greatest(rt, kernels, xs)?)?;
    report(rt, name, "first_greatest", first_greatest(rt, kernels, xs)?)?;
    report(rt, name, "first_least", first_least(rt, kernels, ys)?)
}
