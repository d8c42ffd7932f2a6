//! How long each kernel takes over 65,536 numbers, by plain loops and by vectors: a line a method
//! with the implementation, its name, and the picoseconds an item of its quickest round.
//!
//! It is run by hand with an argument (`bench/kernels.py`). With none it prints nothing.
#![tactic(auto)]

/// The nanoseconds of the quickest of many rounds.
macro_rules! quickest {
    ($rt:expr, $round:ident, $call:expr) => {{
        let mut least = u128::MAX;
        for $round in 0..200usize {
            let start = Instant::now($rt)?;
            black_box($call);
            let took = start.elapsed($rt)?.as_nanos();
            if took < least {
                least = took;
            }
        }
        least
    }};
}

/// The same of what writes nothing. The answers are added, so that no round can be left out.
macro_rules! quickest_answer {
    ($rt:expr, $round:ident, $call:expr) => {{
        let mut least = u128::MAX;
        let mut sum: u64 = 0;
        for $round in 0..200usize {
            let start = Instant::now($rt)?;
            sum = sum.wrapping_add($call);
            let took = start.elapsed($rt)?.as_nanos();
            if took < least {
                least = took;
            }
        }
        if sum == 77 { 0 } else { least }
    }};
}

mod arithmetic;
mod data;
mod pointwise;
mod searches;
mod totals;

use awk_kernels::{Kernels, Plain};
use awk_simd::Wide;
use data::Lanes;
use std::{env, io};

fn time<K: Kernels>(
    rt: &HostRuntime,
    name: &str,
    kernels: &K,
    lanes: &mut Lanes,
) -> io::Result<()> {
    searches::time(rt, name, kernels, lanes)?;
    totals::time(rt, name, kernels, lanes)?;
    pointwise::time(rt, name, kernels, lanes)?;
    arithmetic::time(rt, name, kernels, lanes)
}

fn main(rt: HostRuntime) -> io::Result<()> {
    if env::args(&rt)?.count() < 2 {
        return Ok(());
    }
    let mut lanes = Lanes::new(rt.alloc())?;
    time(&rt, "plain", &Plain, &mut lanes)?;
    time(&rt, "wide", &Wide, &mut lanes)
}
