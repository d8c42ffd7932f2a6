//! Where a number stands among edges.
ghost use Rattle.std.specs.Prelude.{◌≡◌, ◌≤◌, length, map, true, cond, min, IfOk, IfSome};
ghost use Rattle.awk_bins.specs.Edges.{are_rising};
ghost use Rattle.awk_bins.specs.Even.{AreEven};
ghost use Rattle.awk_bins.specs.Near.{AreNear};
ghost use Rattle.awk_bins.specs.Tallies as spec;

use crate::even::Even;
use crate::number::Number;
use awk_lanes::NoMemory;
use std::alloc::Global;

/// As many edges as are compared with a number one by one.
const FEW: usize = 16;

/// Edges, as many of the first of them as numbers of 64 bits can reach, each moved into the range
/// of these, and the step of those that lie a step apart.
#[derive(Drop)]
pub(crate) struct Edges<'e, N: Number> {
    pub all: &'e [i128],
    pub near: &'e [N],
    pub even: Option<Even<N>>,
}

/// As many of the first edges as numbers can reach, each moved into the range of these.
pub(crate) fn near_edges<N: Number>(alloc: Global, edges: &[i128]) -> Result<Vec<N>, NoMemory>
    requires { are_rising edges.now ≡ true }
    ensures { IfOk result (λ v. AreNear N.least N.greatest edges.now (map N.number v.items)) }
{
    let mut near = Vec::with_capacity(alloc, edges.len())?;
    for i in 0..edges.len() {
        match N::near(&edges[i]) {
            Some(edge) => near.push(edge)?,
            None => return Ok(near),
        }
    }
    Ok(near)
}

/// How many edges are no greater than a number, each compared with it.
fn count_edges<N: Number>(edges: &Edges<N>, z: &N) -> usize
    requires near { AreNear N.least N.greatest edges.now.all.now
        (map N.number edges.now.near.now) }
    ensures { result ≡ spec.edges_up_to edges.now.all.now (N.number z.now) }
{
    z.show_range();
    let mut count = 0;
    for i in 0..edges.near.len() {
        count += usize::from(z.reaches(&edges.near[i]));
    }
    count
}

/// A number, or 0 where there is none, without a branch.
fn unless(is_none: bool, number: usize) -> usize
    ensures { result ≡ cond is_none 0 number }
{
    let half = u32::from(is_none) * 32;
    number >> half >> half
}

/// How many edges are no greater than a number, by halving.
fn halve_edges<N: Number>(edges: &Edges<N>, z: &N) -> usize
    requires near { AreNear N.least N.greatest edges.now.all.now
        (map N.number edges.now.near.now) }
    requires some { 1 ≤ length edges.now.near.now }
    ensures { result ≡ spec.edges_up_to edges.now.all.now (N.number z.now) }
{
    z.show_range();
    let mut base = 0;
    let mut left = edges.near.len();
    while left > 1 {
        let half = left / 2;
        base += unless(!z.reaches(&edges.near[base + half - 1]), half);
        left -= half;
    }
    base + usize::from(z.reaches(&edges.near[base]))
}

/// How many edges are no greater than a number, by comparing them with it.
fn compare_edges<N: Number>(edges: &Edges<N>, z: &N) -> usize
    requires near { AreNear N.least N.greatest edges.now.all.now
        (map N.number edges.now.near.now) }
    ensures { result ≡ spec.edges_up_to edges.now.all.now (N.number z.now) }
{
    if edges.near.len() <= FEW {
        count_edges(edges, z)
    } else {
        halve_edges(edges, z)
    }
}

fn lesser(a: u64, b: u64) -> u64
    ensures { result ≡ min a b }
{
    if a < b { a } else { b }
}

/// How many edges are no greater than a number, by one division.
#[inline(always)]
fn divide_edges<N: Number>(edges: &Edges<N>, even: &Even<N>, z: &N) -> usize
    requires near { AreNear N.least N.greatest edges.now.all.now
        (map N.number edges.now.near.now) }
    requires even { AreEven (N.number even.now.base) even.now.step
        (map N.number edges.now.near.now) }
    ensures { result ≡ spec.edges_up_to edges.now.all.now (N.number z.now) }
{
    z.show_range();
    lesser(z.above(&even.base) / even.step, edges.near.len() as u64) as usize
}

/// How many edges are no greater than a number.
pub(crate) fn edges_up_to<N: Number>(edges: &Edges<N>, z: &N) -> usize
    requires near { AreNear N.least N.greatest edges.now.all.now
        (map N.number edges.now.near.now) }
    requires even { IfSome edges.now.even (λ e. AreEven (N.number e.base) e.step
        (map N.number edges.now.near.now)) }
    ensures count { result ≡ spec.edges_up_to edges.now.all.now (N.number z.now) }
    ensures bound { result ≤ length edges.now.all.now }
{
    match &edges.even {
        Some(even) => divide_edges(edges, even, z),
        None => compare_edges(edges, z),
    }
}
