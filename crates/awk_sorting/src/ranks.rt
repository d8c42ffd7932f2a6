//! Ranks, in whose order cells stand.
ghost use Rattle.std.specs.Prelude.{◌≡◌, ◌<◌, ◌≤◌, ◌-◌, Some, min, max};
ghost use Rattle.awk_sorting.specs.Cells as spec;
ghost use Rattle.awk_sorting.specs.Cells.{cell_at, AreCells, AreRanked, IsNear, IsRanked};

use crate::cells::Row;
use awk_lanes::Steps;
use std::sync::ledger::Ledger;

/// A number above those of 64 bits, so that with one of them added none is negative.
const MIDDLE: i128 = 36_893_488_147_419_103_232;

/// What is above all ranks.
const TOP: u128 = 73_786_976_294_838_206_464;

/// Ranks from the least on and below the last.
#[derive(Clone, Copy)]
pub(crate) struct Reach {
    pub least: u128,
    pub last: u128,
}

/// So many cells of a row, rising or falling, whose ranks are within reach.
#[derive(Drop)]
pub(crate) struct Ranks<'c, R: Row> {
    pub row: &'c R,
    pub up: bool,
    pub count: u64,
    pub reach: Reach,
}

/// A number in whose order numbers stand: rising or falling.
#[inline(always)]
fn rank(up: bool, z: i128) -> u128
    requires { IsNear (Some z) }
    ensures rank { result ≡ spec.rank up z }
    ensures bound { result < 73786976294838206464 }
{
    if up {
        (MIDDLE + z) as u128
    } else {
        (MIDDLE - z) as u128
    }
}

fn lesser(a: u128, b: u128) -> u128
    ensures { result ≡ min a b }
{
    if a < b { a } else { b }
}

fn greater(a: u128, b: u128) -> u128
    ensures { result ≡ max a b }
{
    if a < b { b } else { a }
}

/// The reach of ranks and of one more cell.
#[inline(always)]
fn with_cell(reach: Reach, up: bool, cell: Option<i128>) -> Reach
    requires near { IsNear cell }
    requires bound { reach.last ≤ 73786976294838206464 }
    ensures cell { IsRanked up result.least result.last cell }
    ensures least { result.least ≤ reach.least }
    ensures last { reach.last ≤ result.last }
    ensures bound { result.last ≤ 73786976294838206464 }
{
    match cell {
        None => reach,
        Some(z) => {
            let rank = rank(up, z);
            Reach {
                least: lesser(reach.least, rank),
                last: greater(reach.last, rank + 1),
            }
        }
    }
}

/// The reach of the ranks of n cells.
pub(crate) fn reach_of<R: Row, L: Ledger>(row: &R, up: bool, n: u64, steps: &mut Steps<L>) -> Reach
    requires { AreCells (R.lane row.now) (R.index row.now) n }
    ensures ranked { AreRanked up (R.lane row.now) (R.index row.now) n result.least result.last }
    ensures bound { result.last ≤ 73786976294838206464 }
{
    let mut reach = Reach {
        least: TOP,
        last: 0,
    };
    for i in 0..n {
        reach = with_cell(reach, up, row.number(n, i, steps));
    }
    reach
}

/// How far the rank of a cell is above the least.
#[inline(always)]
fn height(reach: Reach, up: bool, cell: Option<i128>) -> u128
    requires { IsRanked up reach.least reach.last cell }
    ensures height { result ≡ spec.height up reach.least reach.last cell }
    ensures bound { result ≤ reach.last - reach.least }
{
    match cell {
        None => reach.last.saturating_sub(reach.least),
        Some(z) => rank(up, z) - reach.least,
    }
}

/// How far the rank of the cell at place i is above the least.
#[inline(always)]
pub(crate) fn height_at<R: Row, L: Ledger>(ranks: &Ranks<R>, i: u64, steps: &mut Steps<L>) -> u128
    requires cells { AreCells (R.lane ranks.now.row.now) (R.index ranks.now.row.now)
        ranks.now.count }
    requires ranked { AreRanked ranks.now.up (R.lane ranks.now.row.now) (R.index ranks.now.row.now)
        ranks.now.count ranks.now.reach.least ranks.now.reach.last }
    requires within { i < ranks.now.count }
    ensures height { result ≡ spec.height ranks.now.up ranks.now.reach.least ranks.now.reach.last
        (cell_at (R.lane ranks.now.row.now) (R.index ranks.now.row.now) i) }
    ensures bound { result ≤ ranks.now.reach.last - ranks.now.reach.least }
{
    let cell = ranks.row.number(ranks.count, i, steps);
    height(ranks.reach, ranks.up, cell)
}
