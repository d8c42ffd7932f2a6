//! Items of options that are not null.
ghost use Rattle.std.specs.Prelude.{◌≡◌, ◌<◌, ◌+◌, ◌^◌, IfOk, length};
ghost use Rattle.awk_lanes.specs.Places.{size_of, IsOptionKind};
ghost use Rattle.awk_counts.specs.Counted.{present_at};
ghost use Rattle.awk_counts.specs.Present.{present_lane};

use crate::present::one_if;
use awk_index::{Index, index_of};
use awk_lanes::{Arena, IndexMaker, Lane, NoMemory, Steps, number, option_place_in};
use std::alloc::Global;
use std::sync::ledger::Ledger;

/// 1 for an item of an option that is not null, and 0 for one that is.
pub fn one_if_present<L: Ledger>(index: &Lane, i: u64, steps: &mut Steps<L>) -> u64
    requires kind { IsOptionKind index.now.kind }
    requires within { i < size_of index.now }
    ensures { result ≡ length (present_at index.now i) }
{
    one_if(option_place_in(index, i, steps))
}

// The same by an index whose numbers are seen at once.
#[inline(always)]
fn one_if_place(index: &Index, i: u64) -> u64
    requires within { i < size_of index.now }
    ensures { result ≡ length (present_at index.now i) }
{
    one_if(index.option_place(i))
}

// How many of the first items are present, by an index whose numbers are seen at once.
fn counts_of<'a>(index: &Index, arena: &'a Arena) -> Result<Lane<'a>, NoMemory>
    requires fits { size_of index.now < 2 ^ 63 }
    ensures { IfOk result (λ r. r ≡ present_lane index.now) }
{
    let mut maker = IndexMaker::new(index.len() + 1, arena)?;
    let mut count = 0;
    maker.push(number(0));
    for i in 0..index.len() {
        count += one_if_place(index, i);
        maker.push(number(count));
    }
    Ok(maker.finish())
}

/// How many of the first items of an option are present: 0, then one more after each that is.
pub fn present_counts<'a, L: Ledger>(
    alloc: Global,
    index: &Lane<'a>,
    arena: &'a Arena,
    steps: &mut Steps<L>,
) -> Result<Lane<'a>, NoMemory>
    requires kind { IsOptionKind index.now.kind }
    requires fits { size_of index.now < 2 ^ 63 }
    ensures { IfOk result (λ r. r ≡ present_lane index.now) }
{
    let index = index_of(alloc, index, arena, steps)?;
    counts_of(&index, arena)
}
