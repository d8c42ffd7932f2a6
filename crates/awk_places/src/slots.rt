//! Lanes of the places of tuples, one a slot.
ghost use Rattle.std.specs.Prelude.{◌≡◌, ◌<◌, ◌≤◌, ◌^◌, IfOk};
ghost use Rattle.awk_types.specs.ItemLimit.{item_limit};
ghost use Rattle.awk_lanes.specs.Counted.{before, AreOffsetsBy};
ghost use Rattle.awk_lanes.specs.Places.{size_of};
ghost use Rattle.awk_places.specs.Slots.{ArePlaces, tuple_count, slot_lanes};

use crate::begun::{first_begun, last_lane, longer, slot_lane};
use crate::counts::count_rising;
use crate::offsets::{TupleCounts, tuple_offsets};
use crate::pairs::{both_lanes, first_lane, second_lane};
use crate::reading::place_of;
use awk_lanes::{Arena, Lane, Lanes, Offsets, Steps};
use awk_types::NoMemory;
use std::alloc::Global;
use std::sync::ledger::Ledger;

/// Tuples whose places go up: so many in a tuple, and whether they may repeat.
#[derive(Clone, Copy, Debug, PartialEq, Eq)]
pub struct Rising {
    pub replacement: bool,
    pub slots: u64,
}

/// Lists with the tuples of their places that go up.
#[derive(Drop)]
struct RisingCounts<'b, 'a> {
    rising: Rising,
    firsts: &'b Lane<'a>,
    ends: &'b Lane<'a>,
}

impl<'b, 'a> TupleCounts for RisingCounts<'b, 'a> {
    ghost use Rattle.awk_lanes.specs.Places.{size_of};
    ghost use Rattle.awk_places.specs.Slots.{ArePlaces, tuple_count};

    ghost count = { λ f. tuple_count f.rising.replacement f.rising.slots f.firsts.now f.ends.now };

    ghost size = { λ f. size_of f.firsts.now };

    ghost IsReady = { λ f. ArePlaces f.firsts.now f.ends.now };

    fn count<L: Ledger>(&self, i: u64, steps: &mut Steps<L>) -> Option<u64> {
        let first = place_of(self.firsts, i, steps);
        let end = place_of(self.ends, i, steps);
        count_rising(
            self.rising.replacement,
            self.rising.slots,
            end.saturating_sub(first),
        )
    }
}

/// Where the tuples of each list lie among those of all lists, or none where they are more than the
/// limit of a column. The places of list i are those from the i-th of `firsts` below the i-th of
/// `ends`. No tuple is made.
pub fn rising_offsets<'a, L: Ledger>(
    rising: Rising,
    firsts: &Lane,
    ends: &Lane,
    arena: &'a Arena,
    steps: &mut Steps<L>,
) -> Result<Option<Offsets<'a>>, NoMemory>
    requires places { ArePlaces firsts.now ends.now }
    requires fits { size_of firsts.now < 2 ^ 63 }
    ensures { IfOk result (AreOffsetsBy item_limit
        (tuple_count rising.replacement rising.slots firsts.now ends.now) (size_of firsts.now)) }
{
    let source = RisingCounts {
        rising,
        firsts,
        ends,
    };
    tuple_offsets(firsts.len(), &source, arena, steps)
}

/// The places of all tuples of all lists, in lexicographic order: a lane for each slot.
pub fn rising_lanes<'a, L: Ledger>(
    alloc: Global,
    rising: Rising,
    total: u64,
    firsts: &Lane<'a>,
    ends: &Lane<'a>,
    arena: &'a Arena,
    steps: &mut Steps<L>,
) -> Result<Lanes<'a>, NoMemory>
    requires places { ArePlaces firsts.now ends.now }
    requires total { total ≡ before
        (tuple_count rising.replacement rising.slots firsts.now ends.now) (size_of firsts.now) }
    requires few { total ≤ item_limit }
    ensures { IfOk result (λ r.
        r ≡ slot_lanes rising.replacement rising.slots firsts.now ends.now) }
{
    if rising.slots == 0 {
        return Ok(Lanes::new(alloc));
    }
    if rising.slots == 1 {
        return one_lane(alloc, rising, total, firsts, ends, arena, steps);
    }
    if rising.slots == 2 {
        return two_lanes(alloc, rising, total, firsts, ends, arena, steps);
    }
    more_lanes(alloc, rising, total, firsts, ends, arena, steps)
}

/// The lanes of all slots, where a tuple has two or more.
fn more_lanes<'a, L: Ledger>(
    alloc: Global,
    rising: Rising,
    total: u64,
    firsts: &Lane<'a>,
    ends: &Lane<'a>,
    arena: &'a Arena,
    steps: &mut Steps<L>,
) -> Result<Lanes<'a>, NoMemory>
    requires some { 1 < rising.slots }
    requires places { ArePlaces firsts.now ends.now }
    requires total { total ≡ before
        (tuple_count rising.replacement rising.slots firsts.now ends.now) (size_of firsts.now) }
    requires few { total ≤ item_limit }
    ensures { IfOk result (λ r.
        r ≡ slot_lanes rising.replacement rising.slots firsts.now ends.now) }
{
    let mut lanes = Lanes::new(alloc);
    let mut begun = first_begun(alloc, firsts, ends, steps)?;
    for slot in 0..rising.slots - 2 {
        let left = rising.slots - 1 - slot;
        begun = longer(alloc, rising.replacement, left, &begun)?;
        lanes.push(slot_lane(rising.replacement, left, total, &begun, arena)?)?;
    }
    lanes.push(first_lane(rising.replacement, total, &begun, arena)?)?;
    lanes.push(second_lane(rising.replacement, total, &begun, arena)?)?;
    Ok(lanes)
}

/// The lane of the only slot.
fn one_lane<'a, L: Ledger>(
    alloc: Global,
    rising: Rising,
    total: u64,
    firsts: &Lane<'a>,
    ends: &Lane<'a>,
    arena: &'a Arena,
    steps: &mut Steps<L>,
) -> Result<Lanes<'a>, NoMemory>
    requires one { rising.slots ≡ 1 }
    requires places { ArePlaces firsts.now ends.now }
    ensures { IfOk result (λ r.
        r ≡ slot_lanes rising.replacement rising.slots firsts.now ends.now) }
{
    let begun = first_begun(alloc, firsts, ends, steps)?;
    let mut lanes = Lanes::new(alloc);
    lanes.push(last_lane(total, &begun, arena)?)?;
    Ok(lanes)
}

/// The lanes of the slots of pairs.
fn two_lanes<'a, L: Ledger>(
    alloc: Global,
    rising: Rising,
    total: u64,
    firsts: &Lane<'a>,
    ends: &Lane<'a>,
    arena: &'a Arena,
    steps: &mut Steps<L>,
) -> Result<Lanes<'a>, NoMemory>
    requires two { rising.slots ≡ 2 }
    requires places { ArePlaces firsts.now ends.now }
    ensures { IfOk result (λ r.
        r ≡ slot_lanes rising.replacement rising.slots firsts.now ends.now) }
{
    let made = both_lanes(rising.replacement, total, firsts, ends, arena, steps)?;
    let mut lanes = Lanes::new(alloc);
    lanes.push(made.first)?;
    lanes.push(made.second)?;
    Ok(lanes)
}
