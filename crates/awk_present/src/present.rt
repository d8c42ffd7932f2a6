//! Items that are not null, list by list.
ghost use Rattle.std.specs.Prelude.{◌≡◌, ◌<◌, ◌≤◌, ◌^◌, length, true, IfOk};
ghost use Rattle.awk_types.specs.ItemLimit.{item_limit};
ghost use Rattle.awk_types.specs.Predicates.{is_leaf};
ghost use Rattle.awk_types.specs.Simple.{present, is_option};
ghost use Rattle.awk_lanes.specs.Counted.{AreOffsetsOf};
ghost use Rattle.awk_lanes.specs.Places.{size_of, place_at, IsOptionalIndex};
ghost use Rattle.awk_layout.specs.Typing.{array_type, array_items};
ghost use Rattle.awk_counts.specs.Counted.{first_of, present_at};
ghost use Rattle.awk_numbers.specs.Folds.{whole_numbers};
ghost use Rattle.awk_parts.specs.Parts.{AreRising, AreParts};
ghost use Rattle.awk_present.specs.Present.{present_in, taken_lane, ArePresent};

use crate::leaves::leaves_of;
use crate::named::numbers_at;
use crate::opening::opened_option;
use awk_lanes::{Arena, Lane, Lengths, NoMemory, Offsets, Steps, offsets_of, place_in};
use awk_layout::Array;
use awk_numbers::{Whole, count_places, whole_of};
use awk_open::Opened;
use awk_types::is_optional;
use std::alloc::Global;
use std::sync::ledger::Ledger;

/// The items of lists that are not null.
#[derive(Drop)]
pub struct Present<'a> {
    /// Their numbers, one list after another.
    pub lane: Lane<'a>,
    /// Where those of each list begin, and where the last ones end.
    pub offsets: Lane<'a>,
    /// Where items may be null: a number for each item, negative for a null.
    pub index: Option<Lane<'a>>,
}

/// How many items of each list are present.
#[derive(Drop)]
struct PresentCounts<'b, 'a> {
    index: &'b Whole<'a>,
    offsets: &'b Lane<'a>,
    count: u64,
}

impl<'b, 'a> Lengths for PresentCounts<'b, 'a> {
    ghost use Rattle.awk_numbers.specs.Folds.{whole_numbers};
    ghost use Rattle.awk_parts.specs.Parts.{AreParts};
    ghost use Rattle.awk_present.specs.Present.{present_in};

    ghost length = { λ f. present_in (whole_numbers f.index.now) f.offsets.now };

    ghost size = { λ f. f.count };

    ghost IsReady = { λ f. AreParts (whole_numbers f.index.now) f.offsets.now f.count };

    fn length<L: Ledger>(&self, i: u64, steps: &mut Steps<L>) -> u64 {
        let start = place_in(self.offsets, i, steps);
        let stop = place_in(self.offsets, i + 1, steps);
        count_places(self.index, start, stop)
    }
}

/// The offsets of the items that are present, and how many there are.
fn present_offsets<'a, L: Ledger>(
    index: &Whole,
    offsets: &Lane,
    count: u64,
    arena: &'a Arena,
    steps: &mut Steps<L>,
) -> Result<Offsets<'a>, NoMemory>
    requires parts { AreParts (whole_numbers index.now) offsets.now count }
    requires fits { count < 2 ^ 63 }
    ensures { IfOk result (AreOffsetsOf (present_in (whole_numbers index.now) offsets.now) count) }
{
    let counts = PresentCounts {
        index,
        offsets,
        count,
    };
    offsets_of(count, &counts, arena, steps)
}

/// The items that are not null, of items that may be.
fn present_options<'a, L: Ledger>(
    alloc: Global,
    items: &Array<'a>,
    offsets: &Lane<'a>,
    count: u64,
    arena: &'a Arena,
    steps: &mut Steps<L>,
) -> Result<Present<'a>, NoMemory>
    requires optional { is_option (array_type items.now) ≡ true }
    requires leaves { is_leaf (present (array_type items.now)) ≡ true }
    requires rising { AreRising offsets.now count (length (array_items items.now)) }
    requires first { place_at offsets.now 0 ≡ 0 }
    requires last { place_at offsets.now count ≡ length (array_items items.now) }
    requires fits { count < 2 ^ 63 }
    requires few { length (array_items items.now) ≤ item_limit }
    ensures { IfOk result (ArePresent items.now offsets.now count) }
{
    match opened_option(alloc, items, arena, steps)? {
        Opened::Option { index, content } => {
            let leaves = leaves_of(alloc, &content, arena, steps)?;
            let whole = whole_of(&index, arena, steps)?;
            let starts = present_offsets(&whole, offsets, count, arena, steps)?;
            let lane = numbers_at(&index, &leaves, starts.total, arena, steps)?;
            Ok(Present {
                lane,
                offsets: starts.lane,
                index: Some(index),
            })
        }
        _ => unreachable!(),
    }
}

/// The items of lists that are not null, of which there are `count`, by offsets from 0 to the end.
pub fn present_of<'a, L: Ledger>(
    alloc: Global,
    items: &Array<'a>,
    offsets: &Lane<'a>,
    count: u64,
    arena: &'a Arena,
    steps: &mut Steps<L>,
) -> Result<Present<'a>, NoMemory>
    requires leaves { is_leaf (present (array_type items.now)) ≡ true }
    requires rising { AreRising offsets.now count (length (array_items items.now)) }
    requires first { place_at offsets.now 0 ≡ 0 }
    requires last { place_at offsets.now count ≡ length (array_items items.now) }
    requires fits { count < 2 ^ 63 }
    requires few { length (array_items items.now) ≤ item_limit }
    ensures { IfOk result (ArePresent items.now offsets.now count) }
{
    if is_optional(items.typ()) {
        present_options(alloc, items, offsets, count, arena, steps)
    } else {
        Ok(Present {
            lane: leaves_of(alloc, items, arena, steps)?,
            offsets: offsets.copy(),
            index: None,
        })
    }
}
