//! The least and the greatest items, and their places.
ghost use Rattle.std.specs.Prelude.{◌≡◌, ◌<◌, ◌^◌, true, IfOk};
ghost use Rattle.awk_lanes.specs.Places.{size_of};
ghost use Rattle.awk_layout.specs.Layout.{flat, byte_masked};
ghost use Rattle.awk_layout.specs.Valid.{IsByteMask};
ghost use Rattle.awk_reduce.specs.Lists.{AreReady, AreReduced};
ghost use Rattle.awk_reduce.specs.Totals.{item_reducer, place_reducer};

use crate::ready::ReadyLists;
use awk_lanes::{Arena, Lane, Steps};
use awk_layout::Node;
use awk_list_functions::Made;
use awk_numbers::{Extreme, whole_of};
use awk_parts::{Parts, extremes_of, places_of, present_parts};
use awk_types::NoMemory;
use std::alloc::Global;
use std::sync::ledger::Ledger;

/// Numbers, and null where the byte of a mask is 0.
pub(crate) fn masked<'a, L: Ledger>(
    alloc: Global,
    mask: Lane<'a>,
    numbers: Lane<'a>,
    steps: &mut Steps<L>,
) -> Result<Node<'a>, NoMemory>
    requires length { size_of mask < 2 ^ 63 }
    requires size { size_of numbers < 2 ^ 63 }
    requires valid { IsByteMask mask (size_of numbers) }
    ensures { IfOk result (λ y. y ≡ byte_masked mask.entry true (flat numbers.entry)) }
{
    let content = Box::new(alloc, Node::numpy(numbers, steps))?;
    Ok(Node::byte_masked(mask, true, content, steps))
}

/// The least or the greatest item of each list.
pub(crate) fn extremes<'a, L: Ledger>(
    alloc: Global,
    how: Extreme,
    x: &ReadyLists<'_, 'a>,
    arena: &'a Arena,
    steps: &mut Steps<L>,
) -> Result<Made<'a>, NoMemory>
    requires { AreReady x.now }
    ensures { IfOk result (AreReduced (item_reducer how) x.now) }
{
    let numbers = whole_of(x.lane, arena, steps)?;
    let parts = Parts {
        numbers: &numbers,
        spans: x.spans,
    };
    let items = extremes_of(how, x.lane, &parts, arena, steps)?;
    let mask = present_parts(&parts, arena, steps)?;
    Ok(Made::Singles(masked(alloc, mask, items, steps)?))
}

/// The place of the least or of the greatest item of each list.
pub(crate) fn extreme_indexes<'a, L: Ledger>(
    alloc: Global,
    how: Extreme,
    x: &ReadyLists<'_, 'a>,
    arena: &'a Arena,
    steps: &mut Steps<L>,
) -> Result<Made<'a>, NoMemory>
    requires { AreReady x.now }
    ensures { IfOk result (AreReduced (place_reducer how) x.now) }
{
    let numbers = whole_of(x.lane, arena, steps)?;
    let parts = Parts {
        numbers: &numbers,
        spans: x.spans,
    };
    let places = places_of(how, &parts, arena, steps)?;
    let mask = present_parts(&parts, arena, steps)?;
    Ok(Made::Singles(masked(alloc, mask, places, steps)?))
}
