//! The places of the items of lists of leaves, in the order of the items.
ghost use Rattle.std.specs.Prelude.{◌≡◌, IfOk};
ghost use Rattle.awk_types.specs.DataType.{leaf};
ghost use Rattle.awk_types.specs.declared.primitive.Primitive.TheVariants as primitive;
ghost use Rattle.awk_order.specs.Lists.{AreItems, AreMade};
ghost use Rattle.awk_order.specs.Sort.{place_items};

use crate::cells::cells_of;
use crate::lists::ItemLists;
use awk_lanes::{Arena, Steps};
use awk_layout::Node;
use awk_sorting::{Cells, places_in_order};
use awk_types::NoMemory;
use std::alloc::Global;
use std::sync::ledger::Ledger;

/// The places of each list's items in order, one list after another.
pub(crate) fn item_places<'a, L: Ledger>(
    alloc: Global,
    x: &ItemLists<'_, 'a>,
    up: bool,
    arena: &'a Arena,
    steps: &mut Steps<L>,
) -> Result<Node<'a>, NoMemory>
    requires items { AreItems x.now.items.now x.now.offsets.now x.now.count }
    ensures { IfOk result (AreMade (leaf primitive.I64) (place_items up) x.now.items.now
        x.now.offsets.now x.now.count) }
{
    let found = cells_of(alloc, x.items, arena, steps)?;
    let cells = Cells {
        lane: &found.lane,
        index: found.index.as_ref(),
    };
    let places = places_in_order(alloc, up, &cells, x.offsets, x.count, arena, steps)?;
    Ok(Node::numpy(places, steps))
}
