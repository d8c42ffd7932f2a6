//! The items of lists of leaves in order.
ghost use Rattle.std.specs.Prelude.{◌≡◌, true, false, IfOk};
ghost use Rattle.awk_types.specs.Predicates.{is_unknown};
ghost use Rattle.awk_types.specs.Simple.{is_option, present};
ghost use Rattle.awk_layout.specs.Typing.{array_type};
ghost use Rattle.awk_order.specs.Lists.{AreItems, AreMade};
ghost use Rattle.awk_order.specs.Order as spec;

use crate::cells::numbers_of;
use crate::lists::ItemLists;
use crate::nulls::present_first;
use crate::types::are_unknown;
use awk_lanes::{Arena, Steps};
use awk_layout::Node;
use awk_present::present_of;
use awk_sorting::lane_in_order;
use awk_types::{NoMemory, is_optional};
use std::alloc::Global;
use std::sync::ledger::Ledger;

/// The items of lists of which none is null.
fn plain_in_order<'a, L: Ledger>(
    alloc: Global,
    x: &ItemLists<'_, 'a>,
    up: bool,
    arena: &'a Arena,
    steps: &mut Steps<L>,
) -> Result<Node<'a>, NoMemory>
    requires items { AreItems x.now.items.now x.now.offsets.now x.now.count }
    requires plain { is_option (array_type x.now.items.now) ≡ false }
    requires known { is_unknown (present (array_type x.now.items.now)) ≡ false }
    ensures { let t = array_type x.now.items.now in
        IfOk result (AreMade t (spec.items_in_order up) x.now.items.now x.now.offsets.now
        x.now.count) }
{
    let _ = x.items.len();
    let lane = numbers_of(alloc, x.items, arena, steps)?;
    let sorted = lane_in_order(alloc, &lane, x.offsets, x.count, up, arena, steps)?;
    Ok(Node::numpy(sorted, steps))
}

/// The items of lists of which some may be null: these come last.
fn optional_in_order<'a, L: Ledger>(
    alloc: Global,
    x: &ItemLists<'_, 'a>,
    up: bool,
    arena: &'a Arena,
    steps: &mut Steps<L>,
) -> Result<Node<'a>, NoMemory>
    requires items { AreItems x.now.items.now x.now.offsets.now x.now.count }
    requires optional { is_option (array_type x.now.items.now) ≡ true }
    requires known { is_unknown (present (array_type x.now.items.now)) ≡ false }
    ensures { let t = array_type x.now.items.now in
        IfOk result (AreMade t (spec.items_in_order up) x.now.items.now x.now.offsets.now
        x.now.count) }
{
    let _ = x.items.len();
    let present = present_of(alloc, x.items, x.offsets, x.count, arena, steps)?;
    let lane = lane_in_order(
        alloc,
        &present.lane,
        &present.offsets,
        x.count,
        up,
        arena,
        steps,
    )?;
    let index = present_first(x.offsets, &present.offsets, x.count, arena, steps)?;
    let content = Box::new(alloc, Node::numpy(lane, steps))?;
    Ok(Node::indexed_option(index, content, steps))
}

/// The items of each list in order, one list after another. Those of unknown are as they are.
pub(crate) fn items_in_order<'a, L: Ledger>(
    alloc: Global,
    x: &ItemLists<'_, 'a>,
    up: bool,
    arena: &'a Arena,
    steps: &mut Steps<L>,
) -> Result<Node<'a>, NoMemory>
    requires items { AreItems x.now.items.now x.now.offsets.now x.now.count }
    ensures { let t = array_type x.now.items.now in
        IfOk result (AreMade t (spec.items_in_order up) x.now.items.now x.now.offsets.now
        x.now.count) }
{
    let _ = x.items.len();
    if are_unknown(x.items.typ()) {
        x.items.node().copy(alloc)
    } else if is_optional(x.items.typ()) {
        optional_in_order(alloc, x, up, arena, steps)
    } else {
        plain_in_order(alloc, x, up, arena, steps)
    }
}
