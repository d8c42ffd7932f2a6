//! Lanes of places and arrays of what stands there, one a slot.
ghost use Rattle.std.specs.Prelude.{◌≡◌, ◌<◌, ◌≤◌, ◌^◌, length, IfOk};
ghost use Rattle.awk_lanes.specs.Places.{size_of, IsIndex};
ghost use Rattle.awk_layout.specs.Layout.{indexed};
ghost use Rattle.awk_layout.specs.Valid.{len};
ghost use Rattle.awk_combi.specs.Slots.{IsSlot, IsSlotLane, AreSlots, AreSlotLanes, ArePlaced};

use crate::spans::{end_lane, first_lane};
use awk_columns::Lists;
use awk_gather::{gather, is_record};
use awk_lanes::{Arena, Lane, Lanes, Steps};
use awk_layout::{Array, Node, Nodes};
use awk_places::{Rising, rising_lanes, rising_offsets};
use awk_types::NoMemory;
use std::alloc::Global;
use std::sync::ledger::Ledger;

/// Where the tuples of lists lie, and the places in each slot of all of them.
#[derive(Drop)]
pub(crate) struct Placed<'a> {
    pub(crate) total: u64,
    pub(crate) offsets: Lane<'a>,
    pub(crate) lanes: Lanes<'a>,
}

/// The places of all tuples of lists, in the content or in each list by itself. None where the
/// tuples are more than the limit of a column, and then no tuple is made.
pub(crate) fn tuple_places<'a, L: Ledger>(
    alloc: Global,
    places: bool,
    rising: Rising,
    lists: &Lists<'a>,
    arena: &'a Arena,
    steps: &mut Steps<L>,
) -> Result<Option<Placed<'a>>, NoMemory>
    ensures { IfOk result (ArePlaced places rising.replacement rising.slots lists.now.starts
        lists.now.stops) }
{
    let firsts = first_lane(alloc, places, lists, arena, steps)?;
    let ends = end_lane(alloc, places, lists, arena, steps)?;
    let _ = lists.len();
    match rising_offsets(rising, &firsts, &ends, arena, steps)? {
        None => Ok(None),
        Some(offsets) => {
            let total = offsets.total;
            let lanes = rising_lanes(alloc, rising, total, &firsts, &ends, arena, steps)?;
            Ok(Some(Placed {
                total,
                offsets: offsets.lane,
                lanes,
            }))
        }
    }
}

/// The records at places, as an index over all of them. It is the lane itself: no column is moved,
/// and numbers of 64 bits are read where they lie.
fn records_at<'a, L: Ledger>(
    alloc: Global,
    content: &Array<'a>,
    lane: &Lane<'a>,
    steps: &mut Steps<L>,
) -> Result<Node<'a>, NoMemory>
    requires small { size_of lane.now < 2 ^ 63 }
    requires places { IsIndex lane.now (len content.now) }
    ensures { IfOk result (λ r. r ≡ indexed lane.now content.now) }
{
    let content = Box::new(alloc, content.node().copy(alloc)?)?;
    Ok(Node::indexed(lane.copy(), content, steps))
}

/// What stands in a slot, by its places: these themselves, or the items there. Records are not
/// moved: the lane is an index over them.
pub fn slot_node<'a, L: Ledger>(
    alloc: Global,
    places: bool,
    content: &Array<'a>,
    lane: &Lane<'a>,
    arena: &'a Arena,
    steps: &mut Steps<L>,
) -> Result<Node<'a>, NoMemory>
    requires { IsSlotLane places (len content.now) lane.now }
    ensures { IfOk result (IsSlot places content.now lane.now) }
{
    if places {
        return Ok(Node::numpy(lane.copy(), steps));
    }
    let _ = content.len();
    let records = is_record(content.node());
    if records {
        let node = records_at(alloc, content, lane, steps)?;
        return Ok(node);
    }
    let items = gather(alloc, content, lane, arena, steps)?;
    let _ = items.len();
    Ok(items.into_node())
}

/// What stands in each slot.
pub(crate) fn slot_nodes<'a, L: Ledger>(
    alloc: Global,
    places: bool,
    content: &Array<'a>,
    lanes: &Lanes<'a>,
    arena: &'a Arena,
    steps: &mut Steps<L>,
) -> Result<Nodes<'a>, NoMemory>
    requires { AreSlotLanes places (len content.now) lanes.now }
    ensures { IfOk result (AreSlots places content.now lanes.now (length lanes.now)) }
{
    let mut nodes = Nodes::new(alloc);
    for j in 0..lanes.len() {
        nodes.push(slot_node(alloc, places, content, lanes.get(j), arena, steps)?)?;
    }
    Ok(nodes)
}
