//! Columns of tuples.
ghost use Rattle.std.specs.Prelude.{◌≡◌, ◌<◌, ◌^◌, IfOk};
ghost use Rattle.awk_layout.specs.Valid.{len};
ghost use Rattle.awk_list_functions.specs.Made.{IsMade};
ghost use Rattle.awk_combi.specs.Combinations.{combinations_function};
ghost use Rattle.awk_combi.specs.Slots.{AreTuples, AreOfSize, AreSlotLanes};

use crate::slots::{Placed, slot_nodes, tuple_places};
use crate::typing::slots_made;
use awk_columns::Lists;
use awk_lanes::{Arena, Steps};
use awk_layout::{Array, Node};
use awk_list_functions::{Made, Spoil};
use awk_places::Rising;
use awk_types::NoMemory;
use std::alloc::Global;
use std::sync::ledger::Ledger;

/// What tuples are made of lists: of so many places or items, which may repeat with replacement.
#[derive(Clone, Copy, Debug, PartialEq, Eq)]
pub(crate) struct Tuples {
    pub(crate) n: u64,
    pub(crate) replacement: bool,
    pub(crate) places: bool,
}

/// The tuples whose slots stand beside one another.
fn tuple_node<'a, L: Ledger>(
    alloc: Global,
    places: bool,
    content: &Array<'a>,
    made: &Placed<'a>,
    arena: &'a Arena,
    steps: &mut Steps<L>,
) -> Result<Node<'a>, NoMemory>
    requires lanes { AreSlotLanes places (len content.now) made.now.lanes }
    requires sizes { AreOfSize made.now.total made.now.lanes }
    requires few { made.now.total < 2 ^ 63 }
    ensures { IfOk result (AreTuples places content.now made.now.total made.now.lanes) }
{
    let nodes = slot_nodes(alloc, places, content, &made.lanes, arena, steps)?;
    Ok(Node::row(None, made.total, nodes, steps))
}

/// The tuples of each list.
pub(crate) fn tuples_of<'a, L: Ledger>(
    alloc: Global,
    tuples: Tuples,
    lists: &Lists<'a>,
    arena: &'a Arena,
    steps: &mut Steps<L>,
) -> Result<Made<'a>, NoMemory>
    ensures { IfOk result (IsMade
        (combinations_function tuples.n tuples.replacement tuples.places) lists.now.class
        lists.now.starts lists.now.stops lists.now.content) }
{
    let content = lists.content();
    let _ = content.len();
    let slots = slots_made(tuples.n, tuples.places, content.typ());
    let rising = Rising {
        replacement: tuples.replacement,
        slots,
    };
    match tuple_places(alloc, tuples.places, rising, lists, arena, steps)? {
        None => Ok(Made::Spoiled(Spoil::Size)),
        Some(made) => {
            let content = tuple_node(alloc, tuples.places, content, &made, arena, steps)?;
            Ok(Made::Lists {
                offsets: made.offsets,
                content,
            })
        }
    }
}
