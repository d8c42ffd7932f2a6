//! Tuples of one item of a list of each slot.
ghost use Rattle.std.specs.Prelude.{◌≡◌, ◌<◌, ◌^◌, IfOk, length, replicate};
ghost use Rattle.awk_places.specs.Products.{product_lanes};
ghost use Rattle.awk_products.specs.Slots.{AreSlots, AreSlotLanes, IsFew};
ghost use Rattle.awk_products.specs.Sources.{AreSources, AreProducts, repeated, zeros, slot_firsts};

use crate::sources::Sources;
use awk_combi::slot_node;
use awk_lanes::{Arena, Kind, Lane, Lanes, Num, Numbers, Steps, made_lane, number};
use awk_layout::{Arrays, Node, Nodes};
use awk_places::{product_lanes, product_offsets};
use awk_types::NoMemory;
use std::alloc::Global;
use std::sync::ledger::Ledger;

/// The tuples of lists one after another, and where those of each begin.
#[derive(Drop)]
pub struct Tuples<'a> {
    pub offsets: Lane<'a>,
    pub node: Node<'a>,
}

/// The same number at each place.
#[derive(Drop)]
struct Constant {
    n: u64,
    value: u64,
}

impl Numbers for Constant {
    ghost use Rattle.std.specs.Prelude.{pos, ◌<◌, ◌^◌};
    ghost use Rattle.awk_lanes.specs.declared.kind.Kind.TheVariants as Kinds;

    ghost kind = { λ _. Kinds.I64 };

    ghost at = { λ r i. pos r.value };

    ghost size = { λ r. r.n };

    ghost IsReady = { λ r. r.value < 2 ^ 63 };

    fn number<L: Ledger>(&self, _i: u64, _steps: &mut Steps<L>) -> Num {
        number(self.value)
    }
}

/// A number n times, as a lane.
pub fn repeated<'a, L: Ledger>(
    n: u64,
    value: u64,
    arena: &'a Arena,
    steps: &mut Steps<L>,
) -> Result<Lane<'a>, NoMemory>
    requires { value < 2 ^ 63 }
    ensures { IfOk result (λ r. r ≡ repeated n value) }
{
    made_lane(Kind::I64, n, &Constant { n, value }, arena, steps)
}

/// So many lanes of n zeros.
fn all_zeros<'a, L: Ledger>(
    alloc: Global,
    n: u64,
    slots: usize,
    arena: &'a Arena,
    steps: &mut Steps<L>,
) -> Result<Lanes<'a>, NoMemory>
    ensures { IfOk result (λ r. r ≡ replicate slots (zeros n)) }
{
    let lane = repeated(n, 0, arena, steps)?;
    let mut lanes = Lanes::new(alloc);
    for j in 0..slots {
        lanes.push(lane.copy())?;
    }
    Ok(lanes)
}

/// The places in each slot of the tuples of all lists, of which there are `total`: of items in the
/// content, or in each list by itself.
fn slot_lanes<'a, L: Ledger>(
    alloc: Global,
    places: bool,
    n: u64,
    total: u64,
    x: &Sources<'a>,
    arena: &'a Arena,
    steps: &mut Steps<L>,
) -> Result<Lanes<'a>, NoMemory>
    requires sources { AreSources n x.now }
    requires few { IsFew n x.now }
    ensures { IfOk result (λ r.
        r ≡ product_lanes n (slot_firsts places n x.now.firsts) x.now.lengths) }
{
    if places {
        let firsts = all_zeros(alloc, n, x.firsts.len(), arena, steps)?;
        return product_lanes(alloc, n, total, &firsts, &x.lengths, arena, steps);
    }
    product_lanes(alloc, n, total, &x.firsts, &x.lengths, arena, steps)
}

/// What stands in each slot.
fn slot_nodes<'a, L: Ledger>(
    alloc: Global,
    places: bool,
    contents: &Arrays<'a>,
    lanes: &Lanes<'a>,
    arena: &'a Arena,
    steps: &mut Steps<L>,
) -> Result<Nodes<'a>, NoMemory>
    requires same { length lanes.now ≡ length contents.now }
    requires lanes { AreSlotLanes places contents.now lanes.now }
    ensures { IfOk result (AreSlots places contents.now lanes.now (length lanes.now)) }
{
    let mut nodes = Nodes::new(alloc);
    for j in 0..lanes.len() {
        let node = slot_node(alloc, places, contents.get(j), lanes.get(j), arena, steps)?;
        nodes.push(node)?;
    }
    Ok(nodes)
}

/// The tuples of one item of list i of each slot, or of its place, for each i below n. None where
/// they are more than the limit of a column, and then none is made.
pub fn tuples_of<'a, L: Ledger>(
    alloc: Global,
    places: bool,
    n: u64,
    x: &Sources<'a>,
    arena: &'a Arena,
    steps: &mut Steps<L>,
) -> Result<Option<Tuples<'a>>, NoMemory>
    requires sources { AreSources n x.now }
    requires fits { n < 2 ^ 63 }
    ensures { IfOk result (AreProducts places n x.now) }
{
    let Some(offsets) = product_offsets(n, &x.lengths, arena, steps)? else {
        return Ok(None);
    };
    let total = offsets.total;
    let lanes = slot_lanes(alloc, places, n, total, x, arena, steps)?;
    let nodes = slot_nodes(alloc, places, &x.contents, &lanes, arena, steps)?;
    Ok(Some(Tuples {
        offsets: offsets.lane,
        node: Node::row(None, total, nodes, steps),
    }))
}
