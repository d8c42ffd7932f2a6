//! The lane of a leaf, and the items of lists joined.
ghost use Rattle.std.specs.Prelude.{◌≡◌, ◌<◌, ◌^◌, true, length, nat_lt, IfOk};
ghost use Rattle.awk_lanes.specs.Places.{size_of, AreSpans};
ghost use Rattle.awk_layout.specs.Valid.{len};
ghost use Rattle.awk_columns.specs.Columns.{joined_items};
ghost use Rattle.awk_columns.specs.ListValues.{list_values};
ghost use Rattle.awk_types.specs.ItemLimit.{item_limit};
ghost use Rattle.awk_pack.specs.Packing.{IsJoined, leaf_lane, IfSize, fault_of};

use crate::packed::PackFault;
use awk_columns::{OffsetLists, join_lists};
use awk_lanes::{Arena, Kind, Lane, LaneMaker, Steps};
use awk_layout::Array;
use awk_types::{Fault, NoMemory};
use std::alloc::Global;
use std::sync::ledger::Ledger;

/// Truth values as bytes 0 and 1.
fn truths<'a, L: Ledger>(
    lane: &Lane<'a>,
    arena: &'a Arena,
    steps: &mut Steps<L>,
) -> Result<Lane<'a>, NoMemory>
    requires { lane.now.kind ≡ Kind.Bool }
    ensures { IfOk result (λ r. r ≡ leaf_lane lane.now) }
{
    let n = lane.len();
    let mut maker = LaneMaker::new(Kind::Bool, n, arena)?;
    for i in 0..n {
        maker.push(lane.at(i, steps));
    }
    Ok(maker.finish())
}

/// The lane of a leaf, borrowed unless it is of truth values.
pub(crate) fn leaf_lane<'a, L: Ledger>(
    lane: &Lane<'a>,
    arena: &'a Arena,
    steps: &mut Steps<L>,
) -> Result<Lane<'a>, NoMemory>
    ensures { IfOk result (λ r. r ≡ leaf_lane lane.now) }
{
    match lane.kind() {
        Kind::Bool => truths(lane, arena, steps),
        _ => Ok(lane.copy()),
    }
}

/// The fault of joining lists, as packing has it.
fn pack_fault(fault: &Fault) -> PackFault
    ensures { result ≡ fault_of fault.now }
{
    match fault {
        Fault::NoMemory => PackFault::NoMemory,
        _ => PackFault::Size,
    }
}

/// The items of lists, one after another, with their offsets.
pub(crate) fn joined<'a, L: Ledger>(
    alloc: Global,
    starts: &Lane<'a>,
    stops: &Lane<'a>,
    content: &Array<'a>,
    arena: &'a Arena,
    steps: &mut Steps<L>,
) -> Result<OffsetLists<'a>, PackFault>
    requires small { size_of starts.now < 2 ^ 63 }
    requires spans { AreSpans starts.now stops.now (len content.now) }
    ensures joined { let vs = list_values starts.now stops.now content.now in
        IfOk result (λ j. IsJoined content.now vs j.offsets j.content) }
    ensures size { let vs = list_values starts.now stops.now content.now in
        IfSize result (nat_lt item_limit (length (joined_items vs)) ≡ true) }
{
    match join_lists(alloc, starts, stops, content, arena, steps) {
        Ok(joined) => Ok(joined),
        Err(fault) => Err(pack_fault(&fault)),
    }
}
