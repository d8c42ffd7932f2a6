//! Lanes of i64 brought in order.
ghost use Rattle.std.specs.Prelude.{◌≡◌, IfOk};
ghost use Rattle.awk_lanes.specs.Places.{size_of};
ghost use Rattle.awk_lanes.specs.declared.kind.Kind.TheVariants as Kinds;
ghost use Rattle.awk_parts.specs.Parts.{AreRising};
ghost use Rattle.awk_sorting.specs.Lanes.{SortsLane};

use crate::parts::sort_slice_parts;
use awk_index::Index;
use awk_lanes::{Arena, Kind, Lane, NoMemory, Steps};
use std::sync::ledger::Ledger;

/// The same lane of i64 with each of n parts in order. Its numbers are copied once, as bytes, and
/// sorted where they then lie.
pub(crate) fn wide_in_order<'a, L: Ledger>(
    lane: &Lane,
    offsets: &Index,
    n: u64,
    up: bool,
    arena: &'a Arena,
    steps: &mut Steps<L>,
) -> Result<Lane<'a>, NoMemory>
    requires kind { lane.now.kind ≡ Kinds.I64 }
    requires rising { AreRising offsets.now n (size_of lane.now) }
    ensures { IfOk result (SortsLane up offsets.now n lane.now) }
{
    let bytes = lane.bulk(arena, steps)?;
    let (groups, _) = bytes.as_chunks::<8>();
    let sorted = arena.try_alloc_slice_copy(groups)?;
    sort_slice_parts(sorted, offsets, n, up);
    Ok(Lane::new(Kind::I64, sorted.as_flattened()))
}
