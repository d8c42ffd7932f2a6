//! Numbers of lists, moved list by list as the bytes that they lie in.
ghost use Rattle.std.specs.Prelude.{◌≡◌, ◌<◌, ◌^◌, length, IfOk};
ghost use Rattle.awk_lanes.specs.Places.{size_of, AreSpans};
ghost use Rattle.awk_layout.specs.Layout.{flat};
ghost use Rattle.awk_layout.specs.Typing.{array_type};
ghost use Rattle.awk_layout.specs.Valid.{len};
ghost use Rattle.awk_counts.specs.Counted.{numbers_at, spans};
ghost use Rattle.awk_columns.specs.Reached.{IsReached};

use crate::spans::{span_lane, span_of};
use awk_gather::gather;
use awk_index::Index;
use awk_lanes::{Arena, ByteLane, Lane, NoMemory, Steps};
use awk_layout::{Array, Class, Node};
use awk_types::copy_type;
use bumpalo::collections::into_bump_slice;
use std::alloc::{AllocError, Global};
use std::sync::ledger::Ledger;

/// The numbers of lists in a lane in bytes, of which there are n.
fn moved_bytes<'a, L: Ledger>(
    starts: &Index,
    stops: &Index,
    n: u64,
    lane: &ByteLane,
    arena: &'a Arena,
    steps: &mut Steps<L>,
) -> Result<Lane<'a>, NoMemory>
    requires spans { AreSpans starts.now stops.now (size_of lane.now) }
    requires small { size_of lane.now < 2 ^ 63 }
    requires total { n ≡ length (spans starts.now stops.now) }
    ensures { IfOk result (λ r. r ≡ numbers_at lane.now (spans starts.now stops.now)) }
{
    let kind = lane.kind();
    let size = n.checked_mul(kind.width() as u64).ok_or(AllocError)?;
    let mut bytes = Vec::with_capacity(arena, size as usize)?;
    for i in 0..starts.len() {
        let span = span_of(starts, stops, i);
        let part = lane.cut(span.start, span.start + span.length, steps);
        bytes.extend_from_slice(part.bulk(steps))?;
    }
    Ok(Lane::new(kind, into_bump_slice(bytes)))
}

/// The numbers of lists, of which there are n.
fn moved_numbers<'a, L: Ledger>(
    starts: &Index,
    stops: &Index,
    n: u64,
    lane: &Lane<'a>,
    arena: &'a Arena,
    steps: &mut Steps<L>,
) -> Result<Lane<'a>, NoMemory>
    requires spans { AreSpans starts.now stops.now (size_of lane.now) }
    requires small { size_of lane.now < 2 ^ 63 }
    requires total { n ≡ length (spans starts.now stops.now) }
    ensures { IfOk result (λ r. r ≡ numbers_at lane.now (spans starts.now stops.now)) }
{
    let bytes = lane.in_bytes(arena)?;
    moved_bytes(starts, stops, n, &bytes, arena, steps)
}

/// Numbers as an array of the type of another.
fn array_like<'a, L: Ledger>(
    alloc: Global,
    x: &Array,
    lane: Lane<'a>,
    steps: &mut Steps<L>,
) -> Result<Array<'a>, NoMemory>
    requires small { size_of lane < 2 ^ 63 }
    requires typ { array_type (flat lane) ≡ array_type x.now }
    ensures { IfOk result (λ r. r ≡ flat lane.entry) }
{
    let typ = copy_type(alloc, x.typ())?;
    Ok(Array::with_type(Node::numpy(lane, steps), typ))
}

/// The items of lists that lie in no row, of which there are n: numbers are moved list by list,
/// and what is no leaf is gathered item by item.
pub fn scattered<'a, L: Ledger>(
    alloc: Global,
    starts: &Index<'a>,
    stops: &Index<'a>,
    n: u64,
    content: &Array<'a>,
    arena: &'a Arena,
    steps: &mut Steps<L>,
) -> Result<Array<'a>, NoMemory>
    requires spans { AreSpans starts.now stops.now (len content.now) }
    requires total { n ≡ length (spans starts.now stops.now) }
    requires small { n < 2 ^ 63 }
    ensures reached { IfOk result (IsReached content.now (spans starts.now stops.now)) }
{
    if let Class::Numpy { lane } = content.node().class() {
        let lane = moved_numbers(starts, stops, n, lane, arena, steps)?;
        return array_like(alloc, content, lane, steps);
    }
    let places = span_lane(starts, stops, n, arena)?;
    gather(alloc, content, &places, arena, steps)
}
