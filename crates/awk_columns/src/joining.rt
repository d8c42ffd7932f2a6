//! Lists joined: their items one after another, and offsets into these.
ghost use Rattle.std.specs.Prelude.{◌≡◌, ◌-◌, ◌<◌, ◌≤◌, ◌^◌, length, IfOk};
ghost use Rattle.awk_types.specs.Faults.{fault_told};
ghost use Rattle.awk_types.specs.Gives.{Gives};
ghost use Rattle.awk_lanes.specs.Places.{size_of, AreSpans};
ghost use Rattle.awk_lanes.specs.declared.kind.Kind.TheVariants as Kind;
ghost use Rattle.awk_layout.specs.Typing.{array_type, array_datum};
ghost use Rattle.awk_layout.specs.Valid.{len};
ghost use Rattle.awk_columns.specs.Columns.{offsets as offsets_of};
ghost use Rattle.awk_counts.specs.Counted.{spans};
ghost use Rattle.awk_columns.specs.ListValues.{list_values, joined_datum, AreJoined};
ghost use Rattle.awk_columns.specs.Reached.{IsReached};

use crate::moved::scattered;
use crate::spans::{Ends, row_start, total};
use awk_index::{Index, index_of};
use awk_lanes::{Arena, Lane, Steps, offsets_within};
use awk_layout::Array;
use awk_range::range;
use awk_types::{Fault, ITEM_LIMIT, NoMemory};
use std::alloc::{AllocError, Global};
use std::sync::ledger::Ledger;

/// Lists whose items lie one after another. List i has the content's items from offset i below
/// offset i + 1; the offsets are of i64, begin at 0 and end at the content's length.
#[derive(Drop)]
pub struct OffsetLists<'a> {
    pub offsets: Lane<'a>,
    pub content: Array<'a>,
}

/// The items of lists, of which there are n: cut from the content where they lie in a row, moved or
/// gathered else.
fn joined_items<'a, L: Ledger>(
    alloc: Global,
    starts: &Index<'a>,
    stops: &Index<'a>,
    n: u64,
    content: &Array<'a>,
    arena: &'a Arena,
    steps: &mut Steps<L>,
) -> Result<Array<'a>, NoMemory>
    requires spans { AreSpans starts.now stops.now (len content.now) }
    requires total { n ≡ length (spans starts.now stops.now) }
    requires small { n < 2 ^ 63 }
    ensures reached { IfOk result (IsReached content.now (spans starts.now stops.now)) }
{
    match row_start(starts, stops, n, content.len()) {
        Some(first) => range(alloc, content, first, first + n, steps),
        None => scattered(alloc, starts, stops, n, content, arena, steps),
    }
}

/// `join_lists` of lists whose ends are seen at once.
fn join_ends<'a, L: Ledger>(
    alloc: Global,
    starts: &Index<'a>,
    stops: &Index<'a>,
    content: &Array<'a>,
    arena: &'a Arena,
    steps: &mut Steps<L>,
) -> Result<OffsetLists<'a>, Fault>
    requires small { size_of starts.now < 2 ^ 63 }
    requires spans { AreSpans starts.now stops.now (len content.now) }
    ensures answer { let vs = list_values starts.now stops.now content.now in
        let said = joined_datum (array_type content.now) vs in
        Gives (λ j. array_datum j.content) fault_told result said }
    ensures offsets { let vs = list_values starts.now stops.now content.now in
        IfOk result (λ j. j.offsets ≡ record { kind = Kind.I64; items = offsets_of 0 vs }) }
    ensures lists { let joins = AreJoined starts.now stops.now content.now in
        IfOk result (λ j. joins j.offsets j.content) }
{
    let _ = content.len();
    let n = starts.len();
    let ends = Ends { starts, stops };
    let Some(offsets) = offsets_within(ITEM_LIMIT, n, &ends, arena, steps)? else {
        return Err(Fault::Size);
    };
    let items = joined_items(alloc, starts, stops, offsets.total, content, arena, steps)?;
    let _ = items.len();
    Ok(OffsetLists {
        offsets: offsets.lane,
        content: items,
    })
}

/// The items of lists, one after another, and offsets into these. `Size` tells exactly that they
/// are more than 1,073,741,824 together.
pub fn join_lists<'a, L: Ledger>(
    alloc: Global,
    starts: &Lane<'a>,
    stops: &Lane<'a>,
    content: &Array<'a>,
    arena: &'a Arena,
    steps: &mut Steps<L>,
) -> Result<OffsetLists<'a>, Fault>
    requires small { size_of starts.now < 2 ^ 63 }
    requires spans { AreSpans starts.now stops.now (len content.now) }
    ensures answer { let vs = list_values starts.now stops.now content.now in
        let said = joined_datum (array_type content.now) vs in
        Gives (λ j. array_datum j.content) fault_told result said }
    ensures offsets { let vs = list_values starts.now stops.now content.now in
        IfOk result (λ j. j.offsets ≡ record { kind = Kind.I64; items = offsets_of 0 vs }) }
    ensures lists { let joins = AreJoined starts.now stops.now content.now in
        IfOk result (λ j. joins j.offsets j.content) }
{
    let starts = index_of(alloc, starts, arena, steps)?;
    let stops = index_of(alloc, stops, arena, steps)?;
    join_ends(alloc, &starts, &stops, content, arena, steps)
}

/// The items of lists, one after another, however many they are.
pub fn all_items<'a, L: Ledger>(
    alloc: Global,
    starts: &Lane<'a>,
    stops: &Lane<'a>,
    content: &Array<'a>,
    arena: &'a Arena,
    steps: &mut Steps<L>,
) -> Result<Array<'a>, NoMemory>
    requires spans { AreSpans starts.now stops.now (len content.now) }
    ensures reached { IfOk result (IsReached content.now (spans starts.now stops.now)) }
{
    let _ = content.len();
    let starts = index_of(alloc, starts, arena, steps)?;
    let stops = index_of(alloc, stops, arena, steps)?;
    match total(i64::MAX as u64, &starts, &stops) {
        Some(n) => joined_items(alloc, &starts, &stops, n, content, arena, steps),
        None => Err(AllocError),
    }
}
