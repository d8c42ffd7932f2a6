//! Rows of lists that share lists: what the lists hold is joined once, and the items of each row
//! are a part of it.
ghost use Rattle.std.specs.Prelude.{◌≡◌, ◌≤◌, length, IfOk, IfSome};
ghost use Rattle.awk_types.specs.ItemLimit.{item_limit};
ghost use Rattle.awk_lanes.specs.Places.{AreSpans};
ghost use Rattle.awk_layout.specs.Typing.{array_items};
ghost use Rattle.awk_columns.specs.Columns.{joined_items};
ghost use Rattle.awk_open.specs.Opens.{OpensLists};
ghost use Rattle.awk_list_functions.specs.Made.{IsMade};
ghost use Rattle.awk_lists.specs.Flatten.{flatten_function};
ghost use Rattle.awk_lists.specs.Listed.{AreEnds};
ghost use Rattle.awk_lists.specs.Shared.{AreRows, IsSum};

use awk_columns::Lists;
use awk_index::{Index, index_of};
use awk_lanes::{Arena, Lane, Steps, offsets_within};
use awk_list_ends::{length_between, numbers_at_ends};
use awk_list_functions::{Made, Spoil};
use awk_open::{Opened, open_array};
use awk_types::{ITEM_LIMIT, NoMemory};
use std::alloc::Global;
use std::sync::ledger::Ledger;

/// Where the items of each row begin and end among those of all lists.
#[derive(Drop)]
struct Rows<'a> {
    starts: Lane<'a>,
    stops: Lane<'a>,
}

/// Rows of lists, by where the items of each list begin.
fn rows_of<'a, L: Ledger>(
    alloc: Global,
    lists: &Lists<'a>,
    offsets: &Lane<'a>,
    arena: &'a Arena,
    steps: &mut Steps<L>,
) -> Result<Rows<'a>, NoMemory>
    requires offsets { AreEnds offsets.now (array_items lists.now.content) }
    ensures { let l = lists.now in
        IfOk result (λ r. AreRows l.starts l.stops l.content r.starts r.stops) }
{
    let _ = lists.content();
    let starts = index_of(alloc, lists.starts(), arena, steps)?;
    let stops = index_of(alloc, lists.stops(), arena, steps)?;
    let offsets = index_of(alloc, offsets, arena, steps)?;
    let firsts = numbers_at_ends(&offsets, &starts, &stops, &starts, arena, steps)?;
    let ends = numbers_at_ends(&offsets, &starts, &stops, &stops, arena, steps)?;
    Ok(Rows {
        starts: firsts,
        stops: ends,
    })
}

/// How many items lists have together, or none where they are more than a column may have.
fn sum_of(starts: &Index, stops: &Index) -> Option<u64>
    requires spans { AreSpans starts.now stops.now 9223372036854775807 }
    ensures { IsSum starts.now stops.now result }
{
    let mut sum = 0;
    for i in 0..starts.len() {
        let length = length_between(starts, stops, i);
        if length > ITEM_LIMIT - sum {
            return None;
        }
        sum += length;
    }
    Some(sum)
}

/// Rows of lists joined, by where the items of each list begin. Nothing is made where the lists
/// have more items than the rows, since some lists are in no row then.
fn rows_among<'a, L: Ledger>(
    alloc: Global,
    lists: &Lists<'a>,
    inner: &Lists<'a>,
    offsets: &Lane<'a>,
    total: u64,
    arena: &'a Arena,
    steps: &mut Steps<L>,
) -> Result<Option<Made<'a>>, NoMemory>
    requires opens { let l = inner.now in
        OpensLists l.class l.starts l.stops l.content lists.now.content }
    requires offsets { AreEnds offsets.now (array_items lists.now.content) }
    requires few { length (joined_items (array_items lists.now.content)) ≤ item_limit }
    ensures { let made = IsMade flatten_function lists.now.class lists.now.starts
        lists.now.stops lists.now.content in IfOk result (λ r. IfSome r made) }
{
    let _ = lists.content();
    let rows = rows_of(alloc, lists, offsets, arena, steps)?;
    let starts = index_of(alloc, &rows.starts, arena, steps)?;
    let stops = index_of(alloc, &rows.stops, arena, steps)?;
    let Some(reached) = sum_of(&starts, &stops) else {
        return Ok(Some(Made::Spoiled(Spoil::Size)));
    };
    if reached < total {
        return Ok(None);
    }
    let items = inner.items(alloc, arena, steps)?;
    let _ = items.len();
    let content = items.node().copy(alloc)?;
    Ok(Some(Made::Spans {
        starts: rows.starts,
        stops: rows.stops,
        content,
    }))
}

/// Rows of lists joined, where the lists have no more items than a column may have.
fn rows_within<'a, L: Ledger>(
    alloc: Global,
    lists: &Lists<'a>,
    inner: &Lists<'a>,
    arena: &'a Arena,
    steps: &mut Steps<L>,
) -> Result<Option<Made<'a>>, NoMemory>
    requires opens { let l = inner.now in
        OpensLists l.class l.starts l.stops l.content lists.now.content }
    ensures { let made = IsMade flatten_function lists.now.class lists.now.starts
        lists.now.stops lists.now.content in IfOk result (λ r. IfSome r made) }
{
    match offsets_within(ITEM_LIMIT, inner.len(), inner, arena, steps)? {
        None => Ok(None),
        Some(offsets) => rows_among(
            alloc,
            lists,
            inner,
            &offsets.lane,
            offsets.total,
            arena,
            steps,
        ),
    }
}

/// Rows of lists joined, where no list is null and what the lists hold has no more items than what
/// the rows reach, each counted as often as it is reached. Else nothing is made.
pub(crate) fn shared_rows<'a, L: Ledger>(
    alloc: Global,
    lists: &Lists<'a>,
    arena: &'a Arena,
    steps: &mut Steps<L>,
) -> Result<Option<Made<'a>>, NoMemory>
    ensures { let made = IsMade flatten_function lists.now.class lists.now.starts
        lists.now.stops lists.now.content in IfOk result (λ r. IfSome r made) }
{
    match open_array(alloc, lists.content(), arena, steps)? {
        Opened::Items(inner) => rows_within(alloc, lists, &inner, arena, steps),
        _ => Ok(None),
    }
}
