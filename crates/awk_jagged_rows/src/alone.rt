//! Single lists: an array as one list, and one list of a column alone.
ghost use Rattle.std.specs.Prelude.{◌≡◌, ◌≤◌, ◌<◌, true, is_some, IfOk};
ghost use Rattle.awk_lanes.specs.Places.{size_of};
ghost use Rattle.awk_layout.specs.Typing.{array_type};
ghost use Rattle.awk_layout.specs.Valid.{len};
ghost use Rattle.awk_jagged_rows.specs.Alone.{IsBetween, IsOnly, AreRowsOfOne, IsWhole};
ghost use Rattle.awk_jagged_rows.specs.Levels.{AreRows};
ghost use Rattle.awk_jagged_rows.specs.RowTypes.{rows_of};

use crate::levels::{Level, Rows, level_of};
use crate::spans::span_of;
use awk_columns::Lists;
use awk_lanes::{Arena, Steps, one_number};
use awk_layout::Array;
use awk_types::NoMemory;
use std::alloc::{AllocError, Global};
use std::sync::ledger::Ledger;

/// The items of an array from a start below a stop, as one list.
fn between<'a>(
    alloc: Global,
    x: &Array<'a>,
    start: u64,
    stop: u64,
    arena: &'a Arena,
) -> Result<Lists<'a>, NoMemory>
    requires order { start ≤ stop }
    requires within { stop ≤ len x.now }
    ensures { IfOk result (IsBetween x.now start stop) }
{
    let _ = x.len();
    let starts = one_number(start, arena)?;
    let stops = one_number(stop, arena)?;
    Ok(Lists::new(None, starts, stops, x.copy(alloc)?))
}

/// An array as one list.
pub fn one_list<'a>(alloc: Global, x: &Array<'a>, arena: &'a Arena) -> Result<Lists<'a>, NoMemory>
    ensures { IfOk result (IsWhole x.now) }
{
    between(alloc, x, 0, x.len(), arena)
}

/// List i alone.
fn only<'a, L: Ledger>(
    alloc: Global,
    lists: &Lists<'a>,
    i: u64,
    arena: &'a Arena,
    steps: &mut Steps<L>,
) -> Result<Lists<'a>, NoMemory>
    requires { i < size_of lists.now.starts }
    ensures { IfOk result (IsOnly lists.now i) }
{
    let content = lists.content();
    let span = span_of(lists, i, steps);
    if span.length == 0 {
        return between(alloc, content, 0, 0, arena);
    }
    between(alloc, content, span.start, span.start + span.length, arena)
}

/// The rows of two lists. There is no memory for more of them than a column has.
fn rows_alone<'a, L: Ledger>(
    alloc: Global,
    xs: &Lists<'a>,
    ws: &Lists<'a>,
    arena: &'a Arena,
    steps: &mut Steps<L>,
) -> Result<Rows<'a>, NoMemory>
    requires pairs { size_of xs.now.starts ≡ size_of ws.now.starts }
    requires rows { is_some (rows_of (array_type xs.now.content)) ≡ true }
    requires index { is_some (rows_of (array_type ws.now.content)) ≡ true }
    ensures { IfOk result (AreRows xs.now ws.now) }
{
    match level_of(alloc, xs, ws, arena, steps)? {
        Level::Rows(rows) => Ok(rows),
        Level::Uneven | Level::TooMany => Err(AllocError),
    }
}

/// The rows of the pair of lists at a place.
pub fn rows_of_one<'a, L: Ledger>(
    alloc: Global,
    xs: &Lists<'a>,
    ws: &Lists<'a>,
    i: u64,
    arena: &'a Arena,
    steps: &mut Steps<L>,
) -> Result<Rows<'a>, NoMemory>
    requires pairs { size_of xs.now.starts ≡ size_of ws.now.starts }
    requires rows { is_some (rows_of (array_type xs.now.content)) ≡ true }
    requires index { is_some (rows_of (array_type ws.now.content)) ≡ true }
    requires within { i < size_of ws.now.starts }
    ensures { IfOk result (AreRowsOfOne xs.now ws.now i) }
{
    let xs = only(alloc, xs, i, arena, steps)?;
    let ws = only(alloc, ws, i, arena, steps)?;
    rows_alone(alloc, &xs, &ws, arena, steps)
}
