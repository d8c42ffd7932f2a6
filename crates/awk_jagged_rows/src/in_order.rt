//! Lists in pairs whose rows lie in order, which stay as they lie.
ghost use Rattle.std.specs.Prelude.{◌≡◌, ◌+◌, ◌<◌, ◌≤◌, ◌^◌, None, IfOk, IfSome};
ghost use Rattle.awk_lanes.specs.Places.{size_of, AreSpans};
ghost use Rattle.awk_layout.specs.Valid.{len, IsValid};
ghost use Rattle.awk_jagged_rows.specs.InOrder.{AreFirsts, AreRowsFrom, AreRowsInOrder, IsFirst};

use crate::levels::Rows;
use crate::row_lists::RowLists;
use crate::spans::span_of;
use awk_columns::Lists;
use awk_lanes::{Offsets, Steps};
use awk_types::NoMemory;
use std::alloc::Global;
use std::sync::ledger::Ledger;

/// Where the rows begin of lists in pairs that lie in order.
#[derive(Clone, Copy)]
pub struct Firsts {
    pub x: u64,
    pub w: u64,
}

/// A place where nothing lies before, else the one given.
fn begin_at(first: u64, count: u64, start: u64) -> u64
    ensures none { count ≡ 0 → result ≡ start }
    ensures some { 0 < count → result ≡ first }
{
    if count == 0 {
        return start;
    }
    first
}

/// Where the items of lists begin, if each list that has some goes on where the last one ends.
fn first_in_order<L: Ledger>(lists: &Lists, steps: &mut Steps<L>) -> Option<u64>
    ensures { IfSome result (IsFirst lists.now) }
{
    let mut first = 0;
    let mut count = 0;
    let _ = lists.content();
    for i in 0..lists.len() {
        let span = span_of(lists, i, steps);
        if span.length == 0 {
            continue;
        }
        let begin = begin_at(first, count, span.start);
        if span.start != begin + count {
            return None;
        }
        first = begin;
        count += span.length;
    }
    Some(first)
}

/// Where the rows of lists in pairs begin, if they lie in order and none may be null.
pub fn firsts_of<L: Ledger>(
    xs: &Lists,
    ws: &Lists,
    x: &RowLists,
    w: &RowLists,
    steps: &mut Steps<L>,
) -> Option<Firsts>
    ensures { IfSome result (AreFirsts xs.now ws.now x.now w.now) }
{
    if x.index.is_some() {
        return None;
    }
    if w.index.is_some() {
        return None;
    }
    let x = first_in_order(xs, steps)?;
    let w = first_in_order(ws, steps)?;
    Some(Firsts { x, w })
}

/// So many rows from a place on.
fn rows_from<'a, L: Ledger>(
    alloc: Global,
    rows: &RowLists<'a>,
    first: u64,
    count: u64,
    steps: &mut Steps<L>,
) -> Result<Lists<'a>, NoMemory>
    requires spans { AreSpans rows.now.starts rows.now.stops (len rows.now.content) }
    requires valid { IsValid rows.now.content }
    requires within { first + count ≤ size_of rows.now.starts }
    requires small { size_of rows.now.starts < 2 ^ 63 }
    ensures { IfOk result (AreRowsFrom rows.now first count) }
{
    let starts = rows.starts.cut(first, first + count, steps);
    let stops = rows.stops.cut(first, first + count, steps);
    Ok(Lists::new(None, starts, stops, rows.content.copy(alloc)?))
}

/// The rows of lists in pairs, as they lie.
pub fn rows_in_order<'a, L: Ledger>(
    alloc: Global,
    x: &RowLists<'a>,
    w: &RowLists<'a>,
    firsts: Firsts,
    offsets: &Offsets<'a>,
    steps: &mut Steps<L>,
) -> Result<Rows<'a>, NoMemory>
    requires x_spans { AreSpans x.now.starts x.now.stops (len x.now.content) }
    requires w_spans { AreSpans w.now.starts w.now.stops (len w.now.content) }
    requires x_valid { IsValid x.now.content }
    requires w_valid { IsValid w.now.content }
    requires x_within { firsts.x + offsets.now.total ≤ size_of x.now.starts }
    requires w_within { firsts.w + offsets.now.total ≤ size_of w.now.starts }
    requires x_small { size_of x.now.starts < 2 ^ 63 }
    requires w_small { size_of w.now.starts < 2 ^ 63 }
    ensures { IfOk result (AreRowsInOrder x.now w.now firsts offsets.now) }
{
    Ok(Rows {
        offsets: offsets.lane.copy(),
        index: None,
        xs: rows_from(alloc, x, firsts.x, offsets.total, steps)?,
        ws: rows_from(alloc, w, firsts.w, offsets.total, steps)?,
    })
}
