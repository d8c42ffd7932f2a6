//! One level down from pairs of lists: their rows, as pairs of lists again.
ghost use Rattle.std.specs.Prelude.{◌≡◌, ◌≤◌, true, is_some, IfOk};
ghost use Rattle.awk_types.specs.ItemLimit.{item_limit};
ghost use Rattle.awk_lanes.specs.Counted.{offsets_by};
ghost use Rattle.awk_lanes.specs.Places.{size_of, AreSpans};
ghost use Rattle.awk_layout.specs.Typing.{array_type};
ghost use Rattle.awk_layout.specs.Valid.{len};
ghost use Rattle.awk_columns.specs.Lists.{length_of};
ghost use Rattle.awk_jagged_rows.specs.RowTypes.{rows_of};
ghost use Rattle.awk_jagged_rows.specs.Levels.{AreCompared, AreRows, AreRowsBy, IsLevel, row_count};
ghost use Rattle.awk_jagged_rows.specs.Levels.{IsIndexOf};
ghost use Rattle.awk_jagged_rows.specs.RowLists.{AreRowsOf};
ghost use Rattle.awk_jagged_rows.specs.Rows.{IsSmallIndex, AreAlike, AreIn, AreListsIn};

use crate::ends::{Ends, Present};
use crate::in_order::{firsts_of, rows_in_order};
use crate::paired::PairLists;
use crate::row_lists::{RowLists, row_lists};
use awk_columns::{Lists, places_of};
use awk_lanes::{Arena, Kind, Lane, Offsets, Steps, made_lane, offsets_within};
use awk_types::{ITEM_LIMIT, NoMemory};
use std::alloc::Global;
use std::sync::ledger::Ledger;

/// The rows of lists in pairs, as pairs of lists. Where one of two rows is null, both are empty.
#[derive(Drop)]
pub struct Rows<'a> {
    /// Where the rows of each list begin.
    pub offsets: Lane<'a>,
    /// Which rows are present, where some may be null.
    pub index: Option<Lane<'a>>,
    pub xs: Lists<'a>,
    pub ws: Lists<'a>,
}

/// What is below lists in pairs.
#[derive(Drop)]
pub enum Level<'a> {
    /// Two lists of a pair have unequal lengths.
    Uneven,
    /// The rows are too many together.
    TooMany,
    Rows(Rows<'a>),
}

/// Whether two lists of some pair have unequal lengths.
pub fn lengths_differ<L: Ledger>(xs: &Lists, ws: &Lists, steps: &mut Steps<L>) -> bool
    requires pairs { size_of xs.now.starts ≡ size_of ws.now.starts }
    ensures { AreCompared xs.now ws.now result }
{
    for i in 0..xs.len() {
        if xs.length_at(i, steps) != ws.length_at(i, steps) {
            return true;
        }
    }
    false
}

/// Lists at places of others, empty where the place is negative.
fn lists_in<'a, L: Ledger>(
    alloc: Global,
    places: &Lane<'a>,
    rows: &RowLists<'a>,
    arena: &'a Arena,
    steps: &mut Steps<L>,
) -> Result<Lists<'a>, NoMemory>
    requires index { IsSmallIndex places.now }
    requires lists { AreIn places.now rows.now }
    requires spans { AreSpans rows.now.starts rows.now.stops (len rows.now.content) }
    ensures { IfOk result (AreListsIn places.now rows.now) }
{
    let _ = rows.content.len();
    let starts = Ends {
        lists: places,
        ends: &rows.starts,
    };
    let stops = Ends {
        lists: places,
        ends: &rows.stops,
    };
    let n = places.len();
    let starts = made_lane(Kind::I64, n, &starts, arena, steps)?;
    let stops = made_lane(Kind::I64, n, &stops, arena, steps)?;
    Ok(Lists::new(None, starts, stops, rows.content.copy(alloc)?))
}

/// Which rows are present.
fn index_of<'a, L: Ledger>(
    places: &Lane<'a>,
    x: &RowLists<'a>,
    w: &RowLists<'a>,
    arena: &'a Arena,
    steps: &mut Steps<L>,
) -> Result<Option<Lane<'a>>, NoMemory>
    requires { IsSmallIndex places.now }
    ensures { IfOk result (IsIndexOf places.now x.now.index w.now.index) }
{
    if x.index.is_none() && w.index.is_none() {
        return Ok(None);
    }
    let present = Present { lists: places };
    let index = made_lane(Kind::I64, places.len(), &present, arena, steps)?;
    Ok(Some(index))
}

/// The rows of lists that are as long in pairs, by the lists that they are.
fn rows_by<'a, L: Ledger>(
    alloc: Global,
    xs: &Lists<'a>,
    ws: &Lists<'a>,
    x: &RowLists<'a>,
    w: &RowLists<'a>,
    offsets: &Offsets<'a>,
    arena: &'a Arena,
    steps: &mut Steps<L>,
) -> Result<Rows<'a>, NoMemory>
    requires pairs { size_of xs.now.starts ≡ size_of ws.now.starts }
    requires alike { AreAlike xs.now ws.now }
    requires first { AreRowsOf xs.now.content x.now }
    requires second { AreRowsOf ws.now.content w.now }
    requires total { offsets.now.total ≡ row_count ws.now }
    requires few { row_count ws.now ≤ item_limit }
    ensures { IfOk result (AreRowsBy xs.now ws.now x.now w.now offsets.now.lane) }
{
    let _ = xs.content();
    let _ = ws.content();
    let n = ws.len();
    let first = PairLists {
        xs,
        ws,
        x,
        w,
        second: false,
    };
    let of_x = places_of(n, offsets.total, &first, arena, steps)?;
    let second = PairLists {
        xs,
        ws,
        x,
        w,
        second: true,
    };
    let of_w = places_of(n, offsets.total, &second, arena, steps)?;
    let index = index_of(&of_w, x, w, arena, steps)?;
    let xs = lists_in(alloc, &of_x, x, arena, steps)?;
    let ws = lists_in(alloc, &of_w, w, arena, steps)?;
    Ok(Rows {
        offsets: offsets.lane.copy(),
        index,
        xs,
        ws,
    })
}

/// The rows of lists that are as long in pairs, of which there are not too many.
fn rows_below<'a, L: Ledger>(
    alloc: Global,
    xs: &Lists<'a>,
    ws: &Lists<'a>,
    offsets: &Offsets<'a>,
    arena: &'a Arena,
    steps: &mut Steps<L>,
) -> Result<Rows<'a>, NoMemory>
    requires pairs { size_of xs.now.starts ≡ size_of ws.now.starts }
    requires alike { AreAlike xs.now ws.now }
    requires rows { is_some (rows_of (array_type xs.now.content)) ≡ true }
    requires index { is_some (rows_of (array_type ws.now.content)) ≡ true }
    requires total { offsets.now.total ≡ row_count ws.now }
    requires few { row_count ws.now ≤ item_limit }
    requires offsets { offsets.now.lane ≡ offsets_by (length_of ws.now) (size_of ws.now.starts) }
    ensures { IfOk result (AreRows xs.now ws.now) }
{
    let first = xs.content();
    let second = ws.content();
    let x = row_lists(alloc, first, arena, steps)?;
    let w = row_lists(alloc, second, arena, steps)?;
    match firsts_of(xs, ws, &x, &w, steps) {
        Some(firsts) => rows_in_order(alloc, &x, &w, firsts, offsets, steps),
        None => rows_by(alloc, xs, ws, &x, &w, offsets, arena, steps),
    }
}

/// The rows of lists in pairs.
pub fn level_of<'a, L: Ledger>(
    alloc: Global,
    xs: &Lists<'a>,
    ws: &Lists<'a>,
    arena: &'a Arena,
    steps: &mut Steps<L>,
) -> Result<Level<'a>, NoMemory>
    requires pairs { size_of xs.now.starts ≡ size_of ws.now.starts }
    requires rows { is_some (rows_of (array_type xs.now.content)) ≡ true }
    requires index { is_some (rows_of (array_type ws.now.content)) ≡ true }
    ensures { IfOk result (IsLevel xs.now ws.now) }
{
    if lengths_differ(xs, ws, steps) {
        return Ok(Level::Uneven);
    }
    match offsets_within(ITEM_LIMIT, ws.len(), ws, arena, steps)? {
        None => Ok(Level::TooMany),
        Some(offsets) => { Ok(Level::Rows(rows_below(alloc, xs, ws, &offsets, arena, steps)?)) }
    }
}
