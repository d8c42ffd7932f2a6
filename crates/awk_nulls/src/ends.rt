//! Where lists begin and end among the items that are present.
ghost use Rattle.std.specs.Prelude.{◌≡◌, ◌+◌, ◌<◌, ◌≤◌, ◌==◌, ◌^◌, length, pos, IfOk, IfSome};
ghost use Rattle.std.specs.Prelude.{if◌then◌else◌};
ghost use Rattle.awk_lanes.specs.Numbers.{int_of, IsOf};
ghost use Rattle.awk_lanes.specs.Places.{size_of, IsOptionKind};
ghost use Rattle.awk_lanes.specs.declared.kind.Kind.TheVariants as Kinds;
ghost use Rattle.awk_layout.specs.Valid.{len};
ghost use Rattle.awk_counts.specs.Counted.{first_of, present_at};
ghost use Rattle.awk_list_ends.specs.Ends.{numbers_at_ends, AreListEnds};
ghost use Rattle.awk_counts.specs.Present.{present_lane};
ghost use Rattle.awk_nulls.specs.Lanes.{AreEnds};

use awk_columns::{Bounds, Lists};
use awk_counts::present_counts;
use awk_index::{Index, index_of};
use awk_lanes::{Arena, IndexMaker, Lane, Num, Steps, number};
use awk_list_ends::{numbers_at_ends, span_or};
use awk_narrow::OptionIndex;
use awk_types::NoMemory;
use std::alloc::Global;
use std::sync::ledger::Ledger;

/// Where lists begin and end.
#[derive(Drop)]
pub(crate) struct Ends<'a> {
    pub(crate) starts: Lane<'a>,
    pub(crate) stops: Lane<'a>,
}

/// 1 where the index of an option names an item, else 0.
#[inline(always)]
fn one_if_named<P: OptionIndex>(index: &P, i: u64) -> u64
    requires within { i < size_of (P.lane index.now) }
    ensures { result ≡ length (present_at (P.lane index.now) i) }
{
    match index.place(i) {
        Some(_) => 1,
        None => 0,
    }
}

/// How many items are present from a place on below another.
#[inline(always)]
pub(crate) fn count_between<P: OptionIndex>(index: &P, start: u64, stop: u64) -> u64
    requires order { start ≤ stop }
    requires within { stop ≤ size_of (P.lane index.now) }
    ensures { let present = present_at (P.lane index.now) in
        length (first_of present start) + result ≡ length (first_of present stop) }
{
    let mut count = 0;
    for i in start..stop {
        count += one_if_named(index, i);
    }
    count
}

/// An end of a list of a length: 0 where it has no items.
#[inline(always)]
fn end_number(length: u64, end: u64) -> Num
    requires small { end < 2 ^ 63 }
    ensures number { int_of result ≡ (if length == 0 then pos 0 else pos end) }
    ensures kind { IsOf Kinds.I64 result }
{
    if length == 0 {
        Num::Int(0)
    } else {
        number(end)
    }
}

/// Where lists begin and end among the items that are present, in one pass over these: none where
/// a list begins before another that stands before it ends.
fn ends_in_order<'a>(
    index: &Index,
    lists: &Bounds,
    arena: &'a Arena,
) -> Result<Option<Ends<'a>>, NoMemory>
    requires size { size_of index.now ≡ len lists.now.content }
    requires small { size_of index.now < 2 ^ 63 }
    ensures { let counts = present_lane index.now in
        IfOk result (λ r. IfSome r (AreEnds counts lists.now.starts lists.now.stops)) }
{
    let _ = lists.content();
    let n = lists.len();
    let mut starts = IndexMaker::new(n, arena)?;
    let mut stops = IndexMaker::new(n, arena)?;
    let mut place = 0;
    let mut count = 0;
    for i in 0..n {
        let span = span_or(lists, i, place);
        if span.start < place {
            return Ok(None);
        }
        count += count_between(index, place, span.start);
        starts.push(end_number(span.length, count));
        place = span.start + span.length;
        count += count_between(index, span.start, place);
        stops.push(end_number(span.length, count));
    }
    Ok(Some(Ends {
        starts: starts.finish(),
        stops: stops.finish(),
    }))
}

/// The same of any lists, by a lane of how many items are present before each.
fn counted_ends<'a, L: Ledger>(
    alloc: Global,
    index: &Lane<'a>,
    lists: &Lists<'a>,
    arena: &'a Arena,
    steps: &mut Steps<L>,
) -> Result<Ends<'a>, NoMemory>
    requires kind { IsOptionKind index.now.kind }
    requires small { size_of index.now < 2 ^ 63 }
    requires starts { AreListEnds (present_lane index.now) lists.now.starts lists.now.stops
        lists.now.starts }
    requires stops { AreListEnds (present_lane index.now) lists.now.starts lists.now.stops
        lists.now.stops }
    ensures { let counts = present_lane index.now in
        IfOk result (AreEnds counts lists.now.starts lists.now.stops) }
{
    let _ = lists.content();
    let starts = index_of(alloc, lists.starts(), arena, steps)?;
    let stops = index_of(alloc, lists.stops(), arena, steps)?;
    let counts = present_counts(alloc, index, arena, steps)?;
    let counts = index_of(alloc, &counts, arena, steps)?;
    let firsts = numbers_at_ends(&counts, &starts, &stops, &starts, arena, steps)?;
    let ends = numbers_at_ends(&counts, &starts, &stops, &stops, arena, steps)?;
    Ok(Ends {
        starts: firsts,
        stops: ends,
    })
}

/// Where lists of the items of an option begin and end among those that are present, by its index.
pub(crate) fn ends_among_present<'a, L: Ledger>(
    alloc: Global,
    index: &Lane<'a>,
    lists: &Lists<'a>,
    arena: &'a Arena,
    steps: &mut Steps<L>,
) -> Result<Ends<'a>, NoMemory>
    requires kind { IsOptionKind index.now.kind }
    requires size { size_of index.now ≡ len lists.now.content }
    requires small { size_of index.now < 2 ^ 63 }
    requires starts { AreListEnds (present_lane index.now) lists.now.starts lists.now.stops
        lists.now.starts }
    requires stops { AreListEnds (present_lane index.now) lists.now.starts lists.now.stops
        lists.now.stops }
    ensures { let counts = present_lane index.now in
        IfOk result (AreEnds counts lists.now.starts lists.now.stops) }
{
    let bounds = Bounds::new(alloc, lists, arena, steps)?;
    let places = index_of(alloc, index, arena, steps)?;
    match ends_in_order(&places, &bounds, arena)? {
        Some(ends) => Ok(ends),
        None => counted_ends(alloc, index, lists, arena, steps),
    }
}
