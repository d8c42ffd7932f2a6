//! The lists of an array that hold an item.
ghost use Rattle.std.specs.Prelude.{◌≡◌, ◌<◌, ◌^◌, true, IfOk, length};
ghost use Rattle.awk_types.specs.Simple.{present};
ghost use Rattle.awk_lanes.specs.Places.{size_of, AreSpans};
ghost use Rattle.awk_layout.specs.Typing.{array_type};
ghost use Rattle.awk_counts.specs.Counted.{first_of, places_lane};
ghost use Rattle.awk_open.specs.Opens.{OpensNothing, OpensOption};
ghost use Rattle.awk_types.specs.Predicates.{is_list_or_unknown};
ghost use Rattle.awk_lists.specs.Held.{held_at, held_counts, AreLengths, AreHeld};

use awk_counts::present_counts;
use awk_gather::gather;
use awk_gather_lanes::gather_lane;
use awk_index::{Index, index_of};
use awk_lanes::{Arena, IndexMaker, Kind, Lane, LaneMaker, Steps, number, place_in};
use awk_layout::Array;
use awk_list_ends::length_between;
use awk_open::{Opened, open_array};
use awk_types::NoMemory;
use std::alloc::Global;
use std::sync::ledger::Ledger;

/// The lists of an array that hold an item.
#[derive(Drop)]
pub(crate) struct Held<'a> {
    /// How many stand before each item of the array, and how many there are.
    pub(crate) counts: Lane<'a>,
    pub(crate) lists: Array<'a>,
}

/// 1 where the list at a place holds an item, else 0.
#[inline(always)]
fn one_if_held(starts: &Index, stops: &Index, i: u64) -> u64
    requires within { i < size_of starts.now }
    requires spans { AreSpans starts.now stops.now 9223372036854775807 }
    ensures { result ≡ length (held_at starts.now stops.now i) }
{
    if length_between(starts, stops, i) > 0 {
        1
    } else {
        0
    }
}

/// How many of the first lists hold an item: 0, then one more after each that does.
fn held_counts<'a>(starts: &Index, stops: &Index, arena: &'a Arena) -> Result<Lane<'a>, NoMemory>
    requires spans { AreSpans starts.now stops.now 9223372036854775807 }
    requires fits { size_of starts.now < 2 ^ 63 }
    ensures { IfOk result (λ r. r ≡ held_counts starts.now stops.now) }
{
    let mut maker = IndexMaker::new(starts.len() + 1, arena)?;
    let mut count = 0;
    maker.push(number(0));
    for i in 0..starts.len() {
        count += one_if_held(starts, stops, i);
        maker.push(number(count));
    }
    Ok(maker.finish())
}

/// The places of the lists that hold an item, of which there are n.
fn held_places<'a>(
    starts: &Index,
    stops: &Index,
    n: u64,
    arena: &'a Arena,
) -> Result<Lane<'a>, NoMemory>
    requires spans { AreSpans starts.now stops.now 9223372036854775807 }
    requires fits { size_of starts.now < 2 ^ 63 }
    requires count { n ≡ length (first_of (held_at starts.now stops.now) (size_of starts.now)) }
    ensures { let places = first_of (held_at starts.now stops.now) (size_of starts.now) in
        IfOk result (λ r. r ≡ places_lane places) }
{
    let mut maker = IndexMaker::new(n, arena)?;
    for i in 0..starts.len() {
        if length_between(starts, stops, i) > 0 {
            maker.push(number(i));
        }
    }
    Ok(maker.finish())
}

/// No lists.
fn none_held<'a>(alloc: Global, x: &Array<'a>, arena: &'a Arena) -> Result<Held<'a>, NoMemory>
    requires { OpensNothing x.now }
    ensures { IfOk result (λ r. AreHeld x.now r.counts r.lists) }
{
    let mut counts = LaneMaker::new(Kind::I64, 1, arena)?;
    counts.push(number(0));
    let _ = x.len();
    Ok(Held {
        counts: counts.finish(),
        lists: x.copy(alloc)?,
    })
}

/// Those of lists by their starts and stops.
fn held_among<'a, L: Ledger>(
    alloc: Global,
    x: &Array<'a>,
    starts: &Lane<'a>,
    stops: &Lane<'a>,
    arena: &'a Arena,
    steps: &mut Steps<L>,
) -> Result<Held<'a>, NoMemory>
    requires lists { is_list_or_unknown (array_type x.now) ≡ true }
    requires lengths { AreLengths x.now starts.now stops.now }
    ensures { IfOk result (λ r. AreHeld x.now r.counts r.lists) }
{
    let starts = index_of(alloc, starts, arena, steps)?;
    let stops = index_of(alloc, stops, arena, steps)?;
    let counts = held_counts(&starts, &stops, arena)?;
    let n = place_in(&counts, starts.len(), steps);
    let places = held_places(&starts, &stops, n, arena)?;
    let lists = gather(alloc, x, &places, arena, steps)?;
    let _ = lists.len();
    Ok(Held { counts, lists })
}

/// Those of an array, none of whose lists is null.
fn plain_held<'a, L: Ledger>(
    alloc: Global,
    x: &Array<'a>,
    arena: &'a Arena,
    steps: &mut Steps<L>,
) -> Result<Held<'a>, NoMemory>
    requires { is_list_or_unknown (array_type x.now) ≡ true }
    ensures { IfOk result (λ r. AreHeld x.now r.counts r.lists) }
{
    match open_array(alloc, x, arena, steps)? {
        Opened::Empty => none_held(alloc, x, arena),
        Opened::Items(lists) => {
            held_among(alloc, x, lists.starts(), lists.stops(), arena, steps)
        }
        _ => unreachable!(),
    }
}

/// Those of an option: null holds no item.
fn optional_held<'a, L: Ledger>(
    alloc: Global,
    x: &Array<'a>,
    index: &Lane<'a>,
    content: &Array<'a>,
    arena: &'a Arena,
    steps: &mut Steps<L>,
) -> Result<Held<'a>, NoMemory>
    requires lists { is_list_or_unknown (array_type content.now) ≡ true }
    requires opens { OpensOption index.now content.now x.now }
    ensures { IfOk result (λ r. AreHeld x.now r.counts r.lists) }
{
    let held = plain_held(alloc, content, arena, steps)?;
    let places = present_counts(alloc, index, arena, steps)?;
    let counts = gather_lane(&held.counts, &places, arena, steps)?;
    Ok(Held {
        counts,
        lists: held.lists,
    })
}

/// The lists of an array that hold an item, in order. Null holds none.
pub(crate) fn held_of<'a, L: Ledger>(
    alloc: Global,
    x: &Array<'a>,
    arena: &'a Arena,
    steps: &mut Steps<L>,
) -> Result<Held<'a>, NoMemory>
    requires { is_list_or_unknown (present (array_type x.now)) ≡ true }
    ensures { IfOk result (λ r. AreHeld x.now r.counts r.lists) }
{
    match open_array(alloc, x, arena, steps)? {
        Opened::Empty => none_held(alloc, x, arena),
        Opened::Items(lists) => {
            held_among(alloc, x, lists.starts(), lists.stops(), arena, steps)
        }
        Opened::Option { index, content } => {
            optional_held(alloc, x, &index, &content, arena, steps)
        }
        _ => unreachable!(),
    }
}
