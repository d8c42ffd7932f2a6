//! Lists by their starts and stops: how many items they have together, and where these lie.
ghost use Rattle.std.specs.Prelude.{◌≡◌, ℕ, ◌+◌, ◌-◌, ◌<◌, ◌≤◌, ◌^◌, length, IfOk, IfSome, IsTrue};
ghost use Rattle.std.specs.List.{range_with_len};
ghost use Rattle.awk_lanes.specs.Places.{size_of, AreSpans};
ghost use Rattle.awk_counts.specs.Counted.{places_lane, span_at, spans, IsRow, IsTotal};
ghost use Rattle.awk_columns.specs.Lists.{span_length};

use awk_index::Index;
use awk_lanes::{Arena, IndexMaker, Lane, Lengths, NoMemory, Steps, number, to_place};
use std::sync::ledger::Ledger;

/// Where a list lies in the content: its items begin at a place, and are so many.
#[derive(Clone, Copy)]
pub struct Span {
    pub start: u64,
    pub length: u64,
}

/// The list at place i. An empty one begins at 0.
#[inline(always)]
pub fn span_of(starts: &Index, stops: &Index, i: u64) -> Span
    requires spans { AreSpans starts.now stops.now (2 ^ 63 - 1) }
    requires within { i < size_of starts.now }
    ensures places { range_with_len result.start result.length ≡ span_at starts.now stops.now i }
    ensures length { result.length ≡ span_length starts.now stops.now i }
    ensures small { result.start + result.length < 2 ^ 63 }
    ensures within { (n : ℕ) → AreSpans starts.now stops.now n →
        result.start + result.length ≤ n }
{
    let start = starts.number(i);
    let stop = stops.number(i);
    if start == stop {
        Span {
            start: 0,
            length: 0,
        }
    } else {
        Span {
            start: to_place(start),
            length: to_place(stop - start),
        }
    }
}

/// How many items lists have together, or none where they are more than the limit.
pub fn total(limit: u64, starts: &Index, stops: &Index) -> Option<u64>
    requires spans { AreSpans starts.now stops.now (2 ^ 63 - 1) }
    ensures { IsTotal limit starts.now stops.now result }
{
    let mut sum = 0;
    for i in 0..starts.len() {
        let span = span_of(starts, stops, i);
        if span.length > limit - sum {
            return None;
        }
        sum += span.length;
    }
    Some(sum)
}

/// The places of the items of lists, of which there are n.
pub fn span_lane<'a>(
    starts: &Index,
    stops: &Index,
    n: u64,
    arena: &'a Arena,
) -> Result<Lane<'a>, NoMemory>
    requires spans { AreSpans starts.now stops.now (2 ^ 63 - 1) }
    requires total { n ≡ length (spans starts.now stops.now) }
    ensures { IfOk result (λ r. r ≡ places_lane (spans starts.now stops.now)) }
{
    let mut maker = IndexMaker::new(n, arena)?;
    for i in 0..starts.len() {
        let span = span_of(starts, stops, i);
        for k in 0..span.length {
            maker.push(number(span.start + k));
        }
    }
    Ok(maker.finish())
}

/// Where the first list that is not empty begins, or 0.
fn first_start(starts: &Index, stops: &Index) -> u64
    requires spans { AreSpans starts.now stops.now (2 ^ 63 - 1) }
    ensures { result < 2 ^ 63 }
{
    for i in 0..starts.len() {
        let span = span_of(starts, stops, i);
        if span.length > 0 {
            return span.start;
        }
    }
    0
}

/// Whether each list that is not empty begins where the one before ends, from a first start on.
fn is_row(starts: &Index, stops: &Index, first: u64) -> bool
    requires spans { AreSpans starts.now stops.now (2 ^ 63 - 1) }
    requires total { length (spans starts.now stops.now) < 2 ^ 63 }
    requires first { first < 2 ^ 63 }
    ensures { let places = spans starts.now stops.now in
        IsTrue result → places ≡ range_with_len first (length places) }
{
    let mut end = first;
    for i in 0..starts.len() {
        let span = span_of(starts, stops, i);
        if span.length > 0 {
            if span.start != end {
                return false;
            }
        }
        end += span.length;
    }
    true
}

/// Where the items of lists begin, if they lie in a row among n items.
pub fn row_start(starts: &Index, stops: &Index, total: u64, n: u64) -> Option<u64>
    requires spans { AreSpans starts.now stops.now (2 ^ 63 - 1) }
    requires total { total ≡ length (spans starts.now stops.now) }
    requires small { total < 2 ^ 63 }
    ensures { IfSome result (IsRow starts.now stops.now n) }
{
    let first = first_start(starts, stops);
    if first + total <= n {
        if is_row(starts, stops, first) {
            return Some(first);
        }
    }
    None
}

/// Lists by their ends.
#[derive(Drop)]
pub struct Ends<'r, 'a> {
    pub starts: &'r Index<'a>,
    pub stops: &'r Index<'a>,
}

impl<'r, 'a> Lengths for Ends<'r, 'a> {
    ghost use Rattle.std.specs.Prelude.{◌-◌, ◌^◌};
    ghost use Rattle.awk_lanes.specs.Places.{size_of, AreSpans};
    ghost use Rattle.awk_columns.specs.Lists.{span_length};

    ghost length = { λ x. span_length x.starts.now x.stops.now };

    ghost size = { λ x. size_of x.starts.now };

    ghost IsReady = { λ x. AreSpans x.starts.now x.stops.now (2 ^ 63 - 1) };

    fn length<L: Ledger>(&self, i: u64, _steps: &mut Steps<L>) -> u64 {
        span_of(self.starts, self.stops, i).length
    }
}
