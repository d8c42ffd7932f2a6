//! How many items lists have together, and counts of lists of which no item is null: their lengths.
ghost use Rattle.std.specs.Prelude.{◌≡◌, ◌<◌, ◌≤◌, ℕ, true, IfOk, IfSome};
ghost use Rattle.awk_lanes.specs.Counted.{before};
ghost use Rattle.awk_lanes.specs.Places.{size_of, at};
ghost use Rattle.awk_layout.specs.Typing.{array_type};
ghost use Rattle.awk_layout.specs.Valid.{len};
ghost use Rattle.awk_list_functions.specs.Made.{IsMade};
ghost use Rattle.awk_types.specs.Predicates as predicates;
ghost use Rattle.awk_parts.specs.Spans.{span_count, span_size, AreEnds, AreOrdered};
ghost use Rattle.awk_reduce.specs.Lists.{AreLengths, IsWithin};
ghost use Rattle.awk_reduce.specs.Reduce.{reducer_function};
ghost use Rattle.awk_reduce.specs.declared.reducer.Reducer.TheVariants as Reducer;

use awk_columns::Lists;
use awk_lanes::{Arena, IndexMaker, Kind, Lane, Lengths, Num, Numbers, Steps, made_lane, number};
use awk_layout::Node;
use awk_list_functions::{Made, Spoil};
use awk_parts::{Spans, span_length};
use awk_types::NoMemory;
use std::sync::ledger::Ledger;

/// The most items that lists may have together.
const ITEM_LIMIT: u64 = 1_073_741_824;

/// The most lists, and the most items of each, that are counted without a look whether they are too
/// many so far.
const MOST_LISTS: u64 = 2_147_483_648;

const MOST_ITEMS: u64 = 4_294_967_296;

/// Whether n lists have no more items together than the limit, however many each has.
fn long_are_within<S: Lengths, L: Ledger>(n: u64, source: &S, steps: &mut Steps<L>) -> bool
    requires ready { S.IsReady source.now }
    requires within { n ≤ S.size source.now }
    ensures { IsWithin result (before (S.length source.now) n) }
{
    let mut total = 0;
    for i in 0..n {
        let length = source.length(i, steps);
        if length > ITEM_LIMIT - total {
            return false;
        }
        total += length;
    }
    true
}

/// How many items n lists have together, which are few lists of few items.
fn total_of<S: Lengths, L: Ledger>(n: u64, source: &S, steps: &mut Steps<L>) -> u64
    requires ready { S.IsReady source.now }
    requires within { n ≤ S.size source.now }
    requires few { n ≤ 2147483648 }
    requires short { (i : ℕ) → i < n → S.length source.now i ≤ 4294967296 }
    ensures { result ≡ before (S.length source.now) n }
{
    let mut total = 0;
    for i in 0..n {
        total += source.length(i, steps);
    }
    total
}

/// Whether n lists, each of no more than so many items, have no more together than the limit, by a
/// look at each.
fn are_counted_within<S: Lengths, L: Ledger>(
    n: u64,
    most: u64,
    source: &S,
    steps: &mut Steps<L>,
) -> bool
    requires ready { S.IsReady source.now }
    requires within { n ≤ S.size source.now }
    requires most { (i : ℕ) → i < n → S.length source.now i ≤ most }
    ensures { IsWithin result (before (S.length source.now) n) }
{
    if n > MOST_LISTS {
        return long_are_within(n, source, steps);
    }
    if most > MOST_ITEMS {
        return long_are_within(n, source, steps);
    }
    total_of(n, source, steps) <= ITEM_LIMIT
}

/// Whether n lists, each of no more than so many items, have no more together than the limit. Where
/// it is known how many they have, as of lists in a row, none is looked at.
pub(crate) fn are_within<S: Lengths, L: Ledger>(
    known: Option<u64>,
    n: u64,
    most: u64,
    source: &S,
    steps: &mut Steps<L>,
) -> bool
    requires known { IfSome known (λ total. total ≡ before (S.length source.now) n) }
    requires ready { S.IsReady source.now }
    requires within { n ≤ S.size source.now }
    requires most { (i : ℕ) → i < n → S.length source.now i ≤ most }
    ensures { IsWithin result (before (S.length source.now) n) }
{
    match known {
        Some(total) => total <= ITEM_LIMIT,
        None => are_counted_within(n, most, source, steps),
    }
}

/// The lengths of lists.
#[derive(Drop)]
pub(crate) struct SpanLengths<'b, 'a> {
    pub spans: &'b Spans<'a>,
}

impl<'b, 'a> Lengths for SpanLengths<'b, 'a> {
    ghost use Rattle.awk_parts.specs.Spans.{span_count, span_size, AreOrdered};

    ghost length = { λ f. span_size f.spans.now };

    ghost size = { λ f. span_count f.spans.now };

    ghost IsReady = { λ f. AreOrdered 9223372036854775807 f.spans.now };

    fn length<L: Ledger>(&self, i: u64, _steps: &mut Steps<L>) -> u64 {
        span_length(self.spans, i)
    }
}

impl<'b, 'a> Numbers for SpanLengths<'b, 'a> {
    ghost use Rattle.std.specs.Prelude.{pos};
    ghost use Rattle.awk_lanes.specs.declared.kind.Kind.TheVariants as Kind;
    ghost use Rattle.awk_parts.specs.Spans.{span_count, span_size, AreOrdered};

    ghost kind = { λ _. Kind.I64 };

    ghost at = { λ f i. pos (span_size f.spans.now i) };

    ghost size = { λ f. span_count f.spans.now };

    ghost IsReady = { λ f. AreOrdered 9223372036854775807 f.spans.now };

    fn number<L: Ledger>(&self, i: u64, _steps: &mut Steps<L>) -> Num {
        number(span_length(self.spans, i))
    }
}

/// The lengths of lists, however many and however long these are.
fn long_lengths<'a, L: Ledger>(
    spans: &Spans,
    arena: &'a Arena,
    steps: &mut Steps<L>,
) -> Result<Option<Lane<'a>>, NoMemory>
    requires { AreOrdered 9223372036854775807 spans.now }
    ensures { IfOk result (AreLengths spans.now) }
{
    let count = spans.starts.len() as u64;
    let source = SpanLengths { spans };
    if long_are_within(count, &source, steps) {
        Ok(Some(made_lane(Kind::I64, count, &source, arena, steps)?))
    } else {
        Ok(None)
    }
}

/// The lengths of few lists of few items, which are counted as their lengths are put down.
#[tactic(auto, using(awk_lanes::proofs::MadeLanes::making))]
fn few_lengths<'a>(spans: &Spans, arena: &'a Arena) -> Result<Option<Lane<'a>>, NoMemory>
    requires ordered { AreOrdered 9223372036854775807 spans.now }
    requires few { span_count spans.now ≤ 2147483648 }
    requires short { (i : ℕ) → i < span_count spans.now → span_size spans.now i ≤ 4294967296 }
    ensures { IfOk result (AreLengths spans.now) }
{
    let count = spans.starts.len() as u64;
    let mut maker = IndexMaker::new(count, arena)?;
    let mut total = 0;
    for i in 0..count {
        let length = span_length(spans, i);
        maker.push(number(length));
        total += length;
    }
    if total > ITEM_LIMIT {
        return Ok(None);
    }
    Ok(Some(maker.finish()))
}

/// The lengths of lists, of which none has more than so many items, or none where these are too
/// many together.
fn lane_of_lengths<'a, L: Ledger>(
    spans: &Spans,
    most: u64,
    arena: &'a Arena,
    steps: &mut Steps<L>,
) -> Result<Option<Lane<'a>>, NoMemory>
    requires ordered { AreOrdered 9223372036854775807 spans.now }
    requires most { (i : ℕ) → i < span_count spans.now → span_size spans.now i ≤ most }
    ensures { IfOk result (AreLengths spans.now) }
{
    if spans.starts.len() as u64 > MOST_LISTS {
        return long_lengths(spans, arena, steps);
    }
    if most > MOST_ITEMS {
        return long_lengths(spans, arena, steps);
    }
    few_lengths(spans, arena)
}

/// How many items each list has, of lists none of whose items is null, or that they are too many
/// together.
pub(crate) fn lengths<'a, L: Ledger>(
    lists: &Lists<'a>,
    spans: &Spans,
    arena: &'a Arena,
    steps: &mut Steps<L>,
) -> Result<Made<'a>, NoMemory>
    requires leaves { predicates.is_leaf (array_type lists.now.content) ≡ true }
    requires ends { AreEnds (size_of lists.now.starts) (at lists.now.starts) (at lists.now.stops)
        spans.now }
    requires ordered { AreOrdered (len lists.now.content) spans.now }
    ensures { IfOk result (IsMade (reducer_function Reducer.Count) lists.now.class
        lists.now.starts lists.now.stops lists.now.content) }
{
    let most = lists.content().len();
    match lane_of_lengths(spans, most, arena, steps)? {
        Some(lengths) => Ok(Made::Singles(Node::numpy(lengths, steps))),
        None => Ok(Made::Spoiled(Spoil::Size)),
    }
}
