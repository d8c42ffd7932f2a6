//! What is told of numbers as types: a loop over parts asks no more what is told, nor of which kind
//! the numbers are.
ghost use Rattle.std.specs.Prelude.{◌≡◌, ◌-◌, ◌≤◌, length, map, IfOk};
ghost use Rattle.std.specs.List.{slice_range};
ghost use Rattle.awk_lanes.specs.Made.{lane_of};
ghost use Rattle.awk_lanes.specs.Numbers.{int_of, IsOf};
ghost use Rattle.awk_numbers.specs.Folds.{whole_numbers, tallied, tally_kind};
ghost use Rattle.awk_parts.specs.Lanes.{tallied_at};
ghost use Rattle.awk_parts.specs.Spans.{span_count, AreSpanned};

use crate::parts::{Parts, Span, span_of};
use awk_cells::{Cell, are_all_true, is_some_true, nonzero_in};
use awk_lanes::{Arena, Kind, Lane, NoMemory, Num, Numbers, Steps, made_lane, number};
use awk_numbers::Tally;
use std::marker::PhantomData;
use std::sync::ledger::Ledger;

/// What is told of numbers.
pub(crate) trait Rule<const W: usize, C: Cell<W>> {
    ghost use Rattle.awk_numbers.specs.Folds.{tallied, tally_kind};
    ghost use Rattle.awk_lanes.specs.Numbers.{int_of, IsOf};
    ghost use Rattle.awk_numbers.specs.declared.tallies.Tally.{Tally};

    ghost how: { Tally };

    /// What is told of numbers that fit an i64.
    fn told(groups: &[[u8; W]]) -> Num
        requires few { length groups.now ≤ 1073741824 }
        ensures number { int_of result ≡ tallied how (map C.number groups.now) }
        ensures kind { IsOf (tally_kind how) result };
}

/// Whether some is not 0.
struct SomeTrue;

impl<const W: usize, C: Cell<W>> Rule<W, C> for SomeTrue {
    ghost use Rattle.awk_numbers.specs.declared.tallies.Tally.TheVariants.{Any};

    ghost how = { Any };

    #[inline(always)]
    fn told(groups: &[[u8; W]]) -> Num {
        Num::Truth(is_some_true::<W, C>(groups))
    }
}

/// Whether none is 0.
struct AllTrue;

impl<const W: usize, C: Cell<W>> Rule<W, C> for AllTrue {
    ghost use Rattle.awk_numbers.specs.declared.tallies.Tally.TheVariants.{All};

    ghost how = { All };

    #[inline(always)]
    fn told(groups: &[[u8; W]]) -> Num {
        Num::Truth(are_all_true::<W, C>(groups))
    }
}

/// How many are not 0.
struct NonzeroCount;

impl<const W: usize, C: Cell<W>> Rule<W, C> for NonzeroCount {
    ghost use Rattle.awk_numbers.specs.declared.tallies.Tally.TheVariants.{Nonzero};

    ghost how = { Nonzero };

    #[inline(always)]
    fn told(groups: &[[u8; W]]) -> Num {
        number(nonzero_in::<W, C>(groups))
    }
}

/// How many there are.
struct ItemCount;

impl<const W: usize, C: Cell<W>> Rule<W, C> for ItemCount {
    ghost use Rattle.awk_numbers.specs.declared.tallies.Tally.TheVariants.{Items};

    ghost how = { Items };

    #[inline(always)]
    fn told(groups: &[[u8; W]]) -> Num {
        number(groups.len() as u64)
    }
}

/// What is told of the numbers of cells from a start below a stop.
#[inline(always)]
fn told_of<const W: usize, C: Cell<W>, R: Rule<W, C>>(groups: &[[u8; W]], span: Span) -> Num
    requires order { span.start ≤ span.stop }
    requires within { span.stop ≤ length groups.now }
    requires few { span.stop - span.start ≤ 1073741824 }
    ensures number { int_of result
        ≡ tallied R.how (slice_range (map C.number groups.now) span.start span.stop) }
    ensures kind { IsOf (tally_kind R.how) result }
{
    R::told(&groups[span.start as usize..span.stop as usize])
}

/// What is told of each part of numbers of cells.
#[derive(Drop)]
struct CellTallies<'c, 'b, 'a, const W: usize, C: Cell<W>, R: Rule<W, C>> {
    groups: &'c [[u8; W]],
    parts: &'c Parts<'b, 'a>,
    cell: PhantomData<C>,
    rule: PhantomData<R>,
}

impl<'c, 'b, 'a, const W: usize, C: Cell<W>, R: Rule<W, C>> Numbers
    for CellTallies<'c, 'b, 'a, W, C, R> {
    ghost use Rattle.std.specs.Prelude.{◌≡◌, ◌≤◌, map};
    ghost use Rattle.awk_numbers.specs.Folds.{whole_numbers, tally_kind};
    ghost use Rattle.awk_parts.specs.Lanes.{tallied_at};
    ghost use Rattle.awk_parts.specs.Spans.{span_count, AreSpanned};

    ghost kind = { λ _. tally_kind R.how };

    ghost at = { λ f. tallied_at R.how (whole_numbers f.parts.now.numbers.now)
        f.parts.now.spans.now };

    ghost size = { λ f. span_count f.parts.now.spans.now };

    ghost IsReady = { λ f. (W ≤ 8)
        × (whole_numbers f.parts.now.numbers.now ≡ map C.number f.groups.now)
        × AreSpanned (whole_numbers f.parts.now.numbers.now) f.parts.now.spans.now };

    #[inline(always)]
    fn number<L: Ledger>(&self, i: u64, _steps: &mut Steps<L>) -> Num {
        told_of::<W, C, R>(self.groups, span_of(self.parts, i))
    }
}

/// What a rule tells of each part of numbers of cells, as a lane.
fn rule_lane<'a, const W: usize, C: Cell<W>, R: Rule<W, C>, L: Ledger>(
    kind: Kind,
    groups: &[[u8; W]],
    parts: &Parts,
    arena: &'a Arena,
    steps: &mut Steps<L>,
) -> Result<Lane<'a>, NoMemory>
    requires width { W ≤ 8 }
    requires kind { tally_kind R.how ≡ kind }
    requires numbers { whole_numbers parts.now.numbers.now ≡ map C.number groups.now }
    requires parts { AreSpanned (whole_numbers parts.now.numbers.now) parts.now.spans.now }
    ensures { let count = span_count parts.now.spans.now in
        IfOk result (λ r. r ≡ lane_of kind count
        (tallied_at R.how (whole_numbers parts.now.numbers.now) parts.now.spans.now)) }
{
    let count = parts.spans.starts.len() as u64;
    let spans = *parts.spans;
    let parts = Parts {
        numbers: parts.numbers,
        spans: &spans,
    };
    let tallies: CellTallies<'_, '_, '_, W, C, R> = CellTallies {
        groups,
        parts: &parts,
        cell: PhantomData,
        rule: PhantomData,
    };
    made_lane(kind, count, &tallies, arena, steps)
}

/// What is told of each part of numbers of cells, as a lane.
pub(crate) fn cell_tallies<'a, const W: usize, C: Cell<W>, L: Ledger>(
    how: Tally,
    groups: &[[u8; W]],
    parts: &Parts,
    arena: &'a Arena,
    steps: &mut Steps<L>,
) -> Result<Lane<'a>, NoMemory>
    requires width { W ≤ 8 }
    requires numbers { whole_numbers parts.now.numbers.now ≡ map C.number groups.now }
    requires parts { AreSpanned (whole_numbers parts.now.numbers.now) parts.now.spans.now }
    ensures { let count = span_count parts.now.spans.now in
        IfOk result (λ r. r ≡ lane_of (tally_kind how) count
        (tallied_at how (whole_numbers parts.now.numbers.now) parts.now.spans.now)) }
{
    match how {
        Tally::Items => { rule_lane::<W, C, ItemCount, L>(Kind::I64, groups, parts, arena, steps) }
        Tally::Nonzero => {
            rule_lane::<W, C, NonzeroCount, L>(Kind::I64, groups, parts, arena, steps)
        }
        Tally::Any => { rule_lane::<W, C, SomeTrue, L>(Kind::Bool, groups, parts, arena, steps) }
        Tally::All => { rule_lane::<W, C, AllTrue, L>(Kind::Bool, groups, parts, arena, steps) }
    }
}
