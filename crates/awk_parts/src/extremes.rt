//! The least or the greatest number of each part.
ghost use Rattle.std.specs.Prelude.{◌≡◌, pos, map, IfOk, IfSome};
ghost use Rattle.awk_lanes.specs.Made.{lane_of};
ghost use Rattle.awk_lanes.specs.Numbers.{number, int_of, IsOf};
ghost use Rattle.awk_lanes.specs.declared.kind.Kind.TheVariants as Kind;
ghost use Rattle.awk_numbers.specs.Folds.{whole_numbers, lane_numbers};
ghost use Rattle.awk_parts.specs.Lanes.{extreme_at};
ghost use Rattle.awk_parts.specs.Spans.{span_count, AreSpanned};

use crate::naturals::natural_extremes;
use crate::parts::{Parts, span_of};
use crate::short::short_extremes;
use crate::wide::{first_place, groups_in, wide_extreme};
use awk_cells::truth_groups;
use awk_lanes::{Arena, Kind, Lane, NoMemory, Num, Numbers, Steps, made_lane};
use awk_numbers::{Extreme, Whole};
use std::sync::ledger::Ledger;

/// 0 as code holds the numbers of a kind.
pub fn zero_of(kind: Kind) -> Num
    ensures number { int_of result ≡ pos 0 }
    ensures kind { IsOf kind result }
{
    match kind {
        Kind::Bool => Num::Truth(false),
        Kind::I8 | Kind::I16 | Kind::I32 | Kind::I64 => Num::Int(0),
        Kind::U8 | Kind::U16 | Kind::U32 | Kind::U64 => Num::Nat(0),
    }
}

/// The extremes of the parts of a lane's numbers.
#[derive(Drop)]
struct Extremes<'c, 'b, 'a> {
    how: Extreme,
    lane: &'c Lane<'a>,
    parts: &'c Parts<'b, 'a>,
}

impl<'c, 'b, 'a> Numbers for Extremes<'c, 'b, 'a> {
    ghost use Rattle.std.specs.Prelude.{◌≡◌};
    ghost use Rattle.awk_numbers.specs.Folds.{whole_numbers, lane_numbers};
    ghost use Rattle.awk_parts.specs.Lanes.{extreme_at};
    ghost use Rattle.awk_parts.specs.Spans.{span_count, AreSpanned};

    ghost kind = { λ f. f.lane.now.kind };

    ghost at = { λ f. extreme_at f.how (lane_numbers f.lane.now) f.parts.now.spans.now };

    ghost size = { λ f. span_count f.parts.now.spans.now };

    ghost IsReady = { λ f. (whole_numbers f.parts.now.numbers.now ≡ lane_numbers f.lane.now)
        × AreSpanned (whole_numbers f.parts.now.numbers.now) f.parts.now.spans.now };

    fn number<L: Ledger>(&self, i: u64, steps: &mut Steps<L>) -> Num {
        let span = span_of(self.parts, i);
        match first_place(self.how, self.parts.numbers, span) {
            Some(k) => self.lane.at(span.start + k, steps),
            None => zero_of(self.lane.kind()),
        }
    }
}

/// The extremes of the parts of numbers of i64.
#[derive(Drop)]
struct WideExtremes<'c, 'b, 'a> {
    how: Extreme,
    groups: &'c [[u8; 8]],
    parts: &'c Parts<'b, 'a>,
}

impl<'c, 'b, 'a> Numbers for WideExtremes<'c, 'b, 'a> {
    ghost use Rattle.std.specs.Prelude.{◌≡◌, map};
    ghost use Rattle.awk_lanes.specs.Numbers.{number};
    ghost use Rattle.awk_lanes.specs.declared.kind.Kind.TheVariants as Kind;
    ghost use Rattle.awk_numbers.specs.Folds.{whole_numbers};
    ghost use Rattle.awk_parts.specs.Lanes.{extreme_at};
    ghost use Rattle.awk_parts.specs.Spans.{span_count, AreSpanned};

    ghost kind = { λ _. Kind.I64 };

    ghost at = { λ f. extreme_at f.how (whole_numbers f.parts.now.numbers.now)
        f.parts.now.spans.now };

    ghost size = { λ f. span_count f.parts.now.spans.now };

    ghost IsReady = { λ f.
        (whole_numbers f.parts.now.numbers.now ≡ map (number Kind.I64) f.groups.now)
        × AreSpanned (whole_numbers f.parts.now.numbers.now) f.parts.now.spans.now };

    fn number<L: Ledger>(&self, i: u64, _steps: &mut Steps<L>) -> Num {
        Num::Int(wide_extreme(self.how, self.groups, span_of(self.parts, i)))
    }
}

/// The least or the greatest number of each part of numbers of i64, and 0 for a part of none.
fn wide_extremes_of<'a, L: Ledger>(
    how: Extreme,
    groups: &[[u8; 8]],
    parts: &Parts,
    arena: &'a Arena,
    steps: &mut Steps<L>,
) -> Result<Lane<'a>, NoMemory>
    requires numbers { whole_numbers parts.now.numbers.now ≡ map (number Kind.I64) groups.now }
    requires parts { AreSpanned (whole_numbers parts.now.numbers.now) parts.now.spans.now }
    ensures { IfOk result (λ r. r ≡ lane_of Kind.I64 (span_count parts.now.spans.now)
        (extreme_at how (whole_numbers parts.now.numbers.now) parts.now.spans.now)) }
{
    let count = parts.spans.starts.len() as u64;
    let spans = *parts.spans;
    let parts = Parts {
        numbers: parts.numbers,
        spans: &spans,
    };
    let extremes = WideExtremes {
        how,
        groups,
        parts: &parts,
    };
    made_lane(Kind::I64, count, &extremes, arena, steps)
}

/// The numbers of a lane of i64 as groups of eight bytes.
fn wide_groups<'a>(lane: &Lane, numbers: &Whole<'a>) -> Option<&'a [[u8; 8]]>
    ensures { IfSome result (λ gs. (lane.now.kind ≡ Kind.I64)
        × (whole_numbers numbers.now ≡ map (number Kind.I64) gs.now)) }
{
    let groups = groups_in(numbers)?;
    match lane.kind() {
        Kind::I64 => Some(groups),
        _ => None,
    }
}

/// The least or the greatest number of each part of a lane's numbers, which may need up to 64 bits.
fn long_extremes<'a, L: Ledger>(
    how: Extreme,
    lane: &Lane,
    parts: &Parts,
    arena: &'a Arena,
    steps: &mut Steps<L>,
) -> Result<Lane<'a>, NoMemory>
    requires numbers { whole_numbers parts.now.numbers.now ≡ lane_numbers lane.now }
    requires parts { AreSpanned (whole_numbers parts.now.numbers.now) parts.now.spans.now }
    ensures { IfOk result (λ r. r ≡ lane_of lane.now.kind (span_count parts.now.spans.now)
        (extreme_at how (lane_numbers lane.now) parts.now.spans.now)) }
{
    match wide_groups(lane, parts.numbers) {
        Some(groups) => wide_extremes_of(how, groups, parts, arena, steps),
        None => {
            let count = parts.spans.starts.len() as u64;
            let extremes = Extremes { how, lane, parts };
            made_lane(lane.kind(), count, &extremes, arena, steps)
        }
    }
}

/// The least or the greatest number of each part of a lane's numbers, and 0 for a part of none.
/// There is a loop for each kind of numbers that fit an i32, one for those of i64 and one for those
/// of u64.
pub fn extremes_of<'a, L: Ledger>(
    how: Extreme,
    lane: &Lane,
    parts: &Parts,
    arena: &'a Arena,
    steps: &mut Steps<L>,
) -> Result<Lane<'a>, NoMemory>
    requires numbers { whole_numbers parts.now.numbers.now ≡ lane_numbers lane.now }
    requires parts { AreSpanned (whole_numbers parts.now.numbers.now) parts.now.spans.now }
    ensures { IfOk result (λ r. r ≡ lane_of lane.now.kind (span_count parts.now.spans.now)
        (extreme_at how (lane_numbers lane.now) parts.now.spans.now)) }
{
    match *parts.numbers {
        Whole::Truths(bytes) => {
            let groups = truth_groups(bytes);
            short_extremes::<1, bool, L>(how, lane, groups, parts, arena, steps)
        }
        Whole::I8(groups) => short_extremes::<1, i8, L>(how, lane, groups, parts, arena, steps),
        Whole::I16(groups) => short_extremes::<2, i16, L>(how, lane, groups, parts, arena, steps),
        Whole::U8(groups) => short_extremes::<1, u8, L>(how, lane, groups, parts, arena, steps),
        Whole::U16(groups) => short_extremes::<2, u16, L>(how, lane, groups, parts, arena, steps),
        Whole::I32(groups) => short_extremes::<4, i32, L>(how, lane, groups, parts, arena, steps),
        Whole::U64(groups) => natural_extremes(how, lane, groups, parts, arena, steps),
        Whole::I64(_) | Whole::U32(_) => long_extremes(how, lane, parts, arena, steps),
    }
}
