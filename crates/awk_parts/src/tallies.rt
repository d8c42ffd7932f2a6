//! Counts of parts, and whether some or all of their numbers are not 0.
ghost use Rattle.std.specs.Prelude.{◌≡◌, map, pos, IfOk};
ghost use Rattle.awk_lanes.specs.Made.{lane_of};
ghost use Rattle.awk_lanes.specs.Numbers.{element};
ghost use Rattle.awk_lanes.specs.declared.kind.Kind.TheVariants as Kinds;
ghost use Rattle.awk_numbers.specs.Folds.{whole_numbers, tally_kind};
ghost use Rattle.awk_parts.specs.Lanes.{tallied_at};
ghost use Rattle.awk_parts.specs.Spans.{span_count, AreSpanned};

use crate::counts::truth_counts;
use crate::parts::{Parts, span_of};
use crate::rules::cell_tallies;
use awk_cells::truth_groups;
use awk_kernels::Kernels;
use awk_lanes::{Arena, Kind, Lane, NoMemory, Num, Numbers, Steps, made_lane};
use awk_numbers::{Tally, Whole, tally_of};
use std::sync::ledger::Ledger;

/// The kind of what is told.
pub fn kind_of_tally(how: Tally) -> Kind
    ensures { result ≡ tally_kind how }
{
    match how {
        Tally::Items | Tally::Nonzero => Kind::I64,
        Tally::Any | Tally::All => Kind::Bool,
    }
}

/// What is told of each part.
#[derive(Drop)]
struct TalliedParts<'c, 'b, 'a, N: Kernels> {
    how: Tally,
    parts: &'c Parts<'b, 'a>,
    kernels: &'c N,
}

impl<'c, 'b, 'a, N: Kernels> Numbers for TalliedParts<'c, 'b, 'a, N> {
    ghost use Rattle.awk_numbers.specs.Folds.{whole_numbers, tally_kind};
    ghost use Rattle.awk_parts.specs.Lanes.{tallied_at};
    ghost use Rattle.awk_parts.specs.Spans.{span_count, AreSpanned};

    ghost kind = { λ f. tally_kind f.how };

    ghost at = { λ f. tallied_at f.how (whole_numbers f.parts.now.numbers.now)
        f.parts.now.spans.now };

    ghost size = { λ f. span_count f.parts.now.spans.now };

    ghost IsReady = { λ f. AreSpanned (whole_numbers f.parts.now.numbers.now)
        f.parts.now.spans.now };

    fn number<L: Ledger>(&self, i: u64, _steps: &mut Steps<L>) -> Num {
        let span = span_of(self.parts, i);
        tally_of(
            self.how,
            self.parts.numbers,
            span.start,
            span.stop,
            self.kernels,
        )
    }
}

/// What is told of each part of numbers of any kind, as a lane.
fn whole_tallies<'a, N: Kernels, L: Ledger>(
    how: Tally,
    parts: &Parts,
    kernels: &N,
    arena: &'a Arena,
    steps: &mut Steps<L>,
) -> Result<Lane<'a>, NoMemory>
    requires { AreSpanned (whole_numbers parts.now.numbers.now) parts.now.spans.now }
    ensures { let count = span_count parts.now.spans.now in
        IfOk result (λ r. r ≡ lane_of (tally_kind how) count
        (tallied_at how (whole_numbers parts.now.numbers.now) parts.now.spans.now)) }
{
    let tallied = TalliedParts {
        how,
        parts,
        kernels,
    };
    let count = parts.spans.starts.len() as u64;
    made_lane(kind_of_tally(how), count, &tallied, arena, steps)
}

/// What is told of each part of truth values, as a lane.
fn truth_tallies<'a, L: Ledger>(
    how: Tally,
    bytes: &[u8],
    parts: &Parts,
    arena: &'a Arena,
    steps: &mut Steps<L>,
) -> Result<Lane<'a>, NoMemory>
    requires numbers { whole_numbers parts.now.numbers.now
        ≡ map (λ b. element Kinds.Bool (pos b)) bytes.now }
    requires parts { AreSpanned (whole_numbers parts.now.numbers.now) parts.now.spans.now }
    ensures { let count = span_count parts.now.spans.now in
        IfOk result (λ r. r ≡ lane_of (tally_kind how) count
        (tallied_at how (whole_numbers parts.now.numbers.now) parts.now.spans.now)) }
{
    match how {
        Tally::Nonzero => truth_counts(bytes, parts, arena, steps),
        _ => cell_tallies::<1, bool, L>(how, truth_groups(bytes), parts, arena, steps),
    }
}

/// What is told of each part, as a lane. There is a loop for each kind of numbers that fit an i64.
pub fn tally_parts<'a, N: Kernels, L: Ledger>(
    how: Tally,
    parts: &Parts,
    kernels: &N,
    arena: &'a Arena,
    steps: &mut Steps<L>,
) -> Result<Lane<'a>, NoMemory>
    requires { AreSpanned (whole_numbers parts.now.numbers.now) parts.now.spans.now }
    ensures { let count = span_count parts.now.spans.now in
        IfOk result (λ r. r ≡ lane_of (tally_kind how) count
        (tallied_at how (whole_numbers parts.now.numbers.now) parts.now.spans.now)) }
{
    match *parts.numbers {
        Whole::Truths(bytes) => truth_tallies(how, bytes, parts, arena, steps),
        Whole::I8(groups) => cell_tallies::<1, i8, L>(how, groups, parts, arena, steps),
        Whole::I16(groups) => cell_tallies::<2, i16, L>(how, groups, parts, arena, steps),
        Whole::I32(groups) => cell_tallies::<4, i32, L>(how, groups, parts, arena, steps),
        Whole::I64(groups) => cell_tallies::<8, i64, L>(how, groups, parts, arena, steps),
        Whole::U8(groups) => cell_tallies::<1, u8, L>(how, groups, parts, arena, steps),
        Whole::U16(groups) => cell_tallies::<2, u16, L>(how, groups, parts, arena, steps),
        Whole::U32(groups) => cell_tallies::<4, u32, L>(how, groups, parts, arena, steps),
        Whole::U64(_) => whole_tallies(how, parts, kernels, arena, steps),
    }
}
