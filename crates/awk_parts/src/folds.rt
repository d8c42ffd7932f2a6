//! Sums and products of parts.
ghost use Rattle.std.specs.Prelude.{IfOk};
ghost use Rattle.awk_numbers.specs.Folds.{whole_numbers};
ghost use Rattle.awk_numbers.specs.declared.folds.Fold.TheVariants as fold;
ghost use Rattle.awk_parts.specs.Fits.{AreFitting};
ghost use Rattle.awk_parts.specs.Lanes.{folded_at};
ghost use Rattle.awk_parts.specs.Spans.{span_count, AreSpanned};

use crate::parts::{Parts, span_of};
use crate::products::folded_early;
use crate::sums::{int_sums, narrow_sums, truth_sums};
use crate::totals::{Totals, fitting_lane};
use awk_lanes::{Arena, Lane, NoMemory, Steps};
use awk_numbers::{Fold, Whole, folded};
use awk_types::Prim;
use std::sync::ledger::Ledger;

/// The sums or products of parts.
#[derive(Drop)]
struct PartTotals<'c, 'b, 'a> {
    how: Fold,
    parts: &'c Parts<'b, 'a>,
}

impl<'c, 'b, 'a> Totals for PartTotals<'c, 'b, 'a> {
    ghost use Rattle.awk_numbers.specs.Folds.{whole_numbers};
    ghost use Rattle.awk_parts.specs.Lanes.{folded_at};
    ghost use Rattle.awk_parts.specs.Spans.{span_count, AreSpanned};

    ghost at = { λ f. folded_at f.how (whole_numbers f.parts.now.numbers.now)
        f.parts.now.spans.now };

    ghost size = { λ f. span_count f.parts.now.spans.now };

    ghost IsReady = { λ f. AreSpanned (whole_numbers f.parts.now.numbers.now)
        f.parts.now.spans.now };

    fn total<L: Ledger>(&self, i: u64, _steps: &mut Steps<L>) -> Option<i128> {
        let span = span_of(self.parts, i);
        match folded_early(self.how, self.parts.numbers, span) {
            Some(z) => Some(i128::from(z)),
            None => folded(self.how, self.parts.numbers, span.start, span.stop),
        }
    }
}

/// The sums or products of parts of numbers of any kind as numbers of a primitive, or none where
/// one does not fit.
fn whole_folds<'a, L: Ledger>(
    how: Fold,
    prim: Prim,
    parts: &Parts,
    arena: &'a Arena,
    steps: &mut Steps<L>,
) -> Result<Option<Lane<'a>>, NoMemory>
    requires { AreSpanned (whole_numbers parts.now.numbers.now) parts.now.spans.now }
    ensures { IfOk result (AreFitting prim (folded_at how (whole_numbers parts.now.numbers.now)
        parts.now.spans.now) (span_count parts.now.spans.now)) }
{
    let count = parts.spans.starts.len() as u64;
    let totals = PartTotals { how, parts };
    fitting_lane(prim, count, &totals, arena, steps)
}

/// The sums of parts. There is a loop for each kind of numbers that fit an i64.
fn sum_parts<'a, L: Ledger>(
    prim: Prim,
    parts: &Parts,
    arena: &'a Arena,
    steps: &mut Steps<L>,
) -> Result<Option<Lane<'a>>, NoMemory>
    requires { AreSpanned (whole_numbers parts.now.numbers.now) parts.now.spans.now }
    ensures { IfOk result (AreFitting prim (folded_at fold.Sum
        (whole_numbers parts.now.numbers.now) parts.now.spans.now)
        (span_count parts.now.spans.now)) }
{
    match *parts.numbers {
        Whole::Truths(bytes) => truth_sums(prim, bytes, parts, arena, steps),
        Whole::I8(groups) => narrow_sums::<1, i8, L>(prim, groups, parts, arena, steps),
        Whole::I16(groups) => narrow_sums::<2, i16, L>(prim, groups, parts, arena, steps),
        Whole::I32(groups) => narrow_sums::<4, i32, L>(prim, groups, parts, arena, steps),
        Whole::I64(groups) => int_sums(prim, groups, parts, arena, steps),
        Whole::U8(groups) => narrow_sums::<1, u8, L>(prim, groups, parts, arena, steps),
        Whole::U16(groups) => narrow_sums::<2, u16, L>(prim, groups, parts, arena, steps),
        Whole::U32(groups) => narrow_sums::<4, u32, L>(prim, groups, parts, arena, steps),
        Whole::U64(_) => whole_folds(Fold::Sum, prim, parts, arena, steps),
    }
}

/// The sums or products of parts as numbers of a primitive, or none where one does not fit.
pub fn fold_parts<'a, L: Ledger>(
    how: Fold,
    prim: Prim,
    parts: &Parts,
    arena: &'a Arena,
    steps: &mut Steps<L>,
) -> Result<Option<Lane<'a>>, NoMemory>
    requires { AreSpanned (whole_numbers parts.now.numbers.now) parts.now.spans.now }
    ensures { IfOk result (AreFitting prim (folded_at how (whole_numbers parts.now.numbers.now)
        parts.now.spans.now) (span_count parts.now.spans.now)) }
{
    match how {
        Fold::Sum => sum_parts(prim, parts, arena, steps),
        Fold::Product => whole_folds(Fold::Product, prim, parts, arena, steps),
    }
}
