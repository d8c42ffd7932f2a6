//! Sums of parts of numbers that fit an i64.
ghost use Rattle.std.specs.Prelude.{◌≡◌, ◌-◌, ◌≤◌, pos, length, map, IfOk};
ghost use Rattle.std.specs.List.{slice_range};
ghost use Rattle.awk_kernels.specs.Kernels.{total};
ghost use Rattle.awk_lanes.specs.Numbers.{element, number};
ghost use Rattle.awk_lanes.specs.declared.kind.Kind.TheVariants as Kind;
ghost use Rattle.awk_numbers.specs.Folds.{whole_numbers};
ghost use Rattle.awk_numbers.specs.declared.folds.Fold.TheVariants as fold;
ghost use Rattle.awk_parts.specs.Fits.{AreFitting};
ghost use Rattle.awk_parts.specs.Lanes.{folded_at};
ghost use Rattle.awk_parts.specs.Spans.{span_count, AreSpanned};

use crate::counts::truths_counted;
use crate::parts::{Parts, Span, span_of};
use crate::totals::{Totals, fitting_lane};
use crate::window_sums::window_lane;
use awk_cells::{Cell, int_sum_in, sum_in};
use awk_lanes::{Arena, Lane, NoMemory, Steps};
use awk_types::Prim;
use std::marker::PhantomData;
use std::sync::ledger::Ledger;

/// The sum of such numbers from a start below a stop.
#[inline(always)]
fn narrow_sum<const W: usize, C: Cell<W>>(groups: &[[u8; W]], span: Span) -> i64
    requires narrow { C.reach ≤ 4294967296 }
    requires order { span.start ≤ span.stop }
    requires within { span.stop ≤ length groups.now }
    requires few { span.stop - span.start ≤ 1073741824 }
    ensures { result ≡ total (slice_range (map C.number groups.now) span.start span.stop) }
{
    sum_in::<W, C>(&groups[span.start as usize..span.stop as usize])
}

/// The sums of parts of such numbers.
#[derive(Drop)]
struct NarrowSums<'c, 'b, 'a, const W: usize, C: Cell<W>> {
    groups: &'c [[u8; W]],
    parts: &'c Parts<'b, 'a>,
    cell: PhantomData<C>,
}

impl<'c, 'b, 'a, const W: usize, C: Cell<W>> Totals for NarrowSums<'c, 'b, 'a, W, C> {
    ghost use Rattle.std.specs.Prelude.{◌≡◌, ◌≤◌, map};
    ghost use Rattle.awk_numbers.specs.Folds.{whole_numbers};
    ghost use Rattle.awk_numbers.specs.declared.folds.Fold.TheVariants as fold;
    ghost use Rattle.awk_parts.specs.Lanes.{folded_at};
    ghost use Rattle.awk_parts.specs.Spans.{span_count, AreSpanned};

    ghost at = { λ f. folded_at fold.Sum (whole_numbers f.parts.now.numbers.now)
        f.parts.now.spans.now };

    ghost size = { λ f. span_count f.parts.now.spans.now };

    ghost IsReady = { λ f. (W ≤ 8)
        × (C.reach ≤ 4294967296)
        × (whole_numbers f.parts.now.numbers.now ≡ map C.number f.groups.now)
        × AreSpanned (whole_numbers f.parts.now.numbers.now) f.parts.now.spans.now };

    #[inline(always)]
    fn total<L: Ledger>(&self, i: u64, _steps: &mut Steps<L>) -> Option<i128> {
        let sum = narrow_sum::<W, C>(self.groups, span_of(self.parts, i));
        Some(i128::from(sum))
    }
}

/// The sums of parts of such numbers as numbers of a primitive, or none where one does not fit.
pub(crate) fn narrow_sums<'a, const W: usize, C: Cell<W>, L: Ledger>(
    prim: Prim,
    groups: &[[u8; W]],
    parts: &Parts,
    arena: &'a Arena,
    steps: &mut Steps<L>,
) -> Result<Option<Lane<'a>>, NoMemory>
    requires width { W ≤ 8 }
    requires narrow { C.reach ≤ 4294967296 }
    requires numbers { whole_numbers parts.now.numbers.now ≡ map C.number groups.now }
    requires parts { AreSpanned (whole_numbers parts.now.numbers.now) parts.now.spans.now }
    ensures { IfOk result (AreFitting prim (folded_at fold.Sum
        (whole_numbers parts.now.numbers.now) parts.now.spans.now)
        (span_count parts.now.spans.now)) }
{
    let slices: NarrowSums<'_, '_, '_, W, C> = NarrowSums {
        groups,
        parts,
        cell: PhantomData,
    };
    window_lane::<W, C, NarrowSums<'_, '_, '_, W, C>, L>(prim, groups, parts, &slices, arena, steps)
}

// ---- numbers of i64

/// The sum of numbers from a start below a stop.
#[inline(always)]
fn int_sum(groups: &[[u8; 8]], span: Span) -> i128
    requires order { span.start ≤ span.stop }
    requires within { span.stop ≤ length groups.now }
    requires few { span.stop - span.start ≤ 1073741824 }
    ensures { result ≡ total (slice_range (map (number Kind.I64) groups.now) span.start span.stop) }
{
    int_sum_in(&groups[span.start as usize..span.stop as usize])
}

/// The sums of parts of numbers of i64.
#[derive(Drop)]
struct IntSums<'c, 'b, 'a> {
    groups: &'c [[u8; 8]],
    parts: &'c Parts<'b, 'a>,
}

impl<'c, 'b, 'a> Totals for IntSums<'c, 'b, 'a> {
    ghost use Rattle.std.specs.Prelude.{◌≡◌, map};
    ghost use Rattle.awk_lanes.specs.Numbers.{number};
    ghost use Rattle.awk_lanes.specs.declared.kind.Kind.TheVariants as Kind;
    ghost use Rattle.awk_numbers.specs.Folds.{whole_numbers};
    ghost use Rattle.awk_numbers.specs.declared.folds.Fold.TheVariants as fold;
    ghost use Rattle.awk_parts.specs.Lanes.{folded_at};
    ghost use Rattle.awk_parts.specs.Spans.{span_count, AreSpanned};

    ghost at = { λ f. folded_at fold.Sum (whole_numbers f.parts.now.numbers.now)
        f.parts.now.spans.now };

    ghost size = { λ f. span_count f.parts.now.spans.now };

    ghost IsReady = { λ f.
        (whole_numbers f.parts.now.numbers.now ≡ map (number Kind.I64) f.groups.now)
        × AreSpanned (whole_numbers f.parts.now.numbers.now) f.parts.now.spans.now };

    #[inline(always)]
    fn total<L: Ledger>(&self, i: u64, _steps: &mut Steps<L>) -> Option<i128> {
        Some(int_sum(self.groups, span_of(self.parts, i)))
    }
}

/// The sums of parts of numbers of i64 as numbers of a primitive, or none where one does not fit.
pub(crate) fn int_sums<'a, L: Ledger>(
    prim: Prim,
    groups: &[[u8; 8]],
    parts: &Parts,
    arena: &'a Arena,
    steps: &mut Steps<L>,
) -> Result<Option<Lane<'a>>, NoMemory>
    requires numbers { whole_numbers parts.now.numbers.now ≡ map (number Kind.I64) groups.now }
    requires parts { AreSpanned (whole_numbers parts.now.numbers.now) parts.now.spans.now }
    ensures { IfOk result (AreFitting prim (folded_at fold.Sum
        (whole_numbers parts.now.numbers.now) parts.now.spans.now)
        (span_count parts.now.spans.now)) }
{
    let slices = IntSums { groups, parts };
    window_lane::<8, i64, IntSums<'_, '_, '_>, L>(prim, groups, parts, &slices, arena, steps)
}

// ---- truth values

/// The sums of parts of truth values: how many are true.
#[derive(Drop)]
struct TruthSums<'c, 'b, 'a> {
    bytes: &'c [u8],
    parts: &'c Parts<'b, 'a>,
}

impl<'c, 'b, 'a> Totals for TruthSums<'c, 'b, 'a> {
    ghost use Rattle.std.specs.Prelude.{◌≡◌, map, pos};
    ghost use Rattle.awk_lanes.specs.Numbers.{element};
    ghost use Rattle.awk_lanes.specs.declared.kind.Kind.TheVariants as Kind;
    ghost use Rattle.awk_numbers.specs.Folds.{whole_numbers};
    ghost use Rattle.awk_numbers.specs.declared.folds.Fold.TheVariants as fold;
    ghost use Rattle.awk_parts.specs.Lanes.{folded_at};
    ghost use Rattle.awk_parts.specs.Spans.{span_count, AreSpanned};

    ghost at = { λ f. folded_at fold.Sum (whole_numbers f.parts.now.numbers.now)
        f.parts.now.spans.now };

    ghost size = { λ f. span_count f.parts.now.spans.now };

    ghost IsReady = { λ f.
        (whole_numbers f.parts.now.numbers.now
        ≡ map (λ b. element Kind.Bool (pos b)) f.bytes.now)
        × AreSpanned (whole_numbers f.parts.now.numbers.now) f.parts.now.spans.now };

    #[inline(always)]
    fn total<L: Ledger>(&self, i: u64, _steps: &mut Steps<L>) -> Option<i128> {
        let sum = truths_counted(self.bytes, span_of(self.parts, i));
        Some(i128::from(sum))
    }
}

/// The sums of parts of truth values as numbers of a primitive, or none where one does not fit.
pub(crate) fn truth_sums<'a, L: Ledger>(
    prim: Prim,
    bytes: &[u8],
    parts: &Parts,
    arena: &'a Arena,
    steps: &mut Steps<L>,
) -> Result<Option<Lane<'a>>, NoMemory>
    requires numbers { whole_numbers parts.now.numbers.now
        ≡ map (λ b. element Kind.Bool (pos b)) bytes.now }
    requires parts { AreSpanned (whole_numbers parts.now.numbers.now) parts.now.spans.now }
    ensures { IfOk result (AreFitting prim (folded_at fold.Sum
        (whole_numbers parts.now.numbers.now) parts.now.spans.now)
        (span_count parts.now.spans.now)) }
{
    let count = parts.spans.starts.len() as u64;
    fitting_lane(prim, count, &TruthSums { bytes, parts }, arena, steps)
}
