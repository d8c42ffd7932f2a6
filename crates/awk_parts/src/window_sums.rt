//! Sums of parts, each told from running sums where a window of these has it.
ghost use Rattle.std.specs.Prelude.{◌≡◌, ◌<◌, ◌≤◌, map, IfOk};
ghost use Rattle.awk_layout.specs.Kinds.{kind_of};
ghost use Rattle.awk_numbers.specs.Folds.{whole_numbers};
ghost use Rattle.awk_numbers.specs.declared.folds.Fold.TheVariants as fold;
ghost use Rattle.awk_parts.specs.Fits.{AreFitting, AreFirst, ArePushed};
ghost use Rattle.awk_parts.specs.Lanes.{folded_at};
ghost use Rattle.awk_parts.specs.Spans.{span_count, AreSpanned};
ghost use Rattle.awk_parts.specs.Windows.{AreRunning};
ghost use Rattle.awk_types.specs.declared.primitive.Primitive.TheVariants as Prims;

use crate::parts::{Parts, bounds_of};
use crate::totals::{Totals, fitting_lane, push_totals};
use crate::windows::RunningSums;
use awk_cells::Cell;
use awk_lanes::{Arena, GroupMaker, IndexMaker, Lane, NoMemory, NumberMaker, Steps};
use awk_types::Prim;
use std::sync::ledger::Ledger;

/// How many parts have a window of their own.
const PARTS: u64 = 64;

/// From how many numbers a part on, on average, a loop over each part is as fast.
const LONG: u64 = 8;

/// The sums of parts: those that a window has, and any other as it is summed without one.
#[derive(Drop)]
struct WindowSums<'c, 'b, 'a, 'w, S: Totals> {
    parts: &'c Parts<'b, 'a>,
    window: &'c RunningSums<'w>,
    slices: &'c S,
}

impl<'c, 'b, 'a, 'w, S: Totals> Totals for WindowSums<'c, 'b, 'a, 'w, S> {
    ghost use Rattle.std.specs.Prelude.{◌≡◌};
    ghost use Rattle.awk_numbers.specs.Folds.{whole_numbers};
    ghost use Rattle.awk_numbers.specs.declared.folds.Fold.TheVariants as fold;
    ghost use Rattle.awk_parts.specs.Lanes.{folded_at};
    ghost use Rattle.awk_parts.specs.Spans.{span_count, AreSpanned};
    ghost use Rattle.awk_parts.specs.Windows.{AreRunning};

    ghost at = { λ f. folded_at fold.Sum (whole_numbers f.parts.now.numbers.now)
        f.parts.now.spans.now };

    ghost size = { λ f. span_count f.parts.now.spans.now };

    ghost IsReady = { λ f. S.IsReady f.slices.now
        × (S.size f.slices.now ≡ span_count f.parts.now.spans.now)
        × (S.at f.slices.now ≡ folded_at fold.Sum (whole_numbers f.parts.now.numbers.now)
        f.parts.now.spans.now)
        × AreRunning (whole_numbers f.parts.now.numbers.now) f.window.now
        × AreSpanned (whole_numbers f.parts.now.numbers.now) f.parts.now.spans.now };

    #[inline(always)]
    fn total<L: Ledger>(&self, i: u64, steps: &mut Steps<L>) -> Option<i128> {
        match self.window.sum_of(self.parts, i) {
            Some(sum) => Some(i128::from(sum)),
            None => self.slices.total(i, steps),
        }
    }
}

/// The window of the numbers from where part `from` begins to where the last before part `to` ends.
#[inline(always)]
fn fill_window<const W: usize, C: Cell<W>>(
    groups: &[[u8; W]],
    parts: &Parts,
    from: u64,
    to: u64,
    window: &mut RunningSums,
)
    requires parts { AreSpanned (whole_numbers parts.now.numbers.now) parts.now.spans.now }
    requires some { from < to }
    requires within { to ≤ span_count parts.now.spans.now }
    ensures { AreRunning (map C.number groups.now) window.new }
{
    let first = bounds_of(parts, from).start;
    let stop = bounds_of(parts, to - 1).stop;
    window.fill::<W, C>(groups, first, stop);
}

/// The parts from a place on that have one window: where they end.
#[inline(always)]
fn window_end(from: u64, count: u64) -> u64
    requires { from < count }
    ensures more { from < result }
    ensures within { result ≤ count }
{
    if count - from <= PARTS {
        count
    } else {
        from + PARTS
    }
}

/// Puts the sums of all parts, as numbers of a primitive, and tells whether all are. It stops at
/// the first that is not.
#[inline(always)]
fn push_windows<const W: usize, C: Cell<W>, S: Totals, M: NumberMaker, L: Ledger>(
    prim: Prim,
    groups: &[[u8; W]],
    parts: &Parts,
    slices: &S,
    mut window: RunningSums,
    maker: &mut M,
    steps: &mut Steps<L>,
) -> bool
    requires numbers { whole_numbers parts.now.numbers.now ≡ map C.number groups.now }
    requires parts { AreSpanned (whole_numbers parts.now.numbers.now) parts.now.spans.now }
    requires ready { S.IsReady slices.now }
    requires size { S.size slices.now ≡ span_count parts.now.spans.now }
    requires sums { S.at slices.now
        ≡ folded_at fold.Sum (whole_numbers parts.now.numbers.now) parts.now.spans.now }
    requires kind { M.kind maker.old ≡ kind_of prim }
    requires made { AreFirst prim (folded_at fold.Sum (whole_numbers parts.now.numbers.now)
        parts.now.spans.now) (span_count parts.now.spans.now) 0 (M.making maker.old) }
    ensures { ArePushed prim (folded_at fold.Sum (whole_numbers parts.now.numbers.now)
        parts.now.spans.now) (span_count parts.now.spans.now) (span_count parts.now.spans.now)
        (M.making maker.new) result }
{
    let count = parts.spans.starts.len() as u64;
    let spans = *parts.spans;
    let near = Parts {
        numbers: parts.numbers,
        spans: &spans,
    };
    let mut from = 0;
    while from < count {
        let to = window_end(from, count);
        fill_window::<W, C>(groups, &near, from, to, &mut window);
        let sums = WindowSums {
            parts: &near,
            window: &window,
            slices,
        };
        if !push_totals(prim, from, to, &sums, maker, steps) {
            return false;
        }
        from = to;
    }
    true
}

/// The sums of parts as numbers of i64, or none where one does not fit.
#[inline(always)]
fn window_ints<'a, const W: usize, C: Cell<W>, S: Totals, L: Ledger>(
    groups: &[[u8; W]],
    parts: &Parts,
    slices: &S,
    arena: &'a Arena,
    steps: &mut Steps<L>,
) -> Result<Option<Lane<'a>>, NoMemory>
    requires numbers { whole_numbers parts.now.numbers.now ≡ map C.number groups.now }
    requires parts { AreSpanned (whole_numbers parts.now.numbers.now) parts.now.spans.now }
    requires ready { S.IsReady slices.now }
    requires size { S.size slices.now ≡ span_count parts.now.spans.now }
    requires sums { S.at slices.now
        ≡ folded_at fold.Sum (whole_numbers parts.now.numbers.now) parts.now.spans.now }
    ensures { IfOk result (AreFitting Prims.I64 (folded_at fold.Sum
        (whole_numbers parts.now.numbers.now) parts.now.spans.now)
        (span_count parts.now.spans.now)) }
{
    let window = RunningSums::new(groups.len() as u64, arena)?;
    let mut maker = IndexMaker::new(parts.spans.starts.len() as u64, arena)?;
    if push_windows::<W, C, S, IndexMaker<'a>, L>(
        Prim::I64,
        groups,
        parts,
        slices,
        window,
        &mut maker,
        steps,
    ) {
        Ok(Some(maker.finish()))
    } else {
        Ok(None)
    }
}

/// The sums of parts as numbers of u64, or none where one does not fit.
#[inline(always)]
fn window_nats<'a, const W: usize, C: Cell<W>, S: Totals, L: Ledger>(
    groups: &[[u8; W]],
    parts: &Parts,
    slices: &S,
    arena: &'a Arena,
    steps: &mut Steps<L>,
) -> Result<Option<Lane<'a>>, NoMemory>
    requires numbers { whole_numbers parts.now.numbers.now ≡ map C.number groups.now }
    requires parts { AreSpanned (whole_numbers parts.now.numbers.now) parts.now.spans.now }
    requires ready { S.IsReady slices.now }
    requires size { S.size slices.now ≡ span_count parts.now.spans.now }
    requires sums { S.at slices.now
        ≡ folded_at fold.Sum (whole_numbers parts.now.numbers.now) parts.now.spans.now }
    ensures { IfOk result (AreFitting Prims.U64 (folded_at fold.Sum
        (whole_numbers parts.now.numbers.now) parts.now.spans.now)
        (span_count parts.now.spans.now)) }
{
    let window = RunningSums::new(groups.len() as u64, arena)?;
    let count = parts.spans.starts.len() as u64;
    let mut maker: GroupMaker<'a, 8, u64> = GroupMaker::new(count, arena)?;
    if push_windows::<W, C, S, GroupMaker<'a, 8, u64>, L>(
        Prim::U64,
        groups,
        parts,
        slices,
        window,
        &mut maker,
        steps,
    ) {
        Ok(Some(maker.finish()))
    } else {
        Ok(None)
    }
}

/// The sums of parts as numbers of a primitive, or none where one does not fit. `slices` has them
/// without a window, as which they are taken where the parts have many numbers.
#[inline(always)]
pub(crate) fn window_lane<'a, const W: usize, C: Cell<W>, S: Totals, L: Ledger>(
    prim: Prim,
    groups: &[[u8; W]],
    parts: &Parts,
    slices: &S,
    arena: &'a Arena,
    steps: &mut Steps<L>,
) -> Result<Option<Lane<'a>>, NoMemory>
    requires numbers { whole_numbers parts.now.numbers.now ≡ map C.number groups.now }
    requires parts { AreSpanned (whole_numbers parts.now.numbers.now) parts.now.spans.now }
    requires ready { S.IsReady slices.now }
    requires size { S.size slices.now ≡ span_count parts.now.spans.now }
    requires sums { S.at slices.now
        ≡ folded_at fold.Sum (whole_numbers parts.now.numbers.now) parts.now.spans.now }
    ensures { IfOk result (AreFitting prim (folded_at fold.Sum
        (whole_numbers parts.now.numbers.now) parts.now.spans.now)
        (span_count parts.now.spans.now)) }
{
    let count = parts.spans.starts.len() as u64;
    if groups.len() as u64 / LONG >= count {
        return fitting_lane(prim, count, slices, arena, steps);
    }
    match prim {
        Prim::I64 => window_ints::<W, C, S, L>(groups, parts, slices, arena, steps),
        Prim::U64 => window_nats::<W, C, S, L>(groups, parts, slices, arena, steps),
        _ => fitting_lane(prim, count, slices, arena, steps),
    }
}
