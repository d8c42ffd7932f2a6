//! The least or the greatest number of each part, of numbers that fit an i32.
ghost use Rattle.std.specs.Prelude.{◌≡◌, ◌≤◌, true, length, map, IfOk};
ghost use Rattle.std.specs.List.{slice_range};
ghost use Rattle.awk_cells.specs.Extremes.{number_or_zero};
ghost use Rattle.awk_lanes.specs.Made.{lane_of};
ghost use Rattle.awk_numbers.specs.Folds.{first_extreme, whole_numbers, lane_numbers};
ghost use Rattle.awk_parts.specs.Lanes.{extreme_at};
ghost use Rattle.awk_parts.specs.Spans.{span_count, AreSpanned};

use crate::kinds::number_in;
use crate::parts::{Parts, Span, span_of};
use awk_cells::{Cell, short_of};
use awk_lanes::{Arena, Lane, NoMemory, Num, Numbers, Steps, made_lane};
use awk_numbers::Extreme;
use std::marker::PhantomData;
use std::sync::ledger::Ledger;

/// The extreme of the numbers from a start below a stop, and 0 of none.
#[inline(always)]
fn short_extreme<const W: usize, C: Cell<W>>(how: Extreme, groups: &[[u8; W]], span: Span) -> i32
    requires short { C.is_short ≡ true }
    requires order { span.start ≤ span.stop }
    requires within { span.stop ≤ length groups.now }
    ensures { let zs = slice_range (map C.number groups.now) span.start span.stop in
        result ≡ number_or_zero zs (first_extreme how zs) }
{
    short_of::<W, C>(how, &groups[span.start as usize..span.stop as usize])
}

/// The extremes of the parts of such numbers of a lane.
#[derive(Drop)]
struct ShortExtremes<'c, 'b, 'a, const W: usize, C: Cell<W>> {
    how: Extreme,
    lane: &'c Lane<'a>,
    groups: &'c [[u8; W]],
    parts: &'c Parts<'b, 'a>,
    cell: PhantomData<C>,
}

impl<'c, 'b, 'a, const W: usize, C: Cell<W>> Numbers for ShortExtremes<'c, 'b, 'a, W, C> {
    ghost use Rattle.std.specs.Prelude.{◌≡◌, ◌≤◌, true, map};
    ghost use Rattle.awk_numbers.specs.Folds.{whole_numbers, lane_numbers};
    ghost use Rattle.awk_parts.specs.Lanes.{extreme_at};
    ghost use Rattle.awk_parts.specs.Spans.{span_count, AreSpanned};

    ghost kind = { λ f. f.lane.now.kind };

    ghost at = { λ f. extreme_at f.how (lane_numbers f.lane.now) f.parts.now.spans.now };

    ghost size = { λ f. span_count f.parts.now.spans.now };

    ghost IsReady = { λ f. (W ≤ 8)
        × (C.is_short ≡ true)
        × (whole_numbers f.parts.now.numbers.now ≡ lane_numbers f.lane.now)
        × (whole_numbers f.parts.now.numbers.now ≡ map C.number f.groups.now)
        × AreSpanned (whole_numbers f.parts.now.numbers.now) f.parts.now.spans.now };

    #[inline(always)]
    fn number<L: Ledger>(&self, i: u64, _steps: &mut Steps<L>) -> Num {
        let _ = self.lane.len();
        let span = span_of(self.parts, i);
        let z = short_extreme::<W, C>(self.how, self.groups, span);
        number_in(self.lane.kind(), i128::from(z))
    }
}

/// The least or the greatest number of each part, and 0 for a part of none.
pub(crate) fn short_extremes<'a, const W: usize, C: Cell<W>, L: Ledger>(
    how: Extreme,
    lane: &Lane,
    groups: &[[u8; W]],
    parts: &Parts,
    arena: &'a Arena,
    steps: &mut Steps<L>,
) -> Result<Lane<'a>, NoMemory>
    requires width { W ≤ 8 }
    requires short { C.is_short ≡ true }
    requires numbers { whole_numbers parts.now.numbers.now ≡ lane_numbers lane.now }
    requires cells { whole_numbers parts.now.numbers.now ≡ map C.number groups.now }
    requires parts { AreSpanned (whole_numbers parts.now.numbers.now) parts.now.spans.now }
    ensures { IfOk result (λ r. r ≡ lane_of lane.now.kind (span_count parts.now.spans.now)
        (extreme_at how (lane_numbers lane.now) parts.now.spans.now)) }
{
    let count = parts.spans.starts.len() as u64;
    let spans = *parts.spans;
    let parts = Parts {
        numbers: parts.numbers,
        spans: &spans,
    };
    let extremes: ShortExtremes<'_, '_, '_, W, C> = ShortExtremes {
        how,
        lane,
        groups,
        parts: &parts,
        cell: PhantomData,
    };
    made_lane(lane.kind(), count, &extremes, arena, steps)
}
