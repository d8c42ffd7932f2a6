//! The least or the greatest number of each part, of numbers of u64.
ghost use Rattle.std.specs.Prelude.{◌≡◌, ◌-◌, ◌≤◌, pos, length, map, IfOk};
ghost use Rattle.std.specs.List.{slice_range};
ghost use Rattle.awk_cells.specs.Extremes.{number_or_zero};
ghost use Rattle.awk_lanes.specs.Made.{lane_of};
ghost use Rattle.awk_lanes.specs.Numbers.{number};
ghost use Rattle.awk_lanes.specs.declared.kind.Kind.TheVariants as Kinds;
ghost use Rattle.awk_numbers.specs.Folds.{first_extreme, whole_numbers, lane_numbers};
ghost use Rattle.awk_parts.specs.Lanes.{extreme_at};
ghost use Rattle.awk_parts.specs.Spans.{span_count, AreSpanned};

use crate::kinds::number_in;
use crate::parts::{Parts, Span, span_of};
use awk_cells::natural_of;
use awk_lanes::{Arena, Lane, NoMemory, Num, Numbers, Steps, made_lane};
use awk_numbers::Extreme;
use std::sync::ledger::Ledger;

/// The extreme of the numbers from a start below a stop, and 0 of none.
#[inline(always)]
fn natural_extreme(how: Extreme, groups: &[[u8; 8]], span: Span) -> u64
    requires order { span.start ≤ span.stop }
    requires within { span.stop ≤ length groups.now }
    ensures { let zs = slice_range (map (number Kinds.U64) groups.now) span.start span.stop in
        pos result ≡ number_or_zero zs (first_extreme how zs) }
{
    natural_of(how, &groups[span.start as usize..span.stop as usize])
}

/// The extremes of the parts of such numbers of a lane.
#[derive(Drop)]
struct NaturalExtremes<'c, 'b, 'a> {
    how: Extreme,
    lane: &'c Lane<'a>,
    groups: &'c [[u8; 8]],
    parts: &'c Parts<'b, 'a>,
}

impl<'c, 'b, 'a> Numbers for NaturalExtremes<'c, 'b, 'a> {
    ghost use Rattle.std.specs.Prelude.{◌≡◌, map};
    ghost use Rattle.awk_lanes.specs.Numbers.{number};
    ghost use Rattle.awk_lanes.specs.declared.kind.Kind.TheVariants as Kinds;
    ghost use Rattle.awk_numbers.specs.Folds.{whole_numbers, lane_numbers};
    ghost use Rattle.awk_parts.specs.Lanes.{extreme_at};
    ghost use Rattle.awk_parts.specs.Spans.{span_count, AreSpanned};

    ghost kind = { λ f. f.lane.now.kind };

    ghost at = { λ f. extreme_at f.how (lane_numbers f.lane.now) f.parts.now.spans.now };

    ghost size = { λ f. span_count f.parts.now.spans.now };

    ghost IsReady = { λ f.
        (whole_numbers f.parts.now.numbers.now ≡ lane_numbers f.lane.now)
        × (whole_numbers f.parts.now.numbers.now ≡ map (number Kinds.U64) f.groups.now)
        × AreSpanned (whole_numbers f.parts.now.numbers.now) f.parts.now.spans.now };

    #[inline(always)]
    fn number<L: Ledger>(&self, i: u64, _steps: &mut Steps<L>) -> Num {
        let _ = self.lane.len();
        let span = span_of(self.parts, i);
        let z = natural_extreme(self.how, self.groups, span);
        number_in(self.lane.kind(), i128::from(z))
    }
}

/// The least or the greatest number of each part, and 0 for a part of none.
pub(crate) fn natural_extremes<'a, L: Ledger>(
    how: Extreme,
    lane: &Lane,
    groups: &[[u8; 8]],
    parts: &Parts,
    arena: &'a Arena,
    steps: &mut Steps<L>,
) -> Result<Lane<'a>, NoMemory>
    requires numbers { whole_numbers parts.now.numbers.now ≡ lane_numbers lane.now }
    requires naturals { whole_numbers parts.now.numbers.now ≡ map (number Kinds.U64) groups.now }
    requires parts { AreSpanned (whole_numbers parts.now.numbers.now) parts.now.spans.now }
    ensures { IfOk result (λ r. r ≡ lane_of lane.now.kind (span_count parts.now.spans.now)
        (extreme_at how (lane_numbers lane.now) parts.now.spans.now)) }
{
    let count = parts.spans.starts.len() as u64;
    let spans = *parts.spans;
    let parts = Parts {
        numbers: parts.numbers,
        spans: &spans,
    };
    let extremes = NaturalExtremes {
        how,
        lane,
        groups,
        parts: &parts,
    };
    made_lane(lane.kind(), count, &extremes, arena, steps)
}
