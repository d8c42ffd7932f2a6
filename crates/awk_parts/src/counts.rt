//! How many truth values of each part are true.
ghost use Rattle.std.specs.Prelude.{◌≡◌, ◌-◌, ◌≤◌, length, map, pos, IfOk};
ghost use Rattle.std.specs.List.{slice_range};
ghost use Rattle.awk_lanes.specs.Made.{lane_of};
ghost use Rattle.awk_lanes.specs.Numbers.{element};
ghost use Rattle.awk_lanes.specs.declared.kind.Kind.TheVariants as Kind;
ghost use Rattle.awk_numbers.specs.Folds.{tallied, whole_numbers};
ghost use Rattle.awk_numbers.specs.declared.tallies.Tally.TheVariants as tally;
ghost use Rattle.awk_parts.specs.Lanes.{tallied_at};
ghost use Rattle.awk_parts.specs.Spans.{span_count, AreSpanned};

use crate::parts::{Parts, Span, span_of};
use awk_cells::count_set;
use awk_lanes::{Arena, Kind, Lane, NoMemory, Num, Numbers, Steps, made_lane, number};
use std::sync::ledger::Ledger;

/// How many truth values from a start below a stop are true.
#[inline(always)]
pub(crate) fn truths_counted(bytes: &[u8], span: Span) -> u64
    requires order { span.start ≤ span.stop }
    requires within { span.stop ≤ length bytes.now }
    requires few { span.stop - span.start ≤ 1073741824 }
    ensures count { pos result ≡ tallied tally.Nonzero
        (slice_range (map (λ b. element Kind.Bool (pos b)) bytes.now) span.start span.stop) }
    ensures few { result ≤ 1073741824 }
{
    count_set(&bytes[span.start as usize..span.stop as usize])
}

/// How many truth values of each part are true.
#[derive(Drop)]
struct TruthCounts<'c, 'b, 'a> {
    bytes: &'c [u8],
    parts: &'c Parts<'b, 'a>,
}

impl<'c, 'b, 'a> Numbers for TruthCounts<'c, 'b, 'a> {
    ghost use Rattle.std.specs.Prelude.{◌≡◌, map, pos};
    ghost use Rattle.awk_lanes.specs.Numbers.{element};
    ghost use Rattle.awk_lanes.specs.declared.kind.Kind.TheVariants as Kind;
    ghost use Rattle.awk_numbers.specs.Folds.{whole_numbers};
    ghost use Rattle.awk_numbers.specs.declared.tallies.Tally.TheVariants as tally;
    ghost use Rattle.awk_parts.specs.Lanes.{tallied_at};
    ghost use Rattle.awk_parts.specs.Spans.{span_count, AreSpanned};

    ghost kind = { λ _. Kind.I64 };

    ghost at = { λ f. tallied_at tally.Nonzero (whole_numbers f.parts.now.numbers.now)
        f.parts.now.spans.now };

    ghost size = { λ f. span_count f.parts.now.spans.now };

    ghost IsReady = { λ f.
        (whole_numbers f.parts.now.numbers.now
        ≡ map (λ b. element Kind.Bool (pos b)) f.bytes.now)
        × AreSpanned (whole_numbers f.parts.now.numbers.now) f.parts.now.spans.now };

    #[inline(always)]
    fn number<L: Ledger>(&self, i: u64, _steps: &mut Steps<L>) -> Num {
        number(truths_counted(self.bytes, span_of(self.parts, i)))
    }
}

/// How many truth values of each part are true, as a lane.
pub(crate) fn truth_counts<'a, L: Ledger>(
    bytes: &[u8],
    parts: &Parts,
    arena: &'a Arena,
    steps: &mut Steps<L>,
) -> Result<Lane<'a>, NoMemory>
    requires numbers { whole_numbers parts.now.numbers.now
        ≡ map (λ b. element Kind.Bool (pos b)) bytes.now }
    requires parts { AreSpanned (whole_numbers parts.now.numbers.now) parts.now.spans.now }
    ensures { let count = span_count parts.now.spans.now in
        IfOk result (λ r. r ≡ lane_of Kind.I64 count
        (tallied_at tally.Nonzero (whole_numbers parts.now.numbers.now) parts.now.spans.now)) }
{
    let count = parts.spans.starts.len() as u64;
    let spans = *parts.spans;
    let parts = Parts {
        numbers: parts.numbers,
        spans: &spans,
    };
    let counts = TruthCounts {
        bytes,
        parts: &parts,
    };
    made_lane(Kind::I64, count, &counts, arena, steps)
}
