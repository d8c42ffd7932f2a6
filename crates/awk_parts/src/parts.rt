//! Numbers in parts, each from a start below a stop.
ghost use Rattle.std.specs.Prelude.{◌≡◌, ◌+◌, ◌-◌, ◌<◌, ◌≤◌, ◌^◌, map, length, IfOk};
ghost use Rattle.std.specs.List.{slice_range};
ghost use Rattle.awk_lanes.specs.Numbers.{number, nat_of};
ghost use Rattle.awk_lanes.specs.Places.{size_of, at, IsIndexKind};
ghost use Rattle.awk_lanes.specs.declared.kind.Kind.TheVariants as Kind;
ghost use Rattle.awk_numbers.specs.Folds.{whole_numbers};
ghost use Rattle.awk_parts.specs.Spans.{end_at, start_of, stop_of, span_part};
ghost use Rattle.awk_parts.specs.Spans.{span_size, span_count};
ghost use Rattle.awk_parts.specs.Spans.{AreEnds, AreOrdered, AreSpanned};

use awk_lanes::{Arena, Kind, Lane, NoMemory, Num, Numbers, Steps, index_at, made_lane, to_place};
use awk_numbers::Whole;
use std::sync::ledger::Ledger;

/// Where parts of numbers begin and end: part i from start i below stop i, each the bytes of an
/// i64. Loops that count, test or compare numbers take a copy, so that where the ends lie is not
/// looked up at each part.
#[derive(Clone, Copy)]
pub struct Spans<'a> {
    pub starts: &'a [[u8; 8]],
    pub stops: &'a [[u8; 8]],
}

/// Numbers, and their parts.
#[derive(Drop)]
pub struct Parts<'b, 'a> {
    pub numbers: &'b Whole<'a>,
    pub spans: &'b Spans<'a>,
}

/// Places from a start below a stop.
#[derive(Clone, Copy)]
pub(crate) struct Span {
    pub start: u64,
    pub stop: u64,
}

/// The number that the bytes at place i are.
#[inline(always)]
fn end_in(ends: &[[u8; 8]], i: u64) -> i64
    requires { i < length ends.now }
    ensures { result ≡ end_at ends.now i }
{
    i64::from_le_bytes(ends[i as usize])
}

/// Where part i begins and ends; one of no numbers begins and ends at 0.
#[inline(always)]
pub(crate) fn span_of(parts: &Parts, i: u64) -> Span
    requires parts { AreSpanned (whole_numbers parts.now.numbers.now) parts.now.spans.now }
    requires within { i < span_count parts.now.spans.now }
    ensures order { result.start ≤ result.stop }
    ensures inside { result.stop ≤ length (whole_numbers parts.now.numbers.now) }
    ensures few { result.stop - result.start ≤ 1073741824 }
    ensures part { slice_range (whole_numbers parts.now.numbers.now) result.start result.stop
        ≡ span_part (whole_numbers parts.now.numbers.now) parts.now.spans.now i }
{
    let start = end_in(parts.spans.starts, i);
    let stop = end_in(parts.spans.stops, i);
    if start == stop {
        Span { start: 0, stop: 0 }
    } else {
        Span {
            start: to_place(start),
            stop: to_place(stop),
        }
    }
}

/// A number as a place, and 0 where it is negative.
#[inline(always)]
fn place_or_zero(z: i64) -> u64
    ensures { result ≡ nat_of z }
{
    if z < 0 { 0 } else { to_place(z) }
}

/// Where part i begins and ends, as its ends are told.
#[inline(always)]
pub(crate) fn bounds_of(parts: &Parts, i: u64) -> Span
    requires parts { AreSpanned (whole_numbers parts.now.numbers.now) parts.now.spans.now }
    requires within { i < span_count parts.now.spans.now }
    ensures order { result.start ≤ result.stop }
    ensures start { result.start ≡ start_of parts.now.spans.now i }
    ensures stop { result.stop ≡ stop_of parts.now.spans.now i }
{
    Span {
        start: place_or_zero(end_in(parts.spans.starts, i)),
        stop: place_or_zero(end_in(parts.spans.stops, i)),
    }
}

/// How many numbers part i has.
#[inline(always)]
pub fn span_length(spans: &Spans, i: u64) -> u64
    requires parts { AreOrdered 9223372036854775807 spans.now }
    requires within { i < span_count spans.now }
    ensures length { result ≡ span_size spans.now i }
    ensures fits { result < 2 ^ 63 }
{
    let start = end_in(spans.starts, i);
    let stop = end_in(spans.stops, i);
    if start == stop {
        0
    } else {
        to_place(stop) - to_place(start)
    }
}

/// The numbers of a lane of offsets.
#[derive(Drop)]
struct Offsets<'b, 'a> {
    lane: &'b Lane<'a>,
}

impl<'b, 'a> Numbers for Offsets<'b, 'a> {
    ghost use Rattle.awk_lanes.specs.Places.{size_of, at, IsIndexKind};
    ghost use Rattle.awk_lanes.specs.declared.kind.Kind.TheVariants as Kind;

    ghost kind = { λ _. Kind.I64 };

    ghost at = { λ f. at f.lane.now };

    ghost size = { λ f. size_of f.lane.now };

    ghost IsReady = { λ f. IsIndexKind f.lane.now.kind };

    fn number<L: Ledger>(&self, i: u64, steps: &mut Steps<L>) -> Num {
        Num::Int(index_at(self.lane, i, steps))
    }
}

/// The numbers of a lane of i64, each as its bytes.
fn groups_of<'a, L: Ledger>(
    lane: &Lane<'a>,
    arena: &'a Arena,
    steps: &mut Steps<L>,
) -> Result<&'a [[u8; 8]], NoMemory>
    requires { lane.now.kind ≡ Kind.I64 }
    ensures { IfOk result (λ r. map (number Kind.I64) r.now ≡ lane.now.items) }
{
    let bytes = lane.bulk(arena, steps)?;
    Ok(bytes.as_chunks::<8>().0)
}

/// The numbers of a lane of offsets, starts or stops, each as the bytes of an i64.
fn ends_of<'a, L: Ledger>(
    lane: &Lane<'a>,
    arena: &'a Arena,
    steps: &mut Steps<L>,
) -> Result<&'a [[u8; 8]], NoMemory>
    requires { IsIndexKind lane.now.kind }
    ensures { IfOk result (λ r. map (number Kind.I64) r.now ≡ lane.now.items) }
{
    match lane.kind() {
        Kind::I64 => groups_of(lane, arena, steps),
        _ => {
            let wide = made_lane(Kind::I64, lane.len(), &Offsets { lane }, arena, steps)?;
            groups_of(&wide, arena, steps)
        }
    }
}

/// Parts from the starts of one lane below the stops of another, which lie as they are where they
/// are of i64.
pub fn spans_of<'a, L: Ledger>(
    starts: &Lane<'a>,
    stops: &Lane<'a>,
    arena: &'a Arena,
    steps: &mut Steps<L>,
) -> Result<Spans<'a>, NoMemory>
    requires starts { IsIndexKind starts.now.kind }
    requires stops { IsIndexKind stops.now.kind }
    requires same { size_of stops.now ≡ size_of starts.now }
    ensures { IfOk result (AreEnds (size_of starts.now) (at starts.now) (at stops.now)) }
{
    let first = ends_of(starts, arena, steps)?;
    let last = ends_of(stops, arena, steps)?;
    Ok(Spans {
        starts: first,
        stops: last,
    })
}

/// So many parts, each from one offset below the next.
pub fn spans_between<'a, L: Ledger>(
    offsets: &Lane<'a>,
    count: u64,
    arena: &'a Arena,
    steps: &mut Steps<L>,
) -> Result<Spans<'a>, NoMemory>
    requires kind { IsIndexKind offsets.now.kind }
    requires count { size_of offsets.now ≡ count + 1 }
    ensures { IfOk result (AreEnds count (at offsets.now) (λ i. at offsets.now (i + 1))) }
{
    let n = count as usize;
    let ends = ends_of(offsets, arena, steps)?;
    Ok(Spans {
        starts: &ends[0..n],
        stops: &ends[1..n + 1],
    })
}
