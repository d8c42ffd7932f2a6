//! Where the least or the greatest number of each part stands.
ghost use Rattle.std.specs.Prelude.{◌≡◌, ◌<◌, ◌^◌, IfOk, IfSome};
ghost use Rattle.awk_lanes.specs.Made.{lane_of};
ghost use Rattle.awk_lanes.specs.Numbers.{int_of, IsOf};
ghost use Rattle.awk_lanes.specs.declared.kind.Kind.TheVariants as Kind;
ghost use Rattle.awk_numbers.specs.Folds.{whole_numbers, first_extreme};
ghost use Rattle.awk_parts.specs.Lanes.{local_at, present_at, place_or_zero};
ghost use Rattle.awk_parts.specs.Spans.{span_count, span_part, AreSpanned};

use crate::parts::{Parts, span_of};
use crate::wide::first_place;
use awk_lanes::{Arena, Kind, Lane, NoMemory, Num, Numbers, Steps, made_lane, number};
use awk_numbers::Extreme;
use std::sync::ledger::Ledger;

/// A place as a number, and 0 for none.
pub fn number_of_place(place: Option<u64>) -> Num
    requires { IfSome place (λ k. k < 2 ^ 63) }
    ensures number { int_of result ≡ place_or_zero place }
    ensures kind { IsOf Kind.I64 result }
{
    match place {
        Some(k) => number(k),
        None => number(0),
    }
}

/// Where in part i its extreme stands first.
#[inline(always)]
fn place_at(how: Extreme, parts: &Parts, i: u64) -> Option<u64>
    requires parts { AreSpanned (whole_numbers parts.now.numbers.now) parts.now.spans.now }
    requires within { i < span_count parts.now.spans.now }
    ensures place { result ≡ first_extreme how
        (span_part (whole_numbers parts.now.numbers.now) parts.now.spans.now i) }
    ensures small { IfSome result (λ k. k < 2 ^ 63) }
{
    let span = span_of(parts, i);
    first_place(how, parts.numbers, span)
}

/// Places of extremes, counted from the starts of their parts.
#[derive(Drop)]
struct LocalPlaces<'c, 'b, 'a> {
    how: Extreme,
    parts: &'c Parts<'b, 'a>,
}

impl<'c, 'b, 'a> Numbers for LocalPlaces<'c, 'b, 'a> {
    ghost use Rattle.awk_lanes.specs.declared.kind.Kind.TheVariants as Kind;
    ghost use Rattle.awk_numbers.specs.Folds.{whole_numbers};
    ghost use Rattle.awk_parts.specs.Lanes.{local_at};
    ghost use Rattle.awk_parts.specs.Spans.{span_count, AreSpanned};

    ghost kind = { λ _. Kind.I64 };

    ghost at = { λ f. local_at f.how (whole_numbers f.parts.now.numbers.now)
        f.parts.now.spans.now };

    ghost size = { λ f. span_count f.parts.now.spans.now };

    ghost IsReady = { λ f. AreSpanned (whole_numbers f.parts.now.numbers.now)
        f.parts.now.spans.now };

    fn number<L: Ledger>(&self, i: u64, steps: &mut Steps<L>) -> Num {
        number_of_place(place_at(self.how, self.parts, i))
    }
}

/// Where in each part its least or greatest number stands first, and 0 for a part of none.
pub fn places_of<'a, L: Ledger>(
    how: Extreme,
    parts: &Parts,
    arena: &'a Arena,
    steps: &mut Steps<L>,
) -> Result<Lane<'a>, NoMemory>
    requires { AreSpanned (whole_numbers parts.now.numbers.now) parts.now.spans.now }
    ensures { IfOk result (λ r. r ≡ lane_of Kind.I64 (span_count parts.now.spans.now)
        (local_at how (whole_numbers parts.now.numbers.now) parts.now.spans.now)) }
{
    let count = parts.spans.starts.len() as u64;
    made_lane(Kind::I64, count, &LocalPlaces { how, parts }, arena, steps)
}

/// A mask of the parts that have a number.
#[derive(Drop)]
struct PresentParts<'c, 'b, 'a> {
    parts: &'c Parts<'b, 'a>,
}

impl<'c, 'b, 'a> Numbers for PresentParts<'c, 'b, 'a> {
    ghost use Rattle.awk_lanes.specs.declared.kind.Kind.TheVariants as Kind;
    ghost use Rattle.awk_numbers.specs.Folds.{whole_numbers};
    ghost use Rattle.awk_parts.specs.Lanes.{present_at};
    ghost use Rattle.awk_parts.specs.Spans.{span_count, AreSpanned};

    ghost kind = { λ _. Kind.I8 };

    ghost at = { λ f. present_at (whole_numbers f.parts.now.numbers.now) f.parts.now.spans.now };

    ghost size = { λ f. span_count f.parts.now.spans.now };

    ghost IsReady = { λ f. AreSpanned (whole_numbers f.parts.now.numbers.now)
        f.parts.now.spans.now };

    #[inline(always)]
    fn number<L: Ledger>(&self, i: u64, _steps: &mut Steps<L>) -> Num {
        let span = span_of(self.parts, i);
        if span.start == span.stop {
            Num::Int(0)
        } else {
            Num::Int(1)
        }
    }
}

/// A mask of the parts that have a number: 1 for such a part, else 0.
pub fn present_parts<'a, L: Ledger>(
    parts: &Parts,
    arena: &'a Arena,
    steps: &mut Steps<L>,
) -> Result<Lane<'a>, NoMemory>
    requires { AreSpanned (whole_numbers parts.now.numbers.now) parts.now.spans.now }
    ensures { IfOk result (λ r. r ≡ lane_of Kind.I8 (span_count parts.now.spans.now)
        (present_at (whole_numbers parts.now.numbers.now) parts.now.spans.now)) }
{
    let count = parts.spans.starts.len() as u64;
    made_lane(Kind::I8, count, &PresentParts { parts }, arena, steps)
}
