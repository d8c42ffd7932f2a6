//! Where the places of lists begin and end.
ghost use Rattle.std.specs.Prelude.{◌≡◌, ◌<◌, ◌^◌, IfOk};
ghost use Rattle.awk_lanes.specs.Places.{size_of};
ghost use Rattle.awk_combi.specs.Spans.{first_place, end_place, first_lane, end_lane};

use awk_columns::{Bounds, Lists};
use awk_lanes::{Arena, Kind, Lane, Num, Numbers, Steps, made_lane, number};
use awk_types::NoMemory;
use std::alloc::Global;
use std::sync::ledger::Ledger;

/// The first place of list i: where it begins in the content, but 0 where places are counted in
/// each list by itself, or where it is empty.
fn first_at(places: bool, lists: &Bounds, i: u64) -> u64
    requires within { i < size_of lists.now.starts }
    ensures first { result ≡ first_place places lists.now.starts lists.now.stops i }
    ensures fits { end_place places lists.now.starts lists.now.stops i < 2 ^ 63 }
{
    let span = lists.span_of(i);
    if places || span.length == 0 {
        0
    } else {
        span.start
    }
}

/// The first place of each list.
#[derive(Drop)]
struct FirstPlaces<'b, 'r, 'a> {
    lists: &'b Bounds<'r, 'a>,
    places: bool,
}

impl<'b, 'r, 'a> Numbers for FirstPlaces<'b, 'r, 'a> {
    ghost use Rattle.std.specs.Prelude.{pos};
    ghost use Rattle.awk_lanes.specs.Places.{size_of};
    ghost use Rattle.awk_lanes.specs.declared.kind.Kind.TheVariants as Kinds;
    ghost use Rattle.awk_combi.specs.Spans.{first_place};

    ghost kind = { λ _. Kinds.I64 };

    ghost at = { λ f i. pos (first_place f.places f.lists.now.starts f.lists.now.stops i) };

    ghost size = { λ f. size_of f.lists.now.starts };

    fn number<L: Ledger>(&self, i: u64, _steps: &mut Steps<L>) -> Num {
        number(first_at(self.places, self.lists, i))
    }
}

/// Where the places of each list end.
#[derive(Drop)]
struct EndPlaces<'b, 'r, 'a> {
    lists: &'b Bounds<'r, 'a>,
    places: bool,
}

impl<'b, 'r, 'a> Numbers for EndPlaces<'b, 'r, 'a> {
    ghost use Rattle.std.specs.Prelude.{pos};
    ghost use Rattle.awk_lanes.specs.Places.{size_of};
    ghost use Rattle.awk_lanes.specs.declared.kind.Kind.TheVariants as Kinds;
    ghost use Rattle.awk_combi.specs.Spans.{end_place};

    ghost kind = { λ _. Kinds.I64 };

    ghost at = { λ f i. pos (end_place f.places f.lists.now.starts f.lists.now.stops i) };

    ghost size = { λ f. size_of f.lists.now.starts };

    fn number<L: Ledger>(&self, i: u64, _steps: &mut Steps<L>) -> Num {
        let first = first_at(self.places, self.lists, i);
        number(first + self.lists.length_at(i))
    }
}

/// The first place of each list, as a lane.
pub(crate) fn first_lane<'a, L: Ledger>(
    alloc: Global,
    places: bool,
    lists: &Lists<'a>,
    arena: &'a Arena,
    steps: &mut Steps<L>,
) -> Result<Lane<'a>, NoMemory>
    ensures { IfOk result (λ r. r ≡ first_lane places lists.now.starts lists.now.stops) }
{
    let bounds = Bounds::new(alloc, lists, arena, steps)?;
    let source = FirstPlaces {
        lists: &bounds,
        places,
    };
    made_lane(Kind::I64, bounds.len(), &source, arena, steps)
}

/// Where the places of each list end, as a lane.
pub(crate) fn end_lane<'a, L: Ledger>(
    alloc: Global,
    places: bool,
    lists: &Lists<'a>,
    arena: &'a Arena,
    steps: &mut Steps<L>,
) -> Result<Lane<'a>, NoMemory>
    ensures { IfOk result (λ r. r ≡ end_lane places lists.now.starts lists.now.stops) }
{
    let bounds = Bounds::new(alloc, lists, arena, steps)?;
    let source = EndPlaces {
        lists: &bounds,
        places,
    };
    made_lane(Kind::I64, bounds.len(), &source, arena, steps)
}
