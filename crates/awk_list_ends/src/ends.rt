//! Ends of lists moved to other places.
ghost use Rattle.std.specs.Prelude.{◌≡◌, IfOk};
ghost use Rattle.awk_lanes.specs.Places.{AreSpans, IsIndexKind};
ghost use Rattle.awk_list_ends.specs.Ends.{numbers_at_ends, AreListEnds};

use crate::length::length_between;
use awk_index::Index;
use awk_lanes::{Arena, Kind, Lane, Num, Numbers, Steps, made_lane, to_place};
use awk_types::NoMemory;
use std::sync::ledger::Ledger;

/// The number of a lane at an end of each list, and 0 where a list has no items.
#[derive(Drop)]
struct EndNumbers<'b, 'a> {
    numbers: &'b Index<'a>,
    starts: &'b Index<'a>,
    stops: &'b Index<'a>,
    ends: &'b Index<'a>,
}

impl<'b, 'a> Numbers for EndNumbers<'b, 'a> {
    ghost use Rattle.std.specs.Prelude.{◌==◌, pos, if◌then◌else◌};
    ghost use Rattle.awk_lanes.specs.declared.kind.Kind.TheVariants as Kinds;
    ghost use Rattle.awk_lanes.specs.Places.{size_of, at, place_at, AreSpans, IsIndexKind};
    ghost use Rattle.awk_list_ends.specs.Ends.{span_length, AreListEnds};

    ghost kind = { λ _. Kinds.I64 };

    ghost at = { λ f i. if span_length f.starts.now f.stops.now i == 0 then pos 0
        else at f.numbers.now (place_at f.ends.now i) };

    ghost size = { λ f. size_of f.starts.now };

    ghost IsReady = { λ f. IsIndexKind f.numbers.now.kind
        × AreSpans f.starts.now f.stops.now 9223372036854775807
        × AreListEnds f.numbers.now f.starts.now f.stops.now f.ends.now };

    fn number<L: Ledger>(&self, i: u64, _steps: &mut Steps<L>) -> Num {
        if length_between(self.starts, self.stops, i) == 0 {
            Num::Int(0)
        } else {
            let place = to_place(self.ends.number(i));
            Num::Int(self.numbers.number(place))
        }
    }
}

/// The numbers of a lane at ends of lists.
pub fn numbers_at_ends<'a, L: Ledger>(
    numbers: &Index<'a>,
    starts: &Index<'a>,
    stops: &Index<'a>,
    ends: &Index<'a>,
    arena: &'a Arena,
    steps: &mut Steps<L>,
) -> Result<Lane<'a>, NoMemory>
    requires kind { IsIndexKind numbers.now.kind }
    requires spans { AreSpans starts.now stops.now 9223372036854775807 }
    requires ends { AreListEnds numbers.now starts.now stops.now ends.now }
    ensures { IfOk result (λ r. r ≡ numbers_at_ends numbers.now starts.now stops.now ends.now) }
{
    let numbers = EndNumbers {
        numbers,
        starts,
        stops,
        ends,
    };
    made_lane(Kind::I64, starts.len(), &numbers, arena, steps)
}
