//! Lists whose nulls come last.
ghost use Rattle.std.specs.Prelude.{◌≡◌, ◌<◌, ◌≤◌, ◌^◌, IfOk};
ghost use Rattle.awk_lanes.specs.Places.{place_at};
ghost use Rattle.awk_order.specs.Nulls.{nulls_last, AreNullsReady};

use awk_columns::places_of;
use awk_lanes::{Arena, Items, Lane, Lengths, NoMemory, Num, Steps, number, place_in};
use std::sync::ledger::Ledger;

/// Lists of so many items of which so many are present, by offsets of both.
#[derive(Drop)]
struct PresentFirst<'b, 'a> {
    offsets: &'b Lane<'a>,
    present: &'b Lane<'a>,
    count: u64,
}

impl<'b, 'a> Lengths for PresentFirst<'b, 'a> {
    ghost use Rattle.awk_order.specs.Nulls.{length_at, AreNullsReady};

    ghost length = { λ f. length_at f.offsets.now };

    ghost size = { λ f. f.count };

    ghost IsReady = { λ f. AreNullsReady f.offsets.now f.present.now f.count };

    fn length<L: Ledger>(&self, i: u64, steps: &mut Steps<L>) -> u64 {
        place_in(self.offsets, i + 1, steps) - place_in(self.offsets, i, steps)
    }
}

impl<'b, 'a> Items for PresentFirst<'b, 'a> {
    ghost use Rattle.awk_lanes.specs.declared.kind.Kind.TheVariants as Kind;
    ghost use Rattle.awk_order.specs.Nulls.{place_or_null};

    ghost kind = { λ _. Kind.I64 };

    ghost at = { λ f. place_or_null f.present.now };

    fn item<L: Ledger>(&self, i: u64, k: u64, steps: &mut Steps<L>) -> Num {
        let start = place_in(self.present, i, steps);
        let stop = place_in(self.present, i + 1, steps);
        if k < stop - start {
            number(start + k)
        } else {
            Num::Int(-1)
        }
    }
}

/// For each item of lists the place of an item that is present, one list's after another's, and -1
/// for a null after them: by the offsets of all items and of those that are present.
pub(crate) fn present_first<'a, L: Ledger>(
    offsets: &Lane,
    present: &Lane,
    count: u64,
    arena: &'a Arena,
    steps: &mut Steps<L>,
) -> Result<Lane<'a>, NoMemory>
    requires ready { AreNullsReady offsets.now present.now count }
    ensures { IfOk result (λ r. r ≡ nulls_last offsets.now present.now count) }
{
    let lists = PresentFirst {
        offsets,
        present,
        count,
    };
    let total = place_in(offsets, count, steps);
    places_of(count, total, &lists, arena, steps)
}
