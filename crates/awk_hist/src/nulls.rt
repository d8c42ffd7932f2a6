//! How many items of lists are null.
ghost use Rattle.std.specs.Prelude.{◌≡◌, ◌+◌, ◌-◌, ◌<◌, ◌≤◌, ◌^◌, IfOk};
ghost use Rattle.awk_types.specs.ItemLimit.{item_limit};
ghost use Rattle.awk_lanes.specs.Places.{place_at};
ghost use Rattle.awk_parts.specs.Parts.{AreRising};
ghost use Rattle.awk_hist.specs.Lists as spec;
ghost use Rattle.awk_hist.specs.Lists.{AreNullsReady};

use awk_lanes::{Arena, Kind, Lane, NoMemory, Num, Numbers, Steps, made_lane, number, place_in};
use std::sync::ledger::Ledger;

/// How many items of each list are null, and more.
#[derive(Drop)]
struct NullCounts<'b, 'a> {
    offsets: &'b Lane<'a>,
    present: &'b Lane<'a>,
    more: u64,
    count: u64,
}

/// How many items list i has.
fn length_at<L: Ledger>(offsets: &Lane, n: u64, i: u64, steps: &mut Steps<L>) -> u64
    requires rising { AreRising offsets.now n item_limit }
    requires within { i < n }
    ensures length { result ≡ place_at offsets.now (i + 1) - place_at offsets.now i }
    ensures few { result ≤ item_limit }
{
    place_in(offsets, i + 1, steps) - place_in(offsets, i, steps)
}

impl<'b, 'a> Numbers for NullCounts<'b, 'a> {
    ghost use Rattle.std.specs.Prelude.{pos, ◌<◌, ◌^◌};
    ghost use Rattle.awk_lanes.specs.declared.kind.Kind.TheVariants as Kind;
    ghost use Rattle.awk_hist.specs.Lists.{null_count, AreNullsReady};

    ghost kind = { λ _. Kind.I64 };

    ghost at = { λ f i. pos (null_count f.offsets.now f.present.now f.more i) };

    ghost size = { λ f. f.count };

    ghost IsReady = { λ f. AreNullsReady f.offsets.now f.present.now f.count
        × (f.more < 2 ^ 40) };

    fn number<L: Ledger>(&self, i: u64, steps: &mut Steps<L>) -> Num {
        let length = length_at(self.offsets, self.count, i, steps);
        number(length - length_at(self.present, self.count, i, steps) + self.more)
    }
}

/// How many items of each list are null, and more, as a lane.
pub(crate) fn null_lane<'a, L: Ledger>(
    offsets: &Lane,
    present: &Lane,
    more: u64,
    count: u64,
    arena: &'a Arena,
    steps: &mut Steps<L>,
) -> Result<Lane<'a>, NoMemory>
    requires ready { AreNullsReady offsets.now present.now count }
    requires few { more < 2 ^ 40 }
    ensures { IfOk result (λ r. r ≡ spec.null_lane offsets.now present.now more count) }
{
    let counts = NullCounts {
        offsets,
        present,
        more,
        count,
    };
    made_lane(Kind::I64, count, &counts, arena, steps)
}
