//! Where the tuples of lists lie, by how many each list has.
ghost use Rattle.std.specs.Prelude.{◌<◌, ◌≤◌, ◌^◌, IfOk};
ghost use Rattle.awk_types.specs.ItemLimit.{item_limit};
ghost use Rattle.awk_lanes.specs.Counted.{AreOffsetsBy};

use awk_lanes::{Arena, IndexMaker, Offsets, Steps, number};
use awk_types::{ITEM_LIMIT, NoMemory};
use std::sync::ledger::Ledger;

/// Lists by their places, each with so many tuples.
pub(crate) trait TupleCounts {
    ghost use Rattle.std.specs.Prelude.{ℕ};
    ghost use Rattle.awk_places.specs.Places.{IsCounted};

    /// How many tuples a list has.
    ghost count: { Self → ℕ → ℕ };

    /// How many lists may be asked for.
    ghost size: { Self → ℕ };

    /// What the counts rest on.
    ghost IsReady: { Self → Type 0 };

    /// How many tuples list i has, or none where they are more than the limit of a column.
    fn count<L: Ledger>(&self, i: u64, steps: &mut Steps<L>) -> Option<u64>
        requires ready { IsReady self.now }
        requires within { i < size self.now }
        ensures count { IsCounted (count self.now i) result };
}

/// Where the tuples of each of the first n lists lie among those of all, or none where they are
/// more than the limit of a column. No tuple is made.
pub(crate) fn tuple_offsets<'a, S: TupleCounts, L: Ledger>(
    n: u64,
    source: &S,
    arena: &'a Arena,
    steps: &mut Steps<L>,
) -> Result<Option<Offsets<'a>>, NoMemory>
    requires ready { S.IsReady source.now }
    requires within { n ≤ S.size source.now }
    requires fits { n < 2 ^ 63 }
    ensures { IfOk result (AreOffsetsBy item_limit (S.count source.now) n) }
{
    let mut maker = IndexMaker::new(n + 1, arena)?;
    maker.push(number(0));
    let mut total = 0;
    for i in 0..n {
        let Some(count) = source.count(i, steps) else {
            return Ok(None);
        };
        if count > ITEM_LIMIT - total {
            return Ok(None);
        }
        total += count;
        maker.push(number(total));
    }
    Ok(Some(Offsets {
        lane: maker.finish(),
        total,
    }))
}
