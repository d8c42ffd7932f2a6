//! The offsets of lists one after another, of those that they have or anew.
ghost use Rattle.std.specs.Prelude.{◌≡◌, IfOk, IfSome};
ghost use Rattle.awk_types.specs.ItemLimit.{item_limit};
ghost use Rattle.awk_lanes.specs.Counted.{offsets_by, AreOffsetsBy};
ghost use Rattle.awk_lanes.specs.Places.{size_of};
ghost use Rattle.awk_columns.specs.Lists.{length_of};

use awk_columns::Bounds;
use awk_lanes::{Arena, Lane, NoMemory, Offsets, Steps, offsets_within, place_in};
use awk_types::ITEM_LIMIT;
use std::sync::ledger::Ledger;

/// Where each list begins, and how many items there are, or none where they are too many: the ends
/// that the lists have already, or new ones.
pub fn row_offsets<'a, L: Ledger>(
    lists: &Bounds,
    ends: Option<Lane<'a>>,
    arena: &'a Arena,
    steps: &mut Steps<L>,
) -> Result<Option<Offsets<'a>>, NoMemory>
    requires { IfSome ends (λ o.
        o ≡ offsets_by (length_of lists.now) (size_of lists.now.starts)) }
    ensures { let n = size_of lists.now.starts in
        IfOk result (AreOffsetsBy item_limit (length_of lists.now) n) }
{
    let n = lists.len();
    let Some(lane) = ends else {
        return offsets_within(ITEM_LIMIT, n, lists, arena, steps);
    };
    let total = place_in(&lane, n, steps);
    if total > ITEM_LIMIT {
        return Ok(None);
    }
    Ok(Some(Offsets { lane, total }))
}
