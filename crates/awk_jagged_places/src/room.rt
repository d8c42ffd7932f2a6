//! Room for what lists of truth values keep.
ghost use Rattle.std.specs.Prelude.{◌≡◌, ◌<◌, ◌≤◌, ◌^◌, IfOk, IfSome};
ghost use Rattle.awk_lanes.specs.Counted.{before};
ghost use Rattle.awk_lanes.specs.Places.{size_of};
ghost use Rattle.awk_columns.specs.Lists.{length_of};
ghost use Rattle.awk_select.specs.Cells.{truth_cells};
ghost use Rattle.awk_jagged_places.specs.Beside.{kept_length, IsRoom};
ghost use Rattle.awk_jagged_places.specs.Leaves.{AreLeaves};
ghost use Rattle.awk_jagged_rows.specs.Rows.{AreAlike};

use crate::beside::Beside;
use crate::masks::Kept;
use awk_columns::Bounds;
use awk_lanes::{Arena, NoMemory, Steps, offsets_within};
use awk_types::ITEM_LIMIT;
use std::sync::ledger::Ledger;

/// How many items lists have together, if these are within a limit.
fn items_within(limit: u64, lists: &Bounds) -> Option<u64>
    requires { limit < 2 ^ 63 }
    ensures total { IfSome result (λ n.
        n ≡ before (length_of lists.now) (size_of lists.now.starts)) }
    ensures within { IfSome result (λ n. n ≤ limit) }
{
    let mut total = 0;
    for i in 0..lists.len() {
        let length = lists.length_at(i);
        if length > limit - total {
            return None;
        }
        total += length;
    }
    Some(total)
}

/// How many items are true, unless they are too many.
fn count_kept<'a, L: Ledger>(
    picks: &Beside<'_, '_, 'a>,
    arena: &'a Arena,
    steps: &mut Steps<L>,
) -> Result<Option<u64>, NoMemory>
    requires leaves { AreLeaves picks.now.xs.now picks.now.ws.now
        (truth_cells picks.now.truths.now.bytes.now) }
    requires alike { AreAlike picks.now.xs.now picks.now.ws.now }
    ensures { IfOk result (IsRoom (kept_length picks.now.xs.now picks.now.ws.now)
        (size_of picks.now.ws.now.starts)) }
{
    let kept = Kept {
        xs: picks.xs,
        ws: picks.ws,
        cells: picks.truths,
    };
    match offsets_within(ITEM_LIMIT, picks.ws.len(), &kept, arena, steps)? {
        None => Ok(None),
        Some(offsets) => Ok(Some(offsets.total)),
    }
}

/// Room for the numbers beside the true items of all lists, or none where they are too many. It is
/// as many as the lists have items, if these are no more than there are truth values: the room that
/// is not written takes no memory. Lists over one another are counted.
pub fn room_beside<'a, L: Ledger>(
    picks: &Beside<'_, '_, 'a>,
    arena: &'a Arena,
    steps: &mut Steps<L>,
) -> Result<Option<u64>, NoMemory>
    requires leaves { AreLeaves picks.now.xs.now picks.now.ws.now
        (truth_cells picks.now.truths.now.bytes.now) }
    requires alike { AreAlike picks.now.xs.now picks.now.ws.now }
    ensures { IfOk result (IsRoom (kept_length picks.now.xs.now picks.now.ws.now)
        (size_of picks.now.ws.now.starts)) }
{
    let most = picks.ws.content().len().min(ITEM_LIMIT);
    match items_within(most, picks.ws) {
        Some(total) => Ok(Some(total)),
        None => count_kept(picks, arena, steps),
    }
}
