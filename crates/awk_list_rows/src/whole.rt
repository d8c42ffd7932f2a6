//! Lanes compared, and the items of lists cut, by whole bytes where no number need be read.
ghost use Rattle.std.specs.Prelude.{◌≡◌, IfOk, IfSome, IsTrue};
ghost use Rattle.awk_lanes.specs.Counted.{before};
ghost use Rattle.awk_lanes.specs.Places.{size_of};
ghost use Rattle.awk_counts.specs.Counted.{spans};
ghost use Rattle.awk_columns.specs.Lists.{length_of};
ghost use Rattle.awk_columns.specs.Reached.{IsReached};
ghost use Rattle.awk_list_rows.specs.InRow.{LieInRow};

use awk_columns::Lists;
use awk_lanes::{Arena, NoMemory, Steps, index_at, to_option_place};
use awk_layout::Array;
use awk_range::range;
use std::alloc::Global;
use std::sync::ledger::Ledger;

/// Whether lists have the same lanes as others, byte for byte.
pub fn are_same<L: Ledger>(lead: &Lists, lists: &Lists, steps: &mut Steps<L>) -> bool
    ensures starts { IsTrue result → lists.now.starts ≡ lead.now.starts }
    ensures stops { IsTrue result → lists.now.stops ≡ lead.now.stops }
{
    if !lists.starts().is_same(lead.starts(), steps) {
        return false;
    }
    lists.stops().is_same(lead.stops(), steps)
}

/// Where the items of lists begin, if each list begins where the one before ends.
fn row_start<L: Ledger>(lists: &Lists, steps: &mut Steps<L>) -> Option<u64>
    ensures { IfSome result (LieInRow lists.now.starts lists.now.stops) }
{
    let _ = lists.content();
    let n = lists.len();
    if n == 0 {
        return None;
    }
    let starts = lists.starts().cut(1, n, steps);
    let stops = lists.stops().cut(0, n - 1, steps);
    if !starts.is_same(&stops, steps) {
        return None;
    }
    to_option_place(index_at(lists.starts(), 0, steps))
}

/// The items of lists one after another, of which there are so many: cut from the content where
/// they lie there in a row.
pub fn items_in<'a, L: Ledger>(
    alloc: Global,
    count: u64,
    lists: &Lists<'a>,
    arena: &'a Arena,
    steps: &mut Steps<L>,
) -> Result<Array<'a>, NoMemory>
    requires { count ≡ before (length_of lists.now) (size_of lists.now.starts) }
    ensures { let l = lists.now in IfOk result (IsReached l.content (spans l.starts l.stops)) }
{
    let content = lists.content();
    let n = content.len();
    if let Some(first) = row_start(lists, steps) {
        if first <= n && count <= n - first {
            let items = range(alloc, content, first, first + count, steps)?;
            return Ok(items);
        }
    }
    let items = lists.items(alloc, arena, steps)?;
    Ok(items)
}
