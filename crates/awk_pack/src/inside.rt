//! Lists whose items are lists too, and lie over one another. Joined they would be many times as
//! many as what lies there, so the items of the lists inside are counted first.
ghost use Rattle.std.specs.Prelude.{◌≤◌, IfOk};
ghost use Rattle.awk_lanes.specs.Places.{size_of};
ghost use Rattle.awk_layout.specs.Valid.{len};
ghost use Rattle.awk_columns.specs.Lists.{span_length};
ghost use Rattle.awk_list_ends.specs.Inside.{total_inside};
ghost use Rattle.awk_pack.specs.Packing.{AreTooMany, ReachTooMany};

use awk_columns::Lists;
use awk_lanes::{Arena, Steps};
use awk_list_ends::{are_few, items_inside, lie_over_one_another};
use awk_open::{Opened, open_array};
use awk_types::{NoMemory, is_list};
use std::alloc::Global;
use std::sync::ledger::Ledger;

/// Whether the lists inside lists have together more items than a column may have, each counted
/// as often as it is reached.
fn are_too_many_inside<'a, L: Ledger>(
    alloc: Global,
    lists: &Lists<'a>,
    inner: &Lists<'a>,
    arena: &'a Arena,
    steps: &mut Steps<L>,
) -> Result<bool, NoMemory>
    requires within { len lists.now.content ≤ size_of inner.now.starts }
    ensures { let m = span_length inner.now.starts inner.now.stops in
        IfOk result (AreTooMany (total_inside m lists.now.starts lists.now.stops)) }
{
    match items_inside(alloc, lists, inner, arena, steps)? {
        None => Ok(false),
        Some(inside) => match inside.reached {
            None => Ok(true),
            Some(_) => Ok(false),
        },
    }
}

/// Whether lists that lie over one another reach more items of the lists inside than a column may
/// have. They are counted, and none is moved. Lists that have too many items themselves are left
/// to who joins them: the lists that lie inside may be ever so many there.
pub(crate) fn reach_too_many<'a, L: Ledger>(
    alloc: Global,
    lists: &Lists<'a>,
    arena: &'a Arena,
    steps: &mut Steps<L>,
) -> Result<bool, NoMemory>
    ensures { IfOk result (ReachTooMany lists.now) }
{
    if !is_list(lists.content().typ()) {
        return Ok(false);
    }
    if !lie_over_one_another(alloc, lists, arena, steps)? {
        return Ok(false);
    }
    if !are_few(alloc, lists, arena, steps)? {
        return Ok(false);
    }
    match open_array(alloc, lists.content(), arena, steps)? {
        Opened::Items(inner) => are_too_many_inside(alloc, lists, &inner, arena, steps),
        _ => Ok(false),
    }
}
