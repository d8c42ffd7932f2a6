//! The innermost column of an array of lists, with the nulls that are passed on the way.
ghost use Rattle.std.specs.Prelude.{◌≡◌, ◌≤◌, true, length, IfOk};
ghost use Rattle.awk_types.specs.ItemLimit.{item_limit};
ghost use Rattle.awk_types.specs.Predicates.{is_leaf};
ghost use Rattle.awk_types.specs.Simple.{present};
ghost use Rattle.awk_layout.specs.Typing.{array_type, array_items};
ghost use Rattle.awk_open.specs.Opens.{OpensLists, OpensOption};
ghost use Rattle.awk_hist.specs.Hist.{has_numbers};
ghost use Rattle.awk_hist.specs.Lists.{IsInnermost};

use awk_columns::{Joined, Lists};
use awk_lanes::{Arena, Lane, Steps};
use awk_layout::Array;
use awk_open::{Opened, open_array};
use awk_types::{NoMemory, are_leaves};
use std::alloc::Global;
use std::sync::ledger::Ledger;

/// What the lists of an array come to.
#[derive(Drop)]
pub(crate) enum Innermost<'a> {
    /// Some column of lists has too many items.
    TooMany,
    /// A column of leaves, and how many null lists there are.
    Column(Array<'a>, u64),
}

/// The innermost column, whose items may be null.
#[cycle(innermost)]
pub(crate) fn innermost_of<'a, L: Ledger>(
    alloc: Global,
    x: &Array<'a>,
    arena: &'a Arena,
    steps: &mut Steps<L>,
) -> Result<Innermost<'a>, NoMemory>
    requires numbers { has_numbers (array_type x.now) ≡ true }
    requires few { length (array_items x.now) ≤ item_limit }
    ensures { IfOk result (IsInnermost (array_type x.now) (array_items x.now)) }
{
    if are_leaves(x.typ()) {
        return Ok(Innermost::Column(x.copy(alloc)?, 0));
    }
    match open_array(alloc, x, arena, steps)? {
        Opened::Items(lists) => below_lists(alloc, x, &lists, arena, steps),
        Opened::Option { index, content } => {
            below_option(alloc, x, &index, &content, arena, steps)
        }
        _ => unreachable!(),
    }
}

/// The same of lists, by their items.
#[cycle(innermost)]
fn below_lists<'a, L: Ledger>(
    alloc: Global,
    x: &Array<'a>,
    lists: &Lists<'a>,
    arena: &'a Arena,
    steps: &mut Steps<L>,
) -> Result<Innermost<'a>, NoMemory>
    requires numbers { has_numbers (array_type x.now) ≡ true }
    requires opens { OpensLists lists.now.class lists.now.starts lists.now.stops
        lists.now.content x.now }
    ensures { IfOk result (IsInnermost (array_type x.now) (array_items x.now)) }
{
    match lists.joined(alloc, arena, steps)? {
        Joined::TooMany => Ok(Innermost::TooMany),
        Joined::Lists { content, .. } => innermost_of(alloc, &content, arena, steps),
    }
}

/// The same of an option, by the items that are not null.
#[cycle(innermost)]
fn below_option<'a, L: Ledger>(
    alloc: Global,
    x: &Array<'a>,
    index: &Lane<'a>,
    content: &Array<'a>,
    arena: &'a Arena,
    steps: &mut Steps<L>,
) -> Result<Innermost<'a>, NoMemory>
    requires numbers { has_numbers (array_type x.now) ≡ true }
    requires few { length (array_items x.now) ≤ item_limit }
    requires opens { OpensOption index.now content.now x.now }
    ensures { IfOk result (IsInnermost (array_type x.now) (array_items x.now)) }
{
    let nulls = x.len() - content.len();
    let _ = x.typ();
    match innermost_of(alloc, content, arena, steps)? {
        Innermost::TooMany => Ok(Innermost::TooMany),
        Innermost::Column(column, more) => Ok(Innermost::Column(column, more + nulls)),
    }
}
