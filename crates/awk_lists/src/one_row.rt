//! The lists of one list joined: their items, without a lane of where each list begins.
ghost use Rattle.std.specs.Prelude.{◌≡◌, ◌<◌, true, IfOk};
ghost use Rattle.awk_types.specs.Predicates.{is_list_or_unknown};
ghost use Rattle.awk_lanes.specs.Places.{size_of};
ghost use Rattle.awk_layout.specs.Typing.{array_type};
ghost use Rattle.awk_columns.specs.Joined.{JoinsLists};
ghost use Rattle.awk_open.specs.Opens.{OpensNothing};
ghost use Rattle.awk_list_functions.specs.Made.{IsMade};
ghost use Rattle.awk_lists.specs.Flatten.{flatten_function};
ghost use Rattle.awk_lists.specs.Listed.{AreFewItems, IsWhole};

use awk_columns::Lists;
use awk_lanes::{Arena, Lane, Steps, one_offsets};
use awk_layout::Array;
use awk_list_ends::are_few;
use awk_list_functions::{Made, Spoil};
use awk_open::{Opened, open_array};
use awk_types::NoMemory;
use std::alloc::Global;
use std::sync::ledger::Ledger;

/// The items of lists, one after another, or nothing where they are too many.
fn few_items<'a, L: Ledger>(
    alloc: Global,
    lists: &Lists<'a>,
    arena: &'a Arena,
    steps: &mut Steps<L>,
) -> Result<Option<Array<'a>>, NoMemory>
    ensures { IfOk result (AreFewItems lists.now.starts lists.now.stops lists.now.content) }
{
    let few = are_few(alloc, lists, arena, steps)?;
    if few {
        let items = lists.items(alloc, arena, steps)?;
        let _ = items.len();
        return Ok(Some(items));
    }
    Ok(None)
}

/// The items of no lists.
fn no_items<'a>(alloc: Global, x: &Array<'a>) -> Result<Option<Array<'a>>, NoMemory>
    requires { OpensNothing x.now }
    ensures { IfOk result (IsWhole x.now) }
{
    let _ = x.len();
    Ok(Some(x.copy(alloc)?))
}

/// The items of all lists of an array, or nothing where they are too many.
fn all_items<'a, L: Ledger>(
    alloc: Global,
    x: &Array<'a>,
    arena: &'a Arena,
    steps: &mut Steps<L>,
) -> Result<Option<Array<'a>>, NoMemory>
    requires { is_list_or_unknown (array_type x.now) ≡ true }
    ensures { IfOk result (IsWhole x.now) }
{
    match open_array(alloc, x, arena, steps)? {
        Opened::Empty => no_items(alloc, x),
        Opened::Items(lists) => few_items(alloc, &lists, arena, steps),
        _ => unreachable!(),
    }
}

/// One row of lists joined.
pub(crate) fn one_row<'a, L: Ledger>(
    alloc: Global,
    lists: &Lists<'a>,
    offsets: &Lane<'a>,
    row: &Array<'a>,
    arena: &'a Arena,
    steps: &mut Steps<L>,
) -> Result<Made<'a>, NoMemory>
    requires one { size_of lists.now.starts ≡ 1 }
    requires inner { is_list_or_unknown (array_type lists.now.content) ≡ true }
    requires row { JoinsLists lists.now.starts lists.now.stops lists.now.content offsets.now
        row.now }
    ensures { IfOk result (IsMade flatten_function lists.now.class lists.now.starts
        lists.now.stops lists.now.content) }
{
    let _ = lists.content();
    let _ = offsets.kind();
    match all_items(alloc, row, arena, steps)? {
        None => Ok(Made::Spoiled(Spoil::Size)),
        Some(items) => {
            let offsets = one_offsets(items.len(), arena)?;
            Ok(Made::Lists {
                offsets,
                content: items.node().copy(alloc)?,
            })
        }
    }
}
