//! The items that are not null.
ghost use Rattle.std.specs.Prelude.{◌≡◌, ◌<◌, true, false, IfOk};
ghost use Rattle.awk_types.specs.Faults.{fault_told};
ghost use Rattle.awk_types.specs.Gives.{Gives};
ghost use Rattle.awk_types.specs.Simple.{is_option};
ghost use Rattle.awk_layout.specs.Datum.{datum_of, IsDatum};
ghost use Rattle.awk_layout.specs.Typing.{array_type};
ghost use Rattle.awk_list_functions.specs.DropNone.{drop_none_function};
ghost use Rattle.awk_list_functions.specs.Made.{IsMade};
ghost use Rattle.awk_nulls.specs.DropNone.{drop_none_of};
ghost use Rattle.awk_nulls.specs.Lanes.{HasPresent};

use crate::ends::ends_among_present;
use crate::presence::{has_options, option_items};
use crate::rows::{filled_rows, opened_rows};
use crate::singles::present_typ;
use awk_axis::lift_at;
use awk_columns::{Joined, Lists, join_spans};
use awk_lanes::{Arena, Lane, Steps};
use awk_layout::{Array, Datum};
use awk_list_ends::are_few;
use awk_list_functions::{ListOp, Made, Refusal, Spoil};
use awk_list_numbers::has_numbers;
use awk_types::{Fault, NoMemory, Typ};
use std::alloc::Global;
use std::sync::ledger::Ledger;

/// The lists among the items that are present, one after another.
fn present_lists<'a, L: Ledger>(
    alloc: Global,
    lists: &Lists<'a>,
    index: &Lane<'a>,
    items: &Array<'a>,
    arena: &'a Arena,
    steps: &mut Steps<L>,
) -> Result<Made<'a>, NoMemory>
    requires items { HasPresent lists.now.content index.now items.now }
    ensures { IfOk result (IsMade drop_none_function lists.now.class lists.now.starts
        lists.now.stops lists.now.content) }
{
    let _ = lists.content();
    let ends = ends_among_present(alloc, index, lists, arena, steps)?;
    match join_spans(alloc, None, &ends.starts, &ends.stops, items, arena, steps)? {
        Joined::TooMany => Ok(Made::Spoiled(Spoil::Size)),
        Joined::Lists { offsets, content } => {
            let _ = content.len();
            Ok(Made::Lists {
                offsets,
                content: content.node().copy(alloc)?,
            })
        }
    }
}

/// The items of lists that are not null, by the index of the option.
fn dropped_lists<'a, L: Ledger>(
    alloc: Global,
    lists: &Lists<'a>,
    index: &Lane<'a>,
    items: &Array<'a>,
    arena: &'a Arena,
    steps: &mut Steps<L>,
) -> Result<Made<'a>, NoMemory>
    requires items { HasPresent lists.now.content index.now items.now }
    ensures { IfOk result (IsMade drop_none_function lists.now.class lists.now.starts
        lists.now.stops lists.now.content) }
{
    let rows = filled_rows(alloc, lists, index, items, arena, steps)?;
    if let Some(made) = rows {
        return Ok(made);
    }
    present_lists(alloc, lists, index, items, arena, steps)
}

/// The items of lists that are not null, of a type that is an option.
fn dropped<'a, L: Ledger>(
    alloc: Global,
    lists: &Lists<'a>,
    arena: &'a Arena,
    steps: &mut Steps<L>,
) -> Result<Made<'a>, NoMemory>
    requires option { is_option (array_type lists.now.content) ≡ true }
    ensures { IfOk result (IsMade drop_none_function lists.now.class lists.now.starts
        lists.now.stops lists.now.content) }
{
    if has_numbers(lists.content()) {
        let rows = opened_rows(alloc, lists, arena, steps)?;
        if let Some(made) = rows {
            return Ok(made);
        }
    }
    let items = option_items(alloc, lists.content(), arena, steps)?;
    dropped_lists(alloc, lists, &items.index, &items.content, arena, steps)
}

/// Lists whose items are of a type that is no option, as they lie: they are counted, and no item is
/// moved.
fn kept_lists<'a, L: Ledger>(
    alloc: Global,
    lists: &Lists<'a>,
    arena: &'a Arena,
    steps: &mut Steps<L>,
) -> Result<Made<'a>, NoMemory>
    requires plain { is_option (array_type lists.now.content) ≡ false }
    ensures { IfOk result (IsMade drop_none_function lists.now.class lists.now.starts
        lists.now.stops lists.now.content) }
{
    let _ = lists.content().len();
    let few = are_few(alloc, lists, arena, steps)?;
    if few {
        let made = Made::as_they_lie(alloc, lists)?;
        return Ok(made);
    }
    Ok(Made::Spoiled(Spoil::Size))
}

/// The items of a list that are not null.
#[derive(Clone, Copy, Debug, PartialEq, Eq)]
struct PresentItems;

impl ListOp for PresentItems {
    ghost function = { λ f. drop_none_function };

    fn refusal(&self, _item: &Typ) -> Option<Refusal> {
        None
    }

    fn typ(&self, alloc: Global, item: &Typ) -> Result<Typ, NoMemory> {
        present_typ(alloc, item)
    }

    fn gives_lists(&self) -> bool {
        true
    }

    fn class(&self, _class: Option<u64>) -> Option<u64> {
        None
    }

    fn tells_index(&self) -> bool {
        false
    }

    fn counts_given(&self) -> bool {
        true
    }

    fn column<'a, L: Ledger>(
        &self,
        alloc: Global,
        lists: &Lists<'a>,
        arena: &'a Arena,
        steps: &mut Steps<L>,
    ) -> Result<Made<'a>, NoMemory> {
        if has_options(lists) {
            dropped(alloc, lists, arena, steps)
        } else {
            kept_lists(alloc, lists, arena, steps)
        }
    }
}

/// The items of each list at an axis that are not null. Each list that is given may have any
/// length.
pub fn drop_none<'a, L: Ledger>(
    alloc: Global,
    x: &Datum<'a>,
    axis: i64,
    arena: &'a Arena,
    steps: &mut Steps<L>,
) -> Result<Datum<'a>, Fault>
    requires datum { IsDatum x.now }
    ensures answer { Gives datum_of fault_told result (drop_none_of axis (datum_of x.now)) }
    ensures datum { IfOk result (λ made. IsDatum made) }
{
    lift_at(alloc, &PresentItems, x, axis, arena, steps)
}
