//! Masks whose lists are of a type of size 1 somewhere, as masks of lists of any length.
ghost use Rattle.std.specs.Prelude.{◌≡◌, ◌<◌, ◌^◌, None, IfOk};
ghost use Rattle.awk_types.specs.Limit.{limit};
ghost use Rattle.awk_lanes.specs.Places.{size_of, AreSpans, IsOptionalIndex};
ghost use Rattle.awk_layout.specs.Layout as layout;
ghost use Rattle.awk_layout.specs.Typing.{array_type, array_items};
ghost use Rattle.awk_layout.specs.Valid.{len};
ghost use Rattle.awk_mask_pairs.specs.MaskTypes.{unsized};

use awk_columns::Lists;
use awk_lanes::{Arena, Lane, Steps};
use awk_layout::{Array, Node};
use awk_open::{Opened, open_array};
use awk_types::NoMemory;
use std::alloc::Global;
use std::sync::ledger::Ledger;

/// An index with nulls over items.
fn nulls_over<'a, L: Ledger>(
    alloc: Global,
    index: &Lane<'a>,
    items: &Array<'a>,
    steps: &mut Steps<L>,
) -> Result<Array<'a>, NoMemory>
    requires fits { size_of index.now < 2 ^ 63 }
    requires index { IsOptionalIndex index.now (len items.now) }
    requires limit { limit (array_type (layout.optional index.now items.now)) ≡ None }
    ensures { IfOk result (λ r. r ≡ layout.optional index.now items.now) }
{
    let content = Box::new(alloc, items.node().copy(alloc)?)?;
    Array::of_node(alloc, Node::indexed_option(index.copy(), content, steps))
}

/// Lists of any length over other items than their own.
fn lists_over<'a, L: Ledger>(
    alloc: Global,
    lists: &Lists<'a>,
    items: &Array<'a>,
    steps: &mut Steps<L>,
) -> Result<Array<'a>, NoMemory>
    requires spans { AreSpans lists.now.starts lists.now.stops (len items.now) }
    requires limit { let made = layout.lists lists.now.starts lists.now.stops items.now in
        limit (array_type made) ≡ None }
    ensures { IfOk result (λ r. r ≡ layout.lists lists.now.starts lists.now.stops items.now) }
{
    let _ = lists.content();
    let content = Box::new(alloc, items.node().copy(alloc)?)?;
    let starts = lists.starts().copy();
    let stops = lists.stops().copy();
    Array::of_node(alloc, Node::list(starts, stops, content, steps))
}

/// A mask as it stands, whose lists are of any length by their type.
pub fn any_length<'a, L: Ledger>(
    alloc: Global,
    m: &Array<'a>,
    arena: &'a Arena,
    steps: &mut Steps<L>,
) -> Result<Array<'a>, NoMemory>
    ensures typ { IfOk result (λ r. array_type r ≡ unsized (array_type m.now)) }
    ensures items { IfOk result (λ r. array_items r ≡ array_items m.now) }
{
    let _ = m.typ();
    match open_array(alloc, m, arena, steps)? {
        Opened::Option { index, content } => {
            let items = any_length(alloc, &content, arena, steps)?;
            let made = nulls_over(alloc, &index, &items, steps)?;
            Ok(made)
        }
        Opened::Items(lists) => {
            let items = any_length(alloc, lists.content(), arena, steps)?;
            let made = lists_over(alloc, &lists, &items, steps)?;
            Ok(made)
        }
        _ => m.copy(alloc),
    }
}
