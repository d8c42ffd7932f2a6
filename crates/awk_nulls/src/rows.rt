//! Lists that fill an option: their offsets among the items that are present, of which none is
//! counted twice.
ghost use Rattle.std.specs.Prelude.{◌≡◌, ◌<◌, ◌^◌, IfOk, IfSome};
ghost use Rattle.awk_lanes.specs.Places.{size_of};
ghost use Rattle.awk_layout.specs.Layout.{flat};
ghost use Rattle.awk_layout.specs.Valid.{len};
ghost use Rattle.awk_open.specs.Opened.{IsOpened};
ghost use Rattle.awk_open.specs.declared.opening.Opened.TheVariants as Opened;
ghost use Rattle.awk_list_functions.specs.DropNone.{drop_none_function};
ghost use Rattle.awk_list_functions.specs.Made.{IsMade};
ghost use Rattle.awk_nulls.specs.Lanes.{AreRowOffsets, HasPresent};

use crate::ends::count_between;
use awk_columns::{Bounds, Lists};
use awk_index::index_of;
use awk_lanes::{Arena, IndexMaker, Kind, Lane, Offsets, Steps, number};
use awk_layout::{Array, Class};
use awk_list_ends::span_or;
use awk_list_functions::{Made, Spoil};
use awk_list_numbers::all_named;
use awk_narrow::{OptionIndex, narrow_index};
use awk_open::{Opened, opened};
use awk_types::{ITEM_LIMIT, NoMemory};
use std::alloc::Global;
use std::sync::ledger::Ledger;

/// The offsets of lists among the items that are present, in one pass over these: none where a list
/// begins elsewhere than where the one before it ends, or an item stands behind the last.
fn row_offsets<'a, P: OptionIndex>(
    index: &P,
    lists: &Bounds,
    arena: &'a Arena,
) -> Result<Option<Offsets<'a>>, NoMemory>
    requires size { size_of (P.lane index.now) ≡ len lists.now.content }
    requires small { size_of (P.lane index.now) < 2 ^ 63 }
    ensures { IfOk result (λ r. IfSome r
        (AreRowOffsets (P.lane index.now) lists.now.starts lists.now.stops)) }
{
    let _ = lists.content();
    let n = lists.len();
    let mut maker = IndexMaker::new(n + 1, arena)?;
    maker.push(number(0));
    let mut place = 0;
    let mut count = 0;
    for i in 0..n {
        let span = span_or(lists, i, place);
        if span.start != place {
            return Ok(None);
        }
        let end = place + span.length;
        count += count_between(index, place, end);
        place = end;
        maker.push(number(count));
    }
    let size = index.size();
    if place < size {
        return Ok(None);
    }
    Ok(Some(Offsets {
        lane: maker.finish(),
        total: count,
    }))
}

/// The items of lists that are not null, where the lists fill an option: nothing where they do not.
pub(crate) fn filled_rows<'a, L: Ledger>(
    alloc: Global,
    lists: &Lists<'a>,
    index: &Lane<'a>,
    items: &Array<'a>,
    arena: &'a Arena,
    steps: &mut Steps<L>,
) -> Result<Option<Made<'a>>, NoMemory>
    requires items { HasPresent lists.now.content index.now items.now }
    ensures { IfOk result (λ r. IfSome r (IsMade drop_none_function lists.now.class
        lists.now.starts lists.now.stops lists.now.content)) }
{
    let _ = lists.content();
    let _ = items.len();
    let bounds = Bounds::new(alloc, lists, arena, steps)?;
    let places = index_of(alloc, index, arena, steps)?;
    match row_offsets(&places, &bounds, arena)? {
        Some(offsets) => {
            let total = offsets.total;
            if total > ITEM_LIMIT {
                return Ok(Some(Made::Spoiled(Spoil::Size)));
            }
            Ok(Some(Made::Lists {
                offsets: offsets.lane,
                content: items.node().copy(alloc)?,
            }))
        }
        None => Ok(None),
    }
}

/// The same of an option over numbers, which are moved at once.
fn number_rows<'a, P: OptionIndex, L: Ledger>(
    alloc: Global,
    lists: &Lists<'a>,
    index: &P,
    numbers: &Lane<'a>,
    arena: &'a Arena,
    steps: &mut Steps<L>,
) -> Result<Option<Made<'a>>, NoMemory>
    requires opened { let named = Opened.Option (P.lane index.now) (flat numbers.now) in
        IsOpened lists.now.content named }
    ensures { IfOk result (λ r. IfSome r (IsMade drop_none_function lists.now.class
        lists.now.starts lists.now.stops lists.now.content)) }
{
    let _ = lists.content();
    let bounds = Bounds::new(alloc, lists, arena, steps)?;
    match row_offsets(index, &bounds, arena)? {
        Some(offsets) => {
            let total = offsets.total;
            if total > ITEM_LIMIT {
                return Ok(Some(Made::Spoiled(Spoil::Size)));
            }
            let items = all_named(alloc, index, total, numbers, arena, steps)?;
            let _ = items.len();
            Ok(Some(Made::Lists {
                offsets: offsets.lane,
                content: items.node().copy(alloc)?,
            }))
        }
        None => Ok(None),
    }
}

/// The same by a lane of an index. One of 32 bits is read where it lies.
fn indexed_rows<'a, L: Ledger>(
    alloc: Global,
    lists: &Lists<'a>,
    index: &Lane<'a>,
    numbers: &Lane<'a>,
    arena: &'a Arena,
    steps: &mut Steps<L>,
) -> Result<Option<Made<'a>>, NoMemory>
    requires opened { IsOpened lists.now.content (Opened.Option index.now (flat numbers.now)) }
    ensures { IfOk result (λ r. IfSome r (IsMade drop_none_function lists.now.class
        lists.now.starts lists.now.stops lists.now.content)) }
{
    if index.kind() == Kind::I32 {
        let index = narrow_index(index, steps);
        return number_rows(alloc, lists, &index, numbers, arena, steps);
    }
    let index = index_of(alloc, index, arena, steps)?;
    number_rows(alloc, lists, &index, numbers, arena, steps)
}

/// The same of what an option opens to: nothing where it holds no numbers.
fn rows_over<'a, L: Ledger>(
    alloc: Global,
    lists: &Lists<'a>,
    index: &Lane<'a>,
    content: &Array<'a>,
    arena: &'a Arena,
    steps: &mut Steps<L>,
) -> Result<Option<Made<'a>>, NoMemory>
    requires opened { IsOpened lists.now.content (Opened.Option index.now content.now) }
    ensures { IfOk result (λ r. IfSome r (IsMade drop_none_function lists.now.class
        lists.now.starts lists.now.stops lists.now.content)) }
{
    match content.node().class() {
        Class::Numpy { lane } => indexed_rows(alloc, lists, index, lane, arena, steps),
        _ => Ok(None),
    }
}

/// The same of any lists: nothing where they fill no option over numbers.
pub(crate) fn opened_rows<'a, L: Ledger>(
    alloc: Global,
    lists: &Lists<'a>,
    arena: &'a Arena,
    steps: &mut Steps<L>,
) -> Result<Option<Made<'a>>, NoMemory>
    ensures { IfOk result (λ r. IfSome r (IsMade drop_none_function lists.now.class
        lists.now.starts lists.now.stops lists.now.content)) }
{
    match opened(alloc, lists.content(), arena, steps)? {
        Opened::Option { index, content } => {
            rows_over(alloc, lists, &index, &content, arena, steps)
        }
        _ => Ok(None),
    }
}
