//! The items of an array that are not null.
ghost use Rattle.std.specs.Prelude.{◌≡◌, ◌<◌, ◌+◌, ◌^◌, true, IfOk};
ghost use Rattle.awk_types.specs.Simple.{is_option};
ghost use Rattle.awk_lanes.specs.Places.{size_of, IsOptionalIndex};
ghost use Rattle.awk_layout.specs.Layout.{flat};
ghost use Rattle.awk_layout.specs.Typing.{array_type};
ghost use Rattle.awk_counts.specs.Counted.{first_of, present_at, numbers_at};
ghost use Rattle.awk_open.specs.Opened.{IsOpened};
ghost use Rattle.awk_open.specs.declared.opening.Opened.TheVariants as Opened;
ghost use Rattle.awk_nulls.specs.Lanes.{ArePresent, HasPresent};

use awk_columns::Lists;
use awk_counts::present_counts;
use awk_index::index_of;
use awk_lanes::{Arena, Kind, Lane, Steps, ordinals};
use awk_layout::{Array, Class};
use awk_list_numbers::{has_numbers, named_numbers};
use awk_narrow::narrow_index;
use awk_open::{Opened, open_array, opened};
use awk_types::{NoMemory, is_optional};
use std::alloc::Global;
use std::sync::ledger::Ledger;

/// The items of an array that are not null.
#[derive(Drop)]
pub struct Present<'a> {
    /// How many stand before each item of the array, and how many there are.
    pub counts: Lane<'a>,
    pub content: Array<'a>,
}

/// The items of an option that are not null, in order, and an index that is negative for null.
#[derive(Drop)]
pub(crate) struct OptionItems<'a> {
    pub(crate) index: Lane<'a>,
    pub(crate) content: Array<'a>,
}

/// Whether the items of lists are optional.
pub(crate) fn has_options(lists: &Lists) -> bool
    ensures { result ≡ is_option (array_type lists.now.content) }
{
    is_optional(lists.content().typ())
}

/// The numbers that the index of an option names. One of 32 bits is read where it lies.
fn indexed_numbers<'a, L: Ledger>(
    alloc: Global,
    index: &Lane<'a>,
    lane: &Lane,
    arena: &'a Arena,
    steps: &mut Steps<L>,
) -> Result<Array<'a>, NoMemory>
    requires index { IsOptionalIndex index.now (size_of lane.now) }
    requires small { size_of index.now < 2 ^ 63 }
    ensures { let places = first_of (present_at index.now) (size_of index.now) in
        IfOk result (λ r. r ≡ flat (numbers_at lane.now places)) }
{
    if index.kind() == Kind::I32 {
        let index = narrow_index(index, steps);
        return named_numbers(alloc, &index, lane, arena, steps);
    }
    let index = index_of(alloc, index, arena, steps)?;
    named_numbers(alloc, &index, lane, arena, steps)
}

/// The items of an option that are not null, by its index in order.
fn ordered_items<'a, L: Ledger>(
    alloc: Global,
    x: &Array<'a>,
    arena: &'a Arena,
    steps: &mut Steps<L>,
) -> Result<OptionItems<'a>, NoMemory>
    requires option { is_option (array_type x.now) ≡ true }
    ensures { IfOk result (λ r. HasPresent x.now r.index r.content) }
{
    match open_array(alloc, x, arena, steps)? {
        Opened::Option { index, content } => Ok(OptionItems { index, content }),
        _ => unreachable!(),
    }
}

/// The same of what an option opens to: numbers are moved at once, and its index stays.
fn moved_items<'a, L: Ledger>(
    alloc: Global,
    x: &Array<'a>,
    index: &Lane<'a>,
    content: &Array<'a>,
    arena: &'a Arena,
    steps: &mut Steps<L>,
) -> Result<OptionItems<'a>, NoMemory>
    requires option { is_option (array_type x.now) ≡ true }
    requires opened { IsOpened x.now (Opened.Option index.now content.now) }
    ensures { IfOk result (λ r. HasPresent x.now r.index r.content) }
{
    match content.node().class() {
        Class::Numpy { lane } => {
            let numbers = indexed_numbers(alloc, index, lane, arena, steps)?;
            let _ = numbers.len();
            Ok(OptionItems {
                index: index.copy(),
                content: numbers,
            })
        }
        _ => ordered_items(alloc, x, arena, steps),
    }
}

/// The same of an option over numbers.
fn number_items<'a, L: Ledger>(
    alloc: Global,
    x: &Array<'a>,
    arena: &'a Arena,
    steps: &mut Steps<L>,
) -> Result<OptionItems<'a>, NoMemory>
    requires option { is_option (array_type x.now) ≡ true }
    ensures { IfOk result (λ r. HasPresent x.now r.index r.content) }
{
    match opened(alloc, x, arena, steps)? {
        Opened::Option { index, content } => {
            moved_items(alloc, x, &index, &content, arena, steps)
        }
        _ => unreachable!(),
    }
}

/// The items of an option that are not null. Numbers behind an index are moved at once.
pub(crate) fn option_items<'a, L: Ledger>(
    alloc: Global,
    x: &Array<'a>,
    arena: &'a Arena,
    steps: &mut Steps<L>,
) -> Result<OptionItems<'a>, NoMemory>
    requires option { is_option (array_type x.now) ≡ true }
    ensures { IfOk result (λ r. HasPresent x.now r.index r.content) }
{
    if has_numbers(x) {
        return number_items(alloc, x, arena, steps);
    }
    ordered_items(alloc, x, arena, steps)
}

/// The items that are not null, in order.
pub fn present_of<'a, L: Ledger>(
    alloc: Global,
    x: &Array<'a>,
    arena: &'a Arena,
    steps: &mut Steps<L>,
) -> Result<Present<'a>, NoMemory>
    ensures { IfOk result (λ r. ArePresent x.now r.counts r.content) }
{
    let n = x.len();
    if !is_optional(x.typ()) {
        let counts = ordinals(n + 1, arena, steps)?;
        let content = x.copy(alloc)?;
        return Ok(Present { counts, content });
    }
    let items = option_items(alloc, x, arena, steps)?;
    let counts = present_counts(alloc, &items.index, arena, steps)?;
    Ok(Present {
        counts,
        content: items.content,
    })
}
