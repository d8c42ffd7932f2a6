//! Columns in order: an outermost kind whose contents hold exactly the items that are reached.
ghost use Rattle.std.specs.Prelude.{◌≡◌, false, length, IfOk};
ghost use Rattle.awk_types.specs.Simple.{is_option};
ghost use Rattle.awk_layout.specs.Layout.{Layout, layouts_from, optional, union as united};
ghost use Rattle.awk_layout.specs.Typing.{array_type, array_items};
ghost use Rattle.awk_layout.specs.Valid.{len, IsValid};
ghost use Rattle.awk_counts.specs.Counted.{tag_counts};
ghost use Rattle.awk_open.specs.InOrder.{IsInOrder};
ghost use Rattle.awk_open.specs.Inner.{IsInner};
ghost use Rattle.awk_open.specs.Opened.{IsOpened};
ghost use Rattle.awk_columns.specs.Reached.{AreReached};
ghost use Rattle.awk_open.specs.declared.opening.Opened.TheVariants as Opened;

use crate::opening::Opened;
use crate::outermost::opened;
use crate::taken::taken;
use awk_counts::{count_present, counted, counted_union, present_lane, tagged_lanes};
use awk_index::{Index, index_of};
use awk_lanes::{Arena, Lane, Steps};
use awk_layout::{Array, Arrays};
use awk_types::NoMemory;
use std::alloc::Global;
use std::sync::ledger::Ledger;

/// An option over its present items alone, by its index seen at once.
fn order_seen<'a, L: Ledger>(
    alloc: Global,
    index: &Index<'a>,
    content: &Array<'a>,
    arena: &'a Arena,
    steps: &mut Steps<L>,
) -> Result<Opened<'a>, NoMemory>
    requires valid { IsValid (optional index.now content.now) }
    requires present { is_option (array_type content.now) ≡ false }
    ensures opened { (x : Layout) → IsOpened x (Opened.Option index.now content.now) →
        IfOk result (IsOpened x) }
    ensures order { (x : Layout) → IsOpened x (Opened.Option index.now content.now) →
        IfOk result (IsInOrder (array_items x)) }
{
    let n = count_present(index);
    let places = present_lane(index, n, arena)?;
    let items = taken(alloc, content, &places, arena, steps)?;
    let _ = items.len();
    let index = counted(index, arena)?;
    Ok(Opened::Option {
        index,
        content: items,
    })
}

/// An option over its present items alone.
fn order_option<'a, L: Ledger>(
    alloc: Global,
    index: &Lane<'a>,
    content: &Array<'a>,
    arena: &'a Arena,
    steps: &mut Steps<L>,
) -> Result<Opened<'a>, NoMemory>
    requires valid { IsValid (optional index.now content.now) }
    requires present { is_option (array_type content.now) ≡ false }
    ensures opened { (x : Layout) → IsOpened x (Opened.Option index.now content.now) →
        IfOk result (IsOpened x) }
    ensures order { (x : Layout) → IsOpened x (Opened.Option index.now content.now) →
        IfOk result (IsInOrder (array_items x)) }
{
    let index = index_of(alloc, index, arena, steps)?;
    order_seen(alloc, &index, content, arena, steps)
}

/// The items of each alternative alone, by how many there are of each.
fn taken_of_each<'a, L: Ledger>(
    alloc: Global,
    tags: &Lane<'a>,
    index: &Lane<'a>,
    counts: &[u64],
    contents: &Arrays<'a>,
    arena: &'a Arena,
    steps: &mut Steps<L>,
) -> Result<Arrays<'a>, NoMemory>
    requires valid { IsValid (united tags.now index.now (layouts_from contents.now)) }
    requires counts { counts.now ≡ tag_counts tags.now index.now (length contents.now) }
    ensures { IfOk result (AreReached tags.now index.now 0 contents.now) }
{
    let places = tagged_lanes(alloc, tags, index, counts, arena, steps)?;
    let mut arrays = Arrays::new(alloc);
    let mut a = 0;
    while a < contents.len() {
        let items = taken(alloc, contents.get(a), places.get(a), arena, steps)?;
        let _ = items.len();
        arrays.push(items)?;
        a += 1;
    }
    Ok(arrays)
}

/// A union over the items of each alternative alone.
fn order_union<'a, L: Ledger>(
    alloc: Global,
    tags: &Lane<'a>,
    index: &Lane<'a>,
    contents: &Arrays<'a>,
    arena: &'a Arena,
    steps: &mut Steps<L>,
) -> Result<Opened<'a>, NoMemory>
    requires valid { IsValid (united tags.now index.now (layouts_from contents.now)) }
    ensures opened { (x : Layout) → IsOpened x (Opened.Union tags.now index.now contents.now) →
        IfOk result (IsOpened x) }
    ensures order { (x : Layout) → IsOpened x (Opened.Union tags.now index.now contents.now) →
        IfOk result (IsInOrder (array_items x)) }
{
    let counted = counted_union(alloc, tags, index, contents.len(), arena, steps)?;
    let taken = taken_of_each(alloc, tags, index, &counted.counts, contents, arena, steps)?;
    Ok(Opened::Union {
        tags: tags.copy(),
        index: counted.index,
        contents: taken,
    })
}

/// The outermost kind of an array, whose contents hold exactly what is reached, in order.
///
/// An option's content holds its present items, and its index counts 0, 1 and so on, with -1 for
/// each null. A union's contents hold the items of each alternative, and its index counts so for
/// each. The columns of rows are those of all rows. Lists are given as they lie: `join_lists` puts
/// their items in order.
pub fn in_order<'a, L: Ledger>(
    alloc: Global,
    x: &Array<'a>,
    arena: &'a Arena,
    steps: &mut Steps<L>,
) -> Result<Opened<'a>, NoMemory>
    ensures opened { IfOk result (IsOpened x.now) }
    ensures inner { IfOk result IsInner }
    ensures order { IfOk result (IsInOrder (array_items x.now)) }
{
    let _ = x.typ();
    let _ = x.len();
    match opened(alloc, x, arena, steps)? {
        Opened::Option { index, content } => order_option(alloc, &index, &content, arena, steps),
        Opened::Union {
            tags,
            index,
            contents,
        } => order_union(alloc, &tags, &index, &contents, arena, steps),
        Opened::Empty => Ok(Opened::Empty),
        Opened::Leaf(lane) => Ok(Opened::Leaf(lane)),
        Opened::Items(lists) => Ok(Opened::Items(lists)),
        Opened::Row { names, columns } => Ok(Opened::Row { names, columns }),
    }
}
