//! The lanes of one node, and the arrays of its contents.
ghost use Rattle.std.specs.Prelude.{◌≡◌, List, true, IfOk};
ghost use Rattle.awk_types.specs.DataType.{DataType};
ghost use Rattle.awk_types.specs.Value.{Value};
ghost use Rattle.awk_types.specs.View.{typ_of};
ghost use Rattle.awk_layout.specs.Typing.{array_type, array_items};
ghost use Rattle.awk_open.specs.declared.opening.Opened.TheVariants as Opened;
ghost use Rattle.awk_pack.specs.Canon.{is_too_large};
ghost use Rattle.awk_pack.specs.Packing.{IsColumn, IsLeft, IfSize};

use crate::column::{joined, leaf_lane};
use crate::inside::reach_too_many;
use crate::packed::PackFault;
use awk_columns::Lists;
use awk_lanes::{Arena, ByteLanes, Lane, Steps};
use awk_layout::{Array, Arrays};
use awk_open::{Opened, in_order};
use awk_types::{ITEM_LIMIT, NoMemory, Typ, is_sized};
use std::alloc::Global;
use std::sync::ledger::Ledger;

/// Numbers or truth values, which have no contents.
fn leaf_contents<'a, L: Ledger>(
    alloc: Global,
    lane: &Lane<'a>,
    lanes: &mut ByteLanes<'a>,
    arena: &'a Arena,
    steps: &mut Steps<L>,
) -> Result<Arrays<'a>, NoMemory>
    ensures left { (t : DataType) (vs : List Value) → IsColumn t vs (Opened.Leaf lane.now) →
        IfOk result (λ ys. IsLeft t vs lanes.old ys lanes.new) }
{
    lanes.push(leaf_lane(lane, arena, steps)?, arena)?;
    Ok(Arrays::new(alloc))
}

/// Lists, by their type: offsets where their lengths differ, and their items.
fn list_contents<'a, L: Ledger>(
    alloc: Global,
    typ: &Typ,
    opened: &Lists<'a>,
    lanes: &mut ByteLanes<'a>,
    arena: &'a Arena,
    steps: &mut Steps<L>,
) -> Result<Arrays<'a>, PackFault>
    ensures left { (vs : List Value) → IsColumn (typ_of typ.now) vs (Opened.Items opened.now) →
        IfOk result (λ ys. IsLeft (typ_of typ.now) vs lanes.old ys lanes.new) }
    ensures size { (vs : List Value) → IsColumn (typ_of typ.now) vs (Opened.Items opened.now) →
        IfSize result (is_too_large (typ_of typ.now) vs ≡ true) }
{
    if reach_too_many(alloc, opened, arena, steps)? {
        return Err(PackFault::Size);
    }
    let lists = joined(
        alloc,
        opened.starts(),
        opened.stops(),
        opened.content(),
        arena,
        steps,
    )?;
    if is_sized(typ) {
        return Ok(Arrays::only(alloc, lists.content)?);
    }
    lanes.push(lists.offsets, arena)?;
    Ok(Arrays::only(alloc, lists.content)?)
}

/// The arrays of the contents of a node, each holding the column of a node below. The lanes of the
/// node itself are put behind the others.
pub(crate) fn contents<'a, L: Ledger>(
    alloc: Global,
    x: &Array<'a>,
    lanes: &mut ByteLanes<'a>,
    arena: &'a Arena,
    steps: &mut Steps<L>,
) -> Result<Arrays<'a>, PackFault>
    ensures left { IfOk result (λ ys.
        IsLeft (array_type x.now) (array_items x.now) lanes.old ys lanes.new) }
    ensures size { IfSize result (is_too_large (array_type x.now) (array_items x.now) ≡ true) }
{
    if x.len() > ITEM_LIMIT {
        return Err(PackFault::Size);
    }
    match in_order(alloc, x, arena, steps)? {
        Opened::Empty => Ok(Arrays::new(alloc)),
        Opened::Leaf(lane) => Ok(leaf_contents(alloc, &lane, lanes, arena, steps)?),
        Opened::Items(lists) => list_contents(alloc, x.typ(), &lists, lanes, arena, steps),
        Opened::Row { columns, .. } => Ok(columns),
        Opened::Option { index, content } => {
            lanes.push(index, arena)?;
            Ok(Arrays::only(alloc, content)?)
        }
        Opened::Union {
            tags,
            index,
            contents,
        } => {
            lanes.push(tags, arena)?;
            lanes.push(index, arena)?;
            Ok(contents)
        }
    }
}
