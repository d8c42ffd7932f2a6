//! Columns of which some are optional, without an index where nothing in them is null.
ghost use Rattle.std.specs.Prelude.{◌≡◌, None, IfOk, IfSome};
ghost use Rattle.awk_types.specs.Limit.{limit};
ghost use Rattle.awk_layout.specs.Layout.{unmasked};
ghost use Rattle.awk_layout.specs.Typing.{array_type};
ghost use Rattle.awk_merge_sides.specs.Sides.{sides_of, IsCounted};
ghost use Rattle.awk_merge_rows.specs.PresentLevels.{IsPresentLevel, IsWhole, IsWholeLevel};

use crate::options::{OptionLevel, option_level};
use awk_lanes::{Arena, Lane, Steps};
use awk_layout::{Array, Class, Node};
use awk_merge_sides::Sides;
use awk_types::{NoMemory, is_optional};
use std::alloc::Global;
use std::sync::ledger::Ledger;

/// The columns of what is present, and where that lies among the items of all. Where there is no
/// index, all items are present, one after another.
#[derive(Drop)]
pub struct PresentLevel<'a> {
    pub index: Option<Lane<'a>>,
    pub sides: Sides<'a>,
}

/// The items of an unmasked node, where its content has no more, and is no option itself.
fn unmasked_items<'a>(
    alloc: Global,
    n: u64,
    content: &Node<'a>,
) -> Result<Option<Array<'a>>, NoMemory>
    requires { limit (array_type (unmasked n content.now)) ≡ None }
    ensures { IfOk result (λ found. IfSome found (IsWhole (unmasked n content.now))) }
{
    if content.len() != n {
        return Ok(None);
    }
    let items = Array::of_node(alloc, content.copy(alloc)?)?;
    if is_optional(items.typ()) {
        return Ok(None);
    }
    Ok(Some(items))
}

/// A column of what is never null, or what an unmasked node holds.
fn whole_column<'a>(alloc: Global, column: &Array<'a>) -> Result<Option<Array<'a>>, NoMemory>
    ensures { IfOk result (λ found. IfSome found (IsWhole column.now)) }
{
    if !is_optional(column.typ()) {
        return Ok(Some(column.copy(alloc)?));
    }
    match column.node().class() {
        Class::Unmasked { content } => unmasked_items(alloc, column.len(), content),
        _ => Ok(None),
    }
}

/// The columns of what is present, where none of all has an index.
fn whole_sides<'a>(alloc: Global, sides: &Sides<'a>) -> Result<Option<Sides<'a>>, NoMemory>
    ensures whole { IfOk result (λ found. IfSome found (λ present.
        IsWholeLevel (sides_of sides.now) (sides_of present))) }
    ensures counted { IfOk result (λ found. IfSome found IsCounted) }
{
    let mut present = Sides::new(alloc);
    for i in 0..sides.len() {
        let side = sides.get(i);
        let Some(column) = whole_column(alloc, &side.column)? else {
            return Ok(None);
        };
        present.push(alloc, column, &side.lift)?;
    }
    Ok(Some(present))
}

/// The columns without their nulls, and an index into all their items where one of them has one.
pub fn present_level<'a, L: Ledger>(
    alloc: Global,
    sides: &Sides<'a>,
    arena: &'a Arena,
    steps: &mut Steps<L>,
) -> Result<PresentLevel<'a>, NoMemory>
    requires counted { IsCounted sides.now }
    ensures { IfOk result (IsPresentLevel (sides_of sides.now)) }
{
    if let Some(present) = whole_sides(alloc, sides)? {
        return Ok(PresentLevel {
            index: None,
            sides: present,
        });
    }
    let OptionLevel { index, sides } = option_level(alloc, sides, arena, steps)?;
    Ok(PresentLevel {
        index: Some(index),
        sides,
    })
}
