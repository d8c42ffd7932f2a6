//! An array once its outermost kind is taken off.
ghost use Rattle.std.specs.Prelude.{◌≡◌, false, IfOk};
ghost use Rattle.awk_types.specs.Predicates.{is_sized as is_sized_type};
ghost use Rattle.awk_layout.specs.Layout.{Layout};
ghost use Rattle.awk_layout.specs.Typing.{array_type};
ghost use Rattle.awk_open.specs.Opened.{IsOpened};
ghost use Rattle.awk_open.specs.declared.opening.Opened.TheVariants as Opened;
ghost use Rattle.awk_heights.specs.Levels.{IsLevel};

use crate::sized::sized_level;
use awk_columns::Lists;
use awk_lanes::{Arena, Lane, Steps};
use awk_layout::{Array, Arrays, Frame, Node};
use awk_open::{Opened, opened};
use awk_types::{NoMemory, is_sized};
use std::alloc::Global;
use std::sync::ledger::Ledger;

/// What lies over one content.
#[derive(Drop)]
pub enum Cover<'a> {
    /// Lists, from their starts below their stops.
    Lists(Lane<'a>, Lane<'a>),
    /// Lists at the places of an index, of so many lists of one size.
    Sized(Lane<'a>, u64, u64),
    /// The index of an option.
    Option(Lane<'a>),
}

/// An array once its outermost kind is taken off.
#[derive(Drop)]
pub enum Level<'a> {
    /// The node of an array without contents.
    Whole(Node<'a>),
    /// One content, the only array, under its cover.
    Over(Cover<'a>, Arrays<'a>),
    /// Several contents in their frame.
    Beside(Frame<'a>, Arrays<'a>),
}

/// Lists over their content.
fn lists_level<'a>(alloc: Global, lists: &Lists<'a>) -> Result<Level<'a>, NoMemory>
    ensures { (x : Layout) → IsOpened x (Opened.Items lists.now) →
        is_sized_type (array_type x) ≡ false → IfOk result (IsLevel x) }
{
    let starts = lists.starts().copy();
    let stops = lists.stops().copy();
    let content = lists.content().copy(alloc)?;
    let contents = Arrays::only(alloc, content)?;
    Ok(Level::Over(Cover::Lists(starts, stops), contents))
}

/// An array of another type than lists of one size.
fn open_level<'a, L: Ledger>(
    alloc: Global,
    x: &Array<'a>,
    arena: &'a Arena,
    steps: &mut Steps<L>,
) -> Result<Level<'a>, NoMemory>
    requires { is_sized_type (array_type x.now) ≡ false }
    ensures { IfOk result (IsLevel x.now) }
{
    match opened(alloc, x, arena, steps)? {
        Opened::Empty => Ok(Level::Whole(Node::empty(steps))),
        Opened::Leaf(lane) => Ok(Level::Whole(Node::numpy(lane, steps))),
        Opened::Items(lists) => lists_level(alloc, &lists),
        Opened::Row { names, columns } => Ok(Level::Beside(Frame::Row(names), columns)),
        Opened::Option { index, content } => {
            let contents = Arrays::only(alloc, content)?;
            Ok(Level::Over(Cover::Option(index), contents))
        }
        Opened::Union {
            tags,
            index,
            contents,
        } => Ok(Level::Beside(Frame::Union(tags, index), contents)),
    }
}

/// An array without contents as a node, and every other one taken apart.
pub(crate) fn level_of<'a, L: Ledger>(
    alloc: Global,
    x: &Array<'a>,
    arena: &'a Arena,
    steps: &mut Steps<L>,
) -> Result<Level<'a>, NoMemory>
    ensures { IfOk result (IsLevel x.now) }
{
    if is_sized(x.typ()) {
        sized_level(alloc, x, arena, steps)
    } else {
        open_level(alloc, x, arena, steps)
    }
}
