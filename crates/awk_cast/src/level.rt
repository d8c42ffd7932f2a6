//! An array once its outermost kind is taken off.
ghost use Rattle.std.specs.Prelude.{◌≡◌, false};
ghost use Rattle.awk_layout.specs.Layout.{Layout};
ghost use Rattle.awk_layout.specs.Typing.{array_type};
ghost use Rattle.awk_open.specs.Opens.{OpensLists};
ghost use Rattle.awk_types.specs.declared.primitive.Primitive.{Primitive};
ghost use Rattle.awk_cast.specs.Casting.{is_primitive, IsLevel};

use crate::fault::CastFault;
use crate::leaves::cast_leaves;
use awk_columns::{Joined, Lists};
use awk_kernels::Kernels;
use awk_lanes::{Arena, Lane, Steps};
use awk_layout::{Array, Arrays, Frame, Node};
use awk_open::{Opened, open_array};
use awk_types::{Prim, Typ};
use std::alloc::Global;
use std::sync::ledger::Ledger;

/// What lies over one content.
#[derive(Drop)]
pub enum Cover<'a> {
    /// Lists of a class, one after another, by their offsets.
    Lists(Option<u64>, Lane<'a>),
    /// The index of an option.
    Option(Lane<'a>),
}

/// An array once its outermost kind is taken off. The contents hold exactly what is reached.
#[derive(Drop)]
pub enum Level<'a> {
    /// What is made of an array without contents.
    Whole(Node<'a>),
    /// One content, the only array, under its cover.
    Over(Cover<'a>, Arrays<'a>),
    /// Several contents in their frame.
    Beside(Frame<'a>, Arrays<'a>),
}

/// Lists, over their items one list after another.
fn list_level<'a, L: Ledger>(
    alloc: Global,
    lists: &Lists<'a>,
    arena: &'a Arena,
    steps: &mut Steps<L>,
) -> Result<Level<'a>, CastFault>
    ensures { (p : Primitive) (x : Layout)
        → OpensLists lists.now.class lists.now.starts lists.now.stops lists.now.content x
        → IsLevel p x result }
{
    match lists.joined(alloc, arena, steps)? {
        Joined::TooMany => Err(CastFault::Size),
        Joined::Lists { offsets, content } => {
            let cover = Cover::Lists(lists.class(), offsets);
            Ok(Level::Over(cover, Arrays::only(alloc, content)?))
        }
    }
}

/// An array that has contents, or none and no items.
fn open_level<'a, L: Ledger>(
    alloc: Global,
    x: &Array<'a>,
    arena: &'a Arena,
    steps: &mut Steps<L>,
) -> Result<Level<'a>, CastFault>
    requires { is_primitive (array_type x.now) ≡ false }
    ensures { (p : Primitive) → IsLevel p x.now result }
{
    match open_array(alloc, x, arena, steps)? {
        Opened::Empty => Ok(Level::Whole(Node::empty(steps))),
        Opened::Leaf(_) => unreachable!(),
        Opened::Items(lists) => list_level(alloc, &lists, arena, steps),
        Opened::Row { names, columns } => Ok(Level::Beside(Frame::Row(names), columns)),
        Opened::Option { index, content } => {
            Ok(Level::Over(Cover::Option(index), Arrays::only(alloc, content)?))
        }
        Opened::Union {
            tags,
            index,
            contents,
        } => Ok(Level::Beside(Frame::Union(tags, index), contents)),
    }
}

/// An array of leaves with each of them in a primitive, and every other one taken apart.
pub(crate) fn level_of<'a, N: Kernels, L: Ledger>(
    alloc: Global,
    to: Prim,
    x: &Array<'a>,
    kernels: &N,
    arena: &'a Arena,
    steps: &mut Steps<L>,
) -> Result<Level<'a>, CastFault>
    ensures { IsLevel to x.now result }
{
    match x.typ() {
        Typ::Leaf(from) => {
            let node = cast_leaves(alloc, to, *from, x, kernels, arena, steps)?;
            Ok(Level::Whole(node))
        }
        _ => open_level(alloc, x, arena, steps),
    }
}
