//! Lists of one size: their node stays as it lies, under one index.
ghost use Rattle.std.specs.Prelude.{◌≡◌, true, IfOk, None};
ghost use Rattle.awk_types.specs.Limit.{limit};
ghost use Rattle.awk_types.specs.Predicates.{is_sized};
ghost use Rattle.awk_layout.specs.Layout.{regular};
ghost use Rattle.awk_layout.specs.Typing.{array_type};
ghost use Rattle.awk_layout.specs.Valid.{len, IsValid};
ghost use Rattle.awk_heights.specs.Levels.{is_regular, IsLevel};

use crate::level::{Cover, Level};
use awk_gather::{Peeled, peel};
use awk_lanes::{Arena, Steps, ordinals};
use awk_layout::{Array, Arrays, Class, Node};
use awk_types::NoMemory;
use std::alloc::Global;
use std::sync::ledger::Ledger;

/// The size of the lists of a regular node, and its content.
fn regular_parts<'n, 'a>(x: &'n Node<'a>) -> (u64, &'n Node<'a>)
    requires { is_regular x.now ≡ true }
    ensures parts { x.now ≡ regular result.0 (len x.now) result.1.now }
    ensures valid { IsValid x.now }
{
    match x.class() {
        Class::Regular { size, content } => (size, content),
        _ => unreachable!(),
    }
}

/// The content of a regular node as an array.
fn regular_content<'a>(alloc: Global, content: &Node<'a>) -> Result<Array<'a>, NoMemory>
    requires { limit (array_type content.now) ≡ None }
    ensures { IfOk result (λ y. y ≡ content.now) }
{
    let copied = content.copy(alloc)?;
    Array::of_node(alloc, copied)
}

/// An array of lists of one size, over the content of its node.
pub(crate) fn sized_level<'a, L: Ledger>(
    alloc: Global,
    x: &Array<'a>,
    arena: &'a Arena,
    steps: &mut Steps<L>,
) -> Result<Level<'a>, NoMemory>
    requires { is_sized (array_type x.now) ≡ true }
    ensures { IfOk result (IsLevel x.now) }
{
    let _ = x.typ();
    let places = ordinals(x.len(), arena, steps)?;
    let Peeled { index, content } = peel(alloc, x.node(), places, arena, steps)?;
    let (size, inner) = regular_parts(&content);
    let inner = regular_content(alloc, inner)?;
    let cover = Cover::Sized(index, size, content.len());
    Ok(Level::Over(cover, Arrays::only(alloc, inner)?))
}
