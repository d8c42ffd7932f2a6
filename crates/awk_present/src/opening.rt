//! Options as their index and their content.
ghost use Rattle.std.specs.Prelude.{IfOk, IfSome};
ghost use Rattle.awk_layout.specs.Layout.{optional};
ghost use Rattle.awk_layout.specs.Valid.{IsValid};
ghost use Rattle.awk_open.specs.Opened.{IsOpened};

use awk_lanes::{Arena, Lane, Steps};
use awk_layout::{Array, Class, Node};
use awk_open::{Opened, opened};
use awk_types::NoMemory;
use std::alloc::Global;
use std::sync::ledger::Ledger;

/// An option of leaves that lie in a lane, as it lies.
fn option_over<'a>(
    alloc: Global,
    index: &Lane<'a>,
    content: &Node<'a>,
) -> Result<Option<Opened<'a>>, NoMemory>
    requires { IsValid (optional index.now content.now) }
    ensures { IfOk result (λ o. IfSome o (IsOpened (optional index.now content.now))) }
{
    match content.class() {
        Class::Numpy { .. } => {
            let content = Array::of_node(alloc, content.copy(alloc)?)?;
            Ok(Some(Opened::Option {
                index: index.copy(),
                content,
            }))
        }
        _ => Ok(None),
    }
}

/// An array that is such an option.
fn whole_option<'a>(alloc: Global, x: &Array<'a>) -> Result<Option<Opened<'a>>, NoMemory>
    ensures { IfOk result (λ o. IfSome o (IsOpened x.now)) }
{
    let _ = x.len();
    match x.node().class() {
        Class::IndexedOption { index, content } => option_over(alloc, index, content),
        _ => Ok(None),
    }
}

/// The outermost kind of an array. No lane is made of an option whose index lies over a lane.
pub(crate) fn opened_option<'a, L: Ledger>(
    alloc: Global,
    x: &Array<'a>,
    arena: &'a Arena,
    steps: &mut Steps<L>,
) -> Result<Opened<'a>, NoMemory>
    ensures { IfOk result (IsOpened x.now) }
{
    match whole_option(alloc, x)? {
        Some(kind) => Ok(kind),
        None => opened(alloc, x, arena, steps),
    }
}
