//! An option by its index and what holds the items that are present.
ghost use Rattle.std.specs.Prelude.{◌≡◌, true, IfOk, IfSome};
ghost use Rattle.awk_types.specs.Simple.{is_option};
ghost use Rattle.awk_layout.specs.Layout.{optional};
ghost use Rattle.awk_layout.specs.Typing.{array_type};
ghost use Rattle.awk_layout.specs.Valid.{IsValid};
ghost use Rattle.awk_open.specs.Opened.{IsOpened};
ghost use Rattle.awk_open.specs.declared.opening.Opened.TheVariants as Opened;
ghost use Rattle.awk_fill.specs.Filled.{HoldsOption};

use awk_lanes::{Arena, Kind, Lane, Steps};
use awk_layout::{Array, Class, Datum, Node, Operand};
use awk_open::{Opened, open_array, opened};
use awk_types::{NoMemory, Prim, Typ};
use std::alloc::Global;
use std::sync::ledger::Ledger;

/// Whether a value becomes a number of 64 bits with a sign beside these.
fn is_wide(value: &Operand) -> bool {
    match value {
        Operand::Literal(_) => true,
        Operand::Of(Datum::Arr(x) | Datum::One(x)) => match x.typ() {
            Typ::Leaf(prim) => *prim == Prim::I64,
            _ => false,
        },
    }
}

/// An option, by its index and what holds the items that are present.
#[derive(Drop)]
pub(crate) struct Parts<'a> {
    pub(crate) index: Lane<'a>,
    pub(crate) content: Array<'a>,
}

/// The parts of an option, whose content holds what is present alone.
fn ordered_parts<'a, L: Ledger>(
    alloc: Global,
    x: &Array<'a>,
    arena: &'a Arena,
    steps: &mut Steps<L>,
) -> Result<Parts<'a>, NoMemory>
    requires option { is_option (array_type x.now) ≡ true }
    ensures { IfOk result (λ r. HoldsOption r.index r.content x.now) }
{
    match open_array(alloc, x, arena, steps)? {
        Opened::Option { index, content } => Ok(Parts { index, content }),
        _ => unreachable!(),
    }
}

/// The parts of an option over numbers of 64 bits with a sign, as they lie behind its index.
fn parts_over<'a>(
    alloc: Global,
    index: &Lane<'a>,
    content: &Node<'a>,
) -> Result<Option<Parts<'a>>, NoMemory>
    requires { IsValid (optional index.now content.now) }
    ensures { let x = optional index.now content.now in
        IfOk result (λ o. IfSome o (λ r. IsOpened x (Opened.Option r.index r.content))) }
{
    match content.class() {
        Class::Numpy { lane } if lane.kind() == Kind::I64 => {
            let content = Array::of_node(alloc, content.copy(alloc)?)?;
            Ok(Some(Parts {
                index: index.copy(),
                content,
            }))
        }
        _ => Ok(None),
    }
}

/// The same of an array that is one.
fn whole_parts<'a>(alloc: Global, x: &Array<'a>) -> Result<Option<Parts<'a>>, NoMemory>
    ensures { IfOk result (λ o. IfSome o (λ r. HoldsOption r.index r.content x.now)) }
{
    let _ = x.len();
    match x.node().class() {
        Class::IndexedOption { index, content } => parts_over(alloc, index, content),
        _ => Ok(None),
    }
}

/// Whether an array is a mask of bytes over numbers of 64 bits with a sign. No clause says so: it
/// is asked only to choose the quicker of two ways.
fn is_masked(x: &Array) -> bool {
    match x.node().class() {
        Class::ByteMasked { content, .. } => match content.class() {
            Class::Numpy { lane } => lane.kind() == Kind::I64,
            _ => false,
        },
        _ => false,
    }
}

/// The parts of an option, as its content lies.
fn opened_parts<'a, L: Ledger>(
    alloc: Global,
    x: &Array<'a>,
    arena: &'a Arena,
    steps: &mut Steps<L>,
) -> Result<Parts<'a>, NoMemory>
    requires option { is_option (array_type x.now) ≡ true }
    ensures { IfOk result (λ r. HoldsOption r.index r.content x.now) }
{
    let _ = x.len();
    match opened(alloc, x, arena, steps)? {
        Opened::Option { index, content } => Ok(Parts { index, content }),
        _ => unreachable!(),
    }
}

/// The parts of an option whose nulls become a value: as they lie where numbers are filled in one
/// pass, and else what is present alone.
pub(crate) fn parts_of<'a, L: Ledger>(
    alloc: Global,
    value: &Operand,
    x: &Array<'a>,
    arena: &'a Arena,
    steps: &mut Steps<L>,
) -> Result<Parts<'a>, NoMemory>
    requires option { is_option (array_type x.now) ≡ true }
    ensures { IfOk result (λ r. HoldsOption r.index r.content x.now) }
{
    if is_wide(value) {
        if is_masked(x) {
            return opened_parts(alloc, x, arena, steps);
        }
        let whole = whole_parts(alloc, x)?;
        if let Some(parts) = whole {
            return Ok(parts);
        }
    }
    ordered_parts(alloc, x, arena, steps)
}
