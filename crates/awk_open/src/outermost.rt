//! The outermost kind of any array.
ghost use Rattle.std.specs.Prelude.{◌≡◌, IfOk};
ghost use Rattle.awk_types.specs.Simple.{is_union, present};
ghost use Rattle.awk_types.specs.View.{typ_of};
ghost use Rattle.awk_open.specs.Inner.{IsInner};
ghost use Rattle.awk_open.specs.Opened.{IsOpened};

use crate::opening::{Opened, open_peeled};
use crate::unions::{open_union, open_union_option};
use crate::whole::opened_whole;
use awk_lanes::{Arena, Steps};
use awk_layout::Array;
use awk_types::{NoMemory, Typ, is_optional, is_union};
use std::alloc::Global;
use std::sync::ledger::Ledger;

/// Whether a type is a union or an option of one.
fn has_alternatives(t: &Typ) -> bool
    ensures { result ≡ is_union (present (typ_of t.now)) }
{
    match t {
        Typ::Opt(inner) => is_union(inner),
        _ => is_union(t),
    }
}

/// The same of an array that is not opened as it lies.
fn opened_other<'a, L: Ledger>(
    alloc: Global,
    x: &Array<'a>,
    arena: &'a Arena,
    steps: &mut Steps<L>,
) -> Result<Opened<'a>, NoMemory>
    ensures opened { IfOk result (IsOpened x.now) }
{
    if has_alternatives(x.typ()) {
        if is_optional(x.typ()) {
            open_union_option(alloc, x, arena, steps)
        } else {
            open_union(alloc, x, arena, steps)
        }
    } else {
        open_peeled(alloc, x, arena, steps)
    }
}

/// The same as `opened`, without what its contents are not.
fn opened_any<'a, L: Ledger>(
    alloc: Global,
    x: &Array<'a>,
    arena: &'a Arena,
    steps: &mut Steps<L>,
) -> Result<Opened<'a>, NoMemory>
    ensures opened { IfOk result (IsOpened x.now) }
{
    match opened_whole(alloc, x, arena, steps)? {
        Some(kind) => Ok(kind),
        None => opened_other(alloc, x, arena, steps),
    }
}

/// The outermost kind of an array, with lanes and contents in which its items are.
pub fn opened<'a, L: Ledger>(
    alloc: Global,
    x: &Array<'a>,
    arena: &'a Arena,
    steps: &mut Steps<L>,
) -> Result<Opened<'a>, NoMemory>
    ensures opened { IfOk result (IsOpened x.now) }
    ensures inner { IfOk result IsInner }
{
    let _ = x.typ();
    opened_any(alloc, x, arena, steps)
}
