//! The items of an array that another array names.
ghost use Rattle.std.specs.Prelude.{IfOk};
ghost use Rattle.awk_types.specs.Gives.{Gives};
ghost use Rattle.awk_types.specs.Faults.{fault_told};
ghost use Rattle.awk_layout.specs.Datum.{IsDatum, datum_of};
ghost use Rattle.awk_types.specs.View.{typ_of};
ghost use Rattle.awk_eval.specs.Eval as meaning;

use awk_jagged::{is_jagged, jagged};
use awk_lanes::{Arena, Steps};
use awk_layout::Datum;
use awk_select::{is_mask, mask, take};
use awk_types::{Fault, Typ};
use std::alloc::Global;
use std::sync::ledger::Ledger;

/// The items of an array that another names, by a mask or an index, or row by row.
pub(crate) fn pick_of<'s, L: Ledger>(
    alloc: Global,
    e: &Datum<'s>,
    x: &Datum<'s>,
    arena: &'s Arena,
    steps: &mut Steps<L>,
) -> Result<Datum<'s>, Fault>
    ensures answer { Gives datum_of fault_told result
        (meaning.pick_of (datum_of e.now) (datum_of x.now)) }
    ensures datum { IfOk result (λ made. IsDatum made) }
{
    match e {
        Datum::Arr(_) => match x {
            Datum::Arr(items) => picked(alloc, e, x, items.typ(), arena, steps),
            Datum::One(_) => Err(Fault::WrongType),
        },
        Datum::One(_) => Err(Fault::WrongType),
    }
}

// The same, where the items that name others are of a type.
fn picked<'s, L: Ledger>(
    alloc: Global,
    e: &Datum<'s>,
    x: &Datum<'s>,
    u: &Typ,
    arena: &'s Arena,
    steps: &mut Steps<L>,
) -> Result<Datum<'s>, Fault>
    ensures answer { Gives datum_of fault_told result
        (meaning.pick_by (typ_of u.now) (datum_of e.now) (datum_of x.now)) }
    ensures datum { IfOk result (λ made. IsDatum made) }
{
    if is_jagged(u) {
        jagged(alloc, e, x, arena, steps)
    } else if is_mask(u) {
        mask(alloc, e, x, arena, steps)
    } else {
        take(alloc, e, x, arena, steps)
    }
}
