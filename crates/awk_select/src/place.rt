//! The item at a place.
ghost use Rattle.std.specs.Prelude.{◌≡◌, IfOk};
ghost use Rattle.awk_types.specs.Faults.{fault_told};
ghost use Rattle.awk_types.specs.Gives.{Gives};
ghost use Rattle.awk_layout.specs.Datum.{IsDatum, datum_of};
ghost use Rattle.awk_layout.specs.Typing.{array_datum};
ghost use Rattle.awk_select.specs.Picks.{at_of};

use crate::places::place_in;
use awk_lanes::{Arena, Steps};
use awk_layout::{Array, Datum};
use awk_types::Fault;
use awk_view::item_at;
use std::alloc::Global;
use std::sync::ledger::Ledger;

/// The item of an array at a place, settled. A negative place counts from the end. `WrongType`
/// tells that it is a single value, and `Index` that the array has no such place. It makes no lane,
/// and
/// takes the arena as every operation does.
pub fn at<'a, L: Ledger>(
    alloc: Global,
    x: &Datum<'a>,
    i: i64,
    _arena: &'a Arena,
    steps: &mut Steps<L>,
) -> Result<Datum<'a>, Fault>
    ensures answer { Gives datum_of fault_told result (at_of i (datum_of x.now)) }
    ensures datum { IfOk result (λ made. IsDatum made) }
{
    match x {
        Datum::Arr(x) => item_of(alloc, x, i, steps),
        Datum::One(_) => Err(Fault::WrongType),
    }
}

fn item_of<'a, L: Ledger>(
    alloc: Global,
    x: &Array<'a>,
    i: i64,
    steps: &mut Steps<L>,
) -> Result<Datum<'a>, Fault>
    ensures answer { Gives datum_of fault_told result (at_of i (array_datum x.now)) }
    ensures datum { IfOk result (λ made. IsDatum made) }
{
    match place_in(x.len(), i) {
        Some(k) => Ok(item_at(alloc, x, k, steps)?),
        None => Err(Fault::Index),
    }
}
