//! A function of one list, lifted to the lists at an axis of a datum, and to its innermost lists.
ghost use Rattle.std.specs.Prelude.{IfOk, pos};
ghost use Rattle.awk_types.specs.Faults.{fault_told};
ghost use Rattle.awk_types.specs.Gives.{Gives};
ghost use Rattle.awk_layout.specs.Datum.{datum_of, IsDatum};
ghost use Rattle.awk_layout.specs.Typing.{array_datum};
ghost use Rattle.awk_list_functions.specs.Lifting.{lift, deep};

use crate::items::{on_items, on_one};
use crate::whole::on_whole;
use awk_lanes::{Arena, Steps};
use awk_layout::{Array, Datum};
use awk_list_functions::{ListOp, Reach};
use awk_types::Fault;
use std::alloc::Global;
use std::sync::ledger::Ledger;

/// The datum with each list at an axis by the function. Axis 0 of an array is the array itself, and
/// axis 0 of a single value the lists directly inside.
///
/// Faults come in this order: no list at the axis, a type that the function does not take, a
/// literal that overflows; then a type of the result that is too deep or too large; then what
/// values tell. What types tell is told before any column is made.
pub fn lift_at<'a, F: ListOp, L: Ledger>(
    alloc: Global,
    f: &F,
    x: &Datum<'a>,
    axis: i64,
    arena: &'a Arena,
    steps: &mut Steps<L>,
) -> Result<Datum<'a>, Fault>
    requires datum { IsDatum x.now }
    ensures answer { Gives datum_of fault_told result
        (lift (F.function f.now) axis (datum_of x.now)) }
    ensures datum { IfOk result IsDatum }
{
    if axis < 0 {
        return Err(Fault::Axis);
    }
    match x {
        Datum::Arr(array) => at_axis_of(alloc, f, array, axis as u64, arena, steps),
        Datum::One(array) => on_one(alloc, f, Reach::Axis(axis as u64), array, arena, steps),
    }
}

/// The same of an array.
fn at_axis_of<'a, F: ListOp, L: Ledger>(
    alloc: Global,
    f: &F,
    x: &Array<'a>,
    axis: u64,
    arena: &'a Arena,
    steps: &mut Steps<L>,
) -> Result<Datum<'a>, Fault>
    ensures answer { Gives datum_of fault_told result
        (lift (F.function f.now) (pos axis) (array_datum x.now)) }
    ensures datum { IfOk result IsDatum }
{
    if axis == 0 {
        on_whole(alloc, f, x, arena, steps)
    } else {
        on_items(alloc, f, Reach::Axis(axis - 1), x, arena, steps)
    }
}

/// The datum with each of its innermost lists by the function: those whose items, options dropped,
/// are leaves or unknown. An array of such items is itself one. A record, a tuple or a union above
/// them is a type fault, and a single leaf an axis fault. Faults come in the same order.
pub fn lift_deep<'a, F: ListOp, L: Ledger>(
    alloc: Global,
    f: &F,
    x: &Datum<'a>,
    arena: &'a Arena,
    steps: &mut Steps<L>,
) -> Result<Datum<'a>, Fault>
    requires datum { IsDatum x.now }
    ensures answer { Gives datum_of fault_told result
        (deep (F.function f.now) (datum_of x.now)) }
    ensures datum { IfOk result IsDatum }
{
    match x {
        Datum::Arr(array) => deep_in(alloc, f, array, arena, steps),
        Datum::One(array) => on_one(alloc, f, Reach::Innermost, array, arena, steps),
    }
}

/// The same of an array.
fn deep_in<'a, F: ListOp, L: Ledger>(
    alloc: Global,
    f: &F,
    x: &Array<'a>,
    arena: &'a Arena,
    steps: &mut Steps<L>,
) -> Result<Datum<'a>, Fault>
    ensures answer { Gives datum_of fault_told result
        (deep (F.function f.now) (array_datum x.now)) }
    ensures datum { IfOk result IsDatum }
{
    if Reach::Innermost.is_here(x.typ()) {
        on_whole(alloc, f, x, arena, steps)
    } else {
        on_items(alloc, f, Reach::Innermost, x, arena, steps)
    }
}
