//! Views of an array: ranges and choices of fields.
ghost use Rattle.std.specs.Prelude.{◌≡◌, ◌+◌, ◌*◌, ◌≤◌, true, is_some, IfOk};
ghost use Rattle.awk_types.specs.Gives.{Gives};
ghost use Rattle.awk_types.specs.Faults.{fault_told};
ghost use Rattle.awk_types.specs.Names.{AreDistinct};
ghost use Rattle.awk_layout.specs.Datum.{IsDatum, datum_of};
ghost use Rattle.awk_layout.specs.Layout.{weight, height};
ghost use Rattle.awk_layout.specs.Typing.{array_type, array_items};
ghost use Rattle.awk_lists.specs.WithoutField.{without_field_of};
ghost use Rattle.awk_arguments.specs.Fit.{IsGiven, IsRange};
ghost use Rattle.awk_arguments.specs.Fixed.{bounds_in};
ghost use Rattle.awk_arguments.specs.Operand.{only_in};
ghost use Rattle.awk_arguments.specs.OperandView.{shown_operands};
ghost use Rattle.awk_eval.specs.Ranges as ranges;
ghost use Rattle.awk_eval.specs.Ranges.{range_items};
ghost use Rattle.awk_eval.specs.Views.{Size, Takes, IsWithin, AreWithin};
ghost use Rattle.awk_eval.specs.Eval as meaning;

use awk_arguments::{bound_of, bounds, only, with_step};
use awk_expr::{Fixed, FixedArg};
use awk_lanes::{Arena, Steps};
use awk_layout::{Array, Datum, Operands};
use awk_lists::without_field;
use awk_range::range;
use awk_select::{bound_up, step_range};
use awk_types::{Fault, Names, NoMemory};
use awk_view::{field, fields, settled};
use std::alloc::Global;
use std::sync::ledger::Ledger;

/// A range, of step 1 or of another.
pub(crate) fn ranged<'s, L: Ledger>(
    alloc: Global,
    fixed: &Fixed,
    operands: &Operands<'s>,
    arena: &'s Arena,
    steps: &mut Steps<L>,
) -> Result<Datum<'s>, Fault>
    requires range { IsRange fixed.now }
    requires operand { IsGiven (only_in (shown_operands operands.now)) }
    ensures answer { Gives datum_of fault_told result
        (meaning.alone (meaning.ranged (bounds_in fixed.now) fixed.now)
        (only_in (shown_operands operands.now))) }
    ensures datum { IfOk result (λ made. IsDatum made) }
    ensures cost { (s : Size) → is_some (bounds_in fixed.now) ≡ true → AreWithin s operands.now
        → Takes s 1 steps.old steps.new result }
{
    let x = only(operands);
    match bounds(fixed) {
        Some((lo, hi)) => range_of(alloc, x, lo, hi, steps),
        None => {
            let s = with_step(fixed);
            step_range(alloc, x, s.lo, s.hi, s.step, arena, steps)
        }
    }
}

// The items from one bound below another. A single value has none.
fn range_of<'s, L: Ledger>(
    alloc: Global,
    x: &Datum<'s>,
    lo: &FixedArg,
    hi: &FixedArg,
    steps: &mut Steps<L>,
) -> Result<Datum<'s>, Fault>
    ensures answer { Gives datum_of fault_told result
        (meaning.range_of (lo.now, hi.now) (datum_of x.now)) }
    ensures datum { IfOk result (λ made. IsDatum made) }
    ensures cost { (s : Size) → IsWithin s x.now → Takes s 1 steps.old steps.new result }
{
    match x {
        Datum::Arr(x) => Ok(Datum::Arr(between(alloc, x, lo, hi, steps)?)),
        Datum::One(_) => Err(Fault::WrongType),
    }
}

fn between<'s, L: Ledger>(
    alloc: Global,
    x: &Array<'s>,
    lo: &FixedArg,
    hi: &FixedArg,
    steps: &mut Steps<L>,
) -> Result<Array<'s>, NoMemory>
    ensures typ { IfOk result (λ made. array_type made ≡ array_type x.now) }
    ensures items { IfOk result (λ made.
        array_items made ≡ range_items lo.now hi.now (array_items x.now)) }
    ensures cost { steps.new ≤ steps.old + 4 * weight x.now }
    ensures nodes { IfOk result (λ made. weight made ≤ weight x.now) }
    ensures height { IfOk result (λ made. height made ≤ height x.now) }
{
    let n = x.len();
    let from = bound_or(n, 0, lo);
    let to = bound_or(n, n, hi).max(from);
    range(alloc, x, from, to, steps)
}

/// The field of a datum. That of a single value is settled.
pub(crate) fn field_of<'s, L: Ledger>(
    alloc: Global,
    x: &Datum<'s>,
    name: &str,
    steps: &mut Steps<L>,
) -> Result<Datum<'s>, Fault>
    requires { IsDatum x.now }
    ensures answer { Gives datum_of fault_told result
        (meaning.field_of name.now (datum_of x.now)) }
    ensures datum { IfOk result (λ made. IsDatum made) }
    ensures cost { (s : Size) → IsWithin s x.now → Takes s 1 steps.old steps.new result }
{
    match x {
        Datum::Arr(x) => Ok(Datum::Arr(field(alloc, x, name, steps)?)),
        Datum::One(x) => {
            let made = field(alloc, x, name, steps)?;
            Ok(settled(alloc, &made, steps)?)
        }
    }
}

/// The record of some fields of a datum.
pub(crate) fn fields_of<'s, L: Ledger>(
    alloc: Global,
    x: &Datum<'s>,
    names: &Names,
    steps: &mut Steps<L>,
) -> Result<Datum<'s>, Fault>
    requires datum { IsDatum x.now }
    requires distinct { AreDistinct names.now }
    ensures answer { Gives datum_of fault_told result
        (meaning.fields_of names.now (datum_of x.now)) }
    ensures datum { IfOk result (λ made. IsDatum made) }
    ensures cost { (s : Size) → IsWithin s x.now → Takes s 1 steps.old steps.new result }
{
    match x {
        Datum::Arr(x) => Ok(Datum::Arr(fields(alloc, x, names, steps)?)),
        Datum::One(x) => Ok(Datum::One(fields(alloc, x, names, steps)?)),
    }
}

/// The rest of the fields. It takes as a view does, and gives an array where it is given one.
pub(crate) fn without_of<'s, L: Ledger>(
    alloc: Global,
    x: &Datum<'s>,
    name: &str,
    arena: &'s Arena,
    steps: &mut Steps<L>,
) -> Result<Datum<'s>, Fault>
    requires { IsDatum x.now }
    ensures answer { Gives datum_of fault_told result
        (without_field_of name.now (datum_of x.now)) }
    ensures datum { IfOk result (λ made. IsDatum made) }
    ensures cost { (s : Size) → IsWithin s x.now → Takes s 1 steps.old steps.new result }
{
    without_field(alloc, x, name, arena, steps)
}

// A bound of a range over n items, or what stands for one that is not given.
fn bound_or(n: u64, other: u64, bound: &FixedArg) -> u64
    requires { other ≤ n }
    ensures bound { result ≡ ranges.bound_or n other bound.now }
    ensures within { result ≤ n }
{
    bound_up(n, other, bound_of(bound))
}
