//! Records and tuples: made of columns, of the items of lists, and with one field more.
ghost use Rattle.std.specs.Prelude.{◌≡◌, Some, length, IfOk, IfSome};
ghost use Rattle.awk_types.specs.Gives.{Gives};
ghost use Rattle.awk_types.specs.Faults.{fault_told};
ghost use Rattle.awk_layout.specs.Datum.{IsDatum, datum_of};
ghost use Rattle.awk_layout.specs.Valid.{AreNames};
ghost use Rattle.awk_arguments.specs.Fit.{IsGiven};
ghost use Rattle.awk_arguments.specs.Fixed.{place_in, text_in, tuples_in, depth_in, named_in};
ghost use Rattle.awk_arguments.specs.Operand.{only_in, both_in, data_in};
ghost use Rattle.awk_arguments.specs.OperandView.{shown_operands};
ghost use Rattle.awk_eval.specs.Eval as meaning;

use awk_arguments::{axis_among, axis_in, both, data, depth, named, only, place, text, tuples};
use awk_cartesian::cartesian;
use awk_combi::combinations;
use awk_expr::{Fixed, Target};
use awk_lanes::{Arena, Steps};
use awk_layout::{Datum, Operands};
use awk_types::Fault;
use awk_with_field::with_field;
use awk_zip::zip;
use std::alloc::Global;
use std::sync::ledger::Ledger;

/// Records of the items of several data, by names.
pub(crate) fn rows_of<'s, L: Ledger>(
    alloc: Global,
    fixed: &Fixed,
    operands: &Operands<'s>,
    arena: &'s Arena,
    steps: &mut Steps<L>,
) -> Result<Datum<'s>, Fault>
    requires named { IsGiven (named_in fixed.now) }
    requires operands { IsGiven (data_in (shown_operands operands.now)) }
    requires names { IfSome (named_in fixed.now) (λ p. AreNames (Some p.1) (length operands.now)) }
    ensures answer { Gives datum_of fault_told result
        (meaning.given meaning.zip_by (named_in fixed.now)
        (data_in (shown_operands operands.now))) }
    ensures datum { IfOk result (λ made. IsDatum made) }
{
    let (depth, names) = named(fixed);
    zip(
        alloc,
        depth,
        Some(names),
        &data(alloc, operands)?,
        arena,
        steps,
    )
}

/// Tuples of the items of several data.
pub(crate) fn tuples_of<'s, L: Ledger>(
    alloc: Global,
    fixed: &Fixed,
    operands: &Operands<'s>,
    arena: &'s Arena,
    steps: &mut Steps<L>,
) -> Result<Datum<'s>, Fault>
    requires depth { IsGiven (depth_in fixed.now) }
    requires operands { IsGiven (data_in (shown_operands operands.now)) }
    ensures answer { Gives datum_of fault_told result
        (meaning.given meaning.tuple_by (depth_in fixed.now)
        (data_in (shown_operands operands.now))) }
    ensures datum { IfOk result (λ made. IsDatum made) }
{
    zip(
        alloc,
        depth(fixed),
        None,
        &data(alloc, operands)?,
        arena,
        steps,
    )
}

/// A datum whose records have one field more, or another one in its place.
pub(crate) fn put_field<'s, L: Ledger>(
    alloc: Global,
    fixed: &Fixed,
    operands: &Operands<'s>,
    arena: &'s Arena,
    steps: &mut Steps<L>,
) -> Result<Datum<'s>, Fault>
    requires name { IsGiven (text_in fixed.now) }
    requires operands { IsGiven (both_in (shown_operands operands.now)) }
    ensures answer { Gives datum_of fault_told result
        (meaning.given meaning.put_by (text_in fixed.now)
        (both_in (shown_operands operands.now))) }
    ensures datum { IfOk result (λ made. IsDatum made) }
{
    let (x, v) = both(operands);
    with_field(alloc, x, text(fixed).as_str(), v, arena, steps)
}

/// Tuples of the items of lists at an axis, or of their places.
pub(crate) fn combinations_of<'s, L: Ledger>(
    alloc: Global,
    to: Target,
    fixed: &Fixed,
    operands: &Operands<'s>,
    arena: &'s Arena,
    steps: &mut Steps<L>,
) -> Result<Datum<'s>, Fault>
    requires tuples { IsGiven (tuples_in fixed.now) }
    requires operand { IsGiven (only_in (shown_operands operands.now)) }
    ensures answer { Gives datum_of fault_told result
        (meaning.given (meaning.combined_by (meaning.are_places to)) (tuples_in fixed.now)
        (only_in (shown_operands operands.now))) }
    ensures datum { IfOk result (λ made. IsDatum made) }
{
    let x = only(operands);
    let (n, replacement, axis) = tuples(fixed);
    let axis = axis_in(x, axis);
    combinations(alloc, n, replacement, axis, x, are_places(to), arena, steps)
}

/// Tuples of one item of each of several lists at an axis, or of their places.
pub(crate) fn product_of<'s, L: Ledger>(
    alloc: Global,
    to: Target,
    fixed: &Fixed,
    operands: &Operands<'s>,
    arena: &'s Arena,
    steps: &mut Steps<L>,
) -> Result<Datum<'s>, Fault>
    requires axis { IsGiven (place_in fixed.now) }
    requires operands { IsGiven (data_in (shown_operands operands.now)) }
    ensures answer { Gives datum_of fault_told result
        (meaning.given (meaning.product_by (meaning.are_places to)) (place_in fixed.now)
        (data_in (shown_operands operands.now))) }
    ensures datum { IfOk result (λ made. IsDatum made) }
{
    let xs = data(alloc, operands)?;
    let axis = axis_among(&xs, place(fixed));
    cartesian(alloc, axis, &xs, are_places(to), arena, steps)
}

fn are_places(to: Target) -> bool
    ensures { result ≡ meaning.are_places to }
{
    match to {
        Target::Items => false,
        Target::Places => true,
    }
}
