//! Operations at a place, at an axis, and on two data.
ghost use Rattle.std.specs.Prelude.{IfOk};
ghost use Rattle.awk_types.specs.Gives.{Gives};
ghost use Rattle.awk_types.specs.Faults.{fault_told};
ghost use Rattle.awk_layout.specs.Datum.{IsDatum, datum_of};
ghost use Rattle.awk_arguments.specs.Fit.{IsGiven};
ghost use Rattle.awk_arguments.specs.Fixed.{place_in, truth_in};
ghost use Rattle.awk_arguments.specs.Operand.{only_in, both_in, data_in};
ghost use Rattle.awk_arguments.specs.OperandView.{shown_operands};
ghost use Rattle.awk_arguments.specs.Axes as axes;
ghost use Rattle.awk_merge_operands.specs.Concatenate.{concatenate_of};
ghost use Rattle.awk_eval.specs.Eval as meaning;

use crate::picks::pick_of;
use awk_arguments::{axis_among, axis_in, both, data, only, place, truth};
use awk_at_each::at_each;
use awk_expr::{AxisOp, Fixed, PairOp, PlaceOp, Target};
use awk_lanes::{Arena, Steps};
use awk_layout::{Datum, Operands};
use awk_lists::{flatten, local_index, num, unflatten};
use awk_merge::concatenate;
use awk_options::{drop_none, firsts, is_none, singletons};
use awk_order::{argsort, sort};
use awk_select::at;
use awk_types::Fault;
use std::alloc::Global;
use std::sync::ledger::Ledger;

/// An operation at a place.
pub(crate) fn at_place<'s, L: Ledger>(
    alloc: Global,
    op: PlaceOp,
    fixed: &Fixed,
    operands: &Operands<'s>,
    arena: &'s Arena,
    steps: &mut Steps<L>,
) -> Result<Datum<'s>, Fault>
    requires place { IsGiven (place_in fixed.now) }
    requires operand { IsGiven (only_in (shown_operands operands.now)) }
    ensures answer { Gives datum_of fault_told result
        (meaning.given (meaning.place_function op) (place_in fixed.now)
        (only_in (shown_operands operands.now))) }
    ensures datum { IfOk result (λ made. IsDatum made) }
{
    let (x, i) = (only(operands), place(fixed));
    match op {
        PlaceOp::At => at(alloc, x, i, arena, steps),
        PlaceOp::AtEach => at_each(alloc, x, i, arena, steps),
    }
}

/// An operation on two data.
pub(crate) fn on_pair<'s, L: Ledger>(
    alloc: Global,
    op: PairOp,
    operands: &Operands<'s>,
    arena: &'s Arena,
    steps: &mut Steps<L>,
) -> Result<Datum<'s>, Fault>
    requires operands { IsGiven (both_in (shown_operands operands.now)) }
    ensures answer { Gives datum_of fault_told result
        (meaning.alone (meaning.pair_function op) (both_in (shown_operands operands.now))) }
    ensures datum { IfOk result (λ made. IsDatum made) }
{
    let (x, y) = both(operands);
    match op {
        PairOp::Pick => pick_of(alloc, x, y, arena, steps),
        PairOp::Unflatten => unflatten(alloc, x, y, arena, steps),
    }
}

/// An operation at an axis. A negative one is turned.
pub(crate) fn at_axis<'s, L: Ledger>(
    alloc: Global,
    op: AxisOp,
    fixed: &Fixed,
    operands: &Operands<'s>,
    arena: &'s Arena,
    steps: &mut Steps<L>,
) -> Result<Datum<'s>, Fault>
    requires axis { IsGiven (place_in fixed.now) }
    requires operand { IsGiven (only_in (shown_operands operands.now)) }
    ensures answer { Gives datum_of fault_told result
        (meaning.given (axes.at_axis (meaning.axis_function op)) (place_in fixed.now)
        (only_in (shown_operands operands.now))) }
    ensures datum { IfOk result (λ made. IsDatum made) }
{
    let x = only(operands);
    let axis = axis_in(x, place(fixed));
    match op {
        AxisOp::Num => num(alloc, x, axis, arena, steps),
        AxisOp::Flatten => flatten(alloc, x, axis, arena, steps),
        AxisOp::LocalIndex => local_index(alloc, x, axis, arena, steps),
        AxisOp::IsNone => is_none(alloc, x, axis, arena, steps),
        AxisOp::DropNone => drop_none(alloc, x, axis, arena, steps),
        AxisOp::Firsts => firsts(alloc, x, axis, arena, steps),
        AxisOp::Singletons => singletons(alloc, x, axis, arena, steps),
    }
}

/// Arrays joined at an axis.
pub(crate) fn joined<'s, L: Ledger>(
    alloc: Global,
    fixed: &Fixed,
    operands: &Operands<'s>,
    arena: &'s Arena,
    steps: &mut Steps<L>,
) -> Result<Datum<'s>, Fault>
    requires axis { IsGiven (place_in fixed.now) }
    requires operands { IsGiven (data_in (shown_operands operands.now)) }
    ensures answer { Gives datum_of fault_told result
        (meaning.given (axes.at_common_axis concatenate_of) (place_in fixed.now)
        (data_in (shown_operands operands.now))) }
    ensures datum { IfOk result (λ made. IsDatum made) }
{
    let xs = data(alloc, operands)?;
    concatenate(alloc, axis_among(&xs, place(fixed)), &xs, arena, steps)
}

/// The items of innermost lists in order, or their places.
pub(crate) fn sorted<'s, L: Ledger>(
    alloc: Global,
    to: Target,
    fixed: &Fixed,
    operands: &Operands<'s>,
    arena: &'s Arena,
    steps: &mut Steps<L>,
) -> Result<Datum<'s>, Fault>
    requires up { IsGiven (truth_in fixed.now) }
    requires operand { IsGiven (only_in (shown_operands operands.now)) }
    ensures answer { Gives datum_of fault_told result
        (meaning.given (meaning.sort_function to) (truth_in fixed.now)
        (only_in (shown_operands operands.now))) }
    ensures datum { IfOk result (λ made. IsDatum made) }
{
    let (x, up) = (only(operands), truth(fixed));
    match to {
        Target::Items => sort(alloc, x, up, arena, steps),
        Target::Places => argsort(alloc, x, up, arena, steps),
    }
}
