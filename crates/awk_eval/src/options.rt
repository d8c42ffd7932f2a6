//! Nulls: filled, put where lists are short, and put where a mask says so.
ghost use Rattle.std.specs.Prelude.{IfOk};
ghost use Rattle.awk_types.specs.Gives.{Gives};
ghost use Rattle.awk_types.specs.Faults.{fault_told};
ghost use Rattle.awk_layout.specs.Datum.{IsDatum, datum_of};
ghost use Rattle.awk_arguments.specs.Fit.{IsGiven};
ghost use Rattle.awk_arguments.specs.Fixed.{place_in, padding_in, truth_in};
ghost use Rattle.awk_arguments.specs.Operand.{only_in, both_in, first_in};
ghost use Rattle.awk_arguments.specs.OperandView.{shown_operands};
ghost use Rattle.awk_eval.specs.Eval as meaning;

use awk_arguments::{axis_in, both, first, only, padding, place, truth};
use awk_expr::Fixed;
use awk_lanes::{Arena, Steps};
use awk_layout::{Datum, Operands};
use awk_options::{fill_none, pad_none, put_mask};
use awk_types::Fault;
use std::alloc::Global;
use std::sync::ledger::Ledger;

/// Nulls at an axis filled.
pub(crate) fn filled<'s, L: Ledger>(
    alloc: Global,
    fixed: &Fixed,
    operands: &Operands<'s>,
    arena: &'s Arena,
    steps: &mut Steps<L>,
) -> Result<Datum<'s>, Fault>
    requires axis { IsGiven (place_in fixed.now) }
    requires operands { IsGiven (first_in (shown_operands operands.now)) }
    ensures answer { Gives datum_of fault_told result
        (meaning.given meaning.filled_by (place_in fixed.now)
        (first_in (shown_operands operands.now))) }
    ensures datum { IfOk result (λ made. IsDatum made) }
{
    let (x, filler) = first(operands);
    fill_none(alloc, x, filler, axis_in(x, place(fixed)), arena, steps)
}

/// Lists at an axis padded by nulls.
pub(crate) fn padded<'s, L: Ledger>(
    alloc: Global,
    fixed: &Fixed,
    operands: &Operands<'s>,
    arena: &'s Arena,
    steps: &mut Steps<L>,
) -> Result<Datum<'s>, Fault>
    requires padding { IsGiven (padding_in fixed.now) }
    requires operand { IsGiven (only_in (shown_operands operands.now)) }
    ensures answer { Gives datum_of fault_told result
        (meaning.given meaning.padded_by (padding_in fixed.now)
        (only_in (shown_operands operands.now))) }
    ensures datum { IfOk result (λ made. IsDatum made) }
{
    let x = only(operands);
    let (n, axis, clip) = padding(fixed);
    pad_none(alloc, x, n, axis_in(x, axis), clip, arena, steps)
}

/// An array with nulls where a mask over it is not as asked.
pub(crate) fn masked<'s, L: Ledger>(
    alloc: Global,
    fixed: &Fixed,
    operands: &Operands<'s>,
    arena: &'s Arena,
    steps: &mut Steps<L>,
) -> Result<Datum<'s>, Fault>
    requires valid_when { IsGiven (truth_in fixed.now) }
    requires operands { IsGiven (both_in (shown_operands operands.now)) }
    ensures answer { Gives datum_of fault_told result
        (meaning.given meaning.masked_by (truth_in fixed.now)
        (both_in (shown_operands operands.now))) }
    ensures datum { IfOk result (λ made. IsDatum made) }
{
    let (x, mask) = both(operands);
    put_mask(alloc, x, mask, truth(fixed), arena, steps)
}
