//! The table of operations: each on its operands.
ghost use Rattle.std.specs.Prelude.{◌≡◌, true, length, IfOk};
ghost use Rattle.awk_types.specs.Gives.{Gives};
ghost use Rattle.awk_types.specs.Faults.{fault_told};
ghost use Rattle.awk_layout.specs.Datum.{IsDatum, datum_of};
ghost use Rattle.awk_expr.specs.Allowed.{HasArguments};
ghost use Rattle.awk_arguments.specs.Fit.{FitsFixed, FitsOperands};
ghost use Rattle.awk_arguments.specs.OperandView.{shown_operands};
ghost use Rattle.awk_eval.specs.Views.{Size, Takes, AreWithin, is_view_op};
ghost use Rattle.awk_eval.specs.Eval as meaning;

use crate::histograms::histogram_of;
use crate::leaves::{calculated, cast_of, choice_of, compared, connected, on_leaf, reduced};
use crate::lists::{at_axis, at_place, joined, on_pair, sorted};
use crate::options::{filled, masked, padded};
use crate::records::{combinations_of, product_of, put_field, rows_of, tuples_of};
use crate::views::{field_of, fields_of, ranged, without_of};
use awk_arguments::{only, text, texts};
use awk_expr::{Fixed, Op};
use awk_kernels::Kernels;
use awk_lanes::{Arena, Steps};
use awk_layout::{Datum, Operands};
use awk_lists::run_lengths;
use awk_types::Fault;
use std::alloc::Global;
use std::sync::ledger::Ledger;

/// An operation on its operands.
pub(crate) fn apply<'s, N: Kernels, L: Ledger>(
    alloc: Global,
    op: Op,
    fixed: &Fixed,
    operands: &Operands<'s>,
    kernels: &N,
    arena: &'s Arena,
    steps: &mut Steps<L>,
) -> Result<Datum<'s>, Fault>
    requires arguments { HasArguments op (length operands.now) fixed.now }
    requires others { FitsFixed op fixed.now }
    requires operands { FitsOperands op (shown_operands operands.now) }
    ensures answer { Gives datum_of fault_told result
        (meaning.apply op fixed.now (shown_operands operands.now)) }
    ensures datum { IfOk result (λ made. IsDatum made) }
    ensures cost { (s : Size) → is_view_op op fixed.now ≡ true → AreWithin s operands.now
        → Takes s 1 steps.old steps.new result }
{
    match op {
        Op::Place(op) => at_place(alloc, op, fixed, operands, arena, steps),
        Op::Range => ranged(alloc, fixed, operands, arena, steps),
        Op::Field => field_of(alloc, only(operands), text(fixed).as_str(), steps),
        Op::Fields => fields_of(alloc, only(operands), texts(fixed), steps),
        Op::WithoutField => without_of(alloc, only(operands), text(fixed).as_str(), arena, steps),
        Op::Pair(op) => on_pair(alloc, op, operands, arena, steps),
        Op::Axis(op) => at_axis(alloc, op, fixed, operands, arena, steps),
        Op::RunLengths => run_lengths(alloc, only(operands), arena, steps),
        Op::Zip => rows_of(alloc, fixed, operands, arena, steps),
        Op::Tuple => tuples_of(alloc, fixed, operands, arena, steps),
        Op::WithField => put_field(alloc, fixed, operands, arena, steps),
        Op::FillNone => filled(alloc, fixed, operands, arena, steps),
        Op::PadNone => padded(alloc, fixed, operands, arena, steps),
        Op::PutMask => masked(alloc, fixed, operands, arena, steps),
        Op::Concatenate => joined(alloc, fixed, operands, arena, steps),
        Op::Calculate(op) => calculated(alloc, op, operands, kernels, arena, steps),
        Op::Test(how) => compared(alloc, how, operands, kernels, arena, steps),
        Op::Join(op) => connected(alloc, op, operands, kernels, arena, steps),
        Op::Single(op) => on_leaf(alloc, op, operands, kernels, arena, steps),
        Op::Choose => choice_of(alloc, operands, kernels, arena, steps),
        Op::Cast => cast_of(alloc, fixed, operands, kernels, arena, steps),
        Op::Reduce(how) => reduced(alloc, how, operands, kernels, arena, steps),
        Op::Cartesian(to) => product_of(alloc, to, fixed, operands, arena, steps),
        Op::Combinations(to) => combinations_of(alloc, to, fixed, operands, arena, steps),
        Op::Sort(to) => sorted(alloc, to, fixed, operands, arena, steps),
        Op::Hist(of) => histogram_of(alloc, of, fixed, operands, arena, steps),
    }
}
