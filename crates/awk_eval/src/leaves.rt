//! Operations that go leaf by leaf, and reducers.
ghost use Rattle.std.specs.Prelude.{◌≡◌, IfOk};
ghost use Rattle.awk_types.specs.Gives.{Gives};
ghost use Rattle.awk_types.specs.Faults.{fault_told};
ghost use Rattle.awk_layout.specs.Datum.{IsDatum, datum_of};
ghost use Rattle.awk_arguments.specs.Fit.{IsGiven};
ghost use Rattle.awk_arguments.specs.Operand.{only_in, both_in, two_in, three_in};
ghost use Rattle.awk_arguments.specs.OperandView.{shown_operands};
ghost use Rattle.awk_arguments.specs.Primitives.{primitive_in};
ghost use Rattle.awk_arith.specs.Unary.{unary_of};
ghost use Rattle.awk_cast.specs.Cast as meant;
ghost use Rattle.awk_leaves.specs.declared.operation.Binary.TheVariants.{Calculate, Test};
ghost use Rattle.awk_reduce.specs.Reduce.{reduce_of};
ghost use Rattle.awk_eval.specs.Eval as meaning;

use awk_arguments::{both, only, primitive, three, two};
use awk_arith::{abs, binary, compare, logical, neg, not};
use awk_cast::cast;
use awk_choose::choose;
use awk_expr::{Fixed, LogicOp, ReduceOp, SingleOp};
use awk_kernels::{Arith, Compare, Kernels};
use awk_lanes::{Arena, Steps};
use awk_layout::{Datum, Operands};
use awk_leaves::Logic;
use awk_reduce::{Reducer, reduce};
use awk_types::Fault;
use std::alloc::Global;
use std::sync::ledger::Ledger;

/// Arithmetic.
pub(crate) fn calculated<'s, N: Kernels, L: Ledger>(
    alloc: Global,
    op: Arith,
    operands: &Operands<'s>,
    kernels: &N,
    arena: &'s Arena,
    steps: &mut Steps<L>,
) -> Result<Datum<'s>, Fault>
    requires operands { IsGiven (two_in (shown_operands operands.now)) }
    ensures answer { Gives datum_of fault_told result
        (meaning.alone (meaning.calculated_by (Calculate op))
        (two_in (shown_operands operands.now))) }
    ensures datum { IfOk result (λ made. IsDatum made) }
{
    let (x, y) = two(operands);
    binary(alloc, op, x, y, kernels, arena, steps)
}

/// A comparison.
pub(crate) fn compared<'s, N: Kernels, L: Ledger>(
    alloc: Global,
    how: Compare,
    operands: &Operands<'s>,
    kernels: &N,
    arena: &'s Arena,
    steps: &mut Steps<L>,
) -> Result<Datum<'s>, Fault>
    requires operands { IsGiven (two_in (shown_operands operands.now)) }
    ensures answer { Gives datum_of fault_told result
        (meaning.alone (meaning.calculated_by (Test how)) (two_in (shown_operands operands.now))) }
    ensures datum { IfOk result (λ made. IsDatum made) }
{
    let (x, y) = two(operands);
    compare(alloc, how, x, y, kernels, arena, steps)
}

/// An operation on two truth values.
pub(crate) fn connected<'s, N: Kernels, L: Ledger>(
    alloc: Global,
    op: LogicOp,
    operands: &Operands<'s>,
    kernels: &N,
    arena: &'s Arena,
    steps: &mut Steps<L>,
) -> Result<Datum<'s>, Fault>
    requires operands { IsGiven (both_in (shown_operands operands.now)) }
    ensures answer { Gives datum_of fault_told result
        (meaning.alone (meaning.joined_by (meaning.logic_of op))
        (both_in (shown_operands operands.now))) }
    ensures datum { IfOk result (λ made. IsDatum made) }
{
    let (x, y) = both(operands);
    logical(alloc, logic_of(op), x, y, kernels, arena, steps)
}

fn logic_of(op: LogicOp) -> Logic
    ensures { result ≡ meaning.logic_of op }
{
    match op {
        LogicOp::And => Logic::And,
        LogicOp::Or => Logic::Or,
        LogicOp::Xor => Logic::Xor,
    }
}

/// An operation on one leaf.
pub(crate) fn on_leaf<'s, N: Kernels, L: Ledger>(
    alloc: Global,
    op: SingleOp,
    operands: &Operands<'s>,
    kernels: &N,
    arena: &'s Arena,
    steps: &mut Steps<L>,
) -> Result<Datum<'s>, Fault>
    requires operand { IsGiven (only_in (shown_operands operands.now)) }
    ensures answer { Gives datum_of fault_told result
        (meaning.alone (unary_of (meaning.unary_by op)) (only_in (shown_operands operands.now))) }
    ensures datum { IfOk result (λ made. IsDatum made) }
{
    let x = only(operands);
    match op {
        SingleOp::Not => not(alloc, x, kernels, arena, steps),
        SingleOp::Neg => neg(alloc, x, kernels, arena, steps),
        SingleOp::Abs => abs(alloc, x, kernels, arena, steps),
    }
}

/// The items of two operands, as a third has it.
pub(crate) fn choice_of<'s, N: Kernels, L: Ledger>(
    alloc: Global,
    operands: &Operands<'s>,
    kernels: &N,
    arena: &'s Arena,
    steps: &mut Steps<L>,
) -> Result<Datum<'s>, Fault>
    requires operands { IsGiven (three_in (shown_operands operands.now)) }
    ensures answer { Gives datum_of fault_told result
        (meaning.alone meaning.choice_by (three_in (shown_operands operands.now))) }
    ensures datum { IfOk result (λ made. IsDatum made) }
{
    let (c, x, y) = three(operands);
    choose(alloc, c, x, y, kernels, arena, steps)
}

/// All leaves as those of another type.
pub(crate) fn cast_of<'s, N: Kernels, L: Ledger>(
    alloc: Global,
    fixed: &Fixed,
    operands: &Operands<'s>,
    kernels: &N,
    arena: &'s Arena,
    steps: &mut Steps<L>,
) -> Result<Datum<'s>, Fault>
    requires primitive { IsGiven (primitive_in fixed.now) }
    requires operand { IsGiven (only_in (shown_operands operands.now)) }
    ensures answer { Gives datum_of fault_told result
        (meaning.given meant.cast_of (primitive_in fixed.now)
        (only_in (shown_operands operands.now))) }
    ensures datum { IfOk result (λ made. IsDatum made) }
{
    cast(
        alloc,
        only(operands),
        primitive(fixed),
        kernels,
        arena,
        steps,
    )
}

/// Innermost lists reduced to one value.
pub(crate) fn reduced<'s, N: Kernels, L: Ledger>(
    alloc: Global,
    how: ReduceOp,
    operands: &Operands<'s>,
    kernels: &N,
    arena: &'s Arena,
    steps: &mut Steps<L>,
) -> Result<Datum<'s>, Fault>
    requires operand { IsGiven (only_in (shown_operands operands.now)) }
    ensures answer { Gives datum_of fault_told result
        (meaning.alone (reduce_of (meaning.reducer_of how))
        (only_in (shown_operands operands.now))) }
    ensures datum { IfOk result (λ made. IsDatum made) }
{
    reduce(
        alloc,
        reducer_of(how),
        only(operands),
        kernels,
        arena,
        steps,
    )
}

fn reducer_of(how: ReduceOp) -> Reducer
    ensures { result ≡ meaning.reducer_of how }
{
    match how {
        ReduceOp::Sum => Reducer::Sum,
        ReduceOp::Prod => Reducer::Prod,
        ReduceOp::Min => Reducer::Min,
        ReduceOp::Max => Reducer::Max,
        ReduceOp::Argmin => Reducer::Argmin,
        ReduceOp::Argmax => Reducer::Argmax,
        ReduceOp::Any => Reducer::Any,
        ReduceOp::All => Reducer::All,
        ReduceOp::Count => Reducer::Count,
        ReduceOp::CountNonzero => Reducer::CountNonzero,
    }
}
