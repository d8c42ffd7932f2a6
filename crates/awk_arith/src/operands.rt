//! Operations on two operands.
ghost use Rattle.std.specs.Prelude.{◌≡◌, ◌<◌, length, false, None, IfOk};
ghost use Rattle.awk_types.specs.Faults.{fault_told};
ghost use Rattle.awk_types.specs.Gives.{Gives};
ghost use Rattle.awk_layout.specs.Datum.{datum_of, IsDatum, IsOperand};
ghost use Rattle.awk_layout.specs.Filler.{filler_of, literal, datum};
ghost use Rattle.awk_leaves.specs.declared.operation.Binary.TheVariants.{Calculate, Test, Join};
ghost use Rattle.awk_pair_operands.specs.First.{all_data};
ghost use Rattle.awk_pair_operands.specs.Pairs.{has_wrong_end};
ghost use Rattle.awk_pointwise.specs.Sides.{IsNumber64};
ghost use Rattle.awk_ends.specs.Operands.{both_data};
ghost use Rattle.awk_arith.specs.Binary.{judged_binary, binary_of};

use crate::result::result_typ;
use crate::sides::row_leaves;
use awk_ends::{leaf_type, push_datum};
use awk_frames::framed;
use awk_kernels::{Arith, Compare, Kernels};
use awk_lanes::{Arena, NoMemory, Steps};
use awk_layout::{Array, Datum, Node, Operand, Operands};
use awk_leaves::{Binary, Logic, binary_prim};
use awk_pair::{has_wrong_end, pair};
use awk_pair_operands::datum_from;
use awk_pointwise::{Side, binary_leaves};
use awk_types::Fault;
use std::alloc::Global;
use std::sync::ledger::Ledger;

/// The operands that are data.
fn data_of<'a>(alloc: Global, x: &Operand<'a>, y: &Operand<'a>) -> Result<Operands<'a>, NoMemory>
    requires first { IsOperand x.now }
    requires second { IsOperand y.now }
    ensures { IfOk result (λ xs. all_data xs ≡ both_data (filler_of x.now) (filler_of y.now)) }
{
    let mut xs = Operands::new(alloc);
    push_datum(alloc, x, &mut xs)?;
    push_datum(alloc, y, &mut xs)?;
    Ok(xs)
}

/// An operation on operands, some of which are data and have leaves at their ends.
fn paired_leaves<'a, N: Kernels, L: Ledger>(
    alloc: Global,
    op: Binary,
    x: &Operand<'a>,
    y: &Operand<'a>,
    xs: &Operands<'a>,
    kernels: &N,
    arena: &'a Arena,
    steps: &mut Steps<L>,
) -> Result<Datum<'a>, Fault>
    requires first { IsOperand x.now }
    requires second { IsOperand y.now }
    requires data { all_data xs.now ≡ both_data (filler_of x.now) (filler_of y.now) }
    requires some { 0 < length xs.now }
    requires leaves { has_wrong_end None (all_data xs.now) ≡ false }
    ensures answer { let a = filler_of x.now in let b = filler_of y.now in
        Gives datum_of fault_told result (judged_binary op a b) }
    ensures datum { IfOk result (λ made. IsDatum made) }
{
    let prim = binary_prim(op, leaf_type(x), leaf_type(y))?;
    let typ = result_typ(alloc, prim, xs, arena, steps)?;
    let paired = pair(alloc, xs, None, arena, steps)?;
    let lane = row_leaves(alloc, op, x, y, &paired.leaves, kernels, arena, steps)?;
    let node = framed(alloc, &paired.shape, Node::numpy(lane, steps), steps)?;
    Ok(datum_from(paired.single, Array::within_limits(node, typ)))
}

/// An operation on operands of which some are data.
fn of_data<'a, N: Kernels, L: Ledger>(
    alloc: Global,
    op: Binary,
    x: &Operand<'a>,
    y: &Operand<'a>,
    kernels: &N,
    arena: &'a Arena,
    steps: &mut Steps<L>,
) -> Result<Datum<'a>, Fault>
    requires first { IsOperand x.now }
    requires second { IsOperand y.now }
    requires some { 0 < length (both_data (filler_of x.now) (filler_of y.now)) }
    ensures answer { Gives datum_of fault_told result
        (binary_of op (filler_of x.now) (filler_of y.now)) }
    ensures datum { IfOk result (λ made. IsDatum made) }
{
    let xs = data_of(alloc, x, y)?;
    if has_wrong_end(&xs, None) {
        return Err(Fault::WrongType);
    }
    paired_leaves(alloc, op, x, y, &xs, kernels, arena, steps)
}

/// An operation on two literals.
fn of_literals<'a, N: Kernels, L: Ledger>(
    alloc: Global,
    op: Binary,
    z: i128,
    w: i128,
    kernels: &N,
    arena: &'a Arena,
    steps: &mut Steps<L>,
) -> Result<Datum<'a>, Fault>
    requires first { IsNumber64 z }
    requires second { IsNumber64 w }
    ensures answer { Gives datum_of fault_told result (binary_of op (literal z) (literal w)) }
    ensures datum { IfOk result (λ made. IsDatum made) }
{
    let sides = (&Side::Literal(z), &Side::Literal(w));
    let lane = binary_leaves(alloc, op, sides, 1, kernels, arena, steps)?;
    let only = Array::of_node(alloc, Node::numpy(lane, steps))?;
    Ok(Datum::One(only))
}

/// An operation on two operands.
fn applied<'a, N: Kernels, L: Ledger>(
    alloc: Global,
    op: Binary,
    x: &Operand<'a>,
    y: &Operand<'a>,
    kernels: &N,
    arena: &'a Arena,
    steps: &mut Steps<L>,
) -> Result<Datum<'a>, Fault>
    requires first { IsOperand x.now }
    requires second { IsOperand y.now }
    ensures answer { Gives datum_of fault_told result
        (binary_of op (filler_of x.now) (filler_of y.now)) }
    ensures datum { IfOk result (λ made. IsDatum made) }
{
    match (x, y) {
        (Operand::Literal(z), Operand::Literal(w)) => {
            of_literals(alloc, op, *z, *w, kernels, arena, steps)
        }
        (Operand::Of(_), _) => of_data(alloc, op, x, y, kernels, arena, steps),
        (_, Operand::Of(_)) => of_data(alloc, op, x, y, kernels, arena, steps),
    }
}

/// A sum, a difference, a product, a quotient towards minus infinity or a remainder with the
/// divisor's sign, in the primitive that those of both operands promote to.
///
/// Faults come in this order: `WrongType` where an operand has a record, a tuple or a union, or
/// where the leaves do not promote; `Overflow` of a literal; `Depth` of the result's type;
/// `Lengths` and `Size` as of a pairing; and `Overflow` or `Zero` of the first leaf, in order, that
/// has one.
pub fn binary<'a, N: Kernels, L: Ledger>(
    alloc: Global,
    op: Arith,
    a: &Operand<'a>,
    b: &Operand<'a>,
    kernels: &N,
    arena: &'a Arena,
    steps: &mut Steps<L>,
) -> Result<Datum<'a>, Fault>
    requires first { IsOperand a.now }
    requires second { IsOperand b.now }
    ensures answer { Gives datum_of fault_told result
        (binary_of (Calculate op) (filler_of a.now) (filler_of b.now)) }
    ensures datum { IfOk result (λ made. IsDatum made) }
{
    applied(alloc, Binary::Calculate(op), a, b, kernels, arena, steps)
}

/// Whether two whole numbers, or two truth values, compare so. The comparison is exact, whatever
/// the primitives; a literal need not fit the other operand's.
pub fn compare<'a, N: Kernels, L: Ledger>(
    alloc: Global,
    how: Compare,
    a: &Operand<'a>,
    b: &Operand<'a>,
    kernels: &N,
    arena: &'a Arena,
    steps: &mut Steps<L>,
) -> Result<Datum<'a>, Fault>
    requires first { IsOperand a.now }
    requires second { IsOperand b.now }
    ensures answer { Gives datum_of fault_told result
        (binary_of (Test how) (filler_of a.now) (filler_of b.now)) }
    ensures datum { IfOk result (λ made. IsDatum made) }
{
    applied(alloc, Binary::Test(how), a, b, kernels, arena, steps)
}

/// An operation on truth values.
pub fn logical<'a, N: Kernels, L: Ledger>(
    alloc: Global,
    op: Logic,
    a: &Datum<'a>,
    b: &Datum<'a>,
    kernels: &N,
    arena: &'a Arena,
    steps: &mut Steps<L>,
) -> Result<Datum<'a>, Fault>
    requires first { IsDatum a.now }
    requires second { IsDatum b.now }
    ensures answer { Gives datum_of fault_told result
        (binary_of (Join op) (datum (datum_of a.now)) (datum (datum_of b.now))) }
    ensures datum { IfOk result (λ made. IsDatum made) }
{
    let a = Operand::Of(a.copy(alloc)?);
    let b = Operand::Of(b.copy(alloc)?);
    applied(alloc, Binary::Join(op), &a, &b, kernels, arena, steps)
}
