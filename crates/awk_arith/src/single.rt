//! Operations on one datum.
ghost use Rattle.std.specs.Prelude.{◌≡◌, ◌∷◌, [], ◌<◌, length, false, None, IfOk};
ghost use Rattle.awk_types.specs.Faults.{fault_told};
ghost use Rattle.awk_types.specs.Gives.{Gives};
ghost use Rattle.awk_layout.specs.Datum.{datum_of, IsDatum};
ghost use Rattle.awk_leaves.specs.declared.operation.Unary.TheVariants.{Not, Negate, Absolute};
ghost use Rattle.awk_pair_operands.specs.First.{all_data};
ghost use Rattle.awk_pair_operands.specs.Pairs.{has_wrong_end};
ghost use Rattle.awk_arith.specs.Unary.{judged_unary, unary_of};

use crate::result::result_typ;
use crate::sides::leaf_results;
use awk_ends::datum_leaf;
use awk_frames::framed;
use awk_kernels::Kernels;
use awk_lanes::{Arena, NoMemory, Steps};
use awk_layout::{Array, Datum, Node, Operand, Operands};
use awk_leaves::{Unary, unary_prim};
use awk_pair::{has_wrong_end, pair};
use awk_pair_operands::datum_from;
use awk_types::Fault;
use std::alloc::Global;
use std::sync::ledger::Ledger;

/// A datum as the only operand.
fn only<'a>(alloc: Global, x: &Datum<'a>) -> Result<Operands<'a>, NoMemory>
    requires { IsDatum x.now }
    ensures { IfOk result (λ xs. all_data xs ≡ datum_of x.now ∷ []) }
{
    let mut xs = Operands::new(alloc);
    xs.push(Operand::Of(x.copy(alloc)?))?;
    Ok(xs)
}

/// An operation on a datum that has leaves at its ends.
fn paired_leaves<'a, N: Kernels, L: Ledger>(
    alloc: Global,
    op: Unary,
    x: &Datum<'a>,
    xs: &Operands<'a>,
    kernels: &N,
    arena: &'a Arena,
    steps: &mut Steps<L>,
) -> Result<Datum<'a>, Fault>
    requires data { all_data xs.now ≡ datum_of x.now ∷ [] }
    requires some { 0 < length xs.now }
    requires leaves { has_wrong_end None (all_data xs.now) ≡ false }
    ensures answer { Gives datum_of fault_told result (judged_unary op (datum_of x.now)) }
    ensures datum { IfOk result (λ made. IsDatum made) }
{
    let prim = unary_prim(op, datum_leaf(x))?;
    let typ = result_typ(alloc, prim, xs, arena, steps)?;
    let paired = pair(alloc, xs, None, arena, steps)?;
    let lane = leaf_results(alloc, op, paired.leaves.get(0), kernels, arena, steps)?;
    let node = framed(alloc, &paired.shape, Node::numpy(lane, steps), steps)?;
    Ok(datum_from(paired.single, Array::within_limits(node, typ)))
}

/// An operation on the leaves of a datum.
fn on_leaves<'a, N: Kernels, L: Ledger>(
    alloc: Global,
    op: Unary,
    x: &Datum<'a>,
    kernels: &N,
    arena: &'a Arena,
    steps: &mut Steps<L>,
) -> Result<Datum<'a>, Fault>
    requires { IsDatum x.now }
    ensures answer { Gives datum_of fault_told result (unary_of op (datum_of x.now)) }
    ensures datum { IfOk result (λ made. IsDatum made) }
{
    let xs = only(alloc, x)?;
    if has_wrong_end(&xs, None) {
        return Err(Fault::WrongType);
    }
    paired_leaves(alloc, op, x, &xs, kernels, arena, steps)
}

/// The other truth value of each leaf.
pub fn not<'a, N: Kernels, L: Ledger>(
    alloc: Global,
    a: &Datum<'a>,
    kernels: &N,
    arena: &'a Arena,
    steps: &mut Steps<L>,
) -> Result<Datum<'a>, Fault>
    requires { IsDatum a.now }
    ensures answer { Gives datum_of fault_told result (unary_of Not (datum_of a.now)) }
    ensures datum { IfOk result (λ made. IsDatum made) }
{
    on_leaves(alloc, Unary::Not, a, kernels, arena, steps)
}

/// Each whole number with the other sign, in its primitive, or `Overflow`.
pub fn neg<'a, N: Kernels, L: Ledger>(
    alloc: Global,
    a: &Datum<'a>,
    kernels: &N,
    arena: &'a Arena,
    steps: &mut Steps<L>,
) -> Result<Datum<'a>, Fault>
    requires { IsDatum a.now }
    ensures answer { Gives datum_of fault_told result (unary_of Negate (datum_of a.now)) }
    ensures datum { IfOk result (λ made. IsDatum made) }
{
    on_leaves(alloc, Unary::Negate, a, kernels, arena, steps)
}

/// Each whole number without its sign, in its primitive, or `Overflow`.
pub fn abs<'a, N: Kernels, L: Ledger>(
    alloc: Global,
    a: &Datum<'a>,
    kernels: &N,
    arena: &'a Arena,
    steps: &mut Steps<L>,
) -> Result<Datum<'a>, Fault>
    requires { IsDatum a.now }
    ensures answer { Gives datum_of fault_told result (unary_of Absolute (datum_of a.now)) }
    ensures datum { IfOk result (λ made. IsDatum made) }
{
    on_leaves(alloc, Unary::Absolute, a, kernels, arena, steps)
}
