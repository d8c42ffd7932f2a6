//! What an expression over the variables is.
ghost use Rattle.std.specs.Prelude.{◌≡◌, length, IfOk};
ghost use Rattle.awk_types.specs.Gives.{Gives};
ghost use Rattle.awk_types.specs.Faults.{fault_told};
ghost use Rattle.awk_layout.specs.Datum.{IsDatum, IsOperand, datum_of};
ghost use Rattle.awk_layout.specs.Filler as filler;
ghost use Rattle.awk_layout.specs.Filler.{filler_of};
ghost use Rattle.awk_expr.specs.Allowed.{IsAllowed, AreAllowed};
ghost use Rattle.awk_expr.specs.ExprTree.{exprs_from};
ghost use Rattle.awk_expr.specs.View.{expr_of, exprs_of};
ghost use Rattle.awk_eval.specs.Bindings.{look_up};
ghost use Rattle.awk_eval.specs.Heights.{IsNoHigher};
ghost use Rattle.awk_eval.specs.Variables.{denoted};
ghost use Rattle.awk_arguments.specs.Operand as operand;
ghost use Rattle.awk_arguments.specs.Operand.{AreTaken, IsTakenAs};
ghost use Rattle.awk_arguments.specs.OperandView.{shown_operands};
ghost use Rattle.awk_eval.specs.Views.{IsTaken, Takes, TakesView, OfView, IsArray, AreWithin};
ghost use Rattle.awk_eval.specs.Views.{IsOperandWithin, size_at, sizes_of, size_in};
ghost use Rattle.awk_eval.specs.Views.{view_of, only_view};
ghost use Rattle.awk_eval.specs.Eval as meaning;

use crate::application::apply;
use crate::env::Env;
use crate::heights::limited;
use crate::shared::shared_datum;
use crate::single::{bool_of, int64_of};
use awk_expr::{Expr, Exprs, Op};
use awk_kernels::Kernels;
use awk_lanes::{Arena, Steps};
use awk_layout::{Datum, Operand, Operands};
use awk_types::{Fault, Name};
use std::alloc::Global;
use std::sync::ledger::Ledger;

/// The datum of an expression, or its first fault. Arguments are evaluated from left to right.
///
/// What is made lies in the arena, whose life may be shorter than that of the variables. It is no
/// higher than the highest of them, or than twice the depth of its type.
#[cycle(eval)]
pub fn eval<'s, 'a: 's, N: Kernels, L: Ledger>(
    alloc: Global,
    env: &Env<'a>,
    e: &Expr,
    kernels: &N,
    arena: &'s Arena,
    steps: &mut Steps<L>,
) -> Result<Datum<'s>, Fault>
    requires { IsAllowed (expr_of e.now) }
    ensures answer { Gives datum_of fault_told result
        (meaning.eval (denoted env.now) (expr_of e.now)) }
    ensures datum { IfOk result (λ made. IsDatum made) }
    ensures cost { TakesView env.now (view_of (expr_of e.now)) steps.old steps.new result }
    ensures height { IfOk result (IsNoHigher env.now) }
{
    match e {
        Expr::Var(name) => variable(alloc, env, name.as_str(), steps),
        Expr::Whole(z) => int64_of(*z, arena, steps),
        Expr::Truth(b) => Ok(bool_of(*b, arena, steps)?),
        Expr::Call { op, args, fixed } => {
            let operands = operands(alloc, env, *op, args, kernels, arena, steps)?;
            let made = apply(alloc, *op, fixed, &operands, kernels, arena, steps)?;
            Ok(limited(alloc, env, e, made, arena, steps)?)
        }
    }
}

// The operands of an operation, evaluated from left to right.
#[cycle(eval)]
fn operands<'s, 'a: 's, N: Kernels, L: Ledger>(
    alloc: Global,
    env: &Env<'a>,
    op: Op,
    args: &Exprs,
    kernels: &N,
    arena: &'s Arena,
    steps: &mut Steps<L>,
) -> Result<Operands<'s>, Fault>
    requires { AreAllowed (exprs_from (exprs_of args.now)) }
    ensures answer { Gives shown_operands fault_told result
        (meaning.operands (denoted env.now) op 0 (exprs_from (exprs_of args.now))) }
    ensures count { IfOk result (λ made. length made ≡ length (exprs_of args.now)) }
    ensures taken { IfOk result (λ made.
        AreTaken (operand.takes_literal op) 0 (shown_operands made)) }
    ensures cost { OfView env.now (only_view (exprs_of args.now)) (λ v.
        IsTaken (size_in env.now v) v.count steps.old steps.new) }
    ensures within { OfView env.now (only_view (exprs_of args.now)) (λ v.
        IfOk result (AreWithin (size_in env.now v))) }
{
    let mut made = Operands::new(alloc);
    for k in 0..args.len() {
        let x = operand(
            alloc,
            env,
            takes_literal(op, k),
            args.get(k),
            kernels,
            arena,
            steps,
        )?;
        made.push(x)?;
    }
    Ok(made)
}

// One operand: a whole number is a literal where the operation takes one.
#[cycle(eval)]
fn operand<'s, 'a: 's, N: Kernels, L: Ledger>(
    alloc: Global,
    env: &Env<'a>,
    is_literal: bool,
    e: &Expr,
    kernels: &N,
    arena: &'s Arena,
    steps: &mut Steps<L>,
) -> Result<Operand<'s>, Fault>
    requires { IsAllowed (expr_of e.now) }
    ensures answer { let tree = expr_of e.now in Gives filler_of fault_told result
        (meaning.operand_of is_literal tree (meaning.eval (denoted env.now) tree)) }
    ensures operand { IfOk result (λ made. IsOperand made) }
    ensures taken { IfOk result (λ made. IsTakenAs is_literal (filler_of made)) }
    ensures cost { OfView env.now (view_of (expr_of e.now)) (λ v.
        IsTaken (size_in env.now v) v.count steps.old steps.new) }
    ensures within { OfView env.now (view_of (expr_of e.now)) (λ v.
        IfOk result (IsOperandWithin (size_in env.now v))) }
{
    if is_literal {
        if let Expr::Whole(z) = e {
            return Ok(literal(*z));
        }
    }
    Ok(Operand::Of(eval(alloc, env, e, kernels, arena, steps)?))
}

fn literal<'s>(z: i128) -> Operand<'s>
    ensures { filler_of result ≡ filler.literal z }
{
    Operand::Literal(z)
}

// Whether a whole number as the k-th expression of an operation takes its type from there.
fn takes_literal(op: Op, k: usize) -> bool
    ensures { result ≡ operand.takes_literal op k }
{
    match op {
        Op::Calculate(_) | Op::Test(_) => true,
        Op::Choose => k != 0,
        Op::FillNone => k == 1,
        _ => false,
    }
}

// What a name is bound to.
fn variable<'s, 'a: 's, L: Ledger>(
    alloc: Global,
    env: &Env<'a>,
    name: &str,
    steps: &mut Steps<L>,
) -> Result<Datum<'s>, Fault>
    ensures answer { Gives datum_of fault_told result
        (meaning.found name.now (look_up name.now (denoted env.now))) }
    ensures datum { IfOk result (λ made. IsDatum made) }
    ensures cost { IsArray (look_up name.now env.now)
        → Takes (size_at (sizes_of env.now) name.now) 1 steps.old steps.new result }
    ensures height { IfOk result (IsNoHigher env.now) }
{
    match env.get(name) {
        Some(x) => Ok(shared_datum(alloc, x, steps)?),
        None => Err(Fault::Unbound(Name::new(alloc, name)?)),
    }
}
