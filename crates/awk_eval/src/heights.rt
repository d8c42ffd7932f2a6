//! What an operation gives is no higher than its type asks for.
ghost use Rattle.std.specs.Prelude.{◌≡◌, ◌≤◌, true, false, option_map, IfOk};
ghost use Rattle.awk_expr.specs.View.{expr_of};
ghost use Rattle.awk_heights.specs.Low.{IsLow};
ghost use Rattle.awk_layout.specs.Datum.{datum_of, kept, IsDatum};
ghost use Rattle.awk_eval.specs.Heights.{is_single as is_single_value};
ghost use Rattle.awk_eval.specs.Heights.{is_array_view as is_view_of_array};
ghost use Rattle.awk_eval.specs.Views.{is_view_op, view_of};

use crate::env::Env;
use awk_arguments::bounds;
use awk_expr::{Expr, Fixed, Op};
use awk_heights::lower;
use awk_lanes::{Arena, Steps};
use awk_layout::Datum;
use awk_types::{Name, NoMemory};
use std::alloc::Global;
use std::sync::ledger::Ledger;

// Whether an operation is a range of step 1 or a choice of fields.
fn is_view(op: Op, fixed: &Fixed) -> bool
    ensures { result ≡ is_view_op op fixed.now }
{
    match op {
        Op::Range => bounds(fixed).is_some(),
        Op::Field | Op::Fields | Op::WithoutField => true,
        _ => false,
    }
}

// The name of the variable that an expression is a view of.
#[cycle(viewed)]
fn viewed_name(e: &Expr) -> Option<&Name>
    ensures { option_map (λ n. n.now) result
        ≡ option_map (λ v. v.name) (view_of (expr_of e.now)) }
{
    match e {
        Expr::Var(name) => Some(name),
        Expr::Whole(_) => None,
        Expr::Truth(_) => None,
        Expr::Call { op, args, fixed } => {
            if args.len() != 1 {
                return None;
            }
            if !is_view(*op, fixed) {
                return None;
            }
            viewed_name(args.get(0))
        }
    }
}

// Whether a name is bound to a single value.
fn is_single(bound: Option<&Datum>) -> bool
    ensures { result ≡ is_single_value (option_map (λ x. x.now) bound.entry) }
{
    match bound {
        Some(Datum::One(_)) => true,
        Some(Datum::Arr(_)) => false,
        None => false,
    }
}

// Whether an expression is a view of a variable that is not bound to a single value.
fn is_array_view(env: &Env, e: &Expr) -> bool
    ensures { result ≡ is_view_of_array env.now (view_of (expr_of e.now)) }
{
    match viewed_name(e) {
        Some(name) => !is_single(env.get(name.as_str())),
        None => false,
    }
}

/// What an operation gave, as low as its type asks for. The view of an array is given as it
/// stands: it is no higher than the array.
pub(crate) fn limited<'s, 'a: 's, L: Ledger>(
    alloc: Global,
    env: &Env<'a>,
    e: &Expr,
    made: Datum<'s>,
    arena: &'s Arena,
    steps: &mut Steps<L>,
) -> Result<Datum<'s>, NoMemory>
    requires { IsDatum made }
    ensures same { IfOk result (λ x. datum_of x ≡ datum_of made.entry) }
    ensures datum { IfOk result (λ x. IsDatum x) }
    ensures view { is_view_of_array env.now (view_of (expr_of e.now)) ≡ true
        → (steps.new ≤ steps.old) × IfOk result (λ x. x ≡ made.entry) }
    ensures low { is_view_of_array env.now (view_of (expr_of e.now)) ≡ false
        → IfOk result (λ x. IsLow (kept x)) }
{
    if is_array_view(env, e) {
        return Ok(made);
    }
    lower(alloc, made, arena, steps)
}
