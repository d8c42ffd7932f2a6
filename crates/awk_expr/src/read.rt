//! Expressions, read from JSON.
ghost use Rattle.std.specs.Prelude.{◌≡◌, List, map, Some};
ghost use Rattle.serde_json.specs.View.{view};
ghost use Rattle.awk_expr.specs.ArgsView.{args_view};
ghost use Rattle.awk_expr.specs.Arguments.{all_of};
ghost use Rattle.awk_expr.specs.ExprTree as tree;
ghost use Rattle.awk_expr.specs.ExprTree.{exprs_from};
ghost use Rattle.awk_expr.specs.Reading as said;
ghost use Rattle.awk_expr.specs.Reading.{expr_said, call_said, whole_said, list_head};
ghost use Rattle.awk_expr.specs.Told.{Reads};
ghost use Rattle.awk_expr.specs.View.{expr_of, exprs_of};

use crate::arguments::{Args, read_args};
use crate::expr::{Expr, Exprs};
use crate::fault::QueryFault;
use crate::fixed::Fixed;
use crate::op::Op;
use crate::operations::operation;
use crate::values::whole_number;
use awk_types::Name;
use serde_json::Value;
use std::alloc::Global;

/// The expression that a JSON value is.
#[cycle(read)]
pub fn read_expr(alloc: Global, value: &Value) -> Result<Expr, QueryFault>
    ensures { Reads expr_of result (expr_said (view value.now)) }
{
    match value {
        Value::String(name) => variable(alloc, name),
        Value::Number(_) => whole(value),
        Value::Bool(b) => Ok(made_truth(*b)),
        Value::Array(values) => call(alloc, values),
        Value::Null => Err(QueryFault::Query),
        Value::Object(_) => Err(QueryFault::Query),
    }
}

// The call that a list is.
#[cycle(read)]
fn call(alloc: Global, values: &[Value]) -> Result<Expr, QueryFault>
    ensures { Reads expr_of result (call_said (map view values.now)) }
{
    let (op, read) = call_parts(alloc, values)?;
    let args = exprs(alloc, &read.exprs)?;
    Ok(made_call(op, args, read.fixed))
}

#[cycle(read)]
fn exprs(alloc: Global, values: &[&Value]) -> Result<Exprs, QueryFault>
    ensures { Reads exprs_of result (all_of expr_said (map (λ v. view v.now) values.now)) }
{
    let mut exprs = Exprs::new(alloc);
    for value in values {
        exprs.push(read_expr(alloc, *value)?)?;
    }
    Ok(exprs)
}

// The operation of a call and its arguments, whose expressions are not read yet.
fn call_parts<'v>(alloc: Global, values: &'v [Value]) -> Result<(Op, Args<'v>), QueryFault>
    ensures { Reads (λ p. said.call p.0 (args_view p.1)) result (list_head (map view values.now)) }
{
    let Some((first, rest)) = values.split_first() else {
        return Err(QueryFault::Query);
    };
    let name = first.as_str().ok_or(QueryFault::Query)?;
    let (op, kinds) = operation(name, rest.len()).ok_or(QueryFault::Query)?;
    let args = read_args(alloc, kinds, rest)?;
    Ok((op, args))
}

#[tactic(auto, using(crate::proofs::Heads::made_call))]
fn made_call(op: Op, args: Exprs, fixed: Fixed) -> Expr
    ensures { expr_of result ≡ tree.call op (exprs_from (exprs_of args)) fixed }
{
    Expr::Call { op, args, fixed }
}

fn variable(alloc: Global, name: &str) -> Result<Expr, QueryFault>
    ensures { Reads expr_of result (Some (tree.var name.now)) }
{
    Ok(Expr::Var(Name::new(alloc, name)?))
}

// A whole number that is kept as u64 or i64.
fn whole(value: &Value) -> Result<Expr, QueryFault>
    ensures { Reads expr_of result (whole_said (view value.now)) }
{
    let z = whole_number(value)?;
    Ok(made_whole(z))
}

fn made_whole(z: i128) -> Expr
    ensures { expr_of result ≡ tree.whole z }
{
    Expr::Whole(z)
}

fn made_truth(b: bool) -> Expr
    ensures { expr_of result ≡ tree.truth b }
{
    Expr::Truth(b)
}
