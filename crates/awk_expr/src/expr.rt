//! Expressions as trees.
ghost use Rattle.std.specs.Prelude.{◌≡◌, ◌<◌, [], ◌∷◌, ◌++◌, length, OnErr, OnOk, slice_get, Some};
ghost use Rattle.awk_expr.specs.View.{Below, expr_of, exprs_of};

use crate::fixed::Fixed;
use crate::op::Op;
use awk_types::{Name, NoMemory};
use std::alloc::Global;

/// An expression.
#[cycle(expr)]
#[derive(Debug, Drop)]
pub enum Expr {
    /// What a name is bound to.
    Var(Name),
    /// A whole number from the least i64 to the greatest u64.
    Whole(i128),
    /// A truth value.
    Truth(bool),
    /// An operation with its expressions and its other arguments, each in the written order.
    Call { op: Op, args: Exprs, fixed: Fixed },
}

/// Expressions in order.
#[cycle(expr)]
#[derive(Debug, Drop)]
pub struct Exprs {
    pub(crate) items: Vec<Expr>,
}

impl Exprs {
    /// No expressions.
    pub fn new(alloc: Global) -> Exprs
        ensures { exprs_of result ≡ [] }
    {
        Exprs {
            items: Vec::new(alloc),
        }
    }

    /// Puts an expression at the end.
    pub fn push(&mut self, item: Expr) -> Result<(), NoMemory>
        ensures ok { OnOk result (exprs_of self.new ≡ exprs_of self.old ++ expr_of item ∷ []) }
        ensures err { OnErr result (exprs_of self.new ≡ exprs_of self.old) }
    {
        self.items.push(item)?;
        Ok(())
    }

    /// How many expressions there are.
    pub fn len(&self) -> usize
        ensures { result ≡ length (exprs_of self.now) }
    {
        self.items.len()
    }

    /// The expression at a place.
    #[tactic(auto, using(crate::proofs::Views::exprs_get))]
    pub fn get(&self, i: usize) -> &Expr
        requires { i < length (exprs_of self.now) }
        ensures item { slice_get (exprs_of self.now) i ≡ Some (expr_of result.now) }
        ensures below { Below result.now self.now }
    {
        &self.items[i]
    }
}
