//! Expressions of a session, read from JSON.
//!
//! `read_expr` gives the `Expr` that a JSON value is. Each operation (`Op`) stands once in one
//! table: its name, and what its arguments are.
#![tactic(auto)]

mod arguments;
mod expr;
mod fault;
mod fixed;
mod kind;
mod op;
mod operations;
mod read;
mod values;

pub use expr::{Expr, Exprs};
pub use fault::QueryFault;
pub use fixed::{Fixed, FixedArg};
pub use op::{AxisOp, Extent, LogicOp, Op, PairOp, PlaceOp, ReduceOp, SingleOp, Target};
pub use read::read_expr;
pub use values::items;
