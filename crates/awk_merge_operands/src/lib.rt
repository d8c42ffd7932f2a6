//! Operands that are taken together at an axis, by their arrays or row by row: what `concatenate`
//! joins, and what products of lists are made of.
//!
//! `axis_at` is the axis that a number is; `operand_typs` gives the types that operands are joined
//! as there, and `operand_sides` their columns with their lifts; `judge_rows` tells the faults of
//! columns that are taken row by row.
#![tactic(auto)]

mod operands;
mod rows;

pub use operands::{Axis, axis_at, operand_sides, operand_typs};
pub use rows::judge_rows;
