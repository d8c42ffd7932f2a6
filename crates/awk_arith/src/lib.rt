//! Arithmetic, comparisons and logic, leaf by leaf, over operands that are paired to their leaves.
//!
//! `binary`, `compare` and `logical` take two operands. A literal is no operand of the pairing: it
//! takes its type from the other operand's leaves, and stands beside each of them. Their result
//! has the lists and nulls that the operands share. `not`, `neg` and `abs` take one operand.
#![tactic(auto)]

mod operands;
mod result;
mod sides;
mod single;

pub use operands::{binary, compare, logical};
pub use single::{abs, neg, not};
