//! Operands of a pairing to leaves, and the columns that they have at its ends.
//!
//! A literal is no operand of the pairing: it takes its type from the other operand's leaves, and
//! stands at each end. The operands that are data have a column each, in order.
//!
//! `leaf_in`, `datum_leaf` and `leaf_type` tell what the leaves of a type, of a datum and of an
//! operand are of, `push_datum` and `data_before` which operands are data, and `leaf_lane` the lane
//! of a column of leaves.
#![tactic(auto)]

mod columns;
mod operands;

pub use columns::leaf_lane;
pub use operands::{data_before, datum_leaf, leaf_in, leaf_type, push_datum};
