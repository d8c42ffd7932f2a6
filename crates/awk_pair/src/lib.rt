//! Several operands paired: the lists and nulls that they share, and their items at its ends.
//!
//! `pair` stretches lists of a type of size 1 beside lists of another; `pair_keeping` does not
//! stretch those of the first operand. `has_wrong_end` tells their type fault alone.
#![tactic(auto)]

mod outcome;
mod pairing;
mod rows;
mod unequal;

pub use awk_pair_operands::has_wrong_end;
pub use outcome::Paired;
pub use pairing::{pair, pair_keeping};
