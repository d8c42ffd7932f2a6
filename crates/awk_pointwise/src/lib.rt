//! Operations on columns of leaves, place by place.
//!
//! A `Side` is what one operand gives at each place: the numbers of a lane, or one number for all
//! places, of which no lane is made. `binary_leaves` is the lane of what an operation gives at each
//! place of two sides, or the fault of the first place that has one, and `unary_leaves` that of one
//! side. No leaf is null there: who pairs operands takes nulls out first.
//!
//! An `Optional` may be null at some places. `choice_leaves` gives at each place the item of one of
//! two of them, by a third.
#![tactic(auto)]

mod binary;
mod blocks;
mod calculate;
mod choice;
mod lanes;
mod optional;
mod see;
mod selection;
mod sides;
mod truths;
mod unary;
mod words;

pub use binary::binary_leaves;
pub use choice::{Chosen, choice_leaves};
pub use optional::Optional;
pub use sides::Side;
pub use unary::unary_leaves;
