//! Operations on two lanes of one kind, number by number, from where their bytes lie.
//!
//! `calculated_lanes` is the lane of the sums, differences or products of numbers of 8 or 16 bits
//! or of int64, if their primitive holds each of them. `calculated_beside` is that of a lane of
//! int64 and one number, or of quotients of numbers of 8 or 16 bits by one. For other primitives
//! and operations both are none. `compared_lanes` is the lane of a comparison, and
//! `compared_beside` of one with a number, of each kind but truth values and uint64.
//! `chosen_lane` has at each place the number of one of two lanes, by a byte.
//!
//! Nothing is copied into eight bytes a number first, and no place asks for its kind.
#![tactic(auto)]

mod calculation;
mod cells;
mod comparison;
mod exact;
mod groups;
mod narrow;
mod quotient;
mod rows;
mod wide;

pub use calculation::{calculated_beside, calculated_lanes};
pub use comparison::{compared_beside, compared_lanes};
pub use groups::chosen_lane;
