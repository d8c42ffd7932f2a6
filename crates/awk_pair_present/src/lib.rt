//! The rows of operands that have no null, with an index over the others.
//!
//! `present_rows` leaves out the rows in which some operand is null.
#![tactic(auto)]

mod numbers;
mod option_places;
mod presence;
mod present;

pub use present::{PresentRows, present_rows};
