//! The items of lists that are not null, as numbers.
//!
//! `present_of` is the numbers of those items in one lane, with offsets of each list's, and an
//! index that leads from a number back to its item where some may be null. `leaves_of` is the
//! items of an array of leaves as one lane.
#![tactic(auto)]

mod leaves;
mod named;
mod opening;
mod present;

pub use leaves::leaves_of;
pub use present::{Present, present_of};
