//! The numbers of a lane at places that lists give, moved in one pass: no lane of places is made.
//!
//! `Places` are lists of places, and `list_numbers` the numbers there; `named_numbers` is the array
//! of those that the index of an option names, and `all_named` the same where it is known how many
//! there are.
#![tactic(auto)]

mod moved;
mod named;

pub use moved::{Places, list_numbers};
pub use named::{all_named, has_numbers, named_numbers};
