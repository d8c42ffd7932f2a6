//! The item at a place of each list that lies directly inside the items of an array.
#![tactic(auto)]

mod each;
mod source;

pub use each::at_each;
