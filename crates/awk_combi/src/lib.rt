//! Tuples of the items of lists at places that go up.
//!
//! `combinations` gives, for each list at an axis, the tuples of its items or of their places.
//! `slot_node` gives what stands in a slot of tuples, by its places.
#![tactic(auto)]

mod combining;
mod slots;
mod spans;
mod tuples;
mod typing;

pub use combining::combinations;
pub use slots::slot_node;
