//! Loading: the array that a form, a length and buffers of a byte order give, or the first break of
//! the walk over the nodes.
//!
//! `load` judges the limits of the type first; `load_typed` takes a form whose type is at hand.
//! `LoadFault` tells the break, with the node, the rule and the place.
#![tactic(auto)]

mod arrays;
mod buffers;
mod fault;
mod judge;
mod keys;
mod lanes;
mod lengths;
mod numbers;
mod order;
mod own;
mod parts;
mod walk;

pub use arrays::{load, load_typed};
pub use fault::{BufferFault, LoadFault, Rule};
pub use lanes::Reader;
