//! The tuples of one item of each of several lists, as columns: of items, or of their places.
#![tactic(auto)]

mod sources;
mod tuples;

pub use sources::Sources;
pub use tuples::{Tuples, repeated, tuples_of};
