//! Tuples of one item of each of several lists: of arrays, or of the lists of each row.
//!
//! `cartesian` gives all of them, of items or of their places, the last varying fastest.
#![tactic(auto)]

mod crossing;
mod opening;
mod rows;
mod sources;
mod typing;

pub use crossing::cartesian;
