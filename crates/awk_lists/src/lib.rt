//! Operations on lists: their lengths, their places, and lists joined, cut and counted.
//!
//! The calls are `num`, `local_index`, `flatten`, `unflatten`, `run_lengths`, and `without_field`,
//! which takes any datum.
#![tactic(auto)]

mod cutting;
mod fields;
mod holding;
mod indexes;
mod joining;
mod length;
mod numbers;
mod one_row;
mod runs;
mod sharing;

pub use cutting::unflatten;
pub use fields::without_field;
pub use indexes::local_index;
pub use joining::flatten;
pub use length::num;
pub use runs::run_lengths;
