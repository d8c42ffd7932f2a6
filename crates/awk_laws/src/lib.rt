//! Laws of the operations on lists, over their definitions: what a reader can check them against.
//!
//! Each call has no parameters and does nothing: its contract is the laws of one group, which stand
//! in `specs/` as a record with a line for each law. Those of numbers are in `awk_number_laws`.
#![tactic(auto)]

mod laws;
mod tuples;

pub use laws::{concatenation, flattening, nulls, picking, views};
pub use tuples::tuple_laws;
