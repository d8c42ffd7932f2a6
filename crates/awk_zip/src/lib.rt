//! Records and tuples made of columns.
//!
//! `zip` pairs its operands to a depth and puts a row of their items at each end.
#![tactic(auto)]

mod counted;
mod data;
mod rows;
mod zipping;

pub use zipping::zip;
