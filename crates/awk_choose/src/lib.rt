//! A choice between two operands by a third, leaf by leaf.
//!
//! `choose` pairs a condition of truth values with the two operands, through all lists of the
//! three, and takes at each end the item of the first where the condition is true, else that of the
//! second. Nulls at the ends are items as others are; only a null condition gives null.
#![tactic(auto)]

mod choosing;
mod ends;
mod types;

pub use choosing::choose;
