//! Arrays whose nulls are filled by a value.
//!
//! `fill_none` gives each null among the items of the lists at an axis as a literal or a single
//! value, of the type that the items' and the value's unify to.
#![tactic(auto)]

mod filling;
mod numbers;
mod parts;

pub use filling::fill_none;
