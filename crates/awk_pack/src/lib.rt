//! Packed arrays: one form and one list of lanes for each type and values.
//!
//! `pack` gives the form, the length and the lanes of an array, or tells that a column is too long.
#![tactic(auto)]

mod column;
mod contents;
mod form;
mod inside;
mod packed;
mod packing;

pub use packed::{PackFault, Packed};
pub use packing::pack;
