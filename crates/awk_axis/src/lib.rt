//! Functions of one list, applied to all lists at an axis and to all innermost lists.
//!
//! A function is a value of `ListOp` of `awk_list_functions`. `lift_at` applies it at an axis, and
//! `lift_deep` to the innermost lists.
#![tactic(auto)]

mod datum;
mod items;
mod lift;
mod over;
mod whole;

pub use datum::{lift_at, lift_deep};
