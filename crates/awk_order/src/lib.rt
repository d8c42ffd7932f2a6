//! The items of each innermost list in order, and their places in that order.
//!
//! `sort` and `argsort` are the public calls.
#![tactic(auto)]

mod cells;
mod lists;
mod nulls;
mod places;
mod sorting;
mod types;
mod values;

pub use sorting::{argsort, sort};
