//! Each innermost list reduced to one value: sums, extremes, counts and their kin.
//!
//! `reduce` is the public call, and `Reducer` what a list is reduced by.
#![tactic(auto)]

mod extremes;
mod lengths;
mod nullable;
mod ready;
mod reducer;
mod reducing;
mod totals;
mod types;

pub use reducer::Reducer;
pub use reducing::reduce;
