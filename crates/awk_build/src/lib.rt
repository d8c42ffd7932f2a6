//! Arrays from plain JSON values.
//!
//! `from_values` makes the array of a JSON list.
#![tactic(auto)]

mod building;
mod joining;
mod lifts;
mod numbers;
mod single;
mod values;

pub use building::from_values;
