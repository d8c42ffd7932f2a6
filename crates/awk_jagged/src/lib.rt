//! Picks row by row: each list of an array by the list of another array at its place.
//!
//! `jagged` is the call, and `is_jagged` is what the evaluation asks of an index's type. An array
//! and an index are walked down together, one level of rows at a time (`awk_jagged_rows`). Where
//! the index has leaves, one lane has the places of all that is picked (`awk_jagged_places`), and
//! what is made is put under the levels above.
#![tactic(auto)]

mod leaves;
mod over;
mod picking;
mod types;

pub use picking::jagged;
pub use types::is_jagged;
