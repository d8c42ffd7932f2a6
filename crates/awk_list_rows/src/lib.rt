//! Columns of lists whose items lie in a row, found out by whole lanes, with no look at each list.
//!
//! `items_in` cuts the items of lists from their content where each list begins where the one
//! before ends. `own_ends`, `begin_at`, `own_items` and `row_offsets` use the offsets that a column
//! has already, where these are of 64 bits and begin at 0. `are_same` compares lists byte for byte.
#![tactic(auto)]

mod in_row;
mod offsets;
mod whole;

pub use in_row::{begin_at, own_ends, own_items};
pub use offsets::row_offsets;
pub use whole::{are_same, items_in};
