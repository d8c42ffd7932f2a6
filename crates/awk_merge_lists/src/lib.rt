//! Leaves and lists of columns that are merged.
//!
//! `numbers` makes one column of the leaves of all columns; `list_level` and `regular_level` go one
//! level down, to the columns of the items of all lists.
#![tactic(auto)]

mod leaves;
mod lists;
mod parts;

pub use leaves::numbers;
pub use lists::{list_level, regular_level};
