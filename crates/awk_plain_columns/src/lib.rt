//! Columns of plain JSON values that are of a type as they stand.
//!
//! `suited_array` is the array of the items of a list that are of a type as they stand, a column
//! for each type node, in time linear in the values. `has_columns` tells of which types there are
//! columns: lists, options and records, at any depth, of whole numbers and truth values.
#![tactic(auto)]

mod leaves;
mod lists;
mod options;
mod records;
mod suited;

pub use suited::{has_columns, suited_array};
