//! What operands are paired to, level by level, and the first rows that are paired.
//!
//! `has_wrong_end` tells the type fault of a pairing, and `levels_below` how far it goes.
//! `columns_of` and `first_rows` give the rows of arrays and single values that are paired first.
//! `some_array` tells whether an array is made, and `datum_from` hands what is made out as a datum.
#![tactic(auto)]

mod data;
mod first;
mod types;

pub use data::datum_from;
pub use first::{First, columns_of, first_rows};
pub use types::{has_wrong_end, levels_below, some_array};
