//! Rows of arrays in pairs: the rows of one array by those of another at their places.
//!
//! Two columns of lists stand in pairs, as `Lists`. `level_of` goes down to their rows, as pairs of
//! lists again, where none is of another length; `one_list` makes an array one list, and
//! `rows_of_one` has the rows of one pair alone. `span_of` tells where a list lies.
#![tactic(auto)]

mod alone;
mod ends;
mod in_order;
mod levels;
mod paired;
mod row_lists;
mod spans;

pub use alone::{one_list, rows_of_one};
pub use levels::{Level, Rows, lengths_differ, level_of};
pub use spans::span_of;
