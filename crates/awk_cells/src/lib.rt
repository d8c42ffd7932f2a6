//! Numbers that fit an i64, read where they lie in the bytes of a lane, without asking for their
//! kind.
//!
//! A `Cell` is how a number of a kind lies in a group of bytes. Of numbers in such groups,
//! `extreme_place` is the first place of the least or the greatest, and `best_of` that number too;
//! `short_of` is it alone and `short_place` its place alone, for numbers that fit an i32, and
//! `natural_of` is it alone for those of 64 bits without a sign. `sum_in`
//! and `int_sum_in` are the sum, `product_in` the product where that is found in 64 bits;
//! `nonzero_in` counts those that are not 0, `count_set` bytes, and `is_some_true` and
//! `are_all_true` tell whether some or all are not 0. `truth_groups` is truth values as groups.
#![tactic(auto)]

mod blocks;
mod cells;
mod counts;
mod extremes;
mod naturals;
mod products;
mod short;
mod short_places;
mod sums;
mod truths;

pub use cells::Cell;
pub use counts::{count_set, nonzero_in};
pub use extremes::{Best, best_of, extreme_place, number_at};
pub use naturals::natural_of;
pub use products::product_in;
pub use short::short_of;
pub use short_places::short_place;
pub use sums::{int_sum_in, sum_in};
pub use truths::{are_all_true, is_some_true, truth_groups};
