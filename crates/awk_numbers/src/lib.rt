//! Whole numbers of lanes, and what parts of them come to.
//!
//! `Whole` is all numbers of a lane where they lie: nothing is copied. `folded` is the exact sum or
//! product of a part of them, `tally_of` a count of it or whether some or all are not 0, and
//! `extreme_of` the first place of its least or greatest. Where numbers are places, and a negative
//! one is none, `count_places` and `nth_place` count and find those of a part. `near`, `one_if` and
//! `Side` (`Lesser`, `Greater`) are what passes over other numbers are made of.
#![tactic(auto)]

mod extremes;
mod folds;
mod places;
mod row;
mod side;
mod tallies;
mod whole;

pub use extremes::{Extreme, extreme_of};
pub use folds::{Fold, folded, near};
pub use places::{count_places, nth_place};
pub use side::{Greater, Lesser, Side};
pub use tallies::{Tally, one_if, tally_of};
pub use whole::{Whole, whole_of};
