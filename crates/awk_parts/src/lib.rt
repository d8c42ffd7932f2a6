//! Lanes with a number for each part of a lane's numbers.
//!
//! `Parts` is numbers with the `Spans` of their parts, which `spans_of` reads off lanes of starts
//! and stops, and `spans_between` off offsets. `fold_parts` is the sums or products of the parts,
//! or none where one does not fit its primitive, and `tally_parts` their counts; `extremes_of` is
//! the least or the greatest of each part, `places_of` where it stands; `present_parts` tells which
//! parts have a number. `fitting_lane` makes a lane of any numbers that are judged so (`Totals`).
//! Numbers that fit an i64 are compared, counted and summed as such, in a loop over the parts for
//! each kind and each question, which no part asks again; the least and the greatest of numbers of
//! up to 32 bits with a sign are found as i32. The sums of 64 parts with few numbers are differences of running
//! sums over a window of these; any other sum of numbers of i64 is made in 128 bits, and a product
//! goes on in these where it is found in no 64. Whether some or all of a part are not 0 is told at
//! the first block that settles it; true truth values are counted a block at a time. `number_in` is
//! a number as code holds those of a kind.
#![tactic(auto)]

mod counts;
mod extremes;
mod fits;
mod folds;
mod kinds;
mod naturals;
mod offsets;
mod parts;
mod places;
mod products;
mod rules;
mod short;
mod sums;
mod tallies;
mod totals;
mod wide;
mod window_sums;
mod windows;

pub use extremes::{extremes_of, zero_of};
pub use folds::fold_parts;
pub use kinds::number_in;
pub use offsets::offset_at;
pub use parts::{Parts, Spans, span_length, spans_between, spans_of};
pub use places::{number_of_place, places_of, present_parts};
pub use tallies::{kind_of_tally, tally_parts};
pub use totals::{Totals, fitting_lane};
