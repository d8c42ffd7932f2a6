//! Places of lists in tuples: n places of one list that go up, in lexicographic order, and one
//! place of each of several lists, the last varying fastest.
//!
//! `count_rising` tells how many tuples there are before any is made, `rising_offsets` where those
//! of each of several lists lie, and `rising_lanes` makes a lane of places for each slot.
//! `product_offsets` and `product_lanes` do the same for one place of each list.
#![tactic(auto)]

mod begun;
mod counts;
mod maker;
mod offsets;
mod pairs;
mod products;
mod reading;
mod runs;
mod slots;

pub use counts::count_rising;
pub use products::{product_lanes, product_offsets};
pub use slots::{Rising, rising_lanes, rising_offsets};
