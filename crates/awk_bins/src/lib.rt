//! How many numbers lie in each interval between edges that rise, without layouts.
//!
//! `bins_of` counts those of each part of a lane's numbers.
#![tactic(auto)]

mod bins;
mod edges;
mod even;
mod number;
mod tallies;

pub use bins::{Binned, bins_of};
