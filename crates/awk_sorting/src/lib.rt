//! Numbers in order, list by list, without layouts.
//!
//! `lane_in_order` is a lane with each of its parts in order, and `places_in_order` a lane with the
//! places of each part, in the order of what stands there (`Cells`).
#![tactic(auto)]

mod cells;
mod keys;
mod lanes;
mod number;
mod parts;
mod places;
mod ranks;
mod wide;

pub use cells::Cells;
pub use lanes::lane_in_order;
pub use places::places_in_order;
