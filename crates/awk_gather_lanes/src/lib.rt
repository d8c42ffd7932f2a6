//! Numbers of lanes at places, without layouts.
//!
//! `gather_lane` gives the numbers of a lane at places, `next_lane` those right after them, moved
//! as the groups of bytes that they lie in; `block_lane` makes a run of places of each place, and
//! `narrowed` puts places into 32 bits.
#![tactic(auto)]

mod lanes_at;
mod moved;

pub use lanes_at::{block_lane, gather_lane, next_lane};
pub use moved::narrowed;
