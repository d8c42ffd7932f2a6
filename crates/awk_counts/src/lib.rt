//! Lanes that count what indexes and tags show, without layouts.
//!
//! `counted` numbers the places that an index has, `counted_narrow` does so in 32 bits where these
//! are enough, `present_lane` is the lane of the places, and `count_present` how many there are;
//! `present_counts` tells how many stand before each place.
//! `counted_union` numbers the items of each tag and tells how many there are of each, and
//! `tagged_lanes` are the lanes of their places, parted in one pass.
#![tactic(auto)]

mod presence;
mod present;
mod tagged;

pub use presence::{one_if_present, present_counts};
pub use present::{count_present, counted, counted_narrow, present_lane};
pub use tagged::{CountedUnion, counted_union, tagged_lanes};
