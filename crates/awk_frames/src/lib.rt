//! The lists and nulls that values share, apart from what stands at their ends.
//!
//! A `Frame` holds their lanes, an index of an option as an `OptionLane`. `framed` puts a column of
//! ends under it, as one node.
#![tactic(auto)]

mod frame;
mod framing;
mod option_lane;

pub use frame::Frame;
pub use framing::framed;
pub use option_lane::OptionLane;
