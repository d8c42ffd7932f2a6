//! The places that masks and indexes of lists name in a content, list by list.
//!
//! `Kept` are the places where a mask is true, and `Taken` those that an index names, each over the
//! ends of the lists (`awk_columns`) and over values in the form in which they lie (`Values` of
//! `awk_select`). `put_lane` and `kept_lane` make one lane of them all. `put_lane` over
//! `TakenNumbers` makes one of the numbers that stand there, and `beside_lists` one of those beside
//! the true items of a mask, with the offsets of their lists, where `room_beside` tells room for
//! them. `lengths_differ` tells whether the lists of a mask are as long as those that they pick
//! from.
#![tactic(auto)]

mod beside;
mod differing;
mod masks;
mod places;
mod put;
mod room;
mod taken;

pub use beside::{Beside, Moved, beside_lists};
pub use differing::lengths_differ;
pub use masks::{Kept, kept_lane};
pub use places::Taken;
pub use put::{NumberLists, put_lane};
pub use room::room_beside;
pub use taken::TakenNumbers;
