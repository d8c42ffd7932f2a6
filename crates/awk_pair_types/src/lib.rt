//! What operands are paired to, told by their types before any of their items are paired.
//!
//! `no_items_of_each` gives operands without their items. `pair_types` pairs these as far as the
//! operands themselves are paired: that has no fault, and the type that it makes is the one that
//! the operands are paired to. `typ_within` tells the limit that the type of a node passes.
#![tactic(auto)]

mod empty;
mod limits;
mod pairing;

pub use empty::{no_items, no_items_of_each};
pub use limits::typ_within;
pub use pairing::pair_types;
