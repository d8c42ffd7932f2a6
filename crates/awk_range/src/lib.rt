//! Ranges of the items of an array.
//!
//! `range` gives the items from one place below another, of the same type. Its clauses bound the
//! steps by the nodes of the array, and not by its items.
#![tactic(auto)]

mod ranges;

pub use ranges::range;
