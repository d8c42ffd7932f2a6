//! An array as alternatives that are neither optional nor unions.
//!
//! `alternatives` splices unions within unions and indexes and options over them into one `Spread`:
//! alternatives, and the tag and the place of each item, which is negative for a null.
#![tactic(auto)]

mod spread;

pub use spread::{Spread, alternatives};
