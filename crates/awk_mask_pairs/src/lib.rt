//! Masks of truth values over arrays, as pairings: what types are masks, what an array is where one
//! is over it, and the levels that both share.
//!
//! A mask is paired with what it is over as deep as its own lists go, and no list is stretched.
#![tactic(auto)]

mod mask_types;

pub use mask_types::{has_ones, mask_levels, masked_type, masks};
