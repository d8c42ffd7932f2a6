//! Indexes of options in 32 bits, read where they lie.
//!
//! `NarrowIndex` shows the numbers of such a lane without widening them. `OptionIndex` is what is
//! read of an index of either width.
#![tactic(auto)]

mod index;
mod option_index;

pub use index::{NarrowIndex, narrow_index};
pub use option_index::OptionIndex;
