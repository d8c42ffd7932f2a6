//! Lists of leaves of which some may be null, read where they lie: what they come to.
//!
//! `nullable_of` opens an array of such leaves as a lane of numbers and a way there from an item
//! (`Nullable`). `LeafLists` is lists of them, of whose items that are not null `fold_lists` gives
//! the sums or products, `tally_lists` counts, `extreme_lists` the least or the greatest and
//! `place_lists` where that stands, each with a mask of the lists that have one.
#![tactic(auto)]

mod lists;
mod opening;

pub use lists::{LeafLists, extreme_lists, fold_lists, place_lists, tally_lists};
pub use opening::{Nullable, nullable_of};
