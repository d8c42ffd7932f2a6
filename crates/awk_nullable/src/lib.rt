//! Numbers of which some may be null, read where they lie.
//!
//! `Leaves` is the numbers of a lane (`Cells`: those of any lane, or of one kind that fit an i64 as
//! such) and a way there from an item (`Places`): an index, a mask of bytes or of bits, or none
//! where each item is there. Of so many items from a first one on, those that are not null are
//! summed by `sum_of`, multiplied by `product_of`, counted by `count_of` and judged by `tally_of`;
//! `extreme_number` is the least or the greatest of them, and `place_of` where among the items it
//! stands first. No lane of their numbers is made.
//! The bytes of a mask are counted in blocks, and items that are all there not at all.
//! Where even a null has a place that holds a number, that is read before the item is asked whether
//! it is null (`Places::ahead`), and no branch is taken there. Where most items of an index are
//! null, as some of them tell (`Places::is_sparse`), it is not: a processor foresees that branch,
//! and a list of nulls is told by a count.
#![tactic(auto)]

mod cells;
mod extremes;
mod group_cells;
mod halves;
mod keys;
mod numbers;
mod places;
mod sums;
mod totals;

pub use cells::Cells;
pub use extremes::place_of;
pub use group_cells::{GroupCells, cells_of};
pub use halves::Halves;
pub use keys::extreme_number;
pub use numbers::{Leaves, count_of};
pub use places::{BitMask, ByteMask, Every, Places};
pub use sums::sum_of;
pub use totals::{product_of, tally_of};
