//! Views of arrays: the fields of their records, and what single items are.
//!
//! `field`, `fields` and `without` choose fields through lists, options and unions; `item_at` gives
//! the datum at a place, and `settled` the one that an array of one item is.
#![tactic(auto)]

mod choice;
mod chosen;
mod first;
mod found;
mod settling;
mod view;

pub use settling::{item_at, settled};
pub use view::{field, fields, without};
