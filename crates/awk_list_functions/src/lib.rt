//! Functions of one list, as they are lifted to the lists at an axis.
//!
//! A `ListOp` says what it makes of a type and of a column of all lists at once (`Made`), and why
//! it refuses a type (`Refusal`) or values (`Spoil`). What types tell of lifting it to the lists of
//! a `Reach` is told before an item is looked at.
#![tactic(auto)]

mod causes;
mod function;
mod judging;
mod place;
mod types;

pub use causes::{Refusal, Spoil, first_of, sooner_spoil};
pub use function::{ListOp, Made};
pub use judging::{judged, judged_whole, spoilt};
pub use place::Reach;
pub use types::MOST_LISTS;
