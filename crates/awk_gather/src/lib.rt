//! Items of arrays at places.
//!
//! `gather` gives the items at places, and `gather_opt` also null at each negative number;
//! `gather_node` does the same for a node alone. `peel` takes options and indexes off a node, and
//! `option_over` puts the index of an option over a node, composed with those that it has.
#![tactic(auto)]

mod alike;
mod arrays;
mod composing;
mod follow;
mod peeling;
mod pick;
mod rows;

pub use arrays::{gather, gather_opt};
pub use composing::option_over;
pub use follow::if_shown;
pub use peeling::{Peeled, peel};
pub use pick::{gather_node, is_record};
