//! Operations on nulls: which items are null, lists without them, first items.
//!
//! The calls are `is_none`, `drop_none`, `firsts` and `singletons`.
#![tactic(auto)]

mod dropping;
mod ends;
mod first_items;
mod nulls;
mod presence;
mod rows;
mod singles;

pub use dropping::drop_none;
pub use first_items::firsts;
pub use nulls::is_none;
pub use singles::singletons;
