//! One column of a type from columns whose items are carried to it.
//!
//! `merge` gives the items of all columns, one after another, each carried as its column's lift
//! says.
#![tactic(auto)]

mod merging;
mod nodes;
mod parts;

pub use merging::merge;
