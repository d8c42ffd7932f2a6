//! Arrays of several types joined into one of the type that these unify to.
//!
//! `concatenate` joins arrays one after another at axis 0, and the lists of each row at axis 1.
//! `unify` gives the type that several have in common, with the lifts of each to it, and `merge`
//! one column of that type from columns and their lifts.
#![tactic(auto)]

mod joining;
mod joining_arrays;
mod joining_rows;

pub use awk_merge_columns::merge;
pub use awk_merge_operands::Axis;
pub use awk_merge_sides::{Side, Sides};
pub use awk_unify::{Lift, Lifts, Places, Unified, unify};
pub use joining::concatenate;
