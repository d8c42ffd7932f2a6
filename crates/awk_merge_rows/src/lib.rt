//! Options, rows and unions of columns that are merged.
//!
//! `present_level`, `row_level` and `union_level` go one level down: to the columns without their
//! nulls, to those of each part of the rows, and to those of each alternative.
#![tactic(auto)]

mod options;
mod rows;
mod unions;
mod whole;

pub use rows::row_level;
pub use unions::{UnionLevel, union_level};
pub use whole::{PresentLevel, present_level};
