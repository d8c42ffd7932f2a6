//! Records in columns with one field put in, and how deep types are then.
//!
//! `with_column` puts a column of values into a column of records, which may be null; `list_fault`
//! tells a type that is too deep or too wide with the field.
#![tactic(auto)]

mod ends;
mod limits;
mod records;

pub use ends::with_column;
pub use limits::list_fault;
