//! Records with one field more, or with another one in the place of what they had.
//!
//! `with_field` pairs a datum of records with one of the field's values, where no list of the
//! records is stretched, and puts the values into the records.
#![tactic(auto)]

mod field;
mod joining;
mod levels;

pub use field::with_field;
