//! The sides of a pairing: which types open a further level, what each operand gives to a level by
//! its type, and the rows of arrays.
//!
//! `opens` and `goes_on` tell whether there is a further level, `some_option` whether nulls may
//! stand at it, and `stretches` and `is_single` which lists are stretched.
#![tactic(auto)]

mod levels;

pub use levels::{goes_on, is_single, opens, present_type, some_option, stretches};
