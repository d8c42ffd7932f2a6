//! Lists with nulls at their end, up to a length, or cut to it.
//!
//! The call is `pad_none`.
#![tactic(auto)]

mod padded;
mod padding;

pub use padding::pad_none;
