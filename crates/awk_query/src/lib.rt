//! Lines of a session, read from bytes.
//!
//! `read_line` gives the `Line` that the bytes are, by its `Reading`, with its `Expr`.
#![tactic(auto)]

mod line;
mod parts;
mod reading;

pub use line::{Line, read_line};
pub use reading::{RawPart, RawParts, Reading};
