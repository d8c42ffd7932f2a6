//! Units, one after another: a line, and the raw bytes that it asks for.
//!
//! How many raw bytes a line asks for is a parameter here, a framing. The definitions say what
//! taking the next unit gives and what a machine answers to units; the laws follow the units that
//! were taken, to the end of the source or to the limit that was passed.
#![tactic(auto)]

mod unit;

pub use unit::UnitBytes;
