//! The variables of a session, and what expressions over them are.
//!
//! `Env` holds names and data in the order of first binding; `eval` gives the datum of an
//! expression, or its first fault. `application` has one arm an operation: each goes by the shape
//! of what it takes, which `awk_arguments` reads.
#![tactic(auto)]

mod application;
mod env;
mod evaluation;
mod heights;
mod histograms;
mod leaves;
mod lists;
mod options;
mod picks;
mod records;
mod shared;
mod single;
mod views;

pub use env::Env;
pub use evaluation::eval;
