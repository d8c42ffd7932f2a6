//! Histograms: how many numbers lie in each interval between edges.
//!
//! `hist` is the public call: one histogram of all leaves, or one of each innermost list.
#![tactic(auto)]

mod binning;
mod edges;
mod innermost;
mod lists;
mod nulls;
mod rows;
mod types;

pub use binning::hist;
