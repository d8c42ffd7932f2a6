//! Laws of the operations on numbers, over their definitions: leaves, reducers, order, histograms.
//!
//! Each call has no parameters and does nothing: its contract is the laws of one group, which stand
//! in `specs/` as a record with a line for each law.
#![tactic(auto)]

mod histograms;
mod leaves;
mod orders;
mod reducers;

pub use histograms::histogram_laws;
pub use leaves::leaf_laws;
pub use orders::order_laws;
pub use reducers::reducer_laws;
