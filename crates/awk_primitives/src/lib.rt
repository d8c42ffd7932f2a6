//! What primitives hold: their ranges, and the one that holds the numbers of two.
//!
//! `least`, `greatest` and `fits` tell the range of a primitive, `literal_prim` and `literal_fits`
//! what a literal is beside items of a type, and `promote` the primitive that the numbers of two
//! are carried into.
#![tactic(auto)]

mod promotion;
mod range;

pub use promotion::promote;
pub use range::{fits, greatest, least, literal_fits, literal_prim};
