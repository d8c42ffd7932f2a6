//! Kernels: passes over whole lanes of numbers, with no layout in them.
//!
//! `Kernels` is the trait that callers take: the first list out of order, the first number outside,
//! the greatest, running sums and gathers; arithmetic within bounds, comparisons and choices place
//! by place; counts, sums, and the first least and greatest. `Plain` is its implementation by plain
//! loops; `calculate` is one operation on two numbers.
#![tactic(auto)]

mod fold;
mod kernels;
mod operation;
mod plain;
mod pointwise;
mod scalar;

pub use kernels::Kernels;
pub use operation::{Arith, Broken, Compare, Why};
pub use plain::Plain;
pub use scalar::calculate;
