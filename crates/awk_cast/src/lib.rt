//! Casts: the leaves of a datum as those of another primitive, through records and unions.
//!
//! `cast` gives each number in the primitive, a truth value as 0 or 1, and as a truth value whether
//! a number is not 0. What a datum holds is gone through in order, so that only what is reached can
//! overflow; leaves that are of the primitive already are borrowed.
#![tactic(auto)]

mod casting;
mod fault;
mod leaves;
mod level;
mod nodes;

pub use casting::cast;
