//! Arrays under a mask.
//!
//! `put_mask` keeps the items where a mask over them, as deep as its lists go, is one truth value,
//! and gives null elsewhere. Both are paired, where no list of either is stretched. Over numbers
//! the truth values of a mask without nulls lie as a mask of bytes; else an index is made.
#![tactic(auto)]

mod classes;
mod mask_leaves;
mod mask_lists;
mod masking;

pub use masking::put_mask;
