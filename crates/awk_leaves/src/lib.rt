//! Operations on leaves: what types they take, and what each gives at one leaf.
//!
//! A `LeafType` is what an operand's leaves are of: a primitive, unknown, or a literal that takes
//! its type from what stands beside it. `binary_prim`, `unary_prim` and `choice_prim` judge the
//! types of an operation and give the primitive of its result.
#![tactic(auto)]

mod judged;
mod leaf_type;
mod operation;

pub use judged::{binary_prim, choice_prim, unary_prim};
pub use leaf_type::LeafType;
pub use operation::{Binary, Logic, Unary};
