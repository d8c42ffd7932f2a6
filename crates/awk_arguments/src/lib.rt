//! The arguments of a call, read by what its operation takes.
//!
//! `place`, `text`, `padding` and the others beside them read the arguments that are no
//! expressions, `only`, `both`, `data` and the others the operands; `axis_in` and `axis_among` turn
//! a negative axis, before an operation is called. Each takes only what its operation has.
#![tactic(auto)]

mod axis;
mod fixed;
mod operands;
mod primitives;

pub use axis::{axis_among, axis_in};
pub use fixed::{
    Stepped, bound_of, bounds, depth, edges, named, padding, place, text, texts, truth, tuples,
    with_step,
};
pub use operands::{both, data, first, only, three, two};
pub use primitives::primitive;
