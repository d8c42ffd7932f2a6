//! The outermost kind of an array, with its lanes and contents; unions settled.
//!
//! `opened` tells an array apart as `Opened`: no items, leaves, lists, rows, an option or a union,
//! whatever classes its nodes have. `in_order` opens it so that contents hold exactly what is
//! reached, in order; `open_array` says it with the class of lists, for operations. `MaskIndex` is
//! the index that a mask of bytes stands for, read where its bytes lie.
#![tactic(auto)]

mod array;
mod masks;
mod opening;
mod order;
mod outermost;
mod taken;
mod unions;
mod whole;
mod whole_index;

pub use array::open_array;
pub use masks::{MaskIndex, mask_index};
pub use opening::Opened;
pub use order::in_order;
pub use outermost::opened;
