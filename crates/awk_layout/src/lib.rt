//! Layouts of nested, jagged columns: the twelve classes of nodes over lanes.
//!
//! A `Node` is made by the constructor of its class, seen by `Node::class`, and asked for the item
//! at a place by `Node::place`. An `Array` is a node with its simple type, a `Datum` an array or a
//! single value, an `Operand` a datum or a literal. `prim_of` and `kind_of` go between primitives
//! and the kinds of lanes.
#![tactic(auto)]

mod array;
mod datum;
mod filler;
mod frame;
mod node;
mod numbers;
mod single;
mod typing;

pub use array::{Array, Arrays};
pub use datum::{Datum, Datums, Operand, Operands};
pub use frame::{Frame, framed};
pub use node::class::Class;
pub use node::place::Place;
pub use node::{Node, Nodes};
pub use numbers::wide_numbers;
pub use single::{number_of, own_prim};
pub use typing::{kind_of, prim_of};
