//! The texts of values, of types and of faults.
//!
//! `write_item` and `write_array` put the text of items, `write_type` that of a datum's type,
//! `write_fault` the answer to a fault, `write_packed` that of a packed array, and `write_base64`
//! that of bytes.
#![tactic(auto)]

mod array;
mod buffers;
mod digits;
mod encoded;
mod fault;
mod leaf;
mod numbers;
mod packed;
mod typ;
mod value;

pub use array::{write_array, write_item};
pub use encoded::write_base64;
pub use fault::write_fault;
pub use packed::write_packed;
pub use typ::write_type;
