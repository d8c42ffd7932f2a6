//! All numbers of a lane at once.
//!
//! `index_of` and `wide_index` show a lane of places as an `Index`, whose numbers are read without
//! asking for their kind, and `laid_index` one that lies in bytes. `numbers_of`, `nats_of` and
//! `byte_numbers` give the numbers of a lane as a slice.
#![tactic(auto)]

mod cells;
mod index;
mod numbers;

pub use index::{Index, index_of, laid_index, wide_index};
pub use numbers::{byte_numbers, nats_of, numbers_of};
