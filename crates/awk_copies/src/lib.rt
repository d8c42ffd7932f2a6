//! Copies of arrays for another life.
//!
//! `shared_array` gives the same array for a shorter life, over the same bytes, and `array_in` over
//! bytes of its own, in another arena.
#![tactic(auto)]

mod moving;
mod shared;

pub use moving::array_in;
pub use shared::shared_array;
