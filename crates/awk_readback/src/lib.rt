//! Laws of packing and loading: what is packed is read back.
//!
//! `packed_reads_back` is the law over the definitions; `load_packed` loads a packed array from a
//! store, and `there_and_back` packs, loads and packs again.
#![tactic(auto)]

mod back;
mod laws;

pub use back::{Back, BackFault, load_packed, there_and_back};
pub use laws::packed_reads_back;
