//! Buffers by key: the bytes that a map's texts encode, and bytes that were added, each put into an
//! arena once.
//!
//! `Store::fetch` gives the bytes of a key, or tells that it is absent or that its text is no
//! base64. `Store::added` gives bytes that were added, and copies nothing. `Store::with_room` is
//! given memory into which one long text may be decoded.
#![tactic(auto)]

mod fault;
mod raws;
mod room;
mod store;
mod texts;

pub use fault::{BufferWhy, StoreFault};
pub use room::Room;
pub use store::Store;
