//! The made session: a large session that a seed and a number of events determine.
//!
//! `session_of` is its text: a load line of the muons that are drawn, event by event, and seven
//! lines about them.
#![tactic(auto)]

mod draws;
mod session;

pub use session::session_of;

/// Want of memory.
pub type NoMemory = std::alloc::AllocError;
