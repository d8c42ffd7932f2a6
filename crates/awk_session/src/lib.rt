//! The engine of a session's lines: each line has at most one answer, and may bind a variable.
//!
//! `Engine::line_raw` answers a line that is not blank, with the raw bytes behind it, and flushes;
//! `Engine::line` does this for a line without raw bytes, and `Engine::line_given` for a line whose
//! memory is given up. `Engine::raw_need` tells how many raw bytes a line asks for, and `is_blank`
//! the lines that have no answer. `laws` has the law of what a session packs and loads.
#![tactic(auto)]

mod engine;
pub mod laws;
mod line;
mod reply;
mod state;

pub use awk_answer::Answered;
pub use awk_framing::{RawEnd, is_blank};
pub use awk_store::Room;
pub use engine::{Engine, LineEnd};
