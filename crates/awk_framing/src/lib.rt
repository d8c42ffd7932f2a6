//! How a session's lines part its bytes: what a line is read as, and the raw bytes it asks for.
//!
//! `read_as` reads a line as the lines before it say, and `reading_behind` tells how the next one
//! is read. `raw_need` tells how many raw bytes follow a line.
#![tactic(auto)]

mod need;
mod read;

pub use need::{RawEnd, is_blank, raw_need};
pub use read::{Read, read_as, reading_behind};
