//! The run of a session: its units, lines and the raw bytes behind some, come from a source or are
//! made of two numbers, the answers go to a sink, and a status tells how it ended.
//!
//! `run_words` is that run over any source and any sink, and its contract is the headline. Its
//! words say whether the session is read or made. `run_program` is the run over the command line
//! and the standard streams, by no contract of its own.
#![tactic(auto)]

mod made;
mod program;
mod run;
mod unit;
mod words;

pub use program::run_program;
pub use run::{Status, run_words};
