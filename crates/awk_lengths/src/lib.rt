//! The texts in a line are together no longer than the line: a law, and no call.
//!
//! The costs of a session's lines rest on it.
#![tactic(auto)]
