//! Bits of borrowed bytes.
//!
//! `Bits` are read by `at`, each for one counted step, and in ranges, by `cut`.
#![tactic(auto)]

mod bits;

pub use bits::Bits;
