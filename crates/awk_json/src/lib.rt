//! Pieces of JSON texts on their way to a sink.
//!
//! `write_quoted` and `write_joined` put a text quoted and escaped, `write_text` and `write_pieces`
//! put it as it is, `write_number` the decimal digits of a number, `write_separator` and
//! `write_comma` what stands between two items.
#![tactic(auto)]

mod text;

pub use text::{
    write_comma, write_joined, write_number, write_pieces, write_quoted, write_separator,
    write_text,
};
