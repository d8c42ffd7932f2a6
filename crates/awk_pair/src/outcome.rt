//! What a pairing comes to.

use awk_frames::Frame;
use awk_layout::Arrays;

/// Operands paired.
#[derive(Drop)]
pub struct Paired<'a> {
    /// The lists and nulls that all operands share.
    pub shape: Frame<'a>,
    /// Whether the result is a single value.
    pub single: bool,
    /// One column for each operand: its items at the ends, in order.
    pub leaves: Arrays<'a>,
}

/// What pairing the rows of one level comes to.
#[derive(Drop)]
pub(crate) enum Outcome<'a> {
    /// Some lists that are paired differ in length.
    Unequal,
    /// The lists of some level have too many items together.
    TooMany,
    Pairs {
        shape: Frame<'a>,
        leaves: Arrays<'a>,
    },
}
