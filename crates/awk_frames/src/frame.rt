//! Lists and nulls over ends.

use crate::option_lane::OptionLane;
use awk_lanes::Lane;

/// Lists and nulls over ends.
///
/// A frame of ends has as many places as ends, one of lists one fewer than its offsets, and one
/// with nulls as many as its index. Its offsets are of i64. The first one is 0 and the last one is
/// the number of places below. The numbers of an index that are not negative are 0, 1 and so on,
/// one for each place below.
#[cycle(frame)]
#[derive(Drop)]
pub enum Frame<'a> {
    /// How many ends there are.
    Leaf(u64),
    /// Lists of what is below, each of a size where they are regular.
    Items {
        offsets: Lane<'a>,
        regular: Option<u64>,
        below: Box<Frame<'a>>,
    },
    /// What is below, with nulls.
    Missing {
        index: OptionLane<'a>,
        below: Box<Frame<'a>>,
    },
}
