//! Columns of lists: where lists lie in their content, and their items one after another.
//!
//! `Lists` are lists of one class over a content; `join_lists` and `join_spans` put the items of
//! lists one after another, with offsets. `Bounds` are lists whose starts and stops are read
//! without asking for their kinds, and `span_of` tells where one of them lies; `places_of` is a
//! lane of i64 from lists, and `list_node` the node of lists over their content.
#![tactic(auto)]

mod bounds;
mod joining;
mod lists;
mod moved;
mod nodes;
mod places;
mod spans;

pub use bounds::Bounds;
pub use joining::{OffsetLists, join_lists};
pub use lists::{Joined, Lists, join_spans};
pub use nodes::list_node;
pub use places::places_of;
pub use spans::Span;
