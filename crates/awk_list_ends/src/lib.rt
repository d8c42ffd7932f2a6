//! Lists whose items go to other places: the numbers of a lane at the ends of lists; lists that
//! fill a content; and how many items lists have together, and the lists inside lists.
//!
//! Where some items of a content stay and the others go, a lane counts how many stay before each
//! place. Its numbers at the starts and the stops of lists are where these begin and end among the
//! items that stay.
#![tactic(auto)]

mod ends;
mod filling;
mod inside;
mod length;
mod total;

pub use ends::numbers_at_ends;
pub use filling::span_or;
pub use inside::{Inside, items_inside};
pub use length::length_between;
pub use total::{are_few, are_within, even_total, lie_over_one_another};
