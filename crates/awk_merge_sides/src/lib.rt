//! Columns beside one another, each with what carries its items to one type.
//!
//! `Sides` is a list of such columns, and `Groups` one such list for each part or alternative.
//! `items_lift`, `part_sources`, `part_lift`, `alternative_tag` and `alternative_lift` take a lift
//! apart, one level down.
#![tactic(auto)]

mod carry;
mod groups;
mod sides;
mod sources;

pub use carry::{alternative_lift, alternative_tag, items_lift, part_lift};
pub use groups::Groups;
pub use sides::{Side, Sides};
pub use sources::part_sources;
