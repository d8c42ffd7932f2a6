//! Lists whose items lie one after another.
use awk_lanes::Lane;
use awk_layout::Array;

/// The items of lists one after another, with their offsets, and how many lists there are.
#[derive(Drop)]
pub(crate) struct ItemLists<'b, 'a> {
    pub items: &'b Array<'a>,
    pub offsets: &'b Lane<'a>,
    pub count: u64,
}
