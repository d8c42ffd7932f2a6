//! Lists whose items lie one after another.
use awk_lanes::Lane;
use awk_layout::Array;

/// The items of lists one after another, with their offsets, and how many lists there are.
#[derive(Drop)]
pub(crate) struct ItemLists<'b, 'a> {
    pub(crate) items: &'b Array<'a>,
    pub(crate) offsets: &'b Lane<'a>,
    pub(crate) count: u64,
}
