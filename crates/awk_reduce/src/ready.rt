//! Lists of leaves with the numbers of their items.
use awk_columns::Lists;
use awk_lanes::Lane;
use awk_parts::Spans;

/// Lists of leaves none of which is null, and the numbers of their items.
#[derive(Drop)]
pub(crate) struct ReadyLists<'b, 'a> {
    pub lists: &'b Lists<'a>,
    /// The numbers, and which are each list's.
    pub lane: &'b Lane<'a>,
    pub spans: &'b Spans<'a>,
}
