//! The rows of an operand as lists.

use awk_lanes::Lane;
use awk_layout::Array;

/// The rows of one operand as lists: list i has so many items of the content from its first place
/// on. Where rows may be null, an index tells which are, and those have no items.
#[derive(Drop)]
pub(crate) struct Source<'a> {
    pub(crate) index: Option<Lane<'a>>,
    pub(crate) first: Lane<'a>,
    pub(crate) length: Lane<'a>,
    pub(crate) content: Array<'a>,
}
