//! A unit that was taken.

/// A line, and the raw bytes behind it.
#[derive(Drop)]
pub struct UnitBytes {
    pub line: Vec<u8>,
    pub raw: Vec<u8>,
}
