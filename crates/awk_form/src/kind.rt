//! The kinds of an index lane.

/// The kind of the numbers of an index, of starts, stops or offsets.
#[derive(Clone, Copy, Debug, PartialEq, Eq)]
pub enum IndexKind {
    I32,
    U32,
    I64,
}
