//! The kinds of arguments.

/// What an argument of an operation may be.
#[derive(Clone, Copy, Debug, PartialEq, Eq)]
pub enum ArgKind {
    /// An expression.
    Expr,
    /// A list of at least one expression.
    Exprs,
    /// A list of at least one pair of a name and an expression. No name comes twice.
    NamedExprs,
    /// A number that fits i64.
    Place,
    /// A place, or null.
    Bound,
    /// A place other than 0.
    Step,
    /// A number that fits u64.
    Count,
    /// A count other than 0.
    SomeCount,
    /// A truth value.
    Truth,
    /// Any text.
    Text,
    /// A list of texts. No text comes twice.
    Texts,
    /// The name of a leaf type.
    Primitive,
    /// A list of at least two whole numbers, each greater than the one before.
    Edges,
}
