//! The operations of expressions.

use awk_kernels::{Arith, Compare};

/// An operation, by the shape of what it takes. Its name and its arguments stand in the table of
/// operations; `Choose` is `where`.
#[derive(Clone, Copy, Debug)]
pub enum Op {
    /// A datum and a place.
    Place(PlaceOp),
    /// A datum, two bounds, and perhaps a step.
    Range,
    /// A datum and the name of a field.
    Field,
    /// A datum and names of fields.
    Fields,
    /// A datum and the name of a field.
    WithoutField,
    /// Two data.
    Pair(PairOp),
    /// A datum at an axis.
    Axis(AxisOp),
    /// A datum.
    RunLengths,
    /// A depth, and named data.
    Zip,
    /// A depth, and data.
    Tuple,
    /// A datum, the name of a field, and a datum.
    WithField,
    /// A datum, what fills its nulls, and an axis.
    FillNone,
    /// A datum, a number of items, an axis, and whether lists are cut.
    PadNone,
    /// A datum, a mask, and which of its truth values keep items.
    PutMask,
    /// An axis, and data.
    Concatenate,
    /// Two operands, which may be literals.
    Calculate(Arith),
    /// Two operands, which may be literals.
    Test(Compare),
    /// Two data.
    Join(LogicOp),
    /// A datum.
    Single(SingleOp),
    /// A condition, and two operands, which may be literals.
    Choose,
    /// A datum and the name of a leaf type.
    Cast,
    /// A datum.
    Reduce(ReduceOp),
    /// An axis, and data.
    Cartesian(Target),
    /// A number of places, whether they may repeat, an axis, and a datum.
    Combinations(Target),
    /// A datum, and whether the order goes up.
    Sort(Target),
    /// A datum and edges.
    Hist(Extent),
}

/// Operations at a place.
#[derive(Clone, Copy, Debug)]
pub enum PlaceOp {
    At,
    AtEach,
}

/// Operations on two data.
#[derive(Clone, Copy, Debug)]
pub enum PairOp {
    Pick,
    Unflatten,
}

/// Operations at an axis.
#[derive(Clone, Copy, Debug)]
pub enum AxisOp {
    Num,
    Flatten,
    LocalIndex,
    IsNone,
    DropNone,
    Firsts,
    Singletons,
}

/// Operations on two truth values.
#[derive(Clone, Copy, Debug)]
pub enum LogicOp {
    And,
    Or,
    Xor,
}

/// Operations on one leaf.
#[derive(Clone, Copy, Debug)]
pub enum SingleOp {
    Not,
    Neg,
    Abs,
}

/// What innermost lists are reduced by.
#[derive(Clone, Copy, Debug)]
pub enum ReduceOp {
    Sum,
    Prod,
    Min,
    Max,
    Argmin,
    Argmax,
    Any,
    All,
    Count,
    CountNonzero,
}

/// What an operation that moves items gives: the items, or their places.
#[derive(Clone, Copy, Debug)]
pub enum Target {
    Items,
    Places,
}

/// What a histogram counts: all leaves, or those of each innermost list.
#[derive(Clone, Copy, Debug)]
pub enum Extent {
    Whole,
    Each,
}
