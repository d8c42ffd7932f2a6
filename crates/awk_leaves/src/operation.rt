//! Operations on one or two leaves.
use awk_kernels::{Arith, Compare};
use awk_types::Prim;

/// An operation on two truth values.
#[derive(Clone, Copy, Debug, PartialEq, Eq)]
pub enum Logic {
    And,
    Or,
    Xor,
}

/// An operation on two leaves.
#[derive(Clone, Copy, Debug, PartialEq, Eq)]
pub enum Binary {
    /// A number of two whole numbers.
    Calculate(Arith),
    /// A truth value of two whole numbers, or of two truth values.
    Test(Compare),
    /// A truth value of two truth values.
    Join(Logic),
}

/// An operation on one leaf.
#[derive(Clone, Copy, Debug, PartialEq, Eq)]
pub enum Unary {
    /// The other truth value.
    Not,
    /// A whole number with the other sign.
    Negate,
    /// A whole number without its sign.
    Absolute,
    /// The same number in a primitive, where it fits. A truth value is 0 or 1 as a number, and a
    /// number is true where it is not 0.
    Cast(Prim),
}
