//! The operations on two numbers, and what breaks one.

/// Arithmetic on whole numbers. A quotient is rounded towards minus infinity, and a remainder has
/// the divisor's sign.
#[derive(Clone, Copy, Debug, PartialEq, Eq)]
pub enum Arith {
    Add,
    Sub,
    Mul,
    FloorDiv,
    Rem,
}

/// A comparison of two numbers.
#[derive(Clone, Copy, Debug, PartialEq, Eq)]
pub enum Compare {
    Eq,
    Ne,
    Lt,
    Le,
    Gt,
    Ge,
}

/// Why a place has no result: the exact number is out of the bounds, or the divisor is 0.
#[derive(Clone, Copy, Debug, PartialEq, Eq)]
pub enum Why {
    Overflow,
    Zero,
}

/// The first place that has no result.
#[derive(Clone, Copy, Debug, PartialEq, Eq)]
pub struct Broken {
    pub place: usize,
    pub why: Why,
}
