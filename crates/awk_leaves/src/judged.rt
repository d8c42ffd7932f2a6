//! What the types and the literals of an operation have wrong, or the primitive of its result.
ghost use Rattle.std.specs.Prelude.{◌≡◌};
ghost use Rattle.awk_leaves.specs.Table as spec;

use crate::leaf_type::{LeafType, chosen_prim, number_prim, test_prim};
use crate::operation::{Binary, Unary};
use awk_types::{Fault, Prim};

/// The primitive, unless there is none or a literal does not fit.
fn judged(prim: Option<Prim>, overflows: bool) -> Result<Prim, Fault>
    ensures { result ≡ spec.judged prim overflows }
{
    let Some(prim) = prim else {
        return Err(Fault::WrongType);
    };
    if overflows {
        return Err(Fault::Overflow);
    }
    Ok(prim)
}

/// Whether one of the two is a literal that does not fit beside the other.
fn one_overflows(a: LeafType, b: LeafType) -> bool
    ensures { result ≡ spec.one_overflows a b }
{
    if a.overflows(b) {
        return true;
    }
    b.overflows(a)
}

/// Truth values on both sides.
fn joined_prim(a: LeafType, b: LeafType) -> Option<Prim>
    ensures { result ≡ spec.joined_type a b }
{
    match a.truth_prim() {
        Some(_) => b.truth_prim(),
        None => None,
    }
}

fn binary_type(op: Binary, a: LeafType, b: LeafType) -> Option<Prim>
    ensures { result ≡ spec.binary_type op a b }
{
    match op {
        Binary::Calculate(_) => number_prim(a, b),
        Binary::Test(_) => test_prim(a, b),
        Binary::Join(_) => joined_prim(a, b),
    }
}

/// Whether both are literals and one does not fit int64.
fn both_overflow(a: LeafType, b: LeafType) -> bool
    ensures { result ≡ spec.literals_overflow a b }
{
    if a.is_literal() && b.is_literal() {
        return one_overflows(a, b);
    }
    false
}

/// Whether a literal does not fit its type. One that is compared need not.
fn literal_overflows(op: Binary, a: LeafType, b: LeafType) -> bool
    ensures { result ≡ spec.literal_overflows op a b }
{
    match op {
        Binary::Calculate(_) => one_overflows(a, b),
        Binary::Test(_) => both_overflow(a, b),
        Binary::Join(_) => false,
    }
}

/// The primitive of an operation on two leaves.
pub fn binary_prim(op: Binary, a: LeafType, b: LeafType) -> Result<Prim, Fault>
    ensures { result ≡ spec.binary_judged op a b }
{
    judged(binary_type(op, a, b), literal_overflows(op, a, b))
}

fn unary_type(op: Unary, a: LeafType) -> Option<Prim>
    ensures { result ≡ spec.unary_type op a }
{
    match op {
        Unary::Not => a.truth_prim(),
        Unary::Negate | Unary::Absolute => a.whole_prim(),
        Unary::Cast(to) => Some(to),
    }
}

/// The primitive of an operation on one leaf.
pub fn unary_prim(op: Unary, a: LeafType) -> Result<Prim, Fault>
    ensures { result ≡ spec.unary_judged op a }
{
    judged(unary_type(op, a), a.overflows(LeafType::Unknown))
}

/// The primitive of a choice, whose condition is of truth values.
pub fn choice_prim(condition: LeafType, a: LeafType, b: LeafType) -> Result<Prim, Fault>
    ensures { result ≡ spec.choice_judged condition a b }
{
    match condition.truth_prim() {
        Some(_) => judged(chosen_prim(a, b), one_overflows(a, b)),
        None => Err(Fault::WrongType),
    }
}
