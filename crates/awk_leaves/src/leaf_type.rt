//! What the leaves of an operand are of, and which primitive they take beside others.
ghost use Rattle.std.specs.Prelude.{◌≡◌};
ghost use Rattle.awk_primitives.specs.Promotion.{is_whole};
ghost use Rattle.awk_leaves.specs.LeafTypes as spec;

use awk_primitives::{fits, promote};
use awk_types::Prim;

/// What the leaves of an operand are of.
#[derive(Clone, Copy, Debug, PartialEq, Eq)]
pub enum LeafType {
    /// A primitive.
    Of(Prim),
    /// Unknown.
    Unknown,
    /// A whole number that takes its type from what stands beside it.
    Literal(i128),
}

fn is_whole_prim(prim: Prim) -> bool
    ensures { result ≡ is_whole prim }
{
    !matches!(prim, Prim::Bool)
}

/// The primitive of a literal beside leaves of a primitive.
fn whole_or_i64(prim: Prim) -> Prim
    ensures { result ≡ spec.whole_or_int64 prim }
{
    if is_whole_prim(prim) { prim } else { Prim::I64 }
}

impl LeafType {
    /// The primitive of leaves beside others.
    pub(crate) fn beside(self, other: LeafType) -> Prim
        ensures { result ≡ spec.type_beside self other }
    {
        match (self, other) {
            (LeafType::Of(prim), _) => prim,
            (LeafType::Unknown, LeafType::Of(prim)) => prim,
            (LeafType::Literal(_), LeafType::Of(prim)) => whole_or_i64(prim),
            _ => Prim::I64,
        }
    }

    /// Whether it is a literal that does not fit its type beside others.
    pub(crate) fn overflows(self, other: LeafType) -> bool
        ensures { result ≡ spec.overflows self other }
    {
        match self {
            LeafType::Literal(z) => !fits(self.beside(other), z),
            _ => false,
        }
    }

    pub(crate) fn is_literal(self) -> bool
        ensures { result ≡ spec.is_literal self }
    {
        matches!(self, LeafType::Literal(_))
    }

    /// Truth values, or unknown.
    pub(crate) fn truth_prim(self) -> Option<Prim>
        ensures { result ≡ spec.truth_type self }
    {
        match self {
            LeafType::Of(Prim::Bool) | LeafType::Unknown => Some(Prim::Bool),
            _ => None,
        }
    }

    /// Whole numbers, unknown or a literal.
    pub(crate) fn whole_prim(self) -> Option<Prim>
        ensures { result ≡ spec.whole_type self }
    {
        match self {
            LeafType::Of(Prim::Bool) => None,
            LeafType::Of(prim) => Some(prim),
            _ => Some(Prim::I64),
        }
    }
}

fn are_truths(p: Prim, q: Prim) -> bool
    ensures { result ≡ spec.are_truths p q }
{
    matches!((p, q), (Prim::Bool, Prim::Bool))
}

/// The primitive of a sum, a difference, a product, a quotient or a remainder.
pub(crate) fn number_prim(a: LeafType, b: LeafType) -> Option<Prim>
    ensures { result ≡ spec.number_type a b }
{
    promote(a.beside(b), b.beside(a))
}

/// The primitive of a choice between two.
pub(crate) fn chosen_prim(a: LeafType, b: LeafType) -> Option<Prim>
    ensures { result ≡ spec.choice_type a b }
{
    if are_truths(a.beside(b), b.beside(a)) {
        Some(Prim::Bool)
    } else {
        number_prim(a, b)
    }
}

/// Whether both are whole numbers or both truth values.
fn are_alike(p: Prim, q: Prim) -> bool
    ensures { result ≡ spec.are_alike p q }
{
    if are_truths(p, q) {
        return true;
    }
    if is_whole_prim(p) {
        is_whole_prim(q)
    } else {
        false
    }
}

/// The primitive of a comparison.
pub(crate) fn test_prim(a: LeafType, b: LeafType) -> Option<Prim>
    ensures { result ≡ spec.comparison_type a b }
{
    if are_alike(a.beside(b), b.beside(a)) {
        Some(Prim::Bool)
    } else {
        None
    }
}
