//! Tuples of the items of lists.
ghost use Rattle.awk_laws.specs.Tuples.{TupleLaws};

/// There are as many combinations as the binomial says, each choice of places once, in order;
/// `argcombinations` picked from the list is `combinations`; `cartesian` of lists has as many
/// tuples as the product of their lengths.
#[tactic(auto, using(crate::proofs::TupleLaws::tuples_law))]
pub fn tuple_laws()
    ensures laws { TupleLaws }
{}
