//! Operations on leaves.
ghost use Rattle.awk_number_laws.specs.Leaves.{LeafLaws};

/// A choice between x and x is x; `not` turns a comparison into its opposite; quotient and
/// remainder give the dividend back, and `neg` of `neg` the number; sums and products are the same
/// of operands that change places.
#[tactic(auto, using(crate::proofs::LeavesLaw::leaves_law))]
pub fn leaf_laws()
    ensures laws { LeafLaws }
{}
