//! Lists reduced to one value.
ghost use Rattle.awk_number_laws.specs.Reducers.{ReducerLaws};

/// The sum of lists joined is the sum of their sums; `count` is `num` without the nulls; `min` and
/// `max` are an item that none is less or greater than, and `argmin` and `argmax` its first place.
#[tactic(auto, using(crate::proofs::ReducerLaws::reducers_law))]
pub fn reducer_laws()
    ensures laws { ReducerLaws }
{}
