//! Lists in order.
ghost use Rattle.awk_number_laws.specs.Orders.{OrderLaws};

/// `sort` gives the same items in order, nulls last; a pick by `argsort` is `sort`; sorting twice
/// is sorting once.
#[tactic(auto, using(crate::proofs::OrdersLaw::orders_law))]
pub fn order_laws()
    ensures laws { OrderLaws }
{}
