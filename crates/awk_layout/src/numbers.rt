//! Arrays of numbers that lie side by side.
ghost use Rattle.std.specs.Prelude.{◌≡◌, IfSome};
ghost use Rattle.awk_lanes.specs.declared.kind.Kind.TheVariants as Kinds;
ghost use Rattle.awk_layout.specs.Layout.{flat};

use crate::array::Array;
use crate::node::class::Class;
use awk_index::{Index, laid_index};
use awk_lanes::{Kind, Steps};
use std::sync::ledger::Ledger;

/// The numbers of an array of numbers of 64 bits with a sign, where it is one lane of
/// them that lies in bytes.
pub fn wide_numbers<'a, L: Ledger>(x: &Array<'a>, steps: &mut Steps<L>) -> Option<Index<'a>>
    ensures kind { IfSome result (λ c. c.kind ≡ Kinds.I64) }
    ensures numbers { IfSome result (λ c. x.now ≡ flat c) }
{
    match x.node().class() {
        Class::Numpy { lane } if lane.kind() == Kind::I64 => laid_index(lane, steps),
        _ => None,
    }
}
