//! Data for a shorter life, over the same bytes.
ghost use Rattle.std.specs.Prelude.{◌≡◌, ◌+◌, ◌≤◌, IfOk};
ghost use Rattle.awk_eval.specs.Views.{size_of};

use awk_copies::shared_array;
use awk_lanes::Steps;
use awk_layout::Datum;
use awk_types::NoMemory;
use std::alloc::Global;
use std::sync::ledger::Ledger;

/// The same datum. It takes at most a step for each node.
pub(crate) fn shared_datum<'s, 'a: 's, L: Ledger>(
    alloc: Global,
    x: &Datum<'a>,
    steps: &mut Steps<L>,
) -> Result<Datum<'s>, NoMemory>
    ensures same { IfOk result (λ made. made ≡ x.now) }
    ensures cost { steps.new ≤ steps.old + (size_of x.now).width }
{
    match x {
        Datum::Arr(x) => Ok(Datum::Arr(shared_array(alloc, x, steps)?)),
        Datum::One(x) => Ok(Datum::One(shared_array(alloc, x, steps)?)),
    }
}
