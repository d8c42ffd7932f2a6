//! A datum without a field of its records.
ghost use Rattle.std.specs.Prelude.{◌+◌, ◌*◌, ◌≤◌, IfOk};
ghost use Rattle.awk_types.specs.Faults.{fault_told};
ghost use Rattle.awk_types.specs.Gives.{Gives};
ghost use Rattle.awk_layout.specs.Datum.{datum_of, IsDatum, kept};
ghost use Rattle.awk_layout.specs.Layout.{weight, height};
ghost use Rattle.awk_lists.specs.WithoutField.{without_field_of};

use awk_lanes::{Arena, Steps};
use awk_layout::Datum;
use awk_types::Fault;
use awk_view::without;
use std::alloc::Global;
use std::sync::ledger::Ledger;

/// The records without the field of a name, looked for through lists, options and every alternative
/// of unions. The later places of a tuple move up. A single value stays one.
///
/// `NoField` has the name, where something else than a record is met, or a record without it.
/// `Depth` or `Size` comes where the simple type passes a limit. At most 4 steps are taken for each
/// node, and what is given has no more nodes and is no higher.
pub fn without_field<'a, L: Ledger>(
    alloc: Global,
    x: &Datum<'a>,
    name: &str,
    _arena: &'a Arena,
    steps: &mut Steps<L>,
) -> Result<Datum<'a>, Fault>
    requires datum { IsDatum x.now }
    ensures answer { Gives datum_of fault_told result
        (without_field_of name.now (datum_of x.now)) }
    ensures datum { IfOk result (λ made. IsDatum made) }
    ensures cost { steps.new ≤ steps.old + 4 * weight (kept x.now) }
    ensures nodes { IfOk result (λ made. weight (kept made) ≤ weight (kept x.now)) }
    ensures height { IfOk result (λ made. height (kept made) ≤ height (kept x.now)) }
{
    match x {
        Datum::Arr(x) => Ok(Datum::Arr(without(alloc, x, name, steps)?)),
        Datum::One(x) => Ok(Datum::One(without(alloc, x, name, steps)?)),
    }
}
