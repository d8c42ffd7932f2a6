//! Single values: numbers and truth values as arrays of one item.
ghost use Rattle.std.specs.Prelude.{◌≡◌, IfOk};
ghost use Rattle.awk_types.specs.Gives.{Gives};
ghost use Rattle.awk_types.specs.Faults.{fault_told};
ghost use Rattle.awk_heights.specs.Low.{IsLow};
ghost use Rattle.awk_layout.specs.Datum.{IsDatum, datum_of, kept};
ghost use Rattle.awk_eval.specs.Eval as meaning;

use awk_lanes::{Arena, Kind, Num, Steps};
use awk_layout::{Array, Datum};
use awk_types::{Fault, NoMemory};
use std::sync::ledger::Ledger;

/// A whole number as a single int64, if it fits.
pub(crate) fn int64_of<'s, L: Ledger>(
    z: i128,
    arena: &'s Arena,
    steps: &mut Steps<L>,
) -> Result<Datum<'s>, Fault>
    ensures answer { Gives datum_of fault_told result (meaning.int64_of z) }
    ensures datum { IfOk result (λ made. IsDatum made) }
    ensures low { IfOk result (λ made. IsLow (kept made)) }
{
    if z < i128::from(i64::MIN) || z > i128::from(i64::MAX) {
        return Err(Fault::Overflow);
    }
    Ok(Datum::One(Array::only(Kind::I64, Num::Int(z as i64), arena, steps)?))
}

/// A single truth value.
pub(crate) fn bool_of<'s, L: Ledger>(
    b: bool,
    arena: &'s Arena,
    steps: &mut Steps<L>,
) -> Result<Datum<'s>, NoMemory>
    ensures value { IfOk result (λ made. datum_of made ≡ meaning.bool_of b) }
    ensures datum { IfOk result (λ made. IsDatum made) }
    ensures low { IfOk result (λ made. IsLow (kept made)) }
{
    Ok(Datum::One(Array::only(Kind::Bool, Num::Truth(b), arena, steps)?))
}
