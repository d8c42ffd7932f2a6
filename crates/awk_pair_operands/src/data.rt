//! What is made of a pairing, as a datum.
ghost use Rattle.std.specs.Prelude.{◌≡◌, if◌then◌else◌};
ghost use Rattle.awk_layout.specs.declared.datum.Datum.TheVariants.{Arr, One};

use awk_layout::{Array, Datum};

/// An array, or a single value as one.
pub fn datum_from<'a>(single: bool, made: Array<'a>) -> Datum<'a>
    ensures { result ≡ (if single then One made.entry else Arr made.entry) }
{
    if single {
        Datum::One(made)
    } else {
        Datum::Arr(made)
    }
}
