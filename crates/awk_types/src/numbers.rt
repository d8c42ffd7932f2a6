//! Types of whole numbers.
ghost use Rattle.std.specs.Prelude.{◌≡◌};
ghost use Rattle.awk_types.specs.View.{typ_of};
ghost use Rattle.awk_types.specs.WholeNumbers.{is_numbers as whole_or_unknown};

use crate::primitive::Primitive;
use crate::typ::Typ;

/// Whether items of a type are whole numbers or unknown.
pub fn is_numbers(t: &Typ) -> bool
    ensures { result ≡ whole_or_unknown (typ_of t.now) }
{
    match t {
        Typ::Unknown => true,
        Typ::Leaf(Primitive::Bool) => false,
        Typ::Leaf(_) => true,
        _ => false,
    }
}
