//! Which types are sorted.
ghost use Rattle.std.specs.Prelude.{◌≡◌};
ghost use Rattle.awk_types.specs.Predicates as predicates;
ghost use Rattle.awk_types.specs.Simple.{present};
ghost use Rattle.awk_types.specs.View.{typ_of};

use awk_types::{Typ, is_unknown};

/// Whether items of a type are null, or there are none.
pub(crate) fn are_unknown(t: &Typ) -> bool
    ensures { result ≡ predicates.is_unknown (present (typ_of t.now)) }
{
    match t {
        Typ::Opt(inner) => is_unknown(inner),
        _ => is_unknown(t),
    }
}
