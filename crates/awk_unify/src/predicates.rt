//! Tests of types.
ghost use Rattle.std.specs.Prelude.{◌≡◌, ◌≤◌};
ghost use Rattle.awk_types.specs.SameType.{same_type};
ghost use Rattle.awk_types.specs.Simple.{present as present_of};
ghost use Rattle.awk_types.specs.View.{typ_of};
ghost use Rattle.awk_types.specs.declared.typ.Typ.{size-Typ};

use awk_types::{Typ, same};

pub(crate) fn is_same(a: &Typ, b: &Typ) -> bool
    ensures { result ≡ same_type (typ_of a.now) (typ_of b.now) }
{
    same(a, b)
}

/// The type without its option.
pub(crate) fn present(t: &Typ) -> &Typ
    ensures item { typ_of result.now ≡ present_of (typ_of t.now) }
    ensures within { size-Typ result.now ≤ size-Typ t.now }
{
    match t {
        Typ::Opt(item) => item,
        _ => t,
    }
}
