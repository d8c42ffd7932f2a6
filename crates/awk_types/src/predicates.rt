//! Tests of types.
ghost use Rattle.std.specs.Prelude.{◌≡◌};
ghost use Rattle.awk_types.specs.Predicates as test;
ghost use Rattle.awk_types.specs.Simple.{is_option, is_union as is_uni, present};
ghost use Rattle.awk_types.specs.View.{typ_of};

use crate::typ::Typ;

/// Whether a type is optional.
pub fn is_optional(t: &Typ) -> bool
    ensures { result ≡ is_option (typ_of t.now) }
{
    matches!(t, Typ::Opt(_))
}

/// Whether a type is of lists.
pub fn is_list(t: &Typ) -> bool
    ensures { result ≡ test.is_list (typ_of t.now) }
{
    matches!(t, Typ::Var(_) | Typ::Reg(_, _))
}

/// Whether a type is a union.
pub fn is_union(t: &Typ) -> bool
    ensures { result ≡ is_uni (typ_of t.now) }
{
    matches!(t, Typ::Uni(_))
}

/// Whether a type is of lists that are all of one length.
pub fn is_sized(t: &Typ) -> bool
    ensures { result ≡ test.is_sized (typ_of t.now) }
{
    matches!(t, Typ::Reg(_, _))
}

/// Whether a type is of lists, or of no values.
pub fn is_list_or_unknown(t: &Typ) -> bool
    ensures { result ≡ test.is_list_or_unknown (typ_of t.now) }
{
    matches!(t, Typ::Unknown | Typ::Var(_) | Typ::Reg(_, _))
}

/// Whether a type is the one without values.
pub fn is_unknown(t: &Typ) -> bool
    ensures { result ≡ test.is_unknown (typ_of t.now) }
{
    matches!(t, Typ::Unknown)
}

/// Whether values of a type are leaves, or would be if there were any.
pub fn is_leaf(t: &Typ) -> bool
    ensures { result ≡ test.is_leaf (typ_of t.now) }
{
    matches!(t, Typ::Unknown | Typ::Leaf(_))
}

/// Whether values of a type are leaves, optional or not, or would be if there were any.
pub fn are_leaves(t: &Typ) -> bool
    ensures { result ≡ test.is_leaf (present (typ_of t.now)) }
{
    match t {
        Typ::Opt(inner) => is_leaf(inner),
        _ => is_leaf(t),
    }
}
