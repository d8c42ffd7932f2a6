//! Equality of types.
ghost use Rattle.std.specs.Prelude.{◌≡◌, ◌+◌, ◌<◌, ◌≤◌, ◌↔◌, length, IsTrue};
ghost use Rattle.awk_types.specs.View.{typ_of, field_of, fields_of, typs_of};

use crate::typ::{Field, Fields, Typ, Typs};

/// Whether two types are equal.
#[cycle(same)]
pub fn same(a: &Typ, b: &Typ) -> bool
    ensures { IsTrue result ↔ (typ_of a.now ≡ typ_of b.now) }
{
    match (a, b) {
        (Typ::Unknown, Typ::Unknown) => true,
        (Typ::Leaf(p), Typ::Leaf(q)) => *p == *q,
        (Typ::Var(t), Typ::Var(u)) => same(t, u),
        (Typ::Reg(n, t), Typ::Reg(m, u)) => *n == *m && same(t, u),
        (Typ::Rec(fields), Typ::Rec(others)) => same_fields(fields, others),
        (Typ::Tup(parts), Typ::Tup(others)) => same_typs(parts, others),
        (Typ::Opt(t), Typ::Opt(u)) => same(t, u),
        (Typ::Uni(alternatives), Typ::Uni(others)) => same_typs(alternatives, others),
        _ => false,
    }
}

#[cycle(same)]
fn same_typs(a: &Typs, b: &Typs) -> bool
    ensures { IsTrue result ↔ (typs_of a.now ≡ typs_of b.now) }
{
    if a.items.len() != b.items.len() {
        return false;
    }
    for i in 0..a.items.len() {
        if !same(&a.items[i], &b.items[i]) {
            return false;
        }
    }
    true
}

#[cycle(same)]
fn same_fields(a: &Fields, b: &Fields) -> bool
    ensures { IsTrue result ↔ (fields_of a.now ≡ fields_of b.now) }
{
    if a.items.len() != b.items.len() {
        return false;
    }
    for i in 0..a.items.len() {
        if !same_field(&a.items[i], &b.items[i]) {
            return false;
        }
    }
    true
}

#[cycle(same)]
fn same_field(a: &Field, b: &Field) -> bool
    ensures { IsTrue result ↔ (field_of a.now ≡ field_of b.now) }
{
    a.name.as_str() == b.name.as_str() && same(&a.typ, &b.typ)
}
