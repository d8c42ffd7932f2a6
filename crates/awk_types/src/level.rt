//! How many lists lie down to the leaves of a type.
ghost use Rattle.std.specs.Prelude.{◌≡◌, ◌<◌, ◌≤◌, ◌^◌, None, IfSome};
ghost use Rattle.awk_types.specs.DataType.{greatest, depth, depths, types_from};
ghost use Rattle.awk_types.specs.Levels.{common_number, levels as levels_of, levels_each};
ghost use Rattle.awk_types.specs.Levels.{turned_axis as axis_of};
ghost use Rattle.awk_types.specs.Limit.{limit};
ghost use Rattle.awk_types.specs.View.{types_of, typ_of, field_of, fields_of, typs_of};

use crate::typ::{Field, Fields, Typ, Typs};

/// The levels of a type that is not too deep.
#[cycle(levels)]
fn levels_within(t: &Typ) -> Option<u64>
    requires { depth (typ_of t.now) ≤ 60 }
    ensures levels { result ≡ levels_of (typ_of t.now) }
    ensures fewer { IfSome result (λ n. n < depth (typ_of t.now)) }
{
    match t {
        Typ::Unknown => Some(0),
        Typ::Leaf(_) => Some(0),
        Typ::Var(item) => Some(levels_within(item)? + 1),
        Typ::Reg(_, item) => Some(levels_within(item)? + 1),
        Typ::Rec(fields) => levels_of_fields(fields),
        Typ::Tup(parts) => levels_of_typs(parts),
        Typ::Opt(item) => levels_within(item),
        Typ::Uni(alternatives) => levels_of_typs(alternatives),
    }
}

#[cycle(levels)]
fn levels_of_typs(ts: &Typs) -> Option<u64>
    requires { greatest (depths (types_from (typs_of ts.now))) < 60 }
    ensures levels { result ≡ common_number (levels_each (types_from (typs_of ts.now))) }
    ensures fewer { IfSome result (λ n. n ≤ greatest (depths (types_from (typs_of ts.now)))) }
{
    if ts.items.is_empty() {
        return None;
    }
    let first = levels_within(&ts.items[0])?;
    for i in 1..ts.items.len() {
        if levels_within(&ts.items[i]) != Some(first) {
            return None;
        }
    }
    Some(first)
}

#[cycle(levels)]
#[tactic(auto, using(crate::proofs::Views::fields_first))]
fn levels_of_fields(fields: &Fields) -> Option<u64>
    requires { greatest (depths (types_of (fields_of fields.now))) < 60 }
    ensures levels { result ≡ common_number (levels_each (types_of (fields_of fields.now))) }
    ensures fewer { IfSome result (λ n. n ≤ greatest (depths (types_of (fields_of fields.now)))) }
{
    if fields.items.is_empty() {
        return None;
    }
    let first = levels_of_field(&fields.items[0])?;
    for i in 1..fields.items.len() {
        if levels_of_field(&fields.items[i]) != Some(first) {
            return None;
        }
    }
    Some(first)
}

#[cycle(levels)]
fn levels_of_field(field: &Field) -> Option<u64>
    requires { depth (field_of field.now).typ ≤ 60 }
    ensures levels { result ≡ levels_of (field_of field.now).typ }
    ensures fewer { IfSome result (λ n. n < depth (field_of field.now).typ) }
{
    levels_within(&field.typ)
}

/// How many lists lie down to the leaves, where all branches are equally deep. No memory is taken.
pub fn levels(t: &Typ) -> Option<u64>
    requires { limit (typ_of t.now) ≡ None }
    ensures levels { result ≡ levels_of (typ_of t.now) }
    ensures fewer { IfSome result (λ n. n < 60) }
{
    levels_within(t)
}

/// The axis that an axis stands for where so many lists lie down to the leaves: a negative one
/// counts from the innermost lists. What stays negative is no axis.
pub fn turned_axis(levels: Option<u64>, axis: i64) -> i64
    requires { IfSome levels (λ n. n < 2 ^ 63) }
    ensures { result ≡ axis_of levels axis }
{
    match levels {
        Some(n) if axis < 0 => n as i64 + axis,
        _ => axis,
    }
}
