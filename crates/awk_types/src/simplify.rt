//! Types, their options and their unions, simplified.
ghost use Rattle.std.specs.Prelude.{◌≡◌, ◌<◌, ◌++◌, length, map, IfOk, OnOk};
ghost use Rattle.std.specs.List.{list_any, flat_map};
ghost use Rattle.awk_types.specs.DataType.{opt, uni, types_from};
ghost use Rattle.awk_types.specs.Gives.{Gives};
ghost use Rattle.awk_types.specs.Limit.{limit, limit_told, within};
ghost use Rattle.awk_types.specs.Simple.{is_option, present_alternatives, option_of, union_of};
ghost use Rattle.awk_types.specs.Simple.{simple, simples};
ghost use Rattle.awk_types.specs.Simplifies.{Simplifies};
ghost use Rattle.awk_types.specs.View.{names_of, types_of, typ_of, fields_of, typs_of};

use crate::limit::TypeFault;
use crate::measure::{depth, nodes, width};
use crate::name::NoMemory;
use crate::typ::{Field, Fields, Typ, Typs};
use std::alloc::Global;

/// The type, if it passes no limit.
fn checked(t: Typ) -> Result<Typ, TypeFault>
    ensures gives { Gives typ_of limit_told result (within (typ_of t)) }
    ensures same { IfOk result (λ s. typ_of s ≡ typ_of t) }
    ensures within_limits { IfOk result (λ s. limit (typ_of s) ≡ None) }
{
    if depth(&t) > 60 {
        return Err(TypeFault::Depth);
    }
    if nodes(&t) > 65536 || width(&t) > 127 {
        return Err(TypeFault::Size);
    }
    Ok(t)
}

/// The option of a simple type.
fn optional(alloc: Global, t: Typ) -> Result<Typ, NoMemory>
    ensures { IfOk result (λ s. typ_of s ≡ option_of (typ_of t)) }
{
    match t {
        Typ::Opt(item) => Ok(Typ::Opt(item)),
        _ => Ok(Typ::Opt(Box::new(alloc, t)?)),
    }
}

/// The type simplified.
#[cycle(simple)]
fn simplified(alloc: Global, t: Typ) -> Result<Typ, NoMemory>
    ensures { IfOk result (λ s. typ_of s ≡ simple (typ_of t)) }
{
    match t {
        Typ::Unknown => Ok(Typ::Unknown),
        Typ::Leaf(p) => Ok(Typ::Leaf(p)),
        Typ::Var(item) => {
            let simple_item = simplified(alloc, Box::into_inner(item))?;
            Ok(Typ::Var(Box::new(alloc, simple_item)?))
        },
        Typ::Reg(n, item) => {
            let simple_item = simplified(alloc, Box::into_inner(item))?;
            Ok(Typ::Reg(n, Box::new(alloc, simple_item)?))
        },
        Typ::Rec(fields) => Ok(Typ::Rec(simplified_fields(alloc, fields)?)),
        Typ::Tup(parts) => Ok(Typ::Tup(simplified_all(alloc, parts)?)),
        Typ::Opt(item) => optional(alloc, simplified(alloc, Box::into_inner(item))?),
        Typ::Uni(alternatives) => union(alloc, alternatives),
    }
}

#[cycle(simple)]
fn simplified_all(alloc: Global, ts: Typs) -> Result<Typs, NoMemory>
    ensures { IfOk result (λ s. typs_of s ≡ simples (types_from (typs_of ts))) }
{
    let mut made = Typs::new(alloc);
    for t in ts.items {
        made.push(simplified(alloc, t)?)?;
    }
    Ok(made)
}

#[cycle(simple)]
fn simplified_fields(alloc: Global, fields: Fields) -> Result<Fields, NoMemory>
    ensures names { IfOk result (λ s. names_of (fields_of s) ≡ names_of (fields_of fields)) }
    ensures types { let given = simples (types_of (fields_of fields)) in
        IfOk result (λ s. map (λ f. f.typ) (fields_of s) ≡ given) }
{
    let mut made = Fields::new(alloc);
    for field in fields.items {
        let Field { name, typ } = field;
        let typ = simplified(alloc, typ)?;
        made.push(Field { name, typ })?;
    }
    Ok(made)
}

/// The union of types, simplified.
#[cycle(simple)]
fn union(alloc: Global, ts: Typs) -> Result<Typ, NoMemory>
    ensures { IfOk result (λ s. typ_of s ≡ union_of (simples (types_from (typs_of ts)))) }
{
    let mut made = Typs::new(alloc);
    let is_optional = splice_all(alloc, ts, &mut made)?;
    if is_optional {
        Ok(Typ::Opt(Box::new(alloc, Typ::Uni(made))?))
    } else {
        Ok(Typ::Uni(made))
    }
}

/// Puts what types give to a union at its end, and tells whether one of them was optional.
#[cycle(simple)]
fn splice_all(alloc: Global, ts: Typs, made: &mut Typs) -> Result<bool, NoMemory>
    ensures optional { let simple_ones = simples (types_from (typs_of ts)) in
        IfOk result (λ b. b ≡ list_any is_option simple_ones) }
    ensures spliced { let given =
        flat_map present_alternatives (simples (types_from (typs_of ts))) in
        OnOk result (typs_of made.new ≡ typs_of made.old ++ given) }
{
    let mut is_optional = false;
    for t in ts.items {
        let loses_option = splice(alloc, t, made)?;
        is_optional = is_optional || loses_option;
    }
    Ok(is_optional)
}

/// Puts what a type gives to a union at its end, and tells whether it was optional.
#[cycle(simple)]
fn splice(alloc: Global, t: Typ, made: &mut Typs) -> Result<bool, NoMemory>
    ensures optional { IfOk result (λ b. b ≡ is_option (simple (typ_of t))) }
    ensures spliced { let given = present_alternatives (simple (typ_of t)) in
        OnOk result (typs_of made.new ≡ typs_of made.old ++ given) }
{
    match t {
        Typ::Opt(item) => {
            splice(alloc, Box::into_inner(item), made)?;
            Ok(true)
        },
        Typ::Uni(alternatives) => splice_all(alloc, alternatives, made),
        _ => {
            made.push(simplified(alloc, t)?)?;
            Ok(false)
        },
    }
}

/// The type, simplified. It is consumed, on a refusal too.
pub fn simple_of(alloc: Global, t: Typ) -> Result<Typ, TypeFault>
    ensures gives { Gives typ_of limit_told result (within (simple (typ_of t))) }
    ensures within_limits { IfOk result (λ s. limit (typ_of s) ≡ None) }
    ensures laws { IfOk result (λ s. Simplifies (typ_of t) (typ_of s)) }
{
    checked(simplified(alloc, t)?)
}

/// The option of a type, simplified. The type is consumed, on a refusal too.
pub fn opt_of(alloc: Global, t: Typ) -> Result<Typ, TypeFault>
    ensures gives { Gives typ_of limit_told result (within (simple (opt (typ_of t)))) }
    ensures within_limits { IfOk result (λ s. limit (typ_of s) ≡ None) }
    ensures laws { IfOk result (λ s. Simplifies (opt (typ_of t)) (typ_of s)) }
{
    let item = simplified(alloc, t)?;
    checked(optional(alloc, item)?)
}

/// The union of types, simplified. The types are consumed, on a refusal too.
pub fn uni_of(alloc: Global, ts: Typs) -> Result<Typ, TypeFault>
    requires { 0 < length (typs_of ts) }
    ensures gives { let whole = uni (types_from (typs_of ts)) in
        Gives typ_of limit_told result (within (simple whole)) }
    ensures within_limits { IfOk result (λ s. limit (typ_of s) ≡ None) }
    ensures laws { IfOk result (λ s. Simplifies (uni (types_from (typs_of ts))) (typ_of s)) }
{
    checked(union(alloc, ts)?)
}
