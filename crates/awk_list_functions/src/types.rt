//! The type part of applying a function of one list at an axis.
ghost use Rattle.std.specs.Prelude.{◌≡◌, map, IfOk};
ghost use Rattle.awk_types.specs.DataType.{types_from};
ghost use Rattle.awk_types.specs.View.{typ_of, typs_of, fields_of, names_of, types_of};
ghost use Rattle.awk_list_functions.specs.Lift as spec;

use crate::causes::{Refusal, sooner_refusal};
use crate::function::{ListOp, given_typ};
use crate::place::Reach;
use awk_types::{Field, Fields, NoMemory, Typ, Typs};
use std::alloc::Global;

/// Why a type is refused, axis 0 being the lists directly inside.
#[cycle(refusal)]
#[tactic(auto, using(crate::proofs::Walks::walks))]
pub fn refusal_at<F: ListOp>(f: &F, k: Reach, t: &Typ) -> Option<Refusal>
    ensures { result ≡ spec.refusal_at (F.function f.now) k (typ_of t.now) }
{
    match t {
        Typ::Unknown => match k {
            Reach::Axis(_) => f.refusal(t),
            Reach::Innermost => Some(Refusal::Axis),
        },
        Typ::Leaf(_) => Some(Refusal::Axis),
        Typ::Var(item) | Typ::Reg(_, item) => {
            if k.is_here(item) {
                f.refusal(item)
            } else {
                refusal_at(f, k.inner(), item)
            }
        }
        Typ::Rec(_) | Typ::Tup(_) | Typ::Uni(_) if !k.passes_rows() => Some(Refusal::WrongType),
        Typ::Rec(fields) => refusal_of_fields(f, k, fields),
        Typ::Tup(parts) => refusal_of_all(f, k, parts),
        Typ::Opt(item) => refusal_at(f, k, item),
        Typ::Uni(alternatives) => refusal_of_all(f, k, alternatives),
    }
}

#[cycle(refusal)]
#[tactic(auto, using(crate::proofs::Walks::walks))]
fn refusal_of_all<F: ListOp>(f: &F, k: Reach, ts: &Typs) -> Option<Refusal>
    ensures { result ≡ spec.refusal_among (F.function f.now) k (types_from (typs_of ts.now)) }
{
    let mut first = None;
    for i in 0..ts.len() {
        first = sooner_refusal(first, refusal_at(f, k, ts.get(i)));
    }
    first
}

#[cycle(refusal)]
#[tactic(auto, using(crate::proofs::Walks::walks))]
fn refusal_of_fields<F: ListOp>(f: &F, k: Reach, fields: &Fields) -> Option<Refusal>
    ensures { result ≡ spec.refusal_among (F.function f.now) k (types_of (fields_of fields.now)) }
{
    let mut first = None;
    for i in 0..fields.len() {
        first = sooner_refusal(first, refusal_at(f, k, &fields.get(i).typ));
    }
    first
}

/// More lists than any type may have around it.
pub const MOST_LISTS: u64 = 61;

/// A type in k lists of any length.
fn nested(alloc: Global, k: u64, t: Typ) -> Result<Typ, NoMemory>
    ensures { IfOk result (λ u. typ_of u ≡ spec.nested k (typ_of t)) }
{
    let mut made = t;
    for i in 0..k {
        made = Typ::Var(Box::new(alloc, made)?);
    }
    Ok(made)
}

/// The type that is given, axis 0 being the lists directly inside.
#[cycle(lifted)]
#[tactic(auto, using(crate::proofs::Walks::walks))]
pub fn lifted_type<F: ListOp>(alloc: Global, f: &F, k: Reach, t: &Typ) -> Result<Typ, NoMemory>
    ensures { let giving = (F.function f.now).giving in
        IfOk result (λ u. typ_of u ≡ spec.lifted_type giving k (typ_of t.now)) }
{
    match t {
        Typ::Unknown => match k {
            Reach::Axis(k) => nested(alloc, k.min(MOST_LISTS), given_typ(alloc, f, None, t)?),
            Reach::Innermost => Ok(Typ::Unknown),
        },
        Typ::Leaf(prim) => Ok(Typ::Leaf(*prim)),
        Typ::Var(item) => {
            if k.is_here(item) {
                given_typ(alloc, f, None, item)
            } else {
                Ok(Typ::Var(Box::new(alloc, lifted_type(alloc, f, k.inner(), item)?)?))
            }
        }
        Typ::Reg(n, item) => {
            if k.is_here(item) {
                given_typ(alloc, f, Some(*n), item)
            } else {
                Ok(Typ::Reg(
                    *n,
                    Box::new(alloc, lifted_type(alloc, f, k.inner(), item)?)?,
                ))
            }
        }
        Typ::Rec(fields) => Ok(Typ::Rec(lifted_fields(alloc, f, k, fields)?)),
        Typ::Tup(parts) => Ok(Typ::Tup(lifted_types(alloc, f, k, parts)?)),
        Typ::Opt(item) => Ok(Typ::Opt(Box::new(alloc, lifted_type(alloc, f, k, item)?)?)),
        Typ::Uni(alternatives) => Ok(Typ::Uni(lifted_types(alloc, f, k, alternatives)?)),
    }
}

#[cycle(lifted)]
#[tactic(auto, using(crate::proofs::Walks::walks))]
fn lifted_types<F: ListOp>(alloc: Global, f: &F, k: Reach, ts: &Typs) -> Result<Typs, NoMemory>
    ensures { let giving = (F.function f.now).giving in
        let types = types_from (typs_of ts.now) in
        IfOk result (λ us. typs_of us ≡ spec.lifted_types giving k types) }
{
    let mut made = Typs::new(alloc);
    for i in 0..ts.len() {
        made.push(lifted_type(alloc, f, k, ts.get(i))?)?;
    }
    Ok(made)
}

#[cycle(lifted)]
#[tactic(auto, using(crate::proofs::Walks::walks))]
fn lifted_fields<F: ListOp>(
    alloc: Global,
    f: &F,
    k: Reach,
    fields: &Fields,
) -> Result<Fields, NoMemory>
    ensures names { IfOk result (λ us. names_of (fields_of us) ≡ names_of (fields_of fields.now)) }
    ensures types { let giving = (F.function f.now).giving in
        let types = types_of (fields_of fields.now) in
        IfOk result (λ us. map (λ f. f.typ) (fields_of us) ≡ spec.lifted_types giving k types) }
{
    let mut made = Fields::new(alloc);
    for i in 0..fields.len() {
        let name = fields.get(i).name.copy(alloc)?;
        let typ = lifted_type(alloc, f, k, &fields.get(i).typ)?;
        made.push(Field { name, typ })?;
    }
    Ok(made)
}
