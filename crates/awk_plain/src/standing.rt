//! The type of a list, where all in the list is of it as it stands.
ghost use Rattle.std.specs.Prelude.{◌≡◌, ◌≤◌, drop, length, true, IfOk, IfSome, None};
ghost use Rattle.awk_types.specs.DataType.{unknown};
ghost use Rattle.awk_types.specs.Limit.{limit};
ghost use Rattle.awk_types.specs.Simple.{IsSimple};
ghost use Rattle.awk_types.specs.View.{typ_of};
ghost use Rattle.serde_json.specs.Data.{array};
ghost use Rattle.serde_json.specs.View.{view, items_view};
ghost use Rattle.awk_plain.specs.IsPlain.{ArePlain, IsPlain};
ghost use Rattle.awk_plain.specs.Plain.{items_type, one_more, plain_type};
ghost use Rattle.awk_plain.specs.Standing.{Stands};
ghost use Rattle.awk_plain.specs.Suits as spec;

use crate::suits::suits;
use crate::types::{judged_type, type_of};
use awk_types::{NoMemory, Typ, TypeFault};
use awk_unify::unify;
use serde_json::Value;
use std::alloc::{AllocError, Global};

/// The type that a type and that of a value unify to.
fn type_with(alloc: Global, typ: &Typ, value: &Value) -> Result<Typ, TypeFault>
    requires { IsSimple (typ_of typ.now) }
    ensures { IfOk result (λ t. typ_of t
        ≡ one_more (typ_of typ.now) (plain_type (view value.now))) }
{
    let one = type_of(alloc, value)?;
    let unified = unify(alloc, typ, &one)?;
    Ok(unified.typ)
}

/// The type that a type and that of a value unify to, if it is within the limits and the value is
/// of it as it stands.
fn joined_type(alloc: Global, typ: &Typ, value: &Value) -> Result<Option<Typ>, NoMemory>
    requires { IsSimple (typ_of typ.now) }
    ensures typ { IfOk result (λ o. IfSome o (λ t. typ_of t
        ≡ one_more (typ_of typ.now) (plain_type (view value.now)))) }
    ensures plain { IfOk result (λ o. IfSome o (λ t. IsPlain (view value.now))) }
    ensures suited { IfOk result (λ o. IfSome o (λ t.
        spec.suits (typ_of t) (view value.now) ≡ true)) }
{
    match type_with(alloc, typ, value) {
        Ok(joined) => {
            if suits(&joined, value) {
                return Ok(Some(joined));
            }
            Ok(None)
        }
        Err(TypeFault::NoMemory) => Err(AllocError),
        Err(TypeFault::Depth) | Err(TypeFault::Size) => Ok(None),
    }
}

/// A type, and the place from which on the items of a list are of it as they stand.
#[derive(Drop)]
struct Candidate {
    typ: Typ,
    from: usize,
}

/// The type of a list's items, if each is of the type of those up to it as it stands.
fn candidate_of(alloc: Global, items: &[Value]) -> Result<Option<Candidate>, NoMemory>
    ensures from { IfOk result (λ o. IfSome o (λ s. s.from ≤ length items.now)) }
    ensures typ { IfOk result (λ o. IfSome o (λ s. typ_of s.typ
        ≡ items_type unknown (items_view items.now))) }
    ensures plain { IfOk result (λ o. IfSome o (λ s.
        ArePlain (items_view (drop s.from items.now)))) }
    ensures suited { IfOk result (λ o. IfSome o (λ s.
        spec.all_suit (typ_of s.typ) (items_view (drop s.from items.now)) ≡ true)) }
{
    let mut typ = Typ::Unknown;
    let mut from = 0;
    for i in 0..items.len() {
        let item = &items[i];
        if suits(&typ, item) {
            continue;
        }
        let Some(joined) = joined_type(alloc, &typ, item)? else {
            return Ok(None);
        };
        typ = joined;
        from = i;
    }
    Ok(Some(Candidate { typ, from }))
}

/// Whether the items before a place are of a type as they stand too.
fn stand_before(typ: &Typ, items: &[Value], from: usize) -> bool
    requires from { from ≤ length items.now }
    requires plain { ArePlain (items_view (drop from items.now)) }
    requires suited { spec.all_suit (typ_of typ.now) (items_view (drop from items.now)) ≡ true }
    ensures plain { result ≡ true → ArePlain (items_view items.now) }
    ensures suited { result ≡ true
        → spec.all_suit (typ_of typ.now) (items_view items.now) ≡ true }
{
    for i in 0..from {
        if !suits(typ, &items[i]) {
            return false;
        }
    }
    true
}

/// A type, if it is within the limits.
fn if_within(alloc: Global, typ: Typ) -> Result<Option<Typ>, NoMemory>
    requires { IsSimple (typ_of typ) }
    ensures same { let t = typ_of typ in IfOk result (λ o. IfSome o (λ u. typ_of u ≡ t)) }
    ensures within { IfOk result (λ o. IfSome o (λ u. limit (typ_of u) ≡ None)) }
{
    match judged_type(alloc, typ) {
        Ok(judged) => Ok(Some(judged)),
        Err(TypeFault::NoMemory) => Err(AllocError),
        Err(TypeFault::Depth) | Err(TypeFault::Size) => Ok(None),
    }
}

/// The type of a list, if it is within the limits and all in the list is of it as it stands.
///
/// One pass over the list tells it, where the first items have the type of all.
pub fn standing_type(alloc: Global, items: &[Value]) -> Result<Option<Typ>, NoMemory>
    ensures { IfOk result (λ o. IfSome o (λ t. Stands (typ_of t) (array (items_view items.now)))) }
{
    let Some(Candidate { typ, from }) = candidate_of(alloc, items)? else {
        return Ok(None);
    };
    if !stand_before(&typ, items, from) {
        return Ok(None);
    }
    if_within(alloc, Typ::Var(Box::new(alloc, typ)?))
}
