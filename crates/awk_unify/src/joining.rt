//! What types unify to whose parts are unified already.
ghost use Rattle.std.specs.Prelude.{◌≡◌, IfOk};
ghost use Rattle.awk_types.specs.DataType.{var, reg};
ghost use Rattle.awk_types.specs.View.{typ_of};
ghost use Rattle.awk_unify.specs.Early as spec;
ghost use Rattle.awk_unify.specs.FieldNames.{in_own};
ghost use Rattle.awk_unify.specs.Join as join;
ghost use Rattle.awk_unify.specs.Unify as rule;
ghost use Rattle.awk_unify.specs.View.{found_of, lift_of, lifts_of, parts_of, unified_of};

use crate::lift::{Lift, Lifts};
use crate::parts::Parts;
use crate::places::Places;
use crate::predicates::is_same;
use crate::unified::Unified;
use awk_primitives::promote;
use awk_types::{NoMemory, Prim, Typ, copy_type, is_unknown};
use std::alloc::Global;

/// A type into which the values of both sides go as they are.
pub(crate) fn as_it_is(alloc: Global, t: &Typ) -> Result<Unified, NoMemory>
    ensures { IfOk result (λ u. unified_of u ≡ spec.as_it_is (typ_of t.now)) }
{
    Ok(Unified {
        typ: copy_type(alloc, t)?,
        left: Lift::Same,
        right: Lift::Same,
    })
}

/// What equal types unify to, and unknown with another type.
pub(crate) fn early(alloc: Global, a: &Typ, b: &Typ) -> Result<Option<Unified>, NoMemory>
    ensures { IfOk result (λ o. found_of o ≡ spec.early (typ_of a.now) (typ_of b.now)) }
{
    if is_same(a, b) {
        Ok(Some(as_it_is(alloc, a)?))
    } else if is_unknown(a) {
        Ok(Some(as_it_is(alloc, b)?))
    } else if is_unknown(b) {
        Ok(Some(as_it_is(alloc, a)?))
    } else {
        Ok(None)
    }
}

/// The same with an option around its type.
pub(crate) fn optional(alloc: Global, u: Unified) -> Result<Unified, NoMemory>
    ensures { IfOk result (λ o. unified_of o ≡ rule.optional (unified_of u)) }
{
    let Unified { typ, left, right } = u;
    Ok(Unified {
        typ: Typ::Opt(Box::new(alloc, typ)?),
        left,
        right,
    })
}

/// Two leaf types.
pub(crate) fn joined_leaves(p: Prim, q: Prim) -> Option<Unified>
    ensures { found_of result ≡ join.leaf_join (join.leaf_type p q) }
{
    if p == Prim::Bool && q == Prim::Bool {
        return Some(Unified {
            typ: Typ::Leaf(Prim::Bool),
            left: Lift::Same,
            right: Lift::Same,
        });
    }
    match promote(p, q) {
        Some(r) => Some(Unified {
            typ: Typ::Leaf(r),
            left: Lift::Same,
            right: Lift::Same,
        }),
        None => None,
    }
}

/// Lists of any length, of what their items unify to.
pub(crate) fn lists(alloc: Global, u: Unified) -> Result<Option<Unified>, NoMemory>
    ensures { IfOk result (λ o. found_of o ≡ join.list_join var (unified_of u)) }
{
    let Unified { typ, left, right } = u;
    let left = Lift::Items(Box::new(alloc, left)?);
    let right = Lift::Items(Box::new(alloc, right)?);
    Ok(Some(Unified {
        typ: Typ::Var(Box::new(alloc, typ)?),
        left,
        right,
    }))
}

/// Lists of one length, of what their items unify to.
pub(crate) fn regular_lists(alloc: Global, n: u64, u: Unified) -> Result<Option<Unified>, NoMemory>
    ensures { IfOk result (λ o. found_of o ≡ join.list_join (reg n) (unified_of u)) }
{
    let Unified { typ, left, right } = u;
    let left = Lift::Items(Box::new(alloc, left)?);
    let right = Lift::Items(Box::new(alloc, right)?);
    Ok(Some(Unified {
        typ: Typ::Reg(n, Box::new(alloc, typ)?),
        left,
        right,
    }))
}

/// The parts of a row, each in its own place.
pub(crate) fn in_own_places(alloc: Global, parts: Lifts) -> Result<Lift, NoMemory>
    ensures { IfOk result (λ f. lift_of f ≡ in_own (lifts_of parts)) }
{
    let places = Places::first(alloc, parts.len())?;
    Ok(Lift::Parts { places, parts })
}

/// The tuple of what parts unify to.
pub(crate) fn tuples(alloc: Global, parts: Parts) -> Result<Option<Unified>, NoMemory>
    ensures { IfOk result (λ o. found_of o ≡ join.tup_join (parts_of parts)) }
{
    let Parts {
        typs,
        lefts,
        rights,
    } = parts;
    let left = in_own_places(alloc, lefts)?;
    let right = in_own_places(alloc, rights)?;
    Ok(Some(Unified {
        typ: Typ::Tup(typs),
        left,
        right,
    }))
}
