//! Alternatives of unions.
ghost use Rattle.std.specs.Prelude.{◌≡◌, ◌<◌, ◌≤◌, ◌+◌, [], ◌∷◌, ◌++◌, length, take, drop, IfOk};
ghost use Rattle.std.specs.Prelude.{OnOk};
ghost use Rattle.awk_types.specs.Simple.{alternatives};
ghost use Rattle.awk_types.specs.View.{typ_of, typs_of};
ghost use Rattle.awk_unify.specs.Carry.{carry, keep, no_carries, to_alternatives};
ghost use Rattle.awk_unify.specs.Insert.{ahead, joined_first, last};
ghost use Rattle.awk_unify.specs.Merge as merge;
ghost use Rattle.awk_unify.specs.Unify as rule;
ghost use Rattle.awk_unify.specs.View.{lift_of, placed_of, placed_all_of, unified_of};

use crate::lift::{Lift, Lifts};
use crate::placed::{Placed, PlacedAll, all_same, push_same};
use crate::places::Places;
use crate::unified::Unified;
use awk_types::{NoMemory, Typ, Typs, copy_type};
use std::alloc::Global;

/// The alternatives of a type; one that is no union is its own only alternative.
pub(crate) fn alternatives_of(alloc: Global, t: &Typ) -> Result<Typs, NoMemory>
    ensures { IfOk result (λ ts. typs_of ts ≡ alternatives (typ_of t.now)) }
{
    match t {
        Typ::Uni(ts) => ts.copy(alloc),
        _ => {
            let mut ts = Typs::new(alloc);
            ts.push(copy_type(alloc, t)?)?;
            Ok(ts)
        },
    }
}

/// Values of a type that is no union, as those of an alternative.
fn to_one(alloc: Global, tag: u64) -> Result<Lift, NoMemory>
    ensures { let first = carry keep no_carries in
        IfOk result (λ f. lift_of f ≡ to_alternatives (tag ∷ []) first) }
{
    let mut tags = Places::new(alloc);
    tags.push(tag)?;
    let mut parts = Lifts::new(alloc);
    parts.push(Lift::Same)?;
    Ok(Lift::Alternatives { tags, parts })
}

/// The union of two types that do not join.
pub(crate) fn apart(alloc: Global, a: &Typ, b: &Typ) -> Result<Unified, NoMemory>
    ensures { IfOk result (λ u. unified_of u ≡ rule.apart (typ_of a.now) (typ_of b.now)) }
{
    let mut typs = Typs::new(alloc);
    typs.push(copy_type(alloc, a)?)?;
    typs.push(copy_type(alloc, b)?)?;
    Ok(Unified {
        typ: Typ::Uni(typs),
        left: to_one(alloc, 0)?,
        right: to_one(alloc, 1)?,
    })
}

/// The union of alternatives into which the types of the second side were put.
pub(crate) fn of_placed(alloc: Global, p: PlacedAll) -> Result<Unified, NoMemory>
    ensures { IfOk result (λ u. unified_of u ≡ merge.merged (placed_all_of p)) }
{
    let PlacedAll {
        typs,
        kept,
        tags,
        puts,
    } = p;
    Ok(Unified {
        typ: Typ::Uni(typs),
        left: Lift::Alternatives {
            tags: Places::first(alloc, kept.len())?,
            parts: kept,
        },
        right: Lift::Alternatives { tags, parts: puts },
    })
}

/// The alternatives with a further one, which is the type that was put in.
pub(crate) fn appended(alloc: Global, ts: &Typs, b: &Typ) -> Result<Placed, NoMemory>
    ensures { IfOk result (λ p. placed_of p ≡ ahead (typs_of ts.now) (last (typ_of b.now))) }
{
    let mut typs = ts.copy(alloc)?;
    typs.push(copy_type(alloc, b)?)?;
    Ok(Placed {
        typs,
        kept: all_same(alloc, ts.len())?,
        tag: ts.len() as u64,
        put: Lift::Same,
    })
}

/// The first types, so many.
#[tactic(auto, using(crate::proofs::Lists::get_laws))]
fn first_types(alloc: Global, ts: &Typs, n: usize) -> Result<Typs, NoMemory>
    requires { n ≤ length (typs_of ts.now) }
    ensures { IfOk result (λ made. typs_of made ≡ take n (typs_of ts.now)) }
{
    let mut made = Typs::new(alloc);
    for i in 0..n {
        made.push(copy_type(alloc, ts.get(i))?)?;
    }
    Ok(made)
}

/// Puts the types from a place on at the end.
fn push_later(alloc: Global, made: &mut Typs, ts: &Typs, n: usize) -> Result<(), NoMemory>
    ensures { let later = drop n (typs_of ts.now) in
        OnOk result (typs_of made.new ≡ typs_of made.old ++ later) }
{
    for i in n..ts.len() {
        made.push(copy_type(alloc, ts.get(i))?)?;
    }
    Ok(())
}

/// The alternatives with the one at a place replaced by what it and the type that was put in join
/// to.
pub(crate) fn widened(alloc: Global, ts: &Typs, k: usize, j: Unified) -> Result<Placed, NoMemory>
    requires { k < length (typs_of ts.now) }
    ensures { let joined = joined_first (unified_of j) (drop (k + 1) (typs_of ts.now)) in
        IfOk result (λ p. placed_of p ≡ ahead (take k (typs_of ts.now)) joined) }
{
    let Unified { typ, left, right } = j;
    let mut typs = first_types(alloc, ts, k)?;
    typs.push(typ)?;
    push_later(alloc, &mut typs, ts, k + 1)?;
    let mut kept = all_same(alloc, k)?;
    kept.push(left)?;
    push_same(&mut kept, ts.len() - k - 1)?;
    Ok(Placed {
        typs,
        kept,
        tag: k as u64,
        put: right,
    })
}
