//! The type that two types unify to, and how the values of both are carried into it.
ghost use Rattle.std.specs.Prelude.{◌≡◌, ◌<◌, IfOk, IfSome};
ghost use Rattle.awk_types.specs.Gives.{Gives};
ghost use Rattle.awk_types.specs.Limit.{limit, limit_told};
ghost use Rattle.awk_types.specs.Simple.{IsSimple, alternatives};
ghost use Rattle.awk_types.specs.View.{names_of, fields_of, typ_of, typs_of};
ghost use Rattle.awk_unify.specs.Join.{join_by, join_records, unify_fields, unify_parts};
ghost use Rattle.awk_unify.specs.Merge as merge;
ghost use Rattle.awk_unify.specs.Merge.{insert, insert_all};
ghost use Rattle.awk_unify.specs.Unifies.{Unifies, within_type};
ghost use Rattle.awk_unify.specs.Unify as rule;
ghost use Rattle.awk_unify.specs.Unify.{unification};
ghost use Rattle.awk_unify.specs.View.{found_of, parts_found, parts_of, placed_of, placed_all_of};
ghost use Rattle.awk_unify.specs.View.{unified_of};

use crate::alternatives::{alternatives_of, apart, appended, of_placed, widened};
use crate::fields::{are_alike, known_places, place_by, records};
use crate::joining::{as_it_is, early, joined_leaves, lists, optional, regular_lists, tuples};
use crate::parts::Parts;
use crate::placed::{Placed, PlacedAll};
use crate::predicates::present;
use crate::unified::Unified;
use awk_name_places::NamePlaces;
use awk_types::{Fields, NoMemory, Typ, TypeFault, Typs, is_optional, is_union, simple_of};
use std::alloc::Global;

/// What two types unify to, whatever its size: for a type that becomes a part of another one, whose
/// limits are judged as a whole.
#[cycle(unify)]
#[tactic(auto, using(crate::proofs::Rules::rule_laws))]
pub fn unified(alloc: Global, a: &Typ, b: &Typ) -> Result<Unified, NoMemory>
    ensures { IfOk result (λ u. unified_of u ≡ unification (typ_of a.now) (typ_of b.now)) }
{
    match early(alloc, a, b)? {
        Some(found) => Ok(found),
        None => {
            if is_optional(a) || is_optional(b) {
                optional(alloc, bare_unified(alloc, present(a), present(b))?)
            } else {
                joined_or_merged(alloc, a, b)
            }
        }
    }
}

/// What two types without options unify to.
#[cycle(unify)]
#[tactic(auto, using(crate::proofs::Rules::rule_laws))]
fn bare_unified(alloc: Global, a: &Typ, b: &Typ) -> Result<Unified, NoMemory>
    ensures { let made = rule.bare unification (typ_of a.now) (typ_of b.now) in
        IfOk result (λ u. unified_of u ≡ made) }
{
    match early(alloc, a, b)? {
        Some(found) => Ok(found),
        None => joined_or_merged(alloc, a, b),
    }
}

/// Types that join, else a union.
#[cycle(unify)]
fn joined_or_merged(alloc: Global, a: &Typ, b: &Typ) -> Result<Unified, NoMemory>
    ensures { let made = rule.joins_or_unions unification (typ_of a.now) (typ_of b.now) in
        IfOk result (λ u. unified_of u ≡ made) }
{
    match joined(alloc, a, b)? {
        Some(found) => Ok(found),
        None => {
            if is_union(a) || is_union(b) {
                merged(alloc, a, b)
            } else {
                apart(alloc, a, b)
            }
        }
    }
}

/// What two types join to, if they do.
#[cycle(unify)]
fn joined(alloc: Global, a: &Typ, b: &Typ) -> Result<Option<Unified>, NoMemory>
    ensures { IfOk result (λ o. found_of o ≡ join_by unification (typ_of a.now) (typ_of b.now)) }
{
    match (a, b) {
        (Typ::Unknown, Typ::Unknown) => Ok(Some(as_it_is(alloc, a)?)),
        (Typ::Leaf(p), Typ::Leaf(q)) => Ok(joined_leaves(*p, *q)),
        (Typ::Var(x), Typ::Var(y)) => lists(alloc, unified(alloc, x, y)?),
        (Typ::Var(x), Typ::Reg(_, y)) => lists(alloc, unified(alloc, x, y)?),
        (Typ::Reg(_, x), Typ::Var(y)) => lists(alloc, unified(alloc, x, y)?),
        (Typ::Reg(n, x), Typ::Reg(m, y)) => {
            if *n == *m {
                regular_lists(alloc, *n, unified(alloc, x, y)?)
            } else {
                lists(alloc, unified(alloc, x, y)?)
            }
        }
        (Typ::Tup(xs), Typ::Tup(ys)) => {
            if xs.len() == ys.len() {
                tuples(alloc, unified_parts(alloc, xs, ys)?)
            } else {
                Ok(None)
            }
        }
        (Typ::Rec(xs), Typ::Rec(ys)) => joined_records(alloc, xs, ys),
        _ => Ok(None),
    }
}

/// The parts of two tuples, one by one.
#[cycle(unify)]
fn unified_parts(alloc: Global, xs: &Typs, ys: &Typs) -> Result<Parts, NoMemory>
    ensures { let made = unify_parts unification (typs_of xs.now) (typs_of ys.now) in
        IfOk result (λ p. parts_of p ≡ made) }
{
    let mut made = Parts::new(alloc);
    for i in 0..xs.len().min(ys.len()) {
        made.push(unified(alloc, xs.get(i), ys.get(i))?)?;
    }
    Ok(made)
}

/// The fields of two records by name, if the second has each name of the first.
#[cycle(unify)]
fn unified_fields(
    alloc: Global,
    xs: &Fields,
    ys: &Fields,
    known: &Option<NamePlaces<'_>>,
) -> Result<Option<Parts>, NoMemory>
    requires { IfSome known.now (λ places. places ≡ names_of (fields_of ys.now)) }
    ensures { let made = unify_fields unification (fields_of xs.now) (fields_of ys.now) in
        IfOk result (λ o. parts_found o ≡ made) }
{
    let mut made = Parts::new(alloc);
    for i in 0..xs.len() {
        let field = xs.get(i);
        let k = place_by(ys, known, &field.name);
        if k == ys.len() {
            return Ok(None);
        }
        made.push(unified(alloc, &field.typ, &ys.get(k).typ)?)?;
    }
    Ok(Some(made))
}

/// Two records, if their names are the same in any order.
#[cycle(unify)]
fn joined_records(alloc: Global, xs: &Fields, ys: &Fields) -> Result<Option<Unified>, NoMemory>
    ensures { let join = join_records unification (fields_of xs.now) (fields_of ys.now) in
        IfOk result (λ o. found_of o ≡ join) }
{
    if !are_alike(alloc, xs, ys)? {
        return Ok(None);
    }
    let known = known_places(alloc, ys)?;
    records(alloc, xs, ys, unified_fields(alloc, xs, ys, &known)?)
}

/// A type put into the first alternative that joins with it, else as a new last one.
#[cycle(unify)]
fn inserted(alloc: Global, ts: &Typs, b: &Typ) -> Result<Placed, NoMemory>
    ensures { let made = insert (join_by unification) (typs_of ts.now) (typ_of b.now) in
        IfOk result (λ p. placed_of p ≡ made) }
{
    for i in 0..ts.len() {
        if let Some(j) = joined(alloc, ts.get(i), b)? {
            return widened(alloc, ts, i, j);
        }
    }
    appended(alloc, ts, b)
}

/// Types put in one after another.
#[cycle(unify)]
fn inserted_each(alloc: Global, start: PlacedAll, bs: &Typs) -> Result<PlacedAll, NoMemory>
    ensures { let made =
        insert_all (join_by unification) (placed_all_of start) (typs_of bs.now) in
        IfOk result (λ p. placed_all_of p ≡ made) }
{
    let mut made = start;
    for i in 0..bs.len() {
        let placed = inserted(alloc, &made.typs, bs.get(i))?;
        made = made.further(alloc, placed)?;
    }
    Ok(made)
}

/// Two types of which one is a union.
#[cycle(unify)]
fn merged(alloc: Global, a: &Typ, b: &Typ) -> Result<Unified, NoMemory>
    ensures { let first = merge.start (alternatives (typ_of a.now)) in
        let p = insert_all (join_by unification) first (alternatives (typ_of b.now)) in
        IfOk result (λ u. unified_of u ≡ merge.merged p) }
{
    let start = PlacedAll::start(alloc, alternatives_of(alloc, a)?)?;
    match b {
        Typ::Uni(bs) => of_placed(alloc, inserted_each(alloc, start, bs)?),
        _ => {
            let placed = inserted(alloc, &start.typs, b)?;
            of_placed(alloc, start.further(alloc, placed)?)
        }
    }
}

/// The type that two simple types unify to, and how the values of both are carried into it.
pub fn unify(alloc: Global, a: &Typ, b: &Typ) -> Result<Unified, TypeFault>
    requires { IsSimple (typ_of a.now) × IsSimple (typ_of b.now) }
    ensures gives { let said = within_type (unification (typ_of a.now) (typ_of b.now)) in
        Gives unified_of limit_told result said }
    ensures within_limits { IfOk result (λ u. limit (typ_of u.typ) ≡ None) }
    ensures laws { IfOk result (λ u. Unifies (typ_of a.now) (typ_of b.now) (unified_of u)) }
{
    let Unified { typ, left, right } = unified(alloc, a, b)?;
    // What simple types unify to is simple, and stays as it is: it is only held against the limits.
    let typ = simple_of(alloc, typ)?;
    Ok(Unified { typ, left, right })
}
