//! Fields of records by name.
ghost use Rattle.std.specs.Prelude.{◌≡◌, ◌≤◌, ◌&&◌, nat_lt, is_some, length, map, IfOk, IfSome};
ghost use Rattle.awk_types.specs.Names.{are_distinct};
ghost use Rattle.awk_types.specs.View.{names_of, fields_of, typs_of};
ghost use Rattle.awk_name_places.specs.Places.{place_in};
ghost use Rattle.awk_unify.specs.Carries.{carry_at};
ghost use Rattle.awk_unify.specs.FieldNames as said;
ghost use Rattle.awk_unify.specs.FieldNames.{alike};
ghost use Rattle.awk_unify.specs.Join.{rec_of};
ghost use Rattle.awk_unify.specs.View.{found_of, lift_of, lifts_of, parts_found};

use crate::joining::in_own_places;
use crate::lift::{Lift, Lifts, copy_lift};
use crate::parts::Parts;
use crate::places::Places;
use crate::unified::Unified;
use awk_name_places::NamePlaces;
use awk_types::{Fields, Name, Names, NoMemory, Typ};
use std::alloc::Global;

/// The place of the first field with the name; where there is none, the number of fields.
#[tactic(auto, using(crate::proofs::NamePlaces::place_laws))]
pub(crate) fn place(xs: &Fields, name: &Name) -> usize
    ensures at { result ≡ place_in (names_of (fields_of xs.now)) name.now }
    ensures within { result ≤ length (fields_of xs.now) }
{
    for i in 0..xs.len() {
        if xs.get(i).name.as_str() == name.as_str() {
            return i;
        }
    }
    xs.len()
}

/// Up to so many names are looked up one by one, and more by a map.
const FEW: usize = 16;

/// The names by a map, exactly where there are many of them and none comes twice.
pub(crate) fn known_places<'t>(
    alloc: Global,
    xs: &'t Fields,
) -> Result<Option<NamePlaces<'t>>, NoMemory>
    ensures names { IfOk result (λ known.
        IfSome known (λ places. places ≡ names_of (fields_of xs.now))) }
    ensures many { let many = nat_lt 16 (length (fields_of xs.now)) in
        IfOk result (λ known.
        is_some known ≡ (many && are_distinct (names_of (fields_of xs.now)))) }
{
    if xs.len() <= FEW {
        return Ok(None);
    }
    NamePlaces::of_fields(alloc, xs)
}

/// The place of the first field with the name, by the map if there is one; where there is none, the
/// number of fields.
pub(crate) fn place_by(xs: &Fields, known: &Option<NamePlaces<'_>>, name: &Name) -> usize
    requires { IfSome known.now (λ places. places ≡ names_of (fields_of xs.now)) }
    ensures at { result ≡ place_in (names_of (fields_of xs.now)) name.now }
    ensures within { result ≤ length (fields_of xs.now) }
{
    match known {
        Some(places) => places.place(name.as_str()),
        None => place(xs, name),
    }
}

/// Whether each name of the second record is one of the first, which has as many.
#[tactic(auto, using(crate::proofs::NamePlaces::alike_laws))]
fn are_found(xs: &Fields, known: &Option<NamePlaces<'_>>, ys: &Fields) -> bool
    requires known { IfSome known.now (λ places. places ≡ names_of (fields_of xs.now)) }
    requires same { length (fields_of xs.now) ≡ length (fields_of ys.now) }
    ensures { result ≡ alike (names_of (fields_of xs.now)) (names_of (fields_of ys.now)) }
{
    for i in 0..ys.len() {
        if place_by(xs, known, &ys.get(i).name) == xs.len() {
            return false;
        }
    }
    true
}

/// Whether the names of two records are the same in any order.
#[tactic(auto, using(crate::proofs::NamePlaces::alike_laws))]
pub(crate) fn are_alike(alloc: Global, xs: &Fields, ys: &Fields) -> Result<bool, NoMemory>
    ensures { IfOk result (λ are.
        are ≡ alike (names_of (fields_of xs.now)) (names_of (fields_of ys.now))) }
{
    if xs.len() != ys.len() {
        return Ok(false);
    }
    let known = known_places(alloc, xs)?;
    Ok(are_found(xs, &known, ys))
}

/// The lift at a place; beyond the last one, the one that keeps the value.
#[tactic(auto, using(crate::proofs::Afters::afters_laws))]
fn lift_at(alloc: Global, fs: &Lifts, k: usize) -> Result<Lift, NoMemory>
    ensures { IfOk result (λ f. lift_of f ≡ carry_at (lifts_of fs.now) k) }
{
    if k < fs.len() {
        copy_lift(alloc, fs.get(k))
    } else {
        Ok(Lift::Same)
    }
}

/// The parts of the second record, to the places that their names have in the first.
fn to_names(
    alloc: Global,
    xs: &Fields,
    known: &Option<NamePlaces<'_>>,
    ys: &Fields,
    rights: &Lifts,
) -> Result<Lift, NoMemory>
    requires { IfSome known.now (λ places. places ≡ names_of (fields_of xs.now)) }
    ensures { let ns = names_of (fields_of xs.now) in
        let ms = names_of (fields_of ys.now) in
        IfOk result (λ f. lift_of f ≡ said.to_names ns ms (lifts_of rights.now)) }
{
    let mut places = Places::new(alloc);
    let mut parts = Lifts::new(alloc);
    for i in 0..ys.len() {
        let k = place_by(xs, known, &ys.get(i).name);
        places.push(k as u64)?;
        parts.push(lift_at(alloc, rights, k)?)?;
    }
    Ok(Lift::Parts { places, parts })
}

/// The names of fields, in order.
pub fn field_names(alloc: Global, xs: &Fields) -> Result<Names, NoMemory>
    ensures { IfOk result (λ ns. ns ≡ names_of (fields_of xs.now)) }
{
    let mut made = Names::new(alloc);
    for i in 0..xs.len() {
        made.push(xs.get(i).name.copy(alloc)?)?;
    }
    Ok(made)
}

/// The record of what fields unify to, in the order of the first side.
pub(crate) fn records(
    alloc: Global,
    xs: &Fields,
    ys: &Fields,
    parts: Option<Parts>,
) -> Result<Option<Unified>, NoMemory>
    requires { IfSome parts (λ p. length (fields_of xs.now) ≡ length (typs_of p.typs)) }
    ensures { let join = rec_of (names_of (fields_of xs.now)) (names_of (fields_of ys.now)) in
        IfOk result (λ o. found_of o ≡ join (parts_found parts)) }
{
    let Parts {
        typs,
        lefts,
        rights,
    } = match parts {
        Some(parts) => parts,
        None => return Ok(None),
    };
    let left = in_own_places(alloc, lefts)?;
    let known = known_places(alloc, xs)?;
    let right = to_names(alloc, xs, &known, ys, &rights)?;
    let names = field_names(alloc, xs)?;
    Ok(Some(Unified {
        typ: Typ::Rec(Fields::named(alloc, &names, typs)?),
        left,
        right,
    }))
}
