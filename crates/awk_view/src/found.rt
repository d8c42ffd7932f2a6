//! Whether the fields that are asked for are there.
ghost use Rattle.std.specs.Prelude.{◌≡◌, [], ◌∷◌, IfOk, IfSome};
ghost use Rattle.awk_types.specs.Names.{is_among};
ghost use Rattle.awk_layout.specs.Layout.{layouts_from};
ghost use Rattle.awk_layout.specs.Typing.{layout_type, layout_types};
ghost use Rattle.awk_view.specs.Choice.{fields, first_absent, absent};
ghost use Rattle.awk_view.specs.Choice.{has_field, all_have_field, has_records, all_have_records};
ghost use Rattle.awk_view.specs.Leading.{leading};
ghost use Rattle.awk_view.specs.Asked.{choice_of};

use crate::choice::{Asked, known_places, place_by, row_names};
use awk_layout::{Class, Node, Nodes};
use awk_name_places::NamePlaces;
use awk_types::{Name, Names, NoMemory};
use std::alloc::Global;

/// How many of the wanted names come before the first that is not one of a record's own, by the map
/// if there is one.
fn leading_known(wanted: &Names, own: &Names, known: &Option<NamePlaces<'_>>) -> usize
    requires { IfSome known.now (λ places. places ≡ own.now) }
    ensures { result ≡ leading (λ n. is_among n own.now) wanted.now }
{
    for i in 0..wanted.len() {
        if place_by(own, known, wanted.get(i).as_str()) == own.len() {
            return i;
        }
    }
    wanted.len()
}

/// How many of the wanted names come before the first that is not one of a record's own.
fn leading_own(alloc: Global, wanted: &Names, own: &Names) -> Result<usize, NoMemory>
    ensures { IfOk result (λ k. k ≡ leading (λ n. is_among n own.now) wanted.now) }
{
    let known = known_places(alloc, own, wanted)?;
    Ok(leading_known(wanted, own, &known))
}

/// How many names come before the first that some record does not have; none where something else
/// than a record is met.
#[cycle(leading)]
#[tactic(auto, using(crate::proofs::FoundSteps::found_steps))]
fn leading_found(alloc: Global, x: &Node, names: &Names) -> Result<usize, NoMemory>
    ensures { IfOk result (λ k.
        k ≡ leading (λ n. has_field n (layout_type x.now)) names.now) }
{
    match x.class() {
        Class::Empty => Ok(0),
        Class::Numpy { .. } => Ok(0),
        Class::Row {
            names: Some(own),
            ..
        } => leading_own(alloc, names, own),
        Class::Row {
            names: None,
            contents,
        } => leading_own(alloc, names, &row_names(alloc, None, contents.len())?),
        Class::Regular { content, .. }
        | Class::List { content, .. }
        | Class::ListOffset { content, .. }
        | Class::Indexed { content, .. }
        | Class::IndexedOption { content, .. }
        | Class::ByteMasked { content, .. }
        | Class::BitMasked { content, .. }
        | Class::Unmasked { content } => leading_found(alloc, content, names),
        Class::Union { contents, .. } => leading_of_each(alloc, contents, names),
    }
}

/// The least of that of each node.
#[cycle(leading)]
#[tactic(auto, using(crate::proofs::FoundSteps::found_steps))]
fn leading_of_each(alloc: Global, contents: &Nodes, names: &Names) -> Result<usize, NoMemory>
    ensures { let typs = layout_types (layouts_from contents.now) in
        IfOk result (λ k. k ≡ leading (λ n. all_have_field n typs) names.now) }
{
    let mut least = names.len();
    for i in 0..contents.len() {
        least = least.min(leading_found(alloc, contents.get(i), names)?);
    }
    Ok(least)
}

/// Whether nothing but records is met.
#[cycle(has_records)]
#[tactic(auto, using(crate::proofs::FoundSteps::found_steps))]
fn has_records(x: &Node) -> bool
    ensures { result ≡ has_records (layout_type x.now) }
{
    match x.class() {
        Class::Empty => false,
        Class::Numpy { .. } => false,
        Class::Row { .. } => true,
        Class::Regular { content, .. }
        | Class::List { content, .. }
        | Class::ListOffset { content, .. }
        | Class::Indexed { content, .. }
        | Class::IndexedOption { content, .. }
        | Class::ByteMasked { content, .. }
        | Class::BitMasked { content, .. }
        | Class::Unmasked { content } => has_records(content),
        Class::Union { contents, .. } => all_have_records(contents),
    }
}

/// Whether that holds of each node.
#[cycle(has_records)]
#[tactic(auto, using(crate::proofs::FoundSteps::found_steps))]
fn all_have_records(contents: &Nodes) -> bool
    ensures { result ≡ all_have_records (layout_types (layouts_from contents.now)) }
{
    for i in 0..contents.len() {
        if !has_records(contents.get(i)) {
            return false;
        }
    }
    true
}

/// The first of the names that some record does not have.
fn first_absent(alloc: Global, x: &Node, names: &Names) -> Result<Option<Name>, NoMemory>
    ensures { IfOk result (λ name. name ≡ first_absent names.now (layout_type x.now)) }
{
    let place = leading_found(alloc, x, names)?;
    if place < names.len() {
        Ok(Some(names.get(place).copy(alloc)?))
    } else {
        Ok(None)
    }
}

/// The name, where some record does not have it.
fn one_absent(alloc: Global, x: &Node, name: &str) -> Result<Option<Name>, NoMemory>
    ensures { IfOk result (λ absent. absent ≡ first_absent (name.now ∷ []) (layout_type x.now)) }
{
    let mut names = Names::new(alloc);
    names.push(Name::new(alloc, name)?)?;
    first_absent(alloc, x, &names)
}

/// The first of the names that some record does not have, or the empty name where something else
/// is met.
fn any_absent(alloc: Global, x: &Node, names: &Names) -> Result<Option<Name>, NoMemory>
    ensures { IfOk result (λ name. name ≡ absent (fields names.now) (layout_type x.now)) }
{
    if let Some(name) = first_absent(alloc, x, names)? {
        return Ok(Some(name));
    }
    if has_records(x) {
        Ok(None)
    } else {
        Ok(Some(Name::new(alloc, "")?))
    }
}

/// The name that is asked for and not found.
pub(crate) fn absent(alloc: Global, x: &Node, asked: &Asked) -> Result<Option<Name>, NoMemory>
    ensures { IfOk result (λ name. name ≡ absent (choice_of asked.now) (layout_type x.now)) }
{
    match asked {
        Asked::Field(name) => one_absent(alloc, x, name),
        Asked::Fields(names) => any_absent(alloc, x, names),
        Asked::Without(name) => one_absent(alloc, x, name),
    }
}
