//! Which fields are asked for, and what stands beside their names.
ghost use Rattle.std.specs.Prelude.{◌≡◌, true, length, map, IfOk, IfSome, None};
ghost use Rattle.std.specs.List.{AllByRecursion};
ghost use Rattle.awk_types.specs.Names.{is_among, place_of};
ghost use Rattle.awk_layout.specs.Layout.{empty};
ghost use Rattle.awk_view.specs.Asked.{seen};
ghost use Rattle.awk_view.specs.Choice.{row_names, beside, apart_from};

use awk_layout::Nodes;
use awk_name_places::NamePlaces;
use awk_types::{Name, Names, NoMemory};
use std::alloc::Global;

/// What is asked for of each record.
#[derive(Drop)]
pub(crate) enum Asked<'n> {
    /// The field of this name.
    Field(&'n str),
    /// The record of these fields, in this order.
    Fields(&'n Names),
    /// The record of all fields but this.
    Without(&'n str),
}

/// The names of a record's fields, or of the n places of a tuple.
pub(crate) fn row_names(alloc: Global, names: Option<&Names>, n: usize) -> Result<Names, NoMemory>
    ensures { IfOk result (λ made. made ≡ row_names (seen names.entry) n) }
{
    match names {
        Some(names) => names.copy(alloc),
        None => decimals(alloc, n),
    }
}

/// The decimals from 0 below n.
fn decimals(alloc: Global, n: usize) -> Result<Names, NoMemory>
    ensures { IfOk result (λ made. made ≡ row_names None n) }
{
    let mut made = Names::new(alloc);
    for i in 0..n {
        let text = format!(in alloc; "{i}")?;
        made.push(Name::new(alloc, &text)?)?;
    }
    Ok(made)
}

/// The place of a name, or the number of names where it is not there.
pub(crate) fn place_of(names: &Names, name: &str) -> usize
    ensures { result ≡ place_of name.now names.now }
{
    for i in 0..names.len() {
        if names.get(i).as_str() == name {
            return i;
        }
    }
    names.len()
}

/// Up to so many names are looked up one by one, and more by a map.
const FEW: usize = 16;

/// The names by a map, where many are looked up among many, and none comes twice.
pub(crate) fn known_places<'n>(
    alloc: Global,
    names: &'n Names,
    wanted: &Names,
) -> Result<Option<NamePlaces<'n>>, NoMemory>
    ensures { IfOk result (λ known. IfSome known (λ places. places ≡ names.now)) }
{
    if names.len() <= FEW || wanted.len() <= FEW {
        return Ok(None);
    }
    NamePlaces::of_names(alloc, names)
}

/// The place of a name, by the map if there is one, or the number of names where it is not there.
pub(crate) fn place_by(names: &Names, known: &Option<NamePlaces<'_>>, name: &str) -> usize
    requires { IfSome known.now (λ places. places ≡ names.now) }
    ensures { result ≡ place_of name.now names.now }
{
    match known {
        Some(places) => places.place(name),
        None => place_of(names, name),
    }
}

/// The nodes beside the wanted names.
pub(crate) fn beside_all<'a>(
    alloc: Global,
    contents: &Nodes<'a>,
    names: &Names,
    known: &Option<NamePlaces<'_>>,
    wanted: &Names,
) -> Result<Nodes<'a>, NoMemory>
    requires known { IfSome known.now (λ places. places ≡ names.now) }
    requires named { length names.now ≡ length contents.now }
    requires among { AllByRecursion (λ k. is_among k names.now ≡ true) wanted.now }
    ensures { IfOk result (λ made.
        made ≡ map (λ k. beside empty k names.now contents.now) wanted.now) }
{
    let mut made = Nodes::new(alloc);
    for i in 0..wanted.len() {
        let place = place_by(names, known, wanted.get(i).as_str());
        made.push(contents.get(place).copy(alloc)?)?;
    }
    Ok(made)
}

/// The nodes beside the other names.
pub(crate) fn nodes_apart<'a>(
    alloc: Global,
    contents: &Nodes<'a>,
    names: &Names,
    name: &str,
) -> Result<Nodes<'a>, NoMemory>
    requires { length names.now ≡ length contents.now }
    ensures { IfOk result (λ made. made ≡ apart_from name.now names.now contents.now) }
{
    let mut made = Nodes::new(alloc);
    for i in 0..names.len() {
        if names.get(i).as_str() != name {
            made.push(contents.get(i).copy(alloc)?)?;
        }
    }
    Ok(made)
}

/// The other names.
pub(crate) fn names_apart(alloc: Global, names: &Names, name: &str) -> Result<Names, NoMemory>
    ensures { IfOk result (λ made. made ≡ apart_from name.now names.now names.now) }
{
    let mut made = Names::new(alloc);
    for i in 0..names.len() {
        let item = names.get(i);
        if item.as_str() != name {
            made.push(item.copy(alloc)?)?;
        }
    }
    Ok(made)
}
