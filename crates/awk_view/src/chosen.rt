//! What is chosen of a node: class by class, its lanes stay, down to the records.
ghost use Rattle.std.specs.Prelude.{◌≡◌, ◌+◌, ◌*◌, ◌<◌, ◌≤◌, length, map, IfOk};
ghost use Rattle.awk_layout.specs.Layout.{rows, layouts_from, weight, weights};
ghost use Rattle.awk_layout.specs.Valid.{IsValid, AllValid, len};
ghost use Rattle.awk_layout.specs.Typing.{layout_type, layout_types};
ghost use Rattle.awk_view.specs.Choice.{field, fields, without, row_names};
ghost use Rattle.awk_view.specs.Layouts.{IsChoice, AreAmong, IsFound, AreFound};
ghost use Rattle.awk_view.specs.Layouts.{row_of_choice, layout_of_choice};
ghost use Rattle.awk_view.specs.Asked.{choice_of, seen};

use crate::choice::{
    Asked, beside_all, known_places, names_apart, nodes_apart, place_of, row_names,
};
use crate::first::first_items;
use awk_lanes::Steps;
use awk_layout::{Class, Node, Nodes};
use awk_types::{Names, NoMemory};
use std::alloc::Global;
use std::sync::ledger::Ledger;

/// Of n rows, the field of a name.
fn field_of_rows<'a, L: Ledger>(
    alloc: Global,
    names: Option<&Names>,
    n: u64,
    contents: &Nodes<'a>,
    name: &str,
    steps: &mut Steps<L>,
) -> Result<Node<'a>, NoMemory>
    requires valid { IsValid (rows (seen names) n (layouts_from contents.now)) }
    requires found { AreAmong (field name.now)
        (row_names (seen names) (length contents.now)) }
    ensures node { IfOk result (λ made.
        made ≡ row_of_choice (field name.now) (seen names.entry) n contents.now) }
    ensures cost { steps.new ≤ steps.old + 4 }
{
    let all = row_names(alloc, names, contents.len())?;
    first_items(alloc, contents.get(place_of(&all, name)), n, steps)
}

/// Of n rows, the rows of the wanted fields.
fn fields_of_rows<'a, L: Ledger>(
    alloc: Global,
    names: Option<&Names>,
    n: u64,
    contents: &Nodes<'a>,
    wanted: &Names,
    steps: &mut Steps<L>,
) -> Result<Node<'a>, NoMemory>
    requires valid { IsValid (rows (seen names) n (layouts_from contents.now)) }
    requires distinct { IsChoice (fields wanted.now) }
    requires found { AreAmong (fields wanted.now)
        (row_names (seen names) (length contents.now)) }
    ensures node { IfOk result (λ made.
        made ≡ row_of_choice (fields wanted.now) (seen names.entry) n contents.now) }
    ensures cost { steps.new ≤ steps.old + 4 }
{
    let all = row_names(alloc, names, contents.len())?;
    let known = known_places(alloc, &all, wanted)?;
    let kept = beside_all(alloc, contents, &all, &known, wanted)?;
    match names {
        Some(_) => {
            let wanted = wanted.copy(alloc)?;
            Ok(Node::row(Some(wanted), n, kept, steps))
        }
        None => Ok(Node::row(None, n, kept, steps)),
    }
}

/// Of n rows, the rows of the other fields.
fn rows_without<'a, L: Ledger>(
    alloc: Global,
    names: Option<&Names>,
    n: u64,
    contents: &Nodes<'a>,
    name: &str,
    steps: &mut Steps<L>,
) -> Result<Node<'a>, NoMemory>
    requires valid { IsValid (rows (seen names) n (layouts_from contents.now)) }
    ensures node { IfOk result (λ made.
        made ≡ row_of_choice (without name.now) (seen names.entry) n contents.now) }
    ensures cost { steps.new ≤ steps.old + 4 }
{
    let all = row_names(alloc, names, contents.len())?;
    let kept = nodes_apart(alloc, contents, &all, name)?;
    match names {
        Some(names) => {
            let others = names_apart(alloc, names, name)?;
            Ok(Node::row(Some(others), n, kept, steps))
        }
        None => Ok(Node::row(None, n, kept, steps)),
    }
}

/// Of n rows, what is asked for.
fn chosen_of_rows<'a, L: Ledger>(
    alloc: Global,
    names: Option<&Names>,
    n: u64,
    contents: &Nodes<'a>,
    asked: &Asked,
    steps: &mut Steps<L>,
) -> Result<Node<'a>, NoMemory>
    requires valid { IsValid (rows (seen names) n (layouts_from contents.now)) }
    requires distinct { IsChoice (choice_of asked.now) }
    requires found { AreAmong (choice_of asked.now)
        (row_names (seen names) (length contents.now)) }
    ensures node { IfOk result (λ made.
        made ≡ row_of_choice (choice_of asked.now) (seen names.entry) n contents.now) }
    ensures cost { steps.new ≤ steps.old + 4 }
{
    match asked {
        Asked::Field(name) => field_of_rows(alloc, names, n, contents, name, steps),
        Asked::Fields(wanted) => fields_of_rows(alloc, names, n, contents, wanted, steps),
        Asked::Without(name) => rows_without(alloc, names, n, contents, name, steps),
    }
}

/// What is asked for, of every record that is met.
#[cycle(chosen)]
#[tactic(auto, using(crate::proofs::ChosenNodes::chosen))]
pub(crate) fn chosen<'a, L: Ledger>(
    alloc: Global,
    x: &Node<'a>,
    asked: &Asked,
    steps: &mut Steps<L>,
) -> Result<Node<'a>, NoMemory>
    requires distinct { IsChoice (choice_of asked.now) }
    requires found { IsFound (choice_of asked.now) (layout_type x.now) }
    ensures node { IfOk result (λ made. made ≡ layout_of_choice (choice_of asked.now) x.now) }
    ensures len { IfOk result (λ made. len made ≡ len x.now) }
    ensures cost { steps.new ≤ steps.old + 4 * weight x.now }
{
    match x.class() {
        Class::Empty => unreachable!(),
        Class::Numpy { .. } => unreachable!(),
        Class::Regular { size, content } => {
            let content = boxed(alloc, content, asked, steps)?;
            Ok(Node::regular(size, x.len(), content, steps))
        }
        Class::List {
            starts,
            stops,
            content,
        } => {
            let content = boxed(alloc, content, asked, steps)?;
            Ok(Node::list(starts.copy(), stops.copy(), content, steps))
        }
        Class::ListOffset { offsets, content } => {
            let content = boxed(alloc, content, asked, steps)?;
            Ok(Node::list_offset(offsets.copy(), content, steps))
        }
        Class::Row { names, contents } => {
            chosen_of_rows(alloc, names, x.len(), contents, asked, steps)
        }
        Class::Indexed { index, content } => {
            let content = boxed(alloc, content, asked, steps)?;
            Ok(Node::indexed(index.copy(), content, steps))
        }
        Class::IndexedOption { index, content } => {
            let content = boxed(alloc, content, asked, steps)?;
            Ok(Node::indexed_option(index.copy(), content, steps))
        }
        Class::ByteMasked {
            mask,
            valid_when,
            content,
        } => {
            let content = boxed(alloc, content, asked, steps)?;
            Ok(Node::byte_masked(mask.copy(), valid_when, content, steps))
        }
        Class::BitMasked {
            mask,
            valid_when,
            content,
        } => {
            let content = boxed(alloc, content, asked, steps)?;
            Ok(Node::bit_masked(mask.copy(), valid_when, content, steps))
        }
        Class::Unmasked { content } => {
            let content = boxed(alloc, content, asked, steps)?;
            Ok(Node::unmasked(content, x.len(), steps))
        }
        Class::Union {
            tags,
            index,
            contents,
        } => {
            let contents = chosen_of_each(alloc, contents, asked, steps)?;
            Ok(Node::union(tags.copy(), index.copy(), contents, steps))
        }
    }
}

/// What is asked for, in a box.
#[cycle(chosen)]
#[tactic(auto, using(crate::proofs::ChosenNodes::chosen))]
fn boxed<'a, L: Ledger>(
    alloc: Global,
    x: &Node<'a>,
    asked: &Asked,
    steps: &mut Steps<L>,
) -> Result<Box<Node<'a>>, NoMemory>
    requires distinct { IsChoice (choice_of asked.now) }
    requires found { IsFound (choice_of asked.now) (layout_type x.now) }
    ensures node { IfOk result (λ made. made.value ≡ layout_of_choice (choice_of asked.now) x.now) }
    ensures len { IfOk result (λ made. len made.value ≡ len x.now) }
    ensures cost { steps.new ≤ steps.old + 4 * weight x.now }
{
    Ok(Box::new(alloc, chosen(alloc, x, asked, steps)?)?)
}

/// What is asked for, of each node.
#[cycle(chosen)]
#[tactic(auto, using(crate::proofs::ChosenNodes::chosen))]
fn chosen_of_each<'a, L: Ledger>(
    alloc: Global,
    contents: &Nodes<'a>,
    asked: &Asked,
    steps: &mut Steps<L>,
) -> Result<Nodes<'a>, NoMemory>
    requires distinct { IsChoice (choice_of asked.now) }
    requires found { AreFound (choice_of asked.now) (layout_types (layouts_from contents.now)) }
    ensures nodes { IfOk result (λ made.
        made ≡ map (layout_of_choice (choice_of asked.now)) contents.now) }
    ensures cost { steps.new ≤ steps.old + 4 * weights (layouts_from contents.now) }
{
    let mut made = Nodes::new(alloc);
    for i in 0..contents.len() {
        made.push(chosen(alloc, contents.get(i), asked, steps)?)?;
    }
    Ok(made)
}
