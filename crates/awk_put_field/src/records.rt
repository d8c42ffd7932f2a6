//! Records with one field more, or with another one in the place of what they had.
ghost use Rattle.std.specs.Prelude.{◌≡◌, ◌==◌, ◌<◌, ◌^◌, length, get_or, Some, IfOk, if◌then◌else◌};
ghost use Rattle.awk_layout.specs.Layout.{empty, rows, layouts_from};
ghost use Rattle.awk_layout.specs.Valid.{len, AreNames};
ghost use Rattle.awk_open.specs.Opened.{AreLong};
ghost use Rattle.awk_types.specs.Names.{place_of as place_in};
ghost use Rattle.awk_put_field.specs.Field.{put, named as named_with};
ghost use Rattle.awk_put_field.specs.Places.{put_at};

use awk_lanes::Steps;
use awk_layout::{Array, Arrays, Node, Nodes};
use awk_types::{Name, Names, NoMemory};
use std::alloc::Global;
use std::sync::ledger::Ledger;

/// The place of a name, or the number of names where it is not there.
fn place_of(names: &Names, name: &str) -> usize
    ensures { result ≡ place_in name.now names.now }
{
    for i in 0..names.len() {
        if names.get(i).as_str() == name {
            return i;
        }
    }
    names.len()
}

/// The names with one among them: it keeps its place, or comes last.
fn names_with(alloc: Global, names: &Names, place: usize, name: &str) -> Result<Names, NoMemory>
    requires { place ≡ place_in name.now names.now }
    ensures { IfOk result (λ made. made ≡ named_with name.now names.now) }
{
    let mut made = names.copy(alloc)?;
    if place == names.len() {
        made.push(Name::new(alloc, name)?)?;
    }
    Ok(made)
}

/// The column at a place, or another one where the place is this.
fn column_at<'b, 'a>(
    columns: &'b Arrays<'a>,
    i: usize,
    place: usize,
    column: &'b Array<'a>,
) -> &'b Array<'a>
    requires { i < length columns.now }
    ensures { let kept = get_or columns.now i empty in
        result.now ≡ (if i == place then column.now else kept) }
{
    if i == place {
        return column;
    }
    columns.get(i)
}

/// The nodes of columns with one at a place, or last where no column stands there.
fn nodes_with<'a>(
    alloc: Global,
    columns: &Arrays<'a>,
    place: usize,
    column: &Array<'a>,
) -> Result<Nodes<'a>, NoMemory>
    ensures { IfOk result (λ made. made ≡ put_at place column.now columns.now) }
{
    let mut nodes = Nodes::new(alloc);
    for i in 0..columns.len() {
        let kept = column_at(columns, i, place, column);
        nodes.push(kept.node().copy(alloc)?)?;
    }
    if place >= columns.len() {
        nodes.push(column.node().copy(alloc)?)?;
    }
    Ok(nodes)
}

/// The records of columns at each of n places, with a column as the field of a name.
pub(crate) fn records_of<'a, L: Ledger>(
    alloc: Global,
    names: &Names,
    n: u64,
    columns: &Arrays<'a>,
    name: &str,
    column: &Array<'a>,
    steps: &mut Steps<L>,
) -> Result<Node<'a>, NoMemory>
    requires names { AreNames (Some names.now) (length columns.now) }
    requires few { n < 2 ^ 63 }
    requires long { AreLong n columns.now }
    requires column { len column.now ≡ n }
    ensures { let named = named_with name.now names.now in
        let ys = put name.now names.now column.now columns.now in
        IfOk result (λ y. y ≡ rows (Some named) n (layouts_from ys)) }
{
    let place = place_of(names, name);
    let named = names_with(alloc, names, place, name)?;
    let nodes = nodes_with(alloc, columns, place, column)?;
    Ok(Node::row(Some(named), n, nodes, steps))
}
