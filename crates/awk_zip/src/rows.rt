//! Rows of columns.
ghost use Rattle.std.specs.Prelude.{◌≡◌, ◌<◌, ◌^◌, length, option_map, IfOk};
ghost use Rattle.awk_layout.specs.Layout.{rows, layouts_from};
ghost use Rattle.awk_layout.specs.Valid.{AreNames};
ghost use Rattle.awk_open.specs.Opened.{AreLong};

use awk_lanes::{NoMemory, Steps};
use awk_layout::{Arrays, Node, Nodes};
use awk_types::{Names, copy_names};
use std::alloc::Global;
use std::sync::ledger::Ledger;

/// The nodes of columns.
fn nodes_of<'a>(alloc: Global, columns: &Arrays<'a>) -> Result<Nodes<'a>, NoMemory>
    ensures { IfOk result (λ nodes. nodes ≡ columns.now) }
{
    let mut nodes = Nodes::new(alloc);
    for i in 0..columns.len() {
        nodes.push(columns.get(i).node().copy(alloc)?)?;
    }
    Ok(nodes)
}

/// The rows of the items of columns at each of n places, named or tuples.
pub(crate) fn row_node<'a, L: Ledger>(
    alloc: Global,
    names: Option<&Names>,
    n: u64,
    columns: &Arrays<'a>,
    steps: &mut Steps<L>,
) -> Result<Node<'a>, NoMemory>
    requires long { AreLong n columns.now }
    requires few { n < 2 ^ 63 }
    requires names { AreNames (option_map (λ names. names.now) names) (length columns.now) }
    ensures { let named = option_map (λ names. names.now) names.entry in
        IfOk result (λ y. y ≡ rows named n (layouts_from columns.now)) }
{
    let named = copy_names(alloc, names)?;
    let nodes = nodes_of(alloc, columns)?;
    Ok(Node::row(named, n, nodes, steps))
}
