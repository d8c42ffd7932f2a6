//! What a node holds beside its contents, and the node over its contents.
ghost use Rattle.std.specs.Prelude.{◌≡◌, ◌+◌, ◌++◌, ◌≤◌, drop, IfOk};
ghost use Rattle.awk_layout.specs.Valid.{IsValid};
ghost use Rattle.awk_valid.specs.Parts.{only, over_one, over};

use awk_bits::Bits;
use awk_lanes::{Lane, Steps};
use awk_layout::{Node, Nodes};
use awk_types::{Names, NoMemory};
use std::alloc::Global;
use std::sync::ledger::Ledger;

/// What a node of one content holds beside it.
#[derive(Drop)]
pub(crate) enum One<'a> {
    /// The size of the lists.
    Regular(u64),
    /// The starts and the stops.
    Lists(Lane<'a>, Lane<'a>),
    OffsetLists(Lane<'a>),
    Indexed(Lane<'a>),
    Optional(Lane<'a>),
    /// The mask, and which of its values means that an item is there.
    ByteMasked(Lane<'a>, bool),
    BitMasked(Bits<'a>, bool),
    Unmasked,
}

/// What a node holds beside its contents.
#[derive(Drop)]
pub(crate) enum Own<'a> {
    /// A node without contents.
    Whole(Node<'a>),
    Over(One<'a>),
    /// The names of a record's fields; a tuple has none.
    Rows(Option<Names>),
    /// The tags and the index.
    Union(Lane<'a>, Lane<'a>),
}

/// The last of the contents, or an EmptyArray where there is none.
fn only<'a, L: Ledger>(mut contents: Vec<Node<'a>>, steps: &mut Steps<L>) -> Node<'a>
    ensures node { result ≡ only contents.entry.items }
    ensures cost { steps.new ≤ steps.old + 1 }
{
    match contents.pop() {
        Some(content) => content,
        None => Node::empty(steps),
    }
}

/// The node of n items over one content.
fn over_one<'a, L: Ledger>(
    n: u64,
    one: One<'a>,
    content: Box<Node<'a>>,
    steps: &mut Steps<L>,
) -> Node<'a>
    requires valid { IsValid (over_one n one content.value) }
    ensures node { result ≡ over_one n one.entry content.entry.value }
    ensures cost { steps.new ≡ steps.old + 1 }
{
    match one {
        One::Regular(size) => Node::regular(size, n, content, steps),
        One::Lists(starts, stops) => Node::list(starts, stops, content, steps),
        One::OffsetLists(offsets) => Node::list_offset(offsets, content, steps),
        One::Indexed(index) => Node::indexed(index, content, steps),
        One::Optional(index) => Node::indexed_option(index, content, steps),
        One::ByteMasked(mask, valid_when) => Node::byte_masked(mask, valid_when, content, steps),
        One::BitMasked(mask, valid_when) => Node::bit_masked(mask, valid_when, content, steps),
        One::Unmasked => Node::unmasked(content, n, steps),
    }
}

/// The same nodes.
fn nodes_of<'a>(alloc: Global, contents: Vec<Node<'a>>) -> Result<Nodes<'a>, NoMemory>
    ensures { IfOk result (λ nodes. nodes ≡ contents.entry.items) }
{
    let mut nodes = Nodes::new(alloc);
    for content in contents {
        nodes.push(content)?;
    }
    Ok(nodes)
}

/// The node of n items over its contents.
pub(crate) fn over<'a, L: Ledger>(
    alloc: Global,
    n: u64,
    own: Own<'a>,
    contents: Vec<Node<'a>>,
    steps: &mut Steps<L>,
) -> Result<Node<'a>, NoMemory>
    requires valid { IsValid (over n own contents.items) }
    ensures node { IfOk result (λ node. node ≡ over n own.entry contents.entry.items) }
    ensures cost { steps.new ≤ steps.old + 2 }
{
    match own {
        Own::Whole(node) => Ok(node),
        Own::Over(one) => {
            let content = Box::new(alloc, only(contents, steps))?;
            Ok(over_one(n, one, content, steps))
        }
        Own::Rows(names) => Ok(Node::row(names, n, nodes_of(alloc, contents)?, steps)),
        Own::Union(tags, index) => {
            let contents = nodes_of(alloc, contents)?;
            Ok(Node::union(tags, index, contents, steps))
        }
    }
}
