//! Nodes: layouts that own their contents and borrow their lanes.
ghost use Rattle.std.specs.Prelude.{◌≡◌, ◌<◌, ◌++◌, ◌∷◌, [], length, slice_get, Some, OnOk, OnErr};
ghost use Rattle.awk_layout.specs.Numbered.{IsNumbered};
ghost use Rattle.awk_layout.specs.Valid.{len, IsValid};

use awk_bits::Bits;
use awk_lanes::Lane;
use awk_types::{Names, NoMemory};
use std::alloc::Global;
use std::marker::Model;

pub mod class;
mod copy;
mod new;
pub mod place;

/// A node of a layout. It is valid whatever made it: its lanes are long enough, of an allowed kind,
/// and name only places, tags and lists that its contents have, and so are its contents.
#[cycle(node)]
pub struct Node<'a> {
    inner: Inner<'a>,
}

#[cycle(node)]
#[derive(Drop)]
enum Inner<'a> {
    Empty,
    Numpy(Lane<'a>),
    Regular(u64, u64, Box<Node<'a>>),
    List(Lane<'a>, Lane<'a>, Box<Node<'a>>),
    ListOffset(Lane<'a>, Box<Node<'a>>),
    Row(Option<Names>, u64, Nodes<'a>),
    Indexed(Lane<'a>, Box<Node<'a>>),
    IndexedOption(Lane<'a>, Box<Node<'a>>),
    ByteMasked(Lane<'a>, bool, Box<Node<'a>>),
    BitMasked(Bits<'a>, bool, Box<Node<'a>>),
    Unmasked(u64, Box<Node<'a>>),
    Union(Lane<'a>, Lane<'a>, Nodes<'a>),
}

/// Nodes in order, as the contents of one node.
#[cycle(node)]
pub struct Nodes<'a> {
    nodes: Vec<Node<'a>>,
}

// Both drops are written out, so that whoever drops a node sees one call and not its classes.

impl Drop for Node<'_> {
    #[cycle(node)]
    fn drop(self) {
        let Node { inner } = self;
        let_go(inner);
    }
}

#[cycle(node)]
fn let_go(_inner: Inner<'_>) {}

impl Drop for Nodes<'_> {
    #[cycle(node)]
    fn drop(self) {
        let Nodes { nodes } = self;
        let_all_go(nodes);
    }
}

#[cycle(node)]
fn let_all_go(_nodes: Vec<Node<'_>>) {}

impl<'a> Model for Node<'a> {
    ghost use Rattle.std.specs.Prelude.{◌*◌};
    ghost use Rattle.awk_layout.specs.Layout.{Layout, height};
    ghost use Rattle.awk_layout.specs.Code.{coded_layout};

    ghost Value = { Layout };

    ghost coded = { coded_layout };

    ghost use Rattle.awk_layout.specs.Inner.{layout_of_inner};
    ghost use Rattle.awk_layout.specs.Valid.{IsValid};
    ghost use Rattle.awk_layout.specs.Numbered.{IsNumbered};

    ghost view = { λ a. layout_of_inner a.inner };

    ghost invariant = { λ a.
        IsValid (layout_of_inner a.inner) × IsNumbered (layout_of_inner a.inner) };

    ghost size = { λ x. 2 * height x };

    ghost use Rattle.awk_layout.specs.Falls.{node_falls};

    ghost size_decreases = { λ a h. node_falls a.inner };
}

impl<'a> Model for Nodes<'a> {
    ghost use Rattle.std.specs.Prelude.{List, ◌*◌, ◌+◌};
    ghost use Rattle.std.specs.Coded.{coded_list};
    ghost use Rattle.awk_layout.specs.Layout.{Layout, layouts_from, heights};
    ghost use Rattle.awk_layout.specs.Code.{coded_layout};

    ghost Value = { List Layout };

    ghost coded = { coded_list coded_layout };

    ghost use Rattle.awk_layout.specs.Valid.{AllValid};
    ghost use Rattle.awk_layout.specs.Numbered.{AreNumbered};

    ghost view = { λ a. a.nodes.items };

    ghost invariant = { λ a.
        AllValid (layouts_from a.nodes.items) × AreNumbered (layouts_from a.nodes.items) };

    ghost size = { λ xs. 2 * heights (layouts_from xs) + 1 };

    ghost use Rattle.awk_layout.specs.Falls.{nodes_fall};

    ghost size_decreases = { λ a h. nodes_fall a.nodes.items };
}

impl<'a> Node<'a> {
    /// The number of items.
    pub fn len(&self) -> u64
        ensures len { result ≡ len self.now }
        ensures valid { IsValid self.now }
        ensures numbered { IsNumbered self.now }
    {
        match &self.inner {
            Inner::Empty => 0,
            Inner::Numpy(lane) => lane.len(),
            Inner::Regular(_, n, _) | Inner::Row(_, n, _) | Inner::Unmasked(n, _) => *n,
            Inner::List(starts, _, _) => starts.len(),
            Inner::ListOffset(offsets, _) => offsets.len() - 1,
            Inner::Indexed(index, _) | Inner::IndexedOption(index, _) => index.len(),
            Inner::ByteMasked(mask, _, _) => mask.len(),
            Inner::BitMasked(mask, _, _) => mask.len(),
            Inner::Union(tags, _, _) => tags.len(),
        }
    }
}

impl<'a> Nodes<'a> {
    /// No nodes.
    pub fn new(alloc: Global) -> Nodes<'a>
        ensures { result ≡ [] }
    {
        Nodes {
            nodes: Vec::new(alloc),
        }
    }

    /// Puts a node at the end.
    pub fn push(&mut self, item: Node<'a>) -> Result<(), NoMemory>
        ensures ok { OnOk result (self.new ≡ self.old ++ item.entry ∷ []) }
        ensures err { OnErr result (self.new ≡ self.old) }
    {
        let _ = &item.inner;
        self.nodes.push(item)?;
        Ok(())
    }

    /// How many nodes there are.
    pub fn len(&self) -> usize
        ensures { result ≡ length self.now }
    {
        self.nodes.len()
    }

    /// The node at a place.
    pub fn get(&self, i: usize) -> &Node<'a>
        requires { i < length self.now }
        ensures { slice_get self.now i ≡ Some result.now }
    {
        &self.nodes[i]
    }
}
