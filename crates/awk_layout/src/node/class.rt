//! What a node is.
ghost use Rattle.std.specs.Prelude.{◌≡◌};
ghost use Rattle.awk_layout.specs.Class.{layout_of};
ghost use Rattle.awk_layout.specs.Numbered.{IsNumbered};
ghost use Rattle.awk_layout.specs.Valid.{len, IsValid};

use crate::node::{Inner, Node, Nodes};
use awk_bits::Bits;
use awk_lanes::Lane;
use awk_types::Names;

/// A node's class, with its lanes and contents.
#[derive(Drop)]
pub enum Class<'n, 'a> {
    Empty,
    Numpy {
        lane: &'n Lane<'a>,
    },
    Regular {
        size: u64,
        content: &'n Node<'a>,
    },
    List {
        starts: &'n Lane<'a>,
        stops: &'n Lane<'a>,
        content: &'n Node<'a>,
    },
    ListOffset {
        offsets: &'n Lane<'a>,
        content: &'n Node<'a>,
    },
    Row {
        names: Option<&'n Names>,
        contents: &'n Nodes<'a>,
    },
    Indexed {
        index: &'n Lane<'a>,
        content: &'n Node<'a>,
    },
    IndexedOption {
        index: &'n Lane<'a>,
        content: &'n Node<'a>,
    },
    ByteMasked {
        mask: &'n Lane<'a>,
        valid_when: bool,
        content: &'n Node<'a>,
    },
    BitMasked {
        mask: &'n Bits<'a>,
        valid_when: bool,
        content: &'n Node<'a>,
    },
    Unmasked {
        content: &'n Node<'a>,
    },
    Union {
        tags: &'n Lane<'a>,
        index: &'n Lane<'a>,
        contents: &'n Nodes<'a>,
    },
}

impl<'a> Node<'a> {
    /// The node's class. It takes no step.
    pub fn class(&self) -> Class<'_, 'a>
        ensures class { layout_of (len self.now) result ≡ self.now }
        ensures valid { IsValid self.now }
        ensures numbered { IsNumbered self.now }
    {
        match &self.inner {
            Inner::Empty => Class::Empty,
            Inner::Numpy(lane) => Class::Numpy { lane },
            Inner::Regular(size, _, content) => Class::Regular {
                size: *size,
                content,
            },
            Inner::List(starts, stops, content) => Class::List {
                starts,
                stops,
                content,
            },
            Inner::ListOffset(offsets, content) => Class::ListOffset { offsets, content },
            Inner::Row(names, _, contents) => Class::Row {
                names: names.as_ref(),
                contents,
            },
            Inner::Indexed(index, content) => Class::Indexed { index, content },
            Inner::IndexedOption(index, content) => Class::IndexedOption { index, content },
            Inner::ByteMasked(mask, valid_when, content) => Class::ByteMasked {
                mask,
                valid_when: *valid_when,
                content,
            },
            Inner::BitMasked(mask, valid_when, content) => Class::BitMasked {
                mask,
                valid_when: *valid_when,
                content,
            },
            Inner::Unmasked(_, content) => Class::Unmasked { content },
            Inner::Union(tags, index, contents) => Class::Union {
                tags,
                index,
                contents,
            },
        }
    }
}
