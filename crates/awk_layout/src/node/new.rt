//! The twelve constructors. Each takes one step and no memory.
ghost use Rattle.std.specs.Prelude.{◌≡◌, ◌+◌, ◌*◌, ◌<◌, ◌≤◌, ◌^◌, length};
ghost use Rattle.awk_lanes.specs.Places.{size_of, IsOffsets, AreSpans, IsOptionalIndex, IsIndex};
ghost use Rattle.awk_layout.specs.Layout.{count, layouts_from, empty, flat, regular, lists};
ghost use Rattle.awk_layout.specs.Layout.{offset_lists};
ghost use Rattle.awk_layout.specs.Layout.{rows, indexed, optional, byte_masked, bit_masked};
ghost use Rattle.awk_layout.specs.Layout.{unmasked, union};
ghost use Rattle.awk_layout.specs.Valid.{len, AllReach, AreNames, IsByteMask, IsUnion};

use crate::node::{Inner, Node, Nodes};
use awk_bits::Bits;
use awk_lanes::{Lane, Steps};
use awk_types::Names;
use std::sync::ledger::Ledger;

impl<'a> Node<'a> {
    /// An EmptyArray, which has no items.
    pub fn empty<L: Ledger>(steps: &mut Steps<L>) -> Node<'a>
        ensures node { result ≡ empty }
        ensures cost { steps.new ≡ steps.old + 1 }
    {
        steps.tick();
        Node {
            inner: Inner::Empty,
        }
    }

    /// A NumpyArray: the numbers of a lane.
    pub fn numpy<L: Ledger>(lane: Lane<'a>, steps: &mut Steps<L>) -> Node<'a>
        requires { size_of lane < 2 ^ 63 }
        ensures node { result ≡ flat lane.entry }
        ensures cost { steps.new ≡ steps.old + 1 }
    {
        steps.tick();
        let _ = lane.len(); // each number is one of its kind
        Node {
            inner: Inner::Numpy(lane),
        }
    }

    /// A RegularArray: n lists of one size, each right after the one before.
    pub fn regular<L: Ledger>(
        size: u64,
        n: u64,
        content: Box<Node<'a>>,
        steps: &mut Steps<L>,
    ) -> Node<'a>
        requires length { n < 2 ^ 63 }
        requires valid { n * size ≤ len content.value }
        ensures node { result ≡ regular size n content.entry.value }
        ensures cost { steps.new ≡ steps.old + 1 }
    {
        steps.tick();
        // The content is valid, as its length tells.
        let _ = content.len();
        Node {
            inner: Inner::Regular(size, n, content),
        }
    }

    /// A ListArray: lists from their starts below their stops.
    pub fn list<L: Ledger>(
        starts: Lane<'a>,
        stops: Lane<'a>,
        content: Box<Node<'a>>,
        steps: &mut Steps<L>,
    ) -> Node<'a>
        requires length { size_of starts < 2 ^ 63 }
        requires valid { AreSpans starts stops (len content.value) }
        ensures node { result ≡ lists starts.entry stops.entry content.entry.value }
        ensures cost { steps.new ≡ steps.old + 1 }
    {
        steps.tick();
        // The content is valid, as its length tells.
        let _ = content.len();
        Node {
            inner: Inner::List(starts, stops, content),
        }
    }

    /// A ListOffsetArray: lists from each offset below the next.
    pub fn list_offset<L: Ledger>(
        offsets: Lane<'a>,
        content: Box<Node<'a>>,
        steps: &mut Steps<L>,
    ) -> Node<'a>
        requires length { size_of offsets ≤ 2 ^ 63 }
        requires valid { IsOffsets offsets (len content.value) }
        ensures node { result ≡ offset_lists offsets.entry content.entry.value }
        ensures cost { steps.new ≡ steps.old + 1 }
    {
        steps.tick();
        // The content is valid, as its length tells.
        let _ = content.len();
        Node {
            inner: Inner::ListOffset(offsets, content),
        }
    }

    /// A RecordArray: n rows with a field of each content, or a tuple of them where there are no
    /// names.
    pub fn row<L: Ledger>(
        names: Option<Names>,
        n: u64,
        contents: Nodes<'a>,
        steps: &mut Steps<L>,
    ) -> Node<'a>
        requires length { n < 2 ^ 63 }
        requires names { AreNames names (count (layouts_from contents)) }
        requires valid { AllReach n (layouts_from contents) }
        ensures node { result ≡ rows names n (layouts_from contents.entry) }
        ensures cost { steps.new ≡ steps.old + 1 }
    {
        steps.tick();
        Node {
            inner: Inner::Row(names, n, contents),
        }
    }

    /// An IndexedArray: the content's items at the places of the index.
    pub fn indexed<L: Ledger>(
        index: Lane<'a>,
        content: Box<Node<'a>>,
        steps: &mut Steps<L>,
    ) -> Node<'a>
        requires length { size_of index < 2 ^ 63 }
        requires valid { IsIndex index (len content.value) }
        ensures node { result ≡ indexed index.entry content.entry.value }
        ensures cost { steps.new ≡ steps.old + 1 }
    {
        steps.tick();
        // The content is valid, as its length tells.
        let _ = content.len();
        Node {
            inner: Inner::Indexed(index, content),
        }
    }

    /// An IndexedOptionArray: null where the index is negative, else the content's item there.
    pub fn indexed_option<L: Ledger>(
        index: Lane<'a>,
        content: Box<Node<'a>>,
        steps: &mut Steps<L>,
    ) -> Node<'a>
        requires length { size_of index < 2 ^ 63 }
        requires valid { IsOptionalIndex index (len content.value) }
        ensures node { result ≡ optional index.entry content.entry.value }
        ensures cost { steps.new ≡ steps.old + 1 }
    {
        steps.tick();
        // The content is valid, as its length tells.
        let _ = content.len();
        Node {
            inner: Inner::IndexedOption(index, content),
        }
    }

    /// A ByteMaskedArray: the content's item where the mask's byte agrees with `valid_when`, else
    /// null.
    pub fn byte_masked<L: Ledger>(
        mask: Lane<'a>,
        valid_when: bool,
        content: Box<Node<'a>>,
        steps: &mut Steps<L>,
    ) -> Node<'a>
        requires length { size_of mask < 2 ^ 63 }
        requires valid { IsByteMask mask (len content.value) }
        ensures node { result ≡ byte_masked mask.entry valid_when content.entry.value }
        ensures cost { steps.new ≡ steps.old + 1 }
    {
        steps.tick();
        // The content is valid, as its length tells.
        let _ = content.len();
        Node {
            inner: Inner::ByteMasked(mask, valid_when, content),
        }
    }

    /// A BitMaskedArray: the content's item where the mask's bit is `valid_when`, else null.
    pub fn bit_masked<L: Ledger>(
        mask: Bits<'a>,
        valid_when: bool,
        content: Box<Node<'a>>,
        steps: &mut Steps<L>,
    ) -> Node<'a>
        requires length { length mask < 2 ^ 63 }
        requires valid { length mask ≤ len content.value }
        ensures node { result ≡ bit_masked mask.entry valid_when content.entry.value }
        ensures cost { steps.new ≡ steps.old + 1 }
    {
        steps.tick();
        // The content is valid, as its length tells.
        let _ = content.len();
        Node {
            inner: Inner::BitMasked(mask, valid_when, content),
        }
    }

    /// An UnmaskedArray: the content's first n items, which are optional and all present.
    pub fn unmasked<L: Ledger>(content: Box<Node<'a>>, n: u64, steps: &mut Steps<L>) -> Node<'a>
        requires length { n < 2 ^ 63 }
        requires valid { n ≤ len content.value }
        ensures node { result ≡ unmasked n content.entry.value }
        ensures cost { steps.new ≡ steps.old + 1 }
    {
        steps.tick();
        // The content is valid, as its length tells.
        let _ = content.len();
        Node {
            inner: Inner::Unmasked(n, content),
        }
    }

    /// A UnionArray: the item at the index, of the content that the tag names.
    pub fn union<L: Ledger>(
        tags: Lane<'a>,
        index: Lane<'a>,
        contents: Nodes<'a>,
        steps: &mut Steps<L>,
    ) -> Node<'a>
        requires length { size_of tags < 2 ^ 63 }
        requires valid { IsUnion tags index (layouts_from contents) }
        ensures node { result ≡ union tags.entry index.entry (layouts_from contents.entry) }
        ensures cost { steps.new ≡ steps.old + 1 }
    {
        steps.tick();
        Node {
            inner: Inner::Union(tags, index, contents),
        }
    }
}
