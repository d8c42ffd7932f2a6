//! What an item of a node is, one level down.
ghost use Rattle.std.specs.Prelude.{◌≡◌, ◌+◌, ◌*◌, ◌<◌, ◌≤◌, ◌^◌};
ghost use Rattle.awk_lanes.specs.Places.{size_of, IsSpan};
ghost use Rattle.awk_layout.specs.Layout.{layouts_from, height, regular, union};
ghost use Rattle.awk_layout.specs.Numbered.{IsNumbered};
ghost use Rattle.awk_layout.specs.Valid.{len, IsUnion, IsValid};
ghost use Rattle.awk_layout.specs.Item.{item};
ghost use Rattle.awk_layout.specs.Place.{case_of, value_of, span_between, IsWithin};
ghost use Rattle.awk_layout.specs.Shown.{shown};

use crate::node::{Inner, Node, Nodes};
use awk_lanes::{Lane, Num, Steps, index_at, is_set, option_place_in, place_in, tag_in, to_place};
use awk_types::Names;
use std::sync::ledger::Ledger;

/// An item, one level down.
#[derive(Drop)]
pub enum Place<'n, 'a> {
    /// A number or a truth value.
    Number(Num),
    /// The list of the content's items from place lo below place hi. An empty list is from 0
    /// below 0.
    Items {
        content: &'n Node<'a>,
        lo: u64,
        hi: u64,
    },
    /// The row of the contents' items at a place.
    Row {
        names: Option<&'n Names>,
        contents: &'n Nodes<'a>,
        place: u64,
    },
    /// Null.
    Missing,
    /// The content's item at a place.
    Through {
        content: &'n Node<'a>,
        place: u64,
    },
    /// Of the alternative with this tag, the item at a place.
    Alternative {
        tag: u64,
        content: &'n Node<'a>,
        place: u64,
    },
}

impl<'a> Node<'a> {
    /// The item at place i, one level down.
    pub fn place<L: Ledger>(&self, i: u64, steps: &mut Steps<L>) -> Place<'_, 'a>
        requires { i < len self.now }
        ensures case { shown result ≡ case_of self.now i }
        ensures value { item self.now i ≡ value_of (shown result) }
        ensures within { IsWithin (height self.now) (shown result) }
        ensures valid { IsValid self.now }
        ensures numbered { IsNumbered self.now }
        ensures cost { steps.new ≤ steps.old + 2 }
    {
        self.one_level(i, steps)
    }

    /// What `place` answers.
    fn one_level<L: Ledger>(&self, i: u64, steps: &mut Steps<L>) -> Place<'_, 'a>
        requires { i < len self.now }
        ensures case { shown result ≡ case_of self.now i }
        ensures valid { IsValid self.now }
        ensures numbered { IsNumbered self.now }
        ensures cost { steps.new ≤ steps.old + 2 }
    {
        match &self.inner {
            Inner::Empty => unreachable!(),
            Inner::Numpy(lane) => Place::Number(lane.at(i, steps)),
            Inner::Regular(size, n, content) => block(*size, *n, content, i),
            Inner::List(starts, stops, content) => {
                let start = index_at(starts, i, steps);
                let stop = index_at(stops, i, steps);
                span(content, start, stop)
            }
            Inner::ListOffset(offsets, content) => {
                let start = index_at(offsets, i, steps);
                let stop = index_at(offsets, i + 1, steps);
                span(content, start, stop)
            }
            Inner::Row(names, _, contents) => Place::Row {
                names: names.as_ref(),
                contents,
                place: i,
            },
            Inner::Indexed(index, content) => Place::Through {
                content,
                place: place_in(index, i, steps),
            },
            Inner::IndexedOption(index, content) => match option_place_in(index, i, steps) {
                Some(place) => Place::Through { content, place },
                None => Place::Missing,
            },
            Inner::ByteMasked(mask, valid_when, content) => {
                if is_set(mask, i, steps) == *valid_when {
                    Place::Through { content, place: i }
                } else {
                    Place::Missing
                }
            }
            Inner::BitMasked(mask, valid_when, content) => {
                if mask.at(i, steps) == *valid_when {
                    Place::Through { content, place: i }
                } else {
                    Place::Missing
                }
            }
            Inner::Unmasked(_, content) => Place::Through { content, place: i },
            Inner::Union(tags, index, contents) => alternative(tags, index, contents, i, steps),
        }
    }
}

/// The list of the content's items from a place below another.
fn span<'n, 'a>(content: &'n Node<'a>, start: i64, stop: i64) -> Place<'n, 'a>
    requires { IsSpan (len content.now) start stop }
    ensures { shown result ≡ span_between content.now start stop }
{
    if start == stop {
        Place::Items {
            content,
            lo: 0,
            hi: 0,
        }
    } else {
        Place::Items {
            content,
            lo: to_place(start),
            hi: to_place(stop),
        }
    }
}

/// List i of n lists of one size.
fn block<'n, 'a>(size: u64, n: u64, content: &'n Node<'a>, i: u64) -> Place<'n, 'a>
    requires reach { n * size ≤ len content.now }
    requires small { len content.now < 2 ^ 63 }
    requires within { i < n }
    ensures { shown result ≡ case_of (regular size n content.now) i }
{
    if size == 0 {
        Place::Items {
            content,
            lo: 0,
            hi: 0,
        }
    } else {
        let lo = i * size;
        Place::Items {
            content,
            lo,
            hi: lo + size,
        }
    }
}

/// The item of a union at place i.
fn alternative<'n, 'a, L: Ledger>(
    tags: &'n Lane<'a>,
    index: &'n Lane<'a>,
    contents: &'n Nodes<'a>,
    i: u64,
    steps: &mut Steps<L>,
) -> Place<'n, 'a>
    requires valid { IsUnion tags.now index.now (layouts_from contents.now) }
    requires within { i < size_of tags.now }
    ensures case { shown result ≡ case_of (union tags.now index.now (layouts_from contents.now)) i }
    ensures cost { steps.new ≡ steps.old + 2 }
{
    let tag = tag_in(tags, i, steps);
    let place = place_in(index, i, steps);
    Place::Alternative {
        tag,
        content: contents.get(tag as usize),
        place,
    }
}
