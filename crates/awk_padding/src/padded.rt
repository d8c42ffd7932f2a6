//! The items of lists with nulls at their end.
ghost use Rattle.std.specs.Prelude.{◌≡◌, ◌<◌, ◌≤◌, IfOk, IsTrue};
ghost use Rattle.awk_types.specs.ItemLimit.{item_limit};
ghost use Rattle.awk_lanes.specs.Counted.{before};
ghost use Rattle.awk_lanes.specs.Numbers.{int_of, IsOf};
ghost use Rattle.awk_lanes.specs.Places.{size_of};
ghost use Rattle.awk_lanes.specs.declared.kind.Kind.TheVariants as Kinds;
ghost use Rattle.awk_layout.specs.Layout.{unmasked};
ghost use Rattle.awk_layout.specs.Valid.{len};
ghost use Rattle.awk_padding.specs.Lanes.{padded_lane, padded_place, padded_span};
ghost use Rattle.awk_padding.specs.Lanes.{ArePadded, AreUnpadded};
ghost use Rattle.awk_padding.specs.PadNone.{padded_length};

use awk_columns::{Bounds, places_of};
use awk_gather::option_over;
use awk_lanes::{Arena, Items, Lane, Lengths, Num, Steps, number, run_lane};
use awk_layout::{Array, Class, Node};
use awk_list_ends::span_or;
use awk_types::NoMemory;
use std::alloc::Global;
use std::sync::ledger::Ledger;

/// Nulls at the end of lists up to so many items; where lists are clipped, cut to so many.
#[derive(Clone, Copy, Debug, PartialEq, Eq)]
pub(crate) struct Padding {
    pub(crate) size: u64,
    pub(crate) clip: bool,
}

impl Padding {
    /// How long a list becomes.
    #[inline(always)]
    fn length_of(&self, length: u64) -> u64
        ensures { result ≡ padded_length self.now.size self.now.clip length }
    {
        if self.clip {
            self.size
        } else {
            self.size.max(length)
        }
    }
}

/// The place of item k of the list at a place, and -1 past its end.
#[inline(always)]
fn padded_place(lists: &Bounds, i: u64, k: u64) -> Num
    requires within { i < size_of lists.now.starts }
    ensures number { int_of result ≡ padded_place lists.now.starts lists.now.stops i k }
    ensures kind { IsOf Kinds.I64 result }
{
    let span = lists.span_of(i);
    if k < span.length {
        number(span.start + k)
    } else {
        Num::Int(-1)
    }
}

/// Lists with nulls at their end.
#[derive(Drop)]
pub(crate) struct PaddedLists<'b, 'r, 'a> {
    pub(crate) padding: Padding,
    pub(crate) lists: &'b Bounds<'r, 'a>,
}

impl<'b, 'r, 'a> Lengths for PaddedLists<'b, 'r, 'a> {
    ghost use Rattle.awk_lanes.specs.Places.{size_of};
    ghost use Rattle.awk_padding.specs.Lanes.{padded_span};

    ghost length = { λ f. padded_span f.padding.size f.padding.clip f.lists.now.starts
        f.lists.now.stops };

    ghost size = { λ f. size_of f.lists.now.starts };

    fn length<L: Ledger>(&self, i: u64, _steps: &mut Steps<L>) -> u64 {
        self.padding.length_of(self.lists.length_at(i))
    }
}

impl<'b, 'r, 'a> Items for PaddedLists<'b, 'r, 'a> {
    ghost use Rattle.awk_lanes.specs.declared.kind.Kind.TheVariants as Kinds;
    ghost use Rattle.awk_padding.specs.Lanes.{padded_place};

    ghost kind = { λ _. Kinds.I64 };

    ghost at = { λ f. padded_place f.lists.now.starts f.lists.now.stops };

    fn item<L: Ledger>(&self, i: u64, k: u64, _steps: &mut Steps<L>) -> Num {
        padded_place(self.lists, i, k)
    }
}

/// Whether no list is padded and none is cut, and the lists fill what holds their items.
fn are_unpadded(padded: &PaddedLists) -> bool
    ensures { let lists = padded.now.lists.now in
        IsTrue result → AreUnpadded padded.now.padding.size padded.now.padding.clip lists.starts
        lists.stops (len lists.content) }
{
    let lists = padded.lists;
    let whole = lists.content().len();
    let mut place = 0;
    for i in 0..lists.len() {
        let span = span_or(lists, i, place);
        if span.start != place {
            return false;
        }
        let long = padded.padding.length_of(span.length);
        if long != span.length {
            return false;
        }
        place += span.length;
    }
    if place != whole {
        return false;
    }
    true
}

/// Whether what is put over an array lies over no option, index or union.
fn is_bare(x: &Array) -> bool {
    match x.node().class() {
        Class::Numpy { .. } | Class::List { .. } | Class::ListOffset { .. } => true,
        Class::Regular { .. } | Class::Row { .. } => true,
        _ => false,
    }
}

/// An array as an option without nulls.
fn option_of_all<'a, L: Ledger>(
    alloc: Global,
    content: &Array<'a>,
    steps: &mut Steps<L>,
) -> Result<Node<'a>, NoMemory>
    ensures { IfOk result (λ node. node ≡ unmasked (len content.now) content.now) }
{
    let n = content.len();
    let inner = Box::new(alloc, content.node().copy(alloc)?)?;
    Ok(Node::unmasked(inner, n, steps))
}

/// The places of the items of padded lists, and -1 past the end of each. Those of one list are told
/// by their bounds where they are many.
fn padded_places<'a, L: Ledger>(
    padded: &PaddedLists<'_, '_, 'a>,
    total: u64,
    arena: &'a Arena,
    steps: &mut Steps<L>,
) -> Result<Lane<'a>, NoMemory>
    requires { let lists = padded.now.lists.now in
        total ≡ before (padded_span padded.now.padding.size padded.now.padding.clip lists.starts
        lists.stops) (size_of lists.starts) }
    ensures { let lists = padded.now.lists.now in
        IfOk result (λ r. r ≡ padded_lane padded.now.padding.size padded.now.padding.clip
        lists.starts lists.stops) }
{
    let n = padded.lists.len();
    if n == 1 {
        let span = padded.lists.span_of(0);
        return run_lane(total, span.start, span.length, arena);
    }
    places_of(n, total, padded, arena, steps)
}

/// The items behind an index, which is composed with what it is put over.
fn wide_items<'a, L: Ledger>(
    alloc: Global,
    padded: &PaddedLists<'_, '_, 'a>,
    total: u64,
    arena: &'a Arena,
    steps: &mut Steps<L>,
) -> Result<Node<'a>, NoMemory>
    requires total { let lists = padded.now.lists.now in
        total ≡ before (padded_span padded.now.padding.size padded.now.padding.clip lists.starts
        lists.stops) (size_of lists.starts) }
    requires limit { total ≤ item_limit }
    ensures { let lists = padded.now.lists.now in
        IfOk result (ArePadded padded.now.padding.size padded.now.padding.clip lists.starts
        lists.stops lists.content) }
{
    let content = padded.lists.content();
    let _ = content.len();
    let places = padded_places(padded, total, arena, steps)?;
    let items = option_over(alloc, content.node(), &places, arena, steps)?;
    let _ = items.len();
    Ok(items)
}

/// The items as they lie, where no list is padded and none is cut: an option without nulls.
fn whole_items<'a, L: Ledger>(
    alloc: Global,
    padded: &PaddedLists<'_, '_, 'a>,
    steps: &mut Steps<L>,
) -> Result<Node<'a>, NoMemory>
    requires { let lists = padded.now.lists.now in
        AreUnpadded padded.now.padding.size padded.now.padding.clip lists.starts lists.stops
        (len lists.content) }
    ensures { let lists = padded.now.lists.now in
        IfOk result (ArePadded padded.now.padding.size padded.now.padding.clip lists.starts
        lists.stops lists.content) }
{
    let content = padded.lists.content();
    let _ = content.len();
    option_of_all(alloc, content, steps)
}

/// The items of padded lists, of which there are `total`. Where none is padded and none is cut they
/// stay where they lie, and no lane is made.
pub(crate) fn padded_items<'a, L: Ledger>(
    alloc: Global,
    padded: &PaddedLists<'_, '_, 'a>,
    total: u64,
    arena: &'a Arena,
    steps: &mut Steps<L>,
) -> Result<Node<'a>, NoMemory>
    requires total { let lists = padded.now.lists.now in
        total ≡ before (padded_span padded.now.padding.size padded.now.padding.clip lists.starts
        lists.stops) (size_of lists.starts) }
    requires limit { total ≤ item_limit }
    ensures { let lists = padded.now.lists.now in
        IfOk result (ArePadded padded.now.padding.size padded.now.padding.clip lists.starts
        lists.stops lists.content) }
{
    let content = padded.lists.content();
    if is_bare(content) {
        if are_unpadded(padded) {
            return whole_items(alloc, padded, steps);
        }
    }
    wide_items(alloc, padded, total, arena, steps)
}
