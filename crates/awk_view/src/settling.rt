//! Settling: what a single value is as a datum.
ghost use Rattle.std.specs.Prelude.{◌≡◌, ◌+◌, ◌*◌, ◌<◌, ◌≤◌, slice_range, get_or, None, IfOk};
ghost use Rattle.awk_types.specs.Limit.{limit};
ghost use Rattle.awk_types.specs.Settle.{settle};
ghost use Rattle.awk_types.specs.Value.{null};
ghost use Rattle.awk_layout.specs.Datum.{datum_of, first_item, IsDatum, kept};
ghost use Rattle.awk_layout.specs.Layout.{weight, height};
ghost use Rattle.awk_layout.specs.Typing.{array_type, array_items};
ghost use Rattle.awk_layout.specs.Valid.{len};
ghost use Rattle.awk_view.specs.End.{IsEnd, IsItemOf, IsOneOf, IsArrOf, end_weight};

use awk_lanes::Steps;
use awk_layout::{Array, Datum, Node, Place};
use awk_range::range;
use awk_types::{NoMemory, TypeFault};
use std::alloc::{AllocError, Global};
use std::sync::ledger::Ledger;

/// The datum that the only item of an array is. Null stays a single value of the optional type, a
/// present value loses its option, and an alternative its union. Then a list is the array of its
/// items, and all else a single value.
///
/// At most 4 steps are taken for each node of the array, and what is given has no more nodes and is
/// no higher.
pub fn settled<'a, L: Ledger>(
    alloc: Global,
    x: &Array<'a>,
    steps: &mut Steps<L>,
) -> Result<Datum<'a>, NoMemory>
    requires one { len x.now ≡ 1 }
    ensures settled { IfOk result (λ d.
        datum_of d ≡ settle (array_type x.now) (first_item x.now)) }
    ensures one { IfOk result IsDatum }
    ensures cost { steps.new ≤ steps.old + 4 * weight x.now }
    ensures nodes { IfOk result (λ d. weight (kept d) ≤ weight x.now) }
    ensures height { IfOk result (λ d. height (kept d) ≤ height x.now) }
{
    item_at(alloc, x, 0, steps)
}

/// The datum that the item of an array at a place is, settled as by `settled`.
///
/// At most 6 steps are taken for each node of the array, and 4 where it has one item. What is given
/// has no more nodes and is no higher.
pub fn item_at<'a, L: Ledger>(
    alloc: Global,
    x: &Array<'a>,
    i: u64,
    steps: &mut Steps<L>,
) -> Result<Datum<'a>, NoMemory>
    requires within { i < len x.now }
    ensures settled { IfOk result (λ d.
        datum_of d ≡ settle (array_type x.now) (get_or (array_items x.now) i null)) }
    ensures one { IfOk result IsDatum }
    ensures cost { steps.new ≤ steps.old + 6 * weight x.now }
    ensures cost_of_one { len x.now ≡ 1 → steps.new ≤ steps.old + 4 * weight x.now }
    ensures nodes { IfOk result (λ d. weight (kept d) ≤ weight x.now) }
    ensures height { IfOk result (λ d. height (kept d) ≤ height x.now) }
{
    let _ = x.typ(); // it passes no limit
    match end_of(x.node(), i, steps) {
        End::Null => Ok(Datum::One(item(alloc, x, i, steps)?)),
        End::Single { content, place } => single(alloc, content, place, steps),
        End::Items { content, lo, hi } => items(alloc, content, lo, hi, steps),
    }
}

// Where an item settles.
#[derive(Drop)]
enum End<'n, 'a> {
    // It is null, and stays.
    Null,
    // The number, the truth value or the row at a place of a node.
    Single {
        content: &'n Node<'a>,
        place: u64,
    },
    // The items of a node from place lo below place hi.
    Items {
        content: &'n Node<'a>,
        lo: u64,
        hi: u64,
    },
}

// Where the item of a node at place i settles: below its options, indexes and unions.
#[cycle(end_of)]
fn end_of<'n, 'a, L: Ledger>(x: &'n Node<'a>, i: u64, steps: &mut Steps<L>) -> End<'n, 'a>
    requires { i < len x.now }
    ensures end { IsEnd x.now i result }
    ensures cost { steps.new + 2 * end_weight result ≤ steps.old + 2 * weight x.now + 2 }
{
    match x.place(i, steps) {
        Place::Number(_) | Place::Row { .. } => End::Single {
            content: x,
            place: i,
        },
        Place::Items { content, lo, hi } => End::Items { content, lo, hi },
        Place::Missing => End::Null,
        Place::Through { content, place } => end_of(content, place, steps),
        Place::Alternative { content, place, .. } => end_of(content, place, steps),
    }
}

// The item at place i alone: an array of one item is it already.
fn item<'a, L: Ledger>(
    alloc: Global,
    x: &Array<'a>,
    i: u64,
    steps: &mut Steps<L>,
) -> Result<Array<'a>, NoMemory>
    requires { i < len x.now }
    ensures item { IfOk result (IsItemOf x.now i) }
    ensures cost { steps.new ≤ steps.old + 4 * weight x.now }
    ensures cost_of_one { len x.now ≡ 1 → steps.new ≡ steps.old }
{
    if x.len() == 1 {
        x.copy(alloc)
    } else {
        range(alloc, x, i, i + 1, steps)
    }
}

// The item of a node at a place as a single value.
fn single<'a, L: Ledger>(
    alloc: Global,
    content: &Node<'a>,
    place: u64,
    steps: &mut Steps<L>,
) -> Result<Datum<'a>, NoMemory>
    requires limit { limit (array_type content.now) ≡ None }
    requires within { place < len content.now }
    ensures single { IfOk result (IsOneOf content.now place) }
    ensures cost { steps.new ≤ steps.old + 4 * weight content.now }
    ensures cost_of_one { len content.now ≡ 1 → steps.new ≡ steps.old }
{
    let content = array_of(alloc, content)?;
    Ok(Datum::One(item(alloc, &content, place, steps)?))
}

// The items of a node from place lo below place hi as an array.
fn items<'a, L: Ledger>(
    alloc: Global,
    content: &Node<'a>,
    lo: u64,
    hi: u64,
    steps: &mut Steps<L>,
) -> Result<Datum<'a>, NoMemory>
    requires limit { limit (array_type content.now) ≡ None }
    requires order { lo ≤ hi }
    requires within { hi ≤ len content.now }
    ensures items { IfOk result (IsArrOf content.now lo hi) }
    ensures cost { steps.new ≤ steps.old + 4 * weight content.now }
{
    let content = array_of(alloc, content)?;
    Ok(Datum::Arr(range(alloc, &content, lo, hi, steps)?))
}

// The array of a copy of a node whose type passes no limit.
fn array_of<'a>(alloc: Global, x: &Node<'a>) -> Result<Array<'a>, NoMemory>
    requires { limit (array_type x.now) ≡ None }
    ensures { IfOk result (λ array. array ≡ x.now) }
{
    match Array::new(alloc, x.copy(alloc)?) {
        Ok(array) => Ok(array),
        Err(TypeFault::NoMemory) => Err(AllocError),
        Err(TypeFault::Depth | TypeFault::Size) => unreachable!(),
    }
}
