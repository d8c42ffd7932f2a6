//! The item at a place of each list.
ghost use Rattle.std.specs.Prelude.{◌≡◌, ◌<◌, ◌≤◌, IfOk, IfSome};
ghost use Rattle.awk_types.specs.Faults.{fault_told};
ghost use Rattle.awk_types.specs.Gives.{Gives};
ghost use Rattle.awk_lanes.specs.Places.{size_of, IsIndex};
ghost use Rattle.awk_lanes.specs.declared.kind.Kind.TheVariants as Kind;
ghost use Rattle.awk_layout.specs.Datum.{IsDatum, datum_of};
ghost use Rattle.awk_layout.specs.Layout.{flat};
ghost use Rattle.awk_layout.specs.Valid.{len, IsValid};
ghost use Rattle.awk_gather.specs.Arrays.{IsGathered};
ghost use Rattle.awk_list_functions.specs.Made.{IsMade};
ghost use Rattle.awk_at_each.specs.Each as each;
ghost use Rattle.awk_at_each.specs.Each.{item_place, AreItems};

use crate::source::{AtPlaces, Itself};
use awk_axis::lift_at;
use awk_columns::{Bounds, Lists};
use awk_gather::gather;
use awk_index::Index;
use awk_lanes::{Arena, IndexMaker, Lane, NoMemory, Steps};
use awk_layout::{Array, Datum, Node, wide_numbers};
use awk_list_functions::{ListOp, Made, Refusal, Spoil};
use awk_select::place_in;
use awk_types::{Fault, Typ, copy_type};
use std::alloc::Global;
use std::sync::ledger::Ledger;

/// The item at a place of each list at axis 1: of an array the lists directly inside its items, of
/// a single value those inside its lists. A negative place counts from the end. Options, rows and
/// unions are gone through, where null stays null.
///
/// `Axis` tells that there is no list somewhere, `Depth` and `Size` the limit that the type of the
/// result passes, and `Index` that some list lacks the place. `Size` tells also that the array, or
/// lists above, have more than 1,073,741,824 items.
pub fn at_each<'a, L: Ledger>(
    alloc: Global,
    x: &Datum<'a>,
    i: i64,
    arena: &'a Arena,
    steps: &mut Steps<L>,
) -> Result<Datum<'a>, Fault>
    requires datum { IsDatum x.now }
    ensures answer { Gives datum_of fault_told result (each.at_each_of i (datum_of x.now)) }
    ensures datum { IfOk result (λ made. IsDatum made) }
{
    lift_at(alloc, &ItemAt { place: i }, x, 1, arena, steps)
}

// Where in the content the item of list j lies.
#[inline(always)]
fn item_place(lists: &Bounds, i: i64, j: u64) -> Option<u64>
    requires { j < size_of lists.now.starts }
    ensures place { result ≡ item_place i lists.now.starts lists.now.stops j }
    ensures within { IfSome result (λ k. k < len lists.now.content) }
{
    let span = lists.span_of(j);
    match place_in(span.length, i) {
        Some(k) => Some(span.start + k),
        None => None,
    }
}

// What stands at the item of each list, if each has one.
#[tactic(auto, using(awk_lanes::proofs::MadeLanes::making))]
fn item_lane<'a, S: AtPlaces>(
    lists: &Bounds,
    i: i64,
    source: &S,
    arena: &'a Arena,
) -> Result<Option<Lane<'a>>, NoMemory>
    requires { len lists.now.content ≤ S.size source.now }
    ensures { IfOk result (AreItems i lists.now.starts lists.now.stops (S.at source.now)) }
{
    let n = lists.len();
    let mut maker = IndexMaker::new(n, arena)?;
    for j in 0..n {
        let Some(place) = item_place(lists, i, j) else {
            return Ok(None);
        };
        maker.push(source.read(place));
    }
    Ok(Some(maker.finish()))
}

// The items of an array at places, as a node.
fn items_at<'a, L: Ledger>(
    alloc: Global,
    x: &Array<'a>,
    places: &Lane<'a>,
    arena: &'a Arena,
    steps: &mut Steps<L>,
) -> Result<Node<'a>, NoMemory>
    requires kind { places.now.kind ≡ Kind.I64 }
    requires places { IsIndex places.now (len x.now) }
    ensures gathered { IfOk result (λ made. IsGathered x.now places.now made) }
    ensures valid { IfOk result (λ made. IsValid made) }
{
    let items = gather(alloc, x, places, arena, steps)?;
    let _ = items.len();
    items.node().copy(alloc)
}

// The item of each list at place i, or that some list has none: the items are gathered by a lane of
// their places.
fn gathered_items<'a, L: Ledger>(
    alloc: Global,
    lists: &Bounds<'_, 'a>,
    i: i64,
    arena: &'a Arena,
    steps: &mut Steps<L>,
) -> Result<Made<'a>, NoMemory>
    ensures { IfOk result (IsMade (each.item_at i) lists.now.class lists.now.starts
        lists.now.stops lists.now.content) }
{
    let content = lists.content();
    let _ = content.len();
    match item_lane(lists, i, &Itself, arena)? {
        None => Ok(Made::Spoiled(Spoil::Index)),
        Some(places) => Ok(Made::Singles(items_at(alloc, content, &places, arena, steps)?)),
    }
}

// The same of numbers that lie side by side in 64 bits: each is moved as its place is found, and no
// lane of places is made.
fn moved_items<'a, L: Ledger>(
    lists: &Bounds<'_, 'a>,
    i: i64,
    numbers: &Index<'a>,
    arena: &'a Arena,
    steps: &mut Steps<L>,
) -> Result<Made<'a>, NoMemory>
    requires kind { numbers.now.kind ≡ Kind.I64 }
    requires content { lists.now.content ≡ flat numbers.now }
    ensures { IfOk result (IsMade (each.item_at i) lists.now.class lists.now.starts
        lists.now.stops lists.now.content) }
{
    let content = lists.content();
    let _ = content.len();
    let _ = lists.len();
    match item_lane(lists, i, numbers, arena)? {
        None => Ok(Made::Spoiled(Spoil::Index)),
        Some(lane) => Ok(Made::Singles(Node::numpy(lane, steps))),
    }
}

// The item of each list at place i, or that some list has none.
fn items_of<'a, L: Ledger>(
    alloc: Global,
    lists: &Lists<'a>,
    i: i64,
    arena: &'a Arena,
    steps: &mut Steps<L>,
) -> Result<Made<'a>, NoMemory>
    ensures { IfOk result (IsMade (each.item_at i) lists.now.class lists.now.starts
        lists.now.stops lists.now.content) }
{
    let bounds = Bounds::new(alloc, lists, arena, steps)?;
    match wide_numbers(bounds.content(), steps) {
        Some(numbers) => moved_items(&bounds, i, &numbers, arena, steps),
        None => gathered_items(alloc, &bounds, i, arena, steps),
    }
}

/// The item of a list at a place.
#[derive(Clone, Copy, Debug, PartialEq, Eq)]
struct ItemAt {
    place: i64,
}

impl ListOp for ItemAt {
    ghost function = { λ f. each.item_at f.place };

    fn refusal(&self, _item: &Typ) -> Option<Refusal> {
        None
    }

    fn typ(&self, alloc: Global, item: &Typ) -> Result<Typ, NoMemory> {
        copy_type(alloc, item)
    }

    fn gives_lists(&self) -> bool {
        false
    }

    fn class(&self, class: Option<u64>) -> Option<u64> {
        class
    }

    fn column<'a, L: Ledger>(
        &self,
        alloc: Global,
        lists: &Lists<'a>,
        arena: &'a Arena,
        steps: &mut Steps<L>,
    ) -> Result<Made<'a>, NoMemory> {
        items_of(alloc, lists, self.place, arena, steps)
    }
}
