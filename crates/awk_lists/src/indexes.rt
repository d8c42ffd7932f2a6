//! The places of the items of each list.
ghost use Rattle.std.specs.Prelude.{◌≡◌, ◌<◌, ◌≤◌, Some, IfOk};
ghost use Rattle.awk_types.specs.Faults.{fault_told};
ghost use Rattle.awk_types.specs.Gives.{Gives};
ghost use Rattle.awk_types.specs.ItemLimit.{item_limit};
ghost use Rattle.awk_lanes.specs.Counted.{before};
ghost use Rattle.awk_lanes.specs.Places.{size_of};
ghost use Rattle.awk_columns.specs.Lists.{span_length};
ghost use Rattle.awk_list_functions.specs.Made.{IsMade};
ghost use Rattle.awk_layout.specs.Datum.{datum_of, IsDatum};
ghost use Rattle.awk_lists.specs.LocalIndex.{local_index_function, local_index_of, local_lane};

use awk_axis::lift_at;
use awk_columns::{Bounds, Lists, places_of};
use awk_lanes::{Arena, Items, Lane, Lengths, Num, Steps, number, offsets_within, ordinals};
use awk_layout::{Datum, Node};
use awk_list_ends::even_total;
use awk_list_functions::{ListOp, Made, Refusal, Spoil};
use awk_types::{Fault, ITEM_LIMIT, NoMemory, Prim, Typ};
use std::alloc::Global;
use std::sync::ledger::Ledger;

/// The places of the items of lists.
#[derive(Drop)]
struct LocalPlaces<'b, 'r, 'a> {
    lists: &'b Bounds<'r, 'a>,
}

impl<'b, 'r, 'a> Lengths for LocalPlaces<'b, 'r, 'a> {
    ghost use Rattle.awk_lanes.specs.Places.{size_of};
    ghost use Rattle.awk_columns.specs.Lists.{span_length};

    ghost length = { λ f. span_length f.lists.now.starts f.lists.now.stops };

    ghost size = { λ f. size_of f.lists.now.starts };

    fn length<L: Ledger>(&self, i: u64, _steps: &mut Steps<L>) -> u64 {
        self.lists.length_at(i)
    }
}

impl<'b, 'r, 'a> Items for LocalPlaces<'b, 'r, 'a> {
    ghost use Rattle.std.specs.Prelude.{pos};
    ghost use Rattle.awk_lanes.specs.declared.kind.Kind.TheVariants as Kind;

    ghost kind = { λ _. Kind.I64 };

    ghost at = { λ _ i k. pos k };

    fn item<L: Ledger>(&self, i: u64, k: u64, _steps: &mut Steps<L>) -> Num {
        let _ = self.lists.length_at(i);
        number(k)
    }
}

/// The places of the items of the first n lists, one list after another. Those of one list are told
/// by their bounds where they are many.
fn local_items<'a, L: Ledger>(
    n: u64,
    total: u64,
    places: &LocalPlaces,
    arena: &'a Arena,
    steps: &mut Steps<L>,
) -> Result<Lane<'a>, NoMemory>
    requires within { n ≤ size_of places.now.lists.now.starts }
    requires total { total
        ≡ before (span_length places.now.lists.now.starts places.now.lists.now.stops) n }
    requires few { total ≤ item_limit }
    ensures { let lists = places.now.lists.now in
        IfOk result (λ r. r ≡ local_lane lists.starts lists.stops n) }
{
    if n == 1 {
        return ordinals(total, arena, steps);
    }
    places_of(n, total, places, arena, steps)
}

/// The places of the items of lists, as lists of the same lengths.
fn local_places<'a, L: Ledger>(
    alloc: Global,
    lists: &Lists<'a>,
    arena: &'a Arena,
    steps: &mut Steps<L>,
) -> Result<Made<'a>, NoMemory>
    ensures { IfOk result (IsMade local_index_function lists.now.class lists.now.starts
        lists.now.stops lists.now.content) }
{
    let n = lists.len();
    let _ = lists.content();
    let bounds = Bounds::new(alloc, lists, arena, steps)?;
    let places = LocalPlaces { lists: &bounds };
    match offsets_within(ITEM_LIMIT, n, &places, arena, steps)? {
        None => Ok(Made::Spoiled(Spoil::Size)),
        Some(offsets) => {
            let items = local_items(n, offsets.total, &places, arena, steps)?;
            Ok(Made::Lists {
                offsets: offsets.lane,
                content: Node::numpy(items, steps),
            })
        }
    }
}

/// The same of lists of one size: no lane tells where these begin.
fn even_places<'a, L: Ledger>(
    alloc: Global,
    size: u64,
    lists: &Lists<'a>,
    arena: &'a Arena,
    steps: &mut Steps<L>,
) -> Result<Made<'a>, NoMemory>
    requires class { lists.now.class ≡ Some size }
    ensures { IfOk result (IsMade local_index_function lists.now.class lists.now.starts
        lists.now.stops lists.now.content) }
{
    let n = lists.len();
    let _ = lists.content();
    match even_total(n, size) {
        None => Ok(Made::Spoiled(Spoil::Size)),
        Some(total) => {
            let bounds = Bounds::new(alloc, lists, arena, steps)?;
            let places = LocalPlaces { lists: &bounds };
            let items = local_items(n, total, &places, arena, steps)?;
            Ok(Made::Even(Node::numpy(items, steps)))
        }
    }
}

/// The places of a list's items.
#[derive(Clone, Copy, Debug, PartialEq, Eq)]
struct LocalIndex;

impl ListOp for LocalIndex {
    ghost function = { λ f. local_index_function };

    fn refusal(&self, _item: &Typ) -> Option<Refusal> {
        None
    }

    fn typ(&self, _alloc: Global, _item: &Typ) -> Result<Typ, NoMemory> {
        Ok(Typ::Leaf(Prim::I64))
    }

    fn gives_lists(&self) -> bool {
        true
    }

    fn class(&self, class: Option<u64>) -> Option<u64> {
        class
    }

    fn tells_index(&self) -> bool {
        false
    }

    fn counts_given(&self) -> bool {
        true
    }

    fn column<'a, L: Ledger>(
        &self,
        alloc: Global,
        lists: &Lists<'a>,
        arena: &'a Arena,
        steps: &mut Steps<L>,
    ) -> Result<Made<'a>, NoMemory> {
        match lists.class() {
            Some(size) => even_places(alloc, size, lists, arena, steps),
            None => local_places(alloc, lists, arena, steps),
        }
    }
}

/// The places 0, 1 and so on of the items of each list at an axis. Lists keep their class.
pub fn local_index<'a, L: Ledger>(
    alloc: Global,
    x: &Datum<'a>,
    axis: i64,
    arena: &'a Arena,
    steps: &mut Steps<L>,
) -> Result<Datum<'a>, Fault>
    requires datum { IsDatum x.now }
    ensures answer { Gives datum_of fault_told result (local_index_of axis (datum_of x.now)) }
    ensures datum { IfOk result (λ made. IsDatum made) }
{
    lift_at(alloc, &LocalIndex, x, axis, arena, steps)
}
