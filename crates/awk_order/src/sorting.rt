//! Each innermost list in order, and the places of its items in order.
ghost use Rattle.std.specs.Prelude.{◌≡◌, true, IfOk};
ghost use Rattle.awk_types.specs.Faults.{fault_told};
ghost use Rattle.awk_types.specs.Gives.{Gives};
ghost use Rattle.awk_types.specs.Predicates.{is_leaf};
ghost use Rattle.awk_types.specs.Simple.{present};
ghost use Rattle.awk_types.specs.View.{typ_of};
ghost use Rattle.awk_layout.specs.Datum.{datum_of, IsDatum};
ghost use Rattle.awk_layout.specs.Typing.{array_type};
ghost use Rattle.awk_list_functions.specs.Made.{IsMade};
ghost use Rattle.awk_order.specs.Sort.{sort_function, sort_of, argsort_function, argsort_of};

use crate::lists::ItemLists;
use crate::places::item_places;
use crate::values::items_in_order;
use awk_axis::lift_deep;
use awk_columns::{Joined, Lists};
use awk_lanes::{Arena, Steps};
use awk_layout::Datum;
use awk_list_functions::{ListOp, Made, Refusal, Spoil};
use awk_types::{Fault, NoMemory, Prim, Typ, are_leaves, copy_type};
use std::alloc::Global;
use std::sync::ledger::Ledger;

/// The items of lists in order.
fn sorted_lists<'a, L: Ledger>(
    alloc: Global,
    lists: &Lists<'a>,
    up: bool,
    arena: &'a Arena,
    steps: &mut Steps<L>,
) -> Result<Made<'a>, NoMemory>
    requires leaves { is_leaf (present (array_type lists.now.content)) ≡ true }
    ensures { IfOk result (IsMade (sort_function up) lists.now.class lists.now.starts
        lists.now.stops lists.now.content) }
{
    let count = lists.len();
    let _ = lists.content();
    match lists.joined(alloc, arena, steps)? {
        Joined::TooMany => Ok(Made::Spoiled(Spoil::Size)),
        Joined::Lists { offsets, content } => {
            let x = ItemLists {
                items: &content,
                offsets: &offsets,
                count,
            };
            let content = items_in_order(alloc, &x, up, arena, steps)?;
            Ok(Made::Lists { offsets, content })
        }
    }
}

/// The places of the items of lists in order.
fn lists_of_places<'a, L: Ledger>(
    alloc: Global,
    lists: &Lists<'a>,
    up: bool,
    arena: &'a Arena,
    steps: &mut Steps<L>,
) -> Result<Made<'a>, NoMemory>
    requires leaves { is_leaf (present (array_type lists.now.content)) ≡ true }
    ensures { IfOk result (IsMade (argsort_function up) lists.now.class lists.now.starts
        lists.now.stops lists.now.content) }
{
    let count = lists.len();
    let _ = lists.content();
    match lists.joined(alloc, arena, steps)? {
        Joined::TooMany => Ok(Made::Spoiled(Spoil::Size)),
        Joined::Lists { offsets, content } => {
            let x = ItemLists {
                items: &content,
                offsets: &offsets,
                count,
            };
            let content = item_places(alloc, &x, up, arena, steps)?;
            Ok(Made::Lists { offsets, content })
        }
    }
}

/// Why items that are no leaves are refused.
fn leaves_alone(item: &Typ) -> Option<Refusal>
    ensures { result ≡ (sort_function true).refusal (typ_of item.now) }
{
    if are_leaves(item) {
        None
    } else {
        Some(Refusal::WrongType)
    }
}

/// The items of a list in order.
#[derive(Clone, Copy, Debug, PartialEq, Eq)]
struct Sorting {
    up: bool,
}

impl ListOp for Sorting {
    ghost function = { λ f. sort_function f.up };

    fn refusal(&self, item: &Typ) -> Option<Refusal> {
        leaves_alone(item)
    }

    fn typ(&self, alloc: Global, item: &Typ) -> Result<Typ, NoMemory> {
        copy_type(alloc, item)
    }

    fn gives_lists(&self) -> bool {
        true
    }

    fn class(&self, class: Option<u64>) -> Option<u64> {
        class
    }

    fn tells_index(&self) -> bool {
        false
    }

    fn column<'a, L: Ledger>(
        &self,
        alloc: Global,
        lists: &Lists<'a>,
        arena: &'a Arena,
        steps: &mut Steps<L>,
    ) -> Result<Made<'a>, NoMemory> {
        sorted_lists(alloc, lists, self.up, arena, steps)
    }
}

/// The places of a list's items in order.
#[derive(Clone, Copy, Debug, PartialEq, Eq)]
struct Placing {
    up: bool,
}

impl ListOp for Placing {
    ghost function = { λ f. argsort_function f.up };

    fn refusal(&self, item: &Typ) -> Option<Refusal> {
        leaves_alone(item)
    }

    fn typ(&self, _alloc: Global, _item: &Typ) -> Result<Typ, NoMemory> {
        Ok(Typ::Leaf(Prim::I64))
    }

    fn gives_lists(&self) -> bool {
        true
    }

    fn class(&self, class: Option<u64>) -> Option<u64> {
        class
    }

    fn tells_index(&self) -> bool {
        false
    }

    fn column<'a, L: Ledger>(
        &self,
        alloc: Global,
        lists: &Lists<'a>,
        arena: &'a Arena,
        steps: &mut Steps<L>,
    ) -> Result<Made<'a>, NoMemory> {
        lists_of_places(alloc, lists, self.up, arena, steps)
    }
}

/// The items of each innermost list in order: rising or falling, and nulls last. Lists keep their
/// class and their type, and a null list is null.
///
/// `Axis` tells that x is a single leaf, `WrongType` that a record, a tuple or a union stands above
/// the leaves, and `Size` that a column of lists of x has more than 1,073,741,824 items.
pub fn sort<'a, L: Ledger>(
    alloc: Global,
    x: &Datum<'a>,
    up: bool,
    arena: &'a Arena,
    steps: &mut Steps<L>,
) -> Result<Datum<'a>, Fault>
    requires datum { IsDatum x.now }
    ensures answer { Gives datum_of fault_told result (sort_of up (datum_of x.now)) }
    ensures datum { IfOk result (λ made. IsDatum made) }
{
    lift_deep(alloc, &Sorting { up }, x, arena, steps)
}

/// The places of the items of each innermost list, in the order in which `sort` brings the items;
/// of equal ones the first comes first, rising or falling. They are int64 and never null.
///
/// The faults are those of `sort`.
pub fn argsort<'a, L: Ledger>(
    alloc: Global,
    x: &Datum<'a>,
    up: bool,
    arena: &'a Arena,
    steps: &mut Steps<L>,
) -> Result<Datum<'a>, Fault>
    requires datum { IsDatum x.now }
    ensures answer { Gives datum_of fault_told result (argsort_of up (datum_of x.now)) }
    ensures datum { IfOk result (λ made. IsDatum made) }
{
    lift_deep(alloc, &Placing { up }, x, arena, steps)
}
