//! Histograms of all leaves, and of each innermost list.
ghost use Rattle.std.specs.Prelude.{◌≡◌, ◌*◌, ◌<◌, ◌≤◌, ◌^◌, nat_le, true, length, IfOk};
ghost use Rattle.awk_types.specs.Faults.{fault_told};
ghost use Rattle.awk_types.specs.Datum as shown;
ghost use Rattle.awk_types.specs.Gives.{Gives};
ghost use Rattle.awk_types.specs.ItemLimit.{item_limit};
ghost use Rattle.awk_types.specs.Simple.{present};
ghost use Rattle.awk_types.specs.WholeNumbers.{is_numbers};
ghost use Rattle.awk_layout.specs.Datum.{datum_of, IsDatum};
ghost use Rattle.awk_layout.specs.Typing.{array_type, array_items};
ghost use Rattle.awk_list_functions.specs.Made.{IsMade};
ghost use Rattle.awk_bins.specs.Edges.{are_edges};
ghost use Rattle.awk_hist.specs.Bins.{bins_and, bins_type};
ghost use Rattle.awk_hist.specs.Hist.{has_numbers, hist_of, hist_of_array};
ghost use Rattle.awk_hist.specs.HistEach.{bins_function, histogram};
ghost use Rattle.awk_hist.specs.Lists.{IsInnermost};
ghost use Rattle.awk_hist.specs.Totals.{CountsAll};

use crate::edges::edge_list;
use crate::innermost::{Innermost, innermost_of};
use crate::lists::ItemLists;
use crate::rows::bins_node;
use crate::types::{are_numbers, bins_typ, has_numbers};
use awk_axis::lift_deep;
use awk_columns::{Joined, Lists};
use awk_lanes::{Arena, Steps, one_offsets};
use awk_layout::{Array, Datum};
use awk_list_functions::{ListOp, Made, Refusal, Spoil};
use awk_types::{Fault, NoMemory, Typ, Wholes, are_leaves};
use std::alloc::Global;
use std::sync::ledger::Ledger;

/// The most items of a column.
const MOST_ITEMS: u64 = 1_073_741_824;

/// Histograms between edges.
#[derive(Drop)]
struct Binning<'e> {
    edges: &'e [i128],
    ghost rising: { are_edges edges.now ≡ true },
}

/// Whether so many lists of one length have no more items than a column may have.
fn are_few(count: u64, length: u64) -> bool
    ensures { result ≡ nat_le (count * length) item_limit }
{
    match count.checked_mul(length) {
        Some(total) => total <= MOST_ITEMS,
        None => false,
    }
}

/// The histograms of lists.
fn binned_lists<'a, L: Ledger>(
    alloc: Global,
    edges: &[i128],
    lists: &Lists<'a>,
    arena: &'a Arena,
    steps: &mut Steps<L>,
) -> Result<Made<'a>, NoMemory>
    requires numbers { is_numbers (present (array_type lists.now.content)) ≡ true }
    requires edges { are_edges edges.now ≡ true }
    ensures { IfOk result (IsMade (bins_function edges.now) lists.now.class lists.now.starts
        lists.now.stops lists.now.content) }
{
    let count = lists.len();
    if !are_few(count, edges.len() as u64 - 1) {
        return Ok(Made::Spoiled(Spoil::Size));
    }
    match lists.joined(alloc, arena, steps)? {
        Joined::TooMany => Ok(Made::Spoiled(Spoil::Size)),
        Joined::Lists { offsets, content } => {
            let x = ItemLists {
                items: &content,
                offsets: &offsets,
                count,
            };
            Ok(Made::Singles(bins_node(alloc, &x, 0, edges, arena, steps)?))
        }
    }
}

impl<'e> ListOp for Binning<'e> {
    ghost function = { λ f. bins_function f.edges.now };

    fn refusal(&self, item: &Typ) -> Option<Refusal> {
        if are_numbers(item) {
            None
        } else {
            Some(Refusal::WrongType)
        }
    }

    fn typ(&self, alloc: Global, _item: &Typ) -> Result<Typ, NoMemory> {
        bins_typ(alloc)
    }

    fn gives_lists(&self) -> bool {
        false
    }

    fn class(&self, class: Option<u64>) -> Option<u64> {
        class
    }

    fn tells_index(&self) -> bool {
        false
    }

    fn column<'a, L: Ledger>(
        &self,
        alloc: Global,
        lists: &Lists<'a>,
        arena: &'a Arena,
        steps: &mut Steps<L>,
    ) -> Result<Made<'a>, NoMemory> {
        binned_lists(alloc, self.edges, lists, arena, steps)
    }
}

/// The histogram of a column of leaves as one list, with more nulls.
fn hist_column<'a, L: Ledger>(
    alloc: Global,
    items: &Array<'a>,
    more: u64,
    edges: &[i128],
    arena: &'a Arena,
    steps: &mut Steps<L>,
) -> Result<Datum<'a>, NoMemory>
    requires numbers { is_numbers (present (array_type items.now)) ≡ true }
    requires few { length (array_items items.now) ≤ item_limit }
    requires edges { are_edges edges.now ≡ true }
    requires nulls { more < 2 ^ 40 }
    ensures answer { IfOk result (λ d. datum_of d
        ≡ shown.one bins_type (bins_and more edges.now (array_items items.now))) }
    ensures datum { IfOk result IsDatum }
{
    let offsets = one_offsets(items.len(), arena)?;
    let x = ItemLists {
        items,
        offsets: &offsets,
        count: 1,
    };
    let node = bins_node(alloc, &x, more, edges, arena, steps)?;
    Ok(Datum::One(Array::of_node(alloc, node)?))
}

/// The histogram of the column that an array comes to.
fn hist_innermost<'a, L: Ledger>(
    alloc: Global,
    x: &Array<'a>,
    found: &Innermost<'a>,
    edges: &[i128],
    arena: &'a Arena,
    steps: &mut Steps<L>,
) -> Result<Datum<'a>, Fault>
    requires found { IsInnermost (array_type x.now) (array_items x.now) found.now }
    requires edges { are_edges edges.now ≡ true }
    ensures answer { Gives datum_of fault_told result
        (hist_of_array edges.now (array_type x.now) (array_items x.now)) }
    ensures datum { IfOk result IsDatum }
{
    let _ = x.typ();
    match found {
        Innermost::TooMany => Err(Fault::Size),
        Innermost::Column(column, more) => {
            Ok(hist_column(alloc, column, *more, edges, arena, steps)?)
        }
    }
}

/// The histogram of all leaves of an array.
fn hist_array<'a, L: Ledger>(
    alloc: Global,
    x: &Array<'a>,
    edges: &[i128],
    arena: &'a Arena,
    steps: &mut Steps<L>,
) -> Result<Datum<'a>, Fault>
    requires numbers { has_numbers (array_type x.now) ≡ true }
    requires few { length (array_items x.now) ≤ item_limit }
    requires edges { are_edges edges.now ≡ true }
    ensures answer { Gives datum_of fault_told result
        (hist_of_array edges.now (array_type x.now) (array_items x.now)) }
    ensures datum { IfOk result IsDatum }
{
    let found = innermost_of(alloc, x, arena, steps)?;
    hist_innermost(alloc, x, &found, edges, arena, steps)
}

/// The histogram of all leaves of a datum.
fn hist_all<'a, L: Ledger>(
    alloc: Global,
    x: &Datum<'a>,
    edges: &[i128],
    arena: &'a Arena,
    steps: &mut Steps<L>,
) -> Result<Datum<'a>, Fault>
    requires datum { IsDatum x.now }
    requires edges { are_edges edges.now ≡ true }
    ensures answer { Gives datum_of fault_told result (hist_of edges.now (datum_of x.now)) }
    ensures datum { IfOk result IsDatum }
{
    match x {
        Datum::Arr(array) => {
            if !has_numbers(array.typ()) {
                Err(Fault::WrongType)
            } else if array.len() > MOST_ITEMS {
                Err(Fault::Size)
            } else {
                hist_array(alloc, array, edges, arena, steps)
            }
        }
        Datum::One(array) => {
            if are_leaves(array.typ()) {
                Err(Fault::Axis)
            } else if !has_numbers(array.typ()) {
                Err(Fault::WrongType)
            } else {
                hist_array(alloc, array, edges, arena, steps)
            }
        }
    }
}

/// How many numbers lie in each interval between edges, below the first edge and from the last one
/// on, and how many nulls there are: of all leaves, where a null list is one null, or of each
/// innermost list, where a null list gives null.
///
/// `Axis` tells that x is a single leaf, `WrongType` that a record, a tuple, a union or truth
/// values stand below the lists, `Depth` that the histograms of lists lie too deep, and `Size` that
/// a column of lists of x, or all counts of the histograms of lists together, have more than
/// 1,073,741,824 items.
pub fn hist<'a, L: Ledger>(
    alloc: Global,
    x: &Datum<'a>,
    edges: &Wholes,
    each: bool,
    arena: &'a Arena,
    steps: &mut Steps<L>,
) -> Result<Datum<'a>, Fault>
    requires datum { IsDatum x.now }
    requires edges { are_edges edges.now ≡ true }
    ensures answer { Gives datum_of fault_told result (histogram edges.now each (datum_of x.now)) }
    ensures datum { IfOk result (λ made. IsDatum made) }
    ensures counted { IfOk result (λ made. CountsAll each (datum_of x.now) (datum_of made)) }
{
    let edges = edge_list(alloc, edges)?;
    if each {
        lift_deep(alloc, &Binning { edges: &edges }, x, arena, steps)
    } else {
        hist_all(alloc, x, &edges, arena, steps)
    }
}
