//! Reducers as functions of one list.
ghost use Rattle.std.specs.Prelude.{◌≡◌, true, false, IfOk};
ghost use Rattle.awk_types.specs.Faults.{fault_told};
ghost use Rattle.awk_types.specs.Gives.{Gives};
ghost use Rattle.awk_types.specs.Simple.{present};
ghost use Rattle.awk_lanes.specs.Places.{size_of, at};
ghost use Rattle.awk_layout.specs.Datum.{datum_of, IsDatum};
ghost use Rattle.awk_layout.specs.Typing.{array_type};
ghost use Rattle.awk_layout.specs.Valid.{len};
ghost use Rattle.awk_list_functions.specs.Made.{IsMade};
ghost use Rattle.awk_types.specs.Predicates.{is_leaf};
ghost use Rattle.awk_parts.specs.Spans.{AreEnds, AreOrdered};
ghost use Rattle.awk_reduce.specs.Lists.{AreReady, AreReduced};
ghost use Rattle.awk_reduce.specs.Reduce.{reducer_function, reduce_of};

use crate::extremes::{extreme_indexes, extremes};
use crate::lengths::{SpanLengths, are_within, lengths};
use crate::nullable::reduced_opened;
use crate::ready::ReadyLists;
use crate::reducer::Reducer;
use crate::totals::{folds, tallies};
use crate::types::reduced_typ;
use awk_axis::lift_deep;
use awk_columns::{Bounds, Lists};
use awk_kernels::Kernels;
use awk_lanes::{Arena, Steps};
use awk_layout::Datum;
use awk_list_functions::{ListOp, Made, Refusal, Spoil};
use awk_nullable_lists::nullable_of;
use awk_numbers::{Extreme, Fold, Tally};
use awk_parts::{Spans, spans_of};
use awk_present::leaves_of;
use awk_types::{Fault, NoMemory, Typ, are_leaves, is_leaf};
use std::alloc::Global;
use std::sync::ledger::Ledger;

/// What is made of lists whose items' numbers are ready.
fn reduced<'a, N: Kernels, L: Ledger>(
    alloc: Global,
    how: Reducer,
    x: &ReadyLists<'_, 'a>,
    kernels: &N,
    arena: &'a Arena,
    steps: &mut Steps<L>,
) -> Result<Made<'a>, NoMemory>
    requires { AreReady x.now }
    ensures { IfOk result (AreReduced how x.now) }
{
    match how {
        Reducer::Sum => folds(Fold::Sum, x, arena, steps),
        Reducer::Prod => folds(Fold::Product, x, arena, steps),
        Reducer::Min => extremes(alloc, Extreme::Least, x, arena, steps),
        Reducer::Max => extremes(alloc, Extreme::Greatest, x, arena, steps),
        Reducer::Argmin => extreme_indexes(alloc, Extreme::Least, x, arena, steps),
        Reducer::Argmax => extreme_indexes(alloc, Extreme::Greatest, x, arena, steps),
        Reducer::Any => tallies(Tally::Any, x, kernels, arena, steps),
        Reducer::All => tallies(Tally::All, x, kernels, arena, steps),
        Reducer::Count => tallies(Tally::Items, x, kernels, arena, steps),
        Reducer::CountNonzero => tallies(Tally::Nonzero, x, kernels, arena, steps),
    }
}

/// What is made of lists none of whose items is null, as their items lie, or that these are too
/// many.
fn reduced_plain<'a, N: Kernels, L: Ledger>(
    alloc: Global,
    how: Reducer,
    lists: &Lists<'a>,
    spans: &Spans<'a>,
    kernels: &N,
    arena: &'a Arena,
    steps: &mut Steps<L>,
) -> Result<Made<'a>, NoMemory>
    requires leaves { is_leaf (array_type lists.now.content) ≡ true }
    requires ends { AreEnds (size_of lists.now.starts) (at lists.now.starts) (at lists.now.stops)
        spans.now }
    requires ordered { AreOrdered (len lists.now.content) spans.now }
    ensures { IfOk result (IsMade (reducer_function how) lists.now.class lists.now.starts
        lists.now.stops lists.now.content) }
{
    let most = lists.content().len();
    let count = spans.starts.len() as u64;
    let known = lists.row_total(steps);
    if !are_within(known, count, most, &SpanLengths { spans }, steps) {
        return Ok(Made::Spoiled(Spoil::Size));
    }
    let lane = leaves_of(alloc, lists.content(), arena, steps)?;
    let x = ReadyLists {
        lists,
        lane: &lane,
        spans,
    };
    reduced(alloc, how, &x, kernels, arena, steps)
}

/// What is made of lists none of whose items is null.
fn reduced_leaves<'a, N: Kernels, L: Ledger>(
    alloc: Global,
    how: Reducer,
    lists: &Lists<'a>,
    kernels: &N,
    arena: &'a Arena,
    steps: &mut Steps<L>,
) -> Result<Made<'a>, NoMemory>
    requires { is_leaf (array_type lists.now.content) ≡ true }
    ensures { IfOk result (IsMade (reducer_function how) lists.now.class lists.now.starts
        lists.now.stops lists.now.content) }
{
    let _ = lists.content();
    let spans = spans_of(lists.starts(), lists.stops(), arena, steps)?;
    match how {
        Reducer::Count => lengths(lists, &spans, arena, steps),
        _ => reduced_plain(alloc, how, lists, &spans, kernels, arena, steps),
    }
}

/// What is made of lists of whose items some may be null.
fn reduced_options<'a, L: Ledger>(
    alloc: Global,
    how: Reducer,
    lists: &Lists<'a>,
    arena: &'a Arena,
    steps: &mut Steps<L>,
) -> Result<Made<'a>, NoMemory>
    requires optional { is_leaf (array_type lists.now.content) ≡ false }
    requires leaves { is_leaf (present (array_type lists.now.content)) ≡ true }
    ensures { IfOk result (IsMade (reducer_function how) lists.now.class lists.now.starts
        lists.now.stops lists.now.content) }
{
    let bounds = Bounds::new(alloc, lists, arena, steps)?;
    let most = bounds.content().len();
    let known = bounds.row_total(steps);
    if are_within(known, bounds.len(), most, &bounds, steps) {
        let leaves = nullable_of(alloc, lists.content(), arena, steps)?;
        reduced_opened(alloc, how, &bounds, &leaves, arena, steps)
    } else {
        Ok(Made::Spoiled(Spoil::Size))
    }
}

/// What is made of lists.
fn reduced_lists<'a, N: Kernels, L: Ledger>(
    alloc: Global,
    how: Reducer,
    lists: &Lists<'a>,
    kernels: &N,
    arena: &'a Arena,
    steps: &mut Steps<L>,
) -> Result<Made<'a>, NoMemory>
    requires leaves { is_leaf (present (array_type lists.now.content)) ≡ true }
    ensures { IfOk result (IsMade (reducer_function how) lists.now.class lists.now.starts
        lists.now.stops lists.now.content) }
{
    if is_leaf(lists.content().typ()) {
        reduced_leaves(alloc, how, lists, kernels, arena, steps)
    } else {
        reduced_options(alloc, how, lists, arena, steps)
    }
}

/// A reducer of one list.
#[derive(Drop)]
struct Reducing<'k, N: Kernels> {
    how: Reducer,
    kernels: &'k N,
}

impl<'k, N: Kernels> ListOp for Reducing<'k, N> {
    ghost function = { λ f. reducer_function f.how };

    fn refusal(&self, item: &Typ) -> Option<Refusal> {
        if are_leaves(item) {
            None
        } else {
            Some(Refusal::WrongType)
        }
    }

    fn typ(&self, alloc: Global, item: &Typ) -> Result<Typ, NoMemory> {
        reduced_typ(alloc, self.how, item)
    }

    fn gives_lists(&self) -> bool {
        false
    }

    fn class(&self, class: Option<u64>) -> Option<u64> {
        class
    }

    fn tells_index(&self) -> bool {
        false
    }

    fn column<'a, L: Ledger>(
        &self,
        alloc: Global,
        lists: &Lists<'a>,
        arena: &'a Arena,
        steps: &mut Steps<L>,
    ) -> Result<Made<'a>, NoMemory> {
        reduced_lists(alloc, self.how, lists, self.kernels, arena, steps)
    }
}

/// Each innermost list reduced to one value. Items that are null are passed over, and a null list
/// gives null.
///
/// `Axis` tells that x is a single leaf, `WrongType` that a record, a tuple or a union stands above
/// the leaves, `Size` that the lists of x have more than 1,073,741,824 items together, and
/// `Overflow` that a sum or a product does not fit its type.
pub fn reduce<'a, N: Kernels, L: Ledger>(
    alloc: Global,
    how: Reducer,
    x: &Datum<'a>,
    kernels: &N,
    arena: &'a Arena,
    steps: &mut Steps<L>,
) -> Result<Datum<'a>, Fault>
    requires datum { IsDatum x.now }
    ensures answer { Gives datum_of fault_told result (reduce_of how (datum_of x.now)) }
    ensures datum { IfOk result (λ made. IsDatum made) }
{
    lift_deep(alloc, &Reducing { how, kernels }, x, arena, steps)
}
