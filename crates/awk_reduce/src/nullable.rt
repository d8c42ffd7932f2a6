//! Lists of leaves of which some may be null, reduced where they lie.
ghost use Rattle.std.specs.Prelude.{◌≡◌, ◌<◌, ◌≤◌, IfOk};
ghost use Rattle.awk_types.specs.ItemLimit.{item_limit};
ghost use Rattle.awk_lanes.specs.Numbers.{width};
ghost use Rattle.awk_lanes.specs.Places.{size_of};
ghost use Rattle.awk_lanes.specs.declared.kind.Kind.TheVariants as Kinds;
ghost use Rattle.awk_layout.specs.Typing.{array_type};
ghost use Rattle.awk_list_functions.specs.Made.{IsMade};
ghost use Rattle.awk_columns.specs.Joined.{total};
ghost use Rattle.awk_nullable_lists.specs.Nullable.{AreLeaves, IsNullable};
ghost use Rattle.awk_reduce.specs.Lists.{list_in, IsReduced};
ghost use Rattle.awk_reduce.specs.Nullable.{AreLeafLists};
ghost use Rattle.awk_reduce.specs.Reduce.{reducer_function};
ghost use Rattle.awk_reduce.specs.Totals.{fold_reducer, tally_reducer, item_reducer, place_reducer};

use crate::extremes::masked;
use crate::reducer::Reducer;
use crate::types::{leaf_of, wide};
use awk_cells::Cell;
use awk_columns::Bounds;
use awk_index::wide_index;
use awk_lanes::{Arena, Kind, Lane, Steps};
use awk_layout::Node;
use awk_list_functions::{Made, Spoil};
use awk_nullable::{Cells, Leaves, Places, cells_of};
use awk_nullable_lists::{
    LeafLists, Nullable, extreme_lists, fold_lists, place_lists, tally_lists,
};
use awk_numbers::{Extreme, Fold, Tally};
use awk_types::NoMemory;
use std::alloc::Global;
use std::sync::ledger::Ledger;

/// The sum or product of each list, or that one does not fit its type.
fn null_folds<'a, P: Places, C: Cells, L: Ledger>(
    how: Fold,
    lists: &LeafLists<'_, '_, 'a, P, C>,
    arena: &'a Arena,
    steps: &mut Steps<L>,
) -> Result<Made<'a>, NoMemory>
    requires { AreLeafLists lists.now.bounds.now (P.at lists.now.leaves.now.places.now)
        (P.size lists.now.leaves.now.places.now) (C.lane lists.now.leaves.now.cells.now) }
    ensures { let l = lists.now.bounds.now in
        IfOk result (IsReduced (fold_reducer how) (array_type l.content) (list_in l)
        (size_of l.starts)) }
{
    let prim = wide(leaf_of(lists.bounds.content().typ()));
    match fold_lists(how, prim, lists, arena, steps)? {
        Some(lane) => Ok(Made::Singles(Node::numpy(lane, steps))),
        None => Ok(Made::Spoiled(Spoil::Overflow)),
    }
}

/// A count of each list, or whether some or all of its items are true or not 0.
fn null_tallies<'a, P: Places, C: Cells, L: Ledger>(
    how: Tally,
    lists: &LeafLists<'_, '_, 'a, P, C>,
    arena: &'a Arena,
    steps: &mut Steps<L>,
) -> Result<Made<'a>, NoMemory>
    requires { AreLeafLists lists.now.bounds.now (P.at lists.now.leaves.now.places.now)
        (P.size lists.now.leaves.now.places.now) (C.lane lists.now.leaves.now.cells.now) }
    ensures { let l = lists.now.bounds.now in
        IfOk result (IsReduced (tally_reducer how) (array_type l.content) (list_in l)
        (size_of l.starts)) }
{
    let lane = tally_lists(how, lists, arena, steps)?;
    Ok(Made::Singles(Node::numpy(lane, steps)))
}

/// The least or the greatest item of each list.
fn null_extremes<'a, P: Places, C: Cells, L: Ledger>(
    alloc: Global,
    how: Extreme,
    lane: &Lane<'a>,
    lists: &LeafLists<'_, '_, 'a, P, C>,
    arena: &'a Arena,
    steps: &mut Steps<L>,
) -> Result<Made<'a>, NoMemory>
    requires lane { lane.now ≡ C.lane lists.now.leaves.now.cells.now }
    requires lists { AreLeafLists lists.now.bounds.now (P.at lists.now.leaves.now.places.now)
        (P.size lists.now.leaves.now.places.now) (C.lane lists.now.leaves.now.cells.now) }
    ensures { let l = lists.now.bounds.now in
        IfOk result (IsReduced (item_reducer how) (array_type l.content) (list_in l)
        (size_of l.starts)) }
{
    let items = extreme_lists(how, lane, lists, arena, steps)?;
    Ok(Made::Singles(masked(alloc, items.mask, items.numbers, steps)?))
}

/// The place of the least or of the greatest item of each list.
fn null_places<'a, P: Places, C: Cells, L: Ledger>(
    alloc: Global,
    how: Extreme,
    lists: &LeafLists<'_, '_, 'a, P, C>,
    arena: &'a Arena,
    steps: &mut Steps<L>,
) -> Result<Made<'a>, NoMemory>
    requires { AreLeafLists lists.now.bounds.now (P.at lists.now.leaves.now.places.now)
        (P.size lists.now.leaves.now.places.now) (C.lane lists.now.leaves.now.cells.now) }
    ensures { let l = lists.now.bounds.now in
        IfOk result (IsReduced (place_reducer how) (array_type l.content) (list_in l)
        (size_of l.starts)) }
{
    let places = place_lists(how, lists, arena, steps)?;
    Ok(Made::Singles(masked(alloc, places.mask, places.numbers, steps)?))
}

/// What is made of such lists.
fn null_reduced<'a, P: Places, C: Cells, L: Ledger>(
    alloc: Global,
    how: Reducer,
    lane: &Lane<'a>,
    lists: &LeafLists<'_, '_, 'a, P, C>,
    arena: &'a Arena,
    steps: &mut Steps<L>,
) -> Result<Made<'a>, NoMemory>
    requires lane { lane.now ≡ C.lane lists.now.leaves.now.cells.now }
    requires lists { AreLeafLists lists.now.bounds.now (P.at lists.now.leaves.now.places.now)
        (P.size lists.now.leaves.now.places.now) (C.lane lists.now.leaves.now.cells.now) }
    ensures { let l = lists.now.bounds.now in
        IfOk result (IsReduced how (array_type l.content) (list_in l) (size_of l.starts)) }
{
    match how {
        Reducer::Sum => null_folds(Fold::Sum, lists, arena, steps),
        Reducer::Prod => null_folds(Fold::Product, lists, arena, steps),
        Reducer::Min => null_extremes(alloc, Extreme::Least, lane, lists, arena, steps),
        Reducer::Max => null_extremes(alloc, Extreme::Greatest, lane, lists, arena, steps),
        Reducer::Argmin => null_places(alloc, Extreme::Least, lists, arena, steps),
        Reducer::Argmax => null_places(alloc, Extreme::Greatest, lists, arena, steps),
        Reducer::Any => null_tallies(Tally::Any, lists, arena, steps),
        Reducer::All => null_tallies(Tally::All, lists, arena, steps),
        Reducer::Count => null_tallies(Tally::Items, lists, arena, steps),
        Reducer::CountNonzero => null_tallies(Tally::Nonzero, lists, arena, steps),
    }
}

/// What is made of lists by a lane of their numbers and a way there.
fn reduced_by<'a, P: Places, C: Cells, L: Ledger>(
    alloc: Global,
    how: Reducer,
    bounds: &Bounds<'_, 'a>,
    lane: &Lane<'a>,
    leaves: &Leaves<'_, P, C>,
    arena: &'a Arena,
    steps: &mut Steps<L>,
) -> Result<Made<'a>, NoMemory>
    requires lane { lane.now ≡ C.lane leaves.now.cells.now }
    requires leaves { AreLeaves bounds.now.content (P.at leaves.now.places.now)
        (P.size leaves.now.places.now) (C.lane leaves.now.cells.now) }
    requires few { total bounds.now.starts bounds.now.stops bounds.now.content ≤ item_limit }
    ensures { IfOk result (IsMade (reducer_function how) bounds.now.class bounds.now.starts
        bounds.now.stops bounds.now.content) }
{
    let _ = bounds.content();
    let lists = LeafLists { bounds, leaves };
    null_reduced(alloc, how, lane, &lists, arena, steps)
}

/// The same by a lane of numbers that fit an i64, whose kind is not asked for.
fn reduced_cells<'a, const W: usize, C: Cell<W>, P: Places, L: Ledger>(
    alloc: Global,
    how: Reducer,
    bounds: &Bounds<'_, 'a>,
    lane: &Lane<'a>,
    places: &P,
    arena: &'a Arena,
    steps: &mut Steps<L>,
) -> Result<Made<'a>, NoMemory>
    requires some { 0 < W }
    requires short { W < 8 }
    requires kind { lane.now.kind ≡ C.kind }
    requires width { width C.kind ≡ W }
    requires leaves { AreLeaves bounds.now.content (P.at places.now) (P.size places.now) lane.now }
    requires few { total bounds.now.starts bounds.now.stops bounds.now.content ≤ item_limit }
    ensures { IfOk result (IsMade (reducer_function how) bounds.now.class bounds.now.starts
        bounds.now.stops bounds.now.content) }
{
    let cells = cells_of::<W, C, L>(lane, steps);
    let leaves = Leaves {
        places,
        cells: &cells,
        sparse: places.is_sparse(),
    };
    reduced_by(alloc, how, bounds, lane, &leaves, arena, steps)
}

/// The same by a lane of numbers of any kind.
fn reduced_any<'a, P: Places, L: Ledger>(
    alloc: Global,
    how: Reducer,
    bounds: &Bounds<'_, 'a>,
    lane: &Lane<'a>,
    places: &P,
    arena: &'a Arena,
    steps: &mut Steps<L>,
) -> Result<Made<'a>, NoMemory>
    requires leaves { AreLeaves bounds.now.content (P.at places.now) (P.size places.now) lane.now }
    requires few { total bounds.now.starts bounds.now.stops bounds.now.content ≤ item_limit }
    ensures { IfOk result (IsMade (reducer_function how) bounds.now.class bounds.now.starts
        bounds.now.stops bounds.now.content) }
{
    let leaves = Leaves {
        places,
        cells: lane,
        sparse: places.is_sparse(),
    };
    reduced_by(alloc, how, bounds, lane, &leaves, arena, steps)
}

/// The same by a lane of numbers of i64, which are read as such.
fn reduced_wide<'a, P: Places, L: Ledger>(
    alloc: Global,
    how: Reducer,
    bounds: &Bounds<'_, 'a>,
    lane: &Lane<'a>,
    places: &P,
    arena: &'a Arena,
    steps: &mut Steps<L>,
) -> Result<Made<'a>, NoMemory>
    requires kind { lane.now.kind ≡ Kinds.I64 }
    requires leaves { AreLeaves bounds.now.content (P.at places.now) (P.size places.now) lane.now }
    requires few { total bounds.now.starts bounds.now.stops bounds.now.content ≤ item_limit }
    ensures { IfOk result (IsMade (reducer_function how) bounds.now.class bounds.now.starts
        bounds.now.stops bounds.now.content) }
{
    let cells = wide_index(lane, arena, steps)?;
    let leaves = Leaves {
        places,
        cells: &cells,
        sparse: places.is_sparse(),
    };
    reduced_by(alloc, how, bounds, lane, &leaves, arena, steps)
}

/// The same, where numbers of i64, of i8 and truth values are read as such.
fn reduced_in<'a, P: Places, L: Ledger>(
    alloc: Global,
    how: Reducer,
    bounds: &Bounds<'_, 'a>,
    lane: &Lane<'a>,
    places: &P,
    arena: &'a Arena,
    steps: &mut Steps<L>,
) -> Result<Made<'a>, NoMemory>
    requires leaves { AreLeaves bounds.now.content (P.at places.now) (P.size places.now) lane.now }
    requires few { total bounds.now.starts bounds.now.stops bounds.now.content ≤ item_limit }
    ensures { IfOk result (IsMade (reducer_function how) bounds.now.class bounds.now.starts
        bounds.now.stops bounds.now.content) }
{
    match lane.kind() {
        Kind::I64 => reduced_wide(alloc, how, bounds, lane, places, arena, steps),
        Kind::I8 => reduced_cells::<1, i8, P, L>(alloc, how, bounds, lane, places, arena, steps),
        Kind::Bool => {
            reduced_cells::<1, bool, P, L>(alloc, how, bounds, lane, places, arena, steps)
        }
        _ => reduced_any(alloc, how, bounds, lane, places, arena, steps),
    }
}

/// The same, where numbers of each kind that fit an i64 are read as such.
fn reduced_each<'a, P: Places, L: Ledger>(
    alloc: Global,
    how: Reducer,
    bounds: &Bounds<'_, 'a>,
    lane: &Lane<'a>,
    places: &P,
    arena: &'a Arena,
    steps: &mut Steps<L>,
) -> Result<Made<'a>, NoMemory>
    requires leaves { AreLeaves bounds.now.content (P.at places.now) (P.size places.now) lane.now }
    requires few { total bounds.now.starts bounds.now.stops bounds.now.content ≤ item_limit }
    ensures { IfOk result (IsMade (reducer_function how) bounds.now.class bounds.now.starts
        bounds.now.stops bounds.now.content) }
{
    match lane.kind() {
        Kind::I16 => reduced_cells::<2, i16, P, L>(alloc, how, bounds, lane, places, arena, steps),
        Kind::I32 => reduced_cells::<4, i32, P, L>(alloc, how, bounds, lane, places, arena, steps),
        Kind::U8 => reduced_cells::<1, u8, P, L>(alloc, how, bounds, lane, places, arena, steps),
        Kind::U16 => reduced_cells::<2, u16, P, L>(alloc, how, bounds, lane, places, arena, steps),
        Kind::U32 => reduced_cells::<4, u32, P, L>(alloc, how, bounds, lane, places, arena, steps),
        _ => reduced_in(alloc, how, bounds, lane, places, arena, steps),
    }
}

/// What is made of lists of whose items some may be null, by how these lie. Where an index or a mask
/// of bytes tells that, as where `put_mask` made it, there is a loop for each kind.
pub(crate) fn reduced_opened<'a, L: Ledger>(
    alloc: Global,
    how: Reducer,
    bounds: &Bounds<'_, 'a>,
    leaves: &Nullable<'a>,
    arena: &'a Arena,
    steps: &mut Steps<L>,
) -> Result<Made<'a>, NoMemory>
    requires leaves { IsNullable bounds.now.content leaves.now }
    requires few { total bounds.now.starts bounds.now.stops bounds.now.content ≤ item_limit }
    ensures { IfOk result (IsMade (reducer_function how) bounds.now.class bounds.now.starts
        bounds.now.stops bounds.now.content) }
{
    match leaves {
        Nullable::Indexed { index, lane } => {
            reduced_each(alloc, how, bounds, lane, index, arena, steps)
        }
        Nullable::Narrow { index, lane } => {
            reduced_each(alloc, how, bounds, lane, index, arena, steps)
        }
        Nullable::Bytes { mask, lane } => {
            reduced_each(alloc, how, bounds, lane, mask, arena, steps)
        }
        Nullable::Bits { mask, lane } => reduced_in(alloc, how, bounds, lane, mask, arena, steps),
        Nullable::Unmasked { every, lane } => {
            reduced_in(alloc, how, bounds, lane, every, arena, steps)
        }
    }
}
