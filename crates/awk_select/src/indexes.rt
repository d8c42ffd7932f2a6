//! The items of an array at the places of an index.
ghost use Rattle.std.specs.Prelude.{◌≡◌, ◌<◌, ◌≤◌, ◌^◌, true, None, length, not};
ghost use Rattle.std.specs.Prelude.{IfOk, IfSome, IsTrue};
ghost use Rattle.std.specs.List.{list_any};
ghost use Rattle.awk_types.specs.Datum.{arr};
ghost use Rattle.awk_types.specs.Faults.{fault_told};
ghost use Rattle.awk_types.specs.Gives.{Gives, refused_or, ◌or◌};
ghost use Rattle.awk_types.specs.Limit.{limit};
ghost use Rattle.awk_types.specs.View.{typ_of};
ghost use Rattle.awk_types.specs.ItemLimit.{too_many};
ghost use Rattle.awk_lanes.specs.Numbers.{IsOf};
ghost use Rattle.awk_lanes.specs.declared.kind.Kind.TheVariants as Kinds;
ghost use Rattle.awk_layout.specs.Datum.{IsDatum, datum_of};
ghost use Rattle.awk_layout.specs.Typing.{array_type, array_items, array_datum};
ghost use Rattle.awk_layout.specs.Valid.{len};
ghost use Rattle.awk_gather.specs.Arrays.{array_item};
ghost use Rattle.awk_select.specs.Cells.{AreCells, AreTaken, IsTaken};
ghost use Rattle.awk_select.specs.Picks as picks;
ghost use Rattle.awk_select.specs.Picks.{take_of, take_places, is_outside, index_refused};
ghost use Rattle.awk_select.specs.Picks.{picked, picked_type};

use crate::cells::{Cells, cells_of};
use crate::picked::{judge_type, pick};
use crate::places::{Named, place_named};
use crate::values::{Sparse, Values};
use awk_index::wide_index;
use awk_lanes::{Arena, IndexMaker, Kind, Lane, NoMemory, Num, Steps, number};
use awk_layout::{Array, Datum};
use awk_types::{Fault, ITEM_LIMIT, Typ, is_numbers};
use std::alloc::Global;
use std::sync::ledger::Ledger;

/// The items of an array at the places of an index, in its order, and null where it is null. A
/// negative place counts from the end. `WrongType` tells that one of the two is a single value, or
/// that the index's items are no whole numbers, and `Index` that the array has not every place.
/// `Depth` and `Size` tell the limit that the optional type passes, and `Size` also that the items
/// are more than 1,073,741,824.
pub fn take<'a, L: Ledger>(
    alloc: Global,
    x: &Datum<'a>,
    ix: &Datum<'a>,
    arena: &'a Arena,
    steps: &mut Steps<L>,
) -> Result<Datum<'a>, Fault>
    ensures answer { Gives datum_of fault_told result (take_of (datum_of x.now) (datum_of ix.now)) }
    ensures datum { IfOk result (λ made. IsDatum made) }
{
    match x {
        Datum::Arr(x) => match ix {
            Datum::Arr(ix) => Ok(Datum::Arr(taken(alloc, x, ix, arena, steps)?)),
            Datum::One(_) => Err(Fault::WrongType),
        },
        Datum::One(_) => Err(Fault::WrongType),
    }
}

// Whether items of a type are whole numbers or unknown, optional or not.
fn is_index(t: &Typ) -> bool
    ensures { result ≡ picks.is_index (typ_of t.now) }
{
    match t {
        Typ::Opt(inner) => is_numbers(inner),
        _ => is_numbers(t),
    }
}

fn taken<'a, L: Ledger>(
    alloc: Global,
    x: &Array<'a>,
    ix: &Array<'a>,
    arena: &'a Arena,
    steps: &mut Steps<L>,
) -> Result<Array<'a>, Fault>
    ensures answer { let said = picks.taken (array_type x.now) (array_items x.now) in
        Gives array_datum fault_told result (said (array_type ix.now) (array_items ix.now)) }
{
    if !is_index(ix.typ()) {
        return Err(Fault::WrongType);
    }
    judge_type(alloc, x.typ(), ix.typ())?;
    taken_items(alloc, x, ix, arena, steps)
}

fn taken_items<'a, L: Ledger>(
    alloc: Global,
    x: &Array<'a>,
    ix: &Array<'a>,
    arena: &'a Arena,
    steps: &mut Steps<L>,
) -> Result<Array<'a>, Fault>
    requires index { picks.is_index (array_type ix.now) ≡ true }
    requires limit { limit (picked_type (array_type ix.now) (array_type x.now)) ≡ None }
    ensures answer { let vs = array_items x.now in
        let ws = array_items ix.now in
        let t = picked_type (array_type ix.now) (array_type x.now) in
        let refused = index_refused (length vs) ws or too_many (length ws) in
        let said = refused_or refused (arr t (picked vs (take_places (length vs) ws))) in
        Gives array_datum fault_told result said }
{
    let cells = cells_of(alloc, ix, arena, steps)?;
    let n = x.len();
    if ix.len() > ITEM_LIMIT {
        if !are_inside(ix, &cells, n, steps) {
            return Err(Fault::Index);
        }
        return Err(Fault::Size);
    }
    match take_lane(ix, &cells, n, arena, steps)? {
        None => Err(Fault::Index),
        Some(places) => pick(alloc, x, &places, ix.typ(), arena, steps),
    }
}

// Whether item i of an index is null or names a place of n items.
fn is_inside<L: Ledger>(ix: &Array, cells: &Cells, n: u64, i: u64, steps: &mut Steps<L>) -> bool
    requires cells { AreCells ix.now cells.now }
    requires within { i < len ix.now }
    ensures { not result ≡ is_outside n (array_item ix.now i) }
{
    match place_named(n, cells.at(i, steps)) {
        Named::Outside => false,
        Named::Null => true,
        Named::At(_) => true,
    }
}

// Whether all items of an index do.
fn are_inside<L: Ledger>(ix: &Array, cells: &Cells, n: u64, steps: &mut Steps<L>) -> bool
    requires { AreCells ix.now cells.now }
    ensures { not result ≡ list_any (is_outside n) (array_items ix.now) }
{
    for i in 0..ix.len() {
        if !is_inside(ix, cells, n, i, steps) {
            return false;
        }
    }
    true
}

// The place of n items that item i of an index names, -1 for null, or none where it names none.
#[inline(always)]
fn taken_place<V: Values, L: Ledger>(
    ix: &Array,
    values: &V,
    n: u64,
    i: u64,
    steps: &mut Steps<L>,
) -> Option<Num>
    requires cells { AreCells ix.now (V.cells values.now) }
    requires within { i < len ix.now }
    requires small { n ≤ 2 ^ 63 }
    ensures kind { IfSome result (λ z. IsOf Kinds.I64 z) }
    ensures place { IsTaken n (array_item ix.now i) result }
{
    match place_named(n, values.value(i, steps)) {
        Named::Outside => None,
        Named::Null => Some(Num::Int(-1)),
        Named::At(k) => Some(number(k)),
    }
}

// The places of n items that an index names, and -1 for each null, in one pass over its values; or
// none where an item names no place.
fn places_in<'a, V: Values, L: Ledger>(
    ix: &Array,
    values: &V,
    n: u64,
    arena: &'a Arena,
    steps: &mut Steps<L>,
) -> Result<Option<Lane<'a>>, NoMemory>
    requires cells { AreCells ix.now (V.cells values.now) }
    requires small { n ≤ 2 ^ 63 }
    ensures { IfOk result (AreTaken n ix.now) }
{
    let count = ix.len();
    let mut maker = IndexMaker::new(count, arena)?;
    for i in 0..count {
        let Some(place) = taken_place(ix, values, n, i, steps) else {
            return Ok(None);
        };
        maker.push(place);
    }
    Ok(Some(maker.finish()))
}

// Whether numbers of both of two kinds are of 64 bits.
fn are_wide(a: Kind, b: Kind) -> bool
    ensures { IsTrue result → (a ≡ Kinds.I64) × (b ≡ Kinds.I64) }
{
    if a == Kind::I64 {
        return b == Kind::I64;
    }
    false
}

// The same by the values in the form in which they lie.
fn take_lane<'a, L: Ledger>(
    ix: &Array,
    cells: &Cells<'a>,
    n: u64,
    arena: &'a Arena,
    steps: &mut Steps<L>,
) -> Result<Option<Lane<'a>>, NoMemory>
    requires cells { AreCells ix.now cells.now }
    requires small { n ≤ 2 ^ 63 }
    ensures { IfOk result (AreTaken n ix.now) }
{
    match cells {
        Cells::Plain(lane) if lane.kind() == Kind::I64 => {
            let numbers = wide_index(lane, arena, steps)?;
            places_in(ix, &numbers, n, arena, steps)
        }
        Cells::Optional { index, lane } if are_wide(index.kind(), lane.kind()) => {
            let index = wide_index(index, arena, steps)?;
            let numbers = wide_index(lane, arena, steps)?;
            let values = Sparse { index, numbers };
            places_in(ix, &values, n, arena, steps)
        }
        _ => places_in(ix, cells, n, arena, steps),
    }
}
