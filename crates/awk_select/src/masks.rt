//! The items of an array where a mask is true.
ghost use Rattle.std.specs.Prelude.{◌≡◌, ◌<◌, ◌≤◌, ◌^◌, true, None, length, IfOk};
ghost use Rattle.awk_types.specs.Datum.{arr};
ghost use Rattle.awk_types.specs.Faults.{fault_told};
ghost use Rattle.awk_types.specs.Gives.{Gives, refused_or};
ghost use Rattle.awk_types.specs.Limit.{limit};
ghost use Rattle.awk_types.specs.View.{typ_of};
ghost use Rattle.awk_types.specs.ItemLimit.{item_limit, too_many};
ghost use Rattle.awk_lanes.specs.Numbers.{int_of, IsOf};
ghost use Rattle.awk_lanes.specs.declared.kind.Kind.TheVariants as Kinds;
ghost use Rattle.awk_layout.specs.Datum.{IsDatum, datum_of};
ghost use Rattle.awk_layout.specs.Typing.{array_type, array_items, array_datum};
ghost use Rattle.awk_layout.specs.Valid.{len};
ghost use Rattle.awk_select.specs.Cells.{AreCells, mask_numbers, places_lane};
ghost use Rattle.awk_select.specs.Kept.{kept};
ghost use Rattle.awk_select.specs.Picks as picks;
ghost use Rattle.awk_select.specs.Picks.{alike, mask_of, mask_places};
ghost use Rattle.awk_select.specs.Picks.{picked, picked_type};

use crate::cells::{Cells, cells_of};
use crate::marks::{Mark, mark_of, one_if};
use crate::picked::{judge_type, pick};
use crate::sieve::Sieve;
use crate::values::{Values, truths_of};
use awk_lanes::{Arena, Kind, Lane, NoMemory, Steps};
use awk_layout::{Array, Datum};
use awk_types::{Fault, ITEM_LIMIT, Prim, Typ};
use std::alloc::Global;
use std::sync::ledger::Ledger;

/// The items of an array where a mask of the same length is true, and null where the mask is null.
/// `WrongType` tells that one of the two is a single value, or that the mask's items are no truth
/// values, and `Lengths` that the two are not of one length. `Depth` and `Size` tell the limit that
/// the optional type passes, and `Size` also that the items are more than 1,073,741,824.
pub fn mask<'a, L: Ledger>(
    alloc: Global,
    x: &Datum<'a>,
    m: &Datum<'a>,
    arena: &'a Arena,
    steps: &mut Steps<L>,
) -> Result<Datum<'a>, Fault>
    ensures answer { Gives datum_of fault_told result (mask_of (datum_of x.now) (datum_of m.now)) }
    ensures datum { IfOk result (λ made. IsDatum made) }
{
    match x {
        Datum::Arr(x) => match m {
            Datum::Arr(m) => Ok(Datum::Arr(masked(alloc, x, m, arena, steps)?)),
            Datum::One(_) => Err(Fault::WrongType),
        },
        Datum::One(_) => Err(Fault::WrongType),
    }
}

fn is_truths(t: &Typ) -> bool
    ensures { result ≡ picks.is_truths (typ_of t.now) }
{
    match t {
        Typ::Leaf(Prim::Bool) => true,
        _ => false,
    }
}

/// Whether items of a type are truth values, optional or not.
pub fn is_mask(t: &Typ) -> bool
    ensures { result ≡ picks.is_mask (typ_of t.now) }
{
    match t {
        Typ::Opt(inner) => is_truths(inner),
        _ => is_truths(t),
    }
}

fn masked<'a, L: Ledger>(
    alloc: Global,
    x: &Array<'a>,
    m: &Array<'a>,
    arena: &'a Arena,
    steps: &mut Steps<L>,
) -> Result<Array<'a>, Fault>
    ensures answer { let said = picks.masked (array_type x.now) (array_items x.now) in
        Gives array_datum fault_told result (said (array_type m.now) (array_items m.now)) }
{
    if !is_mask(m.typ()) {
        return Err(Fault::WrongType);
    }
    judge_type(alloc, x.typ(), m.typ())?;
    masked_alike(alloc, x, m, arena, steps)
}

fn masked_alike<'a, L: Ledger>(
    alloc: Global,
    x: &Array<'a>,
    m: &Array<'a>,
    arena: &'a Arena,
    steps: &mut Steps<L>,
) -> Result<Array<'a>, Fault>
    requires mask { picks.is_mask (array_type m.now) ≡ true }
    requires limit { limit (picked_type (array_type m.now) (array_type x.now)) ≡ None }
    ensures answer { let said = alike (array_type x.now) (array_items x.now) in
        Gives array_datum fault_told result (said (array_type m.now) (array_items m.now)) }
{
    if x.len() != m.len() {
        return Err(Fault::Lengths);
    }
    masked_items(alloc, x, m, arena, steps)
}

fn masked_items<'a, L: Ledger>(
    alloc: Global,
    x: &Array<'a>,
    m: &Array<'a>,
    arena: &'a Arena,
    steps: &mut Steps<L>,
) -> Result<Array<'a>, Fault>
    requires mask { picks.is_mask (array_type m.now) ≡ true }
    requires limit { limit (picked_type (array_type m.now) (array_type x.now)) ≡ None }
    requires lengths { len x.now ≡ len m.now }
    ensures answer { let places = mask_places (array_items m.now) in
        let t = picked_type (array_type m.now) (array_type x.now) in
        let made = arr t (picked (array_items x.now) places) in
        let said = refused_or (too_many (length places)) made in
        Gives array_datum fault_told result said }
{
    let cells = cells_of(alloc, m, arena, steps)?;
    seen_items(alloc, x, m, &cells, arena, steps)
}

// The same by the values of the mask in the form in which they lie.
fn seen_items<'a, L: Ledger>(
    alloc: Global,
    x: &Array<'a>,
    m: &Array<'a>,
    cells: &Cells<'a>,
    arena: &'a Arena,
    steps: &mut Steps<L>,
) -> Result<Array<'a>, Fault>
    requires mask { picks.is_mask (array_type m.now) ≡ true }
    requires limit { limit (picked_type (array_type m.now) (array_type x.now)) ≡ None }
    requires lengths { len x.now ≡ len m.now }
    requires cells { AreCells m.now cells.now }
    ensures answer { let places = mask_places (array_items m.now) in
        let t = picked_type (array_type m.now) (array_type x.now) in
        let made = arr t (picked (array_items x.now) places) in
        let said = refused_or (too_many (length places)) made in
        Gives array_datum fault_told result said }
{
    match cells {
        Cells::Plain(lane) if lane.kind() == Kind::Bool => {
            let truths = truths_of(lane, steps);
            kept_items(alloc, x, m, &truths, arena, steps)
        }
        _ => kept_items(alloc, x, m, cells, arena, steps),
    }
}

fn kept_items<'a, V: Values, L: Ledger>(
    alloc: Global,
    x: &Array<'a>,
    m: &Array<'a>,
    values: &V,
    arena: &'a Arena,
    steps: &mut Steps<L>,
) -> Result<Array<'a>, Fault>
    requires mask { picks.is_mask (array_type m.now) ≡ true }
    requires limit { limit (picked_type (array_type m.now) (array_type x.now)) ≡ None }
    requires lengths { len x.now ≡ len m.now }
    requires cells { AreCells m.now (V.cells values.now) }
    ensures answer { let places = mask_places (array_items m.now) in
        let t = picked_type (array_type m.now) (array_type x.now) in
        let made = arr t (picked (array_items x.now) places) in
        let said = refused_or (too_many (length places)) made in
        Gives array_datum fault_told result said }
{
    let _ = m.len();
    let n = count(m, values, steps);
    if n > ITEM_LIMIT {
        return Err(Fault::Size);
    }
    let places = mask_lane(m, values, n, arena, steps)?;
    pick(alloc, x, &places, m.typ(), arena, steps)
}

// What item i of a mask gives to its places: i where it is true, and -1 where it is null.
#[inline(always)]
fn mark_at<V: Values, L: Ledger>(m: &Array, values: &V, i: u64, steps: &mut Steps<L>) -> Mark
    requires cells { AreCells m.now (V.cells values.now) }
    requires within { i < len m.now }
    requires small { i < 2 ^ 63 }
    ensures kind { IsOf Kinds.I64 result.number }
    ensures numbers { kept result.keep (int_of result.number) ≡ mask_numbers m.now i }
{
    mark_of(values.value(i, steps), i)
}

// How many items of a mask are true or null.
fn count<V: Values, L: Ledger>(m: &Array, values: &V, steps: &mut Steps<L>) -> u64
    requires { AreCells m.now (V.cells values.now) }
    ensures { result ≡ length (mask_places (array_items m.now)) }
{
    let mut count = 0;
    for i in 0..m.len() {
        count += one_if(mark_at(m, values, i, steps).keep);
    }
    count
}

// The places of the true items of a mask, and -1 for each null: n together.
fn mask_lane<'a, V: Values, L: Ledger>(
    m: &Array,
    values: &V,
    n: u64,
    arena: &'a Arena,
    steps: &mut Steps<L>,
) -> Result<Lane<'a>, NoMemory>
    requires cells { AreCells m.now (V.cells values.now) }
    requires count { n ≡ length (mask_places (array_items m.now)) }
    requires few { n ≤ item_limit }
    ensures lane { IfOk result (λ r. r ≡ places_lane (mask_places (array_items m.now))) }
{
    let mut made = Sieve::new(n + 1, arena)?;
    for i in 0..m.len() {
        let mark = mark_at(m, values, i, steps);
        made.push_if(mark.keep, mark.number);
    }
    Ok(made.finish())
}
