//! An array cut into lists of given lengths.
ghost use Rattle.std.specs.Prelude.{◌≡◌, ◌+◌, ◌<◌, ◌≤◌, ◌^◌, true, false, None};
ghost use Rattle.std.specs.Prelude.{sum_by, not, pos, IfOk};
ghost use Rattle.awk_types.specs.DataType.{var};
ghost use Rattle.awk_types.specs.Faults.{fault_told};
ghost use Rattle.awk_types.specs.Gives.{Gives, refused_or};
ghost use Rattle.awk_types.specs.Limit.{limit};
ghost use Rattle.awk_types.specs.Simple.{simple};
ghost use Rattle.awk_types.specs.Value.{int};
ghost use Rattle.awk_types.specs.View.{typ_of};
ghost use Rattle.awk_types.specs.WholeNumbers.{is_numbers};
ghost use Rattle.awk_lanes.specs.Numbers.{int_of, nat_of};
ghost use Rattle.awk_lanes.specs.Places.{size_of, IsOffsets};
ghost use Rattle.awk_lanes.specs.declared.kind.Kind.TheVariants as Kind;
ghost use Rattle.awk_layout.specs.Datum.{datum_of, IsDatum};
ghost use Rattle.awk_layout.specs.Layout.{offset_lists};
ghost use Rattle.awk_layout.specs.Shown.{count_of};
ghost use Rattle.awk_layout.specs.Typing.{array_type, array_items, array_datum};
ghost use Rattle.awk_layout.specs.Valid.{len};
ghost use Rattle.awk_lanes.specs.Made.{lane_of};
ghost use Rattle.awk_lists.specs.Numbers.{AreCounts};
ghost use Rattle.awk_lists.specs.Unflatten as spec;
ghost use Rattle.awk_lists.specs.Unflatten.{unflatten_of, counted_before, do_not_add_up};
ghost use Rattle.awk_lists.specs.Unflatten.{limit_refused, lists_by};

use crate::numbers::numbers_of;
use awk_lanes::{Arena, IndexMaker, Lane, Num, Steps, number};
use awk_layout::{Array, Datum, Node};
use awk_types::{Fault, ITEM_LIMIT, NoMemory, Typ, copy_type, is_numbers, simple_of};
use std::alloc::Global;
use std::sync::ledger::Ledger;

/// Judges the type of lists of items.
fn judge_lists(alloc: Global, t: &Typ) -> Result<(), Fault>
    requires { simple (typ_of t.now) ≡ typ_of t.now }
    ensures { let said = refused_or (limit_refused (typ_of t.now)) (tt {0}) in
        Gives (λ _. tt {0}) fault_told result said }
{
    let lists = Typ::Var(Box::new(alloc, copy_type(alloc, t)?)?);
    let _ = simple_of(alloc, lists)?;
    Ok(())
}

/// The whole numbers of an array.
fn counts_of<'a, L: Ledger>(
    alloc: Global,
    counts: &Array<'a>,
    arena: &'a Arena,
    steps: &mut Steps<L>,
) -> Result<Lane<'a>, NoMemory>
    requires { is_numbers (array_type counts.now) ≡ true }
    ensures { IfOk result (AreCounts counts.now) }
{
    numbers_of(alloc, counts, arena, steps)
}

fn is_negative(x: Num) -> bool
    ensures { result ≡ spec.is_negative (int (int_of x)) }
{
    match x {
        Num::Int(z) => z < 0,
        Num::Nat(_) | Num::Truth(_) => false,
    }
}

/// A number as a count: a negative number is 0.
fn count(x: Num) -> u64
    ensures { result ≡ nat_of (int_of x) }
{
    match x {
        Num::Int(z) => { if z < 0 { 0 } else { z as u64 } }
        Num::Nat(n) => n,
        Num::Truth(b) => u64::from(b),
    }
}

/// Whether no count is negative and all together are n.
fn add_up<L: Ledger>(counts: &Array, lane: &Lane, n: u64, steps: &mut Steps<L>) -> bool
    requires { AreCounts counts.now lane.now }
    ensures { not result ≡ do_not_add_up n (array_items counts.now) }
{
    let mut left = n;
    for i in 0..counts.len() {
        let x = lane.at(i, steps);
        if is_negative(x) {
            return false;
        }
        if count(x) > left {
            return false;
        }
        left -= count(x);
    }
    left == 0
}

/// The offsets of lists of these lengths.
fn offsets_by<'a, L: Ledger>(
    counts: &Array,
    lane: &Lane,
    arena: &'a Arena,
    steps: &mut Steps<L>,
) -> Result<Lane<'a>, NoMemory>
    requires counts { AreCounts counts.now lane.now }
    requires fits { sum_by count_of (array_items counts.now) < 2 ^ 63 }
    ensures { let before = counted_before (array_items counts.now) in
        IfOk result (λ r. r ≡ lane_of Kind.I64 (len counts.now + 1) (λ i. pos (before i))) }
{
    let n = counts.len();
    let mut maker = IndexMaker::new(n + 1, arena)?;
    let mut end = 0;
    maker.push(number(0));
    for i in 0..n {
        end += count(lane.at(i, steps));
        maker.push(number(end));
    }
    Ok(maker.finish())
}

/// The array in lists between offsets.
fn lists_over<'a, L: Ledger>(
    alloc: Global,
    x: &Array<'a>,
    offsets: Lane<'a>,
    steps: &mut Steps<L>,
) -> Result<Array<'a>, NoMemory>
    requires length { size_of offsets ≤ 2 ^ 63 }
    requires valid { IsOffsets offsets (len x.now) }
    requires limit { limit (var (array_type x.now)) ≡ None }
    ensures { IfOk result (λ y. y ≡ offset_lists offsets.entry x.now) }
{
    let content = Box::new(alloc, x.node().copy(alloc)?)?;
    Array::of_node(alloc, Node::list_offset(offsets, content, steps))
}

/// The array in lists of the lengths that counts say.
fn lists_between<'a, L: Ledger>(
    alloc: Global,
    x: &Array<'a>,
    counts: &Array<'a>,
    lane: &Lane<'a>,
    arena: &'a Arena,
    steps: &mut Steps<L>,
) -> Result<Array<'a>, NoMemory>
    requires counts { AreCounts counts.now lane.now }
    requires limit { limit (var (array_type x.now)) ≡ None }
    requires whole { do_not_add_up (len x.now) (array_items counts.now) ≡ false }
    ensures { let said = lists_by (array_type x.now) (array_items x.now) (array_items counts.now) in
        IfOk result (λ y. array_datum y ≡ said) }
{
    let _ = x.len();
    let _ = counts.len();
    let offsets = offsets_by(counts, lane, arena, steps)?;
    lists_over(alloc, x, offsets, steps)
}

/// The array cut, where the types are judged.
fn cut_items<'a, L: Ledger>(
    alloc: Global,
    x: &Array<'a>,
    counts: &Array<'a>,
    arena: &'a Arena,
    steps: &mut Steps<L>,
) -> Result<Array<'a>, Fault>
    requires counts { is_numbers (array_type counts.now) ≡ true }
    requires limit { limit (var (array_type x.now)) ≡ None }
    ensures answer { let said = spec.cut_items (array_type x.now) (array_items x.now) in
        Gives array_datum fault_told result (said (array_items counts.now)) }
{
    let lane = counts_of(alloc, counts, arena, steps)?;
    if !add_up(counts, &lane, x.len(), steps) {
        return Err(Fault::Lengths);
    }
    if counts.len() > ITEM_LIMIT {
        return Err(Fault::Size);
    }
    Ok(lists_between(alloc, x, counts, &lane, arena, steps)?)
}

/// The array cut into lists.
fn cut<'a, L: Ledger>(
    alloc: Global,
    x: &Array<'a>,
    counts: &Array<'a>,
    arena: &'a Arena,
    steps: &mut Steps<L>,
) -> Result<Array<'a>, Fault>
    ensures answer { let said = spec.cut (array_type x.now) (array_items x.now) in
        Gives array_datum fault_told result
        (said (array_type counts.now) (array_items counts.now)) }
{
    if !is_numbers(counts.typ()) {
        return Err(Fault::WrongType);
    }
    judge_lists(alloc, x.typ())?;
    cut_items(alloc, x, counts, arena, steps)
}

/// The items of an array in lists, as many in each as the counts say.
///
/// `WrongType` tells that one of the two is a single value, or that the counts are neither whole
/// numbers nor unknown, and `Depth` or `Size` the limit that the type of the lists passes.
/// `Lengths` tells a negative count, or counts that are not the number of items together, and
/// `Size` also more than 1,073,741,824 counts.
///
/// How it works, which no clause says: the items stay as they are, behind new offsets.
pub fn unflatten<'a, L: Ledger>(
    alloc: Global,
    x: &Datum<'a>,
    counts: &Datum<'a>,
    arena: &'a Arena,
    steps: &mut Steps<L>,
) -> Result<Datum<'a>, Fault>
    ensures answer { Gives datum_of fault_told result
        (unflatten_of (datum_of x.now) (datum_of counts.now)) }
    ensures datum { IfOk result (λ made. IsDatum made) }
{
    match x {
        Datum::Arr(x) => match counts {
            Datum::Arr(counts) => Ok(Datum::Arr(cut(alloc, x, counts, arena, steps)?)),
            Datum::One(_) => Err(Fault::WrongType),
        },
        Datum::One(_) => Err(Fault::WrongType),
    }
}
