//! Ranges of any step.
ghost use Rattle.std.specs.Prelude.{◌≡◌, ◌≢◌, ◌+◌, ◌-◌, ◌*◌, ◌<◌, ◌≤◌, ◌^◌, pos, suc, IfOk};
ghost use Rattle.awk_types.specs.Faults.{fault_told};
ghost use Rattle.awk_types.specs.Gives.{Gives};
ghost use Rattle.awk_layout.specs.Datum.{IsDatum, datum_of};
ghost use Rattle.awk_layout.specs.Typing.{array_type, array_items};
ghost use Rattle.awk_layout.specs.Valid.{len};
ghost use Rattle.awk_counts.specs.Counted.{places_lane};
ghost use Rattle.awk_select.specs.Picks.{items_at, step_range_of};
ghost use Rattle.awk_select.specs.Places as places;

use crate::places::{bound_down, bound_up};
use awk_gather::gather;
use awk_lanes::{Arena, IndexMaker, Lane, NoMemory, Steps, number};
use awk_layout::{Array, Datum};
use awk_range::range;
use awk_types::Fault;
use std::alloc::Global;
use std::sync::ledger::Ledger;

/// The items of an array from one bound to another, by a step. Either bound may be missing, a
/// negative one counts from the end, and both are kept within the array. `WrongType` tells that it
/// is a single value.
///
/// How it works, which no clause says: by step 1 the array is cut, else its items are gathered.
pub fn step_range<'a, L: Ledger>(
    alloc: Global,
    x: &Datum<'a>,
    lo: Option<i64>,
    hi: Option<i64>,
    step: i64,
    arena: &'a Arena,
    steps: &mut Steps<L>,
) -> Result<Datum<'a>, Fault>
    requires { step ≢ pos 0 }
    ensures answer { Gives datum_of fault_told result (step_range_of lo hi step (datum_of x.now)) }
    ensures datum { IfOk result (λ made. IsDatum made) }
{
    match x {
        Datum::Arr(x) => Ok(Datum::Arr(stepped(alloc, x, lo, hi, step, arena, steps)?)),
        Datum::One(_) => Err(Fault::WrongType),
    }
}

fn stepped<'a, L: Ledger>(
    alloc: Global,
    x: &Array<'a>,
    lo: Option<i64>,
    hi: Option<i64>,
    step: i64,
    arena: &'a Arena,
    steps: &mut Steps<L>,
) -> Result<Array<'a>, NoMemory>
    requires { step ≢ pos 0 }
    ensures typ { IfOk result (λ made. array_type made ≡ array_type x.now) }
    ensures items { let ks = places.range_places (len x.now) lo hi step in
        IfOk result (λ made. array_items made ≡ items_at (array_items x.now) ks) }
{
    if step == 1 {
        return between(alloc, x, lo, hi, steps);
    }
    let places = range_lane(x.len(), lo, hi, step, arena)?;
    gather(alloc, x, &places, arena, steps)
}

// A range of step 1.
fn between<'a, L: Ledger>(
    alloc: Global,
    x: &Array<'a>,
    lo: Option<i64>,
    hi: Option<i64>,
    steps: &mut Steps<L>,
) -> Result<Array<'a>, NoMemory>
    ensures typ { IfOk result (λ made. array_type made ≡ array_type x.now) }
    ensures items { let ks = places.range_places (len x.now) lo hi (pos 1) in
        IfOk result (λ made. array_items made ≡ items_at (array_items x.now) ks) }
{
    let n = x.len();
    let from = bound_up(n, 0, lo);
    let to = bound_up(n, n, hi).max(from);
    range(alloc, x, from, to, steps)
}

// The places of a range.
fn range_lane<'a>(
    n: u64,
    lo: Option<i64>,
    hi: Option<i64>,
    step: i64,
    arena: &'a Arena,
) -> Result<Lane<'a>, NoMemory>
    requires small { n < 2 ^ 63 }
    requires step { step ≢ pos 0 }
    ensures lane { IfOk result (λ r. r ≡ places_lane (places.range_places n lo hi step)) }
{
    if step > 0 {
        lane_up(bound_up(n, 0, lo), bound_up(n, n, hi), step as u64, arena)
    } else {
        lane_down(
            bound_down(n, n, lo),
            bound_down(n, 0, hi),
            step.unsigned_abs(),
            arena,
        )
    }
}

// How many multiples of a step are below a distance.
fn multiples_below(distance: u64, step: u64) -> u64
    requires distance { distance < 2 ^ 63 }
    requires step { 0 < step }
    requires small { step ≤ 2 ^ 63 }
    ensures { result ≡ places.multiples_below distance step }
{
    (distance + (step - 1)) / step
}

#[tactic(auto, using(awk_lanes::proofs::MadeLanes::making))]
fn lane_up<'a>(lo: u64, hi: u64, step: u64, arena: &'a Arena) -> Result<Lane<'a>, NoMemory>
    requires hi { hi < 2 ^ 63 }
    requires step { 0 < step }
    requires small { step ≤ 2 ^ 63 }
    ensures lane { IfOk result (λ r. r ≡ places_lane (places.places_up lo hi step)) }
{
    let n = multiples_below(hi.saturating_sub(lo), step);
    let mut maker = IndexMaker::new(n, arena)?;
    for j in 0..n {
        maker.push(number(place_up(lo, hi, step, j)));
    }
    Ok(maker.finish())
}

fn place_up(lo: u64, hi: u64, step: u64, j: u64) -> u64
    requires hi { hi < 2 ^ 63 }
    requires below { j * step < hi - lo }
    ensures place { result ≡ lo + j * step }
    ensures small { result < 2 ^ 63 }
{
    lo + j * step
}

#[tactic(auto, using(awk_lanes::proofs::MadeLanes::making))]
fn lane_down<'a>(lo: u64, hi: u64, step: u64, arena: &'a Arena) -> Result<Lane<'a>, NoMemory>
    requires lo { lo < 2 ^ 63 }
    requires step { 0 < step }
    requires small { step ≤ 2 ^ 63 }
    ensures lane { IfOk result (λ r. r ≡ places_lane (places.places_down lo hi step)) }
{
    let n = multiples_below(lo.saturating_sub(hi), step);
    let mut maker = IndexMaker::new(n, arena)?;
    for j in 0..n {
        maker.push(number(place_down(lo, hi, step, j)));
    }
    Ok(maker.finish())
}

fn place_down(lo: u64, hi: u64, step: u64, j: u64) -> u64
    requires lo { lo < 2 ^ 63 }
    requires below { j * step < lo - hi }
    ensures place { result ≡ lo - suc (j * step) }
    ensures small { result < 2 ^ 63 }
{
    lo - (j * step + 1)
}
