//! Tuples that are begun, a slot at a time.
ghost use Rattle.std.specs.Prelude.{◌≡◌, ◌<◌, ◌^◌, ◌++◌, map, IfOk};
ghost use Rattle.std.specs.List.{flat_map, range_with_len, AllByRecursion};
ghost use Rattle.awk_lanes.specs.Places.{size_of};
ghost use Rattle.awk_lanes.specs.Words.{column, integers};
ghost use Rattle.awk_lanes.specs.declared.kind.Kind.TheVariants as Kinds;
ghost use Rattle.awk_places.specs.Begun.{again, places_of, Fits, IsFew};
ghost use Rattle.awk_places.specs.Begun as spec;
ghost use Rattle.awk_places.specs.Places as places;
ghost use Rattle.awk_places.specs.Slots.{ArePlaces};

use crate::counts::count_rising;
use crate::maker::{PlaceMaker, put_places, put_times};
use crate::reading::place_of;
use awk_lanes::{Arena, Lane, Steps};
use awk_types::NoMemory;
use std::alloc::Global;
use std::sync::ledger::Ledger;

/// The first places of a tuple: the least place that may follow, and where those of its list end.
#[derive(Clone, Copy, Debug, PartialEq, Eq)]
pub(crate) struct Begun {
    pub(crate) least: u64,
    pub(crate) stop: u64,
}

/// The least place that may follow another: with replacement the same.
pub(crate) fn next_place(replacement: bool, place: u64) -> u64
    requires { place < 2 ^ 63 }
    ensures { result ≡ places.next_place replacement place }
{
    if replacement { place } else { place + 1 }
}

/// How many places the slots that are left need for themselves.
pub(crate) fn reserved(replacement: bool, left: u64) -> u64
    ensures { result ≡ spec.reserved replacement left }
{
    if replacement { 0 } else { left }
}

/// List i with no place of a tuple yet.
#[inline(always)]
pub(crate) fn begun_at<L: Ledger>(firsts: &Lane, ends: &Lane, i: u64, steps: &mut Steps<L>) -> Begun
    requires places { ArePlaces firsts.now ends.now }
    requires within { i < size_of firsts.now }
    ensures begun { result ≡ spec.first_begun firsts.now ends.now i }
    ensures fits { Fits result }
{
    let least = place_of(firsts, i, steps);
    let stop = place_of(ends, i, steps);
    Begun { least, stop }
}

/// Each list with no place of a tuple yet.
pub(crate) fn first_begun<L: Ledger>(
    alloc: Global,
    firsts: &Lane,
    ends: &Lane,
    steps: &mut Steps<L>,
) -> Result<Vec<Begun>, NoMemory>
    requires places { ArePlaces firsts.now ends.now }
    ensures begun { IfOk result (λ r. r.items
        ≡ map (spec.first_begun firsts.now ends.now) (range_with_len 0 (size_of firsts.now))) }
    ensures fits { IfOk result (λ r. AllByRecursion Fits r.items) }
{
    let mut made = Vec::with_capacity(alloc, firsts.len() as usize)?;
    for i in 0..firsts.len() {
        made.push(begun_at(firsts, ends, i, steps))?;
    }
    Ok(made)
}

/// Adds what is begun with each place that may follow, where so many slots are left after it.
fn put_longer(
    made: &mut Vec<Begun>,
    replacement: bool,
    left: u64,
    begun: Begun,
) -> Result<(), NoMemory>
    requires { Fits begun }
    ensures { IfOk result (λ _. made.new.items
        ≡ made.old.items ++ spec.longer replacement left begun) }
{
    let end = begun.stop.saturating_sub(reserved(replacement, left));
    for place in begun.least..end {
        made.push(Begun {
            least: next_place(replacement, place),
            stop: begun.stop,
        })?;
    }
    Ok(())
}

/// What is begun, each with each place that may follow, where so many slots are left after it.
pub(crate) fn longer(
    alloc: Global,
    replacement: bool,
    left: u64,
    begun: &[Begun],
) -> Result<Vec<Begun>, NoMemory>
    requires { AllByRecursion Fits begun.now }
    ensures { IfOk result (λ r. r.items
        ≡ flat_map (spec.longer replacement left) begun.now) }
{
    let mut made = Vec::with_capacity(alloc, begun.len())?;
    for i in 0..begun.len() {
        put_longer(&mut made, replacement, left, begun[i])?;
    }
    Ok(made)
}

/// How many tuples of so many further places are begun so.
fn rest_count(replacement: bool, left: u64, begun: Begun) -> u64
    requires { IsFew replacement left begun }
    ensures { result ≡ spec.rest_count replacement left begun.least begun.stop }
{
    let room = begun.stop.saturating_sub(begun.least);
    if left == 1 {
        return room;
    }
    match count_rising(replacement, left, room) {
        Some(count) => count,
        None => unreachable!(),
    }
}

/// Adds the last place of what is begun, for each of the tuples that it is continued to.
fn put_again(
    made: &mut PlaceMaker,
    replacement: bool,
    left: u64,
    begun: Begun,
) -> Result<(), NoMemory>
    requires fits { Fits begun }
    requires few { IsFew replacement left begun }
    ensures { IfOk result (λ _. made.new ≡ made.old ++ again replacement left begun) }
{
    let last = begun.least.saturating_sub(reserved(replacement, 1));
    put_times(made, last, rest_count(replacement, left, begun))
}

/// The lane of the last places of what is begun, each as often as it is continued: `total` places.
pub(crate) fn slot_lane<'a>(
    replacement: bool,
    left: u64,
    total: u64,
    begun: &[Begun],
    arena: &'a Arena,
) -> Result<Lane<'a>, NoMemory>
    requires fits { AllByRecursion Fits begun.now }
    requires few { AllByRecursion (IsFew replacement left) begun.now }
    ensures { IfOk result (λ r.
        r ≡ column Kinds.I64 (integers (flat_map (again replacement left) begun.now))) }
{
    let mut made = PlaceMaker::new(total, arena)?;
    for i in 0..begun.len() {
        put_again(&mut made, replacement, left, begun[i])?;
    }
    Ok(made.finish())
}

/// Adds the places that may follow.
fn put_rest(made: &mut PlaceMaker, begun: Begun) -> Result<(), NoMemory>
    requires { Fits begun }
    ensures { IfOk result (λ _. made.new ≡ made.old ++ places_of begun) }
{
    put_places(made, begun.least, begun.stop)
}

/// The lane of all places that may follow, of which there are `total`.
pub(crate) fn last_lane<'a>(
    total: u64,
    begun: &[Begun],
    arena: &'a Arena,
) -> Result<Lane<'a>, NoMemory>
    requires { AllByRecursion Fits begun.now }
    ensures { IfOk result (λ r. r ≡ column Kinds.I64 (integers (flat_map places_of begun.now))) }
{
    let mut made = PlaceMaker::new(total, arena)?;
    for i in 0..begun.len() {
        put_rest(&mut made, begun[i])?;
    }
    Ok(made.finish())
}
