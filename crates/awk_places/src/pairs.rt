//! The last two slots of tuples, made of what is begun without a list of all tuples but for one
//! place. Of pairs nothing is begun, and both slots are made in one go.
ghost use Rattle.std.specs.Prelude.{◌≡◌, ◌++◌, IfOk};
ghost use Rattle.std.specs.List.{flat_map, range_with_len, AllByRecursion};
ghost use Rattle.awk_lanes.specs.Places.{size_of};
ghost use Rattle.awk_lanes.specs.Words.{column, integers};
ghost use Rattle.awk_lanes.specs.declared.kind.Kind.TheVariants as Kinds;
ghost use Rattle.awk_places.specs.Begun.{pair_firsts, pair_seconds, first_places, second_places};
ghost use Rattle.awk_places.specs.Begun.{Fits};
ghost use Rattle.awk_places.specs.Slots.{ArePlaces};

use crate::begun::{Begun, begun_at, next_place, reserved};
use crate::maker::{PlaceMaker, put_places, put_times};
use awk_lanes::{Arena, Lane, Steps};
use awk_types::NoMemory;
use std::sync::ledger::Ledger;

/// Adds each place that may follow, as often as there are places that may follow it.
fn put_firsts(made: &mut PlaceMaker, replacement: bool, begun: Begun) -> Result<(), NoMemory>
    requires { Fits begun }
    ensures { IfOk result (λ _. made.new ≡ made.old ++ pair_firsts replacement begun) }
{
    let end = begun.stop.saturating_sub(reserved(replacement, 1));
    for place in begun.least..end {
        let next = next_place(replacement, place);
        put_times(made, place, begun.stop.saturating_sub(next))?;
    }
    Ok(())
}

/// Adds the places that may follow each place that may follow.
fn put_seconds(made: &mut PlaceMaker, replacement: bool, begun: Begun) -> Result<(), NoMemory>
    requires { Fits begun }
    ensures { IfOk result (λ _. made.new ≡ made.old ++ pair_seconds replacement begun) }
{
    let end = begun.stop.saturating_sub(reserved(replacement, 1));
    for place in begun.least..end {
        put_places(made, next_place(replacement, place), begun.stop)?;
    }
    Ok(())
}

/// The lane of the last slot but one, where one more place follows what is begun and that one:
/// `total` places.
pub(crate) fn first_lane<'a>(
    replacement: bool,
    total: u64,
    begun: &[Begun],
    arena: &'a Arena,
) -> Result<Lane<'a>, NoMemory>
    requires { AllByRecursion Fits begun.now }
    ensures { IfOk result (λ r.
        r ≡ column Kinds.I64 (integers (flat_map (pair_firsts replacement) begun.now))) }
{
    let mut made = PlaceMaker::new(total, arena)?;
    for i in 0..begun.len() {
        put_firsts(&mut made, replacement, begun[i])?;
    }
    Ok(made.finish())
}

/// The lane of the last slot of these tuples.
pub(crate) fn second_lane<'a>(
    replacement: bool,
    total: u64,
    begun: &[Begun],
    arena: &'a Arena,
) -> Result<Lane<'a>, NoMemory>
    requires { AllByRecursion Fits begun.now }
    ensures { IfOk result (λ r.
        r ≡ column Kinds.I64 (integers (flat_map (pair_seconds replacement) begun.now))) }
{
    let mut made = PlaceMaker::new(total, arena)?;
    for i in 0..begun.len() {
        put_seconds(&mut made, replacement, begun[i])?;
    }
    Ok(made.finish())
}

/// The lanes of both slots of pairs.
#[derive(Drop)]
pub(crate) struct Pairs<'a> {
    pub(crate) first: Lane<'a>,
    pub(crate) second: Lane<'a>,
}

/// The lanes of both slots of the pairs of all lists, of which there are `total`.
pub(crate) fn both_lanes<'a, L: Ledger>(
    replacement: bool,
    total: u64,
    firsts: &Lane,
    ends: &Lane,
    arena: &'a Arena,
    steps: &mut Steps<L>,
) -> Result<Pairs<'a>, NoMemory>
    requires { ArePlaces firsts.now ends.now }
    ensures first { let places = first_places replacement firsts.now ends.now in
        IfOk result (λ r. r.first
        ≡ column Kinds.I64 (integers (flat_map places (range_with_len 0 (size_of firsts.now))))) }
    ensures second { let places = second_places replacement firsts.now ends.now in
        IfOk result (λ r. r.second
        ≡ column Kinds.I64 (integers (flat_map places (range_with_len 0 (size_of firsts.now))))) }
{
    let mut first = PlaceMaker::new(total, arena)?;
    let mut second = PlaceMaker::new(total, arena)?;
    for i in 0..firsts.len() {
        let begun = begun_at(firsts, ends, i, steps);
        put_firsts(&mut first, replacement, begun)?;
        put_seconds(&mut second, replacement, begun)?;
    }
    Ok(Pairs {
        first: first.finish(),
        second: second.finish(),
    })
}
