//! Readers of one number, for lanes of offsets, places, tags and masks. Each takes one step.
ghost use Rattle.std.specs.Prelude.{◌≡◌, ◌+◌, ◌<◌, ◌^◌, ◌≤ℤ◌, pos};
ghost use Rattle.awk_lanes.specs.Numbers.{nat_of, int_of, is_nonzero, IsOf};
ghost use Rattle.awk_lanes.specs.Places.{size_of, at, place_at, option_place, option_place_at};
ghost use Rattle.awk_lanes.specs.Places.{IsIndexKind, IsOptionKind};
ghost use Rattle.awk_lanes.specs.declared.kind.Kind.TheVariants as Kind;

use crate::kind::Num;
use crate::lane::{Held, Lane};
use crate::steps::Steps;
use std::sync::ledger::Ledger;

/// The number at place i of a lane of offsets, starts, stops or indexes.
#[inline(always)]
pub fn index_at<L: Ledger>(lane: &Lane, i: u64, steps: &mut Steps<L>) -> i64
    requires kind { IsIndexKind lane.now.kind }
    requires within { i < size_of lane.now }
    ensures value { result ≡ at lane.now i }
    ensures cost { steps.new ≡ steps.old + 1 }
{
    match lane.at(i, steps) {
        Num::Int(z) => z,
        Num::Nat(n) => n as i64,
        Num::Truth(_) => unreachable!(),
    }
}

/// The number at place i of a lane of 64 bits, whose kind is not asked for.
#[inline(always)]
pub fn wide_at<L: Ledger>(lane: &Lane, i: u64, steps: &mut Steps<L>) -> i64
    requires kind { lane.now.kind ≡ Kind.I64 }
    requires within { i < size_of lane.now }
    ensures value { result ≡ at lane.now i }
    ensures cost { steps.new ≡ steps.old + 1 }
{
    match lane.held() {
        Held::Bytes(lane) => lane.wide_at(i, steps),
        Held::Run(places) => places.wide_at(i, steps),
    }
}

/// The number at place i of such a lane as a place, where it is not negative.
#[inline(always)]
pub fn place_in<L: Ledger>(lane: &Lane, i: u64, steps: &mut Steps<L>) -> u64
    requires kind { IsIndexKind lane.now.kind }
    requires within { i < size_of lane.now }
    requires positive { pos 0 ≤ℤ at lane.now i }
    ensures value { result ≡ place_at lane.now i }
    ensures cost { steps.new ≡ steps.old + 1 }
{
    match lane.at(i, steps) {
        Num::Int(z) => z as u64,
        Num::Nat(n) => n,
        Num::Truth(_) => unreachable!(),
    }
}

/// The place at place i of the index of an option, or none where it is negative.
#[inline(always)]
pub fn option_place_in<L: Ledger>(lane: &Lane, i: u64, steps: &mut Steps<L>) -> Option<u64>
    requires kind { IsOptionKind lane.now.kind }
    requires within { i < size_of lane.now }
    ensures value { result ≡ option_place_at lane.now i }
    ensures cost { steps.new ≡ steps.old + 1 }
{
    match lane.at(i, steps) {
        Num::Int(z) => to_option_place(z),
        Num::Nat(_) | Num::Truth(_) => unreachable!(),
    }
}

/// The tag at place i, where it is not negative.
pub fn tag_in<L: Ledger>(lane: &Lane, i: u64, steps: &mut Steps<L>) -> u64
    requires kind { lane.now.kind ≡ Kind.I8 }
    requires within { i < size_of lane.now }
    requires positive { pos 0 ≤ℤ at lane.now i }
    ensures value { result ≡ place_at lane.now i }
    ensures cost { steps.new ≡ steps.old + 1 }
{
    match lane.at(i, steps) {
        Num::Int(z) => to_place(z),
        Num::Nat(_) | Num::Truth(_) => unreachable!(),
    }
}

/// Whether the byte at place i of a mask is not 0.
pub fn is_set<L: Ledger>(lane: &Lane, i: u64, steps: &mut Steps<L>) -> bool
    requires kind { lane.now.kind ≡ Kind.I8 }
    requires within { i < size_of lane.now }
    ensures value { result ≡ is_nonzero (at lane.now i) }
    ensures cost { steps.new ≡ steps.old + 1 }
{
    match lane.at(i, steps) {
        Num::Int(z) => z != 0,
        Num::Nat(_) | Num::Truth(_) => unreachable!(),
    }
}

/// A number that is not negative, as a place.
pub fn to_place(z: i64) -> u64
    requires { pos 0 ≤ℤ z }
    ensures { result ≡ nat_of z }
{
    z as u64
}

/// A place as a number of a lane.
pub fn number(place: u64) -> Num
    requires { place < 2 ^ 63 }
    ensures number { int_of result ≡ pos place }
    ensures kind { IsOf Kind.I64 result }
{
    Num::Int(place as i64)
}

/// A number as a place, or none where it is negative.
#[inline(always)]
pub fn to_option_place(z: i64) -> Option<u64>
    ensures { result ≡ option_place z }
{
    if z < 0 { None } else { Some(z as u64) }
}
