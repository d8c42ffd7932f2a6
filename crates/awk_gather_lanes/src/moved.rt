//! Numbers of lanes at places, moved as the groups of bytes that they lie in.
ghost use Rattle.std.specs.Prelude.{◌≡◌, ◌≢◌, ◌+◌, ◌-◌, ◌<◌, ◌^◌, length, pos, ◌≤ℤ◌, IfOk};
ghost use Rattle.std.specs.Int.{to_le_bytes, w32};
ghost use Rattle.awk_lanes.specs.Numbers.{nat_of, width};
ghost use Rattle.awk_lanes.specs.Places.{size_of, at, IsIndex};
ghost use Rattle.awk_lanes.specs.declared.kind.Kind.TheVariants as Kind;
ghost use Rattle.awk_lanes.specs.Made.{lane_of};
ghost use Rattle.awk_gather_lanes.specs.Moved.{past, eight, groups_past as groups_past_of};
ghost use Rattle.awk_gather_lanes.specs.Moved.{ArePlacesPast};
ghost use Rattle.awk_gather_lanes.specs.Moved.{narrow_groups as narrow_groups_of};

use awk_lanes::{Arena, Kind, Lane, NoMemory, Steps};
use bumpalo::collections::into_bump_slice;
use std::sync::ledger::Ledger;

/// The place that eight bytes are.
fn place_of(bytes: [u8; 8]) -> usize
    requires { pos 0 ≤ℤ eight bytes }
    ensures { result ≡ nat_of (eight bytes) }
{
    i64::from_le_bytes(bytes) as usize
}

/// The groups so far past those at places.
#[tactic(auto, using(awk_lanes::proofs::MadeLanes::making))]
fn groups_past<'a, const W: usize>(
    groups: &[[u8; W]],
    places: &[[u8; 8]],
    distance: usize,
    arena: &'a Arena,
) -> Result<&'a [[u8; W]], NoMemory>
    requires places { ArePlacesPast distance (length groups.now) places.now }
    ensures { IfOk result (λ r. r.now ≡ groups_past_of distance groups.now places.now) }
{
    let mut moved = Vec::with_capacity(arena, places.len())?;
    for i in 0..places.len() {
        moved.push_reserved(groups[place_of(places[i]) + distance]);
    }
    Ok(into_bump_slice(moved))
}

/// The numbers of W bytes so far past those at places.
pub fn move_past<'a, const W: usize, L: Ledger>(
    lane: &Lane,
    places: &Lane,
    distance: usize,
    arena: &'a Arena,
    steps: &mut Steps<L>,
) -> Result<Lane<'a>, NoMemory>
    requires kind { lane.now.kind ≢ Kind.Bool }
    requires width { width lane.now.kind ≡ W }
    requires some { 0 < W }
    requires index { places.now.kind ≡ Kind.I64 }
    requires places { IsIndex places.now (size_of lane.now - distance) }
    ensures lane { IfOk result (λ r. r ≡ past distance lane.now places.now) }
{
    let bytes = lane.bulk(arena, steps)?;
    let (groups, _) = bytes.as_chunks::<W>();
    let rows = places.bulk(arena, steps)?;
    let (places, _) = rows.as_chunks::<8>();
    let moved = groups_past(groups, places, distance, arena)?;
    Ok(Lane::new(lane.kind(), moved.as_flattened()))
}

/// A place in four bytes.
fn narrow(bytes: [u8; 8]) -> [u8; 4]
    requires positive { pos 0 ≤ℤ eight bytes }
    requires few { nat_of (eight bytes) < 2 ^ 32 }
    ensures { result ≡ to_le_bytes w32 (nat_of (eight bytes)) }
{
    (place_of(bytes) as u32).to_le_bytes()
}

/// Places in four bytes each.
fn narrow_groups<'a>(places: &[[u8; 8]], arena: &'a Arena) -> Result<&'a [[u8; 4]], NoMemory>
    requires places { ArePlacesPast 0 (2 ^ 32) places.now }
    ensures { IfOk result (λ r. r.now ≡ narrow_groups_of places.now) }
{
    let mut moved = Vec::with_capacity(arena, places.len())?;
    for i in 0..places.len() {
        moved.push_reserved(narrow(places[i]));
    }
    Ok(into_bump_slice(moved))
}

/// Places below 2^32 in 32 bits.
pub fn narrowed<'a, L: Ledger>(
    places: &Lane,
    arena: &'a Arena,
    steps: &mut Steps<L>,
) -> Result<Lane<'a>, NoMemory>
    requires index { places.now.kind ≡ Kind.I64 }
    requires few { IsIndex places.now (2 ^ 32) }
    ensures lane { IfOk result (λ r. r ≡ lane_of Kind.U32 (size_of places.now) (at places.now)) }
    ensures cost { steps.new ≡ steps.old + size_of places.now }
{
    let bytes = places.bulk(arena, steps)?;
    let (places, _) = bytes.as_chunks::<8>();
    let groups = narrow_groups(places, arena)?;
    Ok(Lane::new(Kind::U32, groups.as_flattened()))
}
