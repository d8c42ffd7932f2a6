//! Numbers of a lane at the places that the index of an option names.
ghost use Rattle.std.specs.Prelude.{◌≡◌, ◌≢◌, ◌<◌, length, IfOk};
ghost use Rattle.awk_lanes.specs.Numbers.{width};
ghost use Rattle.awk_lanes.specs.Places.{size_of, option_place, IsOptionalIndex};
ghost use Rattle.awk_lanes.specs.declared.kind.Kind.TheVariants as Kind;
ghost use Rattle.awk_gather_lanes.specs.Moved.{eight};
ghost use Rattle.awk_counts.specs.Counted.{first_of, present_at};
ghost use Rattle.awk_present.specs.Named.{named_places, named_groups, ArePlacesOf};
ghost use Rattle.awk_present.specs.Present.{taken_lane};

use awk_lanes::{Arena, Kind, Lane, LaneMaker, NoMemory, Steps, option_place_in};
use bumpalo::collections::into_bump_slice;
use std::sync::ledger::Ledger;

/// The numbers of a lane at the n places that an index names, read one by one.
fn read_named<'a, L: Ledger>(
    index: &Lane,
    lane: &Lane,
    n: u64,
    arena: &'a Arena,
    steps: &mut Steps<L>,
) -> Result<Lane<'a>, NoMemory>
    requires index { IsOptionalIndex index.now (size_of lane.now) }
    requires count { n ≡ length (first_of (present_at index.now) (size_of index.now)) }
    ensures { let places = first_of (present_at index.now) (size_of index.now) in
        IfOk result (λ r. r ≡ taken_lane lane.now places) }
{
    let mut maker = LaneMaker::new(lane.kind(), n, arena)?;
    for i in 0..index.len() {
        if let Some(place) = option_place_in(index, i, steps) {
            maker.push(lane.at(place, steps));
        }
    }
    Ok(maker.finish())
}

/// The place that eight bytes are, or none where they are negative.
fn place_of(bytes: [u8; 8]) -> Option<usize>
    ensures { result ≡ option_place (eight bytes) }
{
    let place = i64::from_le_bytes(bytes);
    if place < 0 {
        None
    } else {
        Some(place as usize)
    }
}

/// The groups of bytes at the n places that are not negative.
fn groups_named<'a, const W: usize>(
    groups: &[[u8; W]],
    places: &[[u8; 8]],
    n: usize,
    arena: &'a Arena,
) -> Result<&'a [[u8; W]], NoMemory>
    requires within { ArePlacesOf (length groups.now) places.now }
    requires count { n ≡ length (named_places places.now) }
    ensures { IfOk result (λ r. r.now ≡ named_groups groups.now places.now) }
{
    let mut named = Vec::with_capacity(arena, n)?;
    for i in 0..places.len() {
        if let Some(place) = place_of(places[i]) {
            named.push_reserved(groups[place]);
        }
    }
    Ok(into_bump_slice(named))
}

/// The numbers of W bytes at the n places that an index names, moved as they lie.
fn numbers_named<'a, const W: usize, L: Ledger>(
    index: &Lane,
    lane: &Lane,
    n: u64,
    arena: &'a Arena,
    steps: &mut Steps<L>,
) -> Result<Lane<'a>, NoMemory>
    requires kind { lane.now.kind ≢ Kind.Bool }
    requires width { width lane.now.kind ≡ W }
    requires some { 0 < W }
    requires wide { index.now.kind ≡ Kind.I64 }
    requires index { IsOptionalIndex index.now (size_of lane.now) }
    requires count { n ≡ length (first_of (present_at index.now) (size_of index.now)) }
    ensures { let places = first_of (present_at index.now) (size_of index.now) in
        IfOk result (λ r. r ≡ taken_lane lane.now places) }
{
    let bytes = lane.bulk(arena, steps)?;
    let (groups, _) = bytes.as_chunks::<W>();
    let rows = index.bulk(arena, steps)?;
    let (places, _) = rows.as_chunks::<8>();
    let named = groups_named(groups, places, n as usize, arena)?;
    Ok(Lane::new(lane.kind(), named.as_flattened()))
}

/// The numbers of a lane at the n places that the index of an option names. All but truth values,
/// of which any byte but 0 is one, are moved as they lie.
pub(crate) fn numbers_at<'a, L: Ledger>(
    index: &Lane,
    lane: &Lane,
    n: u64,
    arena: &'a Arena,
    steps: &mut Steps<L>,
) -> Result<Lane<'a>, NoMemory>
    requires index { IsOptionalIndex index.now (size_of lane.now) }
    requires count { n ≡ length (first_of (present_at index.now) (size_of index.now)) }
    ensures { let places = first_of (present_at index.now) (size_of index.now) in
        IfOk result (λ r. r ≡ taken_lane lane.now places) }
{
    match (index.kind(), lane.kind()) {
        (Kind::I64, Kind::I8 | Kind::U8) => numbers_named::<1, L>(index, lane, n, arena, steps),
        (Kind::I64, Kind::I16 | Kind::U16) => numbers_named::<2, L>(index, lane, n, arena, steps),
        (Kind::I64, Kind::I32 | Kind::U32) => numbers_named::<4, L>(index, lane, n, arena, steps),
        (Kind::I64, Kind::I64 | Kind::U64) => numbers_named::<8, L>(index, lane, n, arena, steps),
        _ => read_named(index, lane, n, arena, steps),
    }
}
