//! Lanes at places.
ghost use Rattle.std.specs.Prelude.{◌≡◌, ◌+◌, ◌-◌, ◌*◌, ◌<◌, ◌≤◌, ◌^◌, IfOk};
ghost use Rattle.awk_lanes.specs.Places.{size_of, IsIndexKind, IsIndex};
ghost use Rattle.awk_gather_lanes.specs.Lanes.{picked, nexts, blocks, AreBlocks};
ghost use Rattle.awk_gather_lanes.specs.Moved.{past};

use crate::moved::move_past;
use awk_lanes::{
    Arena, IndexMaker, Kind, Lane, NoMemory, Num, Numbers, Steps, made_lane, number, place_in,
};
use std::alloc::AllocError;
use std::sync::ledger::Ledger;

/// The numbers of a lane so far past those at places.
#[derive(Drop)]
struct Past<'b, 'a, 'c> {
    lane: &'b Lane<'a>,
    places: &'b Lane<'c>,
    distance: usize,
}

impl<'b, 'a, 'c> Numbers for Past<'b, 'a, 'c> {
    ghost use Rattle.std.specs.Prelude.{◌+◌, ◌-◌};
    ghost use Rattle.awk_lanes.specs.Places.{size_of, at, place_at, IsIndex};

    ghost kind = { λ p. p.lane.now.kind };

    ghost at = { λ p i. at p.lane.now (place_at p.places.now i + p.distance) };

    ghost size = { λ p. size_of p.places.now };

    ghost IsReady = { λ p. IsIndex p.places.now (size_of p.lane.now - p.distance) };

    fn number<L: Ledger>(&self, i: u64, steps: &mut Steps<L>) -> Num {
        let _ = self.lane.len();
        let place = place_in(self.places, i, steps) + self.distance as u64;
        self.lane.at(place, steps)
    }
}

/// The same, read one by one.
fn read_past<'a, L: Ledger>(
    lane: &Lane,
    places: &Lane,
    distance: usize,
    arena: &'a Arena,
    steps: &mut Steps<L>,
) -> Result<Lane<'a>, NoMemory>
    requires places { IsIndex places.now (size_of lane.now - distance) }
    ensures lane { IfOk result (λ r. r ≡ past distance lane.now places.now) }
{
    let source = Past {
        lane,
        places,
        distance,
    };
    made_lane(lane.kind(), places.len(), &source, arena, steps)
}

/// The numbers of a lane so far past those at places. All but truth values, of which any byte but 0
/// is one, are moved as they lie.
fn lane_past<'a, L: Ledger>(
    lane: &Lane,
    places: &Lane,
    distance: usize,
    arena: &'a Arena,
    steps: &mut Steps<L>,
) -> Result<Lane<'a>, NoMemory>
    requires places { IsIndex places.now (size_of lane.now - distance) }
    ensures lane { IfOk result (λ r. r ≡ past distance lane.now places.now) }
{
    match (places.kind(), lane.kind()) {
        (Kind::I64, Kind::I8 | Kind::U8) => move_past::<1, L>(lane, places, distance, arena, steps),
        (Kind::I64, Kind::I16 | Kind::U16) => {
            move_past::<2, L>(lane, places, distance, arena, steps)
        }
        (Kind::I64, Kind::I32 | Kind::U32) => {
            move_past::<4, L>(lane, places, distance, arena, steps)
        }
        (Kind::I64, Kind::I64 | Kind::U64) => {
            move_past::<8, L>(lane, places, distance, arena, steps)
        }
        _ => read_past(lane, places, distance, arena, steps),
    }
}

/// The numbers of a lane at places.
pub fn gather_lane<'a, L: Ledger>(
    lane: &Lane<'a>,
    places: &Lane,
    arena: &'a Arena,
    steps: &mut Steps<L>,
) -> Result<Lane<'a>, NoMemory>
    requires places { IsIndex places.now (size_of lane.now) }
    ensures lane { IfOk result (λ r. r ≡ picked lane.now places.now) }
{
    lane_past(lane, places, 0, arena, steps)
}

/// The numbers of a lane right after those at places.
pub fn next_lane<'a, L: Ledger>(
    lane: &Lane<'a>,
    places: &Lane,
    arena: &'a Arena,
    steps: &mut Steps<L>,
) -> Result<Lane<'a>, NoMemory>
    requires small { size_of lane.now ≤ 2 ^ 63 }
    requires places { IsIndex places.now (size_of lane.now - 1) }
    ensures lane { IfOk result (λ r. r ≡ nexts lane.now places.now) }
{
    lane_past(lane, places, 1, arena, steps)
}

/// For each place, so many places from its multiple on.
pub fn block_lane<'a, L: Ledger>(
    size: u64,
    places: &Lane,
    arena: &'a Arena,
    steps: &mut Steps<L>,
) -> Result<Lane<'a>, NoMemory>
    requires kind { IsIndexKind places.now.kind }
    requires blocks { AreBlocks (2 ^ 63 - 1) size places.now }
    ensures lane { IfOk result (λ r. r ≡ blocks size places.now) }
{
    let n = places.len();
    let Some(count) = n.checked_mul(size) else {
        return Err(AllocError);
    };
    let mut maker = IndexMaker::new(count, arena)?;
    for i in 0..n {
        let first = first_of(place_in(places, i, steps), size);
        for k in 0..size {
            maker.push(number(first + k));
        }
    }
    Ok(maker.finish())
}

/// The first place of a block.
fn first_of(place: u64, size: u64) -> u64
    requires { place * size + size < 2 ^ 63 }
    ensures { result ≡ place * size }
{
    place * size
}
