//! Numbers at the places that lists give, moved as the groups of bytes that they lie in.
ghost use Rattle.std.specs.Prelude.{◌≡◌, ◌<◌, ◌≤◌, length, IfOk};
ghost use Rattle.awk_lanes.specs.Counted.{before};
ghost use Rattle.awk_lanes.specs.Numbers.{width};
ghost use Rattle.awk_lanes.specs.Places.{size_of};
ghost use Rattle.awk_counts.specs.Counted.{numbers_at};
ghost use Rattle.awk_list_numbers.specs.ListPlaces.{list_places, groups_at, ArePlaces};

use awk_lanes::{Arena, Kind, Lane, Lengths, NoMemory, Steps};
use bumpalo::collections::into_bump_slice;
use std::sync::ledger::Ledger;

/// Lists of places.
pub trait Places: Lengths {
    ghost use Rattle.std.specs.Prelude.{ℕ};

    /// Item k of list i.
    ghost place: { Self → ℕ → ℕ → ℕ };

    /// Item k of list i.
    fn place<L: Ledger>(&self, i: u64, k: u64, steps: &mut Steps<L>) -> u64
        requires ready { Self.IsReady self.now }
        requires within { i < Self.size self.now }
        requires item { k < Self.length self.now i }
        ensures place { result ≡ place self.now i k };
}

/// The groups at the places of the first n lists.
fn list_groups<'a, const W: usize, S: Places, L: Ledger>(
    groups: &[[u8; W]],
    n: u64,
    total: u64,
    source: &S,
    arena: &'a Arena,
    steps: &mut Steps<L>,
) -> Result<&'a [[u8; W]], NoMemory>
    requires ready { S.Lengths.IsReady source.now }
    requires within { n ≤ S.Lengths.size source.now }
    requires total { total ≡ before (S.Lengths.length source.now) n }
    requires places { let m = S.Lengths.length source.now in
        ArePlaces (length groups.now) m (S.Places.place source.now) n }
    ensures { let m = S.Lengths.length source.now in
        let places = list_places m (S.Places.place source.now) n in
        IfOk result (λ r. r.now ≡ groups_at groups.now places) }
{
    let mut moved = Vec::with_capacity(arena, total as usize)?;
    for i in 0..n {
        for k in 0..source.length(i, steps) {
            let place = source.place(i, k, steps);
            moved.push_reserved(groups[place as usize]);
        }
    }
    Ok(into_bump_slice(moved))
}

/// The numbers of W bytes there.
fn wide_numbers<'a, const W: usize, S: Places, L: Ledger>(
    lane: &Lane,
    n: u64,
    total: u64,
    source: &S,
    arena: &'a Arena,
    steps: &mut Steps<L>,
) -> Result<Lane<'a>, NoMemory>
    requires width { width lane.now.kind ≡ W }
    requires some { 0 < W }
    requires ready { S.Lengths.IsReady source.now }
    requires within { n ≤ S.Lengths.size source.now }
    requires total { total ≡ before (S.Lengths.length source.now) n }
    requires places { let m = S.Lengths.length source.now in
        ArePlaces (size_of lane.now) m (S.Places.place source.now) n }
    ensures { let m = S.Lengths.length source.now in
        let places = list_places m (S.Places.place source.now) n in
        IfOk result (λ r. r ≡ numbers_at lane.now places) }
{
    let bytes = lane.bulk(arena, steps)?;
    let (groups, _) = bytes.as_chunks::<W>();
    let moved = list_groups::<W, S, L>(groups, n, total, source, arena, steps)?;
    Ok(Lane::new(lane.kind(), moved.as_flattened()))
}

/// The numbers of a lane at the places of the first n lists, of which there are `total`, one list
/// after another, as they lie.
pub fn list_numbers<'a, S: Places, L: Ledger>(
    lane: &Lane,
    n: u64,
    total: u64,
    source: &S,
    arena: &'a Arena,
    steps: &mut Steps<L>,
) -> Result<Lane<'a>, NoMemory>
    requires ready { S.Lengths.IsReady source.now }
    requires within { n ≤ S.Lengths.size source.now }
    requires total { total ≡ before (S.Lengths.length source.now) n }
    requires places { let m = S.Lengths.length source.now in
        ArePlaces (size_of lane.now) m (S.Places.place source.now) n }
    ensures { let m = S.Lengths.length source.now in
        let places = list_places m (S.Places.place source.now) n in
        IfOk result (λ r. r ≡ numbers_at lane.now places) }
{
    match lane.kind() {
        Kind::Bool | Kind::I8 | Kind::U8 => {
            wide_numbers::<1, S, L>(lane, n, total, source, arena, steps)
        }
        Kind::I16 | Kind::U16 => wide_numbers::<2, S, L>(lane, n, total, source, arena, steps),
        Kind::I32 | Kind::U32 => wide_numbers::<4, S, L>(lane, n, total, source, arena, steps),
        Kind::I64 | Kind::U64 => wide_numbers::<8, S, L>(lane, n, total, source, arena, steps),
    }
}
