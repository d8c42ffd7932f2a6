//! Keys that stand in the order of cells: by rank, and where two are equal by place.
ghost use Rattle.std.specs.Prelude.{◌≡◌, ◌+◌, ◌-◌, ◌*◌, ◌%◌, ◌<◌, ◌≤◌, ◌++◌, pos, map, true, IfOk};
ghost use Rattle.awk_sorting.specs.Cells.{keys_from, AreCells, AreRanked};
ghost use Rattle.awk_sorting.specs.Order.{sort_numbers};

use crate::cells::Row;
use crate::number::Number;
use crate::ranks::{Ranks, height_at};
use awk_lanes::{NoMemory, Steps};
use std::sync::ledger::Ledger;

/// More than there are places.
pub(crate) const PLACES: u64 = 4_294_967_296;

/// A number that holds a height and a place.
pub(crate) trait Key: Number + Drop {
    ghost use Rattle.std.specs.Prelude.{◌≡◌, ◌+◌, ◌*◌, ◌%◌, ◌<◌, ℕ, pos};
    ghost use Rattle.awk_lanes.specs.Numbers.{nat_of};

    /// Heights are below this.
    ghost room: { ℕ };

    /// The key of a height and a place.
    fn of(height: u128, place: u64) -> Self
        requires height { height < room }
        requires place { place < 4294967296 }
        ensures { Self.number result ≡ pos (height * 4294967296 + place) };

    /// The place.
    fn place(&self) -> u64
        ensures { result ≡ nat_of (Self.number self.now) % 4294967296 };
}

impl Key for u64 {
    ghost room = { 4294967296 };

    #[inline(always)]
    fn of(height: u128, place: u64) -> u64 {
        height as u64 * PLACES + place
    }

    #[inline(always)]
    fn place(&self) -> u64 {
        *self % PLACES
    }
}

impl Key for u128 {
    ghost room = { 79228162514264337593543950336 };

    #[inline(always)]
    fn of(height: u128, place: u64) -> u128 {
        height * u128::from(PLACES) + u128::from(place)
    }

    #[inline(always)]
    fn place(&self) -> u64 {
        (*self % u128::from(PLACES)) as u64
    }
}

/// The keys of the cells from a start below a stop, each with its place among them, put behind
/// others.
pub(crate) fn push_keys<K: Key, R: Row, L: Ledger>(
    keys: &mut Vec<K>,
    ranks: &Ranks<R>,
    start: u64,
    stop: u64,
    steps: &mut Steps<L>,
) -> Result<(), NoMemory>
    requires cells { AreCells (R.lane ranks.now.row.now) (R.index ranks.now.row.now)
        ranks.now.count }
    requires ranked { AreRanked ranks.now.up (R.lane ranks.now.row.now) (R.index ranks.now.row.now)
        ranks.now.count ranks.now.reach.least ranks.now.reach.last }
    requires room { ranks.now.reach.last - ranks.now.reach.least < K.room }
    requires order { start ≤ stop }
    requires within { stop ≤ ranks.now.count }
    requires few { ranks.now.count ≤ 1073741824 }
    ensures { let row = ranks.now.row.now in
        let reach = ranks.now.reach in
        IfOk result (λ _. map K.number keys.new.items ≡ map K.number keys.old.items
        ++ keys_from ranks.now.up reach.least reach.last (R.lane row) (R.index row) start
        (stop - start)) }
{
    keys.reserve((stop - start) as usize)?;
    for i in start..stop {
        let height = height_at(ranks, i, steps);
        keys.push_reserved(K::of(height, i - start));
    }
    Ok(())
}

/// Keys brought in order.
pub(crate) fn sort_keys<K: Key>(keys: &mut Vec<K>)
    ensures { map K.number keys.new.items ≡ sort_numbers true (map K.number keys.old.items) }
{
    K::sort(keys);
}
