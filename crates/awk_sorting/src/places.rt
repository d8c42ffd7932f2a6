//! The places of numbers in order.
ghost use Rattle.std.specs.Prelude.{◌≡◌, ◌+◌, ◌-◌, ◌<◌, ◌≤◌, ◌++◌, length, map, pos, option_map};
ghost use Rattle.std.specs.Prelude.{IfOk};
ghost use Rattle.awk_lanes.specs.Places.{place_at};
ghost use Rattle.awk_lanes.specs.declared.kind.Kind.TheVariants as Kind;
ghost use Rattle.awk_sorting.specs.Cells.{cells_from, place_of};
ghost use Rattle.awk_sorting.specs.Cells.{AreCells, AreRanked, AreReady, OrdersLane};
ghost use Rattle.awk_sorting.specs.Order as spec;

use crate::cells::{Cells, Row, WideCells, WideRow};
use crate::keys::{Key, PLACES, push_keys, sort_keys};
use crate::ranks::{Ranks, reach_of};
use awk_index::{Index, index_of, wide_index};
use awk_lanes::{Arena, IndexMaker, Kind, Lane, NoMemory, Steps, number};
use awk_parts::offset_at;
use std::alloc::Global;
use std::sync::ledger::Ledger;

/// The places that keys tell, put behind others.
fn push_places<K: Key>(keys: &[K], maker: &mut IndexMaker)
    requires kind { maker.old.kind ≡ Kind.I64 }
    requires room { length maker.old.items + length keys.now ≤ maker.old.room }
    ensures kind { maker.new.kind ≡ Kind.I64 }
    ensures room { maker.new.room ≡ maker.old.room }
    ensures items { maker.new.items
        ≡ maker.old.items ++ map place_of (map K.number keys.now) }
{
    for i in 0..keys.len() {
        maker.push(number(keys[i].place()));
    }
}

/// The places of the cells from a start below a stop in order, put behind others. Their keys are
/// sorted in place of others.
fn push_order<K: Key, R: Row, L: Ledger>(
    keys: &mut Vec<K>,
    ranks: &Ranks<R>,
    start: u64,
    stop: u64,
    maker: &mut IndexMaker,
    steps: &mut Steps<L>,
) -> Result<(), NoMemory>
    requires cells { AreCells (R.lane ranks.now.row.now) (R.index ranks.now.row.now)
        ranks.now.count }
    requires ranked { AreRanked ranks.now.up (R.lane ranks.now.row.now) (R.index ranks.now.row.now)
        ranks.now.count ranks.now.reach.least ranks.now.reach.last }
    requires room { ranks.now.reach.last - ranks.now.reach.least < K.room }
    requires order { start ≤ stop }
    requires within { stop ≤ ranks.now.count }
    requires few { ranks.now.count ≤ 1073741824 }
    requires kind { maker.old.kind ≡ Kind.I64 }
    requires fits { length maker.old.items + (stop - start) ≤ maker.old.room }
    ensures kind { IfOk result (λ _. maker.new.kind ≡ Kind.I64) }
    ensures room { IfOk result (λ _. maker.new.room ≡ maker.old.room) }
    ensures items { let row = ranks.now.row.now in
        IfOk result (λ _. maker.new.items ≡ maker.old.items ++ map pos (spec.order ranks.now.up
        (cells_from (R.lane row) (R.index row) start (stop - start)))) }
{
    keys.clear();
    push_keys(keys, ranks, start, stop, steps)?;
    sort_keys(keys);
    push_places(keys, maker);
    Ok(())
}

/// The places of each of n parts in the order of its cells, by keys of one width.
fn places_by<'a, K: Key, R: Row, L: Ledger>(
    alloc: Global,
    ranks: &Ranks<R>,
    offsets: &Index,
    n: u64,
    arena: &'a Arena,
    steps: &mut Steps<L>,
) -> Result<Lane<'a>, NoMemory>
    requires ready { AreReady (R.lane ranks.now.row.now) (R.index ranks.now.row.now) offsets.now n }
    requires count { ranks.now.count ≡ place_at offsets.now n }
    requires ranked { AreRanked ranks.now.up (R.lane ranks.now.row.now) (R.index ranks.now.row.now)
        ranks.now.count ranks.now.reach.least ranks.now.reach.last }
    requires room { ranks.now.reach.last - ranks.now.reach.least < K.room }
    ensures { let row = ranks.now.row.now in
        IfOk result (OrdersLane ranks.now.up (R.lane row) (R.index row) offsets.now n) }
{
    let mut maker = IndexMaker::new(ranks.count, arena)?;
    let mut keys: Vec<K> = Vec::new(alloc);
    for i in 0..n {
        let start = offset_at(offsets, i);
        let stop = offset_at(offsets, i + 1);
        push_order(&mut keys, ranks, start, stop, &mut maker, steps)?;
    }
    Ok(maker.finish())
}

/// The same of a row. Where numbers are not far apart, keys of 64 bits serve.
fn places_of_row<'a, R: Row, L: Ledger>(
    alloc: Global,
    up: bool,
    row: &R,
    offsets: &Index,
    n: u64,
    arena: &'a Arena,
    steps: &mut Steps<L>,
) -> Result<Lane<'a>, NoMemory>
    requires ready { AreReady (R.lane row.now) (R.index row.now) offsets.now n }
    ensures { IfOk result (OrdersLane up (R.lane row.now) (R.index row.now) offsets.now n) }
{
    let count = offset_at(offsets, n);
    let reach = reach_of(row, up, count, steps);
    let ranks = Ranks {
        row,
        up,
        count,
        reach,
    };
    if reach.last.saturating_sub(reach.least) < u128::from(PLACES) {
        places_by::<u64, R, L>(alloc, &ranks, offsets, n, arena, steps)
    } else {
        places_by::<u128, R, L>(alloc, &ranks, offsets, n, arena, steps)
    }
}

/// A lane with the places of each of n parts in the order of its cells: rising or falling, nulls
/// last; of equal ones the first comes first.
pub fn places_in_order<'a, L: Ledger>(
    alloc: Global,
    up: bool,
    cells: &Cells<'_, 'a>,
    offsets: &Lane<'a>,
    n: u64,
    arena: &'a Arena,
    steps: &mut Steps<L>,
) -> Result<Lane<'a>, NoMemory>
    requires ready { let index = option_map (λ j. j.now) cells.now.index in
        AreReady cells.now.lane.now index offsets.now n }
    ensures { let index = option_map (λ j. j.now) cells.now.index in
        IfOk result (OrdersLane up cells.now.lane.now index offsets.now n) }
{
    let ends = index_of(alloc, offsets, arena, steps)?;
    if cells.lane.kind() != Kind::I64 {
        return places_of_row(alloc, up, cells, &ends, n, arena, steps);
    }
    let lane = wide_index(cells.lane, arena, steps)?;
    match cells.index {
        None => places_of_row(alloc, up, &WideRow { lane }, &ends, n, arena, steps),
        Some(index) => {
            let index = index_of(alloc, index, arena, steps)?;
            let row = WideCells { lane, index };
            places_of_row(alloc, up, &row, &ends, n, arena, steps)
        }
    }
}
