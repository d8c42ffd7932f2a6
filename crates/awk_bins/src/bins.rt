//! How many numbers of each part lie in each interval.
ghost use Rattle.std.specs.Prelude.{◌≡◌, ◌≢◌, ◌+◌, ◌<◌, ◌≤◌, ◌^◌, ◌++◌, length, get_or, map, pos};
ghost use Rattle.std.specs.Prelude.{ℕ, true, IfOk, IfSome};
ghost use Rattle.awk_lanes.specs.declared.kind.Kind.TheVariants as Kind;
ghost use Rattle.awk_numbers.specs.Folds.{lane_numbers};
ghost use Rattle.awk_parts.specs.Parts.{AreParts, part_at};
ghost use Rattle.awk_bins.specs.Bins.{AreBinned};
ghost use Rattle.awk_bins.specs.Edges.{are_edges};
ghost use Rattle.awk_bins.specs.Even.{AreEven};
ghost use Rattle.awk_bins.specs.Near.{AreNear};

use crate::edges::{Edges, near_edges};
use crate::even::even_edges;
use crate::number::Number;
use crate::tallies::tally_row;
use awk_index::{Index, index_of, nats_of, numbers_of};
use awk_lanes::{Arena, IndexMaker, Kind, Lane, NoMemory, Steps, number};
use awk_numbers::{Whole, whole_of};
use awk_parts::offset_at;
use std::alloc::{AllocError, Global};
use std::sync::ledger::Ledger;

/// How many numbers of each part lie in each interval, below the first edge, and from the last on.
#[derive(Drop)]
pub struct Binned<'a> {
    /// As many counts for each part as there are intervals.
    pub counts: Lane<'a>,
    pub under: Lane<'a>,
    pub over: Lane<'a>,
}

/// Adds tallies to a lane.
fn push_tallies(tallies: &[u64], maker: &mut IndexMaker)
    requires room { length maker.old.items + length tallies.now ≤ maker.old.room }
    requires small { (j : ℕ) → j < length tallies.now → get_or tallies.now j 0 < 2 ^ 63 }
    ensures kind { maker.new.kind ≡ maker.old.kind }
    ensures room { maker.new.room ≡ maker.old.room }
    ensures items { maker.new.items ≡ maker.old.items ++ map (λ n. pos n) tallies.now }
{
    for i in 0..tallies.len() {
        maker.push(number(tallies[i]));
    }
}

/// The counts of each part, whose numbers are tallied in a row of one place more than there are
/// edges.
fn row_counts<'a, N: Number>(
    numbers: &[N],
    offsets: &Index,
    n: u64,
    edges: &Edges<N>,
    row: &mut [u64],
    arena: &'a Arena,
) -> Result<Binned<'a>, NoMemory>
    requires parts { AreParts (map N.number numbers.now) offsets.now n }
    requires near { AreNear N.least N.greatest edges.now.all.now
        (map N.number edges.now.near.now) }
    requires even { IfSome edges.now.even (λ e. AreEven (N.number e.base) e.step
        (map N.number edges.now.near.now)) }
    requires edges { are_edges edges.now.all.now ≡ true }
    requires size { length row.old ≡ length edges.now.all.now + 1 }
    ensures { let part = part_at (map N.number numbers.now) offsets.now in
        IfOk result (AreBinned edges.now.all.now part n) }
{
    let last = edges.all.len();
    let total = n.checked_mul(last as u64 - 1).ok_or(AllocError)?;
    let mut counts = IndexMaker::new(total, arena)?;
    let mut under = IndexMaker::new(n, arena)?;
    let mut over = IndexMaker::new(n, arena)?;
    for i in 0..n {
        let start = offset_at(offsets, i) as usize;
        let stop = offset_at(offsets, i + 1) as usize;
        tally_row(&numbers[start..stop], edges, row);
        under.push(number(row[0]));
        push_tallies(&row[1..last], &mut counts);
        over.push(number(row[last]));
    }
    Ok(Binned {
        counts: counts.finish(),
        under: under.finish(),
        over: over.finish(),
    })
}

/// The same, of edges as they are.
fn part_counts<'a, N: Number>(
    alloc: Global,
    numbers: &[N],
    offsets: &Index,
    n: u64,
    edges: &[i128],
    arena: &'a Arena,
) -> Result<Binned<'a>, NoMemory>
    requires parts { AreParts (map N.number numbers.now) offsets.now n }
    requires edges { are_edges edges.now ≡ true }
    ensures { let part = part_at (map N.number numbers.now) offsets.now in
        IfOk result (AreBinned edges.now part n) }
{
    let mut row = vec![in alloc; 0u64; edges.len() + 1]?;
    let near = near_edges(alloc, edges)?;
    let edges = Edges {
        all: edges,
        near: &near,
        even: even_edges(&near),
    };
    row_counts(numbers, offsets, n, &edges, &mut row, arena)
}

/// The same of the numbers of a lane, read one after another first.
fn read_counts<'a, L: Ledger>(
    alloc: Global,
    lane: &Lane,
    offsets: &Index,
    n: u64,
    edges: &[i128],
    arena: &'a Arena,
    steps: &mut Steps<L>,
) -> Result<Binned<'a>, NoMemory>
    requires kind { lane.now.kind ≢ Kind.Bool }
    requires parts { AreParts (lane_numbers lane.now) offsets.now n }
    requires edges { are_edges edges.now ≡ true }
    ensures { IfOk result (AreBinned edges.now (part_at (lane_numbers lane.now) offsets.now) n) }
{
    if lane.kind() == Kind::U64 {
        let nats = nats_of(alloc, lane, steps)?;
        part_counts(alloc, &nats, offsets, n, edges, arena)
    } else {
        let numbers = numbers_of(alloc, lane, steps)?;
        part_counts(alloc, &numbers, offsets, n, edges, arena)
    }
}

/// The same of the numbers of a lane: those of an i64 where they lie.
fn lane_counts<'a, L: Ledger>(
    alloc: Global,
    lane: &Lane,
    offsets: &Index,
    n: u64,
    edges: &[i128],
    arena: &'a Arena,
    steps: &mut Steps<L>,
) -> Result<Binned<'a>, NoMemory>
    requires kind { lane.now.kind ≢ Kind.Bool }
    requires parts { AreParts (lane_numbers lane.now) offsets.now n }
    requires edges { are_edges edges.now ≡ true }
    ensures { IfOk result (AreBinned edges.now (part_at (lane_numbers lane.now) offsets.now) n) }
{
    match whole_of(lane, arena, steps)? {
        Whole::I64(numbers) => part_counts(alloc, numbers, offsets, n, edges, arena),
        _ => read_counts(alloc, lane, offsets, n, edges, arena, steps),
    }
}

/// How many numbers of each part lie in each interval.
pub fn bins_of<'a, L: Ledger>(
    alloc: Global,
    lane: &Lane,
    offsets: &Lane<'a>,
    n: u64,
    edges: &[i128],
    arena: &'a Arena,
    steps: &mut Steps<L>,
) -> Result<Binned<'a>, NoMemory>
    requires kind { lane.now.kind ≢ Kind.Bool }
    requires parts { AreParts (lane_numbers lane.now) offsets.now n }
    requires edges { are_edges edges.now ≡ true }
    ensures { IfOk result (AreBinned edges.now (part_at (lane_numbers lane.now) offsets.now) n) }
{
    let ends = index_of(alloc, offsets, arena, steps)?;
    lane_counts(alloc, lane, &ends, n, edges, arena, steps)
}
