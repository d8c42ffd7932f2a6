//! The lengths of runs of equal neighbours.
ghost use Rattle.std.specs.Prelude.{◌≡◌, ◌+◌, ◌-◌, ◌<◌, ◌≤◌, ◌^◌, ◌∷◌, ◌++◌, length, map, pos};
ghost use Rattle.std.specs.Prelude.{IfOk};
ghost use Rattle.std.specs.Ordering.{int_eq};
ghost use Rattle.awk_types.specs.Faults.{fault_told};
ghost use Rattle.awk_types.specs.Gives.{Gives};
ghost use Rattle.awk_lanes.specs.Places.{size_of, at};
ghost use Rattle.awk_lanes.specs.declared.kind.Kind.TheVariants as Kind;
ghost use Rattle.awk_layout.specs.Datum.{datum_of, IsDatum};
ghost use Rattle.awk_lists.specs.RunLengths.{run_lengths_function, run_lengths_of};
ghost use Rattle.awk_lists.specs.Runs as spec;
ghost use Rattle.awk_lists.specs.Runs.{runs_between, runs_before, run_lane, AreRising};

use crate::numbers::numbers_of;
use awk_axis::lift_deep;
use awk_columns::{Joined, Lists};
use awk_lanes::{Arena, IndexMaker, Lane, Num, Steps, number, place_in};
use awk_layout::{Datum, Node};
use awk_list_functions::{ListOp, Made, Refusal, Spoil};
use awk_types::{Fault, NoMemory, Prim, Typ, is_leaf};
use std::alloc::Global;
use std::sync::ledger::Ledger;

/// Whether the numbers at two places are the same.
fn is_same<L: Ledger>(items: &Lane, i: u64, j: u64, steps: &mut Steps<L>) -> bool
    requires first { i < size_of items.now }
    requires second { j < size_of items.now }
    ensures { result ≡ int_eq (at items.now i) (at items.now j) }
{
    match (items.at(i, steps), items.at(j, steps)) {
        (Num::Int(a), Num::Int(b)) => a == b,
        (Num::Nat(a), Num::Nat(b)) => a == b,
        (Num::Truth(a), Num::Truth(b)) => a == b,
        _ => unreachable!(),
    }
}

/// Where the run that begins at a place ends.
fn run_end<L: Ledger>(items: &Lane, start: u64, stop: u64, steps: &mut Steps<L>) -> u64
    requires some { start < stop }
    requires within { stop ≤ size_of items.now }
    ensures after { start < result }
    ensures within { result ≤ stop }
    ensures run { runs_between items.now start stop
        ≡ (result - start) ∷ runs_between items.now result stop }
{
    for i in start + 1..stop {
        if !is_same(items, i - 1, i, steps) {
            return i;
        }
    }
    stop
}

/// How many runs the items from a start below a stop are.
fn count_runs<L: Ledger>(items: &Lane, start: u64, stop: u64, steps: &mut Steps<L>) -> u64
    requires order { start ≤ stop }
    requires within { stop ≤ size_of items.now }
    ensures { result ≡ length (runs_between items.now start stop) }
{
    let mut count = 0;
    let mut next = start;
    while next < stop {
        next = run_end(items, next, stop, steps);
        count += 1;
    }
    count
}

/// Puts the lengths of these runs.
fn put_runs<'a, L: Ledger>(
    items: &Lane,
    start: u64,
    stop: u64,
    maker: &mut IndexMaker<'a>,
    steps: &mut Steps<L>,
)
    requires order { start ≤ stop }
    requires within { stop ≤ size_of items.now }
    requires small { stop < 2 ^ 63 }
    requires kind { maker.old.kind ≡ Kind.I64 }
    requires room { let n = length (runs_between items.now start stop) in
        length maker.old.items + n ≤ maker.old.room }
    ensures kind { maker.new.kind ≡ Kind.I64 }
    ensures room { maker.new.room ≡ maker.old.room }
    ensures items { let lengths = map (λ n. pos n) (runs_between items.now start stop) in
        maker.new.items ≡ maker.old.items ++ lengths }
{
    let mut next = start;
    while next < stop {
        let end = run_end(items, next, stop, steps);
        maker.push(number(end - next));
        next = end;
    }
}

/// The offsets of the lists of runs.
fn run_offsets<'a, L: Ledger>(
    items: &Lane,
    offsets: &Lane,
    n: u64,
    arena: &'a Arena,
    steps: &mut Steps<L>,
) -> Result<Lane<'a>, NoMemory>
    requires lists { AreRising offsets.now n (size_of items.now) }
    requires fits { n < 2 ^ 63 }
    requires few { runs_before items.now offsets.now n < 2 ^ 63 }
    ensures { IfOk result (λ r. r ≡ spec.run_offsets items.now offsets.now n) }
{
    let mut maker = IndexMaker::new(n + 1, arena)?;
    let mut end = 0;
    maker.push(number(0));
    for i in 0..n {
        let start = place_in(offsets, i, steps);
        let stop = place_in(offsets, i + 1, steps);
        end += count_runs(items, start, stop, steps);
        maker.push(number(end));
    }
    Ok(maker.finish())
}

/// The lengths of all runs.
fn all_runs<'a, L: Ledger>(
    items: &Lane,
    offsets: &Lane,
    n: u64,
    count: u64,
    arena: &'a Arena,
    steps: &mut Steps<L>,
) -> Result<Lane<'a>, NoMemory>
    requires lists { AreRising offsets.now n (size_of items.now) }
    requires small { size_of items.now < 2 ^ 63 }
    requires fits { n < 2 ^ 63 }
    requires count { count ≡ runs_before items.now offsets.now n }
    ensures { IfOk result (λ r. r ≡ run_lane items.now offsets.now n) }
{
    let mut maker = IndexMaker::new(count, arena)?;
    for i in 0..n {
        let start = place_in(offsets, i, steps);
        let stop = place_in(offsets, i + 1, steps);
        put_runs(items, start, stop, &mut maker, steps);
    }
    Ok(maker.finish())
}

/// The lengths of a list's runs.
#[derive(Clone, Copy, Debug, PartialEq, Eq)]
struct RunLengths;

impl ListOp for RunLengths {
    ghost function = { λ f. run_lengths_function };

    fn refusal(&self, item: &Typ) -> Option<Refusal> {
        if is_leaf(item) {
            None
        } else {
            Some(Refusal::WrongType)
        }
    }

    fn typ(&self, _alloc: Global, _item: &Typ) -> Result<Typ, NoMemory> {
        Ok(Typ::Leaf(Prim::I64))
    }

    fn gives_lists(&self) -> bool {
        true
    }

    fn class(&self, _class: Option<u64>) -> Option<u64> {
        None
    }

    fn tells_index(&self) -> bool {
        false
    }

    fn column<'a, L: Ledger>(
        &self,
        alloc: Global,
        lists: &Lists<'a>,
        arena: &'a Arena,
        steps: &mut Steps<L>,
    ) -> Result<Made<'a>, NoMemory> {
        let _ = lists.content();
        match lists.joined(alloc, arena, steps)? {
            Joined::TooMany => Ok(Made::Spoiled(Spoil::Size)),
            Joined::Lists { offsets, content } => {
                let items = numbers_of(alloc, &content, arena, steps)?;
                let n = lists.len();
                let ends = run_offsets(&items, &offsets, n, arena, steps)?;
                let count = place_in(&ends, n, steps);
                let runs = all_runs(&items, &offsets, n, count, arena, steps)?;
                Ok(Made::Lists {
                    offsets: ends,
                    content: Node::numpy(runs, steps),
                })
            }
        }
    }
}

/// The lengths of the runs of equal neighbours in each innermost list. Optional leaves are
/// `WrongType`, and so is a record, a tuple or a union above the leaves; a single leaf is `Axis`.
/// Each list that is given may have any length.
pub fn run_lengths<'a, L: Ledger>(
    alloc: Global,
    x: &Datum<'a>,
    arena: &'a Arena,
    steps: &mut Steps<L>,
) -> Result<Datum<'a>, Fault>
    requires datum { IsDatum x.now }
    ensures answer { Gives datum_of fault_told result (run_lengths_of (datum_of x.now)) }
    ensures datum { IfOk result (λ made. IsDatum made) }
{
    lift_deep(alloc, &RunLengths, x, arena, steps)
}
