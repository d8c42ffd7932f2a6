//! The items of an array at places, without moving them where they lie in a row.
ghost use Rattle.std.specs.Prelude.{◌≡◌, ℕ, ◌+◌, ◌<◌, ◌≤◌, ◌^◌, IfOk, IfSome, IsTrue};
ghost use Rattle.awk_lanes.specs.Places.{size_of, place_at, IsIndex};
ghost use Rattle.awk_lanes.specs.declared.kind.Kind.TheVariants as Kind;
ghost use Rattle.awk_layout.specs.Typing.{array_type, array_items};
ghost use Rattle.awk_layout.specs.Valid.{len};
ghost use Rattle.awk_gather.specs.Arrays.{pick};
ghost use Rattle.awk_counts.specs.Counted.{IsRun};

use awk_gather::gather;
use awk_index::{Index, laid_index};
use awk_lanes::{Arena, Lane, NoMemory, Steps, to_place};
use awk_layout::Array;
use awk_range::range;
use std::alloc::Global;
use std::sync::ledger::Ledger;

/// Whether places go up one by one from a first one.
fn is_run(places: &Index, first: u64, n: u64) -> bool
    requires kind { places.now.kind ≡ Kind.I64 }
    requires places { IsIndex places.now n }
    requires first { first < 2 ^ 63 }
    ensures { IsTrue result → (i : ℕ) → i < size_of places.now → place_at places.now i ≡ first + i }
{
    for i in 0..places.len() {
        if to_place(places.number(i)) != first + i {
            return false;
        }
    }
    true
}

/// The first place, or 0 where there is none.
fn first_place(places: &Index, n: u64) -> u64
    requires kind { places.now.kind ≡ Kind.I64 }
    requires places { IsIndex places.now n }
    ensures { result ≤ n }
{
    if places.len() == 0 {
        0
    } else {
        to_place(places.number(0))
    }
}

/// Where places of some of n items begin, if they go up one by one.
fn first_of_run(places: &Index, n: u64) -> Option<u64>
    requires kind { places.now.kind ≡ Kind.I64 }
    requires small { n < 2 ^ 63 }
    requires places { IsIndex places.now n }
    ensures { IfSome result (IsRun places.now n) }
{
    let first = first_place(places, n);
    if places.len() <= n - first {
        if is_run(places, first, n) {
            return Some(first);
        }
    }
    None
}

/// The same of places in a lane, if they lie there in bytes.
fn run_start<L: Ledger>(places: &Lane, n: u64, steps: &mut Steps<L>) -> Option<u64>
    requires kind { places.now.kind ≡ Kind.I64 }
    requires small { n < 2 ^ 63 }
    requires places { IsIndex places.now n }
    ensures { IfSome result (IsRun places.now n) }
{
    match laid_index(places, steps) {
        Some(seen) => first_of_run(&seen, n),
        None => None,
    }
}

/// The items of an array at places: cut from it where they lie in a row, gathered else.
pub fn taken<'a, L: Ledger>(
    alloc: Global,
    x: &Array<'a>,
    places: &Lane<'a>,
    arena: &'a Arena,
    steps: &mut Steps<L>,
) -> Result<Array<'a>, NoMemory>
    requires kind { places.now.kind ≡ Kind.I64 }
    requires places { IsIndex places.now (len x.now) }
    ensures typ { IfOk result (λ r. array_type r ≡ array_type x.now) }
    ensures items { IfOk result (λ r. array_items r ≡ pick (array_items x.now) places.now.items) }
{
    match run_start(places, x.len(), steps) {
        Some(first) => range(alloc, x, first, first + places.len(), steps),
        None => gather(alloc, x, places, arena, steps),
    }
}
