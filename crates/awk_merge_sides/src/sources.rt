//! Which part of a row goes to which place.
ghost use Rattle.std.specs.Prelude.{◌≡◌, ◌<◌, ◌==◌, ℕ, Some, None, get_or, length, IfOk};
ghost use Rattle.std.specs.Prelude.{if◌then◌else◌};
ghost use Rattle.awk_unify.specs.View.{lift_of, lifts_of};
ghost use Rattle.awk_merge_sides.specs.Lifts.{part_source, source_at, AreSources};

use awk_types::NoMemory;
use awk_unify::{Lift, Lifts, Places};
use std::alloc::Global;

/// For each of n places, the part of a row that goes there, if one does.
pub fn part_sources(alloc: Global, f: &Lift, n: usize) -> Result<Vec<Option<u64>>, NoMemory>
    ensures { IfOk result (λ v. AreSources (part_source (lift_of f.now)) n v.items) }
{
    match f {
        Lift::Parts { places, parts } => placed_sources(alloc, places, parts, n),
        _ => own_sources(alloc, n),
    }
}

/// Each part goes to its own place.
fn own_sources(alloc: Global, n: usize) -> Result<Vec<Option<u64>>, NoMemory>
    ensures { IfOk result (λ v. AreSources (λ j. Some j) n v.items) }
{
    let mut sources = Vec::new(alloc);
    for j in 0..n {
        sources.push(Some(j as u64))?;
    }
    Ok(sources)
}

/// No part goes to any place.
fn no_sources(alloc: Global, n: usize) -> Result<Vec<Option<u64>>, NoMemory>
    ensures { IfOk result (λ v. AreSources (λ j. None) n v.items) }
{
    let mut sources = Vec::new(alloc);
    for _j in 0..n {
        sources.push(None)?;
    }
    Ok(sources)
}

/// Sets the part that goes to a place, if there is such a place.
fn put_source(sources: &mut Vec<Option<u64>>, place: u64, k: u64)
    ensures long { length sources.new.items ≡ length sources.old.items }
    ensures put { (j : ℕ) → j < length sources.old.items → get_or sources.new.items j None
        ≡ (if place == j then Some k else get_or sources.old.items j None) }
{
    if place < sources.len() as u64 {
        sources[place as usize] = Some(k);
    }
}

/// To each place the first part that has it.
fn placed_sources(
    alloc: Global,
    places: &Places,
    parts: &Lifts,
    n: usize,
) -> Result<Vec<Option<u64>>, NoMemory>
    ensures { let source = λ (j : ℕ). source_at j places.now (lifts_of parts.now) in
        IfOk result (λ v. AreSources source n v.items) }
{
    let mut sources = no_sources(alloc, n)?;
    let many = places.len().min(parts.len());
    for i in 0..many {
        let k = many - 1 - i;
        put_source(&mut sources, places.get(k), k as u64);
    }
    Ok(sources)
}
