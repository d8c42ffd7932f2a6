//! A lane made block by block, so that what is held beside it is small.
ghost use Rattle.std.specs.Prelude.{◌≡◌, ◌≤◌, ◌*◌, length, IfOk, MatchResult};
ghost use Rattle.std.specs.Prelude.{slice_range};
ghost use Rattle.awk_types.specs.Faults.{fault_told};
ghost use Rattle.awk_types.specs.Gives.{Gives, Told};
ghost use Rattle.awk_lanes.specs.Numbers.{width};
ghost use Rattle.awk_leaves.specs.Values.{all_values};
ghost use Rattle.awk_pointwise.specs.Blocks.{IsSoFar};
ghost use Rattle.awk_pointwise.specs.Sides.{lane_values};

use awk_lanes::{Arena, Kind, Lane, Steps};
use awk_types::Fault;
use bumpalo::Bump;
use bumpalo::collections::into_bump_slice;
use std::alloc::Global;
use std::sync::ledger::Ledger;

/// How many places are worked on at once. So many numbers of 64 bits take 16 KiB.
const BLOCK: u64 = 2048;

/// Results at places, and lanes of those from a place below a place.
pub(crate) trait Blocks {
    ghost use Rattle.std.specs.Prelude.{List, Result};
    ghost use Rattle.awk_types.specs.Value.{Value};
    ghost use Rattle.awk_types.specs.declared.fault.Fault.{Fault};
    ghost use Rattle.awk_lanes.specs.declared.kind.Kind.{Kind};

    /// The kind of the lanes.
    ghost kind: { Self → Kind };

    /// The result at each place.
    ghost results: { Self → List (Result Value Fault) };

    /// What the results rest on.
    ghost IsReady: { Self → Type 0 };

    /// The results from place lo below place hi.
    fn block<'a, L: Ledger>(
        &self,
        lo: u64,
        hi: u64,
        arena: &'a Arena,
        steps: &mut Steps<L>,
    ) -> Result<Lane<'a>, Fault>
        requires ready { IsReady self.now }
        requires order { lo ≤ hi }
        requires within { hi ≤ length (results self.now) }
        ensures answer { Gives lane_values fault_told result
            (all_values (slice_range (results self.now) lo hi)) }
        ensures kind { IfOk result (λ r. r.kind ≡ kind self.now) };
}

/// Puts the numbers from place lo below place hi after those of the places before.
fn add_block<'a, S: Blocks, L: Ledger>(
    alloc: Global,
    source: &S,
    lo: u64,
    hi: u64,
    bytes: &mut Vec<u8, &'a Arena>,
    steps: &mut Steps<L>,
) -> Result<(), Fault>
    requires ready { S.IsReady source.now }
    requires order { lo ≤ hi }
    requires within { hi ≤ length (S.results source.now) }
    requires before { IsSoFar (S.results source.now) (S.kind source.now) lo bytes.old.items }
    ensures { MatchResult result
        (λ _. IsSoFar (S.results source.now) (S.kind source.now) hi bytes.new.items)
        (λ f. Told (fault_told f) (all_values (S.results source.now))) }
{
    let room = Bump::new(alloc);
    match source.block(lo, hi, &room, steps) {
        Ok(lane) => {
            let block = lane.bulk(&room, steps)?;
            bytes.extend_from_slice(block)?;
            Ok(())
        }
        Err(fault) => Err(fault),
    }
}

/// Puts the numbers of all whole blocks among n places.
fn add_blocks<'a, S: Blocks, L: Ledger>(
    alloc: Global,
    source: &S,
    n: u64,
    bytes: &mut Vec<u8, &'a Arena>,
    steps: &mut Steps<L>,
) -> Result<u64, Fault>
    requires ready { S.IsReady source.now }
    requires size { length (S.results source.now) ≡ n }
    requires before { IsSoFar (S.results source.now) (S.kind source.now) 0 bytes.old.items }
    ensures { MatchResult result
        (λ at. (at ≤ n) × IsSoFar (S.results source.now) (S.kind source.now) at bytes.new.items)
        (λ f. Told (fault_told f) (all_values (S.results source.now))) }
{
    for i in 0..n / BLOCK {
        add_block(alloc, source, i * BLOCK, i * BLOCK + BLOCK, bytes, steps)?;
    }
    Ok(n / BLOCK * BLOCK)
}

/// The lane of the results at n places.
pub(crate) fn lane_by_blocks<'a, S: Blocks, L: Ledger>(
    alloc: Global,
    kind: Kind,
    n: u64,
    source: &S,
    arena: &'a Arena,
    steps: &mut Steps<L>,
) -> Result<Lane<'a>, Fault>
    requires ready { S.IsReady source.now }
    requires kind { S.kind source.now ≡ kind }
    requires size { length (S.results source.now) ≡ n }
    ensures answer { Gives lane_values fault_told result (all_values (S.results source.now)) }
    ensures kind { IfOk result (λ r. r.kind ≡ kind) }
{
    let mut bytes = Vec::with_capacity(arena, (n as usize).saturating_mul(kind.width()))?;
    let at = add_blocks(alloc, source, n, &mut bytes, steps)?;
    add_block(alloc, source, at, n, &mut bytes, steps)?;
    Ok(Lane::new(kind, into_bump_slice(bytes)))
}
