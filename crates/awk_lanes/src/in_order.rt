//! Lanes of places in order.
ghost use Rattle.std.specs.Prelude.{◌+◌, ◌≤◌, ◌^◌, ◌≡◌, pos, IfOk};
ghost use Rattle.awk_lanes.specs.Made.{lane_of};
ghost use Rattle.awk_lanes.specs.Runs.{run_at};
ghost use Rattle.awk_lanes.specs.declared.kind.Kind.TheVariants as Kinds;

use crate::kind::Kind;
use crate::lane::Lane;
use crate::memory::{Arena, NoMemory};
use crate::run::Run;
use crate::steps::Steps;
use std::alloc::AllocError;
use std::sync::ledger::Ledger;

/// So many numbers are made, since they are read fastest as bytes. More are told by their bounds.
const FEW: u64 = 1 << 26;

/// A lane of n numbers: as many as `count` in order from the first on, and -1 past these. Many are
/// not made.
pub fn run_lane<'a>(n: u64, first: u64, count: u64, arena: &'a Arena) -> Result<Lane<'a>, NoMemory>
    requires { first + count ≤ 2 ^ 63 }
    ensures { IfOk result (λ r. r ≡ lane_of Kinds.I64 n (run_at first count)) }
{
    if n >= 1 << 61 {
        return Err(AllocError);
    }
    let run = Run::new(n, first, count);
    if n > FEW {
        return Ok(Lane::of_run(run));
    }
    let n = run.len();
    let bytes = run.bytes(arena)?;
    Ok(Lane::whole(Kind::I64, n, bytes))
}

/// The numbers from 0 on below n.
pub fn ordinals<'a, L: Ledger>(
    n: u64,
    arena: &'a Arena,
    _steps: &mut Steps<L>,
) -> Result<Lane<'a>, NoMemory>
    requires { n ≤ 2 ^ 63 }
    ensures { IfOk result (λ r. r ≡ lane_of Kinds.I64 n pos) }
{
    run_lane(n, 0, n, arena)
}
