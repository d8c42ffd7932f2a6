//! A lane of leaves.
ghost use Rattle.std.specs.Prelude.{◌≡◌, true, IfOk};
ghost use Rattle.awk_types.specs.Predicates.{is_leaf};
ghost use Rattle.awk_layout.specs.Typing.{array_type};
ghost use Rattle.awk_present.specs.Present.{AreLeaves};

use awk_lanes::{Arena, Kind, Lane, LaneMaker, Steps};
use awk_layout::Array;
use awk_open::{Opened, in_order};
use awk_types::NoMemory;
use std::alloc::Global;
use std::sync::ledger::Ledger;

/// The items of an array of numbers, of truth values or of unknown, as a lane.
pub fn leaves_of<'a, L: Ledger>(
    alloc: Global,
    x: &Array<'a>,
    arena: &'a Arena,
    steps: &mut Steps<L>,
) -> Result<Lane<'a>, NoMemory>
    requires { is_leaf (array_type x.now) ≡ true }
    ensures { IfOk result (AreLeaves x.now) }
{
    match in_order(alloc, x, arena, steps)? {
        Opened::Empty => Ok(LaneMaker::new(Kind::I64, 0, arena)?.finish()),
        Opened::Leaf(lane) => Ok(lane),
        _ => unreachable!(),
    }
}
