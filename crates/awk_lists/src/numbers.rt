//! The numbers or truth values of an array as a lane.
ghost use Rattle.std.specs.Prelude.{◌≡◌, true, IfOk};
ghost use Rattle.awk_layout.specs.Typing.{array_type};
ghost use Rattle.awk_types.specs.Predicates.{is_leaf};
ghost use Rattle.awk_lists.specs.Numbers.{AreNumbers};

use awk_lanes::{Arena, Kind, Lane, LaneMaker, Steps};
use awk_layout::Array;
use awk_open::{Opened, opened};
use awk_types::NoMemory;
use std::alloc::Global;
use std::sync::ledger::Ledger;

/// The numbers of an array of leaves, or none of an array of unknown.
pub(crate) fn numbers_of<'a, L: Ledger>(
    alloc: Global,
    x: &Array<'a>,
    arena: &'a Arena,
    steps: &mut Steps<L>,
) -> Result<Lane<'a>, NoMemory>
    requires { is_leaf (array_type x.now) ≡ true }
    ensures { IfOk result (AreNumbers x.now) }
{
    let _ = x.len();
    match opened(alloc, x, arena, steps)? {
        Opened::Empty => Ok(LaneMaker::new(Kind::I64, 0, arena)?.finish()),
        Opened::Leaf(lane) => Ok(lane),
        _ => unreachable!(),
    }
}
