//! The outermost kind of an array, in order, as operations take it.
ghost use Rattle.std.specs.Prelude.{◌≡◌, IfOk};
ghost use Rattle.awk_open.specs.Opens.{Opens};

use crate::opening::Opened;
use crate::order::in_order;
use awk_lanes::{Arena, Steps};
use awk_layout::Array;
use awk_types::NoMemory;
use std::alloc::Global;
use std::sync::ledger::Ledger;

/// The outermost kind of an array. What the contents of an option or a union hold is what the array
/// holds there, in its order.
pub fn open_array<'a, L: Ledger>(
    alloc: Global,
    x: &Array<'a>,
    arena: &'a Arena,
    steps: &mut Steps<L>,
) -> Result<Opened<'a>, NoMemory>
    ensures { IfOk result (Opens x.now) }
{
    in_order(alloc, x, arena, steps)
}
