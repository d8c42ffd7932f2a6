//! Lanes of columns of leaves, and results as data.
ghost use Rattle.std.specs.Prelude.{◌≡◌, true, IfOk};
ghost use Rattle.awk_types.specs.Predicates.{is_leaf};
ghost use Rattle.awk_layout.specs.Typing.{array_type};
ghost use Rattle.awk_ends.specs.Columns.{IsLaneOf};

use awk_lanes::{Arena, Lane, NoMemory, Steps};
use awk_layout::Array;
use awk_open::{Opened, in_order};
use std::alloc::Global;
use std::sync::ledger::Ledger;

/// The lane of an array of leaves. Unknown has none.
pub fn leaf_lane<'a, L: Ledger>(
    alloc: Global,
    leaf: &Array<'a>,
    arena: &'a Arena,
    steps: &mut Steps<L>,
) -> Result<Option<Lane<'a>>, NoMemory>
    requires { is_leaf (array_type leaf.now) ≡ true }
    ensures { IfOk result (IsLaneOf leaf.now) }
{
    match in_order(alloc, leaf, arena, steps)? {
        Opened::Empty => Ok(None),
        Opened::Leaf(lane) => Ok(Some(lane)),
        _ => unreachable!(),
    }
}
