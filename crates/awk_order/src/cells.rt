//! Arrays of leaves as numbers of a lane.
ghost use Rattle.std.specs.Prelude.{◌≡◌, true, IfOk};
ghost use Rattle.awk_types.specs.Predicates.{is_leaf};
ghost use Rattle.awk_types.specs.Simple.{is_option, present};
ghost use Rattle.awk_layout.specs.Typing.{array_type};
ghost use Rattle.awk_order.specs.Cells.{AreLeafCells, AreNumbers};

use awk_lanes::{Arena, Kind, Lane, LaneMaker, Steps};
use awk_layout::Array;
use awk_open::{Opened, opened};
use awk_types::{NoMemory, is_optional};
use std::alloc::Global;
use std::sync::ledger::Ledger;

/// Numbers of a lane, or, where there is an index, none where this is negative and else the number
/// at its place.
#[derive(Drop)]
pub(crate) struct LeafCells<'a> {
    pub lane: Lane<'a>,
    pub index: Option<Lane<'a>>,
}

/// The numbers of an array of leaves, none of which is null.
pub(crate) fn numbers_of<'a, L: Ledger>(
    alloc: Global,
    x: &Array<'a>,
    arena: &'a Arena,
    steps: &mut Steps<L>,
) -> Result<Lane<'a>, NoMemory>
    requires { is_leaf (array_type x.now) ≡ true }
    ensures { IfOk result (AreNumbers x.now) }
{
    let _ = x.len();
    match opened(alloc, x, arena, steps)? {
        Opened::Empty => Ok(LaneMaker::new(Kind::I64, 0, arena)?.finish()),
        Opened::Leaf(lane) => Ok(lane),
        _ => unreachable!(),
    }
}

/// The cells of an array of leaves, some of which may be null.
fn optional_cells<'a, L: Ledger>(
    alloc: Global,
    x: &Array<'a>,
    arena: &'a Arena,
    steps: &mut Steps<L>,
) -> Result<LeafCells<'a>, NoMemory>
    requires optional { is_option (array_type x.now) ≡ true }
    requires leaves { is_leaf (present (array_type x.now)) ≡ true }
    ensures { IfOk result (AreLeafCells x.now) }
{
    match opened(alloc, x, arena, steps)? {
        Opened::Option { index, content } => Ok(LeafCells {
            lane: numbers_of(alloc, &content, arena, steps)?,
            index: Some(index),
        }),
        _ => unreachable!(),
    }
}

/// The cells of an array of leaves.
pub(crate) fn cells_of<'a, L: Ledger>(
    alloc: Global,
    x: &Array<'a>,
    arena: &'a Arena,
    steps: &mut Steps<L>,
) -> Result<LeafCells<'a>, NoMemory>
    requires { is_leaf (present (array_type x.now)) ≡ true }
    ensures { IfOk result (AreLeafCells x.now) }
{
    if is_optional(x.typ()) {
        optional_cells(alloc, x, arena, steps)
    } else {
        Ok(LeafCells {
            lane: numbers_of(alloc, x, arena, steps)?,
            index: None,
        })
    }
}
