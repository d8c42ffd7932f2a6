//! What is picked from rows, put under the level that they are of.
ghost use Rattle.std.specs.Prelude.{◌≡◌, ◌≤◌, ◌<◌, ◌^◌, Option, IfOk, IfSome};
ghost use Rattle.awk_lanes.specs.Places.{size_of, IsOffsets, IsOptionalIndex};
ghost use Rattle.awk_layout.specs.Layout.{offset_lists};
ghost use Rattle.awk_layout.specs.Valid.{len};
ghost use Rattle.awk_jagged.specs.Over.{row_layout, CanHold, IsOver};

use crate::leaves::Outcome;
use awk_jagged_rows::Rows;
use awk_lanes::{Lane, Steps};
use awk_layout::Node;
use awk_types::NoMemory;
use std::alloc::Global;
use std::sync::ledger::Ledger;

/// Lists over what they hold, as rows, of which some may be null.
fn row_node<'a, L: Ledger>(
    alloc: Global,
    offsets: Lane<'a>,
    content: Node<'a>,
    index: &Option<Lane<'a>>,
    steps: &mut Steps<L>,
) -> Result<Node<'a>, NoMemory>
    requires length { size_of offsets ≤ 2 ^ 63 }
    requires valid { IsOffsets offsets (len content) }
    requires index { IfSome index.now
        (λ j. (size_of j < 2 ^ 63) × IsOptionalIndex j (len (offset_lists offsets content))) }
    ensures { IfOk result (λ r. r ≡ row_layout index.now offsets.entry content.entry) }
{
    let content = Box::new(alloc, content)?;
    let lists = Node::list_offset(offsets, content, steps);
    match index {
        None => Ok(lists),
        Some(index) => {
            let lists = Box::new(alloc, lists)?;
            Ok(Node::indexed_option(index.copy(), lists, steps))
        }
    }
}

/// What is picked from rows, as rows of the lists above.
pub fn put_over<'a, L: Ledger>(
    alloc: Global,
    rows: &Rows<'a>,
    below: Outcome<'a>,
    steps: &mut Steps<L>,
) -> Result<Outcome<'a>, NoMemory>
    requires { CanHold rows.now.index below }
    ensures { IfOk result (IsOver rows.now below.entry) }
{
    match below {
        Outcome::Lists { offsets, content } => Ok(Outcome::Lists {
            content: row_node(alloc, offsets, content, &rows.index, steps)?,
            offsets: rows.offsets.copy(),
        }),
        Outcome::Uneven => Ok(Outcome::Uneven),
        Outcome::Outside => Ok(Outcome::Outside),
        Outcome::TooMany => Ok(Outcome::TooMany),
    }
}
