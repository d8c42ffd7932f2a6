//! Whether the lists of a column's first levels have too many items together.
ghost use Rattle.std.specs.Prelude.{◌≡◌, ◌<◌, IfOk};
ghost use Rattle.awk_open.specs.Opens.{Opens, OpensLists};
ghost use Rattle.awk_zip.specs.Counted.{column_refused, all_refused, size_if};

use awk_columns::{Joined, Lists};
use awk_lanes::{Arena, NoMemory, Steps};
use awk_layout::{Array, Arrays};
use awk_open::{Opened, open_array};
use std::alloc::Global;
use std::sync::ledger::Ledger;

/// Whether the lists of one of the first k levels, inside rows and unions too, have too many items
/// together.
#[cycle(counted)]
pub(crate) fn is_large<'a, L: Ledger>(
    alloc: Global,
    k: u64,
    x: &Array<'a>,
    arena: &'a Arena,
    steps: &mut Steps<L>,
) -> Result<bool, NoMemory>
    ensures { IfOk result (λ b. column_refused k x.now ≡ size_if b) }
{
    if k == 0 {
        return Ok(false); // nothing is opened where nothing is counted
    }
    let opened = open_array(alloc, x, arena, steps)?;
    let large = opened_large(alloc, k, x, &opened, arena, steps)?;
    Ok(large)
}

/// The same, by the outermost kind of the column.
#[cycle(counted)]
fn opened_large<'a, L: Ledger>(
    alloc: Global,
    k: u64,
    x: &Array<'a>,
    opened: &Opened<'a>,
    arena: &'a Arena,
    steps: &mut Steps<L>,
) -> Result<bool, NoMemory>
    requires opens { Opens x.now opened.now }
    requires levels { 0 < k }
    ensures { IfOk result (λ b. column_refused k x.now ≡ size_if b) }
{
    match opened {
        Opened::Empty => Ok(false),
        Opened::Leaf(_) => Ok(false),
        Opened::Items(lists) => lists_large(alloc, k, x, lists, arena, steps),
        Opened::Row { columns, .. } => any_large(alloc, k, columns, arena, steps),
        Opened::Option { content, .. } => is_large(alloc, k, content, arena, steps),
        Opened::Union { contents, .. } => any_large(alloc, k, contents, arena, steps),
    }
}

/// The same of lists.
#[cycle(counted)]
fn lists_large<'a, L: Ledger>(
    alloc: Global,
    k: u64,
    x: &Array<'a>,
    lists: &Lists<'a>,
    arena: &'a Arena,
    steps: &mut Steps<L>,
) -> Result<bool, NoMemory>
    requires opens { OpensLists lists.now.class lists.now.starts lists.now.stops
        lists.now.content x.now }
    requires levels { 0 < k }
    ensures { IfOk result (λ b. column_refused k x.now ≡ size_if b) }
{
    match lists.joined(alloc, arena, steps)? {
        Joined::TooMany => Ok(true),
        Joined::Lists { content, .. } => {
            let large = is_large(alloc, k - 1, &content, arena, steps)?;
            Ok(large)
        }
    }
}

/// The same of some columns.
#[cycle(counted)]
fn any_large<'a, L: Ledger>(
    alloc: Global,
    k: u64,
    columns: &Arrays<'a>,
    arena: &'a Arena,
    steps: &mut Steps<L>,
) -> Result<bool, NoMemory>
    ensures { IfOk result (λ b. all_refused k columns.now ≡ size_if b) }
{
    for i in 0..columns.len() {
        let large = is_large(alloc, k, columns.get(i), arena, steps)?;
        if large {
            return Ok(true);
        }
    }
    Ok(false)
}
