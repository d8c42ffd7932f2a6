//! Columns of lists of one length in parts, none of which has too many items to be joined.
ghost use Rattle.std.specs.Prelude.{◌<◌, IfOk, OnOk};
ghost use Rattle.awk_merge_lists.specs.Parted.{IsPartsPut, IsParted};
ghost use Rattle.awk_merge_sides.specs.Sides.{side_of, sides_of, IsCounted};

use awk_lanes::Steps;
use awk_merge_sides::{Side, Sides};
use awk_range::range;
use awk_types::{ITEM_LIMIT, NoMemory, Typ};
use std::alloc::Global;
use std::sync::ledger::Ledger;

/// How many lists of a type are joined at once: as many as have no more items together than a
/// column may have, and one at least.
fn lists_at_once(t: &Typ) -> u64
    ensures { 0 < result }
{
    match t {
        Typ::Reg(size, _) if *size > 0 => (ITEM_LIMIT / *size).max(1),
        _ => u64::MAX,
    }
}

/// Puts a column behind others, in as many parts as are joined one by one.
fn put_parts<'a, L: Ledger>(
    alloc: Global,
    side: &Side<'a>,
    made: &mut Sides<'a>,
    steps: &mut Steps<L>,
) -> Result<(), NoMemory>
    requires counted { IsCounted made.old }
    ensures counted { OnOk result (IsCounted made.new) }
    ensures put { OnOk result
        (IsPartsPut (side_of side.now) (sides_of made.old) (sides_of made.new)) }
{
    let n = side.column.len();
    let many = lists_at_once(side.column.typ());
    let mut start = 0;
    while start < n {
        let stop = n.min(start.saturating_add(many));
        let part = range(alloc, &side.column, start, stop, steps)?;
        made.push(alloc, part, &side.lift)?;
        start = stop;
    }
    Ok(())
}

/// The same columns in such parts.
pub(crate) fn parted<'a, L: Ledger>(
    alloc: Global,
    sides: &Sides<'a>,
    steps: &mut Steps<L>,
) -> Result<Sides<'a>, NoMemory>
    ensures { IfOk result (IsParted (sides_of sides.now)) }
{
    let mut made = Sides::new(alloc);
    for i in 0..sides.len() {
        put_parts(alloc, sides.get(i), &mut made, steps)?;
    }
    Ok(made)
}
