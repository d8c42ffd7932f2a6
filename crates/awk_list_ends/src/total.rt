//! How many items lists have together.
ghost use Rattle.std.specs.Prelude.{◌≡◌, ◌<◌, ◌≤◌, true, false, IfOk};
ghost use Rattle.awk_lanes.specs.Counted.{before};
ghost use Rattle.awk_lanes.specs.Places.{size_of};
ghost use Rattle.awk_columns.specs.Lists.{span_length};
ghost use Rattle.awk_list_ends.specs.Total.{AreFew, AreOver, IsEvenTotal};

use awk_columns::{Bounds, Lists};
use awk_lanes::{Arena, Steps};
use awk_types::{ITEM_LIMIT, NoMemory};
use std::alloc::Global;
use std::sync::ledger::Ledger;

/// Whether lists have together no more items than a limit, by a look at each.
fn are_counted_within(limit: u64, lists: &Bounds) -> bool
    ensures within { let m = span_length lists.now.starts lists.now.stops in
        result ≡ true → before m (size_of lists.now.starts) ≤ limit }
    ensures beyond { let m = span_length lists.now.starts lists.now.stops in
        result ≡ false → limit < before m (size_of lists.now.starts) }
{
    let mut total = 0;
    for i in 0..lists.len() {
        let length = lists.length_at(i);
        if length > limit - total {
            return false;
        }
        total += length;
    }
    true
}

/// Whether lists have together no more items than a limit. Where they are known to lie in a row, no
/// list is looked at.
pub fn are_within<L: Ledger>(limit: u64, lists: &Bounds, steps: &mut Steps<L>) -> bool
    ensures within { let m = span_length lists.now.starts lists.now.stops in
        result ≡ true → before m (size_of lists.now.starts) ≤ limit }
    ensures beyond { let m = span_length lists.now.starts lists.now.stops in
        result ≡ false → limit < before m (size_of lists.now.starts) }
{
    match lists.row_total(steps) {
        Some(total) => total <= limit,
        None => are_counted_within(limit, lists),
    }
}

/// Whether lists have together no more items than a column may have. They are counted, and none is
/// moved.
pub fn are_few<'a, L: Ledger>(
    alloc: Global,
    lists: &Lists<'a>,
    arena: &'a Arena,
    steps: &mut Steps<L>,
) -> Result<bool, NoMemory>
    ensures { IfOk result (AreFew lists.now.starts lists.now.stops lists.now.content) }
{
    let bounds = Bounds::new(alloc, lists, arena, steps)?;
    Ok(are_within(ITEM_LIMIT, &bounds, steps))
}

/// Whether lists have more items together than what holds these: some lie over one another. They
/// are counted, and none is moved.
pub fn lie_over_one_another<'a, L: Ledger>(
    alloc: Global,
    lists: &Lists<'a>,
    arena: &'a Arena,
    steps: &mut Steps<L>,
) -> Result<bool, NoMemory>
    ensures { IfOk result (AreOver lists.now.starts lists.now.stops lists.now.content) }
{
    let n = lists.content().len();
    let bounds = Bounds::new(alloc, lists, arena, steps)?;
    Ok(!are_within(n, &bounds, steps))
}

/// How many items n lists of one size have, or none where they are more than a column may have.
pub fn even_total(n: u64, size: u64) -> Option<u64>
    ensures { IsEvenTotal n size result }
{
    match n.checked_mul(size) {
        Some(total) => {
            if total > ITEM_LIMIT {
                return None;
            }
            Some(total)
        }
        None => None,
    }
}
