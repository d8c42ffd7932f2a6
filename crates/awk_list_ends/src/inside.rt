//! How many items the lists inside lists have together.
ghost use Rattle.std.specs.Prelude.{◌≡◌, ℕ, ◌-◌, ◌<◌, ◌≤◌, IfOk};
ghost use Rattle.awk_lanes.specs.Counted.{before};
ghost use Rattle.awk_lanes.specs.Places.{size_of, place_at};
ghost use Rattle.awk_layout.specs.Valid.{len};
ghost use Rattle.awk_columns.specs.Lists.{span_length};
ghost use Rattle.awk_list_ends.specs.Inside.{AreInside, IsTotalOf};

use crate::filling::span_or;
use awk_columns::{Bounds, Lists};
use awk_index::{Index, wide_index};
use awk_lanes::{Arena, Steps, offsets_within, to_option_place};
use awk_types::{ITEM_LIMIT, NoMemory};
use std::alloc::Global;
use std::sync::ledger::Ledger;

/// How many items the lists inside lists have together.
#[derive(Clone, Copy)]
pub struct Inside {
    /// Those of all lists that lie there, each once.
    pub stored: u64,
    /// Those of the lists that are reached, each as often as it is, or none where they are more
    /// than a column may have.
    pub reached: Option<u64>,
}

/// The place at place i of an index, or 0 where that is negative.
#[inline(always)]
fn place_of(index: &Index, i: u64) -> u64
    requires { i < size_of index.now }
    ensures { result ≡ place_at index.now i }
{
    to_option_place(index.number(i)).unwrap_or(0)
}

/// How many items the lists that are the items of list i have together, by where these lie.
#[inline(always)]
fn items_of_list(lists: &Bounds, offsets: &Index, i: u64) -> u64
    requires list { i < size_of lists.now.starts }
    requires within { len lists.now.content < size_of offsets.now }
    requires ascending { (a : ℕ) → (b : ℕ) → a ≤ b → b < size_of offsets.now
        → place_at offsets.now a ≤ place_at offsets.now b }
    ensures { let s = lists.now.starts in let t = lists.now.stops in let o = offsets.now in
        result ≡ place_at o (place_at t i) - place_at o (place_at s i) }
{
    let _ = lists.content();
    let span = span_or(lists, i, 0);
    place_of(offsets, span.start + span.length) - place_of(offsets, span.start)
}

/// How many items the lists that are the items of lists have together, each as often as it is
/// reached, or none where they are more than a column may have, by where these lie.
fn items_reached(lists: &Bounds, offsets: &Index) -> Option<u64>
    requires within { len lists.now.content < size_of offsets.now }
    requires ascending { (a : ℕ) → (b : ℕ) → a ≤ b → b < size_of offsets.now
        → place_at offsets.now a ≤ place_at offsets.now b }
    ensures { let s = lists.now.starts in let t = lists.now.stops in let o = offsets.now in
        IsTotalOf (before (λ i. place_at o (place_at t i) - place_at o (place_at s i)) (size_of s))
        result }
{
    let mut total = 0;
    for i in 0..lists.len() {
        let items = items_of_list(lists, offsets, i);
        if items > ITEM_LIMIT - total {
            return None;
        }
        total += items;
    }
    Some(total)
}

/// How many items the lists that are the items of lists have together, or none where all that lie
/// there have more than 2^63 - 1. Nothing is moved: the work is by how many lists lie there.
pub fn items_inside<'a, L: Ledger>(
    alloc: Global,
    lists: &Lists<'a>,
    inner: &Lists<'a>,
    arena: &'a Arena,
    steps: &mut Steps<L>,
) -> Result<Option<Inside>, NoMemory>
    requires within { len lists.now.content ≤ size_of inner.now.starts }
    ensures { let m = span_length inner.now.starts inner.now.stops in
        IfOk result
        (AreInside m (size_of inner.now.starts) lists.now.starts lists.now.stops) }
{
    let _ = lists.content();
    let outer = Bounds::new(alloc, lists, arena, steps)?;
    let bounds = Bounds::new(alloc, inner, arena, steps)?;
    match offsets_within(i64::MAX as u64, inner.len(), &bounds, arena, steps)? {
        Some(offsets) => {
            let places = wide_index(&offsets.lane, arena, steps)?;
            Ok(Some(Inside {
                stored: offsets.total,
                reached: items_reached(&outer, &places),
            }))
        }
        None => Ok(None),
    }
}
