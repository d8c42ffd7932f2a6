//! Columns of lists: where each list lies, and the columns of their items.
ghost use Rattle.std.specs.Prelude.{◌≡◌, ◌+◌, ◌<◌, ◌≤◌, ◌^◌, ℕ, length, IfOk, OnOk};
ghost use Rattle.awk_types.specs.DataType.{DataType, var, reg};
ghost use Rattle.awk_types.specs.Parts.{IsListType};
ghost use Rattle.awk_lanes.specs.Making.{with_items};
ghost use Rattle.awk_lanes.specs.Places.{size_of, place_at, IsIndexKind};
ghost use Rattle.awk_layout.specs.Layout.{Layout};
ghost use Rattle.awk_layout.specs.Typing.{array_type};
ghost use Rattle.awk_layout.specs.Valid.{len};
ghost use Rattle.awk_unify.specs.View.{lift_of};
ghost use Rattle.awk_columns.specs.Joined.{total};
ghost use Rattle.awk_open.specs.Opens.{OpensLists};
ghost use Rattle.awk_merge_lists.specs.ListLevels.{IsListLevel, IsRegularLevel, AreListSides};
ghost use Rattle.awk_merge_lists.specs.ListLevels.{AreRegularSides};
ghost use Rattle.awk_merge_lists.specs.Lists.{HoldsLists, HoldsItems, AreOfLength, HasRoom};
ghost use Rattle.awk_merge_lists.specs.Lists.{PutsLists, moved_places};
ghost use Rattle.awk_merge_sides.specs.Sides.{sides_of, AreSides, IsCounted};

use crate::parts::parted;
use awk_columns::{Joined, Lists};
use awk_lanes::{Arena, IndexMaker, Lane, Steps, index_at, number, to_option_place};
use awk_layout::Array;
use awk_list_ends::lie_over_one_another;
use awk_merge_sides::{Side, Sides, items_lift};
use awk_open::{Opened, open_array};
use awk_types::NoMemory;
use std::alloc::{AllocError, Global};
use std::sync::ledger::Ledger;

/// Where lists lie among the items of all, and the columns of their items.
#[derive(Drop)]
pub struct ListLevel<'a> {
    pub starts: Lane<'a>,
    pub stops: Lane<'a>,
    pub sides: Sides<'a>,
}

/// Lists over what holds their items: the items alone, or the whole content where the lists have
/// more items together than it holds, or than a column may have.
#[derive(Drop)]
struct SideLists<'a> {
    starts: Lane<'a>,
    stops: Lane<'a>,
    content: Array<'a>,
}

/// Lists that have items, as they lie in the whole content.
fn as_they_lie<'a>(alloc: Global, lists: &Lists<'a>) -> Result<SideLists<'a>, NoMemory>
    requires some { 0 < total lists.now.starts lists.now.stops lists.now.content }
    ensures { (x : Layout)
        → OpensLists lists.now.class lists.now.starts lists.now.stops lists.now.content x
        → IfOk result (λ r. HoldsLists x r.starts r.stops r.content) }
{
    let content = lists.content().copy(alloc)?;
    Ok(SideLists {
        starts: lists.starts().copy(),
        stops: lists.stops().copy(),
        content,
    })
}

/// The lists of a column.
fn lists_of<'a, L: Ledger>(
    alloc: Global,
    column: &Array<'a>,
    arena: &'a Arena,
    steps: &mut Steps<L>,
) -> Result<SideLists<'a>, NoMemory>
    requires { IsListType (array_type column.now) }
    ensures { IfOk result (λ r. HoldsLists column.now r.starts r.stops r.content) }
{
    match open_array(alloc, column, arena, steps)? {
        Opened::Items(lists) => {
            if lie_over_one_another(alloc, &lists, arena, steps)? {
                return as_they_lie(alloc, &lists);
            }
            match lists.joined(alloc, arena, steps)? {
                Joined::TooMany => as_they_lie(alloc, &lists),
                Joined::Lists { offsets, content } => {
                    let n = lists.len();
                    Ok(SideLists {
                        starts: offsets.cut(0, n, steps),
                        stops: offsets.cut(1, n + 1, steps),
                        content,
                    })
                }
            }
        }
        _ => unreachable!(),
    }
}

/// The number at a place of a lane as a place: 0 where it is negative, as an end of an empty list
/// may be.
fn end_at<L: Ledger>(lane: &Lane, i: u64, steps: &mut Steps<L>) -> u64
    requires kind { IsIndexKind lane.now.kind }
    requires within { i < size_of lane.now }
    ensures { result ≡ place_at lane.now i }
{
    to_option_place(index_at(lane, i, steps)).unwrap_or(0)
}

/// Ends of lists of n items, so many further on. Those of an empty list may lie beyond.
fn put_places<L: Ledger>(
    ends: &Lane,
    base: u64,
    n: u64,
    maker: &mut IndexMaker,
    steps: &mut Steps<L>,
)
    requires kind { IsIndexKind ends.now.kind }
    requires room { HasRoom (size_of ends.now) maker.old }
    requires fits { base + n < 2 ^ 63 }
    ensures { maker.new ≡ with_items maker.old (moved_places base n ends.now) }
{
    for i in 0..ends.len() {
        let end = end_at(ends, i, steps).min(n);
        maker.push(number(base + end));
    }
}

/// A level of lists that is being made.
#[derive(Drop)]
struct ListMaker<'a> {
    starts: IndexMaker<'a>,
    stops: IndexMaker<'a>,
    sides: Sides<'a>,
}

impl<'a> ListMaker<'a> {
    /// Adds the lists of a column.
    fn put<L: Ledger>(
        &mut self,
        alloc: Global,
        side: &Side<'a>,
        arena: &'a Arena,
        steps: &mut Steps<L>,
    ) -> Result<(), NoMemory>
        requires lists { IsListType (array_type side.now.column) }
        requires starts { HasRoom (len side.now.column) self.old.starts }
        requires stops { HasRoom (len side.now.column) self.old.stops }
        requires counted { IsCounted self.old.sides }
        ensures { OnOk result
            (PutsLists side.now.column (lift_of side.now.lift) self.old self.new) }
    {
        let SideLists {
            starts,
            stops,
            content,
        } = lists_of(alloc, &side.column, arena, steps)?;
        let base = self.sides.total();
        let n = content.len();
        self.sides
            .push(alloc, content, &items_lift(alloc, &side.lift)?)?;
        put_places(&starts, base, n, &mut self.starts, steps);
        put_places(&stops, base, n, &mut self.stops, steps);
        Ok(())
    }
}

/// The lists of all columns.
pub fn list_level<'a, L: Ledger>(
    alloc: Global,
    sides: &Sides<'a>,
    arena: &'a Arena,
    steps: &mut Steps<L>,
) -> Result<ListLevel<'a>, NoMemory>
    requires lists { AreListSides (sides_of sides.now) }
    requires counted { IsCounted sides.now }
    ensures { (u : DataType) → AreSides (var u) (sides_of sides.now) →
        IfOk result (IsListLevel u (sides_of sides.now)) }
{
    let mut maker = ListMaker {
        starts: IndexMaker::new(sides.total(), arena)?,
        stops: IndexMaker::new(sides.total(), arena)?,
        sides: Sides::new(alloc),
    };
    for i in 0..sides.len() {
        let side = sides.get(i);
        let _ = side.column.len();
        maker.put(alloc, side, arena, steps)?;
    }
    Ok(ListLevel {
        starts: maker.starts.finish(),
        stops: maker.stops.finish(),
        sides: maker.sides,
    })
}

/// The items of a column of lists of one length, one after another, which are no more than the
/// limit of a column.
fn items_of<'a, L: Ledger>(
    alloc: Global,
    column: &Array<'a>,
    arena: &'a Arena,
    steps: &mut Steps<L>,
) -> Result<Array<'a>, NoMemory>
    requires { IsListType (array_type column.now) }
    ensures { (n : ℕ) → AreOfLength n column.now → IfOk result (HoldsItems n column.now) }
{
    match open_array(alloc, column, arena, steps)? {
        Opened::Items(lists) => match lists.joined(alloc, arena, steps)? {
            Joined::Lists {
                offsets: _offsets,
                content,
            } => Ok(content),
            Joined::TooMany => Err(AllocError),
        },
        _ => unreachable!(),
    }
}

/// The columns of the items of lists of one length, where those of each column are few.
fn part_level<'a, L: Ledger>(
    alloc: Global,
    sides: &Sides<'a>,
    arena: &'a Arena,
    steps: &mut Steps<L>,
) -> Result<Sides<'a>, NoMemory>
    requires lists { AreRegularSides (sides_of sides.now) }
    requires counted { IsCounted sides.now }
    ensures { (n : ℕ) (u : DataType) → AreSides (reg n u) (sides_of sides.now) →
        IfOk result (IsRegularLevel n u (sides_of sides.now)) }
{
    let mut items = Sides::new(alloc);
    for i in 0..sides.len() {
        let side = sides.get(i);
        let _ = side.column.len();
        let content = items_of(alloc, &side.column, arena, steps)?;
        items.push(alloc, content, &items_lift(alloc, &side.lift)?)?;
    }
    Ok(items)
}

/// The columns of the items of lists of one length. Where a column's lists lie over one another and
/// have more items together than a column may have, it becomes several.
pub fn regular_level<'a, L: Ledger>(
    alloc: Global,
    sides: &Sides<'a>,
    arena: &'a Arena,
    steps: &mut Steps<L>,
) -> Result<Sides<'a>, NoMemory>
    requires lists { AreRegularSides (sides_of sides.now) }
    requires counted { IsCounted sides.now }
    ensures { (n : ℕ) (u : DataType) → AreSides (reg n u) (sides_of sides.now) →
        IfOk result (IsRegularLevel n u (sides_of sides.now)) }
{
    let parts = parted(alloc, sides, steps)?;
    part_level(alloc, &parts, arena, steps)
}
