//! Columns of which some are optional: an index, and the columns of what is present.
ghost use Rattle.std.specs.Prelude.{◌≡◌, ◌+◌, ◌-◌, ◌<◌, ◌≤◌, ◌^◌, false, length, IfOk, OnOk};
ghost use Rattle.std.specs.Prelude.{IfSome};
ghost use Rattle.awk_types.specs.Simple.{is_option, IsSimple};
ghost use Rattle.awk_lanes.specs.Making.{with_items};
ghost use Rattle.awk_lanes.specs.Numbers.{int_of, IsOf};
ghost use Rattle.awk_lanes.specs.Places.{size_of, IsOptionalIndex};
ghost use Rattle.awk_lanes.specs.declared.kind.Kind.TheVariants as Kind;
ghost use Rattle.awk_layout.specs.Typing.{array_type};
ghost use Rattle.awk_layout.specs.Valid.{len};
ghost use Rattle.awk_open.specs.Opens.{OpensOption};
ghost use Rattle.awk_merge_rows.specs.OptionLevels.{IsOptionLevel};
ghost use Rattle.awk_merge_rows.specs.Present.{places_on, moved, index_on, IsPresentPut};
ghost use Rattle.awk_merge_sides.specs.Sides.{side_of, sides_of, IsCounted};

use awk_lanes::{Arena, Kind, Lane, LaneMaker, Num, Steps, number, option_place_in};
use awk_layout::Array;
use awk_merge_sides::{Side, Sides};
use awk_open::{Opened, open_array};
use awk_types::NoMemory;
use std::alloc::Global;
use std::sync::ledger::Ledger;

/// Where the present items of columns lie among those of all, and their columns.
#[derive(Drop)]
pub struct OptionLevel<'a> {
    pub index: Lane<'a>,
    pub sides: Sides<'a>,
}

/// So many places from a first one on.
fn put_places(n: u64, first: u64, maker: &mut LaneMaker)
    requires kind { maker.old.kind ≡ Kind.I64 }
    requires room { length maker.old.items + n ≤ maker.old.room }
    requires small { first + n < 2 ^ 63 }
    ensures { maker.new ≡ with_items maker.old (places_on first n) }
{
    for i in 0..n {
        maker.push(number(first + i));
    }
}

/// A place so many further on, or -1 for none.
fn moved(first: u64, place: Option<u64>) -> Num
    requires small { IfSome place (λ k. first + k < 2 ^ 63) }
    ensures number { int_of result ≡ moved first place }
    ensures kind { IsOf Kind.I64 result }
{
    match place {
        Some(place) => number(first + place),
        None => Num::Int(-1),
    }
}

/// The places of an index, so many further on, and -1 for each null.
fn put_index<L: Ledger>(index: &Lane, first: u64, maker: &mut LaneMaker, steps: &mut Steps<L>)
    requires kind { maker.old.kind ≡ Kind.I64 }
    requires room { length maker.old.items + size_of index.now ≤ maker.old.room }
    requires places { IsOptionalIndex index.now (2 ^ 63 - first) }
    ensures { maker.new ≡ with_items maker.old (index_on first index.now) }
{
    for i in 0..index.len() {
        maker.push(moved(first, option_place_in(index, i, steps)));
    }
}

/// A column of what is never null.
fn put_whole<'a>(
    alloc: Global,
    side: &Side<'a>,
    maker: &mut LaneMaker<'a>,
    present: &mut Sides<'a>,
) -> Result<(), NoMemory>
    requires whole { is_option (array_type side.now.column) ≡ false }
    requires counted { IsCounted present.old }
    requires kind { maker.old.kind ≡ Kind.I64 }
    requires room { length maker.old.items + len side.now.column ≤ maker.old.room }
    ensures counted { OnOk result (IsCounted present.new) }
    ensures put { let s = side_of side.now in OnOk result
        (IsPresentPut s (sides_of present.old) maker.old (sides_of present.new) maker.new) }
{
    let first = present.total();
    let n = side.column.len();
    present.push(alloc, side.column.copy(alloc)?, &side.lift)?;
    put_places(n, first, maker);
    Ok(())
}

/// A column of an index and of what is present.
fn put_present<'a, L: Ledger>(
    alloc: Global,
    side: &Side<'a>,
    index: &Lane,
    content: Array<'a>,
    maker: &mut LaneMaker<'a>,
    present: &mut Sides<'a>,
    steps: &mut Steps<L>,
) -> Result<(), NoMemory>
    requires simple { IsSimple (array_type side.now.column) }
    requires opens { OpensOption index.now content side.now.column }
    requires counted { IsCounted present.old }
    requires kind { maker.old.kind ≡ Kind.I64 }
    requires room { length maker.old.items + len side.now.column ≤ maker.old.room }
    ensures counted { OnOk result (IsCounted present.new) }
    ensures put { let s = side_of side.now in OnOk result
        (IsPresentPut s (sides_of present.old) maker.old (sides_of present.new) maker.new) }
{
    let first = present.total();
    present.push(alloc, content, &side.lift)?;
    put_index(index, first, maker, steps);
    Ok(())
}

/// One column more.
fn put_side<'a, L: Ledger>(
    alloc: Global,
    side: &Side<'a>,
    maker: &mut LaneMaker<'a>,
    present: &mut Sides<'a>,
    arena: &'a Arena,
    steps: &mut Steps<L>,
) -> Result<(), NoMemory>
    requires counted { IsCounted present.old }
    requires kind { maker.old.kind ≡ Kind.I64 }
    requires room { length maker.old.items + len side.now.column ≤ maker.old.room }
    ensures counted { OnOk result (IsCounted present.new) }
    ensures put { let s = side_of side.now in OnOk result
        (IsPresentPut s (sides_of present.old) maker.old (sides_of present.new) maker.new) }
{
    let _ = side.column.typ();
    match open_array(alloc, &side.column, arena, steps)? {
        Opened::Option { index, content } => {
            put_present(alloc, side, &index, content, maker, present, steps)
        }
        _ => put_whole(alloc, side, maker, present),
    }
}

/// The columns without their nulls, and an index into all their items.
pub fn option_level<'a, L: Ledger>(
    alloc: Global,
    sides: &Sides<'a>,
    arena: &'a Arena,
    steps: &mut Steps<L>,
) -> Result<OptionLevel<'a>, NoMemory>
    requires counted { IsCounted sides.now }
    ensures { IfOk result (IsOptionLevel (sides_of sides.now)) }
{
    let mut maker = LaneMaker::new(Kind::I64, sides.total(), arena)?;
    let mut present = Sides::new(alloc);
    for i in 0..sides.len() {
        put_side(alloc, sides.get(i), &mut maker, &mut present, arena, steps)?;
    }
    Ok(OptionLevel {
        index: maker.finish(),
        sides: present,
    })
}
