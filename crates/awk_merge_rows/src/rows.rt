//! Columns of rows: the columns of each part.
ghost use Rattle.std.specs.Prelude.{◌≡◌, ◌<◌, ◌^◌, ◌++◌, ◌∷◌, [], List, None, IfOk, OnOk, length};
ghost use Rattle.awk_types.specs.DataType.{DataType, tup, types_from};
ghost use Rattle.awk_types.specs.Parts.{IsRowType};
ghost use Rattle.awk_types.specs.View.{typ_of};
ghost use Rattle.awk_layout.specs.Valid.{len};
ghost use Rattle.awk_unify.specs.Carry.{keep};
ghost use Rattle.awk_unify.specs.View.{lift_of};
ghost use Rattle.awk_merge_sides.specs.Groups.{groups_of, AreCounted};
ghost use Rattle.awk_merge_rows.specs.RowLevels.{row_parts, IsRowLevel};
ghost use Rattle.awk_merge_rows.specs.Parts.{null_column, or_nulls, part_side, side_from, ArePut};
ghost use Rattle.awk_merge_rows.specs.Parts.{IsRowSide, OpensAsRow, AreRowParts};
ghost use Rattle.awk_merge_sides.specs.Lifts.{part_carry, part_source, AreSources};
ghost use Rattle.awk_merge_sides.specs.Sides.{Side as Lifted, side_of, sides_of, IsSide, AreSides};
ghost use Rattle.awk_merge_sides.specs.Sides.{IsCounted};

use awk_lanes::{Arena, Kind, LaneMaker, Num, Steps};
use awk_layout::{Array, Arrays, Node};
use awk_merge_sides::{Groups, Side, Sides, part_lift, part_sources};
use awk_open::{Opened, open_array};
use awk_types::{NoMemory, Typ};
use awk_unify::Lift;
use std::alloc::Global;
use std::sync::ledger::Ledger;

/// So many nulls.
#[tactic(auto, using(awk_lanes::proofs::MadeLanes::making))]
fn nulls<'a, L: Ledger>(
    alloc: Global,
    n: u64,
    arena: &'a Arena,
    steps: &mut Steps<L>,
) -> Result<Array<'a>, NoMemory>
    requires { n < 2 ^ 63 }
    ensures { IfOk result (λ x. x ≡ null_column n) }
{
    let mut index = LaneMaker::new(Kind::I64, n, arena)?;
    for i in 0..n {
        index.push(Num::Int(-1));
    }
    let none = Box::new(alloc, Node::empty(steps))?;
    let typ = Typ::Opt(Box::new(alloc, Typ::Unknown)?);
    let node = Node::indexed_option(index.finish(), none, steps);
    Ok(Array::with_type(node, typ))
}

/// Nulls in place of a part that the rows of a column do not have.
fn null_side<'a, L: Ledger>(
    alloc: Global,
    column: &Array<'a>,
    arena: &'a Arena,
    steps: &mut Steps<L>,
) -> Result<Side<'a>, NoMemory>
    ensures { IfOk result (λ s. side_of s ≡ or_nulls (len column.now) keep None) }
{
    Ok(Side {
        column: nulls(alloc, column.len(), arena, steps)?,
        lift: Lift::Same,
    })
}

/// What a column of rows gives to the place to which one of its parts goes, or to which none goes.
fn part<'a, L: Ledger>(
    alloc: Global,
    side: &Side<'a>,
    columns: &Arrays<'a>,
    source: Option<u64>,
    arena: &'a Arena,
    steps: &mut Steps<L>,
) -> Result<Side<'a>, NoMemory>
    ensures { let carry = part_carry (lift_of side.now.lift) in
        let given = side_from (len side.now.column) carry columns.now source in
        IfOk result (λ s. side_of s ≡ given) }
{
    let Some(k) = source else {
        return null_side(alloc, &side.column, arena, steps);
    };
    if k >= columns.len() as u64 {
        return null_side(alloc, &side.column, arena, steps);
    }
    let lift = part_lift(alloc, &side.lift, k)?;
    let column = columns.get(k as usize).copy(alloc)?;
    Ok(Side { column, lift })
}

/// The parts of the rows of one column, each into its group: for each place there is the part that
/// goes there.
fn put_parts<'a, L: Ledger>(
    alloc: Global,
    side: &Side<'a>,
    columns: &Arrays<'a>,
    sources: &[Option<u64>],
    groups: &mut Groups<'a>,
    arena: &'a Arena,
    steps: &mut Steps<L>,
) -> Result<(), NoMemory>
    requires sources { let source = part_source (lift_of side.now.lift) in
        AreSources source (length (groups_of groups.old)) sources.now }
    requires counted { AreCounted groups.old }
    ensures counted { OnOk result (AreCounted groups.new) }
    ensures put { let parts = part_side (len side.now.column) (lift_of side.now.lift) columns.now in
        OnOk result (ArePut parts (length (groups_of groups.old)) (groups_of groups.old)
        (groups_of groups.new)) }
{
    for j in 0..groups.len() {
        let part = part(alloc, side, columns, sources[j], arena, steps)?;
        groups.push(alloc, j, part.column, &part.lift)?;
    }
    Ok(())
}

/// The columns of rows.
fn columns_of<'a, L: Ledger>(
    alloc: Global,
    side: &Side<'a>,
    arena: &'a Arena,
    steps: &mut Steps<L>,
) -> Result<Arrays<'a>, NoMemory>
    requires row { IsRowSide (side_of side.now) }
    ensures opens { IfOk result (OpensAsRow side.now.column) }
{
    let _ = side.column.len();
    match open_array(alloc, &side.column, arena, steps)? {
        Opened::Row {
            names: _names,
            columns,
        } => Ok(columns),
        _ => unreachable!(),
    }
}

/// One column more.
fn put_side<'a, L: Ledger>(
    alloc: Global,
    side: &Side<'a>,
    groups: &mut Groups<'a>,
    arena: &'a Arena,
    steps: &mut Steps<L>,
) -> Result<(), NoMemory>
    requires row { IsRowSide (side_of side.now) }
    requires counted { AreCounted groups.old }
    ensures counted { OnOk result (AreCounted groups.new) }
    ensures parts { (ts : List DataType) → (ss : List Lifted) →
        IsSide (tup (types_from ts)) (side_of side.now) →
        AreRowParts ts ss (groups_of groups.old) →
        OnOk result (AreRowParts ts (ss ++ side_of side.now ∷ []) (groups_of groups.new)) }
{
    let _ = side.column.len();
    // Rows without parts are alike. To open them takes a number for each, and they may be many.
    if groups.len() == 0 {
        return Ok(());
    }
    let columns = columns_of(alloc, side, arena, steps)?;
    let sources = part_sources(alloc, &side.lift, groups.len())?;
    put_parts(alloc, side, &columns, &sources, groups, arena, steps)
}

/// How many parts a tuple or a record has.
fn count(t: &Typ) -> usize
    requires { IsRowType (typ_of t.now) }
    ensures { result ≡ length (row_parts (typ_of t.now)) }
{
    match t {
        Typ::Rec(fields) => fields.len(),
        Typ::Tup(parts) => parts.len(),
        _ => unreachable!(),
    }
}

/// The columns of each part of rows of a type.
pub fn row_level<'a, L: Ledger>(
    alloc: Global,
    t: &Typ,
    sides: &Sides<'a>,
    arena: &'a Arena,
    steps: &mut Steps<L>,
) -> Result<Groups<'a>, NoMemory>
    requires row { IsRowType (typ_of t.now) }
    requires sides { AreSides (typ_of t.now) (sides_of sides.now) }
    requires counted { IsCounted sides.now }
    ensures { IfOk result (IsRowLevel (row_parts (typ_of t.now)) (sides_of sides.now)) }
{
    let mut groups = Groups::new(alloc, count(t))?;
    for i in 0..sides.len() {
        put_side(alloc, sides.get(i), &mut groups, arena, steps)?;
    }
    Ok(groups)
}
