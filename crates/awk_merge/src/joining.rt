//! Arrays joined one after another, or list by list within their rows.
ghost use Rattle.std.specs.Prelude.{◌≡◌, ◌<◌, IfOk, Some, length, map};
ghost use Rattle.awk_types.specs.Faults.{fault_told};
ghost use Rattle.awk_types.specs.Gives.{Gives};
ghost use Rattle.awk_types.specs.View.{typ_of};
ghost use Rattle.awk_layout.specs.Array.{IsArrayType};
ghost use Rattle.awk_layout.specs.Datum.{datum_of, IsDatum};
ghost use Rattle.awk_layout.specs.Typing.{array_datum};
ghost use Rattle.awk_unify.specs.View.{lifts_of};
ghost use Rattle.awk_merge_operands.specs.Concatenate.{carried_columns, concatenate_at};
ghost use Rattle.awk_merge_operands.specs.Concatenate.{concatenate_of};
ghost use Rattle.awk_merge_operands.specs.Operands.{column_in, joined_datum};
ghost use Rattle.awk_merge_operands.specs.Operands.{AreCarriedOperands, IsRowsType};
ghost use Rattle.awk_merge_operands.specs.declared.operands.Axis.TheVariants as Axis;

use crate::joining_arrays::joined_arrays;
use crate::joining_rows::joined_rows;
use awk_lanes::{Arena, Steps};
use awk_layout::{Array, Datum, Datums};
use awk_merge_operands::{Axis, axis_at, judge_rows, operand_sides, operand_typs};
use awk_types::Fault;
use awk_unify::{UnifiedAll, unify_all};
use std::alloc::Global;
use std::sync::ledger::Ledger;

/// Operands joined one after another as items of the type that theirs unify to.
fn in_order<'a, L: Ledger>(
    alloc: Global,
    xs: &Datums<'a>,
    whole: &UnifiedAll,
    arena: &'a Arena,
    steps: &mut Steps<L>,
) -> Result<Array<'a>, Fault>
    requires lawful { IsArrayType (typ_of whole.now.typ) }
    requires carried { AreCarriedOperands xs.now (lifts_of whole.now.lifts) (typ_of whole.now.typ) }
    ensures { let columns = carried_columns (lifts_of whole.now.lifts) (map column_in xs.now) in
        let said = joined_datum Axis.Arrays (typ_of whole.now.typ) columns in
        Gives array_datum fault_told result said }
{
    let sides = operand_sides(alloc, xs, whole)?;
    joined_arrays(alloc, &whole.typ, &sides, arena, steps)
}

/// Operands joined row by row as items of the type that their rows unify to.
fn by_rows<'a, L: Ledger>(
    alloc: Global,
    xs: &Datums<'a>,
    whole: &UnifiedAll,
    arena: &'a Arena,
    steps: &mut Steps<L>,
) -> Result<Array<'a>, Fault>
    requires some { 0 < length xs.now }
    requires lawful { IsArrayType (typ_of whole.now.typ) }
    requires rows { IsRowsType (typ_of whole.now.typ) }
    requires carried { AreCarriedOperands xs.now (lifts_of whole.now.lifts) (typ_of whole.now.typ) }
    ensures { let columns = carried_columns (lifts_of whole.now.lifts) (map column_in xs.now) in
        let said = joined_datum Axis.Rows (typ_of whole.now.typ) columns in
        Gives array_datum fault_told result said }
{
    let n = xs.get(0).kept().len();
    judge_rows(xs, n)?;
    let sides = operand_sides(alloc, xs, whole)?;
    joined_rows(alloc, &whole.typ, n, xs.len() as u64, &sides, arena, steps)
}

/// Operands joined as items of the type that theirs unify to.
fn joined<'a, L: Ledger>(
    alloc: Global,
    axis: Axis,
    xs: &Datums<'a>,
    whole: &UnifiedAll,
    arena: &'a Arena,
    steps: &mut Steps<L>,
) -> Result<Array<'a>, Fault>
    requires some { 0 < length xs.now }
    requires lawful { IsArrayType (typ_of whole.now.typ) }
    requires carried { AreCarriedOperands xs.now (lifts_of whole.now.lifts) (typ_of whole.now.typ) }
    requires rows { axis ≡ Axis.Rows → IsRowsType (typ_of whole.now.typ) }
    ensures { let columns = carried_columns (lifts_of whole.now.lifts) (map column_in xs.now) in
        Gives array_datum fault_told result (joined_datum axis (typ_of whole.now.typ) columns) }
{
    match axis {
        Axis::Arrays => in_order(alloc, xs, whole, arena, steps),
        Axis::Rows => by_rows(alloc, xs, whole, arena, steps),
    }
}

/// Operands joined at an axis.
fn joined_at<'a, L: Ledger>(
    alloc: Global,
    axis: Axis,
    xs: &Datums<'a>,
    arena: &'a Arena,
    steps: &mut Steps<L>,
) -> Result<Array<'a>, Fault>
    requires some { 0 < length xs.now }
    ensures { let said = concatenate_at (Some axis) (map datum_of xs.now) in
        Gives array_datum fault_told result said }
{
    match operand_typs(alloc, axis, xs)? {
        Some(types) => {
            let whole = unify_all(alloc, &types)?;
            joined(alloc, axis, xs, &whole, arena, steps)
        }
        None => Err(Fault::Axis),
    }
}

/// Arrays joined at an axis: at axis 0 one after another, at axis 1 the lists of each row to one
/// list of any length, and a row that is null in any operand to null. The items' types are unified
/// from the left.
///
/// `Axis` tells an operand that is a single value, another axis, or at axis 1 items that are
/// neither lists, optional lists nor unknown; `Depth` and `Size` the limit that the joined type
/// passes; `Lengths` arrays of different lengths at axis 1; and `Size` also more than 1,073,741,824
/// items, at axis 1 rows or items of all lists together.
pub fn concatenate<'a, L: Ledger>(
    alloc: Global,
    axis: i64,
    xs: &Datums<'a>,
    arena: &'a Arena,
    steps: &mut Steps<L>,
) -> Result<Datum<'a>, Fault>
    requires some { 0 < length xs.now }
    ensures answer { Gives datum_of fault_told result (concatenate_of axis (map datum_of xs.now)) }
    ensures datum { IfOk result (λ made. IsDatum made) }
{
    match axis_at(axis) {
        Some(axis) => Ok(Datum::Arr(joined_at(alloc, axis, xs, arena, steps)?)),
        None => Err(Fault::Axis),
    }
}
