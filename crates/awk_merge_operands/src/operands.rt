//! What operands are joined as at an axis: their types, and their columns with their lifts.
ghost use Rattle.std.specs.Prelude.{◌≡◌, IfOk, map, option_map, IfSome};
ghost use Rattle.awk_types.specs.IsType.{IsType};
ghost use Rattle.awk_types.specs.Simple.{IsSimple};
ghost use Rattle.awk_types.specs.View.{typ_of, typs_of};
ghost use Rattle.awk_layout.specs.Datum.{datum_of};
ghost use Rattle.awk_unify.specs.View.{lifts_of};
ghost use Rattle.awk_merge_operands.specs.Concatenate as spec;
ghost use Rattle.awk_merge_operands.specs.Concatenate.{axis_of, operand_type, stacked};
ghost use Rattle.awk_merge_operands.specs.Concatenate.{carried_columns};
ghost use Rattle.awk_merge_operands.specs.Operands.{column_in, AreCarriedOperands, AreLawful};
ghost use Rattle.awk_merge_sides.specs.Sides.{sides_of, merged_items, AreSides, IsCounted};

use awk_layout::{Datum, Datums};
use awk_merge_sides::Sides;
use awk_types::{NoMemory, Typ, Typs, copy_type};
use awk_unify::UnifiedAll;
use std::alloc::Global;

/// Where arrays are joined: their items one after another, or the lists of each row.
#[derive(Clone, Copy, Debug, PartialEq, Eq)]
pub enum Axis {
    Arrays,
    Rows,
}

/// What a number is as an axis.
pub fn axis_at(axis: i64) -> Option<Axis>
    ensures { result ≡ axis_of axis }
{
    match axis {
        0 => Some(Axis::Arrays),
        1 => Some(Axis::Rows),
        _ => None,
    }
}

/// The lists of any length that items of a type are. Unknown counts as lists.
fn lists_typ(alloc: Global, t: &Typ) -> Result<Option<Typ>, NoMemory>
    ensures { IfOk result (λ u. option_map typ_of u ≡ spec.lists_type (typ_of t.now)) }
{
    match t {
        Typ::Unknown => Ok(Some(Typ::Var(Box::new(alloc, Typ::Unknown)?))),
        Typ::Var(item) | Typ::Reg(_, item) => {
            let item = copy_type(alloc, item)?;
            Ok(Some(Typ::Var(Box::new(alloc, item)?)))
        }
        _ => Ok(None),
    }
}

/// The same, where they may be optional.
fn rows_typ(alloc: Global, t: &Typ) -> Result<Option<Typ>, NoMemory>
    ensures { IfOk result (λ u. option_map typ_of u ≡ spec.rows_type (typ_of t.now)) }
{
    match t {
        Typ::Opt(lists) => match lists_typ(alloc, lists)? {
            Some(lists) => Ok(Some(Typ::Opt(Box::new(alloc, lists)?))),
            None => Ok(None),
        },
        _ => lists_typ(alloc, t),
    }
}

/// What the items of an operand are joined as, if they are.
fn operand_typ(alloc: Global, axis: Axis, x: &Datum) -> Result<Option<Typ>, NoMemory>
    ensures typ { let said = operand_type axis (datum_of x.now) in
        IfOk result (λ u. option_map typ_of u ≡ said) }
    ensures lawful { IfOk result (λ u. IfSome u (λ t. IsType (typ_of t) × IsSimple (typ_of t))) }
{
    match x {
        Datum::Arr(x) => match axis {
            Axis::Arrays => Ok(Some(copy_type(alloc, x.typ())?)),
            Axis::Rows => rows_typ(alloc, x.typ()),
        },
        Datum::One(_) => Ok(None),
    }
}

/// What the items of all operands are joined as, if they are.
pub fn operand_typs(alloc: Global, axis: Axis, xs: &Datums) -> Result<Option<Typs>, NoMemory>
    ensures types { let said = spec.operand_types axis (map datum_of xs.now) in
        IfOk result (λ ts. option_map typs_of ts ≡ said) }
    ensures lawful { IfOk result (λ ts. IfSome ts (λ us. AreLawful (typs_of us))) }
{
    let mut types = Typs::new(alloc);
    for i in 0..xs.len() {
        match operand_typ(alloc, axis, xs.get(i))? {
            Some(typ) => types.push(typ)?,
            None => return Ok(None),
        }
    }
    Ok(Some(types))
}

/// The columns of operands, each with its lift.
pub fn operand_sides<'a>(
    alloc: Global,
    xs: &Datums<'a>,
    whole: &UnifiedAll,
) -> Result<Sides<'a>, NoMemory>
    requires { AreCarriedOperands xs.now (lifts_of whole.now.lifts) (typ_of whole.now.typ) }
    ensures items { let lifts = lifts_of whole.now.lifts in
        let columns = carried_columns lifts (map column_in xs.now) in
        IfOk result (λ r. merged_items (sides_of r) ≡ stacked columns) }
    ensures sides { IfOk result (λ r. AreSides (typ_of whole.now.typ) (sides_of r)) }
    ensures counted { IfOk result IsCounted }
{
    let mut sides = Sides::new(alloc);
    for i in 0..xs.len() {
        let column = xs.get(i).kept().copy(alloc)?;
        sides.push(alloc, column, whole.lifts.get(i))?;
    }
    Ok(sides)
}
