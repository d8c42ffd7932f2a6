//! The types of tuples of one item of each operand.
ghost use Rattle.std.specs.Prelude.{◌≡◌, IfOk, IfSome, map, option_map};
ghost use Rattle.awk_types.specs.DataType.{types_from};
ghost use Rattle.awk_types.specs.Parts.{list_item};
ghost use Rattle.awk_types.specs.Simple.{is_option, option_if, IsSimple, AreSimple};
ghost use Rattle.awk_types.specs.View.{typ_of, typs_of};
ghost use Rattle.awk_layout.specs.Datum.{datum_of};
ghost use Rattle.awk_combi.specs.Combinations.{slot_type};
ghost use Rattle.awk_cartesian.specs.Cartesian as spec;
ghost use Rattle.awk_cartesian.specs.Sources.{may_be_null};
ghost use Rattle.std.specs.List.{list_any};

use awk_layout::{Datum, Datums};
use awk_merge_operands::Axis;
use awk_types::{NoMemory, Prim, Typ, Typs, copy_type, is_optional};
use std::alloc::Global;

/// What lists of a type are of. Unknown counts as lists of unknown.
fn list_item(t: &Typ) -> Option<&Typ>
    ensures typ { option_map (λ u. typ_of u.now) result ≡ list_item (typ_of t.now) }
    ensures simple { IsSimple (typ_of t.now) → IfSome result (λ u. IsSimple (typ_of u.now)) }
{
    match t {
        Typ::Unknown => Some(t),
        Typ::Var(item) | Typ::Reg(_, item) => Some(item),
        _ => None,
    }
}

/// The same of lists that may be null.
fn rows_item(t: &Typ) -> Option<&Typ>
    ensures typ { option_map (λ u. typ_of u.now) result ≡ spec.rows_item (typ_of t.now) }
    ensures simple { IsSimple (typ_of t.now) → IfSome result (λ u. IsSimple (typ_of u.now)) }
{
    match t {
        Typ::Opt(lists) => list_item(lists),
        _ => list_item(t),
    }
}

/// What the lists of an operand are of, if they are any.
fn operand_item<'b, 'a>(axis: Axis, x: &'b Datum<'a>) -> Option<&'b Typ>
    ensures typ { let said = spec.operand_item axis (datum_of x.now) in
        option_map (λ u. typ_of u.now) result ≡ said }
    ensures simple { IfSome result (λ u. IsSimple (typ_of u.now)) }
{
    match x {
        Datum::Arr(x) => match axis {
            Axis::Arrays => Some(x.typ()),
            Axis::Rows => rows_item(x.typ()),
        },
        Datum::One(_) => None,
    }
}

/// The type of what stands in a slot: a place, or an item.
fn slot_typ(alloc: Global, places: bool, item: &Typ) -> Result<Typ, NoMemory>
    ensures { IfOk result (λ t. typ_of t ≡ slot_type places (typ_of item.now)) }
{
    if places {
        Ok(Typ::Leaf(Prim::I64))
    } else {
        copy_type(alloc, item)
    }
}

/// The types of the slots of tuples, if all operands are lists.
fn slot_typs(alloc: Global, axis: Axis, places: bool, xs: &Datums) -> Result<Option<Typs>, NoMemory>
    ensures types { let said = spec.item_types axis (map datum_of xs.now) in
        IfOk result (λ ts. option_map typs_of ts ≡ option_map (map (slot_type places)) said) }
    ensures simple { IfOk result (λ ts. IfSome ts (λ us. AreSimple (types_from (typs_of us)))) }
{
    let mut types = Typs::new(alloc);
    for j in 0..xs.len() {
        match operand_item(axis, xs.get(j)) {
            Some(item) => types.push(slot_typ(alloc, places, item)?)?,
            None => return Ok(None),
        }
    }
    Ok(Some(types))
}

/// Whether rows of an operand may be null.
fn may_be_null(x: &Datum) -> bool
    ensures { result ≡ spec.has_null_rows (datum_of x.now) }
{
    match x {
        Datum::Arr(x) => is_optional(x.typ()),
        Datum::One(_) => false,
    }
}

/// Whether rows of some operand may be null.
fn some_may_be_null(xs: &Datums) -> bool
    ensures { result ≡ list_any spec.has_null_rows (map datum_of xs.now) }
{
    for j in 0..xs.len() {
        if may_be_null(xs.get(j)) {
            return true;
        }
    }
    false
}

/// The type of tuples with these slots: at axis 1 of lists of them, which may be null.
pub(crate) fn product_typ(
    alloc: Global,
    axis: Axis,
    places: bool,
    xs: &Datums,
) -> Result<Option<Typ>, NoMemory>
    ensures typ { let said = spec.item_types axis (map datum_of xs.now) in
        IfOk result (λ t. option_map typ_of t
        ≡ option_map (spec.product_type axis places (map datum_of xs.now)) said) }
    ensures simple { IfOk result (λ t. IfSome t (λ u. IsSimple (typ_of u))) }
{
    let Some(slots) = slot_typs(alloc, axis, places, xs)? else {
        return Ok(None);
    };
    let tuple = Typ::Tup(slots);
    match axis {
        Axis::Arrays => Ok(Some(tuple)),
        Axis::Rows => {
            let lists = Typ::Var(Box::new(alloc, tuple)?);
            if some_may_be_null(xs) {
                Ok(Some(Typ::Opt(Box::new(alloc, lists)?)))
            } else {
                Ok(Some(lists))
            }
        }
    }
}
