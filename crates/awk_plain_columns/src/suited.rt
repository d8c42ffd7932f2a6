//! Columns of values that are of a type as they stand: one column for each type node.
ghost use Rattle.std.specs.Prelude.{◌≡◌, [], map, true, IfOk};
ghost use Rattle.serde_json.specs.View.{view, items_view};
ghost use Rattle.awk_types.specs.DataType.{rec};
ghost use Rattle.awk_types.specs.View.{fields_of, names_of, typ_of, types_of};
ghost use Rattle.awk_layout.specs.Array.{IsArrayType};
ghost use Rattle.awk_layout.specs.Typing.{array_type, array_items};
ghost use Rattle.awk_plain.specs.IsPlain.{ArePlain};
ghost use Rattle.awk_plain.specs.Suits as suits;
ghost use Rattle.awk_plain.specs.Suits.{own_value};
ghost use Rattle.awk_plain_columns.specs.Suited.{AllSuit, AreColumnsOf, HasColumns, HaveColumns};
ghost use Rattle.awk_plain_columns.specs.Suited.{IsColumnOf};
ghost use Rattle.awk_plain_columns.specs.Suited as spec;

use crate::leaves::leaf_column;
use crate::lists::{joined_items, list_column, push_all};
use crate::options::{option_column, present_values};
use crate::records::{joined_members, members_at, record_column};
use awk_lanes::{Arena, Steps};
use awk_layout::{Array, Node, Nodes};
use awk_types::{Fields, NoMemory, Typ, copy_type};
use serde_json::Value;
use std::alloc::Global;
use std::sync::ledger::Ledger;

/// Whether a type has columns: it is of lists, options and records, at any depth, of leaves.
#[cycle(has)]
pub fn has_columns(typ: &Typ) -> bool
    ensures { result ≡ spec.has_columns (typ_of typ.now) }
{
    match typ {
        Typ::Unknown | Typ::Leaf(_) => true,
        Typ::Var(item) => has_columns(item),
        Typ::Opt(item) => has_columns(item),
        Typ::Rec(fields) => have_columns(fields),
        _ => false,
    }
}

/// Whether the types of all fields have columns.
#[cycle(has)]
fn have_columns(fields: &Fields) -> bool
    ensures { result ≡ spec.have_columns (types_of (fields_of fields.now)) }
{
    for k in 0..fields.len() {
        if !has_columns(&fields.get(k).typ) {
            return false;
        }
    }
    true
}

/// The column of values that are of a type as they stand.
#[cycle(column)]
pub(crate) fn column<'a, 'v, L: Ledger>(
    alloc: Global,
    typ: &Typ,
    values: &[&'v Value],
    arena: &'a Arena,
    steps: &mut Steps<L>,
) -> Result<Node<'a>, NoMemory>
    requires typ { HasColumns (typ_of typ.now) }
    requires values { AllSuit (typ_of typ.now) (map (λ v. view v.now) values.now) }
    ensures { IfOk result (IsColumnOf (typ_of typ.now) (map (λ v. view v.now) values.now)) }
{
    match typ {
        Typ::Unknown => Ok(Node::empty(steps)),
        Typ::Leaf(prim) => leaf_column(*prim, values, arena, steps),
        Typ::Var(item) => {
            let items = joined_items(alloc, values)?;
            let content = column(alloc, item, &items, arena, steps)?;
            list_column(alloc, values, content, arena, steps)
        }
        Typ::Opt(item) => {
            let present = present_values(alloc, values)?;
            let content = column(alloc, item, &present, arena, steps)?;
            option_column(alloc, values, content, arena, steps)
        }
        Typ::Rec(fields) => {
            let parts = joined_members(alloc, values)?;
            let columns = field_columns(alloc, fields, values, &parts, arena, steps)?;
            record_column(alloc, fields, values, columns, steps)
        }
        _ => unreachable!(),
    }
}

/// A column for each field, of its members in all records.
#[cycle(column)]
fn field_columns<'a, 'v, L: Ledger>(
    alloc: Global,
    fields: &Fields,
    values: &[&'v Value],
    parts: &[&'v Value],
    arena: &'a Arena,
    steps: &mut Steps<L>,
) -> Result<Nodes<'a>, NoMemory>
    requires typ { HaveColumns (types_of (fields_of fields.now)) }
    requires values { let fs = fields_of fields.now in
        AllSuit (rec (names_of fs) (types_of fs)) (map (λ v. view v.now) values.now) }
    requires parts { map (λ v. view v.now) parts.now
        ≡ spec.joined_members (map (λ v. view v.now) values.now) }
    ensures { let ts = map (λ f. f.typ) (fields_of fields.now) in
        IfOk result (λ xs. AreColumnsOf 0 ts (map (λ v. view v.now) values.now) xs []) }
{
    let mut columns = Nodes::new(alloc);
    for k in 0..fields.len() {
        let members = members_at(alloc, values, parts, k, fields.len())?;
        columns.push(column(alloc, &fields.get(k).typ, &members, arena, steps)?)?;
    }
    Ok(columns)
}

/// The array of the items of a list that are of a type as they stand.
pub fn suited_array<'a, L: Ledger>(
    alloc: Global,
    item: &Typ,
    items: &Vec<Value>,
    arena: &'a Arena,
    steps: &mut Steps<L>,
) -> Result<Array<'a>, NoMemory>
    requires columns { spec.has_columns (typ_of item.now) ≡ true }
    requires plain { ArePlain (items_view items.now.items) }
    requires suited { suits.all_suit (typ_of item.now) (items_view items.now.items) ≡ true }
    requires typ { IsArrayType (typ_of item.now) }
    ensures typ { IfOk result (λ x. array_type x ≡ typ_of item.now) }
    ensures items { IfOk result (λ x. array_items x ≡ map own_value (map view items.now.items)) }
{
    let mut values = Vec::new(alloc);
    push_all(items, &mut values)?;
    let node = column(alloc, item, &values, arena, steps)?;
    Ok(Array::with_type(node, copy_type(alloc, item)?))
}
