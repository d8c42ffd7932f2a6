//! Records over a column for each field.
ghost use Rattle.std.specs.Prelude.{◌≡◌, ◌+◌, ◌<◌, ◌≤◌, ◌++◌, [], get_or, map, length};
ghost use Rattle.std.specs.Prelude.{IfOk, OnOk};
ghost use Rattle.serde_json.specs.Data.{null};
ghost use Rattle.serde_json.specs.View.{view, members_view};
ghost use Rattle.awk_types.specs.DataType.{rec};
ghost use Rattle.awk_types.specs.Names.{AreDistinct};
ghost use Rattle.awk_types.specs.View.{fields_of, names_of, types_of};
ghost use Rattle.awk_plain_columns.specs.Suited as spec;
ghost use Rattle.awk_plain_columns.specs.Suited.{AllSuit, AreColumnsOf, AreWide, IsColumnOf};
ghost use Rattle.awk_plain_columns.specs.Suited.{member_list, members_of};

use awk_lanes::Steps;
use awk_layout::{Node, Nodes};
use awk_types::{Fields, NoMemory};
use awk_unify::field_names;
use serde_json::{Map, Value};
use std::alloc::Global;
use std::sync::ledger::Ledger;

/// Puts members behind others, in the order of their names.
fn push_each<'v>(
    members: &'v Map<String, Value>,
    parts: &mut Vec<&'v Value>,
) -> Result<(), NoMemory>
    ensures { OnOk result (map (λ v. view v.now) parts.new.items
        ≡ map (λ v. view v.now) parts.old.items
        ++ member_list (members_view members.now.entries)) }
{
    for (key, member) in members.iter() {
        parts.push(member)?;
    }
    Ok(())
}

/// Puts the members of an object behind others.
fn push_members<'v>(value: &'v Value, parts: &mut Vec<&'v Value>) -> Result<(), NoMemory>
    ensures { OnOk result (map (λ v. view v.now) parts.new.items
        ≡ map (λ v. view v.now) parts.old.items ++ members_of (view value.now)) }
{
    match value {
        Value::Object(members) => push_each(members, parts),
        _ => Ok(()),
    }
}

/// The members of all objects, one object after another.
pub(crate) fn joined_members<'v>(
    alloc: Global,
    values: &[&'v Value],
) -> Result<Vec<&'v Value>, NoMemory>
    ensures { IfOk result (λ r. map (λ v. view v.now) r.items
        ≡ spec.joined_members (map (λ v. view v.now) values.now)) }
{
    let mut parts = Vec::new(alloc);
    for i in 0..values.len() {
        push_members(values[i], &mut parts)?;
    }
    Ok(parts)
}

/// The member at place k of an object, whose members begin at a place.
fn member_from<'v>(parts: &[&'v Value], start: usize, k: usize) -> &'v Value
    requires { start + k < length parts.now }
    ensures { view result.now ≡ get_or (map (λ v. view v.now) parts.now) (start + k) null }
{
    parts[start + k]
}

/// Where the members of the next object begin, if there is one.
fn next_start(parts: &[&Value], start: usize, width: usize) -> usize
    requires { start + width ≤ length parts.now }
    ensures { result ≡ start + width }
{
    start + width
}

/// The member at place k of each object, of the members of all of them.
pub(crate) fn members_at<'v>(
    alloc: Global,
    values: &[&'v Value],
    parts: &[&'v Value],
    k: usize,
    width: usize,
) -> Result<Vec<&'v Value>, NoMemory>
    requires wide { AreWide width (map (λ v. view v.now) values.now) }
    requires parts { map (λ v. view v.now) parts.now
        ≡ spec.joined_members (map (λ v. view v.now) values.now) }
    requires within { k < width }
    ensures { IfOk result (λ r. map (λ v. view v.now) r.items
        ≡ spec.members_at k (map (λ v. view v.now) values.now)) }
{
    let mut column = Vec::new(alloc);
    let mut start = 0;
    for i in 0..values.len() {
        column.push(member_from(parts, start, k))?;
        start = next_start(parts, start, width);
    }
    Ok(column)
}

/// The column of records over a column for each field.
pub(crate) fn record_column<'a, 'v, L: Ledger>(
    alloc: Global,
    fields: &Fields,
    values: &[&'v Value],
    columns: Nodes<'a>,
    steps: &mut Steps<L>,
) -> Result<Node<'a>, NoMemory>
    requires names { AreDistinct (names_of (fields_of fields.now)) }
    requires values { let fs = fields_of fields.now in
        AllSuit (rec (names_of fs) (types_of fs)) (map (λ v. view v.now) values.now) }
    requires columns { let ts = map (λ f. f.typ) (fields_of fields.now) in
        AreColumnsOf 0 ts (map (λ v. view v.now) values.now) columns [] }
    ensures { let fs = fields_of fields.now in
        IfOk result (IsColumnOf (rec (names_of fs) (types_of fs))
        (map (λ v. view v.now) values.now)) }
{
    let names = field_names(alloc, fields)?;
    Ok(Node::row(Some(names), values.len() as u64, columns, steps))
}
