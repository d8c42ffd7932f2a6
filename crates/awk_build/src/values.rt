//! The arrays of plain values.
ghost use Rattle.std.specs.Prelude.{◌≡◌, None, IfOk};
ghost use Rattle.serde_json.specs.Data.{no_items, no_members};
ghost use Rattle.serde_json.specs.View.{view, items_view, members_view};
ghost use Rattle.awk_types.specs.DataType.{unknown};
ghost use Rattle.awk_types.specs.Limit.{limit};
ghost use Rattle.awk_types.specs.Names.{AreDistinct};
ghost use Rattle.awk_plain.specs.IsPlain.{IsJudged, AreJudged, HaveJudged};
ghost use Rattle.awk_plain.specs.Plain.{items_type, names_in};
ghost use Rattle.awk_build.specs.Built.{IsArrayOf, IsArrayOfItems, AreArraysOf, AreFieldsOf};

use crate::joining::joined;
use crate::numbers::{numbers_array, numbers_of};
use crate::single::{list_array, null_array, number_array, row_array, truth_array};
use awk_lanes::{Arena, Steps};
use awk_layout::{Array, Arrays, Nodes};
use awk_types::{Name, Names, NoMemory};
use serde_json::{Map, Value};
use std::alloc::Global;
use std::sync::ledger::Ledger;

/// The names of members.
fn names_of(alloc: Global, members: &Map<String, Value>) -> Result<Names, NoMemory>
    ensures names { IfOk result (λ ns. ns ≡ names_in (members_view members.now.entries)) }
    ensures distinct { AreDistinct (names_in (members_view members.now.entries)) }
{
    let mut names = Names::new(alloc);
    for (key, member) in members.iter() {
        names.push(Name::new(alloc, key.as_str())?)?;
    }
    Ok(names)
}

/// The array of one value.
#[cycle(build)]
fn array_of<'a, L: Ledger>(
    alloc: Global,
    value: &Value,
    arena: &'a Arena,
    steps: &mut Steps<L>,
) -> Result<Array<'a>, NoMemory>
    requires { IsJudged (view value.now) }
    ensures { IfOk result (IsArrayOf (view value.now)) }
{
    match value {
        Value::Null => null_array(alloc, arena, steps),
        Value::Bool(b) => truth_array(*b, arena, steps),
        Value::Number(n) => number_array(n, arena, steps),
        Value::String(_) => unreachable!(),
        Value::Array(items) => {
            let content = items_array(alloc, items, arena, steps)?;
            list_array(alloc, content, arena, steps)
        }
        Value::Object(members) => {
            let names = names_of(alloc, members)?;
            let fields = field_nodes(alloc, members, arena, steps)?;
            row_array(alloc, names, fields, steps)
        }
    }
}

/// The array of the items of a list.
#[cycle(build)]
pub(crate) fn items_array<'a, L: Ledger>(
    alloc: Global,
    items: &Vec<Value>,
    arena: &'a Arena,
    steps: &mut Steps<L>,
) -> Result<Array<'a>, NoMemory>
    requires items { AreJudged (items_view items.now.items) }
    requires limit { limit (items_type unknown (items_view items.now.items)) ≡ None }
    ensures { IfOk result (IsArrayOfItems (items_view items.now.items)) }
{
    if let Some(numbers) = numbers_of(alloc, items)? {
        return numbers_array(&numbers, arena, steps);
    }
    let mut arrays = Arrays::new(alloc);
    for item in items {
        arrays.push(array_of(alloc, item, arena, steps)?)?;
    }
    joined(alloc, &arrays, arena, steps)
}

/// A column of one item for each member of an object.
#[cycle(build)]
fn field_nodes<'a, L: Ledger>(
    alloc: Global,
    members: &Map<String, Value>,
    arena: &'a Arena,
    steps: &mut Steps<L>,
) -> Result<Nodes<'a>, NoMemory>
    requires { HaveJudged (members_view members.now.entries) }
    ensures { IfOk result (λ xs.
        AreFieldsOf (members_view members.now.entries) xs no_members) }
{
    let mut nodes = Nodes::new(alloc);
    for (key, member) in members.iter() {
        nodes.push(array_of(alloc, member, arena, steps)?.into_node())?;
    }
    Ok(nodes)
}
