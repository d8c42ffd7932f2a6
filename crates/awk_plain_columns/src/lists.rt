//! Lists over one column of all their items.
ghost use Rattle.std.specs.Prelude.{◌≡◌, ◌++◌, map, length, IfOk, OnOk};
ghost use Rattle.std.specs.List.{AllByRecursion};
ghost use Rattle.serde_json.specs.View.{view};
ghost use Rattle.awk_types.specs.DataType.{var};
ghost use Rattle.awk_types.specs.Parts.{IsList};
ghost use Rattle.awk_columns.specs.Columns.{list_items, joined_items as joined_values};
ghost use Rattle.awk_layout.specs.Typing.{array_type, array_items};
ghost use Rattle.awk_plain.specs.Suits.{own_value};
ghost use Rattle.awk_plain_columns.specs.Suited.{items_of, joined_data};

use awk_lanes::{Arena, Lengths, Steps, offsets_within};
use awk_layout::Node;
use awk_types::NoMemory;
use serde_json::Value;
use std::alloc::{AllocError, Global};
use std::sync::ledger::Ledger;

/// Lists, by how many items they have.
#[derive(Drop)]
struct Counts<'s, 'v> {
    values: &'s [&'v Value],
}

impl<'s, 'v> Lengths for Counts<'s, 'v> {
    ghost use Rattle.std.specs.Prelude.{length, map};
    ghost use Rattle.serde_json.specs.View.{view};
    ghost use Rattle.awk_plain.specs.Suits.{own_value};
    ghost use Rattle.awk_plain_columns.specs.Suited.{length_at};

    ghost length = { λ f. length_at (map (λ v. own_value (view v.now)) f.values.now) };

    ghost size = { λ f. length f.values.now };

    fn length<L: Ledger>(&self, i: u64, _steps: &mut Steps<L>) -> u64 {
        item_count(self.values[i as usize])
    }
}

/// How many items a value has.
fn item_count(value: &Value) -> u64
    ensures { result ≡ length (list_items (own_value (view value.now))) }
{
    match value {
        Value::Array(items) => items.len() as u64,
        _ => 0,
    }
}

/// Puts the items of a list behind others.
pub(crate) fn push_items<'v>(value: &'v Value, items: &mut Vec<&'v Value>) -> Result<(), NoMemory>
    ensures { OnOk result (map (λ v. view v.now) items.new.items
        ≡ map (λ v. view v.now) items.old.items ++ items_of (view value.now)) }
{
    match value {
        Value::Array(list) => push_all(list, items),
        _ => Ok(()),
    }
}

/// Puts values behind others.
pub(crate) fn push_all<'v>(list: &'v [Value], items: &mut Vec<&'v Value>) -> Result<(), NoMemory>
    ensures { OnOk result (map (λ v. view v.now) items.new.items
        ≡ map (λ v. view v.now) items.old.items ++ map view list.now) }
{
    for item in list {
        items.push(item)?;
    }
    Ok(())
}

/// The items of all lists, one list after another.
pub(crate) fn joined_items<'v>(
    alloc: Global,
    values: &[&'v Value],
) -> Result<Vec<&'v Value>, NoMemory>
    ensures { IfOk result (λ r. map (λ v. view v.now) r.items
        ≡ joined_data (map (λ v. view v.now) values.now)) }
{
    let mut items = Vec::new(alloc);
    for i in 0..values.len() {
        push_items(values[i], &mut items)?;
    }
    Ok(items)
}

/// The column of lists over the column of all their items.
pub(crate) fn list_column<'a, 'v, L: Ledger>(
    alloc: Global,
    values: &[&'v Value],
    content: Node<'a>,
    arena: &'a Arena,
    steps: &mut Steps<L>,
) -> Result<Node<'a>, NoMemory>
    requires lists { AllByRecursion IsList (map (λ v. own_value (view v.now)) values.now) }
    requires items { array_items content
        ≡ joined_values (map (λ v. own_value (view v.now)) values.now) }
    ensures typ { IfOk result (λ y. array_type y ≡ var (array_type content.entry)) }
    ensures items { IfOk result (λ y. array_items y
        ≡ map (λ v. own_value (view v.now)) values.now) }
{
    let counts = Counts { values };
    let n = values.len() as u64;
    match offsets_within(i64::MAX as u64, n, &counts, arena, steps)? {
        Some(offsets) => {
            let content = Box::new(alloc, content)?;
            Ok(Node::list_offset(offsets.lane, content, steps))
        }
        None => Err(AllocError),
    }
}
