//! Options over one column of what is there.
ghost use Rattle.std.specs.Prelude.{◌≡◌, filter, map, IfOk};
ghost use Rattle.serde_json.specs.View.{view};
ghost use Rattle.awk_types.specs.Simple.{option_of};
ghost use Rattle.awk_columns.specs.Columns.{is_present};
ghost use Rattle.awk_frames.specs.Shape.{index_column};
ghost use Rattle.awk_layout.specs.Typing.{array_type, array_items};
ghost use Rattle.awk_plain.specs.Suits.{own_value};
ghost use Rattle.awk_plain_columns.specs.Suited as spec;
ghost use Rattle.awk_plain_columns.specs.Suited.{there};

use awk_lanes::{Arena, IndexMaker, Lane, Num, Steps, number};
use awk_layout::Node;
use awk_types::NoMemory;
use serde_json::Value;
use std::alloc::Global;
use std::sync::ledger::Ledger;

/// Whether a value is there: it is not null, nor a text.
fn is_there(value: &Value) -> bool
    ensures { result ≡ spec.is_there (view value.now) }
{
    match value {
        Value::Null => false,
        Value::Bool(_) => true,
        Value::Number(_) => true,
        Value::String(_) => false,
        Value::Array(_) => true,
        Value::Object(_) => true,
    }
}

/// The values that are there.
pub(crate) fn present_values<'v>(
    alloc: Global,
    values: &[&'v Value],
) -> Result<Vec<&'v Value>, NoMemory>
    ensures { IfOk result (λ r. map (λ v. view v.now) r.items
        ≡ there (map (λ v. view v.now) values.now)) }
{
    let mut present = Vec::new(alloc);
    for i in 0..values.len() {
        let value = values[i];
        if !is_there(value) {
            continue;
        }
        present.push(value)?;
    }
    Ok(present)
}

/// An index that counts what is there.
fn option_lane<'a, 'v>(values: &[&'v Value], arena: &'a Arena) -> Result<Lane<'a>, NoMemory>
    ensures { IfOk result (λ r. r
        ≡ index_column (map (λ v. own_value (view v.now)) values.now)) }
{
    let mut maker = IndexMaker::new(values.len() as u64, arena)?;
    let mut next = 0;
    for i in 0..values.len() {
        if !is_there(values[i]) {
            maker.push(Num::Int(-1));
            continue;
        }
        maker.push(number(next));
        next += 1;
    }
    Ok(maker.finish())
}

/// The column of options over the column of what is there.
pub(crate) fn option_column<'a, 'v, L: Ledger>(
    alloc: Global,
    values: &[&'v Value],
    content: Node<'a>,
    arena: &'a Arena,
    steps: &mut Steps<L>,
) -> Result<Node<'a>, NoMemory>
    requires items { array_items content
        ≡ filter is_present (map (λ v. own_value (view v.now)) values.now) }
    ensures typ { IfOk result (λ y. array_type y ≡ option_of (array_type content.entry)) }
    ensures items { IfOk result (λ y. array_items y
        ≡ map (λ v. own_value (view v.now)) values.now) }
{
    let index = option_lane(values, arena)?;
    let content = Box::new(alloc, content)?;
    Ok(Node::indexed_option(index, content, steps))
}
