//! Lists of whole numbers, each list as one lane.
ghost use Rattle.std.specs.Prelude.{◌≡◌, map, IfOk, IfSome};
ghost use Rattle.std.specs.List.{AllByRecursion};
ghost use Rattle.serde_json.specs.View.{items_view, view};
ghost use Rattle.awk_types.specs.DataType.{leaf};
ghost use Rattle.awk_types.specs.Has.{Holds};
ghost use Rattle.awk_types.specs.Value.{int};
ghost use Rattle.awk_types.specs.declared.primitive.Primitive.TheVariants as Prims;
ghost use Rattle.awk_layout.specs.Typing.{array_type, array_items};
ghost use Rattle.awk_build.specs.Numbers.{HasNumbers, IsNumberOf};

use awk_lanes::{Arena, Kind, Steps, lane_of_numbers};
use awk_layout::{Array, Node};
use awk_types::{NoMemory, Prim, Typ};
use serde_json::Value;
use std::alloc::Global;
use std::sync::ledger::Ledger;

/// The whole number that a value is, where it is one that fits int64.
fn number_in(value: &Value) -> Option<i64>
    ensures { IfSome result (IsNumberOf (view value.now)) }
{
    match value {
        Value::Number(n) => n.as_i64(),
        _ => None,
    }
}

/// The numbers of all items, where there is an item and each is a whole number that fits int64.
pub(crate) fn numbers_of(alloc: Global, items: &[Value]) -> Result<Option<Vec<i64>>, NoMemory>
    ensures { IfOk result (λ found. IfSome found (λ zs.
        HasNumbers (items_view items.now) zs.items)) }
{
    if items.len() == 0 {
        return Ok(None);
    }
    let mut numbers = Vec::new(alloc);
    for item in items {
        match number_in(item) {
            Some(z) => numbers.push(z)?,
            None => return Ok(None),
        }
    }
    Ok(Some(numbers))
}

/// The array of numbers.
pub(crate) fn numbers_array<'a, L: Ledger>(
    numbers: &[i64],
    arena: &'a Arena,
    steps: &mut Steps<L>,
) -> Result<Array<'a>, NoMemory>
    requires { AllByRecursion (Holds Prims.I64) numbers.now }
    ensures typ { IfOk result (λ x. array_type x ≡ leaf Prims.I64) }
    ensures items { IfOk result (λ x. array_items x ≡ map int numbers.now) }
{
    let lane = lane_of_numbers(Kind::I64, numbers, arena)?;
    let node = Node::numpy(lane, steps);
    Ok(Array::with_type(node, Typ::Leaf(Prim::I64)))
}
