//! Arrays of one value.
ghost use Rattle.std.specs.Prelude.{◌≡◌, ◌<◌, ◌∷◌, [], Bool, None, Some, length, map};
ghost use Rattle.std.specs.Prelude.{true, negsuc, IfOk};
ghost use Rattle.serde_json.specs.Data.{boolean, null, number as whole};
ghost use Rattle.serde_json.specs.View.{number_view};
ghost use Rattle.awk_types.specs.DataType.{rec, types_from, var};
ghost use Rattle.awk_types.specs.Limit.{limit};
ghost use Rattle.awk_types.specs.Value.{list, row, values_from};
ghost use Rattle.awk_lanes.specs.declared.kind.Kind.TheVariants as Kinds;
ghost use Rattle.awk_layout.specs.Layout.{layouts_from};
ghost use Rattle.awk_layout.specs.Typing.{array_type, array_items};
ghost use Rattle.awk_layout.specs.Valid.{AllReach, AreNames};
ghost use Rattle.awk_gather.specs.Arrays.{array_item};
ghost use Rattle.awk_plain.specs.Plain.{fits, is_whole};
ghost use Rattle.awk_build.specs.Built.{IsArrayOf};

use awk_lanes::{Arena, Kind, Lane, LaneMaker, Num, Steps, one_offsets};
use awk_layout::{Array, Node, Nodes};
use awk_types::{Names, NoMemory, Prim};
use serde_json::Number;
use std::alloc::Global;
use std::sync::ledger::Ledger;

/// The array of one truth value.
pub(crate) fn truth_array<'a, L: Ledger>(
    b: bool,
    arena: &'a Arena,
    steps: &mut Steps<L>,
) -> Result<Array<'a>, NoMemory>
    ensures { IfOk result (IsArrayOf (boolean b)) }
{
    Array::only(Kind::Bool, Num::Truth(b), arena, steps)
}

/// The array of one whole number that fits int64.
pub(crate) fn number_array<'a, L: Ledger>(
    n: &Number,
    arena: &'a Arena,
    steps: &mut Steps<L>,
) -> Result<Array<'a>, NoMemory>
    requires whole { is_whole (number_view n.now) ≡ true }
    requires fits { fits (number_view n.now) ≡ true }
    ensures { IfOk result (IsArrayOf (whole (number_view n.now))) }
{
    match n.as_i64() {
        Some(z) => Array::of_number(Prim::I64, z as i128, arena, steps),
        None => unreachable!(),
    }
}

/// An index of one null.
fn null_index<'a>(arena: &'a Arena) -> Result<Lane<'a>, NoMemory>
    ensures { IfOk result (λ r. r ≡ record { kind = Kinds.I64; items = negsuc 0 ∷ [] }) }
{
    let mut maker = LaneMaker::new(Kind::I64, 1, arena)?;
    maker.push(Num::Int(-1));
    Ok(maker.finish())
}

/// The array of one null of no known type.
pub(crate) fn null_array<'a, L: Ledger>(
    alloc: Global,
    arena: &'a Arena,
    steps: &mut Steps<L>,
) -> Result<Array<'a>, NoMemory>
    ensures { IfOk result (IsArrayOf null) }
{
    let index = null_index(arena)?;
    let content = Box::new(alloc, Node::empty(steps))?;
    Array::of_node(alloc, Node::indexed_option(index, content, steps))
}

/// The array of one list, which has the items of an array.
pub(crate) fn list_array<'a, L: Ledger>(
    alloc: Global,
    x: Array<'a>,
    arena: &'a Arena,
    steps: &mut Steps<L>,
) -> Result<Array<'a>, NoMemory>
    requires { limit (var (array_type x)) ≡ None }
    ensures typ { IfOk result (λ y. array_type y ≡ var (array_type x.entry)) }
    ensures items { let only = list (values_from (array_items x.entry)) in
        IfOk result (λ y. array_items y ≡ only ∷ []) }
{
    let offsets = one_offsets(x.len(), arena)?;
    let content = Box::new(alloc, x.into_node())?;
    Array::of_node(alloc, Node::list_offset(offsets, content, steps))
}

/// The array of one record, whose fields are the first items of columns.
pub(crate) fn row_array<'a, L: Ledger>(
    alloc: Global,
    names: Names,
    columns: Nodes<'a>,
    steps: &mut Steps<L>,
) -> Result<Array<'a>, NoMemory>
    requires names { AreNames (Some names) (length columns) }
    requires reach { AllReach 1 (layouts_from columns) }
    requires limit { limit (rec names (types_from (map array_type columns))) ≡ None }
    ensures typ { let types = map array_type columns.entry in
        IfOk result (λ y. array_type y ≡ rec names (types_from types)) }
    ensures items { let fields = map (λ x. array_item x 0) columns.entry in
        IfOk result (λ y. array_items y ≡ row (values_from fields) ∷ []) }
{
    Array::of_node(alloc, Node::row(Some(names), 1, columns, steps))
}
