//! Cartesian products at an axis.
ghost use Rattle.std.specs.Prelude.{◌≡◌, ◌<◌, ◌≤◌, ◌^◌, IfOk, None, Some, length, map, option_map};
ghost use Rattle.std.specs.List.{AllByRecursion};
ghost use Rattle.awk_types.specs.Faults.{fault_told};
ghost use Rattle.awk_types.specs.Gives.{Gives, refused_or};
ghost use Rattle.awk_types.specs.Limit.{limit};
ghost use Rattle.awk_types.specs.View.{typ_of};
ghost use Rattle.awk_lanes.specs.Places.{IsOffsets, IsOptionalIndex, size_of};
ghost use Rattle.awk_layout.specs.Datum.{datum_of, IsDatum};
ghost use Rattle.awk_layout.specs.Typing.{array_datum};
ghost use Rattle.awk_layout.specs.Valid.{len};
ghost use Rattle.awk_merge_operands.specs.Operands.{column_in};
ghost use Rattle.awk_cartesian.specs.Cartesian.{cartesian_at, cartesian_of};
ghost use Rattle.awk_cartesian.specs.Cartesian.{item_types, product_type};
ghost use Rattle.awk_cartesian.specs.Products.{row_node, product_node, counted_product, count_of};
ghost use Rattle.awk_cartesian.specs.Products.{rows_fault, IsIndexOf};
ghost use Rattle.awk_cartesian.specs.Sources.{rows_in, IsListed};

use crate::rows::opened_rows;
use crate::typing::product_typ;
use awk_lanes::{Arena, Lane, Steps};
use awk_layout::{Array, Datum, Datums, Node};
use awk_merge_operands::{Axis, axis_at, judge_rows};
use awk_products::{Tuples, tuples_of};
use awk_types::{Fault, NoMemory, Typ, simple_of};
use std::alloc::Global;
use std::sync::ledger::Ledger;

/// Lists of tuples, which are null where an index tells.
fn row_node<'a, L: Ledger>(
    alloc: Global,
    tuples: Tuples<'a>,
    index: Option<Lane<'a>>,
    steps: &mut Steps<L>,
) -> Result<Node<'a>, NoMemory>
    requires fits { size_of tuples.offsets ≤ 2 ^ 63 }
    requires offsets { IsOffsets tuples.offsets (len tuples.node) }
    requires index { IsIndexOf index tuples.offsets }
    ensures { IfOk result (λ r. r ≡ row_node index.entry tuples.entry) }
{
    let content = Box::new(alloc, tuples.node)?;
    let lists = Node::list_offset(tuples.offsets, content, steps);
    match index {
        None => Ok(lists),
        Some(index) => {
            let lists = Box::new(alloc, lists)?;
            Ok(Node::indexed_option(index, lists, steps))
        }
    }
}

/// The tuples of arrays, or lists of those of each row.
fn product_node<'a, L: Ledger>(
    alloc: Global,
    axis: Axis,
    tuples: Tuples<'a>,
    index: Option<Lane<'a>>,
    steps: &mut Steps<L>,
) -> Result<Node<'a>, NoMemory>
    requires fits { size_of tuples.offsets ≤ 2 ^ 63 }
    requires offsets { IsOffsets tuples.offsets (len tuples.node) }
    requires index { IsIndexOf index tuples.offsets }
    ensures { IfOk result (λ r. r ≡ product_node axis index.entry tuples.entry) }
{
    match axis {
        Axis::Arrays => Ok(tuples.node),
        Axis::Rows => row_node(alloc, tuples, index, steps),
    }
}

/// The tuples of operands that are lists, or have n rows each.
fn counted<'a, L: Ledger>(
    alloc: Global,
    axis: Axis,
    places: bool,
    n: u64,
    xs: &Datums<'a>,
    typ: Typ,
    arena: &'a Arena,
    steps: &mut Steps<L>,
) -> Result<Array<'a>, Fault>
    requires some { 0 < length xs.now }
    requires lists { AllByRecursion (IsListed axis) xs.now }
    requires long { AllByRecursion (λ d. length (rows_in axis d) ≡ n) xs.now }
    requires fits { n < 2 ^ 63 }
    requires typ { let ds = map datum_of xs.now in
        option_map (product_type axis places ds) (item_types axis ds) ≡ Some (typ_of typ) }
    requires limit { limit (typ_of typ) ≡ None }
    ensures { Gives array_datum fault_told result
        (counted_product axis places (typ_of typ) (map column_in xs.now)) }
{
    let rows = opened_rows(alloc, axis, n, xs, arena, steps)?;
    match tuples_of(alloc, places, n, &rows.sources, arena, steps)? {
        None => Err(Fault::Size),
        Some(tuples) => {
            let node = product_node(alloc, axis, tuples, rows.index, steps)?;
            Ok(Array::within_limits(node, typ))
        }
    }
}

/// How many rows operands have: an array is one.
fn row_count(axis: Axis, xs: &Datums) -> Result<u64, Fault>
    requires some { 0 < length xs.now }
    ensures { let n = count_of axis (map column_in xs.now) in
        Gives (λ m. m) fault_told result (refused_or (rows_fault axis (map column_in xs.now)) n) }
{
    match axis {
        Axis::Arrays => Ok(1),
        Axis::Rows => {
            let n = xs.get(0).kept().len();
            judge_rows(xs, n)?;
            Ok(n)
        }
    }
}

/// The tuples of operands at an axis.
fn product_at<'a, L: Ledger>(
    alloc: Global,
    axis: Axis,
    xs: &Datums<'a>,
    places: bool,
    arena: &'a Arena,
    steps: &mut Steps<L>,
) -> Result<Array<'a>, Fault>
    requires some { 0 < length xs.now }
    ensures { Gives array_datum fault_told result
        (cartesian_at (Some axis) places (map datum_of xs.now)) }
{
    let Some(typ) = product_typ(alloc, axis, places, xs)? else {
        return Err(Fault::Axis);
    };
    let typ = simple_of(alloc, typ)?;
    let n = row_count(axis, xs)?;
    counted(alloc, axis, places, n, xs, typ, arena, steps)
}

/// All tuples of one item of each operand, or of their places, the last varying fastest: at axis 0
/// of the arrays, at axis 1 of the lists of each row, where a row that is null in any operand makes
/// null.
///
/// `Axis` tells an operand that is a single value, another axis, or at axis 1 items that are
/// neither lists, optional lists nor unknown; `Depth` and `Size` the limit that the type of the
/// tuples passes; `Lengths` arrays of different lengths at axis 1; and `Size` also more than
/// 1,073,741,824 tuples, at axis 1 rows or tuples of all rows together, before any is made.
pub fn cartesian<'a, L: Ledger>(
    alloc: Global,
    axis: i64,
    xs: &Datums<'a>,
    places: bool,
    arena: &'a Arena,
    steps: &mut Steps<L>,
) -> Result<Datum<'a>, Fault>
    requires some { 0 < length xs.now }
    ensures answer { Gives datum_of fault_told result
        (cartesian_of axis places (map datum_of xs.now)) }
    ensures datum { IfOk result (λ made. IsDatum made) }
{
    match axis_at(axis) {
        Some(axis) => Ok(Datum::Arr(product_at(alloc, axis, xs, places, arena, steps)?)),
        None => Err(Fault::Axis),
    }
}
