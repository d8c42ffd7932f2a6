//! Operands as columns of leaves.
ghost use Rattle.std.specs.Prelude.{◌≡◌, ◌<◌, ℕ, List, true, length, Ok, IfOk};
ghost use Rattle.awk_types.specs.Predicates.{is_leaf};
ghost use Rattle.awk_types.specs.Faults.{fault_told};
ghost use Rattle.awk_types.specs.Gives.{Gives};
ghost use Rattle.awk_types.specs.declared.primitive.Primitive.{Primitive};
ghost use Rattle.awk_layout.specs.Datum.{IsOperand};
ghost use Rattle.awk_layout.specs.Kinds.{kind_of};
ghost use Rattle.awk_layout.specs.Layout.{Layout};
ghost use Rattle.awk_layout.specs.Typing.{array_type, array_items};
ghost use Rattle.awk_layout.specs.Valid.{len};
ghost use Rattle.awk_leaves.specs.Table.{binary_judged, unary_judged};
ghost use Rattle.awk_leaves.specs.Values.{binary_values, unary_values};
ghost use Rattle.awk_pointwise.specs.Sides.{lane_values};
ghost use Rattle.awk_ends.specs.Columns.{leaf_at, values_at, data_before, ends_of, IsAmong};
ghost use Rattle.awk_ends.specs.Columns.{IsLaneOf};
ghost use Rattle.awk_ends.specs.Operands.{leaf_in};
ghost use Rattle.awk_arith.specs.Sides.{AreLeaves, IsLaneAt, IsSideAt, IsColumnSide};

use awk_ends::{data_before, leaf_lane};
use awk_kernels::Kernels;
use awk_lanes::{Arena, Lane, NoMemory, Steps};
use awk_layout::{Array, Arrays, Operand};
use awk_leaves::{Binary, Unary};
use awk_pointwise::{Side, binary_leaves, unary_leaves};
use awk_types::Fault;
use std::alloc::Global;
use std::sync::ledger::Ledger;

/// The lane of an operand, where it is the k-th of those that are data. A literal has none.
fn operand_lane<'a, L: Ledger>(
    alloc: Global,
    x: &Operand,
    k: usize,
    leaves: &Arrays<'a>,
    n: u64,
    arena: &'a Arena,
    steps: &mut Steps<L>,
) -> Result<Option<Lane<'a>>, NoMemory>
    requires leaves { AreLeaves n leaves.now }
    requires among { IsAmong x.now k leaves.now }
    ensures { IfOk result (IsLaneAt n x.now k leaves.now) }
{
    match x {
        Operand::Literal(_) => Ok(None),
        Operand::Of(_) => leaf_lane(alloc, leaves.get(k), arena, steps),
    }
}

/// What a column of leaves gives at each end, by its lane.
fn column_side<'b, 'a>(lane: &'b Option<Lane<'a>>) -> Side<'b, 'a>
    ensures { (n : ℕ) (y : Layout) → len y ≡ n → IsLaneOf y lane.now → IsColumnSide n y result }
{
    match lane {
        None => Side::Missing,
        Some(lane) => Side::Column(lane),
    }
}

/// What an operand gives at each end.
fn side_of<'b, 'a>(x: &Operand, lane: &'b Option<Lane<'a>>) -> Side<'b, 'a>
    requires { IsOperand x.now }
    ensures { (n k : ℕ) (ys : List Layout) → IsLaneAt n x.now k ys lane.now
        → IsSideAt n x.now k ys result }
{
    match x {
        Operand::Literal(z) => Side::Literal(*z),
        Operand::Of(_) => column_side(lane),
    }
}

/// The lane of what an operation gives of two operands at each end, or the fault of the first end
/// that has one. The leaves are those of the operands that are data, in order.
pub(crate) fn row_leaves<'a, N: Kernels, L: Ledger>(
    alloc: Global,
    op: Binary,
    x: &Operand,
    y: &Operand,
    leaves: &Arrays<'a>,
    kernels: &N,
    arena: &'a Arena,
    steps: &mut Steps<L>,
) -> Result<Lane<'a>, Fault>
    requires first { IsOperand x.now }
    requires second { IsOperand y.now }
    requires some { 0 < length leaves.now }
    requires leaves { AreLeaves (ends_of leaves.now) leaves.now }
    requires x { IsAmong x.now 0 leaves.now }
    requires y { IsAmong y.now (data_before x.now) leaves.now }
    ensures answer { let k = data_before x.now in let n = ends_of leaves.now in
        Gives lane_values fault_told result (binary_values op
        (leaf_at x.now 0 leaves.now) (leaf_at y.now k leaves.now)
        (values_at n x.now 0 leaves.now) (values_at n y.now k leaves.now)) }
    ensures kind { (p : Primitive)
        → binary_judged op (leaf_at x.now 0 leaves.now)
        (leaf_at y.now (data_before x.now) leaves.now) ≡ Ok p
        → IfOk result (λ r. r.kind ≡ kind_of p) }
{
    let n = leaves.get(0).len();
    let first = operand_lane(alloc, x, 0, leaves, n, arena, steps)?;
    let second = operand_lane(alloc, y, data_before(x), leaves, n, arena, steps)?;
    let sides = (&side_of(x, &first), &side_of(y, &second));
    binary_leaves(alloc, op, sides, n, kernels, arena, steps)
}

/// The lane of what an operation gives of each leaf of a column, or the fault of the first leaf
/// that has one.
pub(crate) fn leaf_results<'a, N: Kernels, L: Ledger>(
    alloc: Global,
    op: Unary,
    leaf: &Array<'a>,
    kernels: &N,
    arena: &'a Arena,
    steps: &mut Steps<L>,
) -> Result<Lane<'a>, Fault>
    requires { is_leaf (array_type leaf.now) ≡ true }
    ensures answer { Gives lane_values fault_told result
        (unary_values op (leaf_in (array_type leaf.now)) (array_items leaf.now)) }
    ensures kind { (p : Primitive) → unary_judged op (leaf_in (array_type leaf.now)) ≡ Ok p
        → IfOk result (λ r. r.kind ≡ kind_of p) }
{
    let n = leaf.len();
    let lane = leaf_lane(alloc, leaf, arena, steps)?;
    unary_leaves(alloc, op, &column_side(&lane), n, kernels, arena, steps)
}
