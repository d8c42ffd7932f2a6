//! Numbers of several kinds in one lane.
ghost use Rattle.std.specs.Prelude.{◌≡◌, ◌<◌, ◌^◌, IfOk};
ghost use Rattle.awk_types.specs.DataType.{leaf};
ghost use Rattle.awk_types.specs.Has.{Has};
ghost use Rattle.awk_lanes.specs.Numbers.{int_of, IsOf};
ghost use Rattle.awk_layout.specs.Kinds.{primitive_of};
ghost use Rattle.awk_layout.specs.Shown.{value_of_num};
ghost use Rattle.awk_merge_lists.specs.Leaves.{leaf_values, is_unsigned, AreOf};
ghost use Rattle.awk_merge_sides.specs.Sides.{side_of, sides_of, side_items, merged_items};
ghost use Rattle.awk_merge_sides.specs.Sides.{IsSide, AreSides, IsCounted, IsMerged};

use awk_lanes::{Arena, Kind, Lane, Num, Numbers, Steps, made_lane};
use awk_layout::{Node, kind_of};
use awk_merge_sides::{Side, Sides};
use awk_open::{Opened, in_order};
use awk_types::{NoMemory, Prim};
use bumpalo::collections::into_bump_slice;
use std::alloc::{AllocError, Global};
use std::sync::ledger::Ledger;

/// Whether numbers of a kind have no sign.
fn is_unsigned(kind: Kind) -> bool
    ensures { result ≡ is_unsigned kind }
{
    match kind {
        Kind::U8 | Kind::U16 | Kind::U32 | Kind::U64 => true,
        _ => false,
    }
}

/// A number as code holds those of a kind.
fn as_kind(kind: Kind, x: Num) -> Num
    requires holds { Has (leaf (primitive_of kind)) (value_of_num x) }
    ensures kind { IsOf kind result }
    ensures value { value_of_num result ≡ value_of_num x }
    ensures number { int_of result ≡ int_of x }
{
    match x {
        Num::Int(z) if is_unsigned(kind) => Num::Nat(z as u64),
        Num::Nat(n) if !is_unsigned(kind) => Num::Int(n as i64),
        _ => x,
    }
}

/// The numbers of a lane, each as code holds those of a kind.
#[derive(Drop)]
struct InKind<'b, 'a> {
    kind: Kind,
    lane: &'b Lane<'a>,
}

impl<'b, 'a> Numbers for InKind<'b, 'a> {
    ghost use Rattle.awk_lanes.specs.Places.{size_of, at};
    ghost use Rattle.awk_layout.specs.Kinds.{primitive_of};
    ghost use Rattle.awk_merge_lists.specs.Leaves.{AreOf};

    ghost kind = { λ f. f.kind };

    ghost at = { λ f. at f.lane.now };

    ghost size = { λ f. size_of f.lane.now };

    ghost IsReady = { λ f. AreOf (primitive_of f.kind) f.lane.now };

    fn number<L: Ledger>(&self, i: u64, steps: &mut Steps<L>) -> Num {
        as_kind(self.kind, self.lane.at(i, steps))
    }
}

/// The numbers of a lane in a lane of another kind.
fn converted<'a, L: Ledger>(
    kind: Kind,
    lane: &Lane,
    arena: &'a Arena,
    steps: &mut Steps<L>,
) -> Result<Lane<'a>, NoMemory>
    requires holds { AreOf (primitive_of kind) lane.now }
    ensures kind { IfOk result (λ r. r.kind ≡ kind) }
    ensures values { IfOk result (λ r. leaf_values r ≡ leaf_values lane.now) }
{
    made_lane(kind, lane.len(), &InKind { kind, lane }, arena, steps)
}

/// A lane in a kind that holds its numbers. One of this kind stays as it lies.
fn in_kind<'a, L: Ledger>(
    kind: Kind,
    lane: Lane<'a>,
    arena: &'a Arena,
    steps: &mut Steps<L>,
) -> Result<Lane<'a>, NoMemory>
    requires holds { AreOf (primitive_of kind) lane }
    ensures kind { IfOk result (λ r. r.kind ≡ kind) }
    ensures values { IfOk result (λ r. leaf_values r ≡ leaf_values lane.entry) }
{
    if lane.kind() == kind {
        Ok(lane)
    } else {
        converted(kind, &lane, arena, steps)
    }
}

/// The numbers of a column.
fn side_lane<'a, L: Ledger>(
    alloc: Global,
    kind: Kind,
    side: &Side<'a>,
    arena: &'a Arena,
    steps: &mut Steps<L>,
) -> Result<Lane<'a>, NoMemory>
    requires side { IsSide (leaf (primitive_of kind)) (side_of side.now) }
    ensures kind { IfOk result (λ r. r.kind ≡ kind) }
    ensures values { IfOk result (λ r. leaf_values r ≡ side_items (side_of side.now)) }
{
    let _ = side.column.len();
    match in_order(alloc, &side.column, arena, steps)? {
        Opened::Leaf(lane) => in_kind(kind, lane, arena, steps),
        _ => unreachable!(),
    }
}

/// The numbers of all columns, moved as the bytes that they lie in.
fn joined<'a, L: Ledger>(
    alloc: Global,
    kind: Kind,
    sides: &Sides<'a>,
    arena: &'a Arena,
    steps: &mut Steps<L>,
) -> Result<Lane<'a>, NoMemory>
    requires sides { AreSides (leaf (primitive_of kind)) (sides_of sides.now) }
    ensures kind { IfOk result (λ r. r.kind ≡ kind) }
    ensures values { IfOk result (λ r. leaf_values r ≡ merged_items (sides_of sides.now)) }
{
    let size = sides
        .total()
        .checked_mul(kind.width() as u64)
        .ok_or(AllocError)?;
    let mut bytes = Vec::with_capacity(arena, size as usize)?;
    for i in 0..sides.len() {
        let lane = side_lane(alloc, kind, sides.get(i), arena, steps)?;
        let moved = lane.bulk(arena, steps)?;
        bytes.extend_from_slice(moved)?;
    }
    Ok(Lane::new(kind, into_bump_slice(bytes)))
}

/// The numbers of all columns. Those of one column are not moved.
fn all_numbers<'a, L: Ledger>(
    alloc: Global,
    kind: Kind,
    sides: &Sides<'a>,
    arena: &'a Arena,
    steps: &mut Steps<L>,
) -> Result<Lane<'a>, NoMemory>
    requires sides { AreSides (leaf (primitive_of kind)) (sides_of sides.now) }
    ensures kind { IfOk result (λ r. r.kind ≡ kind) }
    ensures values { IfOk result (λ r. leaf_values r ≡ merged_items (sides_of sides.now)) }
{
    if sides.len() == 1 {
        side_lane(alloc, kind, sides.get(0), arena, steps)
    } else {
        joined(alloc, kind, sides, arena, steps)
    }
}

/// One column of the numbers of all columns.
pub fn numbers<'a, L: Ledger>(
    alloc: Global,
    prim: Prim,
    sides: &Sides<'a>,
    arena: &'a Arena,
    steps: &mut Steps<L>,
) -> Result<Node<'a>, NoMemory>
    requires sides { AreSides (leaf prim) (sides_of sides.now) }
    requires counted { IsCounted sides.now }
    ensures { IfOk result (IsMerged (leaf prim) (sides_of sides.now)) }
{
    let lane = all_numbers(alloc, kind_of(prim), sides, arena, steps)?;
    Ok(Node::numpy(lane, steps))
}
