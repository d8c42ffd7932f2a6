//! What operands give at the ends of a pairing.
ghost use Rattle.std.specs.Prelude.{◌≡◌, ◌<◌, ℕ, true, Ok, IfOk};
ghost use Rattle.awk_types.specs.Faults.{fault_told};
ghost use Rattle.awk_types.specs.Gives.{Gives};
ghost use Rattle.awk_types.specs.Predicates.{is_leaf};
ghost use Rattle.awk_types.specs.Simple.{present};
ghost use Rattle.awk_types.specs.declared.primitive.Primitive.{Primitive};
ghost use Rattle.awk_lanes.specs.Places.{size_of};
ghost use Rattle.awk_lanes.specs.declared.kind.Kind.TheVariants as Kind;
ghost use Rattle.awk_layout.specs.Datum.{IsOperand};
ghost use Rattle.awk_layout.specs.Kinds.{kind_of};
ghost use Rattle.awk_layout.specs.Layout.{Layout};
ghost use Rattle.awk_layout.specs.Typing.{array_type, array_items};
ghost use Rattle.awk_leaves.specs.Table.{choice_judged};
ghost use Rattle.awk_leaves.specs.Values.{choice_values};
ghost use Rattle.awk_open.specs.Opened.{IsOpened};
ghost use Rattle.awk_open.specs.declared.opening.Opened.TheVariants as Opened;
ghost use Rattle.awk_open.specs.InOrder.{IsInOrder};
ghost use Rattle.awk_pointwise.specs.Choice.{chosen_items};
ghost use Rattle.awk_pointwise.specs.Optional.{optional_type, optional_values, IsOptional};
ghost use Rattle.awk_ends.specs.Columns.{IsAmong};
ghost use Rattle.awk_choose.specs.Ends.{end_leaf, end_values, IsEnd, IsSideOf, IsColumnEnd};
ghost use Rattle.awk_choose.specs.Ends.{AreLeafColumns, IsEndAt};

use awk_ends::leaf_lane;
use awk_kernels::Kernels;
use awk_lanes::{Arena, Lane, NoMemory, Steps};
use awk_layout::{Array, Arrays, Operand};
use awk_open::{Opened, in_order};
use awk_pointwise::{Chosen, Optional, Side, choice_leaves};
use awk_types::Fault;
use std::alloc::Global;
use std::sync::ledger::Ledger;

/// What an operand gives at the ends of a pairing.
#[derive(Drop)]
pub(crate) enum End<'a> {
    /// The numbers of a lane.
    Leaves(Lane<'a>),
    /// For each end the place of its number in a lane, or a negative number where it is null.
    Indexed(Lane<'a>, Lane<'a>),
    /// Null at each end, as of unknown.
    Nulls,
    /// One whole number that takes its type from the other operand.
    Literal(i128),
}

/// What an option gives, by its index and its content.
fn option_end<'a, L: Ledger>(
    alloc: Global,
    index: &Lane<'a>,
    content: &Array<'a>,
    arena: &'a Arena,
    steps: &mut Steps<L>,
) -> Result<End<'a>, NoMemory>
    requires { is_leaf (array_type content.now) ≡ true }
    ensures { (y : Layout) → IsOpened y (Opened.Option index.now content.now)
        → IsInOrder (array_items y) (Opened.Option index.now content.now)
        → IfOk result (IsColumnEnd y) }
{
    match leaf_lane(alloc, content, arena, steps)? {
        None => Ok(End::Nulls),
        Some(lane) => Ok(End::Indexed(index.copy(), lane)),
    }
}

/// What a column of leaves gives, optional or not.
pub(crate) fn column_end<'a, L: Ledger>(
    alloc: Global,
    leaf: &Array<'a>,
    arena: &'a Arena,
    steps: &mut Steps<L>,
) -> Result<End<'a>, NoMemory>
    requires { is_leaf (present (array_type leaf.now)) ≡ true }
    ensures { IfOk result (IsColumnEnd leaf.now) }
{
    let _ = leaf.len(); // each item is of the type
    match in_order(alloc, leaf, arena, steps)? {
        Opened::Empty => Ok(End::Nulls),
        Opened::Leaf(lane) => Ok(End::Leaves(lane)),
        Opened::Option { index, content } => option_end(alloc, &index, &content, arena, steps),
        _ => unreachable!(),
    }
}

/// What an operand gives, where it is the k-th of the data unless it is a literal.
pub(crate) fn operand_end<'a, L: Ledger>(
    alloc: Global,
    x: &Operand,
    k: usize,
    leaves: &Arrays<'a>,
    arena: &'a Arena,
    steps: &mut Steps<L>,
) -> Result<End<'a>, NoMemory>
    requires operand { IsOperand x.now }
    requires leaves { AreLeafColumns leaves.now }
    requires among { IsAmong x.now k leaves.now }
    ensures { IfOk result (IsEndAt x.now k leaves.now) }
{
    match x {
        Operand::Literal(z) => Ok(End::Literal(*z)),
        Operand::Of(_) => column_end(alloc, leaves.get(k), arena, steps),
    }
}

/// The same without nulls, where there are none.
fn side_of<'b, 'a>(end: &'b End<'a>) -> Side<'b, 'a>
    ensures { IsSideOf end.now result }
{
    match end {
        End::Leaves(lane) => Side::Column(lane),
        End::Literal(z) => Side::Literal(*z),
        End::Indexed(_, _) | End::Nulls => Side::Missing,
    }
}

fn optional_of<'b, 'a>(end: &'b End<'a>, side: &'b Side<'b, 'a>) -> Optional<'b, 'a>
    requires { IsSideOf end.now side.now }
    ensures leaf { optional_type result ≡ end_leaf end.now }
    ensures values { (n : ℕ) → optional_values n result ≡ end_values n end.now }
    ensures optional { (n : ℕ) → IsEnd n end.now → IsOptional n result }
{
    match end {
        End::Leaves(_) | End::Literal(_) => Optional::Whole(side),
        End::Indexed(index, lane) => Optional::Indexed(index, lane),
        End::Nulls => Optional::Nulls,
    }
}

/// What a condition chooses at each of n ends, of what two operands give there.
pub(crate) fn chosen_leaves<'a, N: Kernels, L: Ledger>(
    alloc: Global,
    condition: &End,
    x: &End,
    y: &End,
    n: u64,
    kernels: &N,
    arena: &'a Arena,
    steps: &mut Steps<L>,
) -> Result<Chosen<'a>, Fault>
    requires condition { IsEnd n condition.now }
    requires first { IsEnd n x.now }
    requires second { IsEnd n y.now }
    ensures answer { Gives chosen_items fault_told result (choice_values
        (end_leaf condition.now) (end_leaf x.now) (end_leaf y.now)
        (end_values n condition.now) (end_values n x.now) (end_values n y.now)) }
    ensures kind { (p : Primitive)
        → choice_judged (end_leaf condition.now) (end_leaf x.now) (end_leaf y.now) ≡ Ok p
        → IfOk result (λ r. r.lane.kind ≡ kind_of p) }
    ensures size { IfOk result (λ r. size_of r.lane ≡ n) }
    ensures nulls { IfOk result (λ r. size_of r.nulls ≡ n) }
    ensures mask { IfOk result (λ r. r.nulls.kind ≡ Kind.I8) }
{
    let whole = side_of(condition);
    let condition = optional_of(condition, &whole);
    let whole = side_of(x);
    let x = optional_of(x, &whole);
    let whole = side_of(y);
    let y = optional_of(y, &whole);
    choice_leaves(alloc, &condition, (&x, &y), n, kernels, arena, steps)
}
