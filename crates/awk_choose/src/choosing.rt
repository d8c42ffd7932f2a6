//! The choice.
ghost use Rattle.std.specs.Prelude.{◌≡◌, ◌<◌, suc, [], false, length, map, true, Ok, IfOk};
ghost use Rattle.awk_types.specs.DataType.{leaf};
ghost use Rattle.awk_types.specs.Faults.{fault_told};
ghost use Rattle.awk_types.specs.Gives.{Gives};
ghost use Rattle.awk_types.specs.Simple.{option_if};
ghost use Rattle.awk_types.specs.declared.primitive.Primitive.{Primitive};
ghost use Rattle.awk_layout.specs.Datum.{datum_of, IsDatum, IsOperand};
ghost use Rattle.awk_layout.specs.Filler.{filler_of};
ghost use Rattle.awk_layout.specs.Typing.{array_type, array_items};
ghost use Rattle.awk_frames.specs.Framed.{IsFrame};
ghost use Rattle.awk_frames.specs.Shape.{shape as shape_by};
ghost use Rattle.awk_frames.specs.View.{shape_of};
ghost use Rattle.awk_pair_operands.specs.First.{all_data};
ghost use Rattle.awk_pair_operands.specs.Pairs.{leaf_types, pair_type};
ghost use Rattle.awk_pair_sides.specs.Levels.{some_option};
ghost use Rattle.awk_ends.specs.Columns.{IsAmong, data_before};
ghost use Rattle.awk_choose.specs.Choice.{far, choice_data, are_leaves, judged_choice, choose_of};
ghost use Rattle.awk_choose.specs.Ends.{AreLeafColumns, columns_judged, columns_said};

use crate::ends::{chosen_leaves, column_end, operand_end};
use crate::types::{are_leaves, chosen_node, result_typ};
use awk_ends::{data_before, datum_leaf, leaf_type, push_datum};
use awk_frames::framed;
use awk_kernels::Kernels;
use awk_lanes::{Arena, NoMemory, Steps};
use awk_layout::{Array, Arrays, Datum, Node, Operand, Operands};
use awk_leaves::choice_prim;
use awk_pair::{Paired, pair};
use awk_pair_operands::datum_from;
use awk_pair_sides::some_option;
use awk_pair_types::pair_types;
use awk_types::Fault;
use std::alloc::Global;
use std::sync::ledger::Ledger;

/// The condition, and the operands that are data.
fn data_of<'a>(
    alloc: Global,
    c: &Datum<'a>,
    a: &Operand<'a>,
    b: &Operand<'a>,
) -> Result<Operands<'a>, NoMemory>
    requires condition { IsDatum c.now }
    requires first { IsOperand a.now }
    requires second { IsOperand b.now }
    ensures { let ds = choice_data (datum_of c.now) (filler_of a.now) (filler_of b.now) in
        IfOk result (λ xs. all_data xs ≡ ds) }
{
    let mut xs = Operands::new(alloc);
    xs.push(Operand::Of(c.copy(alloc)?))?;
    push_datum(alloc, a, &mut xs)?;
    push_datum(alloc, b, &mut xs)?;
    Ok(xs)
}

/// What is chosen at each end, of columns of which the first is the condition's and the others are
/// those of the operands that are data.
fn chosen_ends<'a, N: Kernels, L: Ledger>(
    alloc: Global,
    a: &Operand,
    b: &Operand,
    columns: &Arrays<'a>,
    kernels: &N,
    arena: &'a Arena,
    steps: &mut Steps<L>,
) -> Result<Node<'a>, Fault>
    requires first { IsOperand a.now }
    requires second { IsOperand b.now }
    requires some { 0 < length columns.now }
    requires leaves { AreLeafColumns columns.now }
    requires a { IsAmong a.now 1 columns.now }
    requires b { IsAmong b.now (suc (data_before a.now)) columns.now }
    ensures answer { Gives array_items fault_told result (columns_said a.now b.now columns.now) }
    ensures typ { let optional = some_option (map array_type columns.now) in
        (p : Primitive) → columns_judged a.now b.now columns.now ≡ Ok p
        → IfOk result (λ y. array_type y ≡ option_if optional (leaf p)) }
{
    let first = columns.get(0);
    let n = first.len();
    let condition = column_end(alloc, first, arena, steps)?;
    let x = operand_end(alloc, a, 1, columns, arena, steps)?;
    let y = operand_end(alloc, b, 1 + data_before(a), columns, arena, steps)?;
    let chosen = chosen_leaves(alloc, &condition, &x, &y, n, kernels, arena, steps)?;
    let node = chosen_node(alloc, some_option(columns), &chosen, steps)?;
    Ok(node)
}

/// The choice among operands whose ends are leaves, optional or not.
fn of_leaves<'a, N: Kernels, L: Ledger>(
    alloc: Global,
    c: &Datum<'a>,
    a: &Operand<'a>,
    b: &Operand<'a>,
    xs: &Operands<'a>,
    none: &Paired<'a>,
    kernels: &N,
    arena: &'a Arena,
    steps: &mut Steps<L>,
) -> Result<Datum<'a>, Fault>
    requires first { IsOperand a.now }
    requires second { IsOperand b.now }
    requires data { all_data xs.now
        ≡ choice_data (datum_of c.now) (filler_of a.now) (filler_of b.now) }
    requires some { 0 < length xs.now }
    requires leaves { are_leaves (all_data xs.now) ≡ true }
    requires shape { shape_of none.now.shape ≡ shape_by (pair_type false far (all_data xs.now)) [] }
    requires types { map array_type none.now.leaves ≡ leaf_types far (all_data xs.now) }
    requires frame { IsFrame (shape_of none.now.shape) 0 }
    ensures answer { Gives datum_of fault_told result
        (judged_choice (datum_of c.now) (filler_of a.now) (filler_of b.now)) }
    ensures datum { IfOk result (λ made. IsDatum made) }
{
    let prim = choice_prim(datum_leaf(c), leaf_type(a), leaf_type(b))?;
    let optional = some_option(&none.leaves);
    let typ = result_typ(alloc, prim, optional, &none.shape, arena, steps)?;
    let paired = pair(alloc, xs, Some(64), arena, steps)?;
    let ends = chosen_ends(alloc, a, b, &paired.leaves, kernels, arena, steps)?;
    let node = framed(alloc, &paired.shape, ends, steps)?;
    Ok(datum_from(paired.single, Array::within_limits(node, typ)))
}

/// At each end of what a condition and two operands share, a's item where the condition is true,
/// b's where it is not, and null where it is null.
///
/// Faults come in this order: `WrongType` where an end of the three is a record, a tuple or a
/// union, where the condition is not of truth values, or where the leaves of a and b neither
/// promote nor are truth values both; `Overflow` of a literal; `Depth` or `Size` of the result's
/// type; and `Lengths` and `Size` as of a pairing.
pub fn choose<'a, N: Kernels, L: Ledger>(
    alloc: Global,
    c: &Datum<'a>,
    a: &Operand<'a>,
    b: &Operand<'a>,
    kernels: &N,
    arena: &'a Arena,
    steps: &mut Steps<L>,
) -> Result<Datum<'a>, Fault>
    requires condition { IsDatum c.now }
    requires first { IsOperand a.now }
    requires second { IsOperand b.now }
    ensures answer { Gives datum_of fault_told result
        (choose_of (datum_of c.now) (filler_of a.now) (filler_of b.now)) }
    ensures datum { IfOk result (λ made. IsDatum made) }
{
    let xs = data_of(alloc, c, a, b)?;
    let none = pair_types(alloc, false, &xs, Some(64), arena, steps)?;
    if !are_leaves(&none.leaves) {
        return Err(Fault::WrongType);
    }
    of_leaves(alloc, c, a, b, &xs, &none, kernels, arena, steps)
}
