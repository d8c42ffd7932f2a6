//! Operands paired without their items.
ghost use Rattle.std.specs.Prelude.{◌≡◌, ◌<◌, ◌≤◌, [], false, length, map, Some, None, IfOk};
ghost use Rattle.awk_types.specs.Faults.{fault_told};
ghost use Rattle.awk_types.specs.Gives.{Gives};
ghost use Rattle.awk_layout.specs.Typing.{array_type};
ghost use Rattle.awk_open.specs.Opened.{AreLong};
ghost use Rattle.awk_columns.specs.Parts.{AreParts};
ghost use Rattle.awk_frames.specs.Framed.{IsFrame};
ghost use Rattle.awk_frames.specs.Shape.{shape as shape_by};
ghost use Rattle.awk_frames.specs.View.{shape_of};
ghost use Rattle.awk_pair_operands.specs.Answer.{single_or_fault, shared_shape, shared_ends};
ghost use Rattle.awk_pair_operands.specs.First.{all_data};
ghost use Rattle.awk_pair_operands.specs.Pairs.{has_wrong_end, leaf_types, pair_type, typs};
ghost use Rattle.awk_pair_operands.specs.Pairs.{some_array};
ghost use Rattle.awk_pair_types.specs.Emptied.{heights, HasTypes};

use crate::empty::no_items_of_each;
use awk_lanes::{Arena, NoMemory, Steps};
use awk_layout::Operands;
use awk_pair::{Paired, pair, pair_keeping};
use awk_pair_operands::some_array;
use awk_types::Fault;
use std::alloc::{AllocError, Global};
use std::sync::ledger::Ledger;

/// The depth at which operands are paired as arrays without items, so far as they are at another:
/// arrays are a level themselves, and single values are none.
fn depth_as_arrays(xs: &Operands, depth: u64) -> u64
    requires some { 0 < length xs.now }
    requires heights { heights (typs (all_data xs.now)) ≤ 60 }
    ensures { HasTypes (Some depth) (Some result) (all_data xs.now) }
{
    if some_array(xs) {
        return depth;
    }
    depth.saturating_add(1)
}

/// The same where leaves may be asked for.
fn reach_as_arrays(xs: &Operands, depth: Option<u64>) -> Option<u64>
    requires some { 0 < length xs.now }
    requires heights { heights (typs (all_data xs.now)) ≤ 60 }
    ensures { HasTypes depth result (all_data xs.now) }
{
    match depth {
        None => None,
        Some(depth) => Some(depth_as_arrays(xs, depth)),
    }
}

/// Operands paired, where no list of the first one is stretched, or any may be.
fn pair_either<'a, L: Ledger>(
    alloc: Global,
    keep: bool,
    xs: &Operands<'a>,
    depth: Option<u64>,
    arena: &'a Arena,
    steps: &mut Steps<L>,
) -> Result<Paired<'a>, Fault>
    requires some { 0 < length xs.now }
    ensures answer { let said = single_or_fault keep depth (all_data xs.now) in
        Gives (λ p. p.single) fault_told result said }
    ensures shape { let ds = all_data xs.now in
        IfOk result (λ p. shape_of p.shape ≡ shared_shape keep depth ds) }
    ensures leaves { let ds = all_data xs.now in
        IfOk result (λ p. AreParts 0 (shared_ends keep depth ds) p.leaves) }
    ensures types { let ds = all_data xs.now in
        IfOk result (λ p. map array_type p.leaves ≡ leaf_types depth ds) }
    ensures frame { let ds = all_data xs.now in
        let n = length (shared_ends keep depth ds) in
        IfOk result (λ p. IsFrame (shape_of p.shape) n) }
{
    if keep {
        pair_keeping(alloc, xs, depth, arena, steps)
    } else {
        pair(alloc, xs, depth, arena, steps)
    }
}

/// Want of memory, which a fault is that tells none.
fn want_of_memory(fault: Fault) -> NoMemory
    requires { fault_told fault ≡ None }
{
    match fault {
        Fault::NoMemory => AllocError,
        _ => unreachable!(),
    }
}

/// Operands paired without their items, where no list of the first one is stretched, or any may be.
///
/// What they share has the type of what the operands share, with no items. A column of no items
/// put under its shape has the type of the operation's result, so a limit of that type is told
/// before the lengths of any lists. Leaves may be asked for only where each end is one.
pub fn pair_types<'a, L: Ledger>(
    alloc: Global,
    keep: bool,
    xs: &Operands<'a>,
    depth: Option<u64>,
    arena: &'a Arena,
    steps: &mut Steps<L>,
) -> Result<Paired<'a>, NoMemory>
    requires some { 0 < length xs.now }
    requires right { has_wrong_end depth (all_data xs.now) ≡ false }
    ensures shape { let t = pair_type keep depth (all_data xs.now) in
        IfOk result (λ p. shape_of p.shape ≡ shape_by t []) }
    ensures types { let ds = all_data xs.now in
        IfOk result (λ p. map array_type p.leaves ≡ leaf_types depth ds) }
    ensures long { IfOk result (λ p. AreLong 0 p.leaves) }
    ensures frame { IfOk result (λ p. IsFrame (shape_of p.shape) 0) }
{
    let none = no_items_of_each(alloc, xs, arena, steps)?;
    let reach = reach_as_arrays(xs, depth);
    match pair_either(alloc, keep, &none, reach, arena, steps) {
        Ok(paired) => Ok(paired),
        Err(fault) => Err(want_of_memory(fault)),
    }
}
