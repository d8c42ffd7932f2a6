//! Operands paired.
ghost use Rattle.std.specs.Prelude.{◌≡◌, ◌<◌, false, length, map, true, IfOk};
ghost use Rattle.std.specs.List.{AllByRecursion};
ghost use Rattle.awk_types.specs.Faults.{fault_told};
ghost use Rattle.awk_types.specs.Gives.{Gives};
ghost use Rattle.awk_types.specs.Has.{Has};
ghost use Rattle.awk_columns.specs.Parts.{AreParts};
ghost use Rattle.awk_layout.specs.Typing.{array_type};
ghost use Rattle.awk_pair_operands.specs.Answer.{single_or_fault, shared_shape, shared_ends};
ghost use Rattle.awk_pair_operands.specs.First.{all_data};
ghost use Rattle.awk_pair_operands.specs.Pairs.{leaf_types, pair_type, pair_values, reach};
ghost use Rattle.awk_pair.specs.Outcomes.{reach_of};
ghost use Rattle.awk_frames.specs.Framed.{IsFrame};
ghost use Rattle.awk_frames.specs.View.{shape_of};

use crate::outcome::{Outcome, Paired};
use crate::rows::{Rule, pair_rows};
use crate::unequal::any_unequal_row;
use awk_lanes::{Arena, Steps};
use awk_layout::Operands;
use awk_pair_operands::{First, columns_of, first_rows, has_wrong_end, levels_below};
use awk_types::{Fault, ITEM_LIMIT};
use std::alloc::Global;
use std::sync::ledger::Ledger;

/// Whether leaves are asked for.
fn is_to_leaves(depth: Option<u64>) -> bool
    ensures { reach_of result ≡ reach depth }
{
    depth.is_none()
}

/// Operands paired, where no list of the first one is stretched, or any may be.
fn paired<'a, L: Ledger>(
    alloc: Global,
    keep: bool,
    xs: &Operands<'a>,
    depth: Option<u64>,
    arena: &'a Arena,
    steps: &mut Steps<L>,
) -> Result<Paired<'a>, Fault>
    ensures answer { let said = single_or_fault keep depth (all_data xs.now) in
        Gives (λ p. p.single) fault_told result said }
    ensures shape { let ds = all_data xs.now in
        IfOk result (λ p. shape_of p.shape ≡ shared_shape keep depth ds) }
    ensures leaves { let ds = all_data xs.now in
        IfOk result (λ p. AreParts 0 (shared_ends keep depth ds) p.leaves) }
    ensures types { let ds = all_data xs.now in
        IfOk result (λ p. map array_type p.leaves ≡ leaf_types depth ds) }
    ensures typed { let ds = all_data xs.now in
        let t = pair_type keep depth ds in
        IfOk result (λ _. AllByRecursion (Has t) (pair_values keep depth ds)) }
    ensures frame { let ds = all_data xs.now in
        let n = length (shared_ends keep depth ds) in
        IfOk result (λ p. IsFrame (shape_of p.shape) n) }
{
    if has_wrong_end(xs, depth) {
        return Err(Fault::WrongType);
    }
    let d = levels_below(xs, depth);
    let columns = columns_of(alloc, xs, arena, steps)?;
    match first_rows(alloc, xs, &columns, arena, steps)? {
        First::Unequal => Err(Fault::Lengths),
        First::Rows {
            single,
            count,
            arrays,
        } => {
            if count > ITEM_LIMIT {
                if any_unequal_row(alloc, keep, d, count, &arrays, arena, steps)? {
                    return Err(Fault::Lengths);
                }
                return Err(Fault::Size);
            }
            let to_leaves = is_to_leaves(depth);
            let rule = Rule { keep, to_leaves };
            match pair_rows(alloc, rule, d, count, &arrays, arena, steps)? {
                Outcome::Unequal => Err(Fault::Lengths),
                Outcome::TooMany => Err(Fault::Size),
                Outcome::Pairs { shape, leaves } => Ok(Paired {
                    shape,
                    single,
                    leaves,
                }),
            }
        }
    }
}

/// Operands paired level by level: to their leaves, or through at most `depth` levels.
///
/// Where some operand is an array, the arrays' items are the first level. There is a further one
/// where some operand, its option dropped, is a list; unknown counts as a list there. An operand
/// that is no list stands at every place of a level, and so does the one item of a list whose type
/// is of size 1, where another operand's lists are of another size or of any. A null of any operand
/// makes the whole null. At leaves a null of any operand does so too; at a depth nulls stay as they
/// are.
///
/// Faults come in this order: `WrongType` where leaves are asked for and an end is none, `Lengths`
/// where lists of some level that are not stretched are unequally long, and `Size` where those of
/// some level have more than 1,073,741,824 items together.
pub fn pair<'a, L: Ledger>(
    alloc: Global,
    xs: &Operands<'a>,
    depth: Option<u64>,
    arena: &'a Arena,
    steps: &mut Steps<L>,
) -> Result<Paired<'a>, Fault>
    requires some { 0 < length xs.now }
    ensures answer { let said = single_or_fault false depth (all_data xs.now) in
        Gives (λ p. p.single) fault_told result said }
    ensures shape { let ds = all_data xs.now in
        IfOk result (λ p. shape_of p.shape ≡ shared_shape false depth ds) }
    ensures leaves { let ds = all_data xs.now in
        IfOk result (λ p. AreParts 0 (shared_ends false depth ds) p.leaves) }
    ensures types { let ds = all_data xs.now in
        IfOk result (λ p. map array_type p.leaves ≡ leaf_types depth ds) }
    ensures typed { let ds = all_data xs.now in
        let t = pair_type false depth ds in
        IfOk result (λ _. AllByRecursion (Has t) (pair_values false depth ds)) }
    ensures frame { let ds = all_data xs.now in
        let n = length (shared_ends false depth ds) in
        IfOk result (λ p. IsFrame (shape_of p.shape) n) }
{
    paired(alloc, false, xs, depth, arena, steps)
}

/// The same, where no list of the first operand is stretched.
pub fn pair_keeping<'a, L: Ledger>(
    alloc: Global,
    xs: &Operands<'a>,
    depth: Option<u64>,
    arena: &'a Arena,
    steps: &mut Steps<L>,
) -> Result<Paired<'a>, Fault>
    requires some { 0 < length xs.now }
    ensures answer { let said = single_or_fault true depth (all_data xs.now) in
        Gives (λ p. p.single) fault_told result said }
    ensures shape { let ds = all_data xs.now in
        IfOk result (λ p. shape_of p.shape ≡ shared_shape true depth ds) }
    ensures leaves { let ds = all_data xs.now in
        IfOk result (λ p. AreParts 0 (shared_ends true depth ds) p.leaves) }
    ensures types { let ds = all_data xs.now in
        IfOk result (λ p. map array_type p.leaves ≡ leaf_types depth ds) }
    ensures typed { let ds = all_data xs.now in
        let t = pair_type true depth ds in
        IfOk result (λ _. AllByRecursion (Has t) (pair_values true depth ds)) }
    ensures frame { let ds = all_data xs.now in
        let n = length (shared_ends true depth ds) in
        IfOk result (λ p. IsFrame (shape_of p.shape) n) }
{
    paired(alloc, true, xs, depth, arena, steps)
}
