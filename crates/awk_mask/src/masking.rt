//! The items of an array where a mask over it is of one truth value, and null elsewhere.
ghost use Rattle.std.specs.Prelude.{◌≡◌, ◌+◌, ◌∷◌, [], map, false, true, None, IfOk};
ghost use Rattle.awk_types.specs.Faults.{fault_told};
ghost use Rattle.awk_types.specs.Gives.{Gives};
ghost use Rattle.awk_types.specs.Limit.{limit};
ghost use Rattle.awk_types.specs.View.{typ_of};
ghost use Rattle.awk_layout.specs.Datum.{datum_of, IsDatum};
ghost use Rattle.awk_layout.specs.Typing.{array_type, array_datum};
ghost use Rattle.awk_columns.specs.Parts.{AreParts};
ghost use Rattle.awk_frames.specs.View.{shape_of};
ghost use Rattle.awk_pair_operands.specs.Answer.{single_or_fault, shared_shape, shared_ends};
ghost use Rattle.awk_pair_operands.specs.First.{all_data};
ghost use Rattle.awk_pair_operands.specs.Pairs.{leaf_types};
ghost use Rattle.awk_mask_pairs.specs.MaskTypes as types;
ghost use Rattle.awk_mask_pairs.specs.MaskValues.{masks};
ghost use Rattle.awk_mask.specs.MaskTypes.{IsJudged};
ghost use Rattle.awk_mask.specs.MaskedArrays.{depth_under, both, masked_array};
ghost use Rattle.awk_mask.specs.PutMask.{put_mask_of, types_refused};

use crate::classes::classed;
use crate::mask_leaves::masked_items;
use crate::mask_lists::any_length;
use awk_frames::framed;
use awk_lanes::{Arena, Steps};
use awk_layout::{Array, Datum, Node, Operand, Operands};
use awk_mask_pairs::{has_ones, mask_levels, masked_type, masks};
use awk_pair::{Paired, pair_keeping};
use awk_types::{Fault, NoMemory, Typ, simple_of};
use std::alloc::Global;
use std::sync::ledger::Ledger;

/// What types tell: that the mask is none, or the limit that the type of the result passes.
#[tactic(auto, using(crate::proofs::MaskFaults::judging))]
fn judged(alloc: Global, u: &Typ, t: &Typ) -> Result<(), Fault>
    ensures { IsJudged (types_refused (typ_of u.now) (typ_of t.now)) result }
{
    if !masks(u, t) {
        return Err(Fault::WrongType);
    }
    let typ = masked_type(alloc, u, t)?;
    let _ = simple_of(alloc, typ)?;
    Ok(())
}

/// An array and a mask over it, as operands.
fn operands_of<'a>(alloc: Global, x: &Array<'a>, m: &Array<'a>) -> Result<Operands<'a>, NoMemory>
    ensures { IfOk result (λ r. all_data r ≡ array_datum x.now ∷ array_datum m.now ∷ []) }
{
    let mut operands = Operands::new(alloc);
    operands.push(Operand::Of(Datum::Arr(x.copy(alloc)?)))?;
    operands.push(Operand::Of(Datum::Arr(m.copy(alloc)?)))?;
    Ok(operands)
}

/// How deep an array is paired with a mask: the arrays are a level themselves.
fn depth_of(u: &Typ) -> u64
    requires { limit (typ_of u.now) ≡ None }
    ensures { result ≡ types.mask_levels (typ_of u.now) + 1 }
{
    mask_levels(u) + 1
}

/// An array and a mask paired as deep as the mask's own lists go.
fn paired_with<'a, L: Ledger>(
    alloc: Global,
    x: &Array<'a>,
    m: &Array<'a>,
    arena: &'a Arena,
    steps: &mut Steps<L>,
) -> Result<Paired<'a>, Fault>
    ensures answer { let said = single_or_fault true (depth_under m.now) (both m.now x.now) in
        Gives (λ p. p.single) fault_told result said }
    ensures shape { let s = shared_shape true (depth_under m.now) (both m.now x.now) in
        IfOk result (λ p. shape_of p.shape ≡ s) }
    ensures leaves { let vs = shared_ends true (depth_under m.now) (both m.now x.now) in
        IfOk result (λ p. AreParts 0 vs p.leaves) }
    ensures types { let ts = leaf_types (depth_under m.now) (both m.now x.now) in
        IfOk result (λ p. map array_type p.leaves ≡ ts) }
{
    let operands = operands_of(alloc, x, m)?;
    let depth = depth_of(m.typ());
    pair_keeping(alloc, &operands, Some(depth), arena, steps)
}

/// An array where a mask is over it, none of whose lists are of a type of size 1: a pairing of both
/// stretches none. The lists that both share keep the class of those of the array.
fn paired_mask<'a, L: Ledger>(
    alloc: Global,
    x: &Array<'a>,
    m: &Array<'a>,
    keep: bool,
    arena: &'a Arena,
    steps: &mut Steps<L>,
) -> Result<Node<'a>, Fault>
    requires masks { masks (array_type m.now) (array_type x.now) ≡ true }
    requires sized { types.has_ones (array_type m.now) ≡ false }
    ensures { Gives array_datum fault_told result (masked_array m.now x.now keep) }
{
    let _ = x.len();
    let _ = m.len();
    let t = x.typ();
    let _ = m.typ();
    let paired = paired_with(alloc, x, m, arena, steps)?;
    let items = paired.leaves.get(0);
    let mask = paired.leaves.get(1);
    let ends = masked_items(alloc, items, mask, keep, arena, steps)?;
    let shape = classed(alloc, &paired.shape, t)?;
    let node = framed(alloc, &shape, ends, steps)?;
    Ok(node)
}

/// An array where a mask is over it. A pairing would stretch lists of the mask that are of a type
/// of size 1, so these are taken as lists of any length.
fn masked_node<'a, L: Ledger>(
    alloc: Global,
    x: &Array<'a>,
    m: &Array<'a>,
    keep: bool,
    arena: &'a Arena,
    steps: &mut Steps<L>,
) -> Result<Node<'a>, Fault>
    requires { masks (array_type m.now) (array_type x.now) ≡ true }
    ensures { Gives array_datum fault_told result (masked_array m.now x.now keep) }
{
    if !has_ones(m.typ()) {
        return paired_mask(alloc, x, m, keep, arena, steps);
    }
    let mask = any_length(alloc, m, arena, steps)?;
    paired_mask(alloc, x, &mask, keep, arena, steps)
}

/// An array where a mask is over it.
fn put_mask_over<'a, L: Ledger>(
    alloc: Global,
    x: &Array<'a>,
    m: &Array<'a>,
    keep: bool,
    arena: &'a Arena,
    steps: &mut Steps<L>,
) -> Result<Datum<'a>, Fault>
    ensures answer { Gives datum_of fault_told result
        (put_mask_of (array_datum x.now) (array_datum m.now) keep) }
    ensures datum { IfOk result IsDatum }
{
    judged(alloc, m.typ(), x.typ())?;
    let node = masked_node(alloc, x, m, keep, arena, steps)?;
    Ok(Datum::Arr(Array::of_node(alloc, node)?))
}

/// Each item of an array where a mask over it is the truth value that is kept, and null elsewhere.
///
/// For as long as the mask is of lists the array is too, of the same lengths, and its lists keep
/// their class. The mask's truth values may be null, and it may be of unknown. A null of either
/// gives null.
///
/// Faults come in this order: a type that is no mask, or a single value; a type of the result that
/// is too deep or too large; lengths that differ; too many items.
pub fn put_mask<'a, L: Ledger>(
    alloc: Global,
    x: &Datum<'a>,
    mask: &Datum<'a>,
    valid_when: bool,
    arena: &'a Arena,
    steps: &mut Steps<L>,
) -> Result<Datum<'a>, Fault>
    requires datum { IsDatum x.now }
    requires mask { IsDatum mask.now }
    ensures answer { Gives datum_of fault_told result
        (put_mask_of (datum_of x.now) (datum_of mask.now) valid_when) }
    ensures datum { IfOk result (λ made. IsDatum made) }
{
    match x {
        Datum::Arr(items) => match mask {
            Datum::Arr(over) => put_mask_over(alloc, items, over, valid_when, arena, steps),
            Datum::One(_) => Err(Fault::WrongType),
        },
        Datum::One(_) => Err(Fault::WrongType),
    }
}
