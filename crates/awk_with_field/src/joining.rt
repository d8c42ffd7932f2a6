//! Two data joined: the records of the first with a field of the second's values.
ghost use Rattle.std.specs.Prelude.{◌≡◌, false, length, IfOk};
ghost use Rattle.awk_types.specs.Faults.{fault_told, limit_refused};
ghost use Rattle.awk_types.specs.Gives.{Gives, refused_or};
ghost use Rattle.awk_types.specs.View.{typ_of};
ghost use Rattle.awk_layout.specs.Array.{IsArrayType};
ghost use Rattle.awk_layout.specs.Datum.{datum_of, IsDatum};
ghost use Rattle.awk_pair_operands.specs.First.{all_data};
ghost use Rattle.awk_with_field.specs.WithField.{is_wrong, with_type, with_field_at};

use awk_frames::framed;
use awk_lanes::{Arena, Steps};
use awk_layout::{Array, Datum, Operands};
use awk_pair::pair_keeping;
use awk_pair_operands::datum_from;
use awk_pair_types::{pair_types, typ_within};
use awk_put_field::with_column;
use awk_types::{Fault, Typ};
use std::alloc::Global;
use std::sync::ledger::Ledger;

/// The type of the result, or the limit that it passes. It is told by two data without items.
fn joined_typ<'a, L: Ledger>(
    alloc: Global,
    name: &str,
    xs: &Operands<'a>,
    depth: u64,
    arena: &'a Arena,
    steps: &mut Steps<L>,
) -> Result<Typ, Fault>
    requires two { length xs.now ≡ 2 }
    requires records { is_wrong depth (all_data xs.now) ≡ false }
    ensures answer { let t = with_type name.now depth (all_data xs.now) in
        Gives typ_of fault_told result (refused_or (limit_refused t) t) }
    ensures lawful { IfOk result (λ t. IsArrayType (typ_of t)) }
{
    let none = pair_types(alloc, true, xs, Some(depth), arena, steps)?;
    let ends = with_column(
        alloc,
        none.leaves.get(0),
        name,
        none.leaves.get(1),
        arena,
        steps,
    )?;
    let node = framed(alloc, &none.shape, ends, steps)?;
    typ_within(alloc, node)
}

/// The records of the first datum, each with the value of the second that it is paired with.
pub(crate) fn joined<'a, L: Ledger>(
    alloc: Global,
    name: &str,
    xs: &Operands<'a>,
    depth: u64,
    arena: &'a Arena,
    steps: &mut Steps<L>,
) -> Result<Datum<'a>, Fault>
    requires two { length xs.now ≡ 2 }
    requires records { is_wrong depth (all_data xs.now) ≡ false }
    ensures answer { Gives datum_of fault_told result
        (with_field_at name.now depth (all_data xs.now)) }
    ensures datum { IfOk result (λ made. IsDatum made) }
{
    let typ = joined_typ(alloc, name, xs, depth, arena, steps)?;
    let paired = pair_keeping(alloc, xs, Some(depth), arena, steps)?;
    let ends = with_column(
        alloc,
        paired.leaves.get(0),
        name,
        paired.leaves.get(1),
        arena,
        steps,
    )?;
    let node = framed(alloc, &paired.shape, ends, steps)?;
    Ok(datum_from(paired.single, Array::within_limits(node, typ)))
}
