//! Arrays joined one after another.
ghost use Rattle.std.specs.Prelude.{IfOk};
ghost use Rattle.awk_types.specs.Faults.{fault_told};
ghost use Rattle.awk_types.specs.Gives.{Gives};
ghost use Rattle.awk_types.specs.View.{typ_of};
ghost use Rattle.awk_layout.specs.Array.{IsArrayType};
ghost use Rattle.awk_layout.specs.Typing.{array_datum};
ghost use Rattle.awk_merge_operands.specs.Operands.{stacked_datum};
ghost use Rattle.awk_merge_sides.specs.Sides.{sides_of, merged_items, AreSides, IsCounted};
ghost use Rattle.awk_merge_sides.specs.Sides.{IsMerged};

use awk_lanes::{Arena, Steps};
use awk_layout::Array;
use awk_merge_columns::merge;
use awk_merge_sides::Sides;
use awk_types::{Fault, ITEM_LIMIT, NoMemory, Typ, copy_type};
use std::alloc::Global;
use std::sync::ledger::Ledger;

/// One array of a type, with the carried items of columns one after another.
pub fn merged<'a, L: Ledger>(
    alloc: Global,
    typ: &Typ,
    sides: &Sides<'a>,
    arena: &'a Arena,
    steps: &mut Steps<L>,
) -> Result<Array<'a>, NoMemory>
    requires lawful { IsArrayType (typ_of typ.now) }
    requires sides { AreSides (typ_of typ.now) (sides_of sides.now) }
    requires counted { IsCounted sides.now }
    ensures { IfOk result (IsMerged (typ_of typ.now) (sides_of sides.now)) }
{
    let node = merge(alloc, typ, sides, arena, steps)?;
    let again = copy_type(alloc, typ)?;
    Ok(Array::with_type(node, again))
}

/// The same, or `Size` where the items are too many.
pub fn joined_arrays<'a, L: Ledger>(
    alloc: Global,
    typ: &Typ,
    sides: &Sides<'a>,
    arena: &'a Arena,
    steps: &mut Steps<L>,
) -> Result<Array<'a>, Fault>
    requires lawful { IsArrayType (typ_of typ.now) }
    requires sides { AreSides (typ_of typ.now) (sides_of sides.now) }
    requires counted { IsCounted sides.now }
    ensures { let said = stacked_datum (typ_of typ.now) (merged_items (sides_of sides.now)) in
        Gives array_datum fault_told result said }
{
    if sides.total() > ITEM_LIMIT {
        return Err(Fault::Size);
    }
    let x = merged(alloc, typ, sides, arena, steps)?;
    Ok(x)
}
