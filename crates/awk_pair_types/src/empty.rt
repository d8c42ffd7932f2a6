//! Operands without their items, of which the type of a result is told before any are paired.
ghost use Rattle.std.specs.Prelude.{◌≡◌, ◌≤◌, map, IfOk};
ghost use Rattle.awk_layout.specs.Datum.{IsOperand};
ghost use Rattle.awk_layout.specs.Single.{own_datum};
ghost use Rattle.awk_pair_operands.specs.First.{all_data};
ghost use Rattle.awk_pair_operands.specs.Pairs.{typs};
ghost use Rattle.awk_pair_types.specs.Emptied.{emptied, heights, IsEmptied};

use awk_lanes::{Arena, NoMemory, Steps};
use awk_layout::{Datum, Operand, Operands};
use awk_range::range;
use std::alloc::Global;
use std::sync::ledger::Ledger;

/// No items of the type of an operand, as an array. Its type has at most 60 levels.
pub fn no_items<'a, L: Ledger>(
    alloc: Global,
    x: &Operand<'a>,
    arena: &'a Arena,
    steps: &mut Steps<L>,
) -> Result<Operand<'a>, NoMemory>
    requires { IsOperand x.now }
    ensures { IfOk result (IsEmptied x.now) }
{
    let datum = x.own_datum(alloc, arena, steps)?;
    let kept = datum.kept();
    let _ = kept.typ(); // it is within the limits
    let none = range(alloc, kept, 0, 0, steps)?;
    Ok(Operand::Of(Datum::Arr(none)))
}

/// No items of the type of each operand, as arrays. The types have at most 60 levels.
pub fn no_items_of_each<'a, L: Ledger>(
    alloc: Global,
    xs: &Operands<'a>,
    arena: &'a Arena,
    steps: &mut Steps<L>,
) -> Result<Operands<'a>, NoMemory>
    ensures data { IfOk result (λ ys. all_data ys ≡ map emptied (all_data xs.now)) }
    ensures heights { IfOk result (λ _. heights (typs (all_data xs.now)) ≤ 60) }
{
    let mut none = Operands::new(alloc);
    for i in 0..xs.len() {
        let emptied = no_items(alloc, xs.get(i), arena, steps)?;
        none.push(emptied)?;
    }
    Ok(none)
}
