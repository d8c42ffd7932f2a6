//! Data as operands, and a datum of what is made.
ghost use Rattle.std.specs.Prelude.{◌≡◌, map, IfOk};
ghost use Rattle.awk_layout.specs.Datum.{datum_of};
ghost use Rattle.awk_pair_operands.specs.First.{all_data};

use awk_lanes::NoMemory;
use awk_layout::{Datums, Operand, Operands};
use std::alloc::Global;

/// Data as operands.
pub(crate) fn operands_of<'a>(alloc: Global, xs: &Datums<'a>) -> Result<Operands<'a>, NoMemory>
    ensures { IfOk result (λ ys. all_data ys ≡ map datum_of xs.now) }
{
    let mut operands = Operands::new(alloc);
    for i in 0..xs.len() {
        let datum = xs.get(i).copy(alloc)?;
        operands.push(Operand::Of(datum))?;
    }
    Ok(operands)
}
