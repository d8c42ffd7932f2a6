//! The operands of a call.
ghost use Rattle.std.specs.Prelude.{◌≡◌, ◌<◌, [], ◌∷◌, length, map, Some, IfOk};
ghost use Rattle.awk_layout.specs.Datum.{IsDatum, IsOperand, datum_of};
ghost use Rattle.awk_layout.specs.Filler.{filler_of};
ghost use Rattle.awk_layout.specs.declared.datum.Operand.TheVariants.{Of};
ghost use Rattle.awk_arguments.specs.Fit.{IsGiven};
ghost use Rattle.awk_arguments.specs.Operand.{only_in, both_in, first_in, two_in, three_in};
ghost use Rattle.awk_arguments.specs.Operand.{data_in};
ghost use Rattle.awk_arguments.specs.OperandView.{shown_operands};

use awk_layout::{Datum, Datums, Operand, Operands};
use awk_types::NoMemory;
use std::alloc::Global;

/// The only operand, a datum.
pub fn only<'o, 's>(operands: &'o Operands<'s>) -> &'o Datum<'s>
    requires { IsGiven (only_in (shown_operands operands.now)) }
    ensures only { only_in (shown_operands operands.now) ≡ Some (datum_of result.now) }
    ensures alone { operands.now ≡ Of result.now ∷ [] }
    ensures datum { IsDatum result.now }
{
    match operands.get(0) {
        Operand::Of(x) => x,
        Operand::Literal(_) => unreachable!(),
    }
}

/// The two operands, both data.
pub fn both<'o, 's>(operands: &'o Operands<'s>) -> (&'o Datum<'s>, &'o Datum<'s>)
    requires { IsGiven (both_in (shown_operands operands.now)) }
    ensures both { both_in (shown_operands operands.now)
        ≡ Some (datum_of result.0.now, datum_of result.1.now) }
    ensures datum { IsDatum result.0.now }
    ensures other { IsDatum result.1.now }
{
    let (x, y) = first(operands);
    match y {
        Operand::Of(y) => (x, y),
        Operand::Literal(_) => unreachable!(),
    }
}

/// A datum, and an operand.
pub fn first<'o, 's>(operands: &'o Operands<'s>) -> (&'o Datum<'s>, &'o Operand<'s>)
    requires { IsGiven (first_in (shown_operands operands.now)) }
    ensures first { first_in (shown_operands operands.now)
        ≡ Some (datum_of result.0.now, filler_of result.1.now) }
    ensures all { operands.now ≡ Of result.0.now ∷ result.1.now ∷ [] }
    ensures datum { IsDatum result.0.now }
    ensures operand { IsOperand result.1.now }
{
    match operands.get(0) {
        Operand::Of(x) => (x, operands.get(1)),
        Operand::Literal(_) => unreachable!(),
    }
}

/// The two operands.
pub fn two<'o, 's>(operands: &'o Operands<'s>) -> (&'o Operand<'s>, &'o Operand<'s>)
    requires { IsGiven (two_in (shown_operands operands.now)) }
    ensures two { two_in (shown_operands operands.now)
        ≡ Some (filler_of result.0.now, filler_of result.1.now) }
    ensures operand { IsOperand result.0.now }
    ensures other { IsOperand result.1.now }
{
    (operands.get(0), operands.get(1))
}

/// A datum, and two operands.
pub fn three<'o, 's>(
    operands: &'o Operands<'s>,
) -> (&'o Datum<'s>, &'o Operand<'s>, &'o Operand<'s>)
    requires { IsGiven (three_in (shown_operands operands.now)) }
    ensures three { three_in (shown_operands operands.now)
        ≡ Some (datum_of result.0.now, filler_of result.1.now, filler_of result.2.now) }
    ensures datum { IsDatum result.0.now }
    ensures operand { IsOperand result.1.now }
    ensures other { IsOperand result.2.now }
{
    match operands.get(0) {
        Operand::Of(c) => (c, operands.get(1), operands.get(2)),
        Operand::Literal(_) => unreachable!(),
    }
}

/// All operands: some, and all data.
pub fn data<'s>(alloc: Global, operands: &Operands<'s>) -> Result<Datums<'s>, NoMemory>
    requires { IsGiven (data_in (shown_operands operands.now)) }
    ensures data { IfOk result (λ xs.
        data_in (shown_operands operands.now) ≡ Some (map datum_of xs)) }
    ensures some { 0 < length operands.now }
    ensures count { IfOk result (λ xs. length xs ≡ length operands.now) }
{
    let mut made = Datums::new(alloc);
    for k in 0..operands.len() {
        match operands.get(k) {
            Operand::Of(x) => made.push(x.copy(alloc)?)?,
            Operand::Literal(_) => unreachable!(),
        }
    }
    Ok(made)
}
