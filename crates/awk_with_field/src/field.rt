//! A datum whose records have one field more.
ghost use Rattle.std.specs.Prelude.{◌≡◌, ◌∷◌, [], true, IfOk, IfErr};
ghost use Rattle.awk_types.specs.DataType.{var};
ghost use Rattle.awk_types.specs.Datum.{one, datum_type};
ghost use Rattle.awk_types.specs.Faults.{fault_told};
ghost use Rattle.awk_types.specs.Gives.{Gives, Told};
ghost use Rattle.awk_types.specs.Value.{list, values_from};
ghost use Rattle.awk_types.specs.View.{typ_of};
ghost use Rattle.awk_layout.specs.Datum.{datum_of, IsDatum};
ghost use Rattle.awk_layout.specs.Typing.{array_type, array_items};
ghost use Rattle.awk_pair_operands.specs.First.{all_data};
ghost use Rattle.awk_put_field.specs.Ends.{ends_at_records};
ghost use Rattle.awk_with_field.specs.Refused.{IsListFault};
ghost use Rattle.awk_with_field.specs.WithField as spec;
ghost use Rattle.awk_with_field.specs.WithField.{with_field_of};

use crate::joining::joined;
use crate::levels::{ends_at_records, levels_of, one_list};
use awk_lanes::{Arena, NoMemory, Steps};
use awk_layout::{Array, Datum, Operand, Operands};
use awk_put_field::list_fault;
use awk_types::{Fault, Typ};
use std::alloc::Global;
use std::sync::ledger::Ledger;

/// One list of all items of an array, as a single value beside one of another type. The list may
/// pass a limit, and then the result's type does.
fn list_beside<'a, L: Ledger>(
    alloc: Global,
    name: &str,
    t: &Typ,
    v: &Array<'a>,
    arena: &'a Arena,
    steps: &mut Steps<L>,
) -> Result<Datum<'a>, Fault>
    ensures datum { let only = list (values_from (array_items v.now)) in
        IfOk result (λ w. datum_of w ≡ one (var (array_type v.now)) only) }
    ensures one { IfOk result (λ w. IsDatum w) }
    ensures fault { IfErr result (λ f. IsListFault name.now (typ_of t.now) (array_type v.now) f) }
{
    let list = one_list(alloc, v, arena, steps)?;
    match Array::new(alloc, list) {
        Ok(list) => Ok(Datum::One(list)),
        Err(fault) => Err(list_fault(name, t, v.typ(), fault)),
    }
}

/// What stands beside the first datum: an array is one list beside a single value.
fn beside<'a, L: Ledger>(
    alloc: Global,
    x: &Datum<'a>,
    name: &str,
    v: &Datum<'a>,
    arena: &'a Arena,
    steps: &mut Steps<L>,
) -> Result<Datum<'a>, Fault>
    requires v { IsDatum v.now }
    requires records { ends_at_records (datum_type (datum_of x.now)) ≡ true }
    ensures datum { let e = datum_of x.now in
        IfOk result (λ w. datum_of w ≡ spec.beside e (datum_of v.now)) }
    ensures one { IfOk result (λ w. IsDatum w) }
    ensures fault { let said = with_field_of name.now (datum_of x.now) (datum_of v.now) in
        IfErr result (λ f. Told (fault_told f) said) }
{
    match x {
        Datum::Arr(_) => Ok(v.copy(alloc)?),
        Datum::One(x) => match v {
            Datum::One(_) => Ok(v.copy(alloc)?),
            Datum::Arr(v) => {
                let list = list_beside(alloc, name, x.typ(), v, arena, steps)?;
                Ok(list)
            }
        },
    }
}

/// A datum and what stands beside it.
fn both<'a>(alloc: Global, x: &Datum<'a>, w: Datum<'a>) -> Result<Operands<'a>, NoMemory>
    requires x { IsDatum x.now }
    requires w { IsDatum w }
    ensures { IfOk result (λ xs. all_data xs ≡ datum_of x.now ∷ datum_of w.entry ∷ []) }
{
    let mut xs = Operands::new(alloc);
    xs.push(Operand::Of(x.copy(alloc)?))?;
    xs.push(Operand::Of(w))?;
    Ok(xs)
}

/// The records of a datum with a field: each has the value that stands with it in the other datum.
///
/// The two are paired for as long as the first, its options dropped, is lists, and no list of it is
/// stretched. A field that the records had keeps its place, and a new one comes last. A null record
/// stays null. Beside a single value an array is one list.
///
/// Faults come in this order: `WrongType` where the first datum's lists end at something else than
/// records, which may be optional; `Depth` and `Size` of the result's type; `Lengths` and `Size` as
/// of a pairing.
///
/// How it works, which no clause says: the columns of the records are borrowed as they are, and so
/// is that of the values where no record is null.
pub fn with_field<'a, L: Ledger>(
    alloc: Global,
    x: &Datum<'a>,
    name: &str,
    v: &Datum<'a>,
    arena: &'a Arena,
    steps: &mut Steps<L>,
) -> Result<Datum<'a>, Fault>
    requires x { IsDatum x.now }
    requires v { IsDatum v.now }
    ensures answer { Gives datum_of fault_told result
        (with_field_of name.now (datum_of x.now) (datum_of v.now)) }
    ensures datum { IfOk result (λ made. IsDatum made) }
{
    if !ends_at_records(x.kept().typ()) {
        return Err(Fault::WrongType);
    }
    let beside = beside(alloc, x, name, v, arena, steps)?;
    let xs = both(alloc, x, beside)?;
    joined(alloc, name, &xs, levels_of(x), arena, steps)
}
