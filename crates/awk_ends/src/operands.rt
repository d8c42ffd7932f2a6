//! Operands and their leaves.
ghost use Rattle.std.specs.Prelude.{◌≡◌, ◌++◌, OnOk};
ghost use Rattle.awk_types.specs.Datum.{datum_type};
ghost use Rattle.awk_types.specs.View.{typ_of};
ghost use Rattle.awk_layout.specs.Datum.{datum_of, IsOperand};
ghost use Rattle.awk_layout.specs.Filler.{filler_of};
ghost use Rattle.awk_pair_operands.specs.First.{all_data};
ghost use Rattle.awk_ends.specs.Operands.{data_in, leaf_in, leaf_of};
ghost use Rattle.awk_ends.specs.Columns.{data_before};

use awk_lanes::NoMemory;
use awk_layout::{Datum, Operand, Operands};
use awk_leaves::LeafType;
use awk_types::Typ;
use std::alloc::Global;

/// What the leaves of a type are of, through lists and options.
pub fn leaf_in(t: &Typ) -> LeafType
    ensures { result ≡ leaf_in (typ_of t.now) }
{
    match t {
        Typ::Leaf(prim) => LeafType::Of(*prim),
        Typ::Var(inner) | Typ::Reg(_, inner) | Typ::Opt(inner) => leaf_in(inner),
        _ => LeafType::Unknown,
    }
}

/// What the leaves of a datum are of.
pub fn datum_leaf(x: &Datum) -> LeafType
    ensures { result ≡ leaf_in (datum_type (datum_of x.now)) }
{
    match x {
        Datum::Arr(x) | Datum::One(x) => leaf_in(x.typ()),
    }
}

/// What the leaves of an operand are of.
pub fn leaf_type(x: &Operand) -> LeafType
    ensures { result ≡ leaf_of (filler_of x.now) }
{
    match x {
        Operand::Literal(z) => LeafType::Literal(*z),
        Operand::Of(datum) => leaf_in(datum.kept().typ()),
    }
}

/// Puts an operand that is a datum at the end. A literal is not put there.
pub fn push_datum<'a>(alloc: Global, x: &Operand<'a>, xs: &mut Operands<'a>) -> Result<(), NoMemory>
    requires { IsOperand x.now }
    ensures { OnOk result (all_data xs.new ≡ all_data xs.old ++ data_in (filler_of x.now)) }
{
    match x {
        Operand::Literal(_) => Ok(()),
        Operand::Of(_) => xs.push(x.copy(alloc)?),
    }
}

/// How many data there are before the second of two operands.
pub fn data_before(x: &Operand) -> usize
    ensures { result ≡ data_before x.now }
{
    match x {
        Operand::Literal(_) => 0,
        Operand::Of(_) => 1,
    }
}
