//! Arrays of one number, and operands as data.
ghost use Rattle.std.specs.Prelude.{◌≡◌, ◌+◌, ◌≤◌, IfOk};
ghost use Rattle.awk_types.specs.DataType.{leaf};
ghost use Rattle.awk_types.specs.Datum.{one};
ghost use Rattle.awk_types.specs.Has.{Holds};
ghost use Rattle.awk_types.specs.Value.{int};
ghost use Rattle.awk_lanes.specs.Numbers.{int_of, IsOf};
ghost use Rattle.awk_layout.specs.Datum.{datum_of, IsDatum, IsOperand};
ghost use Rattle.awk_layout.specs.Kinds.{kind_of};
ghost use Rattle.awk_layout.specs.Single.{only, own_primitive, literal_array, own_datum};
ghost use Rattle.awk_layout.specs.declared.datum.Datum.TheVariants.{One};
ghost use Rattle.awk_layout.specs.declared.datum.Operand.TheVariants.{Literal};

use crate::array::Array;
use crate::datum::{Datum, Operand};
use crate::node::Node;
use crate::typing::{kind_of, prim_of};
use awk_lanes::{Arena, Kind, LaneMaker, Num, Steps};
use awk_types::{NoMemory, Prim, Typ};
use std::alloc::Global;
use std::sync::ledger::Ledger;

/// A number as one of a primitive that holds it.
pub fn number_of(prim: Prim, z: i128) -> Num
    requires { Holds prim z }
    ensures number { int_of result ≡ z }
    ensures kind { IsOf (kind_of prim) result }
{
    match prim {
        Prim::U8 | Prim::U16 | Prim::U32 | Prim::U64 => Num::Nat(z as u64),
        _ => Num::Int(z as i64),
    }
}

/// The primitive that a literal has where nothing beside it says one.
pub fn own_prim(z: i128) -> Prim
    ensures { result ≡ own_primitive z }
{
    if z <= 0x7fff_ffff_ffff_ffff {
        Prim::I64
    } else {
        Prim::U64
    }
}

impl<'a> Array<'a> {
    /// The array of one number.
    pub fn only<L: Ledger>(
        kind: Kind,
        x: Num,
        arena: &'a Arena,
        steps: &mut Steps<L>,
    ) -> Result<Array<'a>, NoMemory>
        requires kind { IsOf kind x }
        ensures array { IfOk result (λ made. made ≡ only kind (int_of x)) }
        ensures cost { steps.new ≤ steps.old + 1 }
    {
        let mut maker = LaneMaker::new(kind, 1, arena)?;
        maker.push(x);
        let node = Node::numpy(maker.finish(), steps);
        Ok(Array::with_type(node, Typ::Leaf(prim_of(kind))))
    }

    /// The array of one number of a primitive.
    pub fn of_number<L: Ledger>(
        prim: Prim,
        z: i128,
        arena: &'a Arena,
        steps: &mut Steps<L>,
    ) -> Result<Array<'a>, NoMemory>
        requires { Holds prim z }
        ensures array { IfOk result (λ made. made ≡ only (kind_of prim) z) }
        ensures datum { IfOk result (λ made. datum_of (One made) ≡ one (leaf prim) (int z)) }
        ensures cost { steps.new ≤ steps.old + 1 }
    {
        Array::only(kind_of(prim), number_of(prim, z), arena, steps)
    }

    /// The array of a literal by itself: of int64 where it fits, else of uint64.
    pub fn of_literal<L: Ledger>(
        z: i128,
        arena: &'a Arena,
        steps: &mut Steps<L>,
    ) -> Result<Array<'a>, NoMemory>
        requires { IsOperand (Literal z) }
        ensures array { IfOk result (λ made. made ≡ literal_array z) }
        ensures datum { IfOk result (λ made.
            datum_of (One made) ≡ one (leaf (own_primitive z)) (int z)) }
        ensures cost { steps.new ≤ steps.old + 1 }
    {
        Array::of_number(own_prim(z), z, arena, steps)
    }
}

impl<'a> Operand<'a> {
    /// The same datum over the same bytes, or the single value that a literal is by itself.
    pub fn own_datum<L: Ledger>(
        &self,
        alloc: Global,
        arena: &'a Arena,
        steps: &mut Steps<L>,
    ) -> Result<Datum<'a>, NoMemory>
        requires operand { IsOperand self.now }
        ensures answer { IfOk result (λ made. datum_of made ≡ own_datum self.now) }
        ensures datum { IfOk result IsDatum }
        ensures cost { steps.new ≤ steps.old + 1 }
    {
        match self {
            Operand::Of(x) => x.copy(alloc),
            Operand::Literal(z) => Ok(Datum::One(Array::of_literal(*z, arena, steps)?)),
        }
    }
}
