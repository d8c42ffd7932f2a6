//! Data and operands: what a variable holds, and what an operation takes.
ghost use Rattle.std.specs.Prelude.{◌≡◌, ◌<◌, ◌++◌, ◌∷◌, [], length, slice_get, Some};
ghost use Rattle.std.specs.Prelude.{IfOk, IfErr, OnOk, OnErr};
ghost use Rattle.awk_types.specs.declared.fault.Fault.TheVariants.{WrongType};
ghost use Rattle.awk_layout.specs.Datum.{kept, IsDatum, IsOperand};
ghost use Rattle.awk_layout.specs.declared.datum.Datum.TheVariants.{Arr, One};

use crate::array::Array;
use awk_types::{Fault, NoMemory};
use std::alloc::Global;
use std::marker::Model;

/// What a variable holds: an array, or a single value as an array of length 1.
#[derive(Drop)]
pub enum Datum<'a> {
    Arr(Array<'a>),
    One(Array<'a>),
}

/// What an operation takes: a datum, or a whole number that takes its type from where it stands.
#[derive(Drop)]
pub enum Operand<'a> {
    Of(Datum<'a>),
    Literal(i128),
}

/// Data in order.
#[derive(Drop)]
pub struct Datums<'a> {
    data: Vec<Datum<'a>>,
}

/// Operands in order.
#[derive(Drop)]
pub struct Operands<'a> {
    operands: Vec<Operand<'a>>,
}

impl<'a> Model for Datums<'a> {
    ghost use Rattle.std.specs.Prelude.{List};
    ghost use Rattle.std.specs.Coded.{coded_list};
    ghost use Rattle.awk_layout.specs.declared.datum.Datum.{Datum};
    ghost use Rattle.awk_layout.specs.DatumCode.{coded_datum};

    ghost Value = { List Datum };

    ghost coded = { coded_list coded_datum };

    ghost use Rattle.std.specs.List.{AllByRecursion};
    ghost use Rattle.awk_layout.specs.Datum.{IsDatum};

    ghost view = { λ a. a.data.items };

    ghost invariant = { λ a. AllByRecursion IsDatum a.data.items };
}

impl<'a> Model for Operands<'a> {
    ghost use Rattle.std.specs.Prelude.{List};
    ghost use Rattle.std.specs.Coded.{coded_list};
    ghost use Rattle.awk_layout.specs.declared.datum.Operand.{Operand};
    ghost use Rattle.awk_layout.specs.DatumCode.{coded_operand};

    ghost Value = { List Operand };

    ghost coded = { coded_list coded_operand };

    ghost use Rattle.std.specs.List.{AllByRecursion};
    ghost use Rattle.awk_layout.specs.Datum.{IsOperand};

    ghost view = { λ a. a.operands.items };

    ghost invariant = { λ a. AllByRecursion IsOperand a.operands.items };
}

impl<'a> Datum<'a> {
    /// The same datum over the same bytes. It takes no step.
    pub fn copy(&self, alloc: Global) -> Result<Datum<'a>, NoMemory>
        ensures { IfOk result (λ copied. copied ≡ self.now) }
    {
        match self {
            Datum::Arr(x) => Ok(Datum::Arr(x.copy(alloc)?)),
            Datum::One(x) => Ok(Datum::One(x.copy(alloc)?)),
        }
    }

    /// The array that the datum is kept as.
    pub fn kept(&self) -> &Array<'a>
        ensures { result.now ≡ kept self.now }
    {
        match self {
            Datum::Arr(x) | Datum::One(x) => x,
        }
    }

    /// The array, or a type fault where the datum is a single value.
    pub fn array(&self) -> Result<&Array<'a>, Fault>
        ensures array { IfOk result (λ x. self.now ≡ Arr x.now) }
        ensures fault { IfErr result (λ e. (e ≡ WrongType) × (self.now ≡ One (kept self.now))) }
    {
        match self {
            Datum::Arr(x) => Ok(x),
            Datum::One(_) => Err(Fault::WrongType),
        }
    }
}

impl<'a> Operand<'a> {
    /// The same operand over the same bytes. It takes no step.
    pub fn copy(&self, alloc: Global) -> Result<Operand<'a>, NoMemory>
        ensures { IfOk result (λ copied. copied ≡ self.now) }
    {
        match self {
            Operand::Of(x) => Ok(Operand::Of(x.copy(alloc)?)),
            Operand::Literal(z) => Ok(Operand::Literal(*z)),
        }
    }
}

impl<'a> Datums<'a> {
    /// No data.
    pub fn new(alloc: Global) -> Datums<'a>
        ensures { result ≡ [] }
    {
        Datums {
            data: Vec::new(alloc),
        }
    }

    /// Puts a datum at the end.
    pub fn push(&mut self, item: Datum<'a>) -> Result<(), NoMemory>
        requires { IsDatum item }
        ensures ok { OnOk result (self.new ≡ self.old ++ item.entry ∷ []) }
        ensures err { OnErr result (self.new ≡ self.old) }
    {
        self.data.push(item)?;
        Ok(())
    }

    /// How many there are.
    pub fn len(&self) -> usize
        ensures { result ≡ length self.now }
    {
        self.data.len()
    }

    /// The datum at a place.
    pub fn get(&self, i: usize) -> &Datum<'a>
        requires { i < length self.now }
        ensures item { slice_get self.now i ≡ Some result.now }
        ensures datum { IsDatum result.now }
    {
        &self.data[i]
    }
}

impl<'a> Operands<'a> {
    /// No operands.
    pub fn new(alloc: Global) -> Operands<'a>
        ensures { result ≡ [] }
    {
        Operands {
            operands: Vec::new(alloc),
        }
    }

    /// Puts an operand at the end.
    pub fn push(&mut self, item: Operand<'a>) -> Result<(), NoMemory>
        requires { IsOperand item }
        ensures ok { OnOk result (self.new ≡ self.old ++ item.entry ∷ []) }
        ensures err { OnErr result (self.new ≡ self.old) }
    {
        self.operands.push(item)?;
        Ok(())
    }

    /// How many there are.
    pub fn len(&self) -> usize
        ensures { result ≡ length self.now }
    {
        self.operands.len()
    }

    /// The operand at a place.
    pub fn get(&self, i: usize) -> &Operand<'a>
        requires { i < length self.now }
        ensures item { slice_get self.now i ≡ Some result.now }
        ensures operand { IsOperand result.now }
    {
        &self.operands[i]
    }
}
