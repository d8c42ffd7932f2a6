//! The values of a mask or an index, in the form in which they lie.
ghost use Rattle.std.specs.Prelude.{◌≡◌, ◌<◌, pos, length, get_or};
ghost use Rattle.awk_types.specs.Value.{truth};
ghost use Rattle.awk_lanes.specs.Numbers.{is_nonzero};
ghost use Rattle.awk_lanes.specs.Words.{column, integers};
ghost use Rattle.awk_lanes.specs.declared.kind.Kind.TheVariants as Kinds;
ghost use Rattle.awk_select.specs.Cells.{cell_value, truth_cells, IsCell};

use crate::cells::Cells;
use awk_index::{Index, byte_numbers};
use awk_lanes::{Lane, Num, Steps};
use std::sync::ledger::Ledger;

/// Values by their places.
pub trait Values: Drop {
    ghost use Rattle.std.specs.Prelude.{◌≡◌};
    ghost use Rattle.awk_select.specs.Cells.{IsCell, cell_shown, cell_value};
    ghost use Rattle.awk_select.specs.declared.cells.Cells.{Cells};

    /// The lanes that the values are of.
    ghost cells: { Self → Cells };

    /// The number or truth value at a place, or none for null.
    fn value<L: Ledger>(&self, i: u64, steps: &mut Steps<L>) -> Option<Num>
        requires { IsCell (cells self.now) i }
        ensures { cell_shown result ≡ cell_value (cells self.now) i };
}

impl<'a> Values for Cells<'a> {
    ghost cells = { λ c. c };

    fn value<L: Ledger>(&self, i: u64, steps: &mut Steps<L>) -> Option<Num> {
        self.at(i, steps)
    }
}

/// Truth values by their bytes.
#[derive(Drop)]
pub struct Truths<'a> {
    bytes: &'a [u8],
}

/// The truth values of a lane where they lie.
pub fn truths_of<'a, L: Ledger>(lane: &Lane<'a>, steps: &mut Steps<L>) -> Truths<'a>
    requires { lane.now.kind ≡ Kinds.Bool }
    ensures { column Kinds.Bool (integers result.bytes.now) ≡ lane.now }
{
    Truths {
        bytes: byte_numbers(lane, steps),
    }
}

/// Whether the byte at place i is not 0.
#[inline(always)]
fn is_true(bytes: &[u8], i: usize) -> bool
    requires { i < length bytes.now }
    ensures { result ≡ is_nonzero (pos (get_or bytes.now i 0)) }
{
    bytes[i] != 0
}

impl<'a> Truths<'a> {
    /// The truth value at a place.
    #[inline(always)]
    pub fn at(&self, i: u64) -> bool
        requires { IsCell (truth_cells self.now.bytes.now) i }
        ensures { truth result ≡ cell_value (truth_cells self.now.bytes.now) i }
    {
        is_true(self.bytes, i as usize)
    }
}

impl<'a> Values for Truths<'a> {
    ghost use Rattle.awk_lanes.specs.Words.{column, integers};
    ghost use Rattle.awk_lanes.specs.declared.kind.Kind.TheVariants as Kinds;
    ghost use Rattle.awk_select.specs.declared.cells.Cells.TheVariants.{Plain};

    ghost cells = { λ t. Plain (column Kinds.Bool (integers t.bytes.now)) };

    #[inline(always)]
    fn value<L: Ledger>(&self, i: u64, _steps: &mut Steps<L>) -> Option<Num> {
        Some(Num::Truth(self.at(i)))
    }
}

impl<'a> Values for Index<'a> {
    ghost use Rattle.awk_select.specs.declared.cells.Cells.TheVariants.{Plain};

    ghost cells = { λ x. Plain x };

    #[inline(always)]
    fn value<L: Ledger>(&self, i: u64, _steps: &mut Steps<L>) -> Option<Num> {
        Some(Num::Int(self.number(i)))
    }
}

/// Numbers at the places of an index, of which a negative one is null.
#[derive(Drop)]
pub struct Sparse<'a> {
    pub index: Index<'a>,
    pub numbers: Index<'a>,
}

impl<'a> Values for Sparse<'a> {
    ghost use Rattle.awk_select.specs.declared.cells.Cells.TheVariants.{Optional};

    ghost cells = { λ s. Optional s.index s.numbers };

    #[inline(always)]
    fn value<L: Ledger>(&self, i: u64, _steps: &mut Steps<L>) -> Option<Num> {
        match self.index.option_place(i) {
            None => None,
            Some(k) => Some(Num::Int(self.numbers.number(k))),
        }
    }
}
