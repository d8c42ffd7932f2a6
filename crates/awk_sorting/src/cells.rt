//! Cells: numbers of a lane, or none, read where they lie.
ghost use Rattle.std.specs.Prelude.{◌≡◌, ◌≤ℤ◌, pos, negsuc};
ghost use Rattle.awk_lanes.specs.Numbers.{int_of};

use awk_index::Index;
use awk_lanes::{Lane, Num, Steps, option_place_in};
use std::sync::ledger::Ledger;

/// Numbers of a lane, or, where there is an index, none where this is negative and else the number
/// at its place.
#[derive(Drop)]
pub struct Cells<'b, 'a> {
    pub lane: &'b Lane<'a>,
    pub index: Option<&'b Lane<'a>>,
}

/// Cells by their places.
pub(crate) trait Row {
    ghost use Rattle.std.specs.Prelude.{◌≡◌, ◌<◌, Option};
    ghost use Rattle.awk_lanes.specs.Column.{Column};
    ghost use Rattle.awk_sorting.specs.Cells.{cell_at, AreCells, IsNear};

    /// The lane that the numbers lie in.
    ghost lane: { Self → Column };

    /// The index that names them, if there is one.
    ghost index: { Self → Option Column };

    /// The number of the cell at place i of n, or none.
    fn number<L: Ledger>(&self, n: u64, i: u64, steps: &mut Steps<L>) -> Option<i128>
        requires cells { AreCells (lane self.now) (index self.now) n }
        requires within { i < n }
        ensures number { result ≡ cell_at (lane self.now) (index self.now) i }
        ensures near { IsNear result };
}

/// A number of a lane as one of 128 bits.
fn wide(number: Num) -> i128
    ensures number { result ≡ int_of number }
    ensures least { negsuc 9223372036854775807 ≤ℤ result }
    ensures greatest { result ≤ℤ pos 18446744073709551615 }
{
    match number {
        Num::Int(z) => i128::from(z),
        Num::Nat(n) => i128::from(n),
        Num::Truth(b) => i128::from(b),
    }
}

impl<'b, 'a> Row for Cells<'b, 'a> {
    ghost use Rattle.std.specs.Prelude.{option_map};

    ghost lane = { λ x. x.lane.now };

    ghost index = { λ x. option_map (λ j. j.now) x.index };

    fn number<L: Ledger>(&self, _n: u64, i: u64, steps: &mut Steps<L>) -> Option<i128> {
        match self.index {
            None => Some(wide(self.lane.at(i, steps))),
            Some(index) => match option_place_in(index, i, steps) {
                None => None,
                Some(place) => Some(wide(self.lane.at(place, steps))),
            },
        }
    }
}

/// The numbers of a lane of 64 bits.
#[derive(Drop)]
pub(crate) struct WideRow<'a> {
    pub lane: Index<'a>,
}

impl<'a> Row for WideRow<'a> {
    ghost use Rattle.std.specs.Prelude.{None};

    ghost lane = { λ x. x.lane };

    ghost index = { λ _. None };

    #[inline(always)]
    fn number<L: Ledger>(&self, _n: u64, i: u64, _steps: &mut Steps<L>) -> Option<i128> {
        Some(i128::from(self.lane.number(i)))
    }
}

/// The numbers of a lane of 64 bits at the places that an index names.
#[derive(Drop)]
pub(crate) struct WideCells<'a> {
    pub lane: Index<'a>,
    pub index: Index<'a>,
}

impl<'a> Row for WideCells<'a> {
    ghost use Rattle.std.specs.Prelude.{Some};

    ghost lane = { λ x. x.lane };

    ghost index = { λ x. Some x.index };

    #[inline(always)]
    fn number<L: Ledger>(&self, _n: u64, i: u64, _steps: &mut Steps<L>) -> Option<i128> {
        match self.index.option_place(i) {
            None => None,
            Some(place) => Some(i128::from(self.lane.number(place))),
        }
    }
}
