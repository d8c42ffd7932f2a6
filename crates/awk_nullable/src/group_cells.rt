//! Numbers of one kind that fit an i64, which are read without asking for their kind.
ghost use Rattle.std.specs.Prelude.{◌≡◌, ◌<◌, ◌≤◌, pos, get_or, length, map};
ghost use Rattle.awk_lanes.specs.Numbers.{element, number, width};

use crate::cells::Cells;
use crate::halves::{Halves, short_halves};
use awk_cells::Cell;
use awk_lanes::{Lane, Steps};
use std::marker::{Model, PhantomData};
use std::sync::ledger::Ledger;

/// The number at place k.
#[inline(always)]
fn number_in<const W: usize, C: Cell<W>>(groups: &[[u8; W]], k: u64) -> i64
    requires { k < length groups.now }
    ensures { result ≡ element C.kind (get_or (map (number C.kind) groups.now) k (pos 0)) }
{
    C::number(&groups[k as usize])
}

/// The numbers of a lane of such a kind, each in a group of bytes.
#[derive(Drop)]
pub struct GroupCells<'a, const W: usize, C: Cell<W>> {
    groups: &'a [[u8; W]],
    cell: PhantomData<C>,
}

impl<'a, const W: usize, C: Cell<W>> Model for GroupCells<'a, W, C> {
    ghost use Rattle.awk_lanes.specs.Column.{Column};

    ghost Value = { Column };

    ghost use Rattle.std.specs.Prelude.{map};
    ghost use Rattle.awk_lanes.specs.Numbers.{number};

    ghost view = { λ x. record { kind = C.kind; items = map (number C.kind) x.groups.now } };

    ghost use Rattle.std.specs.Prelude.{◌≤◌};

    ghost invariant = { λ _. W ≤ 8 };
}

impl<'a, const W: usize, C: Cell<W>> Cells for GroupCells<'a, W, C> {
    ghost use Rattle.std.specs.Prelude.{pos};

    ghost lane = { λ x. x };

    ghost shift = { λ _. pos 0 };

    #[inline(always)]
    fn shift(&self) -> i64 {
        0
    }

    #[inline(always)]
    fn len(&self) -> u64 {
        self.groups.len() as u64
    }

    #[inline(always)]
    fn exact<L: Ledger>(&self, k: u64, _steps: &mut Steps<L>) -> i128 {
        i128::from(number_in::<W, C>(self.groups, k))
    }

    #[inline(always)]
    fn halves<L: Ledger>(&self, k: u64, _steps: &mut Steps<L>) -> Halves {
        short_halves(number_in::<W, C>(self.groups, k))
    }

    #[inline(always)]
    fn key<L: Ledger>(&self, k: u64, _steps: &mut Steps<L>) -> i64 {
        number_in::<W, C>(self.groups, k)
    }
}

/// The numbers of a lane where they lie.
pub fn cells_of<'a, const W: usize, C: Cell<W>, L: Ledger>(
    lane: &Lane<'a>,
    steps: &mut Steps<L>,
) -> GroupCells<'a, W, C>
    requires some { 0 < W }
    requires short { W < 8 }
    requires kind { lane.now.kind ≡ C.kind }
    requires width { width C.kind ≡ W }
    ensures { result ≡ lane.now }
{
    GroupCells {
        groups: lane.narrow_bytes(steps).as_chunks::<W>().0,
        cell: PhantomData,
    }
}
