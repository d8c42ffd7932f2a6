//! Numbers one after another, each of which fits an i64.
ghost use Rattle.std.specs.Prelude.{◌≡◌, ◌<◌, pos, get_or, length};

use crate::cells::Cell;
use std::marker::PhantomData;

pub(crate) trait Row {
    ghost use Rattle.std.specs.Prelude.{ℤ, List};

    ghost numbers: { Self → List ℤ };

    /// The number at place i.
    fn at(&self, i: usize) -> i64
        requires { i < length (numbers self.now) }
        ensures { result ≡ get_or (numbers self.now) i (pos 0) };
}

/// Numbers of one kind where they lie.
#[derive(Drop)]
pub(crate) struct Cells<'s, const W: usize, C: Cell<W>> {
    groups: &'s [[u8; W]],
    kind: PhantomData<C>,
}

impl<'s, const W: usize, C: Cell<W>> Cells<'s, W, C> {
    #[inline(always)]
    pub(crate) fn new(groups: &'s [[u8; W]]) -> Cells<'s, W, C>
        ensures { result.groups.now ≡ groups.now }
    {
        Cells {
            groups,
            kind: PhantomData,
        }
    }
}

impl<'s, const W: usize, C: Cell<W>> Row for Cells<'s, W, C> {
    ghost use Rattle.std.specs.Prelude.{map};
    ghost use Rattle.awk_lanes.specs.Numbers.{number};

    ghost numbers = { λ row. map (number C.kind) row.groups.now };

    #[inline(always)]
    fn at(&self, i: usize) -> i64 {
        C::number(&self.groups[i])
    }
}

/// One number at each of n places.
#[derive(Drop)]
pub(crate) struct Same {
    pub(crate) number: i64,
    pub(crate) n: usize,
}

impl Row for Same {
    ghost use Rattle.std.specs.Prelude.{replicate};

    ghost numbers = { λ row. replicate row.n row.number };

    #[inline(always)]
    fn at(&self, _i: usize) -> i64 {
        self.number
    }
}
