//! The index of an option, of either width.
ghost use Rattle.std.specs.Prelude.{◌≡◌};
ghost use Rattle.awk_lanes.specs.Places.{IsOptionKind};
ghost use Rattle.awk_frames.specs.Shape.{numbers_of};

use awk_lanes::Lane;
use std::marker::Model;

/// The index of an option. It is seen as the column of its numbers in 64 bits: which of the two
/// kinds that an index may have its lane has shows in no value.
#[derive(Drop)]
pub struct OptionLane<'a> {
    lane: Lane<'a>,
}

impl<'a> Model for OptionLane<'a> {
    ghost use Rattle.awk_lanes.specs.Column.{Column};

    ghost Value = { Column };

    ghost use Rattle.awk_lanes.specs.Places.{IsOptionKind};
    ghost use Rattle.awk_frames.specs.Shape.{numbers_of};

    ghost view = { λ x. numbers_of x.lane };

    ghost invariant = { λ x. IsOptionKind x.lane.kind };
}

impl<'a> OptionLane<'a> {
    /// The index that a lane is.
    pub fn new(lane: Lane<'a>) -> OptionLane<'a>
        requires { IsOptionKind lane.kind }
        ensures { result ≡ numbers_of lane.entry }
    {
        OptionLane { lane }
    }

    /// The same index.
    pub fn copy(&self) -> OptionLane<'a>
        ensures { result ≡ self.now }
    {
        OptionLane {
            lane: self.lane.copy(),
        }
    }

    /// Its numbers as they lie.
    pub fn lane(&self) -> Lane<'a>
        ensures kind { IsOptionKind result.kind }
        ensures numbers { numbers_of result ≡ self.now }
    {
        self.lane.copy()
    }
}
