//! The numbers of a lane of 32 bits in groups of four bytes.
ghost use Rattle.std.specs.Prelude.{◌≡◌, ◌<◌, [], get_or, length};
ghost use Rattle.awk_lanes.specs.Numbers.{number};
ghost use Rattle.awk_lanes.specs.Places.{size_of, at, option_place_at};
ghost use Rattle.awk_lanes.specs.declared.kind.Kind.TheVariants as Kinds;

use awk_lanes::{Lane, Steps, to_option_place};
use std::marker::Model;
use std::sync::ledger::Ledger;

/// Numbers of 32 bits with a sign, where they lie.
#[derive(Drop)]
pub struct NarrowIndex<'a> {
    groups: &'a [[u8; 4]],
}

impl<'a> Model for NarrowIndex<'a> {
    ghost use Rattle.awk_lanes.specs.Column.{Column};

    ghost Value = { Column };

    ghost use Rattle.std.specs.Prelude.{map};
    ghost use Rattle.awk_lanes.specs.Numbers.{number};
    ghost use Rattle.awk_lanes.specs.declared.kind.Kind.TheVariants.{I32};

    ghost view = { λ x. record { kind = I32; items = map (number I32) x.groups.now } };
}

/// The number that the group at place i is.
#[inline(always)]
fn four_at(groups: &[[u8; 4]], i: usize) -> i64
    requires { i < length groups.now }
    ensures { result ≡ number Kinds.I32 (get_or groups.now i []) }
{
    i64::from(i32::from_le_bytes(groups[i]))
}

impl<'a> NarrowIndex<'a> {
    /// How many numbers there are.
    #[inline(always)]
    pub fn len(&self) -> u64
        ensures { result ≡ size_of self.now }
    {
        self.groups.len() as u64
    }

    /// The number at place i.
    #[inline(always)]
    pub fn number(&self, i: u64) -> i64
        requires { i < size_of self.now }
        ensures number { result ≡ at self.now i }
        ensures kind { self.now.kind ≡ Kinds.I32 }
    {
        four_at(self.groups, i as usize)
    }

    /// The place at place i, or none where the number is negative.
    #[inline(always)]
    pub fn option_place(&self, i: u64) -> Option<u64>
        requires { i < size_of self.now }
        ensures { result ≡ option_place_at self.now i }
    {
        to_option_place(self.number(i))
    }
}

/// The numbers of a lane of 32 bits where they lie.
pub fn narrow_index<'a, L: Ledger>(lane: &Lane<'a>, steps: &mut Steps<L>) -> NarrowIndex<'a>
    requires { lane.now.kind ≡ Kinds.I32 }
    ensures { result ≡ lane.now }
{
    let (groups, _) = lane.narrow_bytes(steps).as_chunks::<4>();
    NarrowIndex { groups }
}
