//! Ends of lists at places of others, and which of these are present.
ghost use Rattle.std.specs.Prelude.{◌≡◌, ◌<◌, ◌^◌};
ghost use Rattle.awk_lanes.specs.Places.{size_of, place_at, option_place_at, IsIndexKind};
ghost use Rattle.awk_lanes.specs.Places.{index_or_null};
ghost use Rattle.awk_lanes.specs.declared.kind.Kind.TheVariants as Kinds;
ghost use Rattle.awk_jagged_rows.specs.Rows.{end_number, HasEnds, IsSmallIndex};

use awk_lanes::{Lane, Num, Numbers, Steps, index_at, number, option_place_in, to_option_place};
use std::sync::ledger::Ledger;

/// The number at a place of a lane as a place: 0 where it is negative, as an end of an empty list
/// may be.
pub fn end_at<L: Ledger>(lane: &Lane, i: u64, steps: &mut Steps<L>) -> u64
    requires kind { IsIndexKind lane.now.kind }
    requires within { i < size_of lane.now }
    ensures end { result ≡ place_at lane.now i }
    ensures small { result < 2 ^ 63 }
{
    to_option_place(index_at(lane, i, steps)).unwrap_or(0)
}

/// The ends of lists, of which some are null: these are empty, from 0 to 0.
#[derive(Clone, Copy)]
pub struct Ends<'r, 'a> {
    pub lists: &'r Lane<'a>,
    pub ends: &'r Lane<'a>,
}

impl<'r, 'a> Numbers for Ends<'r, 'a> {
    ghost kind = { λ _. Kinds.I64 };

    ghost at = { λ f i. end_number f.ends.now (option_place_at f.lists.now i) };

    ghost size = { λ f. size_of f.lists.now };

    ghost IsReady = { λ f. HasEnds f.lists.now f.ends.now };

    fn number<L: Ledger>(&self, i: u64, steps: &mut Steps<L>) -> Num {
        match option_place_in(self.lists, i, steps) {
            None => number(0),
            Some(k) => number(end_at(self.ends, k, steps)),
        }
    }
}

/// The places of the rows that are present, as they stand, and -1 for the others.
#[derive(Clone, Copy)]
pub struct Present<'r, 'a> {
    pub lists: &'r Lane<'a>,
}

impl<'r, 'a> Numbers for Present<'r, 'a> {
    ghost kind = { λ _. Kinds.I64 };

    ghost at = { λ f i. index_or_null i (option_place_at f.lists.now i) };

    ghost size = { λ f. size_of f.lists.now };

    ghost IsReady = { λ f. IsSmallIndex f.lists.now };

    fn number<L: Ledger>(&self, i: u64, steps: &mut Steps<L>) -> Num {
        match option_place_in(self.lists, i, steps) {
            None => Num::Int(-1),
            Some(_) => number(i),
        }
    }
}
