//! Sides of which some places may be null.
ghost use Rattle.std.specs.Prelude.{◌≡◌, ◌<◌, pos, get_or};
ghost use Rattle.awk_lanes.specs.Numbers.{int_of};
ghost use Rattle.awk_lanes.specs.Places.{size_of, at, IsOptionKind};
ghost use Rattle.awk_types.specs.Parts.{option_number};
ghost use Rattle.awk_pointwise.specs.Sides.{lane_values};
ghost use Rattle.awk_pointwise.specs.Optional as spec;
ghost use Rattle.awk_pointwise.specs.Optional.{HasSidePlace, HasPlace, side_at};
ghost use Rattle.awk_pointwise.specs.Optional.{optional_at, item_at, AreKnown, AreKnownSide};

use crate::sides::Side;
use awk_lanes::{Lane, Num, Steps, option_place_in};
use awk_layout::prim_of;
use awk_leaves::LeafType;
use std::sync::ledger::Ledger;

/// What an operand gives at each place, null or not.
#[derive(Drop)]
pub enum Optional<'b, 'a> {
    /// A side that is null nowhere.
    Whole(&'b Side<'b, 'a>),
    /// For each place the place of its item in a lane, or a negative number where it is null.
    Indexed(&'b Lane<'a>, &'b Lane<'a>),
    /// Null at each place.
    Nulls,
}

impl<'b, 'a> Optional<'b, 'a> {
    /// What its leaves are of.
    pub fn leaf_type(&self) -> LeafType
        ensures { result ≡ spec.optional_type self.now }
    {
        match self {
            Optional::Whole(side) => side.leaf_type(),
            Optional::Indexed(_, lane) => LeafType::Of(prim_of(lane.kind())),
            Optional::Nulls => LeafType::Unknown,
        }
    }
}

fn wide(number: Num) -> i128
    ensures { result ≡ int_of number }
{
    match number {
        Num::Int(z) => i128::from(z),
        Num::Nat(n) => i128::from(n),
        Num::Truth(b) => i128::from(b),
    }
}

/// The number of a lane at place i, a truth value as 0 or 1.
fn lane_number<L: Ledger>(lane: &Lane, i: u64, steps: &mut Steps<L>) -> i128
    requires { i < size_of lane.now }
    ensures { result ≡ at lane.now i }
{
    wide(lane.at(i, steps))
}

fn side_number<L: Ledger>(side: &Side, i: u64, steps: &mut Steps<L>) -> Option<i128>
    requires { HasSidePlace i side.now }
    ensures { result ≡ option_number (side_at i side.now) }
{
    match side {
        Side::Column(lane) => Some(lane_number(lane, i, steps)),
        Side::Missing => None,
        Side::Number(_, z) => Some(*z),
        Side::Literal(z) => Some(*z),
    }
}

fn indexed_number<L: Ledger>(
    index: &Lane,
    lane: &Lane,
    i: u64,
    steps: &mut Steps<L>,
) -> Option<i128>
    requires within { i < size_of index.now }
    requires kind { IsOptionKind index.now.kind }
    ensures { let place = get_or index.now.items i (pos 0) in
        result ≡ option_number (item_at (lane_values lane.now) place) }
{
    match option_place_in(index, i, steps) {
        Some(k) => {
            if k < lane.len() {
                Some(lane_number(lane, k, steps))
            } else {
                None
            }
        }
        None => None,
    }
}

/// The number at place i, or none where it is null.
pub(crate) fn optional_number<L: Ledger>(
    optional: &Optional,
    i: u64,
    steps: &mut Steps<L>,
) -> Option<i128>
    requires { HasPlace i optional.now }
    ensures { result ≡ option_number (optional_at i optional.now) }
{
    match optional {
        Optional::Whole(side) => side_number(side, i, steps),
        Optional::Indexed(index, lane) => indexed_number(index, lane, i, steps),
        Optional::Nulls => None,
    }
}

/// Each number of a lane is one of its kind.
fn know_side(side: &Side)
    ensures { AreKnownSide side.now }
{
    if let Side::Column(lane) = side {
        let _ = lane.len();
    }
}

/// The same of the lane of a side of which some places may be null.
pub(crate) fn know(optional: &Optional)
    ensures { AreKnown optional.now }
{
    match optional {
        Optional::Whole(side) => know_side(side),
        Optional::Indexed(_, lane) => {
            let _ = lane.len();
        }
        Optional::Nulls => {}
    }
}
