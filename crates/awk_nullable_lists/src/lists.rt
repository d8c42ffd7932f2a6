//! Lanes with a number for each list of leaves of which some may be null.
ghost use Rattle.std.specs.Prelude.{◌≡◌, ◌<◌, IfOk};
ghost use Rattle.awk_lanes.specs.Made.{lane_of};
ghost use Rattle.awk_lanes.specs.Places.{size_of, place_at};
ghost use Rattle.awk_lanes.specs.declared.kind.Kind.TheVariants as Kind;
ghost use Rattle.awk_columns.specs.Lists.{span_length};
ghost use Rattle.awk_numbers.specs.Folds.{tally_kind};
ghost use Rattle.awk_parts.specs.Fits.{AreFitting};
ghost use Rattle.awk_nullable_lists.specs.Lists.{folded_at, tallied_at, extreme_at, local_at};
ghost use Rattle.awk_nullable_lists.specs.Lists.{present_at};
ghost use Rattle.awk_nullable_lists.specs.Lists.{AreNullable};
ghost use Rattle.awk_nullable.specs.Numbers.{leaf_number, AreItems};

use awk_columns::{Bounds, Span};
use awk_lanes::{
    Arena, Kind, Lane, Marked, MarkedNumbers, NoMemory, Num, Numbers, Steps, made_lane,
    marked_lanes, number,
};
use awk_nullable::{
    Cells, Leaves, Places, count_of, extreme_number, place_of, product_of, sum_of, tally_of,
};
use awk_numbers::{Extreme, Fold, Tally};
use awk_parts::{Totals, fitting_lane, kind_of_tally, number_in, number_of_place, zero_of};
use awk_types::Prim;
use std::sync::ledger::Ledger;

/// Lists of leaves of which some may be null.
#[derive(Drop)]
pub struct LeafLists<'c, 'r, 'a, P: Places, C: Cells> {
    pub bounds: &'c Bounds<'r, 'a>,
    pub leaves: &'c Leaves<'c, P, C>,
}

/// Where list i lies.
#[inline(always)]
fn span_of<P: Places, C: Cells>(x: &LeafLists<'_, '_, '_, P, C>, i: u64) -> Span
    requires ready { AreNullable x.now.bounds.now (P.at x.now.leaves.now.places.now)
        (P.size x.now.leaves.now.places.now) (C.lane x.now.leaves.now.cells.now) }
    requires within { i < size_of x.now.bounds.now.starts }
    ensures start { result.start ≡ place_at x.now.bounds.now.starts i }
    ensures length { result.length ≡ span_length x.now.bounds.now.starts x.now.bounds.now.stops i }
    ensures items { AreItems (P.at x.now.leaves.now.places.now)
        (P.size x.now.leaves.now.places.now) (C.lane x.now.leaves.now.cells.now) result.start
        result.length }
{
    x.bounds.span_of(i)
}

/// What is told of each list.
#[derive(Drop)]
struct ListTallies<'x, 'c, 'r, 'a, P: Places, C: Cells> {
    how: Tally,
    lists: &'x LeafLists<'c, 'r, 'a, P, C>,
}

impl<'x, 'c, 'r, 'a, P: Places, C: Cells> Numbers for ListTallies<'x, 'c, 'r, 'a, P, C> {
    ghost use Rattle.awk_numbers.specs.Folds.{tally_kind};
    ghost use Rattle.awk_lanes.specs.Places.{size_of};
    ghost use Rattle.awk_nullable_lists.specs.Lists.{tallied_at, AreNullable};
    ghost use Rattle.awk_nullable.specs.Numbers.{leaf_number};

    ghost kind = { λ f. tally_kind f.how };

    ghost at = { λ f. tallied_at f.how f.lists.now.bounds.now
        (leaf_number (P.at f.lists.now.leaves.now.places.now)
        (C.lane f.lists.now.leaves.now.cells.now)) };

    ghost size = { λ f. size_of f.lists.now.bounds.now.starts };

    ghost IsReady = { λ f. AreNullable f.lists.now.bounds.now
        (P.at f.lists.now.leaves.now.places.now) (P.size f.lists.now.leaves.now.places.now)
        (C.lane f.lists.now.leaves.now.cells.now) };

    fn number<L: Ledger>(&self, i: u64, steps: &mut Steps<L>) -> Num {
        let span = span_of(self.lists, i);
        let leaves = self.lists.leaves;
        tally_of(self.how, leaves, span.start, span.length, steps)
    }
}

/// How many items of each list are not null.
#[derive(Drop)]
struct ListCounts<'x, 'c, 'r, 'a, P: Places, C: Cells> {
    lists: &'x LeafLists<'c, 'r, 'a, P, C>,
}

impl<'x, 'c, 'r, 'a, P: Places, C: Cells> Numbers for ListCounts<'x, 'c, 'r, 'a, P, C> {
    ghost use Rattle.awk_lanes.specs.declared.kind.Kind.TheVariants as Kind;
    ghost use Rattle.awk_lanes.specs.Places.{size_of};
    ghost use Rattle.awk_nullable_lists.specs.Lists.{tallied_at, AreNullable};
    ghost use Rattle.awk_nullable.specs.Numbers.{leaf_number};
    ghost use Rattle.awk_numbers.specs.declared.tallies.Tally.TheVariants.{Items};

    ghost kind = { λ _. Kind.I64 };

    ghost at = { λ f. tallied_at Items f.lists.now.bounds.now
        (leaf_number (P.at f.lists.now.leaves.now.places.now)
        (C.lane f.lists.now.leaves.now.cells.now)) };

    ghost size = { λ f. size_of f.lists.now.bounds.now.starts };

    ghost IsReady = { λ f. AreNullable f.lists.now.bounds.now
        (P.at f.lists.now.leaves.now.places.now) (P.size f.lists.now.leaves.now.places.now)
        (C.lane f.lists.now.leaves.now.cells.now) };

    fn number<L: Ledger>(&self, i: u64, steps: &mut Steps<L>) -> Num {
        let span = span_of(self.lists, i);
        number(count_of(self.lists.leaves, span.start, span.length, steps))
    }
}

/// What is told of each list, as a lane. Items are counted without asking at each list what is
/// told of it, since short lists are counted as fast as that is asked.
pub fn tally_lists<'b, P: Places, C: Cells, L: Ledger>(
    how: Tally,
    lists: &LeafLists<'_, '_, '_, P, C>,
    arena: &'b Arena,
    steps: &mut Steps<L>,
) -> Result<Lane<'b>, NoMemory>
    requires ready { AreNullable lists.now.bounds.now (P.at lists.now.leaves.now.places.now)
        (P.size lists.now.leaves.now.places.now) (C.lane lists.now.leaves.now.cells.now) }
    ensures { IfOk result (λ r. r ≡ lane_of (tally_kind how) (size_of lists.now.bounds.now.starts)
        (tallied_at how lists.now.bounds.now (leaf_number (P.at lists.now.leaves.now.places.now)
        (C.lane lists.now.leaves.now.cells.now)))) }
{
    let count = lists.bounds.len();
    match how {
        Tally::Items => made_lane(Kind::I64, count, &ListCounts { lists }, arena, steps),
        _ => {
            let source = ListTallies { how, lists };
            made_lane(kind_of_tally(how), count, &source, arena, steps)
        }
    }
}

/// The extreme of each list, and 0 where all its items are null.
#[derive(Drop)]
struct ListExtremes<'x, 'c, 'r, 'a, 'l, P: Places, C: Cells> {
    how: Extreme,
    lane: &'x Lane<'l>,
    lists: &'x LeafLists<'c, 'r, 'a, P, C>,
}

impl<'x, 'c, 'r, 'a, 'l, P: Places, C: Cells> MarkedNumbers
    for ListExtremes<'x, 'c, 'r, 'a, 'l, P, C> {
    ghost use Rattle.std.specs.Prelude.{◌≡◌};
    ghost use Rattle.awk_lanes.specs.Places.{size_of};
    ghost use Rattle.awk_nullable_lists.specs.Lists.{extreme_at, present_at, AreNullable};
    ghost use Rattle.awk_nullable.specs.Numbers.{leaf_number};

    ghost kind = { λ f. f.lane.now.kind };

    ghost at = { λ f. extreme_at f.how f.lists.now.bounds.now
        (leaf_number (P.at f.lists.now.leaves.now.places.now)
        (C.lane f.lists.now.leaves.now.cells.now)) };

    ghost mark = { λ f. present_at f.lists.now.bounds.now
        (leaf_number (P.at f.lists.now.leaves.now.places.now)
        (C.lane f.lists.now.leaves.now.cells.now)) };

    ghost size = { λ f. size_of f.lists.now.bounds.now.starts };

    ghost IsReady = { λ f. (f.lane.now ≡ C.lane f.lists.now.leaves.now.cells.now)
        × AreNullable f.lists.now.bounds.now (P.at f.lists.now.leaves.now.places.now)
        (P.size f.lists.now.leaves.now.places.now) (C.lane f.lists.now.leaves.now.cells.now) };

    fn number<L: Ledger>(&self, i: u64, steps: &mut Steps<L>) -> (Num, bool) {
        let _ = self.lane.len();
        let span = span_of(self.lists, i);
        let leaves = self.lists.leaves;
        match extreme_number(self.how, leaves, span.start, span.length, steps) {
            Some(z) => (number_in(self.lane.kind(), z), true),
            None => (zero_of(self.lane.kind()), false),
        }
    }
}

/// The least or the greatest item of each list, and 0 where all its items are null, with a mask of
/// the lists that have an item that is not.
pub fn extreme_lists<'b, P: Places, C: Cells, L: Ledger>(
    how: Extreme,
    lane: &Lane,
    lists: &LeafLists<'_, '_, '_, P, C>,
    arena: &'b Arena,
    steps: &mut Steps<L>,
) -> Result<Marked<'b>, NoMemory>
    requires lane { lane.now ≡ C.lane lists.now.leaves.now.cells.now }
    requires ready { AreNullable lists.now.bounds.now (P.at lists.now.leaves.now.places.now)
        (P.size lists.now.leaves.now.places.now) (C.lane lists.now.leaves.now.cells.now) }
    ensures items { IfOk result (λ r. r.numbers
        ≡ lane_of lane.now.kind (size_of lists.now.bounds.now.starts)
        (extreme_at how lists.now.bounds.now (leaf_number (P.at lists.now.leaves.now.places.now)
        (C.lane lists.now.leaves.now.cells.now)))) }
    ensures mask { IfOk result (λ r. r.mask ≡ lane_of Kind.I8 (size_of lists.now.bounds.now.starts)
        (present_at lists.now.bounds.now (leaf_number (P.at lists.now.leaves.now.places.now)
        (C.lane lists.now.leaves.now.cells.now)))) }
{
    let source = ListExtremes { how, lane, lists };
    marked_lanes(lane.kind(), lists.bounds.len(), &source, arena, steps)
}

/// Where in each list its extreme stands, and 0 where all its items are null.
#[derive(Drop)]
struct ListPlaces<'x, 'c, 'r, 'a, P: Places, C: Cells> {
    how: Extreme,
    lists: &'x LeafLists<'c, 'r, 'a, P, C>,
}

impl<'x, 'c, 'r, 'a, P: Places, C: Cells> MarkedNumbers for ListPlaces<'x, 'c, 'r, 'a, P, C> {
    ghost use Rattle.awk_lanes.specs.Places.{size_of};
    ghost use Rattle.awk_lanes.specs.declared.kind.Kind.TheVariants as Kind;
    ghost use Rattle.awk_nullable_lists.specs.Lists.{local_at, present_at, AreNullable};
    ghost use Rattle.awk_nullable.specs.Numbers.{leaf_number};

    ghost kind = { λ _. Kind.I64 };

    ghost at = { λ f. local_at f.how f.lists.now.bounds.now
        (leaf_number (P.at f.lists.now.leaves.now.places.now)
        (C.lane f.lists.now.leaves.now.cells.now)) };

    ghost mark = { λ f. present_at f.lists.now.bounds.now
        (leaf_number (P.at f.lists.now.leaves.now.places.now)
        (C.lane f.lists.now.leaves.now.cells.now)) };

    ghost size = { λ f. size_of f.lists.now.bounds.now.starts };

    ghost IsReady = { λ f. AreNullable f.lists.now.bounds.now
        (P.at f.lists.now.leaves.now.places.now) (P.size f.lists.now.leaves.now.places.now)
        (C.lane f.lists.now.leaves.now.cells.now) };

    fn number<L: Ledger>(&self, i: u64, steps: &mut Steps<L>) -> (Num, bool) {
        let span = span_of(self.lists, i);
        let leaves = self.lists.leaves;
        let place = place_of(self.how, leaves, span.start, span.length, steps);
        (number_of_place(place), place.is_some())
    }
}

/// Where in each list its least or greatest item stands first, nulls counted, and 0 where all its
/// items are null, with a mask of the lists that have an item that is not.
pub fn place_lists<'b, P: Places, C: Cells, L: Ledger>(
    how: Extreme,
    lists: &LeafLists<'_, '_, '_, P, C>,
    arena: &'b Arena,
    steps: &mut Steps<L>,
) -> Result<Marked<'b>, NoMemory>
    requires ready { AreNullable lists.now.bounds.now (P.at lists.now.leaves.now.places.now)
        (P.size lists.now.leaves.now.places.now) (C.lane lists.now.leaves.now.cells.now) }
    ensures places { IfOk result (λ r. r.numbers
        ≡ lane_of Kind.I64 (size_of lists.now.bounds.now.starts)
        (local_at how lists.now.bounds.now (leaf_number (P.at lists.now.leaves.now.places.now)
        (C.lane lists.now.leaves.now.cells.now)))) }
    ensures mask { IfOk result (λ r. r.mask ≡ lane_of Kind.I8 (size_of lists.now.bounds.now.starts)
        (present_at lists.now.bounds.now (leaf_number (P.at lists.now.leaves.now.places.now)
        (C.lane lists.now.leaves.now.cells.now)))) }
{
    let source = ListPlaces { how, lists };
    marked_lanes(Kind::I64, lists.bounds.len(), &source, arena, steps)
}

/// The sum of each list.
#[derive(Drop)]
struct ListSums<'x, 'c, 'r, 'a, P: Places, C: Cells> {
    lists: &'x LeafLists<'c, 'r, 'a, P, C>,
}

impl<'x, 'c, 'r, 'a, P: Places, C: Cells> Totals for ListSums<'x, 'c, 'r, 'a, P, C> {
    ghost use Rattle.awk_lanes.specs.Places.{size_of};
    ghost use Rattle.awk_nullable_lists.specs.Lists.{folded_at, AreNullable};
    ghost use Rattle.awk_nullable.specs.Numbers.{leaf_number};
    ghost use Rattle.awk_numbers.specs.declared.folds.Fold.TheVariants.{Sum};

    ghost at = { λ f. folded_at Sum f.lists.now.bounds.now
        (leaf_number (P.at f.lists.now.leaves.now.places.now)
        (C.lane f.lists.now.leaves.now.cells.now)) };

    ghost size = { λ f. size_of f.lists.now.bounds.now.starts };

    ghost IsReady = { λ f. AreNullable f.lists.now.bounds.now
        (P.at f.lists.now.leaves.now.places.now) (P.size f.lists.now.leaves.now.places.now)
        (C.lane f.lists.now.leaves.now.cells.now) };

    fn total<L: Ledger>(&self, i: u64, steps: &mut Steps<L>) -> Option<i128> {
        let span = span_of(self.lists, i);
        Some(sum_of(self.lists.leaves, span.start, span.length, steps))
    }
}

/// The product of each list.
#[derive(Drop)]
struct ListProducts<'x, 'c, 'r, 'a, P: Places, C: Cells> {
    lists: &'x LeafLists<'c, 'r, 'a, P, C>,
}

impl<'x, 'c, 'r, 'a, P: Places, C: Cells> Totals for ListProducts<'x, 'c, 'r, 'a, P, C> {
    ghost use Rattle.awk_lanes.specs.Places.{size_of};
    ghost use Rattle.awk_nullable_lists.specs.Lists.{folded_at, AreNullable};
    ghost use Rattle.awk_nullable.specs.Numbers.{leaf_number};
    ghost use Rattle.awk_numbers.specs.declared.folds.Fold.TheVariants.{Product};

    ghost at = { λ f. folded_at Product f.lists.now.bounds.now
        (leaf_number (P.at f.lists.now.leaves.now.places.now)
        (C.lane f.lists.now.leaves.now.cells.now)) };

    ghost size = { λ f. size_of f.lists.now.bounds.now.starts };

    ghost IsReady = { λ f. AreNullable f.lists.now.bounds.now
        (P.at f.lists.now.leaves.now.places.now) (P.size f.lists.now.leaves.now.places.now)
        (C.lane f.lists.now.leaves.now.cells.now) };

    fn total<L: Ledger>(&self, i: u64, steps: &mut Steps<L>) -> Option<i128> {
        let span = span_of(self.lists, i);
        product_of(self.lists.leaves, span.start, span.length, steps)
    }
}

/// The sums or products of lists as numbers of a primitive, or none where one does not fit.
pub fn fold_lists<'b, P: Places, C: Cells, L: Ledger>(
    how: Fold,
    prim: Prim,
    lists: &LeafLists<'_, '_, '_, P, C>,
    arena: &'b Arena,
    steps: &mut Steps<L>,
) -> Result<Option<Lane<'b>>, NoMemory>
    requires ready { AreNullable lists.now.bounds.now (P.at lists.now.leaves.now.places.now)
        (P.size lists.now.leaves.now.places.now) (C.lane lists.now.leaves.now.cells.now) }
    ensures { IfOk result (AreFitting prim (folded_at how lists.now.bounds.now
        (leaf_number (P.at lists.now.leaves.now.places.now)
        (C.lane lists.now.leaves.now.cells.now)))
        (size_of lists.now.bounds.now.starts)) }
{
    let count = lists.bounds.len();
    match how {
        Fold::Sum => fitting_lane(prim, count, &ListSums { lists }, arena, steps),
        Fold::Product => fitting_lane(prim, count, &ListProducts { lists }, arena, steps),
    }
}
