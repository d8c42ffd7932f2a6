//! Numbers of 64 bits at the places that an index names. They are moved as the index is read, and
//! no lane of places is made.
ghost use Rattle.std.specs.Prelude.{◌≡◌, ◌+◌, ◌<◌, ◌≤◌, ◌^◌, option_map, IfSome};
ghost use Rattle.awk_lanes.specs.Numbers.{IsOf};
ghost use Rattle.awk_lanes.specs.Places.{size_of};
ghost use Rattle.awk_lanes.specs.declared.kind.Kind.TheVariants as Kinds;
ghost use Rattle.awk_layout.specs.Layout.{flat};
ghost use Rattle.awk_layout.specs.Valid.{len};
ghost use Rattle.awk_gather.specs.Arrays.{array_item};
ghost use Rattle.awk_jagged_places.specs.Leaves.{AreLeaves, number_or, numbers_taken, AreTestedIn};
ghost use Rattle.awk_jagged_places.specs.Put.{IsGiven};

use crate::places::Taken;
use crate::put::NumberLists;
use awk_columns::Span;
use awk_index::Index;
use awk_lanes::{IndexMaker, Num, Steps};
use awk_select::{Named, Values};
use std::sync::ledger::Ledger;

/// The numbers of a content at the places that an index names in each list.
#[derive(Drop)]
pub struct TakenNumbers<'t, 'r, 's, 'a, V: Values> {
    pub picks: &'t Taken<'r, 's, 'a, V>,
    pub numbers: &'t Index<'a>,
}

impl<'t, 'r, 's, 'a, V: Values> TakenNumbers<'t, 'r, 's, 'a, V> {
    /// The number that the value at a place of the index names in a list, -1 for null, or none
    /// where it names no place.
    #[inline(always)]
    fn number<L: Ledger>(&self, place: u64, from: Span, steps: &mut Steps<L>) -> Option<Num>
        requires leaves { AreLeaves self.now.picks.now.xs.now self.now.picks.now.ws.now
            (V.cells self.now.picks.now.cells.now) }
        requires within { place < len self.now.picks.now.ws.now.content }
        requires small { from.start + from.length < 2 ^ 63 }
        requires list { 0 < from.length → from.start + from.length ≤ size_of self.now.numbers.now }
        ensures kind { IfSome result (λ x. IsOf Kinds.I64 x) }
        ensures number { IsGiven from.length
            (λ o. number_or self.now.numbers.now (option_map (λ p. from.start + p) o))
            (array_item self.now.picks.now.ws.now.content place) result }
    {
        match self.picks.named(place, from.length, steps) {
            Named::Outside => None,
            Named::Null => Some(Num::Int(-1)),
            Named::At(p) => Some(Num::Int(self.numbers.number(from.start + p))),
        }
    }
}

impl<'t, 'r, 's, 'a, V: Values> NumberLists for TakenNumbers<'t, 'r, 's, 'a, V> {
    ghost numbers = { λ f. numbers_taken f.picks.now.xs.now f.picks.now.ws.now f.numbers.now };

    ghost IsTested = { λ f. AreTestedIn f.picks.now.xs.now f.picks.now.ws.now };

    ghost size = { λ f. size_of f.picks.now.ws.now.starts };

    ghost IsReady = { λ f.
        AreLeaves f.picks.now.xs.now f.picks.now.ws.now (V.cells f.picks.now.cells.now)
        × (f.picks.now.xs.now.content ≡ flat f.numbers.now) };

    fn put_list<L: Ledger>(&self, i: u64, maker: &mut IndexMaker, steps: &mut Steps<L>) -> bool {
        let from = self.picks.xs.span_of(i);
        let by = self.picks.ws.span_of(i);
        for k in 0..by.length {
            let Some(x) = self.number(by.start + k, from, steps) else {
                return true;
            };
            maker.push(x);
        }
        false
    }
}
