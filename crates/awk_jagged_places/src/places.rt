//! Picks of an index of places, whose lists stand in pairs with those that are picked from.
ghost use Rattle.std.specs.Prelude.{◌≡◌, ◌+◌, ◌<◌, ◌^◌, option_map, IfSome};
ghost use Rattle.awk_lanes.specs.Numbers.{IsOf};
ghost use Rattle.awk_lanes.specs.Places.{size_of};
ghost use Rattle.awk_lanes.specs.declared.kind.Kind.TheVariants as Kinds;
ghost use Rattle.awk_layout.specs.Valid.{len};
ghost use Rattle.awk_gather.specs.Arrays.{array_item};
ghost use Rattle.awk_select.specs.Cells.{place_number, IsNamed};
ghost use Rattle.awk_select.specs.Picks.{is_outside};
ghost use Rattle.awk_jagged_places.specs.Leaves.{AreLeaves, take_numbers, AreTestedIn, AreTested};
ghost use Rattle.awk_jagged_places.specs.Put.{IsGiven};

use crate::put::NumberLists;
use awk_columns::{Bounds, Span};
use awk_lanes::{IndexMaker, Num, Steps, number};
use awk_select::{Named, Values, place_named};
use std::sync::ledger::Ledger;

/// The places in a content that an index names in each list.
#[derive(Drop)]
pub struct Taken<'r, 's, 'a, V: Values> {
    pub xs: &'r Bounds<'s, 'a>,
    pub ws: &'r Bounds<'s, 'a>,
    pub cells: &'r V,
}

impl<'r, 's, 'a, V: Values> Taken<'r, 's, 'a, V> {
    /// What the value at a place of the index names among n items.
    #[inline(always)]
    pub(crate) fn named<L: Ledger>(&self, place: u64, n: u64, steps: &mut Steps<L>) -> Named
        requires leaves { AreLeaves self.now.xs.now self.now.ws.now (V.cells self.now.cells.now) }
        requires within { place < len self.now.ws.now.content }
        ensures { IsNamed n (array_item self.now.ws.now.content place) result }
    {
        place_named(n, self.cells.value(place, steps))
    }

    /// Whether it names no place.
    #[inline(always)]
    fn is_outside<L: Ledger>(&self, place: u64, n: u64, steps: &mut Steps<L>) -> bool
        requires leaves { AreLeaves self.now.xs.now self.now.ws.now (V.cells self.now.cells.now) }
        requires within { place < len self.now.ws.now.content }
        ensures { result ≡ is_outside n (array_item self.now.ws.now.content place) }
    {
        match self.named(place, n, steps) {
            Named::Outside => true,
            Named::Null => false,
            Named::At(_) => false,
        }
    }

    /// Whether some item of list i of the index names no place of its list.
    fn is_outside_in<L: Ledger>(&self, i: u64, steps: &mut Steps<L>) -> bool
        requires leaves { AreLeaves self.now.xs.now self.now.ws.now (V.cells self.now.cells.now) }
        requires list { i < size_of self.now.ws.now.starts }
        ensures { AreTestedIn self.now.xs.now self.now.ws.now i result }
    {
        let from = self.xs.span_of(i);
        let by = self.ws.span_of(i);
        for k in 0..by.length {
            if self.is_outside(by.start + k, from.length, steps) {
                return true;
            }
        }
        false
    }

    /// Whether some item of some list does.
    pub fn has_outside<L: Ledger>(&self, steps: &mut Steps<L>) -> bool
        requires leaves { AreLeaves self.now.xs.now self.now.ws.now (V.cells self.now.cells.now) }
        ensures { AreTested self.now.xs.now self.now.ws.now result }
    {
        for i in 0..self.ws.len() {
            if self.is_outside_in(i, steps) {
                return true;
            }
        }
        false
    }

    /// The place in the content that it names in a list, as a number, -1 for null, or none where it
    /// names no place.
    #[inline(always)]
    fn number<L: Ledger>(&self, place: u64, from: Span, steps: &mut Steps<L>) -> Option<Num>
        requires leaves { AreLeaves self.now.xs.now self.now.ws.now (V.cells self.now.cells.now) }
        requires within { place < len self.now.ws.now.content }
        requires small { from.start + from.length < 2 ^ 63 }
        ensures kind { IfSome result (λ x. IsOf Kinds.I64 x) }
        ensures number { IsGiven from.length
            (λ o. place_number (option_map (λ p. from.start + p) o))
            (array_item self.now.ws.now.content place) result }
    {
        match self.named(place, from.length, steps) {
            Named::Outside => None,
            Named::Null => Some(Num::Int(-1)),
            Named::At(p) => Some(number(from.start + p)),
        }
    }
}

impl<'r, 's, 'a, V: Values> NumberLists for Taken<'r, 's, 'a, V> {
    ghost numbers = { λ f. take_numbers f.xs.now f.ws.now };

    ghost IsTested = { λ f. AreTestedIn f.xs.now f.ws.now };

    ghost size = { λ f. size_of f.ws.now.starts };

    ghost IsReady = { λ f. AreLeaves f.xs.now f.ws.now (V.cells f.cells.now) };

    fn put_list<L: Ledger>(&self, i: u64, maker: &mut IndexMaker, steps: &mut Steps<L>) -> bool {
        let from = self.xs.span_of(i);
        let by = self.ws.span_of(i);
        for k in 0..by.length {
            let Some(x) = self.number(by.start + k, from, steps) else {
                return true;
            };
            maker.push(x);
        }
        false
    }
}
