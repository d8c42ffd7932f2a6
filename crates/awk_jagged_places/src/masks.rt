//! Picks of a mask, whose lists stand in pairs with those that are picked from.
ghost use Rattle.std.specs.Prelude.{◌≡◌, ◌+◌, ◌<◌, ◌≤◌, ◌^◌, length, map, IfOk};
ghost use Rattle.awk_types.specs.ItemLimit.{item_limit};
ghost use Rattle.awk_lanes.specs.Counted.{before};
ghost use Rattle.awk_lanes.specs.Numbers.{int_of, IsOf};
ghost use Rattle.awk_lanes.specs.Places.{size_of};
ghost use Rattle.awk_lanes.specs.declared.kind.Kind.TheVariants as Kinds;
ghost use Rattle.awk_layout.specs.Valid.{len};
ghost use Rattle.awk_gather.specs.Arrays.{array_item};
ghost use Rattle.awk_select.specs.Cells.{place_number};
ghost use Rattle.awk_select.specs.Kept.{kept, Puts};
ghost use Rattle.awk_select.specs.Picks.{mask_place};
ghost use Rattle.awk_jagged_places.specs.Put.{IsPutLane};
ghost use Rattle.awk_jagged_places.specs.Leaves.{AreLeaves, mask_numbers};
ghost use Rattle.awk_jagged_rows.specs.Rows.{AreAlike};

use awk_columns::Bounds;
use awk_lanes::{Arena, Lane, Lengths, NoMemory, Steps};
use awk_select::{Mark, Sieve, Values, mark_of, one_if};
use std::sync::ledger::Ledger;

/// The places in a content where the lists of a mask are true.
#[derive(Drop)]
pub struct Kept<'r, 's, 'a, V: Values> {
    pub xs: &'r Bounds<'s, 'a>,
    pub ws: &'r Bounds<'s, 'a>,
    pub cells: &'r V,
}

impl<'r, 's, 'a, V: Values> Kept<'r, 's, 'a, V> {
    /// What the value at a place of the mask gives: the place in the content that stands beside it
    /// where it is true, and -1 where it is null.
    #[inline(always)]
    fn mark<L: Ledger>(&self, place: u64, beside: u64, steps: &mut Steps<L>) -> Mark
        requires leaves { AreLeaves self.now.xs.now self.now.ws.now (V.cells self.now.cells.now) }
        requires within { place < len self.now.ws.now.content }
        requires small { beside < 2 ^ 63 }
        ensures kind { IsOf Kinds.I64 result.number }
        ensures numbers { kept result.keep (int_of result.number)
            ≡ map place_number (mask_place beside (array_item self.now.ws.now.content place)) }
    {
        mark_of(self.cells.value(place, steps), beside)
    }

    /// Puts the places that list i gives.
    #[inline(always)]
    fn put_list<L: Ledger>(&self, i: u64, made: &mut Sieve, steps: &mut Steps<L>)
        requires leaves { AreLeaves self.now.xs.now self.now.ws.now (V.cells self.now.cells.now) }
        requires alike { AreAlike self.now.xs.now self.now.ws.now }
        requires list { i < size_of self.now.ws.now.starts }
        requires room { length made.old.items
            + length (mask_numbers self.now.xs.now self.now.ws.now i) < made.old.room }
        ensures { Puts (mask_numbers self.now.xs.now self.now.ws.now i) made.old made.new }
    {
        let from = self.xs.span_of(i);
        let by = self.ws.span_of(i);
        for k in 0..by.length {
            let mark = self.mark(by.start + k, from.start + k, steps);
            made.push_if(mark.keep, mark.number);
        }
    }
}

impl<'r, 's, 'a, V: Values> Lengths for Kept<'r, 's, 'a, V> {
    ghost length = { λ f i. length (mask_numbers f.xs.now f.ws.now i) };

    ghost size = { λ f. size_of f.ws.now.starts };

    ghost IsReady = { λ f.
        AreLeaves f.xs.now f.ws.now (V.cells f.cells.now) × AreAlike f.xs.now f.ws.now };

    fn length<L: Ledger>(&self, i: u64, steps: &mut Steps<L>) -> u64 {
        let from = self.xs.span_of(i);
        let by = self.ws.span_of(i);
        let mut count = 0;
        for k in 0..by.length {
            count += one_if(self.mark(by.start + k, from.start + k, steps).keep);
        }
        count
    }
}

/// The places where the first n lists of a mask are true, so many together.
pub fn kept_lane<'a, V: Values, L: Ledger>(
    n: u64,
    total: u64,
    picks: &Kept<'_, '_, 'a, V>,
    arena: &'a Arena,
    steps: &mut Steps<L>,
) -> Result<Lane<'a>, NoMemory>
    requires leaves { AreLeaves picks.now.xs.now picks.now.ws.now (V.cells picks.now.cells.now) }
    requires alike { AreAlike picks.now.xs.now picks.now.ws.now }
    requires within { n ≤ size_of picks.now.ws.now.starts }
    requires total { total ≡ before
        (λ i. length (mask_numbers picks.now.xs.now picks.now.ws.now i)) n }
    requires few { total ≤ item_limit }
    ensures { IfOk result (IsPutLane (mask_numbers picks.now.xs.now picks.now.ws.now) n) }
{
    let mut made = Sieve::new(total + 1, arena)?;
    for i in 0..n {
        picks.put_list(i, &mut made, steps);
    }
    Ok(made.finish())
}
