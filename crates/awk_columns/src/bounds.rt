//! Where lists lie, by their ends seen at once.
ghost use Rattle.std.specs.Prelude.{◌≡◌, ◌+◌, ◌<◌, ◌≤◌, ◌^◌, IfOk, IfSome};
ghost use Rattle.awk_lanes.specs.Counted.{before};
ghost use Rattle.awk_lanes.specs.Places.{size_of, place_at};
ghost use Rattle.awk_layout.specs.Valid.{len};
ghost use Rattle.awk_columns.specs.Lists.{AreLists, span_length};

use crate::lists::Lists;
use crate::spans::Span;
use awk_index::{Index, index_of};
use awk_lanes::{Arena, Lengths, NoMemory, Steps, to_option_place};
use awk_layout::Array;
use std::alloc::Global;
use std::marker::Model;
use std::sync::ledger::Ledger;

/// Lists whose ends are read without asking for their kinds.
#[derive(Drop)]
pub struct Bounds<'r, 'a> {
    lists: &'r Lists<'a>,
    starts: Index<'a>,
    stops: Index<'a>,
}

impl<'r, 'a> Model for Bounds<'r, 'a> {
    ghost use Rattle.awk_columns.specs.Lists.{Listed};
    ghost use Rattle.awk_columns.specs.ListsCode.{coded_listed};

    ghost Value = { Listed };

    ghost coded = { coded_listed };

    ghost use Rattle.std.specs.Prelude.{◌≡◌};

    ghost view = { λ b. b.lists.now };

    ghost invariant = { λ b. (b.starts ≡ b.lists.now.starts) × (b.stops ≡ b.lists.now.stops) };
}

impl<'r, 'a> Bounds<'r, 'a> {
    /// The ends of lists.
    pub fn new<L: Ledger>(
        alloc: Global,
        lists: &'r Lists<'a>,
        arena: &'a Arena,
        steps: &mut Steps<L>,
    ) -> Result<Bounds<'r, 'a>, NoMemory>
        ensures { IfOk result (λ r. r ≡ lists.now) }
    {
        let _ = lists.content();
        let starts = index_of(alloc, lists.starts(), arena, steps)?;
        let stops = index_of(alloc, lists.stops(), arena, steps)?;
        Ok(Bounds {
            lists,
            starts,
            stops,
        })
    }

    /// How many lists there are.
    pub fn len(&self) -> u64
        ensures len { result ≡ size_of self.now.starts }
        ensures fits { result < 2 ^ 63 }
    {
        self.lists.len()
    }

    /// What holds their items.
    pub fn content(&self) -> &Array<'a>
        ensures content { result.now ≡ self.now.content }
        ensures lists { AreLists self.now.class self.now.starts self.now.stops self.now.content }
    {
        self.lists.content()
    }

    /// How many items all lists have, where each is known to begin where the one before it ends.
    pub fn row_total<L: Ledger>(&self, steps: &mut Steps<L>) -> Option<u64>
        ensures { let m = span_length self.now.starts self.now.stops in
            IfSome result (λ total. total ≡ before m (size_of self.now.starts)) }
    {
        self.lists.row_total(steps)
    }

    /// How many items list i has.
    #[inline(always)]
    pub fn length_at(&self, i: u64) -> u64
        requires within { i < size_of self.now.starts }
        ensures length { result ≡ span_length self.now.starts self.now.stops i }
        ensures fits { result < 2 ^ 63 }
    {
        let _ = self.lists.content();
        let start = self.starts.number(i);
        let stop = self.stops.number(i);
        if start == stop {
            0
        } else {
            (stop - start) as u64
        }
    }

    /// Where list i begins, or 0 where that is negative, as of an empty list it may be.
    #[inline(always)]
    pub fn start_at(&self, i: u64) -> u64
        requires { i < size_of self.now.starts }
        ensures start { result ≡ place_at self.now.starts i }
        ensures small { result < 2 ^ 63 }
    {
        to_option_place(self.starts.number(i)).unwrap_or(0)
    }

    /// Where list i lies.
    #[inline(always)]
    pub fn span_of(&self, i: u64) -> Span
        requires { i < size_of self.now.starts }
        ensures start { result.start ≡ place_at self.now.starts i }
        ensures length { result.length ≡ span_length self.now.starts self.now.stops i }
        ensures within { 0 < result.length → result.start + result.length ≤ len self.now.content }
        ensures small { result.start + result.length < 2 ^ 63 }
    {
        let _ = self.lists.content();
        Span {
            start: self.start_at(i),
            length: self.length_at(i),
        }
    }
}

impl<'r, 'a> Lengths for Bounds<'r, 'a> {
    ghost use Rattle.awk_lanes.specs.Places.{size_of};
    ghost use Rattle.awk_columns.specs.Lists.{span_length};

    ghost length = { λ x. span_length x.starts x.stops };

    ghost size = { λ x. size_of x.starts };

    fn length<L: Ledger>(&self, i: u64, _steps: &mut Steps<L>) -> u64 {
        self.length_at(i)
    }
}
