//! Lists of one class, as one value.
ghost use Rattle.std.specs.Prelude.{◌≡◌, ◌<◌, ◌^◌, IfOk, IfSome};
ghost use Rattle.awk_lanes.specs.Counted.{before};
ghost use Rattle.awk_lanes.specs.Places.{size_of, place_at, IsIndexKind};
ghost use Rattle.awk_counts.specs.Counted.{spans};
ghost use Rattle.awk_columns.specs.Joined.{IsJoined};
ghost use Rattle.awk_columns.specs.Lists.{AreInRow, AreLists, span_length};
ghost use Rattle.awk_columns.specs.Reached.{IsReached};

use crate::joining::{all_items, join_lists};
use awk_lanes::{Arena, Lane, Lengths, Steps, index_at, to_option_place};
use awk_layout::Array;
use awk_types::{Fault, NoMemory};
use std::alloc::{AllocError, Global};
use std::marker::Model;
use std::sync::ledger::Ledger;

/// Lists of one class. List i has the content's items from start i below stop i; the lists of a
/// sized class have this length.
pub struct Lists<'a> {
    class: Option<u64>,
    starts: Lane<'a>,
    stops: Lane<'a>,
    content: Array<'a>,
    in_row: bool,
}

// Written out, so that whoever drops lists sees one call.
impl Drop for Lists<'_> {
    fn drop(self) {
        let Lists {
            class: _,
            starts: _,
            stops: _,
            content,
            in_row: _,
        } = self;
        let_go(content);
    }
}

fn let_go(_content: Array<'_>) {}

/// The number at place i of a lane of starts or stops, or 0 where it is negative.
fn end_in<L: Ledger>(lane: &Lane, i: u64, steps: &mut Steps<L>) -> u64
    requires kind { IsIndexKind lane.now.kind }
    requires within { i < size_of lane.now }
    ensures { result ≡ place_at lane.now i }
{
    to_option_place(index_at(lane, i, steps)).unwrap_or(0)
}

/// Lists whose items lie one after another.
#[derive(Drop)]
pub enum Joined<'a> {
    TooMany,
    Lists {
        offsets: Lane<'a>,
        content: Array<'a>,
    },
}

impl<'a> Model for Lists<'a> {
    ghost use Rattle.awk_columns.specs.Lists.{Listed, AreLists};
    ghost use Rattle.awk_columns.specs.ListsCode.{coded_listed};

    ghost Value = { Listed };

    ghost coded = { coded_listed };

    ghost view = { λ x. record {
      class = x.class;
      starts = x.starts;
      stops = x.stops;
      content = x.content;
    } };

    ghost use Rattle.std.specs.Prelude.{◌≡◌, true};
    ghost use Rattle.awk_columns.specs.Lists.{AreInRow};

    ghost invariant = { λ x. AreLists x.class x.starts x.stops x.content
        × (x.in_row ≡ true → AreInRow x.starts x.stops) };
}

impl<'a> Lists<'a> {
    /// Lists of a class over a content.
    pub fn new(
        class: Option<u64>,
        starts: Lane<'a>,
        stops: Lane<'a>,
        content: Array<'a>,
    ) -> Lists<'a>
        requires { AreLists class starts stops content }
        ensures { result ≡ record {
          class = class;
          starts = starts.entry;
          stops = stops.entry;
          content = content.entry;
        } }
    {
        Lists {
            class,
            starts,
            stops,
            content,
            in_row: false,
        }
    }

    /// The same, of which each is known to begin where the one before it ends.
    pub fn in_row(
        class: Option<u64>,
        starts: Lane<'a>,
        stops: Lane<'a>,
        content: Array<'a>,
    ) -> Lists<'a>
        requires lists { AreLists class starts stops content }
        requires row { AreInRow starts stops }
        ensures { result ≡ record {
          class = class;
          starts = starts.entry;
          stops = stops.entry;
          content = content.entry;
        } }
    {
        Lists {
            class,
            starts,
            stops,
            content,
            in_row: true,
        }
    }

    /// How many lists there are.
    pub fn len(&self) -> u64
        ensures len { result ≡ size_of self.now.starts }
        ensures fits { result < 2 ^ 63 }
    {
        self.starts.len()
    }

    /// Their class.
    pub fn class(&self) -> Option<u64>
        ensures { result ≡ self.now.class }
    {
        self.class
    }

    /// Where each begins.
    pub fn starts(&self) -> &Lane<'a>
        ensures { result.now ≡ self.now.starts }
    {
        &self.starts
    }

    /// Where each ends.
    pub fn stops(&self) -> &Lane<'a>
        ensures { result.now ≡ self.now.stops }
    {
        &self.stops
    }

    /// What holds their items.
    pub fn content(&self) -> &Array<'a>
        ensures content { result.now ≡ self.now.content }
        ensures lists { AreLists self.now.class self.now.starts self.now.stops self.now.content }
    {
        &self.content
    }

    /// How many items list i has.
    #[inline(always)]
    pub fn length_at<L: Ledger>(&self, i: u64, steps: &mut Steps<L>) -> u64
        requires within { i < size_of self.now.starts }
        ensures length { result ≡ span_length self.now.starts self.now.stops i }
        ensures fits { result < 2 ^ 63 }
    {
        let start = index_at(&self.starts, i, steps);
        let stop = index_at(&self.stops, i, steps);
        if start == stop {
            0
        } else {
            (stop - start) as u64
        }
    }

    /// How many items all lists have, where each is known to begin where the one before it ends:
    /// two numbers tell that, and no list is looked at.
    pub fn row_total<L: Ledger>(&self, steps: &mut Steps<L>) -> Option<u64>
        ensures { let m = span_length self.now.starts self.now.stops in
            IfSome result (λ total. total ≡ before m (size_of self.now.starts)) }
    {
        if !self.in_row {
            return None;
        }
        let n = self.starts.len();
        if n == 0 {
            return Some(0);
        }
        let first = end_in(&self.starts, 0, steps);
        let last = end_in(&self.stops, n - 1, steps);
        Some(last - first)
    }

    /// Their items one after another, however many they are.
    pub fn items<L: Ledger>(
        &self,
        alloc: Global,
        arena: &'a Arena,
        steps: &mut Steps<L>,
    ) -> Result<Array<'a>, NoMemory>
        ensures { let places = spans self.now.starts self.now.stops in
            IfOk result (IsReached self.now.content places) }
    {
        all_items(
            alloc,
            &self.starts,
            &self.stops,
            &self.content,
            arena,
            steps,
        )
    }

    /// Their items one after another, or that they are too many.
    pub fn joined<L: Ledger>(
        &self,
        alloc: Global,
        arena: &'a Arena,
        steps: &mut Steps<L>,
    ) -> Result<Joined<'a>, NoMemory>
        ensures { IfOk result (IsJoined self.now.starts self.now.stops self.now.content) }
    {
        join_spans(
            alloc,
            self.class,
            &self.starts,
            &self.stops,
            &self.content,
            arena,
            steps,
        )
    }
}

impl<'a> Lengths for Lists<'a> {
    ghost use Rattle.awk_lanes.specs.Places.{size_of};
    ghost use Rattle.awk_columns.specs.Lists.{span_length};

    ghost length = { λ x. span_length x.starts x.stops };

    ghost size = { λ x. size_of x.starts };

    fn length<L: Ledger>(&self, i: u64, steps: &mut Steps<L>) -> u64 {
        self.length_at(i, steps)
    }
}

/// The items of lists one after another, or that they are too many: for who holds the lanes of
/// lists and needs no `Lists` of them.
pub fn join_spans<'a, L: Ledger>(
    alloc: Global,
    class: Option<u64>,
    starts: &Lane<'a>,
    stops: &Lane<'a>,
    content: &Array<'a>,
    arena: &'a Arena,
    steps: &mut Steps<L>,
) -> Result<Joined<'a>, NoMemory>
    requires { AreLists class starts.now stops.now content.now }
    ensures { IfOk result (IsJoined starts.now stops.now content.now) }
{
    match join_lists(alloc, starts, stops, content, arena, steps) {
        Ok(lists) => Ok(Joined::Lists {
            offsets: lists.offsets,
            content: lists.content,
        }),
        Err(Fault::Size) => Ok(Joined::TooMany),
        Err(_) => Err(AllocError),
    }
}
