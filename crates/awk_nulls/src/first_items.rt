//! The first item of a list.
ghost use Rattle.std.specs.Prelude.{◌≡◌, ◌==◌, ◌<◌, negsuc, IfOk, if◌then◌else◌};
ghost use Rattle.awk_types.specs.Faults.{fault_told};
ghost use Rattle.awk_types.specs.Gives.{Gives};
ghost use Rattle.awk_lanes.specs.Numbers.{int_of, IsOf};
ghost use Rattle.awk_lanes.specs.Places.{size_of, at, AreSpans};
ghost use Rattle.awk_lanes.specs.declared.kind.Kind.TheVariants as Kinds;
ghost use Rattle.awk_layout.specs.Datum.{datum_of, IsDatum};
ghost use Rattle.awk_nulls.specs.Firsts.{firsts_function, firsts_of};
ghost use Rattle.awk_nulls.specs.Lanes.{span_length, firsts_lane};

use awk_axis::lift_at;
use awk_columns::Lists;
use awk_gather::option_over;
use awk_index::{Index, index_of};
use awk_lanes::{Arena, IndexMaker, Lane, Num, Steps};
use awk_layout::Datum;
use awk_list_ends::length_between;
use awk_list_functions::{ListOp, Made, Refusal};
use awk_types::{Fault, NoMemory, Typ, copy_type};
use std::alloc::Global;
use std::sync::ledger::Ledger;

/// Where the first item of the list at a place is, or -1 where it has none.
#[inline(always)]
fn first_place(starts: &Index, stops: &Index, i: u64) -> Num
    requires within { i < size_of starts.now }
    requires spans { AreSpans starts.now stops.now 9223372036854775807 }
    ensures number { int_of result ≡ (if span_length starts.now stops.now i == 0 then negsuc 0
        else at starts.now i) }
    ensures kind { IsOf Kinds.I64 result }
{
    if length_between(starts, stops, i) == 0 {
        Num::Int(-1)
    } else {
        Num::Int(starts.number(i))
    }
}

/// Where the first item of each list is.
#[tactic(auto, using(awk_lanes::proofs::MadeLanes::making))]
fn first_places<'a>(starts: &Index, stops: &Index, arena: &'a Arena) -> Result<Lane<'a>, NoMemory>
    requires spans { AreSpans starts.now stops.now 9223372036854775807 }
    ensures { IfOk result (λ r. r ≡ firsts_lane starts.now stops.now) }
{
    let n = starts.len();
    let mut maker = IndexMaker::new(n, arena)?;
    for i in 0..n {
        let place = first_place(starts, stops, i);
        maker.push(place);
    }
    Ok(maker.finish())
}

/// The first item of a list.
#[derive(Clone, Copy, Debug, PartialEq, Eq)]
struct First;

impl ListOp for First {
    ghost function = { λ f. firsts_function };

    fn refusal(&self, _item: &Typ) -> Option<Refusal> {
        None
    }

    fn typ(&self, alloc: Global, item: &Typ) -> Result<Typ, NoMemory> {
        Ok(Typ::Opt(Box::new(alloc, copy_type(alloc, item)?)?))
    }

    fn gives_lists(&self) -> bool {
        false
    }

    fn class(&self, class: Option<u64>) -> Option<u64> {
        class
    }

    fn tells_index(&self) -> bool {
        false
    }

    fn counts_given(&self) -> bool {
        true
    }

    fn column<'a, L: Ledger>(
        &self,
        alloc: Global,
        lists: &Lists<'a>,
        arena: &'a Arena,
        steps: &mut Steps<L>,
    ) -> Result<Made<'a>, NoMemory> {
        let content = lists.content();
        let _ = content.len();
        let starts = index_of(alloc, lists.starts(), arena, steps)?;
        let stops = index_of(alloc, lists.stops(), arena, steps)?;
        let places = first_places(&starts, &stops, arena)?;
        let items = option_over(alloc, content.node(), &places, arena, steps)?;
        let _ = items.len();
        Ok(Made::Singles(items))
    }
}

/// The first item of each list at an axis, and null for a list without items. What is given for a
/// whole array is settled.
pub fn firsts<'a, L: Ledger>(
    alloc: Global,
    x: &Datum<'a>,
    axis: i64,
    arena: &'a Arena,
    steps: &mut Steps<L>,
) -> Result<Datum<'a>, Fault>
    requires datum { IsDatum x.now }
    ensures answer { Gives datum_of fault_told result (firsts_of axis (datum_of x.now)) }
    ensures datum { IfOk result (λ made. IsDatum made) }
{
    lift_at(alloc, &First, x, axis, arena, steps)
}
