//! Indexes of options that count up, and the places of the items that are present.
ghost use Rattle.std.specs.Prelude.{◌≡◌, ◌<◌, ◌^◌, [], length, IfOk, IfSome};
ghost use Rattle.awk_lanes.specs.Numbers.{int_of, IsOf};
ghost use Rattle.awk_lanes.specs.Places.{size_of, option_place_at, IsOptionKind};
ghost use Rattle.awk_lanes.specs.declared.kind.Kind.TheVariants as Kind;
ghost use Rattle.awk_counts.specs.Counted.{first_of, places_lane, present_place, present_at};
ghost use Rattle.awk_counts.specs.Counted.{count_or_null, counted_lane};
ghost use Rattle.awk_counts.specs.Narrow.{narrow_lane, HoldsCounts};

use awk_index::Index;
use awk_lanes::{Arena, GroupMaker, IndexMaker, Lane, NoMemory, Num, NumberMaker, number};
use awk_narrow::OptionIndex;

/// How many items are too many for an index of 32 bits.
const NARROW_LIMIT: u64 = 2147483648;

/// 1 where there is a place, else 0.
#[inline(always)]
pub(crate) fn one_if(place: Option<u64>) -> u64
    ensures { result ≡ length (present_place place) }
{
    match place {
        Some(_) => 1,
        None => 0,
    }
}

/// How many items the index of an option names.
#[tactic(auto, using(crate::proofs::FirstPlaces::counting))]
pub fn count_present<P: OptionIndex>(index: &P) -> u64
    requires kind { IsOptionKind (P.lane index.now).kind }
    ensures { let lane = P.lane index.now in
        result ≡ length (first_of (present_at lane) (size_of lane)) }
{
    let mut count = 0;
    for i in 0..index.size() {
        count += one_if(index.place(i));
    }
    count
}

/// `next` where there is a place, else -1.
#[inline(always)]
fn next_number(place: Option<u64>, next: u64) -> Num
    requires small { next < 2 ^ 63 }
    ensures number { int_of result ≡ count_or_null next place }
    ensures kind { IsOf Kind.I64 result }
{
    match place {
        Some(_) => Num::Int(next as i64),
        None => Num::Int(-1),
    }
}

/// Makes the numbers of the index of an option over the present items alone.
#[inline(always)]
#[tactic(auto, using(awk_lanes::proofs::MadeLanes::making))]
fn count_into<P: OptionIndex, M: NumberMaker>(index: &P, maker: &mut M)
    requires small { size_of (P.lane index.now) < 2 ^ 63 }
    requires held { HoldsCounts (size_of (P.lane index.now)) (M.kind maker.old) }
    requires room { (M.making maker.old).room ≡ size_of (P.lane index.now) }
    requires none { (M.making maker.old).items ≡ [] }
    ensures { (M.making maker.new).items ≡ (counted_lane (P.lane index.now)).items }
{
    let n = index.size();
    let mut next = 0;
    for i in 0..n {
        let place = index.place(i);
        maker.put(next_number(place, next));
        next += one_if(place);
    }
}

/// The index of an option over the present items alone: it counts up, and is -1 for each null.
pub fn counted<'a, P: OptionIndex>(index: &P, arena: &'a Arena) -> Result<Lane<'a>, NoMemory>
    requires kind { IsOptionKind (P.lane index.now).kind }
    requires small { size_of (P.lane index.now) < 2 ^ 63 }
    ensures lane { IfOk result (λ r. r ≡ counted_lane (P.lane index.now)) }
{
    let mut maker = IndexMaker::new(index.size(), arena)?;
    count_into(index, &mut maker);
    Ok(maker.finish())
}

/// The same in 32 bits, where no count is more than these hold.
pub fn counted_narrow<'a, P: OptionIndex>(index: &P, arena: &'a Arena) -> Result<Lane<'a>, NoMemory>
    requires kind { IsOptionKind (P.lane index.now).kind }
    requires small { size_of (P.lane index.now) < 2 ^ 63 }
    ensures lane { IfOk result (λ r. r ≡ narrow_lane (P.lane index.now)) }
{
    let n = index.size();
    if n < NARROW_LIMIT {
        let mut maker: GroupMaker<'a, 4, i32> = GroupMaker::new(n, arena)?;
        count_into(index, &mut maker);
        return Ok(maker.finish());
    }
    counted(index, arena)
}

/// The place that the index of an option names at place i, which an i64 holds.
#[inline(always)]
fn present_in(index: &Index, i: u64) -> Option<u64>
    requires within { i < size_of index.now }
    ensures place { result ≡ option_place_at index.now i }
    ensures small { IfSome result (λ k. k < 2 ^ 63) }
{
    let place = index.number(i);
    if place < 0 { None } else { Some(place as u64) }
}

/// The places of the items that the index of an option names, of which there are n.
pub fn present_lane<'a>(index: &Index, n: u64, arena: &'a Arena) -> Result<Lane<'a>, NoMemory>
    requires kind { IsOptionKind index.now.kind }
    requires count { n ≡ length (first_of (present_at index.now) (size_of index.now)) }
    ensures lane { let places = first_of (present_at index.now) (size_of index.now) in
        IfOk result (λ r. r ≡ places_lane places) }
{
    let mut maker = IndexMaker::new(n, arena)?;
    for i in 0..index.len() {
        if let Some(place) = present_in(index, i) {
            maker.push(number(place));
        }
    }
    Ok(maker.finish())
}
