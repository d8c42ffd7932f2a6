//! Arrays whose type is a union, or an option of one.
ghost use Rattle.std.specs.Prelude.{◌≡◌, ℕ, ◌<◌, ◌^◌, ◌≤ℤ◌, ◌<ℤ◌, [], pos, true, false, IfOk};
ghost use Rattle.std.specs.Prelude.{FitsSigned};
ghost use Rattle.std.specs.Int.{w8};
ghost use Rattle.awk_types.specs.Limit.{limit};
ghost use Rattle.awk_types.specs.Simple.{is_option, is_union, present};
ghost use Rattle.awk_lanes.specs.Numbers.{nat_of, int_of, IsOf};
ghost use Rattle.awk_lanes.specs.Places.{size_of, at, place_at};
ghost use Rattle.awk_lanes.specs.declared.kind.Kind.TheVariants as Kind;
ghost use Rattle.awk_layout.specs.Layout.{layouts_from};
ghost use Rattle.awk_layout.specs.Typing.{array_type};
ghost use Rattle.awk_layout.specs.Valid.{AllValid};
ghost use Rattle.awk_lanes.specs.Made.{lane_of};
ghost use Rattle.awk_open.specs.Opened.{IsOpened, AreWithin};
ghost use Rattle.awk_open.specs.Settled.{settled_tag, settled_place, settled_index, IsPresentAt};
ghost use Rattle.awk_open.specs.Settled.{AreTags, CanUnite, IsSettled};
ghost use Rattle.awk_spread.specs.Spread.{or_else as or_else_of};

use crate::opening::Opened;
use awk_lanes::{
    Arena, IndexMaker, Kind, Lane, LaneMaker, NoMemory, Num, Steps, index_at, ordinals, place_in,
};
use awk_layout::{Array, Arrays, Node, Nodes};
use awk_spread::{Spread, alternatives};
use std::alloc::Global;
use std::sync::ledger::Ledger;

/// A place where a number is not negative, if there is any.
fn first_present<L: Ledger>(index: &Lane, steps: &mut Steps<L>) -> Option<u64>
    requires { index.now.kind ≡ Kind.I64 }
    ensures { IsPresentAt index.now result }
{
    let n = index.len();
    for i in 0..n {
        if index_at(index, i, steps) >= 0 {
            return Some(i);
        }
    }
    None
}

/// A tag where a place is not negative, else another.
fn tag_or(place: i64, tag: i64, other: u64) -> i64
    requires other { other < 128 }
    requires tag { pos 0 ≤ℤ place → (pos 0 ≤ℤ tag) × (nat_of tag < 128) }
    ensures tag { result ≡ or_else_of place tag (pos other) }
    ensures small { FitsSigned w8 result }
{
    if place < 0 { other as i64 } else { tag }
}

/// The same, of lanes, as a number of a lane of tags.
fn next_tag<L: Ledger>(tags: &Lane, index: &Lane, other: u64, i: u64, steps: &mut Steps<L>) -> Num
    requires tag_kind { tags.now.kind ≡ Kind.I64 }
    requires index_kind { index.now.kind ≡ Kind.I64 }
    requires size { size_of tags.now ≡ size_of index.now }
    requires other { other < 128 }
    requires tag { pos 0 ≤ℤ at index.now i →
        (pos 0 ≤ℤ at tags.now i) × (place_at tags.now i < 128) }
    requires within { i < size_of index.now }
    ensures number { int_of result ≡ settled_tag tags.now index.now other i }
    ensures kind { IsOf Kind.I8 result }
{
    let place = index_at(index, i, steps);
    let tag = index_at(tags, i, steps);
    Num::Int(tag_or(place, tag, other))
}

/// Tags as a union has them. A null gets another tag.
#[tactic(auto, using(awk_lanes::proofs::MadeLanes::making))]
fn settle_tags<'a, L: Ledger>(
    tags: &Lane,
    index: &Lane,
    other: u64,
    arena: &'a Arena,
    steps: &mut Steps<L>,
) -> Result<Lane<'a>, NoMemory>
    requires tag_kind { tags.now.kind ≡ Kind.I64 }
    requires index_kind { index.now.kind ≡ Kind.I64 }
    requires size { size_of tags.now ≡ size_of index.now }
    requires other { other < 128 }
    requires tags { AreTags tags.now index.now }
    ensures lane { let settled = settled_tag tags.now index.now other in
        IfOk result (λ r. r ≡ lane_of Kind.I8 (size_of index.now) settled) }
{
    let n = index.len();
    let mut maker = LaneMaker::new(Kind::I8, n, arena)?;
    for i in 0..n {
        let next = next_tag(tags, index, other, i, steps);
        maker.push(next);
    }
    Ok(maker.finish())
}

/// A number where a place is not negative, else another.
fn place_or(place: i64, number: i64, other: i64) -> i64
    ensures { result ≡ or_else_of place number other }
{
    if place < 0 { other } else { number }
}

/// A place where it is not negative, else another.
fn next_place<L: Ledger>(index: &Lane, other: i64, i: u64, steps: &mut Steps<L>) -> Num
    requires kind { index.now.kind ≡ Kind.I64 }
    requires within { i < size_of index.now }
    ensures number { int_of result ≡ settled_place index.now other i }
    ensures kind { IsOf Kind.I64 result }
{
    let place = index_at(index, i, steps);
    Num::Int(place_or(place, place, other))
}

/// Places of a union. A null gets another place.
#[tactic(auto, using(awk_lanes::proofs::MadeLanes::making))]
fn settle_places<'a, L: Ledger>(
    index: &Lane,
    other: i64,
    arena: &'a Arena,
    steps: &mut Steps<L>,
) -> Result<Lane<'a>, NoMemory>
    requires kind { index.now.kind ≡ Kind.I64 }
    ensures lane { let settled = settled_place index.now other in
        IfOk result (λ r. r ≡ lane_of Kind.I64 (size_of index.now) settled) }
{
    let n = index.len();
    let mut maker = IndexMaker::new(n, arena)?;
    for i in 0..n {
        let next = next_place(index, other, i, steps);
        maker.push(next);
    }
    Ok(maker.finish())
}

/// The item's own place where it is present.
fn own_place<L: Ledger>(index: &Lane, i: u64, steps: &mut Steps<L>) -> Num
    requires kind { index.now.kind ≡ Kind.I64 }
    requires small { i < 2 ^ 63 }
    requires within { i < size_of index.now }
    ensures number { int_of result ≡ settled_index index.now i }
    ensures kind { IsOf Kind.I64 result }
{
    Num::Int(place_or(index_at(index, i, steps), i as i64, -1))
}

/// The index of an option that is null where a place is negative.
#[tactic(auto, using(awk_lanes::proofs::MadeLanes::making))]
fn own_places<'a, L: Ledger>(
    index: &Lane,
    arena: &'a Arena,
    steps: &mut Steps<L>,
) -> Result<Lane<'a>, NoMemory>
    requires kind { index.now.kind ≡ Kind.I64 }
    requires small { size_of index.now < 2 ^ 63 }
    ensures lane { let settled = settled_index index.now in
        IfOk result (λ r. r ≡ lane_of Kind.I64 (size_of index.now) settled) }
{
    let n = index.len();
    let mut maker = IndexMaker::new(n, arena)?;
    for i in 0..n {
        let next = own_place(index, i, steps);
        maker.push(next);
    }
    Ok(maker.finish())
}

/// A lane without numbers.
fn no_numbers<'a>(kind: Kind, arena: &'a Arena) -> Result<Lane<'a>, NoMemory>
    ensures kind { IfOk result (λ r. r.kind ≡ kind) }
    ensures items { IfOk result (λ r. r.items ≡ []) }
{
    let maker = LaneMaker::new(kind, 0, arena)?;
    Ok(maker.finish())
}

/// An index of an option into a union.
#[derive(Drop)]
struct Settled<'a> {
    index: Lane<'a>,
    content: Node<'a>,
}

/// Alternatives of which some item is present. Each null gets the tag and the place of that item.
fn settle_by<'a, L: Ledger>(
    alloc: Global,
    tags: &Lane<'a>,
    index: &Lane<'a>,
    contents: &Nodes<'a>,
    present: u64,
    arena: &'a Arena,
    steps: &mut Steps<L>,
) -> Result<Settled<'a>, NoMemory>
    requires fits { CanUnite tags.now index.now contents.now }
    requires within { present < size_of index.now }
    requires present { pos 0 ≤ℤ at index.now present }
    ensures settled { let settles = IsSettled tags.now index.now contents.now in
        IfOk result (λ r. settles r.index r.content) }
{
    let tag = place_in(tags, present, steps);
    let place = index_at(index, present, steps);
    let new_tags = settle_tags(tags, index, tag, arena, steps)?;
    let places = settle_places(index, place, arena, steps)?;
    let own = own_places(index, arena, steps)?;
    let copied = contents.copy(alloc)?;
    let content = Node::union(new_tags, places, copied, steps);
    Ok(Settled {
        index: own,
        content,
    })
}

/// Alternatives of which no item is present.
fn settle_none<'a, L: Ledger>(
    alloc: Global,
    tags: &Lane<'a>,
    index: &Lane<'a>,
    contents: &Nodes<'a>,
    arena: &'a Arena,
    steps: &mut Steps<L>,
) -> Result<Settled<'a>, NoMemory>
    requires fits { CanUnite tags.now index.now contents.now }
    requires none { (j : ℕ) → j < size_of index.now → at index.now j <ℤ pos 0 }
    ensures settled { let settles = IsSettled tags.now index.now contents.now in
        IfOk result (λ r. settles r.index r.content) }
{
    let new_tags = no_numbers(Kind::I8, arena)?;
    let places = no_numbers(Kind::I64, arena)?;
    let copied = contents.copy(alloc)?;
    let content = Node::union(new_tags, places, copied, steps);
    Ok(Settled {
        index: index.copy(),
        content,
    })
}

/// Alternatives with nulls as a union and an index of an option into it.
fn settle<'a, L: Ledger>(
    alloc: Global,
    tags: &Lane<'a>,
    index: &Lane<'a>,
    contents: &Nodes<'a>,
    arena: &'a Arena,
    steps: &mut Steps<L>,
) -> Result<Settled<'a>, NoMemory>
    requires fits { CanUnite tags.now index.now contents.now }
    ensures settled { let settles = IsSettled tags.now index.now contents.now in
        IfOk result (λ r. settles r.index r.content) }
{
    match first_present(index, steps) {
        Some(present) => settle_by(alloc, tags, index, contents, present, arena, steps),
        None => settle_none(alloc, tags, index, contents, arena, steps),
    }
}

/// The arrays of nodes whose types pass no limit.
fn arrays_within<'a>(alloc: Global, xs: &Nodes<'a>) -> Result<Arrays<'a>, NoMemory>
    requires limits { AreWithin xs.now }
    ensures arrays { IfOk result (λ r. r ≡ xs.now) }
    ensures valid { IfOk result (λ _. AllValid (layouts_from xs.now)) }
{
    let mut arrays = Arrays::new(alloc);
    let mut i = 0;
    while i < xs.len() {
        let array = Array::of_node(alloc, xs.get(i).copy(alloc)?)?;
        let _ = array.len();
        arrays.push(array)?;
        i += 1;
    }
    Ok(arrays)
}

/// The tags, the places and the alternatives of an array whose type is a union.
pub fn open_union<'a, L: Ledger>(
    alloc: Global,
    x: &Array<'a>,
    arena: &'a Arena,
    steps: &mut Steps<L>,
) -> Result<Opened<'a>, NoMemory>
    requires union { is_union (present (array_type x.now)) ≡ true }
    requires present { is_option (array_type x.now) ≡ false }
    ensures opened { IfOk result (IsOpened x.now) }
{
    let _ = x.typ();
    let first = ordinals(x.len(), arena, steps)?;
    let Spread {
        tags: spread_tags,
        index,
        contents: parts,
    } = alternatives(alloc, x.node(), first, arena, steps)?;
    let tags = settle_tags(&spread_tags, &index, 0, arena, steps)?;
    let contents = arrays_within(alloc, &parts)?;
    Ok(Opened::Union {
        tags,
        index,
        contents,
    })
}

/// The index and the union of an array whose type is an option of a union.
pub fn open_union_option<'a, L: Ledger>(
    alloc: Global,
    x: &Array<'a>,
    arena: &'a Arena,
    steps: &mut Steps<L>,
) -> Result<Opened<'a>, NoMemory>
    requires union { is_union (present (array_type x.now)) ≡ true }
    requires option { is_option (array_type x.now) ≡ true }
    ensures opened { IfOk result (IsOpened x.now) }
{
    let _ = x.typ();
    let first = ordinals(x.len(), arena, steps)?;
    let Spread {
        tags,
        index: places,
        contents,
    } = alternatives(alloc, x.node(), first, arena, steps)?;
    let Settled {
        index,
        content: settled,
    } = settle(alloc, &tags, &places, &contents, arena, steps)?;
    let _ = settled.len();
    let content = Array::of_node(alloc, settled)?;
    Ok(Opened::Option { index, content })
}
