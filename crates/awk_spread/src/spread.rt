//! A node as alternatives that are neither optional nor unions.
ghost use Rattle.std.specs.Prelude.{◌≡◌, ℕ, ◌+◌, ◌<◌, ◌^◌, ◌≤ℤ◌, ◌++◌, ◌∷◌, [], pos, IfOk};
ghost use Rattle.std.specs.Prelude.{OnOk};
ghost use Rattle.awk_lanes.specs.Numbers.{nat_of, int_of, IsOf};
ghost use Rattle.awk_lanes.specs.Places.{size_of, at, place_at, option_place_at, IsOptionalIndex};
ghost use Rattle.awk_lanes.specs.declared.kind.Kind.TheVariants as Kind;
ghost use Rattle.awk_layout.specs.Layout.{layouts_from, union as united};
ghost use Rattle.awk_layout.specs.Valid.{len, IsValid};
ghost use Rattle.awk_lanes.specs.Made.{lane_of};
ghost use Rattle.awk_gather.specs.Peeled.{through, followed, IsBare};
ghost use Rattle.awk_spread.specs.Plain.{IsPlain};
ghost use Rattle.awk_spread.specs.Spread.{IsSpread, alternative, joined_index, joined_tags};
ghost use Rattle.awk_spread.specs.Spread.{or_else as or_else_of};

use awk_gather::{Peeled, peel};
use awk_lanes::{
    Arena, IndexMaker, Lane, NoMemory, Num, Steps, index_at, option_place_in, tag_in, to_place,
};
use awk_layout::{Class, Node, Nodes};
use std::alloc::{AllocError, Global};
use std::sync::ledger::Ledger;

/// Alternatives, and the tag and the place of each item. A null has a negative place.
#[derive(Drop)]
pub struct Spread<'a> {
    pub tags: Lane<'a>,
    pub index: Lane<'a>,
    pub contents: Nodes<'a>,
}

/// A lane of one number again and again.
#[tactic(auto, using(awk_lanes::proofs::MadeLanes::making))]
fn repeated<'a>(n: u64, x: Num, arena: &'a Arena) -> Result<Lane<'a>, NoMemory>
    requires { IsOf Kind.I64 x }
    ensures lane { IfOk result (λ r. r ≡ lane_of Kind.I64 n (λ i. int_of x)) }
{
    let mut maker = IndexMaker::new(n, arena)?;
    for i in 0..n {
        maker.push(x);
    }
    Ok(maker.finish())
}

/// The place in an alternative of item i of a union, or -1 where it is of another.
fn one_of<L: Ledger>(
    tags: &Lane,
    index: &Lane,
    contents: &Nodes,
    a: u64,
    i: u64,
    steps: &mut Steps<L>,
) -> i64
    requires valid { IsValid (united tags.now index.now (layouts_from contents.now)) }
    requires within { i < size_of tags.now }
    ensures { result ≡ alternative tags.now index.now a i }
{
    if tag_in(tags, i, steps) == a {
        index_at(index, i, steps)
    } else {
        -1
    }
}

/// The place in an alternative of item i of an index into a union.
#[tactic(auto, using(awk_gather::proofs::FollowedIndexes::follows))]
fn place_of<L: Ledger>(
    tags: &Lane,
    index: &Lane,
    contents: &Nodes,
    a: u64,
    places: &Lane,
    i: u64,
    steps: &mut Steps<L>,
) -> i64
    requires valid { IsValid (united tags.now index.now (layouts_from contents.now)) }
    requires places { IsOptionalIndex places.now (size_of tags.now) }
    requires within { i < size_of places.now }
    ensures { result ≡ through (alternative tags.now index.now a) (option_place_at places.now i) }
{
    match option_place_in(places, i, steps) {
        Some(place) => one_of(tags, index, contents, a, place, steps),
        None => -1,
    }
}

/// The same, as a number of a lane.
fn next_of<L: Ledger>(
    tags: &Lane,
    index: &Lane,
    contents: &Nodes,
    a: u64,
    places: &Lane,
    i: u64,
    steps: &mut Steps<L>,
) -> Num
    requires valid { IsValid (united tags.now index.now (layouts_from contents.now)) }
    requires places { IsOptionalIndex places.now (size_of tags.now) }
    requires within { i < size_of places.now }
    ensures number { let place = option_place_at places.now i in
        int_of result ≡ through (alternative tags.now index.now a) place }
    ensures kind { IsOf Kind.I64 result }
{
    Num::Int(place_of(tags, index, contents, a, places, i, steps))
}

/// The places in an alternative of the items of an index into a union, and -1 for each other.
#[tactic(auto, using(awk_lanes::proofs::MadeLanes::making))]
fn of_alternative<'a, L: Ledger>(
    tags: &Lane,
    index: &Lane,
    contents: &Nodes,
    a: u64,
    places: &Lane,
    arena: &'a Arena,
    steps: &mut Steps<L>,
) -> Result<Lane<'a>, NoMemory>
    requires valid { IsValid (united tags.now index.now (layouts_from contents.now)) }
    requires places { IsOptionalIndex places.now (size_of tags.now) }
    ensures lane { IfOk result (λ r. r ≡ followed (alternative tags.now index.now a) places.now) }
{
    let n = places.len();
    let mut maker = IndexMaker::new(n, arena)?;
    for i in 0..n {
        let next = next_of(tags, index, contents, a, places, i, steps);
        maker.push(next);
    }
    Ok(maker.finish())
}

/// One number where a place is not negative, else another.
fn or_else(place: i64, a: i64, b: i64) -> i64
    ensures { result ≡ or_else_of place a b }
{
    if place < 0 { b } else { a }
}

/// A new tag after others where its place is not negative, else an old one.
fn tag_after(base: u64, tag: i64, place: i64, old: i64) -> i64
    requires base { base < 2 ^ 62 }
    requires tag { pos 0 ≤ℤ place → (pos 0 ≤ℤ tag) × (nat_of tag < 2 ^ 62) }
    ensures { result ≡ or_else_of place (pos (base + nat_of tag)) old }
{
    if place < 0 {
        old
    } else {
        (base + to_place(tag)) as i64
    }
}

/// The new place where it is not negative, else the old one.
fn joined_place<L: Ledger>(old: &Lane, new: &Lane, i: u64, steps: &mut Steps<L>) -> Num
    requires old { old.now.kind ≡ Kind.I64 }
    requires new { new.now.kind ≡ Kind.I64 }
    requires size { size_of old.now ≡ size_of new.now }
    requires within { i < size_of new.now }
    ensures number { int_of result ≡ joined_index old.now new.now i }
    ensures kind { IsOf Kind.I64 result }
{
    let place = index_at(new, i, steps);
    let before = index_at(old, i, steps);
    Num::Int(or_else(place, place, before))
}

/// The new tag after others where its place is not negative, else the old one.
fn joined_tag<L: Ledger>(
    old: &Lane,
    tags: &Lane,
    new: &Lane,
    base: u64,
    i: u64,
    steps: &mut Steps<L>,
) -> Num
    requires old { old.now.kind ≡ Kind.I64 }
    requires tags { tags.now.kind ≡ Kind.I64 }
    requires new { new.now.kind ≡ Kind.I64 }
    requires size { size_of old.now ≡ size_of new.now }
    requires tag_size { size_of tags.now ≡ size_of new.now }
    requires base { base < 2 ^ 62 }
    requires below { pos 0 ≤ℤ at new.now i →
        (pos 0 ≤ℤ at tags.now i) × (place_at tags.now i < 2 ^ 62) }
    requires within { i < size_of new.now }
    ensures number { int_of result ≡ joined_tags old.now tags.now new.now base i }
    ensures kind { IsOf Kind.I64 result }
{
    let place = index_at(new, i, steps);
    let tag = index_at(tags, i, steps);
    let before = index_at(old, i, steps);
    Num::Int(tag_after(base, tag, place, before))
}

/// The new places where they are not negative, else the old ones.
#[tactic(auto, using(awk_lanes::proofs::MadeLanes::making))]
fn join_index<'a, L: Ledger>(
    old: &Lane,
    new: &Lane,
    arena: &'a Arena,
    steps: &mut Steps<L>,
) -> Result<Lane<'a>, NoMemory>
    requires old { old.now.kind ≡ Kind.I64 }
    requires new { new.now.kind ≡ Kind.I64 }
    requires size { size_of old.now ≡ size_of new.now }
    ensures lane { let joined = joined_index old.now new.now in
        IfOk result (λ r. r ≡ lane_of Kind.I64 (size_of new.now) joined) }
{
    let n = new.len();
    let mut maker = IndexMaker::new(n, arena)?;
    for i in 0..n {
        let joined = joined_place(old, new, i, steps);
        maker.push(joined);
    }
    Ok(maker.finish())
}

/// The new tags after others where their places are not negative, else the old ones.
#[tactic(auto, using(awk_lanes::proofs::MadeLanes::making))]
fn join_tags<'a, L: Ledger>(
    old: &Lane,
    tags: &Lane,
    new: &Lane,
    base: u64,
    arena: &'a Arena,
    steps: &mut Steps<L>,
) -> Result<Lane<'a>, NoMemory>
    requires old { old.now.kind ≡ Kind.I64 }
    requires tags { tags.now.kind ≡ Kind.I64 }
    requires new { new.now.kind ≡ Kind.I64 }
    requires size { size_of old.now ≡ size_of new.now }
    requires tag_size { size_of tags.now ≡ size_of new.now }
    requires base { base < 2 ^ 62 }
    requires below { (j : ℕ) → j < size_of new.now → pos 0 ≤ℤ at new.now j →
        (pos 0 ≤ℤ at tags.now j) × (place_at tags.now j < 2 ^ 62) }
    ensures lane { let joined = joined_tags old.now tags.now new.now base in
        IfOk result (λ r. r ≡ lane_of Kind.I64 (size_of new.now) joined) }
{
    let n = new.len();
    let mut maker = IndexMaker::new(n, arena)?;
    for i in 0..n {
        let joined = joined_tag(old, tags, new, base, i, steps);
        maker.push(joined);
    }
    Ok(maker.finish())
}

/// Puts copies of nodes after others.
#[tactic(auto, using(crate::proofs::SpreadUnions::append_more))]
fn append<'a>(alloc: Global, into: &mut Nodes<'a>, from: &Nodes<'a>) -> Result<(), NoMemory>
    ensures { OnOk result (into.new ≡ into.old ++ from.now) }
{
    let mut i = 0;
    while i < from.len() {
        into.push(from.get(i).copy(alloc)?)?;
        i += 1;
    }
    Ok(())
}

/// A list of one node.
fn single<'a>(alloc: Global, x: Node<'a>) -> Result<Nodes<'a>, NoMemory>
    ensures { IfOk result (λ r. r ≡ x.entry ∷ []) }
{
    let mut nodes = Nodes::new(alloc);
    nodes.push(x)?;
    Ok(nodes)
}

/// One alternative.
fn keep_one<'a>(
    alloc: Global,
    x: &Node<'a>,
    index: Lane<'a>,
    arena: &'a Arena,
) -> Result<Spread<'a>, NoMemory>
    requires kind { index.kind ≡ Kind.I64 }
    requires index { IsOptionalIndex index (len x.now) }
    requires plain { IsPlain x.now }
    ensures spread { IfOk result (λ r. IsSpread x.now index.entry r.tags r.index r.contents) }
{
    let tags = repeated(index.len(), Num::Int(0), arena)?;
    let content = x.copy(alloc)?;
    let contents = single(alloc, content)?;
    Ok(Spread {
        tags,
        index,
        contents,
    })
}

/// The alternatives of a node, and where each item lies in them.
#[cycle(spread)]
pub fn alternatives<'a, L: Ledger>(
    alloc: Global,
    x: &Node<'a>,
    index: Lane<'a>,
    arena: &'a Arena,
    steps: &mut Steps<L>,
) -> Result<Spread<'a>, NoMemory>
    requires kind { index.kind ≡ Kind.I64 }
    requires index { IsOptionalIndex index (len x.now) }
    ensures spread { IfOk result (λ r. IsSpread x.now index.entry r.tags r.index r.contents) }
{
    let Peeled { index, content } = peel(alloc, x, index, arena, steps)?;
    spread_bare(alloc, &content, index, arena, steps)
}

/// The same, of a node that is neither an option nor an index.
#[cycle(spread)]
fn spread_bare<'a, L: Ledger>(
    alloc: Global,
    x: &Node<'a>,
    index: Lane<'a>,
    arena: &'a Arena,
    steps: &mut Steps<L>,
) -> Result<Spread<'a>, NoMemory>
    requires bare { IsBare x.now }
    requires kind { index.kind ≡ Kind.I64 }
    requires index { IsOptionalIndex index (len x.now) }
    ensures spread { IfOk result (λ r. IsSpread x.now index.entry r.tags r.index r.contents) }
{
    match x.class() {
        Class::Union {
            tags,
            index: places,
            contents,
        } => spread_all(alloc, tags, places, contents, &index, arena, steps),
        Class::Empty => keep_one(alloc, x, index, arena),
        Class::Numpy { .. } => keep_one(alloc, x, index, arena),
        Class::List { .. } => keep_one(alloc, x, index, arena),
        Class::ListOffset { .. } => keep_one(alloc, x, index, arena),
        Class::Row { .. } => keep_one(alloc, x, index, arena),
        Class::Regular { .. } => keep_one(alloc, x, index, arena),
        _ => unreachable!(),
    }
}

/// The alternatives of the contents of a union, one after another.
#[cycle(spread)]
fn spread_all<'a, L: Ledger>(
    alloc: Global,
    tags: &Lane<'a>,
    index: &Lane<'a>,
    contents: &Nodes<'a>,
    places: &Lane<'a>,
    arena: &'a Arena,
    steps: &mut Steps<L>,
) -> Result<Spread<'a>, NoMemory>
    requires valid { IsValid (united tags.now index.now (layouts_from contents.now)) }
    requires places { IsOptionalIndex places.now (size_of tags.now) }
    ensures spread { let whole = united tags.now index.now (layouts_from contents.now) in
        IfOk result (λ r. IsSpread whole places.now r.tags r.index r.contents) }
{
    let mut made_tags = repeated(places.len(), Num::Int(0), arena)?;
    let mut made_index = repeated(places.len(), Num::Int(-1), arena)?;
    let mut made = Nodes::new(alloc);
    let mut a = 0;
    while a < contents.len() {
        let chosen = of_alternative(tags, index, contents, a as u64, places, arena, steps)?;
        let Spread {
            tags: new_tags,
            index: new_index,
            contents: new,
        } = alternatives(alloc, contents.get(a), chosen, arena, steps)?;
        let base = made.len() as u64;
        if base >= 1 << 62 {
            return Err(AllocError);
        }
        if new.len() >= 1 << 62 {
            return Err(AllocError);
        }
        let next_tags = join_tags(&made_tags, &new_tags, &new_index, base, arena, steps)?;
        let next_index = join_index(&made_index, &new_index, arena, steps)?;
        append(alloc, &mut made, &new)?;
        made_tags = next_tags;
        made_index = next_index;
        a += 1;
    }
    Ok(Spread {
        tags: made_tags,
        index: made_index,
        contents: made,
    })
}
