//! Indexes of unions that count up, and the places of the items of each alternative.
ghost use Rattle.std.specs.Prelude.{◌≡◌, ℕ, ◌+◌, ◌<◌, ◌^◌, length, map, pos, slice_index_or};
ghost use Rattle.std.specs.Prelude.{slice_set, IfOk};
ghost use Rattle.awk_lanes.specs.Making.{with_item};
ghost use Rattle.awk_lanes.specs.Places.{size_of, place_at};
ghost use Rattle.awk_lanes.specs.declared.kind.Kind.TheVariants as Kinds;
ghost use Rattle.awk_counts.specs.Counted.{counted_tags, tag_counts, tagged_lanes, AreTagged};
ghost use Rattle.awk_counts.specs.Counted.{begun, made_at, lane_made};

use awk_lanes::{Arena, IndexMaker, Lane, Lanes, NoMemory, Steps, number, place_in, tag_in};
use std::alloc::Global;
use std::sync::ledger::Ledger;

/// The index of a union that counts up, and how many items are of each alternative.
#[derive(Drop)]
pub struct CountedUnion<'a> {
    pub index: Lane<'a>,
    pub counts: Vec<u64>,
}

/// Counts one more item of an alternative, and tells how many there were.
fn count_one(counts: &mut Vec<u64>, tag: usize) -> u64
    requires within { tag < length counts.old.items }
    requires fits { slice_index_or counts.old.items tag 0 + 1 < 2 ^ 64 }
    ensures count { result ≡ slice_index_or counts.old.items tag 0 }
    ensures counts { counts.new.items ≡ slice_set counts.old.items tag (result + 1) }
{
    let count = counts[tag];
    counts[tag] = count + 1;
    count
}

/// The index of a union over the items of each alternative alone: it counts up for each.
#[tactic(auto, using(awk_lanes::proofs::MadeLanes::making))]
pub fn counted_union<'a, L: Ledger>(
    alloc: Global,
    tags: &Lane,
    index: &Lane,
    alternatives: usize,
    arena: &'a Arena,
    steps: &mut Steps<L>,
) -> Result<CountedUnion<'a>, NoMemory>
    requires tagged { AreTagged tags.now index.now }
    requires small { size_of tags.now < 2 ^ 63 }
    requires below { (i : ℕ) → i < size_of tags.now → place_at tags.now i < alternatives }
    ensures index { IfOk result (λ r. r.index ≡ counted_tags tags.now index.now) }
    ensures counts { let counts = tag_counts tags.now index.now alternatives in
        IfOk result (λ r. r.counts.items ≡ counts) }
{
    let n = tags.len();
    let mut counts = vec![in alloc; 0u64; alternatives]?;
    let mut maker = IndexMaker::new(n, arena)?;
    for i in 0..n {
        let tag = tag_in(tags, i, steps) as usize;
        let count = count_one(&mut counts, tag);
        maker.push(number(count));
    }
    Ok(CountedUnion {
        index: maker.finish(),
        counts,
    })
}

/// Begins a lane of places for each of these sizes.
fn makers_of<'a>(
    alloc: Global,
    sizes: &[u64],
    arena: &'a Arena,
) -> Result<Vec<IndexMaker<'a>>, NoMemory>
    ensures { IfOk result (λ v. v.items ≡ map begun sizes.now) }
{
    let mut makers = Vec::new(alloc);
    for n in sizes {
        makers.push(IndexMaker::new(*n, arena)?)?;
    }
    Ok(makers)
}

/// Puts a place behind those of an alternative.
fn push_place(makers: &mut Vec<IndexMaker>, tag: usize, place: u64)
    requires within { tag < length makers.old.items }
    requires kind { (made_at makers.old.items tag).kind ≡ Kinds.I64 }
    requires room { let m = made_at makers.old.items tag in length m.items < m.room }
    requires small { place < 2 ^ 63 }
    ensures { let old = makers.old.items in
        makers.new.items ≡ slice_set old tag (with_item (made_at old tag) (pos place)) }
{
    makers[tag].push(number(place));
}

/// The lanes of the places pushed.
fn finished<'a>(alloc: Global, makers: Vec<IndexMaker<'a>>) -> Result<Lanes<'a>, NoMemory>
    ensures { IfOk result (λ r. r ≡ map lane_made makers.entry.items) }
{
    let mut lanes = Lanes::new(alloc);
    for maker in makers {
        lanes.push(maker.finish())?;
    }
    Ok(lanes)
}

/// The places of the items of each alternative, by how many there are of each. All are parted in
/// one pass.
pub fn tagged_lanes<'a, L: Ledger>(
    alloc: Global,
    tags: &Lane,
    index: &Lane,
    counts: &[u64],
    arena: &'a Arena,
    steps: &mut Steps<L>,
) -> Result<Lanes<'a>, NoMemory>
    requires tagged { AreTagged tags.now index.now }
    requires below { (i : ℕ) → i < size_of tags.now → place_at tags.now i < length counts.now }
    requires counts { counts.now ≡ tag_counts tags.now index.now (length counts.now) }
    ensures { IfOk result (λ r. r ≡ tagged_lanes tags.now index.now (length counts.now)) }
{
    let mut makers = makers_of(alloc, counts, arena)?;
    for i in 0..tags.len() {
        let tag = tag_in(tags, i, steps) as usize;
        push_place(&mut makers, tag, place_in(index, i, steps));
    }
    finished(alloc, makers)
}
