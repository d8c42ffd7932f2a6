//! The first option or index of a node is that of all its items: no lane of all places is made.
ghost use Rattle.std.specs.Prelude.{◌≡◌, ◌<◌, ◌^◌, pos, IfOk};
ghost use Rattle.awk_lanes.specs.Places.{size_of, at, IsIndexKind, IsOptionalIndex};
ghost use Rattle.awk_lanes.specs.Made.{lane_of};
ghost use Rattle.awk_lanes.specs.declared.kind.Kind.TheVariants as Kinds;
ghost use Rattle.awk_layout.specs.Valid.{len};
ghost use Rattle.awk_gather.specs.Peeled.{IsPeeled, byte_index};

use crate::masks::mask_index;
use awk_gather::{Peeled, peel};
use awk_lanes::{Arena, Kind, Lane, Num, Numbers, Steps, index_at, made_lane, ordinals};
use awk_layout::{Class, Node};
use awk_narrow::OptionIndex;
use awk_types::NoMemory;
use std::alloc::Global;
use std::sync::ledger::Ledger;

/// The numbers of a lane.
#[derive(Drop)]
struct NumbersOf<'b, 'a> {
    lane: &'b Lane<'a>,
}

impl<'b, 'a> Numbers for NumbersOf<'b, 'a> {
    ghost use Rattle.awk_lanes.specs.declared.kind.Kind.TheVariants as Kinds;
    ghost use Rattle.awk_lanes.specs.Places.{size_of, at, IsIndexKind};

    ghost kind = { λ _. Kinds.I64 };

    ghost at = { λ x. at x.lane.now };

    ghost size = { λ x. size_of x.lane.now };

    ghost IsReady = { λ x. IsIndexKind x.lane.now.kind };

    fn number<L: Ledger>(&self, i: u64, steps: &mut Steps<L>) -> Num {
        Num::Int(index_at(self.lane, i, steps))
    }
}

/// The numbers of a lane in 64 bits. Those that are so already are not moved.
#[tactic(auto, using(crate::proofs::FirstIndexes::wide))]
fn widened<'a, L: Ledger>(
    lane: &Lane<'a>,
    arena: &'a Arena,
    steps: &mut Steps<L>,
) -> Result<Lane<'a>, NoMemory>
    requires { IsIndexKind lane.now.kind }
    ensures lane { IfOk result (λ r. r ≡ lane_of Kinds.I64 (size_of lane.now) (at lane.now)) }
{
    if lane.kind() == Kind::I64 {
        return Ok(lane.copy());
    }
    made_lane(Kind::I64, lane.len(), &NumbersOf { lane }, arena, steps)
}

/// Options and indexes are taken off what a lane of places lies over.
fn peel_index<'a, L: Ledger>(
    alloc: Global,
    lane: &Lane<'a>,
    content: &Node<'a>,
    arena: &'a Arena,
    steps: &mut Steps<L>,
) -> Result<Peeled<'a>, NoMemory>
    requires kind { IsIndexKind lane.now.kind }
    requires index { let wide = lane_of Kinds.I64 (size_of lane.now) (at lane.now) in
        IsOptionalIndex wide (len content.now) }
    ensures peeled { let wide = lane_of Kinds.I64 (size_of lane.now) (at lane.now) in
        IfOk result (λ r. IsPeeled content.now wide r.index r.content) }
{
    let index = widened(lane, arena, steps)?;
    peel(alloc, content, index, arena, steps)
}

/// Options and indexes are taken off what a mask of bytes lies over.
fn peel_mask<'a, L: Ledger>(
    alloc: Global,
    mask: &Lane<'a>,
    valid_when: bool,
    content: &Node<'a>,
    arena: &'a Arena,
    steps: &mut Steps<L>,
) -> Result<Peeled<'a>, NoMemory>
    requires mask { mask.now.kind ≡ Kinds.I8 }
    requires small { size_of mask.now < 2 ^ 63 }
    requires index { let there = byte_index mask.now valid_when in
        IsOptionalIndex (lane_of Kinds.I64 (size_of mask.now) there) (len content.now) }
    ensures peeled { let there = byte_index mask.now valid_when in
        let index = lane_of Kinds.I64 (size_of mask.now) there in
        IfOk result (λ r. IsPeeled content.now index r.index r.content) }
{
    let places = mask_index(mask, valid_when, steps);
    let index = made_lane(Kind::I64, places.size(), &places, arena, steps)?;
    peel(alloc, content, index, arena, steps)
}

/// Options and indexes are taken off a node, from a lane of all its places on.
fn peel_firsts<'a, L: Ledger>(
    alloc: Global,
    x: &Node<'a>,
    arena: &'a Arena,
    steps: &mut Steps<L>,
) -> Result<Peeled<'a>, NoMemory>
    ensures peeled { let all = lane_of Kinds.I64 (len x.now) pos in
        IfOk result (λ r. IsPeeled x.now all r.index r.content) }
{
    let index = ordinals(x.len(), arena, steps)?;
    peel(alloc, x, index, arena, steps)
}

/// What is left of a whole node when options and indexes are taken off, and where each item lies.
pub fn peel_whole<'a, L: Ledger>(
    alloc: Global,
    x: &Node<'a>,
    arena: &'a Arena,
    steps: &mut Steps<L>,
) -> Result<Peeled<'a>, NoMemory>
    ensures peeled { let all = lane_of Kinds.I64 (len x.now) pos in
        IfOk result (λ r. IsPeeled x.now all r.index r.content) }
{
    match x.class() {
        Class::Indexed { index, content } => peel_index(alloc, index, content, arena, steps),
        Class::IndexedOption { index, content } => peel_index(alloc, index, content, arena, steps),
        Class::ByteMasked {
            mask,
            valid_when,
            content,
        } => peel_mask(alloc, mask, valid_when, content, arena, steps),
        _ => peel_firsts(alloc, x, arena, steps),
    }
}
