//! The items of a node at places.
ghost use Rattle.std.specs.Prelude.{◌≡◌, ◌+◌, ◌-◌, ◌<◌, ◌≤◌, ◌^◌, true, length, IfOk};
ghost use Rattle.awk_lanes.specs.declared.kind.Kind.TheVariants as Kind;
ghost use Rattle.awk_lanes.specs.Places.{size_of, IsIndex};
ghost use Rattle.awk_layout.specs.Layout.{layouts_from, is_rows, flat, lists, offset_lists};
ghost use Rattle.awk_layout.specs.Layout.{indexed as indexed_at, optional, byte_masked, bit_masked};
ghost use Rattle.awk_layout.specs.Layout.{unmasked};
ghost use Rattle.awk_layout.specs.Layout.{union as united};
ghost use Rattle.awk_layout.specs.Valid.{len, IsValid};
ghost use Rattle.awk_gather.specs.Arrays.{index_over};
ghost use Rattle.awk_gather.specs.Picked.{IsPicked};

use crate::alike::pick_alike;
use crate::follow::{follow_bits, follow_bytes};
use crate::rows::gather_rows;
use awk_bits::Bits;
use awk_gather_lanes::{block_lane, gather_lane, next_lane};
use awk_lanes::{Arena, Lane, NoMemory, Steps};
use awk_layout::{Class, Node, Nodes};
use std::alloc::{AllocError, Global};
use std::sync::ledger::Ledger;

#[tactic(auto, using(crate::proofs::PickedNodes::picks))]
fn pick_flat<'a, L: Ledger>(
    lane: &Lane<'a>,
    places: &Lane<'a>,
    arena: &'a Arena,
    steps: &mut Steps<L>,
) -> Result<Node<'a>, NoMemory>
    requires valid { IsValid (flat lane.now) }
    requires kind { places.now.kind ≡ Kind.I64 }
    requires small { size_of places.now < 2 ^ 63 }
    requires places { IsIndex places.now (len (flat lane.now)) }
    ensures node { IfOk result (IsPicked (flat lane.now) places.now) }
{
    let lane = gather_lane(lane, places, arena, steps)?;
    Ok(Node::numpy(lane, steps))
}

#[tactic(auto, using(crate::proofs::PickedNodes::picks))]
fn pick_lists<'a, L: Ledger>(
    alloc: Global,
    starts: &Lane<'a>,
    stops: &Lane<'a>,
    content: &Node<'a>,
    places: &Lane<'a>,
    arena: &'a Arena,
    steps: &mut Steps<L>,
) -> Result<Node<'a>, NoMemory>
    requires valid { IsValid (lists starts.now stops.now content.now) }
    requires kind { places.now.kind ≡ Kind.I64 }
    requires small { size_of places.now < 2 ^ 63 }
    requires places { IsIndex places.now (size_of starts.now) }
    ensures node { IfOk result (IsPicked (lists starts.now stops.now content.now) places.now) }
{
    let content = Box::new(alloc, content.copy(alloc)?)?;
    let starts = gather_lane(starts, places, arena, steps)?;
    let stops = gather_lane(stops, places, arena, steps)?;
    Ok(Node::list(starts, stops, content, steps))
}

#[tactic(auto, using(crate::proofs::PickedNodes::picks))]
fn pick_offsets<'a, L: Ledger>(
    alloc: Global,
    offsets: &Lane<'a>,
    content: &Node<'a>,
    places: &Lane<'a>,
    arena: &'a Arena,
    steps: &mut Steps<L>,
) -> Result<Node<'a>, NoMemory>
    requires valid { IsValid (offset_lists offsets.now content.now) }
    requires kind { places.now.kind ≡ Kind.I64 }
    requires small { size_of places.now < 2 ^ 63 }
    requires places { IsIndex places.now (size_of offsets.now - 1) }
    ensures node { IfOk result (IsPicked (offset_lists offsets.now content.now) places.now) }
{
    let content = Box::new(alloc, content.copy(alloc)?)?;
    let starts = gather_lane(offsets, places, arena, steps)?;
    let stops = next_lane(offsets, places, arena, steps)?;
    Ok(Node::list(starts, stops, content, steps))
}

#[tactic(auto, using(crate::proofs::PickedNodes::picks))]
fn pick_indexed<'a, L: Ledger>(
    alloc: Global,
    index: &Lane<'a>,
    content: &Node<'a>,
    places: &Lane<'a>,
    arena: &'a Arena,
    steps: &mut Steps<L>,
) -> Result<Node<'a>, NoMemory>
    requires valid { IsValid (indexed_at index.now content.now) }
    requires kind { places.now.kind ≡ Kind.I64 }
    requires small { size_of places.now < 2 ^ 63 }
    requires places { IsIndex places.now (size_of index.now) }
    ensures node { IfOk result (IsPicked (indexed_at index.now content.now) places.now) }
{
    let content = Box::new(alloc, content.copy(alloc)?)?;
    let index = gather_lane(index, places, arena, steps)?;
    Ok(Node::indexed(index, content, steps))
}

#[tactic(auto, using(crate::proofs::PickedNodes::picks))]
fn pick_optional<'a, L: Ledger>(
    alloc: Global,
    index: &Lane<'a>,
    content: &Node<'a>,
    places: &Lane<'a>,
    arena: &'a Arena,
    steps: &mut Steps<L>,
) -> Result<Node<'a>, NoMemory>
    requires valid { IsValid (optional index.now content.now) }
    requires kind { places.now.kind ≡ Kind.I64 }
    requires small { size_of places.now < 2 ^ 63 }
    requires places { IsIndex places.now (size_of index.now) }
    ensures node { IfOk result (IsPicked (optional index.now content.now) places.now) }
{
    let content = Box::new(alloc, content.copy(alloc)?)?;
    let index = gather_lane(index, places, arena, steps)?;
    Ok(Node::indexed_option(index, content, steps))
}

#[tactic(auto, using(crate::proofs::PickedNodes::picks))]
fn pick_bytes<'a, L: Ledger>(
    alloc: Global,
    mask: &Lane<'a>,
    valid_when: bool,
    content: &Node<'a>,
    places: &Lane<'a>,
    arena: &'a Arena,
    steps: &mut Steps<L>,
) -> Result<Node<'a>, NoMemory>
    requires valid { IsValid (byte_masked mask.now valid_when content.now) }
    requires kind { places.now.kind ≡ Kind.I64 }
    requires small { size_of places.now < 2 ^ 63 }
    requires places { IsIndex places.now (size_of mask.now) }
    ensures node { IfOk result (IsPicked (byte_masked mask.now valid_when content.now) places.now) }
{
    let content = Box::new(alloc, content.copy(alloc)?)?;
    let index = follow_bytes(mask, valid_when, places, arena, steps)?;
    Ok(Node::indexed_option(index, content, steps))
}

#[tactic(auto, using(crate::proofs::PickedNodes::picks))]
fn pick_bits<'a, L: Ledger>(
    alloc: Global,
    mask: &Bits<'a>,
    valid_when: bool,
    content: &Node<'a>,
    places: &Lane<'a>,
    arena: &'a Arena,
    steps: &mut Steps<L>,
) -> Result<Node<'a>, NoMemory>
    requires valid { IsValid (bit_masked mask.now valid_when content.now) }
    requires kind { places.now.kind ≡ Kind.I64 }
    requires small { size_of places.now < 2 ^ 63 }
    requires places { IsIndex places.now (length mask.now) }
    ensures node { IfOk result (IsPicked (bit_masked mask.now valid_when content.now) places.now) }
{
    let content = Box::new(alloc, content.copy(alloc)?)?;
    let index = follow_bits(mask, valid_when, places, arena, steps)?;
    Ok(Node::indexed_option(index, content, steps))
}

/// An item of an unmasked node is an item of its content, so the places are an index.
#[tactic(auto, using(crate::proofs::PickedNodes::picks))]
fn pick_unmasked<'a, L: Ledger>(
    alloc: Global,
    n: u64,
    content: &Node<'a>,
    places: &Lane<'a>,
    steps: &mut Steps<L>,
) -> Result<Node<'a>, NoMemory>
    requires valid { IsValid (unmasked n content.now) }
    requires kind { places.now.kind ≡ Kind.I64 }
    requires small { size_of places.now < 2 ^ 63 }
    requires places { IsIndex places.now n }
    ensures node { IfOk result (IsPicked (unmasked n content.now) places.now) }
{
    let content = Box::new(alloc, content.copy(alloc)?)?;
    Ok(Node::indexed_option(places.copy(), content, steps))
}

#[tactic(auto, using(crate::proofs::PickedNodes::picks))]
fn pick_union<'a, L: Ledger>(
    alloc: Global,
    tags: &Lane<'a>,
    index: &Lane<'a>,
    contents: &Nodes<'a>,
    places: &Lane<'a>,
    arena: &'a Arena,
    steps: &mut Steps<L>,
) -> Result<Node<'a>, NoMemory>
    requires valid { IsValid (united tags.now index.now (layouts_from contents.now)) }
    requires kind { places.now.kind ≡ Kind.I64 }
    requires small { size_of places.now < 2 ^ 63 }
    requires places { IsIndex places.now (size_of tags.now) }
    ensures node { let x = united tags.now index.now (layouts_from contents.now) in
        IfOk result (IsPicked x places.now) }
{
    let contents = contents.copy(alloc)?;
    let tags = gather_lane(tags, places, arena, steps)?;
    let index = gather_lane(index, places, arena, steps)?;
    Ok(Node::union(tags, index, contents, steps))
}

/// The items at places.
#[cycle(gather_node)]
#[tactic(auto, using(crate::proofs::PickedNodes::picks))]
pub fn gather_node<'a, L: Ledger>(
    alloc: Global,
    x: &Node<'a>,
    places: &Lane<'a>,
    arena: &'a Arena,
    steps: &mut Steps<L>,
) -> Result<Node<'a>, NoMemory>
    requires kind { places.now.kind ≡ Kind.I64 }
    requires places { IsIndex places.now (len x.now) }
    ensures node { IfOk result (IsPicked x.now places.now) }
{
    if places.len() >= 1 << 63 {
        return Err(AllocError);
    }
    match x.class() {
        Class::Empty => Ok(Node::empty(steps)),
        Class::Numpy { lane } => pick_flat(lane, places, arena, steps),
        Class::List {
            starts,
            stops,
            content,
        } => pick_lists(alloc, starts, stops, content, places, arena, steps),
        Class::ListOffset { offsets, content } => {
            pick_offsets(alloc, offsets, content, places, arena, steps)
        }
        Class::Row { .. } => gather_rows(alloc, x, places, arena, steps),
        Class::Indexed { index, content } => {
            pick_indexed(alloc, index, content, places, arena, steps)
        }
        Class::IndexedOption { index, content } => {
            pick_optional(alloc, index, content, places, arena, steps)
        }
        Class::ByteMasked {
            mask,
            valid_when,
            content,
        } => pick_bytes(alloc, mask, valid_when, content, places, arena, steps),
        Class::BitMasked {
            mask,
            valid_when,
            content,
        } => pick_bits(alloc, mask, valid_when, content, places, arena, steps),
        Class::Unmasked { content } => pick_unmasked(alloc, x.len(), content, places, steps),
        Class::Union {
            tags,
            index,
            contents,
        } => pick_union(alloc, tags, index, contents, places, arena, steps),
        Class::Regular { size, content } => {
            if let Some(alike) = pick_alike(alloc, size, x.len(), content, places, steps)? {
                return Ok(alike);
            }
            let inner = block_lane(size, places, arena, steps)?;
            let part = Box::new(alloc, gather_node(alloc, content, &inner, arena, steps)?)?;
            Ok(Node::regular(size, places.len(), part, steps))
        }
    }
}

/// Whether a node is a record.
pub fn is_record(x: &Node) -> bool
    ensures { result ≡ is_rows x.now }
{
    match x.class() {
        Class::Row { .. } => true,
        _ => false,
    }
}

/// The items at places of a whole array's node: of a record by an index alone.
pub fn gather_outer<'a, L: Ledger>(
    alloc: Global,
    x: &Node<'a>,
    places: &Lane<'a>,
    arena: &'a Arena,
    steps: &mut Steps<L>,
) -> Result<Node<'a>, NoMemory>
    requires kind { places.now.kind ≡ Kind.I64 }
    requires places { IsIndex places.now (len x.now) }
    ensures node { IfOk result (IsPicked x.now places.now) }
    ensures rows { is_rows x.now ≡ true →
        IfOk result (λ r. r ≡ indexed_at (index_over (len x.now) places.now) x.now) }
    ensures cost { is_rows x.now ≡ true → steps.new ≤ steps.old + (size_of places.now + 1) }
{
    if is_record(x) {
        if places.len() >= 1 << 63 {
            return Err(AllocError);
        }
        gather_rows(alloc, x, places, arena, steps)
    } else {
        gather_node(alloc, x, places, arena, steps)
    }
}
