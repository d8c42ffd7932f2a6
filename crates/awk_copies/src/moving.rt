//! The same columns over bytes of their own, in another arena.
ghost use Rattle.std.specs.Prelude.{◌≡◌, ◌+◌, ◌<◌, ◌^◌, length, get_or, false, IfOk};
ghost use Rattle.awk_copies.specs.Moved.{one_if, eight};

use awk_bits::Bits;
use awk_lanes::{Arena, Lane, Steps};
use awk_layout::{Array, Class, Node, Nodes};
use awk_types::{NoMemory, copy_names, copy_type};
use bumpalo::collections::into_bump_slice;
use std::alloc::Global;
use std::sync::ledger::Ledger;

/// The same numbers.
fn lane_in<'a, L: Ledger>(
    lane: &Lane,
    arena: &'a Arena,
    steps: &mut Steps<L>,
) -> Result<Lane<'a>, NoMemory>
    ensures { IfOk result (λ r. r ≡ lane.now) }
{
    let bytes = lane.bulk(arena, steps)?;
    let mut copied = Vec::with_capacity(arena, bytes.len())?;
    copied.extend_from_slice(bytes)?;
    Ok(Lane::new(lane.kind(), into_bump_slice(copied)))
}

/// 1 where the bit at a place is set, and 0 past the end.
fn one_if<L: Ledger>(bits: &Bits, i: u64, steps: &mut Steps<L>) -> u8
    ensures { result ≡ one_if (get_or bits.now i false) }
{
    if i < bits.len() && bits.at(i, steps) {
        1
    } else {
        0
    }
}

/// Eight bits in a byte, the most significant first.
fn eight<L: Ledger>(bits: &Bits, first: u64, steps: &mut Steps<L>) -> u8
    requires { first < 2 ^ 63 + 1 }
    ensures { result ≡ eight bits.now first }
{
    let high = 8 * one_if(bits, first, steps)
        + 4 * one_if(bits, first + 1, steps)
        + 2 * one_if(bits, first + 2, steps)
        + one_if(bits, first + 3, steps);
    let low = 8 * one_if(bits, first + 4, steps)
        + 4 * one_if(bits, first + 5, steps)
        + 2 * one_if(bits, first + 6, steps)
        + one_if(bits, first + 7, steps);
    16 * high + low
}

/// The same bits.
fn bits_in<'a, L: Ledger>(
    bits: &Bits,
    arena: &'a Arena,
    steps: &mut Steps<L>,
) -> Result<Bits<'a>, NoMemory>
    requires { length bits.now < 2 ^ 63 }
    ensures { IfOk result (λ r. r ≡ bits.now) }
{
    let length = bits.len();
    let n = length / 8 + 1;
    let mut copied = Vec::with_capacity(arena, n as usize)?;
    for k in 0..n {
        copied.push(eight(bits, 8 * k, steps))?;
    }
    Ok(Bits::new(into_bump_slice(copied), 0, length, false))
}

/// The same node.
#[cycle(moving)]
fn node_in<'a, L: Ledger>(
    alloc: Global,
    x: &Node,
    arena: &'a Arena,
    steps: &mut Steps<L>,
) -> Result<Node<'a>, NoMemory>
    ensures { IfOk result (λ r. r ≡ x.now) }
{
    match x.class() {
        Class::Empty => Ok(Node::empty(steps)),
        Class::Numpy { lane } => Ok(Node::numpy(lane_in(lane, arena, steps)?, steps)),
        Class::Regular { size, content } => {
            let content = boxed_in(alloc, content, arena, steps)?;
            Ok(Node::regular(size, x.len(), content, steps))
        }
        Class::List {
            starts,
            stops,
            content,
        } => {
            let starts = lane_in(starts, arena, steps)?;
            let stops = lane_in(stops, arena, steps)?;
            let content = boxed_in(alloc, content, arena, steps)?;
            Ok(Node::list(starts, stops, content, steps))
        }
        Class::ListOffset { offsets, content } => {
            let offsets = lane_in(offsets, arena, steps)?;
            let content = boxed_in(alloc, content, arena, steps)?;
            Ok(Node::list_offset(offsets, content, steps))
        }
        Class::Row { names, contents } => {
            let names = copy_names(alloc, names)?;
            let contents = nodes_in(alloc, contents, arena, steps)?;
            Ok(Node::row(names, x.len(), contents, steps))
        }
        Class::Indexed { index, content } => {
            let index = lane_in(index, arena, steps)?;
            let content = boxed_in(alloc, content, arena, steps)?;
            Ok(Node::indexed(index, content, steps))
        }
        Class::IndexedOption { index, content } => {
            let index = lane_in(index, arena, steps)?;
            let content = boxed_in(alloc, content, arena, steps)?;
            Ok(Node::indexed_option(index, content, steps))
        }
        Class::ByteMasked {
            mask,
            valid_when,
            content,
        } => {
            let mask = lane_in(mask, arena, steps)?;
            let content = boxed_in(alloc, content, arena, steps)?;
            Ok(Node::byte_masked(mask, valid_when, content, steps))
        }
        Class::BitMasked {
            mask,
            valid_when,
            content,
        } => {
            let mask = bits_in(mask, arena, steps)?;
            let content = boxed_in(alloc, content, arena, steps)?;
            Ok(Node::bit_masked(mask, valid_when, content, steps))
        }
        Class::Unmasked { content } => {
            let content = boxed_in(alloc, content, arena, steps)?;
            Ok(Node::unmasked(content, x.len(), steps))
        }
        Class::Union {
            tags,
            index,
            contents,
        } => {
            let tags = lane_in(tags, arena, steps)?;
            let index = lane_in(index, arena, steps)?;
            let contents = nodes_in(alloc, contents, arena, steps)?;
            Ok(Node::union(tags, index, contents, steps))
        }
    }
}

/// The same node in a box.
#[cycle(moving)]
fn boxed_in<'a, L: Ledger>(
    alloc: Global,
    x: &Node,
    arena: &'a Arena,
    steps: &mut Steps<L>,
) -> Result<Box<Node<'a>>, NoMemory>
    ensures { IfOk result (λ r. r.value ≡ x.now) }
{
    Ok(Box::new(alloc, node_in(alloc, x, arena, steps)?)?)
}

/// The same nodes.
#[cycle(moving)]
#[tactic(auto, using(awk_layout::proofs::ContentTypes::contents))]
fn nodes_in<'a, L: Ledger>(
    alloc: Global,
    xs: &Nodes,
    arena: &'a Arena,
    steps: &mut Steps<L>,
) -> Result<Nodes<'a>, NoMemory>
    ensures { IfOk result (λ r. r ≡ xs.now) }
{
    let mut made = Nodes::new(alloc);
    for i in 0..xs.len() {
        made.push(node_in(alloc, xs.get(i), arena, steps)?)?;
    }
    Ok(made)
}

/// The same array.
pub fn array_in<'a, L: Ledger>(
    alloc: Global,
    x: &Array,
    arena: &'a Arena,
    steps: &mut Steps<L>,
) -> Result<Array<'a>, NoMemory>
    ensures { IfOk result (λ r. r ≡ x.now) }
{
    let typ = copy_type(alloc, x.typ())?;
    let node = node_in(alloc, x.node(), arena, steps)?;
    Ok(Array::with_type(node, typ))
}
