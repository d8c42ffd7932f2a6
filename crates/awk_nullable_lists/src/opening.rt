//! Arrays of leaves of which some may be null, as a lane and a way there.
ghost use Rattle.std.specs.Prelude.{◌≡◌, true, IfOk, IfSome};
ghost use Rattle.awk_types.specs.Predicates.{is_leaf};
ghost use Rattle.awk_types.specs.Simple.{present, is_option};
ghost use Rattle.awk_layout.specs.Layout.{flat, optional, byte_masked, bit_masked, unmasked};
ghost use Rattle.awk_layout.specs.Typing.{array_type};
ghost use Rattle.awk_layout.specs.Valid.{IsValid};
ghost use Rattle.awk_nullable_lists.specs.Nullable.{IsNullable};

use awk_bits::Bits;
use awk_index::{Index, index_of};
use awk_lanes::{Arena, Kind, Lane, Steps};
use awk_layout::{Array, Class, Node};
use awk_narrow::{NarrowIndex, narrow_index};
use awk_nullable::{BitMask, ByteMask, Every};
use awk_open::{Opened, opened};
use awk_present::leaves_of;
use awk_types::NoMemory;
use std::alloc::Global;
use std::sync::ledger::Ledger;

/// Leaves of which some may be null: their numbers, and where that of each lies.
#[derive(Drop)]
pub enum Nullable<'a> {
    Indexed {
        index: Index<'a>,
        lane: Lane<'a>,
    },
    Narrow {
        index: NarrowIndex<'a>,
        lane: Lane<'a>,
    },
    Bytes {
        mask: ByteMask<'a>,
        lane: Lane<'a>,
    },
    Bits {
        mask: BitMask<'a>,
        lane: Lane<'a>,
    },
    Unmasked {
        every: Every,
        lane: Lane<'a>,
    },
}

/// The lane of a node of numbers.
fn lane_in<'a>(content: &Node<'a>) -> Option<Lane<'a>>
    ensures { IfSome result (λ c. content.now ≡ flat c) }
{
    match content.class() {
        Class::Numpy { lane } => Some(lane.copy()),
        _ => None,
    }
}

/// By the index of an option. One of 32 bits is read where it lies.
fn by_index<'a, L: Ledger>(
    alloc: Global,
    index: &Lane<'a>,
    content: &Node<'a>,
    arena: &'a Arena,
    steps: &mut Steps<L>,
) -> Result<Option<Nullable<'a>>, NoMemory>
    requires { IsValid (optional index.now content.now) }
    ensures { IfOk result (λ o. IfSome o (IsNullable (optional index.now content.now))) }
{
    match lane_in(content) {
        Some(lane) => {
            if index.kind() == Kind::I32 {
                let index = narrow_index(index, steps);
                return Ok(Some(Nullable::Narrow { index, lane }));
            }
            let index = index_of(alloc, index, arena, steps)?;
            Ok(Some(Nullable::Indexed { index, lane }))
        }
        None => Ok(None),
    }
}

/// By the bytes of a mask.
fn by_bytes<'a, L: Ledger>(
    mask: &Lane<'a>,
    valid_when: bool,
    content: &Node<'a>,
    steps: &mut Steps<L>,
) -> Option<Nullable<'a>>
    requires { IsValid (byte_masked mask.now valid_when content.now) }
    ensures { IfSome result (IsNullable (byte_masked mask.now valid_when content.now)) }
{
    match lane_in(content) {
        Some(lane) => {
            let (bytes, _) = mask.narrow_bytes(steps).as_chunks::<1>();
            let mask = ByteMask { bytes, valid_when };
            Some(Nullable::Bytes { mask, lane })
        }
        None => None,
    }
}

/// By the bits of a mask.
fn by_bits<'a>(mask: &Bits<'a>, valid_when: bool, content: &Node<'a>) -> Option<Nullable<'a>>
    requires { IsValid (bit_masked mask.now valid_when content.now) }
    ensures { IfSome result (IsNullable (bit_masked mask.now valid_when content.now)) }
{
    match lane_in(content) {
        Some(lane) => {
            let bits = mask.copy();
            let mask = BitMask { bits, valid_when };
            Some(Nullable::Bits { mask, lane })
        }
        None => None,
    }
}

/// None of so many items is null.
fn by_none<'a>(count: u64, content: &Node<'a>) -> Option<Nullable<'a>>
    requires { IsValid (unmasked count content.now) }
    ensures { IfSome result (IsNullable (unmasked count content.now)) }
{
    match lane_in(content) {
        Some(lane) => Some(Nullable::Unmasked {
            every: Every { count },
            lane,
        }),
        None => None,
    }
}

/// An option of numbers that lie in a lane, as it lies.
fn as_it_lies<'a, L: Ledger>(
    alloc: Global,
    x: &Node<'a>,
    arena: &'a Arena,
    steps: &mut Steps<L>,
) -> Result<Option<Nullable<'a>>, NoMemory>
    ensures { IfOk result (λ o. IfSome o (IsNullable x.now)) }
{
    let count = x.len();
    match x.class() {
        Class::IndexedOption { index, content } => by_index(alloc, index, content, arena, steps),
        Class::ByteMasked {
            mask,
            valid_when,
            content,
        } => Ok(by_bytes(mask, valid_when, content, steps)),
        Class::BitMasked {
            mask,
            valid_when,
            content,
        } => Ok(by_bits(mask, valid_when, content)),
        Class::Unmasked { content } => Ok(by_none(count, content)),
        _ => Ok(None),
    }
}

/// Any option of leaves, by an index.
fn opened_leaves<'a, L: Ledger>(
    alloc: Global,
    x: &Array<'a>,
    arena: &'a Arena,
    steps: &mut Steps<L>,
) -> Result<Nullable<'a>, NoMemory>
    requires optional { is_option (array_type x.now) ≡ true }
    requires leaves { is_leaf (present (array_type x.now)) ≡ true }
    ensures { IfOk result (IsNullable x.now) }
{
    match opened(alloc, x, arena, steps)? {
        Opened::Option { index, content } => {
            let lane = leaves_of(alloc, &content, arena, steps)?;
            let index = index_of(alloc, &index, arena, steps)?;
            Ok(Nullable::Indexed { index, lane })
        }
        _ => unreachable!(),
    }
}

/// Leaves of which some may be null, as a lane and a way there. No lane is made of numbers that
/// lie in one.
pub fn nullable_of<'a, L: Ledger>(
    alloc: Global,
    x: &Array<'a>,
    arena: &'a Arena,
    steps: &mut Steps<L>,
) -> Result<Nullable<'a>, NoMemory>
    requires optional { is_option (array_type x.now) ≡ true }
    requires leaves { is_leaf (present (array_type x.now)) ≡ true }
    ensures { IfOk result (IsNullable x.now) }
{
    match as_it_lies(alloc, x.node(), arena, steps)? {
        Some(leaves) => Ok(leaves),
        None => opened_leaves(alloc, x, arena, steps),
    }
}
