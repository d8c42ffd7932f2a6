//! The lanes of a node, from the buffers under its keys.
ghost use Rattle.std.specs.Prelude.{◌≡◌, ◌+◌, ◌*◌, ◌/◌, ◌%◌, ◌≤◌, nat_le, length, Ok, Some, None};
ghost use Rattle.std.specs.Prelude.{if◌then◌else◌, true, IfOk, IsTrue};
ghost use Rattle.awk_types.specs.Gives.{Gives};
ghost use Rattle.awk_types.specs.ItemLimit.{item_limit};
ghost use Rattle.awk_lanes.specs.Numbers.{width};
ghost use Rattle.awk_bits.specs.Bits.{bits};
ghost use Rattle.awk_store.specs.Buffers.{buffer, held_len, unread_len};
ghost use Rattle.awk_valid.specs.Container.{column_at};
ghost use Rattle.awk_valid.specs.Loading.{told, lane_said, bits_said};

use crate::fault::{BufferFault, LoadFault, buffer_fault};
use crate::order::{turned, turned_into};
use awk_bits::Bits;
use awk_lanes::{Arena, Kind, Lane, NoMemory, Steps};
use awk_store::{BufferWhy, Store, StoreFault};
use std::alloc::Global;
use std::sync::ledger::Ledger;

/// How lanes are read: whether the most significant byte of each number comes first, and the arena
/// that such numbers are turned round into.
#[derive(Drop)]
pub struct Reader<'a> {
    pub alloc: Global,
    pub big: bool,
    pub arena: &'a Arena,
}

/// The numbers that the bytes are.
fn numbers_in<'a>(reader: &Reader<'a>, bytes: &'a [u8], kind: Kind) -> Result<Lane<'a>, NoMemory>
    requires { length bytes.now % width kind ≡ 0 }
    ensures { IfOk result (λ lane. lane ≡
        column_at reader.now.big kind (length bytes.now / width kind) bytes.now) }
{
    if reader.big {
        return Ok(Lane::new(kind, turned(bytes, kind, reader.arena)?));
    }
    Ok(Lane::new(kind, bytes))
}

/// The first n numbers that the bytes are, if there are as many.
fn first_numbers<'a>(
    reader: &Reader<'a>,
    bytes: &'a [u8],
    kind: Kind,
    n: u64,
) -> Result<Option<Lane<'a>>, NoMemory>
    requires few { n ≤ item_limit + 1 }
    ensures { IfOk result (λ lane. lane ≡ (if nat_le (n * width kind) (length bytes.now) then Some
        (column_at reader.now.big kind n bytes.now) else None)) }
{
    let size = n as usize * kind.width();
    if bytes.len() < size {
        return Ok(None);
    }
    Ok(Some(numbers_in(reader, &bytes[..size], kind)?))
}

/// The numbers that bytes outside the arena are, most significant byte first, turned round into it.
fn numbers_turned<'a>(bytes: &[u8], kind: Kind, arena: &'a Arena) -> Result<Lane<'a>, NoMemory>
    requires { length bytes.now % width kind ≡ 0 }
    ensures { IfOk result (λ lane. lane ≡
        column_at true kind (length bytes.now / width kind) bytes.now) }
{
    Ok(Lane::new(kind, turned_into(bytes, kind, arena)?))
}

/// The first n of them, if there are as many.
fn first_turned<'a>(
    bytes: &[u8],
    kind: Kind,
    n: u64,
    arena: &'a Arena,
) -> Result<Option<Lane<'a>>, NoMemory>
    requires few { n ≤ item_limit + 1 }
    ensures { IfOk result (λ lane. lane ≡ (if nat_le (n * width kind) (length bytes.now) then Some
        (column_at true kind n bytes.now) else None)) }
{
    let size = n as usize * kind.width();
    if bytes.len() < size {
        return Ok(None);
    }
    Ok(Some(numbers_turned(&bytes[..size], kind, arena)?))
}

/// The same as the numbers of the buffer under a key.
fn turned_lane<'a>(
    reader: &Reader<'a>,
    key: &str,
    bytes: &[u8],
    kind: Kind,
    n: u64,
) -> Result<Lane<'a>, LoadFault>
    requires few { n ≤ item_limit + 1 }
    requires big { IsTrue reader.now.big }
    ensures answer { Gives (λ lane. lane) told result (lane_said reader.now.big key.now kind n
        (Ok bytes.now)) }
    ensures short { IfOk result (λ _. n ≤ length bytes.now) }
{
    match first_turned(bytes, kind, n, reader.arena)? {
        Some(lane) => Ok(lane),
        None => Err(buffer_fault(reader.alloc, key, BufferFault::Short)),
    }
}

/// The first n numbers of a kind in the buffer under a key. Further bytes are not looked at.
pub(crate) fn lane_at<'a, L: Ledger>(
    reader: &Reader<'a>,
    store: &mut Store<'_, 'a>,
    key: &str,
    kind: Kind,
    n: u64,
    steps: &mut Steps<L>,
) -> Result<Lane<'a>, LoadFault>
    requires few { n ≤ item_limit + 1 }
    // The numbers, or exactly what is wrong with the buffer, or want of memory.
    ensures answer { Gives (λ lane. lane) told result (lane_said reader.now.big
        key.now kind n (buffer store.old.held key.now)) }
    // A number has a byte at least, and a text is no shorter than the bytes that it encodes.
    ensures short { IfOk result (λ _. n ≤ held_len store.old.held) }
    ensures held { store.new.held ≡ store.old.held }
    ensures cost { steps.new ≤ steps.old + unread_len store.old key.now }
{
    if reader.big {
        // What is turned round need not be copied before.
        if let Some(bytes) = store.added(key) {
            return turned_lane(reader, key, bytes, kind, n);
        }
    }
    match store.fetch(key, steps) {
        Ok(bytes) => match first_numbers(reader, bytes, kind, n)? {
            Some(lane) => Ok(lane),
            None => Err(buffer_fault(reader.alloc, key, BufferFault::Short)),
        },
        Err(StoreFault::Bad(BufferWhy::Absent)) => Err(buffer_fault(
            reader.alloc,
            key,
            BufferFault::Absent,
        )),
        Err(StoreFault::Bad(BufferWhy::Base64)) => Err(buffer_fault(
            reader.alloc,
            key,
            BufferFault::Base64,
        )),
        Err(StoreFault::NoMemory) => Err(LoadFault::NoMemory),
    }
}

/// The first n bits, if the bytes have as many.
fn first_bits(bytes: &[u8], lsb_order: bool, n: u64) -> Option<Bits<'_>>
    requires few { n ≤ item_limit }
    ensures { result ≡ (if nat_le ((n + 7) / 8) (length bytes.now) then Some (bits lsb_order
        bytes.now 0 n) else None) }
{
    if bytes.len() < (n as usize + 7) / 8 {
        return None;
    }
    Some(Bits::new(bytes, 0, n, lsb_order))
}

/// The first n bits of the buffer under a key. Further bytes are not looked at.
pub(crate) fn bits_at<'a, L: Ledger>(
    alloc: Global,
    store: &mut Store<'_, 'a>,
    key: &str,
    lsb_order: bool,
    n: u64,
    steps: &mut Steps<L>,
) -> Result<Bits<'a>, LoadFault>
    requires few { n ≤ item_limit }
    // The bits, or exactly what is wrong with the buffer, or want of memory.
    ensures answer { Gives (λ mask. mask) told result (bits_said key.now lsb_order n (buffer
        store.old.held key.now)) }
    ensures held { store.new.held ≡ store.old.held }
    ensures cost { steps.new ≤ steps.old + unread_len store.old key.now }
{
    match store.fetch(key, steps) {
        Ok(bytes) => match first_bits(bytes, lsb_order, n) {
            Some(mask) => Ok(mask),
            None => Err(buffer_fault(alloc, key, BufferFault::Short)),
        },
        Err(StoreFault::Bad(BufferWhy::Absent)) => Err(buffer_fault(
            alloc,
            key,
            BufferFault::Absent,
        )),
        Err(StoreFault::Bad(BufferWhy::Base64)) => Err(buffer_fault(
            alloc,
            key,
            BufferFault::Base64,
        )),
        Err(StoreFault::NoMemory) => Err(LoadFault::NoMemory),
    }
}
