//! The buffers of a node as lanes, and its sizes.
ghost use Rattle.std.specs.Prelude.{◌≡◌, ◌+◌, ◌*◌, ◌/◌, ◌≤◌, IfOk};
ghost use Rattle.awk_types.specs.Gives.{Gives, refused_or};
ghost use Rattle.awk_types.specs.ItemLimit.{item_limit};
ghost use Rattle.awk_bits.specs.Bits.{bits};
ghost use Rattle.awk_lanes.specs.Numbers.{width};
ghost use Rattle.awk_store.specs.Buffers.{buffer, held_len};
ghost use Rattle.awk_form.specs.Told.{unit};
ghost use Rattle.awk_valid.specs.Container as container;
ghost use Rattle.awk_valid.specs.Container.{container_of, bytes_at, index_at, int8s_at};
ghost use Rattle.awk_valid.specs.Container.{kind_of_index};
ghost use Rattle.awk_valid.specs.Broken.{size_break, bytes_break};
ghost use Rattle.awk_valid.specs.Loading.{told, judged};

use crate::fault::LoadFault;
use crate::keys::buffer_key;
use crate::lanes::{Reader, bits_at, lane_at};
use awk_bits::Bits;
use awk_form::IndexKind;
use awk_lanes::{Kind, Lane, Steps};
use awk_store::Store;
use awk_types::{ITEM_LIMIT, Name};
use std::sync::ledger::Ledger;

/// Refuses a node of too many items.
pub(crate) fn judged_size(n: u64) -> Result<(), LoadFault>
    ensures { Gives unit told result (judged (size_break n)) }
{
    if n > ITEM_LIMIT {
        return Err(LoadFault::Size);
    }
    Ok(())
}

/// The kind of an index's numbers.
fn kind_of_index(kind: IndexKind) -> Kind
    ensures { result ≡ kind_of_index kind }
{
    match kind {
        IndexKind::I32 => Kind::I32,
        IndexKind::U32 => Kind::U32,
        IndexKind::I64 => Kind::I64,
    }
}

/// n numbers of an index, of starts, stops or offsets.
pub(crate) fn index_lane<'a, L: Ledger>(
    reader: &Reader<'a>,
    store: &mut Store<'_, 'a>,
    key: &Option<Name>,
    attribute: &str,
    kind: IndexKind,
    n: u64,
    steps: &mut Steps<L>,
) -> Result<Lane<'a>, LoadFault>
    requires few { n ≤ item_limit + 1 }
    ensures answer { Gives (λ lane. lane) told result (refused_or
        (bytes_break (container.buffer_key key.now attribute.now) (n * width (kind_of_index kind))
        (buffer store.old.held (container.buffer_key key.now attribute.now)))
        (index_at (container_of reader.now.big store.old.held) key.now attribute.now kind n)) }
    ensures short { IfOk result (λ _. n ≤ held_len store.old.held) }
    ensures held { store.new.held ≡ store.old.held }
    ensures cost { steps.new ≤ steps.old + held_len store.old.held }
{
    let key = buffer_key(reader.alloc, key, attribute)?;
    lane_at(reader, store, &key, kind_of_index(kind), n, steps)
}

/// n tags, or n bytes of a mask.
pub(crate) fn int8_lane<'a, L: Ledger>(
    reader: &Reader<'a>,
    store: &mut Store<'_, 'a>,
    key: &Option<Name>,
    attribute: &str,
    n: u64,
    steps: &mut Steps<L>,
) -> Result<Lane<'a>, LoadFault>
    requires few { n ≤ item_limit }
    ensures answer { Gives (λ lane. lane) told result (refused_or
        (bytes_break (container.buffer_key key.now attribute.now) n
        (buffer store.old.held (container.buffer_key key.now attribute.now)))
        (int8s_at (container_of reader.now.big store.old.held) key.now attribute.now n)) }
    ensures short { IfOk result (λ _. n ≤ held_len store.old.held) }
    ensures held { store.new.held ≡ store.old.held }
    ensures cost { steps.new ≤ steps.old + held_len store.old.held }
{
    let key = buffer_key(reader.alloc, key, attribute)?;
    lane_at(reader, store, &key, Kind::I8, n, steps)
}

/// n bits of a mask.
pub(crate) fn mask_bits<'a, L: Ledger>(
    reader: &Reader<'a>,
    store: &mut Store<'_, 'a>,
    key: &Option<Name>,
    attribute: &str,
    lsb_order: bool,
    n: u64,
    steps: &mut Steps<L>,
) -> Result<Bits<'a>, LoadFault>
    requires few { n ≤ item_limit }
    ensures answer { Gives (λ mask. mask) told result (refused_or
        (bytes_break (container.buffer_key key.now attribute.now) ((n + 7) / 8)
        (buffer store.old.held (container.buffer_key key.now attribute.now)))
        (bits lsb_order
        (bytes_at (container_of reader.now.big store.old.held) key.now attribute.now) 0 n)) }
    ensures held { store.new.held ≡ store.old.held }
    ensures cost { steps.new ≤ steps.old + held_len store.old.held }
{
    let key = buffer_key(reader.alloc, key, attribute)?;
    bits_at(reader.alloc, store, &key, lsb_order, n, steps)
}
