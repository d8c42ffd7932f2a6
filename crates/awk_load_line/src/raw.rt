//! The raw bytes behind a load line.
ghost use Rattle.std.specs.Prelude.{◌≡◌, ◌≤◌, None, IfOk, length, take, drop, option_map};
ghost use Rattle.awk_query.specs.Line.{keys_of};
ghost use Rattle.awk_load_line.specs.Load.{only_raws};
ghost use Rattle.awk_load_line.specs.Parts.{cut_key, parted};
ghost use Rattle.awk_types.specs.Names.{AreDistinct};

use awk_lanes::{Arena, NoMemory};
use awk_query::RawParts;
use awk_store::Store;
use std::alloc::Global;

/// The first key of which not all bytes are there.
pub fn cut_in<'v>(parts: &'v RawParts, raw: &[u8]) -> Option<&'v str>
    ensures { option_map (λ key. key.now) result ≡ cut_key parts.now (length raw.now) }
{
    let mut have = raw.len() as u64;
    for i in 0..parts.len() {
        let part = parts.get(i);
        if have < part.count {
            return Some(part.key.as_str());
        }
        have -= part.count;
    }
    None
}

/// A store of the bytes of each key.
pub fn raw_store<'v, 'a>(
    alloc: Global,
    parts: &RawParts,
    raw: &'v [u8],
    arena: &'a Arena,
) -> Result<Store<'v, 'a>, NoMemory>
    requires apart { AreDistinct (keys_of parts.now) }
    requires whole { cut_key parts.now (length raw.now) ≡ None }
    ensures { IfOk result (λ store. store.held ≡ only_raws (parted parts.now raw.now)) }
{
    let mut store = Store::empty(alloc, arena);
    let mut rest = raw;
    for i in 0..parts.len() {
        let part = parts.get(i);
        let (bytes, more) = front_of(rest, part.count as usize);
        store.add(part.key.as_str(), bytes)?;
        rest = more;
    }
    Ok(store)
}

// So many bytes, and those behind them.
fn front_of(bytes: &[u8], count: usize) -> (&[u8], &[u8])
    requires within { count ≤ length bytes.now }
    ensures front { result.0.now ≡ take count bytes.now }
    ensures rest { result.1.now ≡ drop count bytes.now }
{
    bytes.split_at(count)
}
