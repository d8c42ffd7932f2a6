//! Bytes that were added by key.
ghost use Rattle.std.specs.Prelude.{◌≡◌, ◌+◌, ◌++◌, ◌∷◌, [], ◌≤◌, None, option_map, IfOk, IsOk};
ghost use Rattle.std.specs.Prelude.{IsTrue, OnOk, OnErr};
ghost use Rattle.std.specs.Option.{ok_or};
ghost use Rattle.awk_types.specs.Gives.{Gives};
ghost use Rattle.awk_store.specs.Buffers.{at_key, why_told, is_fetched, with_fetched};
ghost use Rattle.awk_store.specs.Buffers.{unfetched_len};
ghost use Rattle.awk_store.specs.declared.fault.BufferWhy.TheVariants.{Absent};

use crate::fault::{BufferWhy, StoreFault};
use awk_lanes::{Arena, NoMemory, Steps};
use indexmap::IndexMap;
use std::alloc::Global;
use std::marker::Model;
use std::sync::ledger::Ledger;

/// Bytes by key. They are copied into the arena when their key is first fetched, and never again.
#[derive(Drop)]
pub(crate) struct Raws<'v, 'a> {
    alloc: Global,
    raws: IndexMap<String, &'v [u8]>,
    arena: &'a Arena,
    copied: IndexMap<String, &'a [u8]>,
}

impl<'v, 'a> Model for Raws<'v, 'a> {
    ghost use Rattle.std.specs.Prelude.{string_bytes};
    ghost use Rattle.std.specs.Map.{keys_of};
    ghost use Rattle.awk_store.specs.Buffers.{Given, AreCopied, shown_by};

    ghost Value = { Given };

    ghost view = { λ s. record {
      entries = shown_by string_bytes s.raws.entries;
      fetched = keys_of (shown_by string_bytes s.copied.entries);
    } };

    ghost invariant = { λ s. AreCopied (shown_by string_bytes s.raws.entries)
        (shown_by string_bytes s.copied.entries) };
}

/// The same bytes, in the arena.
fn copied<'a>(arena: &'a Arena, bytes: &[u8]) -> Result<&'a [u8], NoMemory>
    ensures { IfOk result (λ copy. copy.now ≡ bytes.now) }
{
    Ok(arena.try_alloc_slice_copy(bytes)?)
}

impl<'v, 'a> Raws<'v, 'a> {
    /// No bytes yet.
    pub(crate) fn new(alloc: Global, arena: &'a Arena) -> Raws<'v, 'a>
        ensures { result ≡ record { entries = []; fetched = [] } }
    {
        Raws {
            alloc,
            raws: IndexMap::new(alloc),
            arena,
            copied: IndexMap::new(alloc),
        }
    }

    /// Adds the bytes of a key that is not there.
    pub(crate) fn add(&mut self, key: &str, bytes: &'v [u8]) -> Result<(), NoMemory>
        requires { at_key self.old.entries key.now ≡ None }
        ensures added { OnOk result (self.new ≡ record self.old {
          entries = self.old.entries ++ (key.now, bytes.now) ∷ [];
        }) }
        ensures refused { OnErr result (self.new ≡ self.old) }
    {
        self.raws.insert(String::from_str(self.alloc, key)?, bytes)?;
        Ok(())
    }

    /// The bytes of a key, where they lie.
    pub(crate) fn get(&self, key: &str) -> Option<&'v [u8]>
        ensures { option_map (λ bytes. bytes.now) result ≡ at_key self.now.entries key.now }
    {
        match self.raws.get(key) {
            Some(bytes) => Some(*bytes),
            None => None,
        }
    }

    /// The bytes of a key. They are copied, a step for each, where they were not yet.
    pub(crate) fn fetch<L: Ledger>(
        &mut self,
        key: &str,
        steps: &mut Steps<L>,
    ) -> Result<&'a [u8], StoreFault>
        ensures answer { Gives (λ bytes. bytes.now) why_told result
            (ok_or (at_key self.old.entries key.now) Absent) }
        ensures again { IsTrue (is_fetched self.old key.now) → IsOk result }
        ensures entries { self.new.entries ≡ self.old.entries }
        ensures fetched { OnOk result (self.new ≡ with_fetched self.old key.now) }
        ensures refused { OnErr result (self.new ≡ self.old) }
        ensures cost { steps.new ≤ steps.old + unfetched_len self.old key.now }
    {
        if let Some(bytes) = self.copied.get(key) {
            return Ok(*bytes);
        }
        let Some(bytes) = self.raws.get(key) else {
            return Err(StoreFault::Bad(BufferWhy::Absent));
        };
        let bytes = *bytes;
        // Room comes first, so that bytes that were copied are always kept.
        self.copied.reserve(1)?;
        let name = String::from_str(self.alloc, key)?;
        steps.add(bytes.len() as u64);
        let copy = copied(self.arena, bytes)?;
        self.copied.insert(name, copy).unwrap();
        Ok(copy)
    }
}
