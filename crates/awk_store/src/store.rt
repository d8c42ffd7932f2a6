//! The buffers of a map of base64 texts, and those whose bytes were added.
ghost use Rattle.std.specs.Prelude.{◌≡◌, ◌≢◌, ℕ, ◌+◌, ◌≤◌, List, [], Some, option_map, IfOk, IsOk};
ghost use Rattle.std.specs.Prelude.{IsErrOf, IsTrue, OnOk, OnErr};
ghost use Rattle.serde_json.specs.View.{members_view};
ghost use Rattle.base64.specs.Engines.{standard};
ghost use Rattle.base64.specs.GeneralPurpose.{encode_of, IsBytes};
ghost use Rattle.awk_types.specs.Gives.{Gives};
ghost use Rattle.awk_store.specs.Buffers.{HoldsTexts, texts_of, at_key, only_texts, buffer, IsNew};
ghost use Rattle.awk_store.specs.Buffers.{why_told, with_raw, added_bytes, is_known, with_known};
ghost use Rattle.awk_store.specs.Buffers.{unread_len};

use crate::fault::{BufferWhy, StoreFault};
use crate::raws::Raws;
use crate::room::Room;
use crate::texts::Texts;
use awk_lanes::{Arena, NoMemory, Steps};
use serde_json::{Map, Value};
use std::alloc::Global;
use std::marker::Model;
use std::sync::ledger::Ledger;

/// Buffers by key: those that a map gives as base64 texts, and those whose bytes were added. The
/// bytes of a key are decoded or copied into the arena when it is first fetched, and never again.
/// Those of one long text may lie in a room instead.
#[derive(Drop)]
pub struct Store<'v, 'a> {
    texts: Texts<'v, 'a>,
    raws: Raws<'v, 'a>,
}

impl<'v, 'a> Model for Store<'v, 'a> {
    ghost use Rattle.awk_store.specs.Buffers.{Buffers, store_of};

    ghost Value = { Buffers };

    ghost view = { λ s. store_of s.texts s.raws };
}

impl<'v, 'a> Store<'v, 'a> {
    /// A store over a map whose values are all texts. It takes no memory until a key is fetched.
    pub fn new(alloc: Global, buffers: &'v Map<String, Value>, arena: &'a Arena) -> Store<'v, 'a>
        requires { HoldsTexts (members_view buffers.now.entries) }
        ensures { result ≡ record {
          held = only_texts (texts_of (members_view buffers.now.entries));
          decoded = [];
          copied = [];
        } }
    {
        Store {
            texts: Texts::new(alloc, Some(buffers), None, arena),
            raws: Raws::new(alloc, arena),
        }
    }

    /// The same with a room, if there is one: memory that is given up, where the bytes of a long
    /// text may lie, so that they need no other. What it holds means nothing. If none lie there, it
    /// is given back with the store.
    pub fn with_room(
        alloc: Global,
        buffers: &'v Map<String, Value>,
        room: Option<Room<'a>>,
        arena: &'a Arena,
    ) -> Store<'v, 'a>
        requires { HoldsTexts (members_view buffers.now.entries) }
        ensures { result ≡ record {
          held = only_texts (texts_of (members_view buffers.now.entries));
          decoded = [];
          copied = [];
        } }
    {
        Store {
            texts: Texts::new(alloc, Some(buffers), room, arena),
            raws: Raws::new(alloc, arena),
        }
    }

    /// A store without buffers.
    pub fn empty(alloc: Global, arena: &'a Arena) -> Store<'v, 'a>
        ensures { result ≡ record { held = only_texts []; decoded = []; copied = [] } }
    {
        Store {
            texts: Texts::new(alloc, None, None, arena),
            raws: Raws::new(alloc, arena),
        }
    }

    /// Adds the bytes of a key that is not there.
    pub fn add(&mut self, key: &str, bytes: &'v [u8]) -> Result<(), NoMemory>
        requires { IsNew self.old.held key.now }
        ensures added { OnOk result (self.new ≡ with_raw self.old key.now bytes.now) }
        ensures refused { OnErr result (self.new ≡ self.old) }
    {
        self.raws.add(key, bytes)
    }

    /// The bytes that were added under a key, where they lie. There are none under a key with a
    /// text.
    pub fn added(&self, key: &str) -> Option<&'v [u8]>
        ensures { option_map (λ bytes. bytes.now) result ≡ added_bytes self.now.held key.now }
    {
        if self.texts.has(key) {
            return None;
        }
        self.raws.get(key)
    }

    /// The bytes of a key. Its text is decoded, or its bytes are copied, a step for each of their
    /// bytes, where they were not yet.
    pub fn fetch<L: Ledger>(
        &mut self,
        key: &str,
        steps: &mut Steps<L>,
    ) -> Result<&'a [u8], StoreFault>
        // The bytes of the key, or exactly why there are none, or want of memory.
        ensures answer { let said = buffer self.old.held key.now in
            Gives (λ bytes. bytes.now) why_told result said }

        // The key's text, if it has one, is the standard, padded base64 of the bytes, or of no
        // bytes at all.
        ensures encoded { IfOk result (λ bytes. (text : List ℕ)
            → at_key self.old.held.texts key.now ≡ Some text
            → text ≡ encode_of standard bytes.now) }
        ensures undecodable { IsErrOf result (StoreFault.Bad BufferWhy.Base64)
            → (bytes : List ℕ) → IsBytes bytes
            → at_key self.old.held.texts key.now ≢ Some (encode_of standard bytes) }

        // A key that was fetched is answered from then on. A refusal changes nothing.
        ensures again { IsTrue (is_known self.old key.now) → IsOk result }
        ensures held { self.new.held ≡ self.old.held }
        ensures known { OnOk result (self.new ≡ with_known self.old key.now) }
        ensures refused { OnErr result (self.new ≡ self.old) }

        ensures cost { steps.new ≤ steps.old + unread_len self.old key.now }
    {
        match self.texts.fetch(key, steps) {
            Err(StoreFault::Bad(BufferWhy::Absent)) => self.raws.fetch(key, steps),
            answer => answer,
        }
    }
}
