//! The bytes that the texts of a map encode.
ghost use Rattle.std.specs.Prelude.{◌≡◌, ◌≢◌, ℕ, ◌+◌, ◌≤◌, List, [], Some, None, Err, is_some};
ghost use Rattle.std.specs.Prelude.{option_map, IfOk, IfSome, IsOk, IsErrOf, IsTrue, OnOk, OnErr};
ghost use Rattle.std.specs.Option.{option_map_or};
ghost use Rattle.serde_json.specs.View.{members_view};
ghost use Rattle.base64.specs.Engines.{standard};
ghost use Rattle.base64.specs.GeneralPurpose.{encode_of, IsBytes};
ghost use Rattle.awk_types.specs.Gives.{Gives};
ghost use Rattle.awk_store.specs.Buffers.{HoldsTexts, texts_of, at_key, decoding, why_told};
ghost use Rattle.awk_store.specs.Buffers.{is_fetched, with_fetched, unfetched_len};

use crate::fault::{BufferWhy, StoreFault};
use crate::room::{Room, Spare, decode_into};
use awk_lanes::{Arena, Steps};
use base64::DecodeAllocError;
use base64::engine::general_purpose::STANDARD;
use bumpalo::collections::into_bump_slice;
use indexmap::IndexMap;
use serde_json::{Map, Value};
use std::alloc::Global;
use std::marker::Model;
use std::sync::ledger::Ledger;

/// The texts of a map, if there is one. A text is decoded when its key is first fetched, and never
/// again: a long one into the room, once, and each other into the arena.
#[derive(Drop)]
pub(crate) struct Texts<'v, 'a> {
    map: Option<&'v Map<String, Value>>,
    spare: Spare<'a>,
    arena: &'a Arena,
    decoded: IndexMap<&'v str, &'a [u8]>,
}

impl<'v, 'a> Model for Texts<'v, 'a> {
    ghost use Rattle.std.specs.Prelude.{IfSome, []};
    ghost use Rattle.std.specs.Map.{keys_of};
    ghost use Rattle.std.specs.Option.{option_map_or};
    ghost use Rattle.serde_json.specs.View.{members_view};
    ghost use Rattle.awk_store.specs.Buffers.{Given, HoldsTexts, texts_of, AreDecoded, shown_by};

    ghost Value = { Given };

    ghost view = { λ s. record {
      entries = option_map_or (λ m. texts_of (members_view m.now.entries)) s.map [];
      fetched = keys_of (shown_by (λ k. k.now) s.decoded.entries);
    } };

    ghost invariant = { λ s. IfSome s.map (λ m. HoldsTexts (members_view m.now.entries))
        × AreDecoded (option_map_or (λ m. texts_of (members_view m.now.entries)) s.map [])
        (shown_by (λ k. k.now) s.decoded.entries) };
}

/// The key of the map that is the given one, with its text.
fn text_in<'v>(buffers: &'v Map<String, Value>, key: &str) -> Option<(&'v str, &'v str)>
    requires { HoldsTexts (members_view buffers.now.entries) }
    ensures key { IfSome result (λ found. found.0.now ≡ key.now) }
    ensures text { option_map (λ found. found.1.now) result
        ≡ at_key (texts_of (members_view buffers.now.entries)) key.now }
{
    let (name, value) = buffers.get_key_value(key)?;
    Some((name.as_str(), value.as_str()?))
}

/// The same of a map that may not be there.
fn text_at<'v>(map: Option<&'v Map<String, Value>>, key: &str) -> Option<(&'v str, &'v str)>
    requires { IfSome map (λ m. HoldsTexts (members_view m.now.entries)) }
    ensures key { IfSome result (λ found. found.0.now ≡ key.now) }
    ensures text { option_map (λ found. found.1.now) result
        ≡ at_key (option_map_or (λ m. texts_of (members_view m.now.entries)) map.entry [])
        key.now }
{
    match map {
        Some(buffers) => text_in(buffers, key),
        None => None,
    }
}

/// The bytes that a text encodes, in the arena.
fn decode<'a>(arena: &'a Arena, text: &str) -> Result<&'a [u8], StoreFault>
    ensures answer { Gives (λ bytes. bytes.now) why_told result (decoding (Some text.now)) }
    ensures encoded { IfOk result (λ bytes. text.now ≡ encode_of standard bytes.now) }
{
    match STANDARD.decode(arena, text.as_bytes()) {
        Ok(bytes) => Ok(into_bump_slice(bytes)),
        Err(DecodeAllocError::DecodeError(_)) => Err(StoreFault::Bad(BufferWhy::Base64)),
        Err(DecodeAllocError::OutOfMemory) => Err(StoreFault::NoMemory),
    }
}

/// The bytes that a text encodes, in the room if that suits, and else in the arena.
fn placed<'a>(arena: &'a Arena, spare: &mut Spare<'a>, text: &str) -> Result<&'a [u8], StoreFault>
    ensures answer { Gives (λ bytes. bytes.now) why_told result (decoding (Some text.now)) }
    ensures encoded { IfOk result (λ bytes. text.now ≡ encode_of standard bytes.now) }
{
    match spare.room_for(text) {
        Some(room) => decode_into(room, text),
        None => decode(arena, text),
    }
}

impl<'v, 'a> Texts<'v, 'a> {
    /// The texts of a map whose values are all texts. They take no memory until a key is fetched.
    pub(crate) fn new(
        alloc: Global,
        map: Option<&'v Map<String, Value>>,
        room: Option<Room<'a>>,
        arena: &'a Arena,
    ) -> Texts<'v, 'a>
        requires { IfSome map (λ m. HoldsTexts (members_view m.now.entries)) }
        ensures { result ≡ record {
          entries = option_map_or (λ m. texts_of (members_view m.now.entries)) map.entry [];
          fetched = [];
        } }
    {
        Texts {
            map,
            spare: Spare::new(room),
            arena,
            decoded: IndexMap::new(alloc),
        }
    }

    /// Whether a key has a text.
    pub(crate) fn has(&self, key: &str) -> bool
        ensures { result ≡ is_some (at_key self.now.entries key.now) }
    {
        text_at(self.map, key).is_some()
    }

    /// The bytes that the text of a key encodes. The text is decoded, a step for each of its bytes,
    /// where it was not yet.
    pub(crate) fn fetch<L: Ledger>(
        &mut self,
        key: &str,
        steps: &mut Steps<L>,
    ) -> Result<&'a [u8], StoreFault>
        // The bytes of the key, or exactly why there are none, or want of memory.
        ensures answer { let said = decoding (at_key self.old.entries key.now) in
            Gives (λ bytes. bytes.now) why_told result said }

        // A key without a text is absent.
        ensures absent { at_key self.old.entries key.now ≡ None
            → result ≡ Err (StoreFault.Bad BufferWhy.Absent) }

        // The key's text is the standard, padded base64 of the bytes, or of no bytes at all.
        ensures encoded { IfOk result (λ bytes.
            at_key self.old.entries key.now ≡ Some (encode_of standard bytes.now)) }
        ensures undecodable { IsErrOf result (StoreFault.Bad BufferWhy.Base64)
            → (bytes : List ℕ) → IsBytes bytes
            → at_key self.old.entries key.now ≢ Some (encode_of standard bytes) }

        // A key that is decoded is answered from then on. A refusal changes nothing.
        ensures again { IsTrue (is_fetched self.old key.now) → IsOk result }
        ensures entries { self.new.entries ≡ self.old.entries }
        ensures fetched { OnOk result (self.new ≡ with_fetched self.old key.now) }
        ensures refused { OnErr result (self.new ≡ self.old) }

        ensures cost { steps.new ≤ steps.old + unfetched_len self.old key.now }
    {
        if let Some(bytes) = self.decoded.get(key) {
            return Ok(*bytes);
        }
        let Some((name, text)) = text_at(self.map, key) else {
            return Err(StoreFault::Bad(BufferWhy::Absent));
        };
        // Room comes first, so that bytes that were decoded are always kept.
        self.decoded.reserve(1)?;
        steps.add(text.len() as u64);
        let bytes = placed(self.arena, &mut self.spare, text)?;
        self.decoded.insert(name, bytes).unwrap();
        Ok(bytes)
    }
}
