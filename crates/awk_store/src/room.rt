//! Memory that was given up, and the bytes of a text in it.
ghost use Rattle.std.specs.Prelude.{◌≡◌, ◌≤◌, Some, IfOk, IfSome, IsTrue, length, vec_len};
ghost use Rattle.base64.specs.Decode.{decoded_estimate};
ghost use Rattle.base64.specs.Engines.{standard};
ghost use Rattle.base64.specs.GeneralPurpose.{encode_of};
ghost use Rattle.awk_types.specs.Gives.{Gives};
ghost use Rattle.awk_store.specs.Buffers.{decoding, why_told};

use crate::fault::{BufferWhy, StoreFault};
use base64::decoded_len_estimate;
use base64::engine::general_purpose::STANDARD;

/// Memory that is given up, and the place that owns it once the bytes of a text lie there.
#[derive(Drop)]
pub struct Room<'a> {
    pub memory: Vec<u8>,
    pub place: &'a mut Vec<u8>,
}

/// Bytes of shorter texts go into the arena: so little memory is not worth a room.
const LEAST: usize = 65_536;

/// Whether the bytes of a text may lie in so much memory: they fit, and the text is long, and no
/// shorter than half of the memory, so that not much of it is lost.
fn suits(text: usize, memory: usize) -> bool
    ensures fits { IsTrue result → decoded_estimate text ≤ memory }
{
    text >= LEAST && text >= memory / 2 && decoded_len_estimate(text) <= memory
}

/// A room where no bytes lie yet, if there is one.
pub(crate) struct Spare<'a> {
    room: Option<Room<'a>>,
}

// Written out, so that whoever drops a store sees one call, whether there is a room or not.
impl Drop for Spare<'_> {
    fn drop(self) {
        let Spare { room } = self;
        let_go(room);
    }
}

fn let_go(_room: Option<Room<'_>>) {}

impl<'a> Spare<'a> {
    pub(crate) fn new(room: Option<Room<'a>>) -> Spare<'a> {
        Spare { room }
    }

    /// Takes the room for the bytes of a text, if it suits.
    pub(crate) fn room_for(&mut self, text: &str) -> Option<Room<'a>>
        ensures fits { IfSome result (λ r. decoded_estimate (length text.now) ≤ vec_len r.memory) }
    {
        let held = self.room.as_ref()?;
        if suits(text.len(), held.memory.len()) {
            return self.room.take();
        }
        None
    }
}

/// The bytes that a text encodes, in the room. What they leave of the memory is given back.
pub(crate) fn decode_into<'a>(room: Room<'a>, text: &str) -> Result<&'a [u8], StoreFault>
    requires { decoded_estimate (length text.now) ≤ vec_len room.memory }
    ensures answer { Gives (λ bytes. bytes.now) why_told result (decoding (Some text.now)) }
    ensures encoded { IfOk result (λ bytes. text.now ≡ encode_of standard bytes.now) }
{
    let Room { mut memory, place } = room;
    match STANDARD.decode_slice_unchecked(text.as_bytes(), memory.as_mut_slice()) {
        Ok(count) => {
            memory.truncate(count);
            memory.shrink_to_fit();
            *place = memory;
            Ok(place.as_slice())
        }
        Err(_) => Err(StoreFault::Bad(BufferWhy::Base64)),
    }
}
