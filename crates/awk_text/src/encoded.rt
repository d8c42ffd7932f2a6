//! Bytes in base64, without memory.
ghost use Rattle.std.specs.Prelude.{◌≡◌, ◌≤◌, ◌++◌, IsTrue, length};
ghost use Rattle.base64.specs.Engines.{standard};
ghost use Rattle.base64.specs.GeneralPurpose.{encode_of};
ghost use Rattle.awk_edge.specs.Causes.{HasCause};
ghost use Rattle.awk_edge.specs.Put.{Moves};

use awk_edge::{Out, Sink, WriteFault};
use base64::engine::general_purpose::STANDARD;

// A chunk of a multiple of three bytes needs no padding, so only the last one may have it.
const CHUNK: usize = 768;

/// Puts the encoding of bytes.
pub fn write_base64<K: Sink>(bytes: &[u8], out: &mut Out, sink: &mut K) -> Result<(), WriteFault>
    requires open { IsTrue out.old.is_open }
    ensures bytes { Moves (K.written sink.old) (K.written sink.new) out.new
        (out.old.held ++ encode_of standard bytes.now) result }
    ensures flushes { K.flushes sink.new ≡ K.flushes sink.old }
    ensures cause { HasCause (K.faults sink.old) (K.faults sink.new) result }
{
    let mut done = 0;
    while done < bytes.len() {
        let end = (bytes.len() - done).min(CHUNK) + done;
        write_chunk(&bytes[done..end], out, sink)?;
        done = end;
    }
    Ok(())
}

// Puts the encoding of a few bytes.
fn write_chunk<K: Sink>(bytes: &[u8], out: &mut Out, sink: &mut K) -> Result<(), WriteFault>
    requires open { IsTrue out.old.is_open }
    requires few { length bytes.now ≤ 768 }
    ensures bytes { Moves (K.written sink.old) (K.written sink.new) out.new
        (out.old.held ++ encode_of standard bytes.now) result }
    ensures flushes { K.flushes sink.new ≡ K.flushes sink.old }
    ensures cause { HasCause (K.faults sink.old) (K.faults sink.new) result }
{
    let mut text = [0u8; 1024];
    let Ok(len) = STANDARD.encode_slice(bytes, &mut text) else {
        unreachable!();
    };
    out.put(sink, &text[..len])
}
