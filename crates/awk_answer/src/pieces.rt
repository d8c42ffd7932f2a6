//! Texts with a text in quotes or a number in them.
ghost use Rattle.std.specs.Prelude.{◌≡◌, ◌++◌, IsTrue, decimal};
ghost use Rattle.awk_edge.specs.Causes.{HasCause};
ghost use Rattle.awk_edge.specs.Put.{Moves};
ghost use Rattle.awk_json.specs.Text.{quoted};

use awk_edge::{Out, Sink, WriteFault};
use awk_json::{write_number, write_quoted};

/// Puts a text in quotes, each special byte escaped, between two texts.
pub fn write_quoted_between<K: Sink>(
    head: &[u8],
    text: &[u8],
    tail: &[u8],
    out: &mut Out,
    sink: &mut K,
) -> Result<(), WriteFault>
    requires open { IsTrue out.old.is_open }
    ensures bytes { Moves (K.written sink.old) (K.written sink.new) out.new
        (out.old.held ++ (head.now ++ quoted text.now ++ tail.now)) result }
    ensures flushes { K.flushes sink.new ≡ K.flushes sink.old }
    ensures cause { HasCause (K.faults sink.old) (K.faults sink.new) result }
{
    out.put(sink, head)?;
    write_quoted(out, sink, text)?;
    out.put(sink, tail)
}

/// Puts a number between two texts.
pub fn write_numbered<K: Sink>(
    head: &[u8],
    number: u64,
    tail: &[u8],
    out: &mut Out,
    sink: &mut K,
) -> Result<(), WriteFault>
    requires open { IsTrue out.old.is_open }
    ensures bytes { Moves (K.written sink.old) (K.written sink.new) out.new
        (out.old.held ++ (head.now ++ decimal number ++ tail.now)) result }
    ensures flushes { K.flushes sink.new ≡ K.flushes sink.old }
    ensures cause { HasCause (K.faults sink.old) (K.faults sink.new) result }
{
    out.put(sink, head)?;
    write_number(out, sink, number)?;
    out.put(sink, tail)
}
