//! Texts in quotes, and numbers.
ghost use Rattle.std.specs.Prelude.{◌≡◌, ◌<◌, ◌++◌, IsTrue, decimal, length};
ghost use Rattle.std.specs.List.{flat_map};
ghost use Rattle.awk_edge.specs.Causes.{HasCause};
ghost use Rattle.awk_edge.specs.Put.{Moves};
ghost use Rattle.awk_json.specs.Text.{hex_digit, is_special as special, escape, escaped_all};
ghost use Rattle.awk_json.specs.Text.{quoted, comma_before, separator_before};

use awk_edge::{Out, Sink, WriteFault};
use itoa::Buffer;

/// Puts a text in quotes, each special byte escaped.
pub fn write_text<K: Sink>(out: &mut Out, sink: &mut K, text: &str) -> Result<(), WriteFault>
    requires open { IsTrue out.old.is_open }
    ensures bytes { Moves (K.written sink.old) (K.written sink.new) out.new
        (out.old.held ++ quoted text.now) result }
    ensures flushes { K.flushes sink.new ≡ K.flushes sink.old }
    ensures cause { HasCause (K.faults sink.old) (K.faults sink.new) result }
{
    write_quoted(out, sink, text.as_bytes())
}

/// Puts bytes in quotes, each special one escaped.
pub fn write_quoted<K: Sink>(out: &mut Out, sink: &mut K, bytes: &[u8]) -> Result<(), WriteFault>
    requires open { IsTrue out.old.is_open }
    ensures bytes { Moves (K.written sink.old) (K.written sink.new) out.new
        (out.old.held ++ quoted bytes.now) result }
    ensures flushes { K.flushes sink.new ≡ K.flushes sink.old }
    ensures cause { HasCause (K.faults sink.old) (K.faults sink.new) result }
{
    out.put(sink, b"\"")?;
    write_escaped(out, sink, bytes)?;
    out.put(sink, b"\"")
}

/// Puts two texts, joined, in quotes, each special byte escaped.
pub fn write_joined<K: Sink>(
    out: &mut Out,
    sink: &mut K,
    first: &str,
    second: &str,
) -> Result<(), WriteFault>
    requires open { IsTrue out.old.is_open }
    ensures bytes { Moves (K.written sink.old) (K.written sink.new) out.new
        (out.old.held ++ quoted (first.now ++ second.now)) result }
    ensures flushes { K.flushes sink.new ≡ K.flushes sink.old }
    ensures cause { HasCause (K.faults sink.old) (K.faults sink.new) result }
{
    out.put(sink, b"\"")?;
    write_escaped(out, sink, first.as_bytes())?;
    write_escaped(out, sink, second.as_bytes())?;
    out.put(sink, b"\"")
}

/// Puts texts one after another, as they stand.
pub fn write_pieces<K: Sink>(out: &mut Out, sink: &mut K, pieces: &[&str]) -> Result<(), WriteFault>
    requires open { IsTrue out.old.is_open }
    ensures bytes { Moves (K.written sink.old) (K.written sink.new) out.new
        (out.old.held ++ flat_map (λ piece. piece.now) pieces.now) result }
    ensures flushes { K.flushes sink.new ≡ K.flushes sink.old }
    ensures cause { HasCause (K.faults sink.old) (K.faults sink.new) result }
{
    for piece in pieces {
        out.put(sink, piece.as_bytes())?;
    }
    Ok(())
}

/// Puts a number in decimal digits.
pub fn write_number<K: Sink>(out: &mut Out, sink: &mut K, n: u64) -> Result<(), WriteFault>
    requires open { IsTrue out.old.is_open }
    ensures bytes { Moves (K.written sink.old) (K.written sink.new) out.new
        (out.old.held ++ decimal n) result }
    ensures flushes { K.flushes sink.new ≡ K.flushes sink.old }
    ensures cause { HasCause (K.faults sink.old) (K.faults sink.new) result }
{
    let mut digits = Buffer::new();
    out.put(sink, digits.format(n).as_bytes())
}

/// Puts what stands between two pieces, unless it is before the first.
pub fn write_separator<K: Sink>(
    out: &mut Out,
    sink: &mut K,
    separator: &[u8],
    is_first: bool,
) -> Result<(), WriteFault>
    requires open { IsTrue out.old.is_open }
    ensures bytes { Moves (K.written sink.old) (K.written sink.new) out.new
        (out.old.held ++ separator_before separator.now is_first) result }
    ensures flushes { K.flushes sink.new ≡ K.flushes sink.old }
    ensures cause { HasCause (K.faults sink.old) (K.faults sink.new) result }
{
    out.put(sink, if is_first { b"" } else { separator })
}

/// Puts a comma, unless it is before the first text of a list.
pub fn write_comma<K: Sink>(out: &mut Out, sink: &mut K, is_first: bool) -> Result<(), WriteFault>
    requires open { IsTrue out.old.is_open }
    ensures bytes { Moves (K.written sink.old) (K.written sink.new) out.new
        (out.old.held ++ comma_before is_first) result }
    ensures flushes { K.flushes sink.new ≡ K.flushes sink.old }
    ensures cause { HasCause (K.faults sink.old) (K.faults sink.new) result }
{
    write_separator(out, sink, b",", is_first)
}

// Puts bytes, each special one escaped, and those between in one piece.
fn write_escaped<K: Sink>(out: &mut Out, sink: &mut K, bytes: &[u8]) -> Result<(), WriteFault>
    requires open { IsTrue out.old.is_open }
    ensures bytes { Moves (K.written sink.old) (K.written sink.new) out.new
        (out.old.held ++ escaped_all bytes.now) result }
    ensures flushes { K.flushes sink.new ≡ K.flushes sink.old }
    ensures cause { HasCause (K.faults sink.old) (K.faults sink.new) result }
{
    let mut start = 0;
    for (i, byte) in bytes.iter().enumerate() {
        if !is_special(*byte) {
            continue;
        }
        out.put(sink, &bytes[start..i])?;
        write_escape(out, sink, *byte)?;
        start = i + 1;
    }
    out.put(sink, &bytes[start..])
}

fn is_special(byte: u8) -> bool
    ensures { result ≡ special byte }
{
    byte == b'"' || byte == b'\\' || byte < 32
}

fn write_escape<K: Sink>(out: &mut Out, sink: &mut K, byte: u8) -> Result<(), WriteFault>
    requires open { IsTrue out.old.is_open }
    requires special { IsTrue (special byte) }
    ensures bytes { Moves (K.written sink.old) (K.written sink.new) out.new
        (out.old.held ++ escape byte) result }
    ensures flushes { K.flushes sink.new ≡ K.flushes sink.old }
    ensures cause { HasCause (K.faults sink.old) (K.faults sink.new) result }
{
    match byte {
        b'"' => out.put(sink, b"\\\""),
        b'\\' => out.put(sink, b"\\\\"),
        8 => out.put(sink, b"\\b"),
        b'\t' => out.put(sink, b"\\t"),
        b'\n' => out.put(sink, b"\\n"),
        12 => out.put(sink, b"\\f"),
        b'\r' => out.put(sink, b"\\r"),
        _ => {
            out.put(
                sink,
                &[b'\\', b'u', b'0', b'0', hex(byte / 16), hex(byte % 16)],
            )
        }
    }
}

fn hex(digit: u8) -> u8
    requires { digit < 16 }
    ensures { result ≡ hex_digit digit }
{
    if digit < 10 {
        b'0' + digit
    } else {
        b'a' + (digit - 10)
    }
}
