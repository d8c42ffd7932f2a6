//! The texts of numbers and of truth values, and the names of fields.
ghost use Rattle.std.specs.Prelude.{◌≡◌, ◌+◌, ◌++◌, IsTrue};
ghost use Rattle.awk_edge.specs.Causes.{HasCause};
ghost use Rattle.awk_edge.specs.Put.{Moves};
ghost use Rattle.awk_json.specs.Text.{quoted};
ghost use Rattle.awk_layout.specs.Shown.{value_of_num};
ghost use Rattle.awk_text.specs.LayoutText.{names_shown, field_name, field_text, AreNamed};
ghost use Rattle.awk_text.specs.ValueText.{leaf_text};

use crate::digits::{LONGEST, set_leaf};
use awk_edge::{Out, Sink, WriteFault};
use awk_json::write_text;
use awk_lanes::Num;
use awk_types::Names;
use itoa::Buffer;

/// Puts a number in decimal, or a truth value.
pub(crate) fn write_leaf<K: Sink>(
    number: Num,
    out: &mut Out,
    sink: &mut K,
) -> Result<(), WriteFault>
    requires open { IsTrue out.old.is_open }
    ensures bytes { Moves (K.written sink.old) (K.written sink.new) out.new
        (out.old.held ++ leaf_text (value_of_num number)) result }
    ensures flushes { K.flushes sink.new ≡ K.flushes sink.old }
    ensures cause { HasCause (K.faults sink.old) (K.faults sink.new) result }
{
    let mut room = [0; LONGEST];
    let start = set_leaf(number, &mut room, LONGEST);
    out.put(sink, &room[start..])
}

/// Puts the name of the k-th field and a colon.
pub(crate) fn write_field<K: Sink>(
    names: Option<&Names>,
    k: usize,
    out: &mut Out,
    sink: &mut K,
) -> Result<(), WriteFault>
    requires open { IsTrue out.old.is_open }
    requires named { AreNamed (names_shown names) (k + 1) }
    ensures bytes { Moves (K.written sink.old) (K.written sink.new) out.new
        (out.old.held ++ field_text (names_shown names.entry) k) result }
    ensures flushes { K.flushes sink.new ≡ K.flushes sink.old }
    ensures cause { HasCause (K.faults sink.old) (K.faults sink.new) result }
{
    write_name(names, k, out, sink)?;
    out.put(sink, b":")
}

/// Puts the name of the k-th field. That of a tuple's place is its number.
fn write_name<K: Sink>(
    names: Option<&Names>,
    k: usize,
    out: &mut Out,
    sink: &mut K,
) -> Result<(), WriteFault>
    requires open { IsTrue out.old.is_open }
    requires named { AreNamed (names_shown names) (k + 1) }
    ensures bytes { Moves (K.written sink.old) (K.written sink.new) out.new
        (out.old.held ++ quoted (field_name (names_shown names.entry) k)) result }
    ensures flushes { K.flushes sink.new ≡ K.flushes sink.old }
    ensures cause { HasCause (K.faults sink.old) (K.faults sink.new) result }
{
    match names {
        Some(names) => write_text(out, sink, names.get(k).as_str()),
        None => write_text(out, sink, Buffer::new().format(k)),
    }
}
