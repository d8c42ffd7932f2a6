//! The texts of packed arrays.
ghost use Rattle.std.specs.Prelude.{◌≡◌, ◌≤◌, ◌+◌, ◌++◌, IsTrue};
ghost use Rattle.awk_edge.specs.Causes.{HasCause};
ghost use Rattle.awk_edge.specs.Put.{Moves};
ghost use Rattle.awk_pack.specs.Shown.{packed_of};
ghost use Rattle.awk_text.specs.Buffers.{numbers_in};
ghost use Rattle.awk_text.specs.PackedText.{HasLanes, packed_text, buffers_text};

use crate::buffers::write_buffers;
use awk_edge::{Out, Sink, WriteFault};
use awk_form::write_form;
use awk_json::write_number;
use awk_lanes::Steps;
use awk_pack::Packed;
use std::sync::ledger::Ledger;

/// Puts the text of a packed array: its form, its length, and each buffer in base64 under its key,
/// in the order of the nodes. It takes no memory.
pub fn write_packed<K: Sink, L: Ledger>(
    p: &Packed<'_>,
    out: &mut Out,
    sink: &mut K,
    steps: &mut Steps<L>,
) -> Result<(), WriteFault>
    requires open { IsTrue out.old.is_open }
    requires lanes { HasLanes (packed_of p.now) }
    ensures bytes { Moves (K.written sink.old) (K.written sink.new) out.new
        (out.old.held ++ packed_text (packed_of p.now)) result }
    ensures flushes { K.flushes sink.new ≡ K.flushes sink.old }
    ensures cause { HasCause (K.faults sink.old) (K.faults sink.new) result }
    ensures cost { steps.new ≤ steps.old + numbers_in p.now.lanes }
{
    out.put(sink, b"{\"form\":")?;
    write_form(&p.form, out, sink)?;
    out.put(sink, b",\"length\":")?;
    write_number(out, sink, p.length)?;
    out.put(sink, b",\"buffers\":")?;
    write_all_buffers(p, out, sink, steps)?;
    out.put(sink, b"}")
}

/// Puts the object of the buffers.
fn write_all_buffers<K: Sink, L: Ledger>(
    p: &Packed<'_>,
    out: &mut Out,
    sink: &mut K,
    steps: &mut Steps<L>,
) -> Result<(), WriteFault>
    requires open { IsTrue out.old.is_open }
    requires lanes { HasLanes (packed_of p.now) }
    ensures bytes { Moves (K.written sink.old) (K.written sink.new) out.new
        (out.old.held ++ buffers_text (packed_of p.now)) result }
    ensures flushes { K.flushes sink.new ≡ K.flushes sink.old }
    ensures cause { HasCause (K.faults sink.old) (K.faults sink.new) result }
    ensures cost { steps.new ≤ steps.old + numbers_in p.now.lanes }
{
    let mut next = 0;
    out.put(sink, b"{")?;
    write_buffers(&p.form, &p.lanes, &mut next, out, sink, steps)?;
    out.put(sink, b"}")
}
