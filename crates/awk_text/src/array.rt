//! The texts of arrays and of their items.
ghost use Rattle.std.specs.Prelude.{◌≡◌, ◌<◌, ◌≤◌, ◌+◌, ◌*◌, ◌++◌, IsTrue, length};
ghost use Rattle.awk_edge.specs.Causes.{HasCause};
ghost use Rattle.awk_edge.specs.Put.{Moves};
ghost use Rattle.awk_layout.specs.Layout.{height, weight};
ghost use Rattle.awk_layout.specs.Valid.{len};
ghost use Rattle.awk_text.specs.ArrayText.{array_text, item_text};

use crate::value::{write_list, write_node};
use awk_edge::{Out, Sink, WriteFault};
use awk_lanes::Steps;
use awk_layout::Array;
use std::sync::ledger::Ledger;

/// Puts the text of the item at a place.
pub fn write_item<K: Sink, L: Ledger>(
    x: &Array<'_>,
    i: u64,
    out: &mut Out,
    sink: &mut K,
    steps: &mut Steps<L>,
) -> Result<(), WriteFault>
    requires open { IsTrue out.old.is_open }
    requires within { i < len x.now }
    ensures bytes { Moves (K.written sink.old) (K.written sink.new) out.new
        (out.old.held ++ item_text x.now i) result }
    ensures flushes { K.flushes sink.new ≡ K.flushes sink.old }
    ensures cause { HasCause (K.faults sink.old) (K.faults sink.new) result }
    ensures cost { steps.new ≤ steps.old + 2 * (height x.now * length (item_text x.now i)) }
{
    let node = x.node();
    let _ = node.len(); // its items are of its type
    write_node(node, i, out, sink, steps)
}

/// Puts the list of the items of an array.
pub fn write_array<K: Sink, L: Ledger>(
    x: &Array<'_>,
    out: &mut Out,
    sink: &mut K,
    steps: &mut Steps<L>,
) -> Result<(), WriteFault>
    requires open { IsTrue out.old.is_open }
    ensures bytes { Moves (K.written sink.old) (K.written sink.new) out.new
        (out.old.held ++ array_text x.now) result }
    ensures flushes { K.flushes sink.new ≡ K.flushes sink.old }
    ensures cause { HasCause (K.faults sink.old) (K.faults sink.new) result }
    ensures cost { steps.new ≤ steps.old
        + 8 * (weight x.now + height x.now * length (array_text x.now)) }
{
    let node = x.node();
    write_list(node, 0, node.len(), out, sink, steps)
}
