//! The text of a node's item, one level after another.
ghost use Rattle.std.specs.Prelude.{◌≡◌, ◌<◌, ◌≤◌, ◌+◌, ◌*◌, ◌++◌, IsTrue, length};
ghost use Rattle.awk_edge.specs.Causes.{HasCause};
ghost use Rattle.awk_edge.specs.Put.{Moves};
ghost use Rattle.awk_layout.specs.Layout.{height, heights, layouts_from};
ghost use Rattle.awk_layout.specs.Valid.{len, AllReach};
ghost use Rattle.awk_text.specs.LayoutText.{layout_text, span_text};
ghost use Rattle.awk_text.specs.LayoutText.{row_text, names_shown, AreNamed};

use crate::leaf::{write_field, write_leaf};
use crate::numbers::write_numbers;
use awk_edge::{Out, Sink, WriteFault};
use awk_json::write_comma;
use awk_lanes::Steps;
use awk_layout::{Class, Node, Nodes, Place};
use awk_types::Names;
use std::sync::ledger::Ledger;

/// Puts the text of the item at place i.
#[cycle(value)]
pub(crate) fn write_node<K: Sink, L: Ledger>(
    x: &Node<'_>,
    i: u64,
    out: &mut Out,
    sink: &mut K,
    steps: &mut Steps<L>,
) -> Result<(), WriteFault>
    requires open { IsTrue out.old.is_open }
    requires within { i < len x.now }
    ensures bytes { Moves (K.written sink.old) (K.written sink.new) out.new
        (out.old.held ++ layout_text x.now i) result }
    ensures flushes { K.flushes sink.new ≡ K.flushes sink.old }
    ensures cause { HasCause (K.faults sink.old) (K.faults sink.new) result }
    ensures cost { steps.new ≤ steps.old + 2 * (height x.now * length (layout_text x.now i)) }
{
    match x.place(i, steps) {
        Place::Number(number) => write_leaf(number, out, sink),
        Place::Items { content, lo, hi } => write_list(content, lo, hi, out, sink, steps),
        Place::Row {
            names,
            contents,
            place,
        } => write_row(names, contents, place, out, sink, steps),
        Place::Missing => out.put(sink, b"null"),
        Place::Through { content, place } => write_node(content, place, out, sink, steps),
        Place::Alternative { content, place, .. } => write_node(content, place, out, sink, steps),
    }
}

/// Puts the list of the items from place lo below place hi.
#[cycle(value)]
pub(crate) fn write_list<K: Sink, L: Ledger>(
    content: &Node<'_>,
    lo: u64,
    hi: u64,
    out: &mut Out,
    sink: &mut K,
    steps: &mut Steps<L>,
) -> Result<(), WriteFault>
    requires open { IsTrue out.old.is_open }
    requires ordered { lo ≤ hi }
    requires within { hi ≤ len content.now }
    ensures bytes { Moves (K.written sink.old) (K.written sink.new) out.new
        (out.old.held ++ span_text content.now lo hi) result }
    ensures flushes { K.flushes sink.new ≡ K.flushes sink.old }
    ensures cause { HasCause (K.faults sink.old) (K.faults sink.new) result }
    ensures cost { steps.new ≤ steps.old
        + 2 * (height content.now * length (span_text content.now lo hi)) }
{
    if let Class::Numpy { lane } = content.class() {
        return write_numbers(lane, lo, hi, out, sink, steps);
    }
    out.put(sink, b"[")?;
    for j in lo..hi {
        write_comma(out, sink, j == lo)?;
        write_node(content, j, out, sink, steps)?;
    }
    out.put(sink, b"]")
}

/// Puts the row of the contents' items at a place.
#[cycle(value)]
fn write_row<K: Sink, L: Ledger>(
    names: Option<&Names>,
    contents: &Nodes<'_>,
    place: u64,
    out: &mut Out,
    sink: &mut K,
    steps: &mut Steps<L>,
) -> Result<(), WriteFault>
    requires open { IsTrue out.old.is_open }
    requires named { AreNamed (names_shown names) (length contents.now) }
    requires within { AllReach (place + 1) (layouts_from contents.now) }
    ensures bytes { Moves (K.written sink.old) (K.written sink.new) out.new
        (out.old.held ++ row_text (names_shown names.entry) contents.now place) result }
    ensures flushes { K.flushes sink.new ≡ K.flushes sink.old }
    ensures cause { HasCause (K.faults sink.old) (K.faults sink.new) result }
    ensures cost { steps.new ≤ steps.old
        + 2 * (heights (layouts_from contents.now)
        * length (row_text (names_shown names.entry) contents.now place)) }
{
    out.put(sink, b"{")?;
    for k in 0..contents.len() {
        write_comma(out, sink, k == 0)?;
        write_field(names, k, out, sink)?;
        write_node(contents.get(k), place, out, sink, steps)?;
    }
    out.put(sink, b"}")
}
