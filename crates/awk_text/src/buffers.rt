//! The buffers of a form, each under its key, in base64.
ghost use Rattle.std.specs.Prelude.{◌≡◌, ◌<◌, ◌≤◌, ◌+◌, ◌++◌, ◌∷◌, [], IsTrue, OnOk, Option};
ghost use Rattle.std.specs.Prelude.{length, unwrap_or};
ghost use Rattle.awk_edge.specs.Causes.{HasCause};
ghost use Rattle.awk_edge.specs.Put.{Moves};
ghost use Rattle.awk_types.specs.DataType.{Name as Key};
ghost use Rattle.awk_lanes.specs.Places.{size_of};
ghost use Rattle.awk_form.specs.FormTree.{contents_of, forms_from};
ghost use Rattle.awk_form.specs.View.{form_of, forms_of, keyed};
ghost use Rattle.awk_text.specs.Buffers.{own_keys, buffer_keys, keys_of, lane_bytes, buffer_text};
ghost use Rattle.awk_text.specs.Buffers.{texts_from, numbers_before, separator as comma};

use crate::encoded::write_base64;
use awk_edge::{Out, Sink, WriteFault};
use awk_form::{Form, Forms, Shape};
use awk_json::write_joined;
use awk_lanes::{ByteLane, ByteLanes, Steps};
use awk_types::Name;
use std::sync::ledger::Ledger;

/// Puts the buffers of a form, from the lane at a place on.
#[cycle(buffers)]
pub(crate) fn write_buffers<K: Sink, L: Ledger>(
    form: &Form,
    lanes: &ByteLanes<'_>,
    next: &mut usize,
    out: &mut Out,
    sink: &mut K,
    steps: &mut Steps<L>,
) -> Result<(), WriteFault>
    requires open { IsTrue out.old.is_open }
    requires enough { next.old + length (buffer_keys (form_of form.now)) ≤ length lanes.now }
    ensures bytes { Moves (K.written sink.old) (K.written sink.new) out.new
        (out.old.held ++ texts_from next.old (buffer_keys (form_of form.now)) lanes.now) result }
    ensures next { OnOk result
        (next.new ≡ next.old + length (buffer_keys (form_of form.now))) }
    ensures flushes { K.flushes sink.new ≡ K.flushes sink.old }
    ensures cause { HasCause (K.faults sink.old) (K.faults sink.new) result }
    ensures cost { steps.new + numbers_before next.old lanes.now
        ≤ steps.old + numbers_before next.new lanes.now }
{
    write_own(form, lanes, next, out, sink, steps)?;
    write_below(&form.shape, lanes, next, out, sink, steps)
}

/// Puts the buffers below a node.
#[cycle(buffers)]
fn write_below<K: Sink, L: Ledger>(
    shape: &Shape,
    lanes: &ByteLanes<'_>,
    next: &mut usize,
    out: &mut Out,
    sink: &mut K,
    steps: &mut Steps<L>,
) -> Result<(), WriteFault>
    requires open { IsTrue out.old.is_open }
    requires enough { (key : Option Key) →
        next.old + length (keys_of (contents_of (keyed shape.now key))) ≤ length lanes.now }
    ensures bytes { (key : Option Key) →
        Moves (K.written sink.old) (K.written sink.new) out.new (out.old.held
        ++ texts_from next.old (keys_of (contents_of (keyed shape.now key))) lanes.now) result }
    ensures next { (key : Option Key) → OnOk result
        (next.new ≡ next.old + length (keys_of (contents_of (keyed shape.now key)))) }
    ensures flushes { K.flushes sink.new ≡ K.flushes sink.old }
    ensures cause { HasCause (K.faults sink.old) (K.faults sink.new) result }
    ensures cost { steps.new + numbers_before next.old lanes.now
        ≤ steps.old + numbers_before next.new lanes.now }
{
    match shape {
        Shape::Empty | Shape::Numpy { .. } => Ok(()),
        Shape::Regular { content, .. }
        | Shape::List { content, .. }
        | Shape::ListOffset { content, .. }
        | Shape::Indexed { content, .. }
        | Shape::IndexedOption { content, .. }
        | Shape::ByteMasked { content, .. }
        | Shape::BitMasked { content, .. }
        | Shape::Unmasked { content } => write_buffers(content, lanes, next, out, sink, steps),
        Shape::Row { contents, .. } | Shape::Union { contents, .. } => {
            write_all(contents, lanes, next, out, sink, steps)
        }
    }
}

/// Puts the buffers of forms in order.
#[cycle(buffers)]
fn write_all<K: Sink, L: Ledger>(
    forms: &Forms,
    lanes: &ByteLanes<'_>,
    next: &mut usize,
    out: &mut Out,
    sink: &mut K,
    steps: &mut Steps<L>,
) -> Result<(), WriteFault>
    requires open { IsTrue out.old.is_open }
    requires enough { next.old + length (keys_of (forms_from (forms_of forms.now)))
        ≤ length lanes.now }
    ensures bytes { Moves (K.written sink.old) (K.written sink.new) out.new (out.old.held
        ++ texts_from next.old (keys_of (forms_from (forms_of forms.now))) lanes.now) result }
    ensures next { OnOk result
        (next.new ≡ next.old + length (keys_of (forms_from (forms_of forms.now)))) }
    ensures flushes { K.flushes sink.new ≡ K.flushes sink.old }
    ensures cause { HasCause (K.faults sink.old) (K.faults sink.new) result }
    ensures cost { steps.new + numbers_before next.old lanes.now
        ≤ steps.old + numbers_before next.new lanes.now }
{
    for i in 0..forms.len() {
        write_buffers(forms.get(i), lanes, next, out, sink, steps)?;
    }
    Ok(())
}

/// Puts the buffers of a node itself.
fn write_own<K: Sink, L: Ledger>(
    form: &Form,
    lanes: &ByteLanes<'_>,
    next: &mut usize,
    out: &mut Out,
    sink: &mut K,
    steps: &mut Steps<L>,
) -> Result<(), WriteFault>
    requires open { IsTrue out.old.is_open }
    requires enough { next.old + length (own_keys (form_of form.now)) ≤ length lanes.now }
    ensures bytes { Moves (K.written sink.old) (K.written sink.new) out.new
        (out.old.held ++ texts_from next.old (own_keys (form_of form.now)) lanes.now) result }
    ensures next { OnOk result (next.new ≡ next.old + length (own_keys (form_of form.now))) }
    ensures flushes { K.flushes sink.new ≡ K.flushes sink.old }
    ensures cause { HasCause (K.faults sink.old) (K.faults sink.new) result }
    ensures cost { steps.new + numbers_before next.old lanes.now
        ≤ steps.old + numbers_before next.new lanes.now }
{
    let key = &form.key;
    match &form.shape {
        Shape::Empty | Shape::Regular { .. } | Shape::Row { .. } | Shape::Unmasked { .. } => {
            out.put(sink, b"")
        }
        Shape::Numpy { .. } => write_next(key, "-data", lanes, next, out, sink, steps),
        Shape::ListOffset { .. } => write_next(key, "-offsets", lanes, next, out, sink, steps),
        Shape::Indexed { .. } => write_next(key, "-index", lanes, next, out, sink, steps),
        Shape::IndexedOption { .. } => write_next(key, "-index", lanes, next, out, sink, steps),
        Shape::ByteMasked { .. } => write_next(key, "-mask", lanes, next, out, sink, steps),
        Shape::BitMasked { .. } => write_next(key, "-mask", lanes, next, out, sink, steps),
        Shape::List { .. } => write_two(key, "-starts", "-stops", lanes, next, out, sink, steps),
        Shape::Union { .. } => write_two(key, "-tags", "-index", lanes, next, out, sink, steps),
    }
}

/// Puts the next two buffers, which are those of one node.
fn write_two<K: Sink, L: Ledger>(
    key: &Option<Name>,
    first: &str,
    second: &str,
    lanes: &ByteLanes<'_>,
    next: &mut usize,
    out: &mut Out,
    sink: &mut K,
    steps: &mut Steps<L>,
) -> Result<(), WriteFault>
    requires open { IsTrue out.old.is_open }
    requires within { next.old + 1 < length lanes.now }
    ensures bytes { Moves (K.written sink.old) (K.written sink.new) out.new
        (out.old.held ++ texts_from next.old ((unwrap_or key.now [] ++ first.now)
        ∷ (unwrap_or key.now [] ++ second.now) ∷ []) lanes.now) result }
    ensures next { OnOk result (next.new ≡ next.old + 2) }
    ensures flushes { K.flushes sink.new ≡ K.flushes sink.old }
    ensures cause { HasCause (K.faults sink.old) (K.faults sink.new) result }
    ensures cost { steps.new + numbers_before next.old lanes.now
        ≤ steps.old + numbers_before next.new lanes.now }
{
    write_next(key, first, lanes, next, out, sink, steps)?;
    write_next(key, second, lanes, next, out, sink, steps)
}

/// Puts the next buffer, behind a comma where it is not the first.
fn write_next<K: Sink, L: Ledger>(
    key: &Option<Name>,
    attribute: &str,
    lanes: &ByteLanes<'_>,
    next: &mut usize,
    out: &mut Out,
    sink: &mut K,
    steps: &mut Steps<L>,
) -> Result<(), WriteFault>
    requires open { IsTrue out.old.is_open }
    requires within { next.old < length lanes.now }
    ensures bytes { Moves (K.written sink.old) (K.written sink.new) out.new
        (out.old.held ++ texts_from next.old
        ((unwrap_or key.now [] ++ attribute.now) ∷ []) lanes.now) result }
    ensures next { next.new ≡ next.old + 1 }
    ensures flushes { K.flushes sink.new ≡ K.flushes sink.old }
    ensures cause { HasCause (K.faults sink.old) (K.faults sink.new) result }
    ensures cost { steps.new + numbers_before next.old lanes.now
        ≤ steps.old + numbers_before next.new lanes.now }
{
    let _ = lanes.len(); // so the number of the next buffer fits
    let at = *next;
    *next += 1;
    out.put(sink, separator(at))?;
    write_buffer(key, attribute, lanes.get(at), out, sink, steps)
}

fn separator(at: usize) -> &'static [u8]
    ensures { result.now ≡ comma at }
{
    if at == 0 { b"" } else { b"," }
}

/// Puts a buffer: its key, which is the form key and what the buffer is for, and its bytes.
fn write_buffer<K: Sink, L: Ledger>(
    key: &Option<Name>,
    attribute: &str,
    lane: &ByteLane<'_>,
    out: &mut Out,
    sink: &mut K,
    steps: &mut Steps<L>,
) -> Result<(), WriteFault>
    requires open { IsTrue out.old.is_open }
    ensures bytes { Moves (K.written sink.old) (K.written sink.new) out.new (out.old.held
        ++ buffer_text (unwrap_or key.now [] ++ attribute.now, lane_bytes lane.now)) result }
    ensures flushes { K.flushes sink.new ≡ K.flushes sink.old }
    ensures cause { HasCause (K.faults sink.old) (K.faults sink.new) result }
    ensures cost { steps.new ≤ steps.old + size_of lane.now }
{
    write_joined(out, sink, key_text(key), attribute)?;
    out.put(sink, b":\"")?;
    write_base64(lane.bulk(steps), out, sink)?;
    out.put(sink, b"\"")
}

fn key_text(key: &Option<Name>) -> &str
    ensures { result.now ≡ unwrap_or key.now [] }
{
    match key {
        None => "",
        Some(key) => key.as_str(),
    }
}
