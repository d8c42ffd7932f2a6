//! The answers to lines, and how they are put out.
ghost use Rattle.std.specs.Prelude.{◌≡◌, ◌≤◌, ◌+◌, ◌∷◌, [], ◌++◌, IsTrue, codes, length, map};
ghost use Rattle.awk_edge.specs.Causes.{HasCause, flushes_after};
ghost use Rattle.awk_edge.specs.Put.{Moves};
ghost use Rattle.awk_json.specs.Text.{quoted, list_text};
ghost use Rattle.awk_layout.specs.Datum.{IsDatum, datum_of};
ghost use Rattle.awk_pack.specs.Shown.{packed_of};
ghost use Rattle.awk_answer.specs.Answer.{answer_text, datum_text, is_fault};
ghost use Rattle.awk_answer.specs.AnswerView.{answer_view, kind_is_fault, IsAnswer};
ghost use Rattle.awk_answer.specs.Sending.{height_of, sent_cost, text_cost, width_of};
ghost use Rattle.awk_text.specs.PackedText.{HasLanes, packed_text};
ghost use Rattle.awk_text.specs.Buffers.{numbers_in};
ghost use Rattle.std.specs.Prelude.{OnOk};

use crate::fault::AnswerFault;
use crate::fault_text::write_fault;
use crate::pieces::write_quoted_between;
use awk_edge::{Out, Sink, WriteFault};
use awk_lanes::Steps;
use awk_layout::Datum;
use awk_pack::Packed;
use awk_text::{write_array, write_item, write_packed};
use awk_types::Names;
use std::sync::ledger::Ledger;

/// Whether the answer to a line is a fault.
#[derive(Clone, Copy, Debug, PartialEq, Eq)]
pub enum Answered {
    Fine,
    Fault,
}

/// The answer to a line.
#[derive(Drop)]
pub enum Answer<'v, 'a> {
    /// Version 2 of the session begins.
    Session,
    /// The name is bound now.
    Bound(&'v str),
    /// The value that is shown.
    Value(Datum<'a>),
    /// The text of the type that is shown.
    Type(Vec<u8>),
    /// The packed buffers that are shown.
    Packed(Packed<'a>),
    /// The bound names, in order of first binding.
    Names(Names),
    /// The line has no other answer than this fault.
    Fault(AnswerFault),
}

/// Whether an answer is a fault.
pub fn kind_of(answer: &Answer<'_, '_>) -> Answered
    ensures { kind_is_fault result ≡ is_fault (answer_view answer.now) }
{
    match answer {
        Answer::Session
        | Answer::Bound(_)
        | Answer::Value(_)
        | Answer::Type(_)
        | Answer::Packed(_)
        | Answer::Names(_) => Answered::Fine,
        Answer::Fault(_) => Answered::Fault,
    }
}

/// Puts an answer out with its line end, and flushes.
pub fn send<K: Sink, L: Ledger>(
    answer: &Answer<'_, '_>,
    out: &mut Out,
    sink: &mut K,
    steps: &mut Steps<L>,
) -> Result<(), WriteFault>
    requires open { IsTrue out.old.is_open }
    requires answer { IsAnswer answer.now }
    ensures bytes { Moves (K.written sink.old) (K.written sink.new) out.new
        (out.old.held ++ (answer_text (answer_view answer.now) ++ 10 ∷ [])) result }
    ensures empty { OnOk result (out.new.held ≡ []) }
    ensures flushed { OnOk result (IsTrue (K.flushed sink.new)) }
    ensures flushes { K.flushes sink.new ≡
        flushes_after (K.flushes sink.old) (K.written sink.new) result }
    ensures cause { HasCause (K.faults sink.old) (K.faults sink.new) result }
    ensures cost { steps.new ≤ steps.old + sent_cost answer.now }
{
    if let Err(fault) = write_answer(answer, out, sink, steps) {
        return Err(fault);
    }
    out.flush(sink)
}

// Puts the text of an answer, with its line end.
fn write_answer<K: Sink, L: Ledger>(
    answer: &Answer<'_, '_>,
    out: &mut Out,
    sink: &mut K,
    steps: &mut Steps<L>,
) -> Result<(), WriteFault>
    requires open { IsTrue out.old.is_open }
    requires answer { IsAnswer answer.now }
    ensures bytes { Moves (K.written sink.old) (K.written sink.new) out.new
        (out.old.held ++ (answer_text (answer_view answer.now) ++ 10 ∷ [])) result }
    ensures flushes { K.flushes sink.new ≡ K.flushes sink.old }
    ensures cause { HasCause (K.faults sink.old) (K.faults sink.new) result }
    ensures cost { steps.new ≤ steps.old + sent_cost answer.now }
{
    match answer {
        Answer::Session => out.put(sink, b"{\"session\":2}\n"),
        Answer::Bound(name) => {
            write_quoted_between(b"{\"bound\":", name.as_bytes(), b"}\n", out, sink)
        }
        Answer::Value(datum) => write_value(datum, out, sink, steps),
        Answer::Type(text) => write_quoted_between(b"{\"type\":", text, b"}\n", out, sink),
        Answer::Packed(p) => write_pack(p, out, sink, steps),
        Answer::Names(names) => write_names(names, out, sink),
        Answer::Fault(fault) => write_fault(fault, out, sink),
    }
}

// Puts the value of a datum, as a whole answer.
fn write_value<K: Sink, L: Ledger>(
    datum: &Datum<'_>,
    out: &mut Out,
    sink: &mut K,
    steps: &mut Steps<L>,
) -> Result<(), WriteFault>
    requires open { IsTrue out.old.is_open }
    requires datum { IsDatum datum.now }
    ensures bytes { Moves (K.written sink.old) (K.written sink.new) out.new (out.old.held
        ++ (codes "{\"value\":" ++ datum_text (datum_of datum.now) ++ (125 ∷ 10 ∷ []))) result }
    ensures flushes { K.flushes sink.new ≡ K.flushes sink.old }
    ensures cause { HasCause (K.faults sink.old) (K.faults sink.new) result }
    ensures cost { steps.new ≤ steps.old + text_cost (width_of datum.now) (height_of datum.now)
        (length (codes "{\"value\":" ++ datum_text (datum_of datum.now) ++ codes "}")) }
{
    out.put(sink, b"{\"value\":")?;
    write_datum(datum, out, sink, steps)?;
    out.put(sink, b"}\n")
}

// Puts an array as the list of its items, and a single value by itself.
fn write_datum<K: Sink, L: Ledger>(
    datum: &Datum<'_>,
    out: &mut Out,
    sink: &mut K,
    steps: &mut Steps<L>,
) -> Result<(), WriteFault>
    requires open { IsTrue out.old.is_open }
    requires datum { IsDatum datum.now }
    ensures bytes { Moves (K.written sink.old) (K.written sink.new) out.new
        (out.old.held ++ datum_text (datum_of datum.now)) result }
    ensures flushes { K.flushes sink.new ≡ K.flushes sink.old }
    ensures cause { HasCause (K.faults sink.old) (K.faults sink.new) result }
    ensures cost { steps.new ≤ steps.old + text_cost (width_of datum.now) (height_of datum.now)
        (length (datum_text (datum_of datum.now))) }
{
    match datum {
        Datum::Arr(array) => write_array(array, out, sink, steps),
        Datum::One(array) => write_item(array, 0, out, sink, steps),
    }
}

// Puts packed buffers, as a whole answer.
fn write_pack<K: Sink, L: Ledger>(
    p: &Packed<'_>,
    out: &mut Out,
    sink: &mut K,
    steps: &mut Steps<L>,
) -> Result<(), WriteFault>
    requires open { IsTrue out.old.is_open }
    requires lanes { HasLanes (packed_of p.now) }
    ensures bytes { Moves (K.written sink.old) (K.written sink.new) out.new
        (out.old.held ++ (packed_text (packed_of p.now) ++ 10 ∷ [])) result }
    ensures flushes { K.flushes sink.new ≡ K.flushes sink.old }
    ensures cause { HasCause (K.faults sink.old) (K.faults sink.new) result }
    ensures cost { steps.new ≤ steps.old
        + text_cost (numbers_in p.now.lanes) 0 (length (packed_text (packed_of p.now))) }
{
    write_packed(p, out, sink, steps)?;
    out.put(sink, b"\n")
}

// Puts the list of names, as a whole answer.
fn write_names<K: Sink>(names: &Names, out: &mut Out, sink: &mut K) -> Result<(), WriteFault>
    requires open { IsTrue out.old.is_open }
    ensures bytes { Moves (K.written sink.old) (K.written sink.new) out.new (out.old.held
        ++ (codes "{\"names\":" ++ list_text (map quoted names.now) ++ (125 ∷ 10 ∷ []))) result }
    ensures flushes { K.flushes sink.new ≡ K.flushes sink.old }
    ensures cause { HasCause (K.faults sink.old) (K.faults sink.new) result }
{
    out.put(sink, b"{\"names\":")?;
    awk_form::write_names(names, out, sink)?;
    out.put(sink, b"}\n")
}
