//! The engine: a session's variables, and the answers to its lines.
ghost use Rattle.std.specs.Prelude.{◌≡◌, ◌≢◌, ◌≤◌, ◌+◌, [], Some, Err, IsTrue, IsFalse, IfErr};
ghost use Rattle.std.specs.Prelude.{OnOk, IfSome, length};
ghost use Rattle.awk_types.specs.DataType as types;
ghost use Rattle.awk_edge.specs.Causes.{Rose, flushes_after};
ghost use Rattle.awk_eval.specs.Bindings.{look_up};
ghost use Rattle.awk_eval.specs.Views.{sizes_of};
ghost use Rattle.awk_query.specs.declared.reading.Reading.TheVariants.{First};
ghost use Rattle.awk_session.specs.Cost.{line_in, is_plain, cost_of};
ghost use Rattle.awk_framing.specs.Framing as framing;
ghost use Rattle.awk_session.specs.Leaves.{Leaves};
ghost use Rattle.awk_framing.specs.Needs.{Needs};
ghost use Rattle.awk_session.specs.Replies.{step};
ghost use Rattle.awk_session.specs.Spending.{Binds, IsOfArrays, Unless, name_in};
ghost use Rattle.awk_session.specs.State.{denoted_state};

use crate::line::{RawLine, answer_given, answer_line};
use crate::state::{Arenas, SessionState, empty_arena};
use awk_answer::Answered;
use awk_edge::{Out, Sink};
use awk_eval::Env;
use awk_framing::{RawEnd, raw_need};
use awk_lanes::{Arena, Steps};
use awk_query::Reading;
use awk_store::Room;
use bumpalo::Bump;
use std::alloc::Global;
use std::marker::Model;
use std::sync::ledger::Ledger;
use thiserror::Error;

/// Why a line was not answered.
#[derive(Clone, Copy, Debug, PartialEq, Eq, Error)]
pub enum LineEnd {
    #[error("the sink failed")]
    Write,
    #[error("memory is wanting")]
    NoMemory,
}

/// The variables that lines have bound, in the order of first binding, and how the next line is
/// read. The buffers of the variables lie in the arena that is kept, and those of what a line only
/// shows in the other, which is emptied after the answer.
#[derive(Drop)]
pub struct Engine<'a> {
    state: SessionState<'a>,
    kept: &'a Arena,
    scratch: Arena,
}

impl<'a> Model for Engine<'a> {
    ghost use Rattle.awk_eval.specs.Variables.{Variables};
    ghost use Rattle.awk_session.specs.State.{State, coded_state};

    ghost Value = { State Variables };

    ghost coded = { coded_state };

    ghost use Rattle.awk_session.specs.StateView.{shown};

    ghost view = { λ s. shown s.state };
}

impl<'a> Engine<'a> {
    /// An engine without variables, before the first line. What lines bind lies in the arena.
    pub fn new(alloc: Global, arena: &'a Arena) -> Engine<'a>
        ensures { result ≡ record { reading = First; variables = [] } }
    {
        Engine {
            state: SessionState {
                env: Env::new(alloc),
                reading: Reading::First,
            },
            kept: arena,
            scratch: Bump::new(alloc),
        }
    }

    /// The variables.
    pub fn env(&self) -> &Env<'a>
        ensures { result.now ≡ self.now.variables }
    {
        &self.state.env
    }

    /// How the next line is read: `First` before the first answer, and then by its line, `Two`
    /// where that began version 2 and else `One`.
    pub fn reading(&self) -> Reading
        ensures { result ≡ self.now.reading }
    {
        self.state.reading
    }

    /// How many raw bytes a line that is not blank asks for: none but a raw load does.
    ///
    /// Only in version 2 is the line read for that.
    pub fn raw_need(&self, alloc: Global, bytes: &[u8]) -> Result<u64, RawEnd>
        requires not_blank { IsFalse (framing.is_blank bytes.now) }

        // It is the sum of the counts, and `TooMany` comes exactly where that is more than may be.
        ensures { Needs (framing.raw_asked self.now.reading bytes.now) result }
    {
        raw_need(alloc, self.state.reading, bytes)
    }

    /// Answers a line that is not blank with the raw bytes behind it, and flushes. All its memory
    /// is taken before the first byte of the answer is put. Of a line that is no raw load the raw
    /// bytes are not looked at.
    pub fn line_raw<K: Sink, L: Ledger>(
        &mut self,
        alloc: Global,
        bytes: &[u8],
        raw: &[u8],
        out: &mut Out,
        sink: &mut K,
        steps: &mut Steps<L>,
    ) -> Result<Answered, LineEnd>
        requires open { IsTrue out.old.is_open }
        requires not_blank { IsFalse (framing.is_blank bytes.now) }

        // The answer, the variables and how the next line is read are those of the step, and after
        // a write fault the output is closed. Want of memory leaves all as it was.
        ensures leaves { Leaves (K.written sink.old) (K.written sink.new) out.old out.new
            (denoted_state self.old) (denoted_state self.new)
            (step (denoted_state self.old) bytes.now raw.now) result }
        ensures same { result ≡ Err LineEnd.NoMemory → self.new ≡ self.old }
        ensures untouched { result ≡ Err LineEnd.NoMemory → sink.new ≡ sink.old }

        // An answer that was put is flushed.
        ensures flushed { OnOk result (IsTrue (K.flushed sink.new)) }
        ensures flushes { K.flushes sink.new ≡
            flushes_after (K.flushes sink.old) (K.written sink.new) result }

        // It fails to write only where the sink's count rose.
        ensures later { K.faults sink.old ≤ K.faults sink.new }
        ensures write { IfErr result (λ end. end ≡ LineEnd.Write →
            Rose (K.faults sink.old) (K.faults sink.new)) }

        // A load binds an array no greater than its form, a values line an array, and a let of a
        // view of an array one no greater than that. What the line does not bind stays the same
        // datum.
        ensures binds { Unless result (Binds (line_in self.old.reading bytes.now)
            (step (denoted_state self.old) bytes.now raw.now).is_fault
            self.old.variables self.new.variables) }
        ensures keeps { (n : types.Name) → name_in self.old.reading bytes.now ≢ Some n →
            look_up n self.new.variables ≡ look_up n self.old.variables }

        // A line that has a cost, and whose view is of an array, takes at most that.
        ensures cost { IsTrue (is_plain self.old.reading bytes.now) →
            IfSome (line_in self.old.reading bytes.now) (IsOfArrays self.old.variables) →
            steps.new ≤ steps.old + cost_of (sizes_of self.old.variables)
            (line_in self.old.reading bytes.now) (length bytes.now + length raw.now)
            (step (denoted_state self.old) bytes.now raw.now).answer }
    {
        let unit = RawLine { line: bytes, raw };
        let arenas = Arenas {
            alloc,
            kept: self.kept,
            scratch: &self.scratch,
        };
        let answered = answer_line(&mut self.state, &unit, &arenas, out, sink, steps);
        empty_arena(alloc, &mut self.scratch);
        answered
    }

    /// Answers a line that is not blank, without raw bytes, and flushes.
    pub fn line<K: Sink, L: Ledger>(
        &mut self,
        alloc: Global,
        bytes: &[u8],
        out: &mut Out,
        sink: &mut K,
        steps: &mut Steps<L>,
    ) -> Result<Answered, LineEnd>
        requires open { IsTrue out.old.is_open }
        requires not_blank { IsFalse (framing.is_blank bytes.now) }

        // As for a line with no raw bytes behind it.
        ensures leaves { Leaves (K.written sink.old) (K.written sink.new) out.old out.new
            (denoted_state self.old) (denoted_state self.new)
            (step (denoted_state self.old) bytes.now []) result }
        ensures same { result ≡ Err LineEnd.NoMemory → self.new ≡ self.old }
        ensures untouched { result ≡ Err LineEnd.NoMemory → sink.new ≡ sink.old }
        ensures flushed { OnOk result (IsTrue (K.flushed sink.new)) }
        ensures flushes { K.flushes sink.new ≡
            flushes_after (K.flushes sink.old) (K.written sink.new) result }
        ensures later { K.faults sink.old ≤ K.faults sink.new }
        ensures write { IfErr result (λ end. end ≡ LineEnd.Write →
            Rose (K.faults sink.old) (K.faults sink.new)) }
        ensures binds { Unless result (Binds (line_in self.old.reading bytes.now)
            (step (denoted_state self.old) bytes.now []).is_fault
            self.old.variables self.new.variables) }
        ensures keeps { (n : types.Name) → name_in self.old.reading bytes.now ≢ Some n →
            look_up n self.new.variables ≡ look_up n self.old.variables }
        ensures cost { IsTrue (is_plain self.old.reading bytes.now) →
            IfSome (line_in self.old.reading bytes.now) (IsOfArrays self.old.variables) →
            steps.new ≤ steps.old + cost_of (sizes_of self.old.variables)
            (line_in self.old.reading bytes.now) (length bytes.now)
            (step (denoted_state self.old) bytes.now []).answer }
    {
        self.line_raw(alloc, bytes, &[], out, sink, steps)
    }

    /// Answers a line that is not blank with the raw bytes behind it, as `line_raw` does. The line
    /// is given up: once it is read, the bytes of a long text of a load may lie in its memory, so
    /// that they need no other, and its place owns that from then on. Else it is given back.
    pub fn line_given<K: Sink, L: Ledger>(
        &mut self,
        alloc: Global,
        line: Room<'a>,
        raw: &[u8],
        out: &mut Out,
        sink: &mut K,
        steps: &mut Steps<L>,
    ) -> Result<Answered, LineEnd>
        requires open { IsTrue out.old.is_open }
        requires not_blank { IsFalse (framing.is_blank line.memory.items) }
        ensures leaves { Leaves (K.written sink.old) (K.written sink.new) out.old out.new
            (denoted_state self.old) (denoted_state self.new)
            (step (denoted_state self.old) line.entry.memory.items raw.now) result }
        ensures same { result ≡ Err LineEnd.NoMemory → self.new ≡ self.old }
        ensures untouched { result ≡ Err LineEnd.NoMemory → sink.new ≡ sink.old }
        ensures flushed { OnOk result (IsTrue (K.flushed sink.new)) }
        ensures flushes { K.flushes sink.new ≡
            flushes_after (K.flushes sink.old) (K.written sink.new) result }
        ensures later { K.faults sink.old ≤ K.faults sink.new }
        ensures write { IfErr result (λ end. end ≡ LineEnd.Write →
            Rose (K.faults sink.old) (K.faults sink.new)) }
        ensures binds { Unless result (Binds (line_in self.old.reading line.entry.memory.items)
            (step (denoted_state self.old) line.entry.memory.items raw.now).is_fault
            self.old.variables self.new.variables) }
        ensures keeps { (n : types.Name) →
            name_in self.old.reading line.entry.memory.items ≢ Some n →
            look_up n self.new.variables ≡ look_up n self.old.variables }
        ensures cost { let bytes = line.entry.memory.items in
            IsTrue (is_plain self.old.reading bytes) →
            IfSome (line_in self.old.reading bytes) (IsOfArrays self.old.variables) →
            steps.new ≤ steps.old + cost_of (sizes_of self.old.variables)
            (line_in self.old.reading bytes) (length bytes + length raw.now)
            (step (denoted_state self.old) bytes raw.now).answer }
    {
        let arenas = Arenas {
            alloc,
            kept: self.kept,
            scratch: &self.scratch,
        };
        let answered = answer_given(&mut self.state, line, raw, &arenas, out, sink, steps);
        empty_arena(alloc, &mut self.scratch);
        answered
    }
}
