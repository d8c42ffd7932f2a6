//! How a line is answered by what it is read as.
ghost use Rattle.std.specs.Prelude.{◌≡◌, ◌≤◌, ◌+◌, Err, IsTrue, IsFalse, IfOk, IfErr, OnOk, ℕ};
ghost use Rattle.std.specs.Prelude.{length};
ghost use Rattle.std.specs.Result.{result_ok};
ghost use Rattle.awk_edge.specs.Causes.{Rose, flushes_after};
ghost use Rattle.awk_query.specs.AllowedLine.{IsAllowedLine};
ghost use Rattle.awk_lengths.specs.LineBytes.{HasBytes};
ghost use Rattle.awk_session.specs.Cost.{line_in};
ghost use Rattle.awk_framing.specs.Framing.{is_blank};
ghost use Rattle.awk_session.specs.Leaves.{Leaves};
ghost use Rattle.awk_framing.specs.Listed.{IsListed};
ghost use Rattle.awk_framing.specs.ReadView.{read_view};
ghost use Rattle.awk_session.specs.Replies.{step, step_read};
ghost use Rattle.awk_session.specs.Spending.{Binds, TakesCost, Unless};
ghost use Rattle.awk_session.specs.StateView.{shown, stands};

use crate::engine::LineEnd;
use crate::reply::reply;
use crate::state::{Arenas, SessionState};
use awk_answer::{Answered, kind_of, send};
use awk_edge::{Out, Sink};
use awk_framing::{Read, read_as, reading_behind};
use awk_lanes::Steps;
use awk_store::Room;
use std::sync::ledger::Ledger;

/// A line, and the raw bytes behind it.
#[derive(Drop)]
pub struct RawLine<'v> {
    pub line: &'v [u8],
    pub raw: &'v [u8],
}

/// Answers a line that is not blank with its raw bytes, and flushes. What it binds lies in the
/// arena that is kept, and what it only shows in the other.
pub fn answer_line<'a, K: Sink, L: Ledger>(
    state: &mut SessionState<'a>,
    unit: &RawLine<'_>,
    arenas: &Arenas<'a, '_>,
    out: &mut Out,
    sink: &mut K,
    steps: &mut Steps<L>,
) -> Result<Answered, LineEnd>
    requires open { IsTrue out.old.is_open }
    requires not_blank { IsFalse (is_blank unit.now.line.now) }
    ensures leaves { Leaves (K.written sink.old) (K.written sink.new) out.old out.new
        (stands state.old) (stands state.new)
        (step (stands state.old) unit.now.line.now unit.now.raw.now) result }
    ensures same { result ≡ Err LineEnd.NoMemory → shown state.new ≡ shown state.old }
    ensures untouched { result ≡ Err LineEnd.NoMemory → sink.new ≡ sink.old }
    ensures flushed { OnOk result (IsTrue (K.flushed sink.new)) }
    ensures flushes { K.flushes sink.new ≡
        flushes_after (K.flushes sink.old) (K.written sink.new) result }
    ensures later { K.faults sink.old ≤ K.faults sink.new }
    ensures write { IfErr result (λ end. end ≡ LineEnd.Write →
        Rose (K.faults sink.old) (K.faults sink.new)) }
    ensures binds { Unless result (Binds (line_in state.old.reading unit.now.line.now)
        (step (stands state.old) unit.now.line.now unit.now.raw.now).is_fault
        state.old.env state.new.env) }
    ensures cost { TakesCost state.old.env (line_in state.old.reading unit.now.line.now)
        (length unit.now.line.now + length unit.now.raw.now)
        (step (stands state.old) unit.now.line.now unit.now.raw.now).answer
        steps.old steps.new }
{
    match read_as(arenas.alloc, unit.line, state.reading) {
        Ok(read) => answer(state, &read, unit.raw, None, arenas, out, sink, steps),
        Err(_) => Err(LineEnd::NoMemory),
    }
}

/// The same of a line that is given up: the bytes of a long text of a load may lie in its memory.
pub fn answer_given<'a, K: Sink, L: Ledger>(
    state: &mut SessionState<'a>,
    line: Room<'a>,
    raw: &[u8],
    arenas: &Arenas<'a, '_>,
    out: &mut Out,
    sink: &mut K,
    steps: &mut Steps<L>,
) -> Result<Answered, LineEnd>
    requires open { IsTrue out.old.is_open }
    requires not_blank { IsFalse (is_blank line.memory.items) }
    ensures leaves { Leaves (K.written sink.old) (K.written sink.new) out.old out.new
        (stands state.old) (stands state.new)
        (step (stands state.old) line.entry.memory.items raw.now) result }
    ensures same { result ≡ Err LineEnd.NoMemory → shown state.new ≡ shown state.old }
    ensures untouched { result ≡ Err LineEnd.NoMemory → sink.new ≡ sink.old }
    ensures flushed { OnOk result (IsTrue (K.flushed sink.new)) }
    ensures flushes { K.flushes sink.new ≡
        flushes_after (K.flushes sink.old) (K.written sink.new) result }
    ensures later { K.faults sink.old ≤ K.faults sink.new }
    ensures write { IfErr result (λ end. end ≡ LineEnd.Write →
        Rose (K.faults sink.old) (K.faults sink.new)) }
    ensures binds { Unless result (Binds (line_in state.old.reading line.entry.memory.items)
        (step (stands state.old) line.entry.memory.items raw.now).is_fault
        state.old.env state.new.env) }
    ensures cost { TakesCost state.old.env (line_in state.old.reading line.entry.memory.items)
        (length line.entry.memory.items + length raw.now)
        (step (stands state.old) line.entry.memory.items raw.now).answer
        steps.old steps.new }
{
    match read_as(arenas.alloc, line.memory.as_slice(), state.reading) {
        Ok(read) => answer(state, &read, raw, Some(line), arenas, out, sink, steps),
        Err(_) => Err(LineEnd::NoMemory),
    }
}

// Answers a line by what was read from it.
fn answer<'a, K: Sink, L: Ledger>(
    state: &mut SessionState<'a>,
    read: &Read,
    raw: &[u8],
    room: Option<Room<'a>>,
    arenas: &Arenas<'a, '_>,
    out: &mut Out,
    sink: &mut K,
    steps: &mut Steps<L>,
) -> Result<Answered, LineEnd>
    requires open { IsTrue out.old.is_open }
    requires allowed { IfOk (read_view read.now) IsAllowedLine }
    requires listed { IfOk (read_view read.now) IsListed }
    ensures leaves { Leaves (K.written sink.old) (K.written sink.new) out.old out.new
        (stands state.old) (stands state.new)
        (step_read (stands state.old) (read_view read.now) raw.now) result }
    ensures same { result ≡ Err LineEnd.NoMemory → shown state.new ≡ shown state.old }
    ensures untouched { result ≡ Err LineEnd.NoMemory → sink.new ≡ sink.old }
    ensures flushed { OnOk result (IsTrue (K.flushed sink.new)) }
    ensures flushes { K.flushes sink.new ≡
        flushes_after (K.flushes sink.old) (K.written sink.new) result }
    ensures later { K.faults sink.old ≤ K.faults sink.new }
    ensures write { IfErr result (λ end. end ≡ LineEnd.Write →
        Rose (K.faults sink.old) (K.faults sink.new)) }
    ensures binds { Unless result (Binds (result_ok (read_view read.now))
        (step_read (stands state.old) (read_view read.now) raw.now).is_fault
        state.old.env state.new.env) }
    ensures cost { (n : ℕ) → IfOk (read_view read.now) (HasBytes n) →
        TakesCost state.old.env (result_ok (read_view read.now)) (n + length raw.now)
        (step_read (stands state.old) (read_view read.now) raw.now).answer
        steps.old steps.new }
{
    match reply(&mut state.env, read, raw, room, arenas, steps) {
        Ok(answer) => {
            state.reading = reading_behind(state.reading, read);
            match send(&answer, out, sink, steps) {
                Ok(()) => Ok(kind_of(&answer)),
                Err(_) => Err(LineEnd::Write),
            }
        }
        Err(_) => Err(LineEnd::NoMemory),
    }
}
