//! A session, answered unit by unit.
ghost use Rattle.std.specs.Prelude.{◌||◌, ◌++◌, List, ℕ, Some, Err, ◌≡◌, ◌≢◌, ◌↔◌, ◌⊎◌, ◌≤◌, ◌+◌};
ghost use Rattle.std.specs.Prelude.{◌∷◌, [], IsTrue, IsFalse, IfErr, OnErr, OnOk, length};
ghost use Rattle.std.specs.Prelude.{if◌then◌else◌};
ghost use Rattle.awk_edge.specs.Causes.{Rose, flushes_after};
ghost use Rattle.awk_made.specs.Session.{session_of};
ghost use Rattle.awk_session.specs.Cost.{are_plain, cost, line_in};
ghost use Rattle.awk_framing.specs.Framing as framing;
ghost use Rattle.awk_framing.specs.Framing.{session_units};
ghost use Rattle.awk_session.specs.Leaves.{Leaves};
ghost use Rattle.awk_session.specs.Replies.{answers, step};
ghost use Rattle.awk_session.specs.Spending.{Binds, TakesCost, Unless};
ghost use Rattle.awk_session.specs.State.{denoted_state};
ghost use Rattle.awk_run.specs.Answering.{Answers};
ghost use Rattle.awk_run.specs.Session.{Session, MadeSession, Completes, IsComplete};
ghost use Rattle.awk_run.specs.Session.{IsWithin, number_of};
ghost use Rattle.awk_run.specs.Words.{IsRun, IsMake, AreWrong};

use crate::made::MadeSource;
use crate::unit::next_unit;
use crate::words::{Task, task_in};
use awk_edge::{LineFault, Lines, Out, Sink, Source};
use awk_lanes::Steps;
use awk_made::session_of;
use awk_session::{Answered, Engine, LineEnd, Room, is_blank};
use awk_units::UnitBytes;
use bumpalo::Bump;
use std::alloc::Global;
use std::sync::ledger::Ledger;

/// A line of so many bytes is long.
const LONG_LINE: usize = 1_048_576;

/// How a run ended.
#[derive(Clone, Copy, Debug, PartialEq, Eq)]
pub enum Status {
    /// Each unit was answered, and no answer is a fault.
    Fine,
    /// Each unit was answered, and some answer is a fault.
    Faults,
    /// The words of the command line are not known.
    Words,
    /// The source failed.
    Read,
    /// The sink failed.
    Write,
    /// Memory was wanting.
    Memory,
    /// A line has more bytes than a line may have, or asks for more raw bytes.
    LineTooLong,
    /// There are more lines than there may be.
    TooManyLines,
}

impl Status {
    /// The number that the program ends with.
    pub fn number(&self) -> u8
        ensures { result ≡ number_of self.now }
    {
        match self {
            Status::Fine => 0,
            Status::Faults => 1,
            Status::Words => 2,
            Status::Read => 3,
            Status::Write => 4,
            Status::Memory => 5,
            Status::LineTooLong => 6,
            Status::TooManyLines => 7,
        }
    }
}

/// Answers a session: the one that the source gives where the words are the one word `run`, the
/// made one of a seed and a number of events where they are `make` and these two numbers.
/// The sink is flushed at the end of each answer, and at no other time. The answer that it fails in
/// is not flushed.
pub fn run_words<S: Source, K: Sink, L: Ledger>(
    alloc: Global,
    words: &[String],
    source: &mut S,
    sink: &mut K,
    steps: &mut Steps<L>,
) -> Status
    // The words are wrong exactly where they are of neither form, and then nothing is read or
    // written.
    ensures words { (result ≡ Status.Words) ↔ AreWrong words.now }
    ensures untouched { result ≡ Status.Words → (source.new ≡ source.old) × (sink.new ≡ sink.old) }

    // A complete run wrote the answers to all the units of the source, or of the made session.
    ensures answers { IsRun words.now → (bytes before : List ℕ) → S.left source.old ≡ Some bytes →
        K.written sink.old ≡ Some before → IsComplete result →
        K.written sink.new ≡ Some (before ++ answers (session_units bytes)) }
    ensures answers_made { (seed events : ℕ) → IsMake words.now seed events → (before : List ℕ) →
        K.written sink.old ≡ Some before → IsComplete result →
        K.written sink.new ≡ Some (before ++ answers (session_units (session_of seed events))) }

    // What each status says of the bytes that the source gave, of those that were written, and of
    // what had been written at each flush; and what these bytes cost at most.
    ensures session { IsRun words.now → Session (S.left source.old) (S.left source.new)
        (K.written sink.old) (K.written sink.new) (K.flushes sink.old) (K.flushes sink.new)
        steps.old steps.new result }

    // The same of a made session, for which nothing is read.
    ensures made { (seed events : ℕ) → IsMake words.now seed events →
        MadeSession (session_of seed events)
        (K.written sink.old) (K.written sink.new) (K.flushes sink.old) (K.flushes sink.new)
        steps.old steps.new result }
    ensures unread { (IsRun words.now → ⊥) → source.new ≡ source.old }

    // Unless the sink failed, nothing that was written is left unflushed.
    ensures flushed { result ≢ Status.Write → IsTrue (K.flushed sink.new) ⊎ (sink.new ≡ sink.old) }

    // A run fails to read or to write only where the source or the sink failed in it.
    ensures read { result ≡ Status.Read → Rose (S.faults source.old) (S.faults source.new) }
    ensures write { result ≡ Status.Write → Rose (K.faults sink.old) (K.faults sink.new) }

    // A complete run was told the end, and one that fails to read was not.
    ensures ended { IsRun words.now → IsComplete result → IsTrue (S.is_ended source.new) }
    ensures failed { result ≡ Status.Read → IsFalse (S.is_ended source.new) }

    // Where neither failed, memory was not wanting and no limit is passed, the run is complete.
    ensures complete { IsRun words.now → (Rose (S.faults source.old) (S.faults source.new) → ⊥) →
        (Rose (K.faults sink.old) (K.faults sink.new) → ⊥) → result ≢ Status.Memory →
        Completes (S.left source.old) (S.left source.new)
        (K.written sink.old) (K.written sink.new) result }
    ensures complete_told { (bytes : List ℕ) → S.left source.old ≡ Some bytes →
        IsWithin bytes → IsRun words.now →
        (Rose (S.faults source.old) (S.faults source.new) → ⊥) →
        (Rose (K.faults sink.old) (K.faults sink.new) → ⊥) → result ≢ Status.Memory →
        IsComplete result }
    ensures complete_made { (seed events : ℕ) → IsMake words.now seed events →
        (Rose (K.faults sink.old) (K.faults sink.new) → ⊥) → result ≢ Status.Memory →
        IsComplete result }

    // A session of units that each have a cost takes at most what they cost together.
    ensures cost { IsRun words.now → (bytes : List ℕ) → S.left source.old ≡ Some bytes →
        IsTrue (are_plain (session_units bytes)) →
        steps.new ≤ steps.old + cost (session_units bytes) }
{
    match task_in(words) {
        Some(Task::Run) => run(alloc, source, sink, steps),
        Some(Task::Make { seed, events }) => make(alloc, seed, events, sink, steps),
        None => Status::Words,
    }
}

// Answers the made session of a seed and so many events.
fn make<K: Sink, L: Ledger>(
    alloc: Global,
    seed: u32,
    events: u32,
    sink: &mut K,
    steps: &mut Steps<L>,
) -> Status
    requires seed { (1 ≤ seed) × (seed ≤ 2147483646) }
    requires events { events ≤ 1000000 }
    ensures made { MadeSession (session_of seed events)
        (K.written sink.old) (K.written sink.new) (K.flushes sink.old) (K.flushes sink.new)
        steps.old steps.new result }
    ensures flushed { result ≢ Status.Write → IsTrue (K.flushed sink.new) ⊎ (sink.new ≡ sink.old) }
    ensures write { result ≡ Status.Write → Rose (K.faults sink.old) (K.faults sink.new) }
{
    let Ok(text) = session_of(alloc, seed, events) else {
        return Status::Memory;
    };
    let mut source = MadeSource::new(&text);
    run(alloc, &mut source, sink, steps)
}

// Answers a session.
fn run<S: Source, K: Sink, L: Ledger>(
    alloc: Global,
    source: &mut S,
    sink: &mut K,
    steps: &mut Steps<L>,
) -> Status
    ensures not_words { result ≢ Status.Words }
    ensures session { Session (S.left source.old) (S.left source.new)
        (K.written sink.old) (K.written sink.new) (K.flushes sink.old) (K.flushes sink.new)
        steps.old steps.new result }
    ensures flushed { result ≢ Status.Write → IsTrue (K.flushed sink.new) ⊎ (sink.new ≡ sink.old) }
    ensures read { result ≡ Status.Read → Rose (S.faults source.old) (S.faults source.new) }
    ensures write { result ≡ Status.Write → Rose (K.faults sink.old) (K.faults sink.new) }
    ensures ended { IsComplete result → IsTrue (S.is_ended source.new) }
    ensures failed { result ≡ Status.Read → IsFalse (S.is_ended source.new) }
    ensures cost { (bytes : List ℕ) → S.left source.old ≡ Some bytes →
        IsTrue (are_plain (session_units bytes)) →
        steps.new ≤ steps.old + cost (session_units bytes) }
{
    let mut lines = Lines::new();
    let mut out = Out::new();
    let arena = Bump::new(alloc);
    let mut kept_line = Vec::new(alloc);
    let mut engine = Engine::new(alloc, &arena);
    let mut place = Some(&mut kept_line);
    let mut any_fault = false;
    loop {
        match next_unit(alloc, &engine, &mut lines, source) {
            Ok(Some(unit)) => match answer(
                alloc,
                &mut engine,
                unit,
                &mut place,
                &mut out,
                sink,
                steps,
            ) {
                Ok(is_fault) => any_fault = either(any_fault, is_fault),
                Err(LineEnd::Write) => return Status::Write,
                Err(LineEnd::NoMemory) => return Status::Memory,
            },
            Ok(None) => {
                if any_fault {
                    return Status::Faults;
                }
                return Status::Fine;
            }
            Err(LineFault::Read) => return Status::Read,
            Err(LineFault::NoMemory) => return Status::Memory,
            Err(LineFault::LineTooLong) => return Status::LineTooLong,
            Err(LineFault::TooManyLines) => return Status::TooManyLines,
        }
    }
}

fn either(a: bool, b: bool) -> bool
    ensures { result ≡ (a || b) }
{
    a || b
}

// The place for a line of so many bytes, if it is the first long one.
fn place_for<'a>(place: &mut Option<&'a mut Vec<u8>>, len: usize) -> Option<&'a mut Vec<u8>> {
    if len < LONG_LINE {
        return None;
    }
    place.take()
}

// Answers a unit whose line is not blank. The first long line is given up, and the place owns its
// memory if the bytes of a long text of it lie there.
fn answer_line<'a, K: Sink, L: Ledger>(
    alloc: Global,
    engine: &mut Engine<'a>,
    unit: UnitBytes,
    place: &mut Option<&'a mut Vec<u8>>,
    out: &mut Out,
    sink: &mut K,
    steps: &mut Steps<L>,
) -> Result<Answered, LineEnd>
    requires open { IsTrue out.old.is_open }
    requires not_blank { IsFalse (framing.is_blank unit.line.items) }
    ensures leaves { Leaves (K.written sink.old) (K.written sink.new) out.old out.new
        (denoted_state engine.old) (denoted_state engine.new)
        (step (denoted_state engine.old) unit.line.items unit.raw.items) result }
    ensures untouched { result ≡ Err LineEnd.NoMemory → sink.new ≡ sink.old }
    ensures flushed { OnOk result (IsTrue (K.flushed sink.new)) }
    ensures flushes { K.flushes sink.new ≡
        flushes_after (K.flushes sink.old) (K.written sink.new) result }
    ensures later { K.faults sink.old ≤ K.faults sink.new }
    ensures write { IfErr result (λ end. end ≡ LineEnd.Write →
        Rose (K.faults sink.old) (K.faults sink.new)) }
    ensures binds { Unless result (Binds (line_in engine.old.reading unit.line.items)
        (step (denoted_state engine.old) unit.line.items unit.raw.items).is_fault
        engine.old.variables engine.new.variables) }
    ensures cost { TakesCost engine.old.variables (line_in engine.old.reading unit.line.items)
        (length unit.line.items + length unit.raw.items)
        (step (denoted_state engine.old) unit.line.items unit.raw.items).answer
        steps.old steps.new }
{
    match place_for(place, unit.line.len()) {
        Some(place) => {
            let line = Room {
                memory: unit.line,
                place,
            };
            engine.line_given(alloc, line, &unit.raw, out, sink, steps)
        }
        None => engine.line_raw(alloc, &unit.line, &unit.raw, out, sink, steps),
    }
}

// Answers a unit, if its line is not blank. It tells whether the answer is a fault.
fn answer<'a, K: Sink, L: Ledger>(
    alloc: Global,
    engine: &mut Engine<'a>,
    unit: UnitBytes,
    place: &mut Option<&'a mut Vec<u8>>,
    out: &mut Out,
    sink: &mut K,
    steps: &mut Steps<L>,
) -> Result<bool, LineEnd>
    requires open { IsTrue out.old.is_open }
    requires empty { out.old.held ≡ [] }
    ensures answers { Answers (K.written sink.old) (K.written sink.new) out.new
        (denoted_state engine.old) (denoted_state engine.new) unit.line.items
        unit.raw.items result }
    ensures flushes { OnOk result (K.flushes sink.new ≡
        (if framing.is_blank unit.line.items then K.flushes sink.old
        else K.flushes sink.old ++ K.written sink.new ∷ [])) }
    ensures unflushed { OnErr result (K.flushes sink.new ≡ K.flushes sink.old) }
    ensures flushed { OnOk result (IsTrue (K.flushed sink.new) ⊎ (sink.new ≡ sink.old)) }
    ensures some { OnErr result (IsFalse (framing.is_blank unit.line.items)) }
    ensures untouched { result ≡ Err LineEnd.NoMemory → sink.new ≡ sink.old }
    ensures later { K.faults sink.old ≤ K.faults sink.new }
    ensures write { IfErr result (λ end. end ≡ LineEnd.Write →
        Rose (K.faults sink.old) (K.faults sink.new)) }
    ensures binds { OnOk result (Binds (line_in engine.old.reading unit.line.items)
        (step (denoted_state engine.old) unit.line.items unit.raw.items).is_fault
        engine.old.variables engine.new.variables) }
    ensures cost { TakesCost engine.old.variables (line_in engine.old.reading unit.line.items)
        (length unit.line.items + length unit.raw.items)
        (step (denoted_state engine.old) unit.line.items unit.raw.items).answer
        steps.old steps.new }
{
    if is_blank(&unit.line) {
        return Ok(false);
    }
    match answer_line(alloc, engine, unit, place, out, sink, steps) {
        Ok(Answered::Fine) => Ok(false),
        Ok(Answered::Fault) => Ok(true),
        Err(end) => Err(end),
    }
}
