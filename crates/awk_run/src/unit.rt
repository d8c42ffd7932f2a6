//! The units of a session: a line, and the raw bytes that it asks for.
ghost use Rattle.std.specs.Prelude.{◌≡◌, ◌⊎◌, ◌≤◌, ◌<◌, Ok, None, Err, IsTrue, IsFalse, IfErr};
ghost use Rattle.std.specs.Prelude.{OnOk, Result};
ghost use Rattle.awk_edge.specs.Causes.{Rose};
ghost use Rattle.awk_framing.specs.Framing.{session_framing, raw_asked};
ghost use Rattle.awk_units.specs.Taking.{NextUnit, NeedsAtMost};

use awk_edge::{LineFault, Lines, Source};
use awk_session::{Engine, RawEnd, is_blank};
use awk_units::UnitBytes;
use std::alloc::Global;

/// The next unit, or `None` at the end. A line that asks for more raw bytes than there may be is
/// too long.
pub fn next_unit<S: Source>(
    alloc: Global,
    engine: &Engine<'_>,
    lines: &mut Lines,
    source: &mut S,
) -> Result<Option<UnitBytes>, LineFault>
    requires open { IsTrue lines.old.is_open }

    // The answer is told by the bytes held and those that the source gave.
    ensures unit { NextUnit session_framing engine.now.reading (S.left source.old)
        (S.left source.new) lines.old lines.new result }
    ensures ended { IsTrue lines.old.is_ended →
        (result ≡ Ok None) × (source.new ≡ source.old) × (lines.new ≡ lines.old) }

    // It fails to read only where the source's count rose.
    ensures later { S.faults source.old ≤ S.faults source.new }
    ensures read { IfErr result (λ fault. fault ≡ LineFault.Read →
        Rose (S.faults source.old) (S.faults source.new)) }
    ensures failed { IfErr result (λ fault. fault ≡ LineFault.Read →
        IsFalse (S.is_ended source.new)) }
    ensures told { OnOk result (IsTrue lines.new.is_ended →
        IsTrue (S.is_ended source.new) ⊎ IsTrue lines.old.is_ended) }
{
    let line = match lines.next(alloc, source) {
        Ok(Some(line)) => line,
        Ok(None) => return Ok(None),
        Err(fault) => return Err(fault),
    };
    let count = match raw_count(alloc, engine, &line) {
        Ok(count) => count,
        Err(fault) => return Err(fault),
    };
    match lines.raw(alloc, source, count) {
        Ok(raw) => Ok(Some(UnitBytes { line, raw })),
        Err(fault) => Err(fault),
    }
}

// How many raw bytes a line asks for.
fn raw_count(alloc: Global, engine: &Engine<'_>, line: &[u8]) -> Result<u64, LineFault>
    ensures { NeedsAtMost (raw_asked engine.now.reading line.now) result }
{
    if is_blank(line) {
        return Ok(0);
    }
    match engine.raw_need(alloc, line) {
        Ok(count) => Ok(count),
        Err(RawEnd::TooMany) => Err(LineFault::LineTooLong),
        Err(RawEnd::NoMemory) => Err(LineFault::NoMemory),
    }
}
