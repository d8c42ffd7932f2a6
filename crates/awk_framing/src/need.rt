//! How many raw bytes follow a line.
ghost use Rattle.std.specs.Prelude.{◌≡◌, ◌<◌, ◌≤◌, Ok, IsFalse, MatchOption};
ghost use Rattle.awk_edge.specs.Units.{raw_limit};
ghost use Rattle.awk_query.specs.Line.{line_said};
ghost use Rattle.awk_query.specs.LineView.{line_view};
ghost use Rattle.awk_query.specs.declared.reading.Reading.TheVariants.{Two};
ghost use Rattle.awk_framing.specs.Framing as framing;
ghost use Rattle.awk_framing.specs.Needs.{Needs};
ghost use Rattle.awk_framing.specs.ReadView.{read_view};

use crate::read::{Read, read_as};
use awk_query::{Line, RawParts, Reading};
use std::alloc::Global;
use thiserror::Error;

/// Why the raw bytes of a line are not to be had.
#[derive(Clone, Copy, Debug, PartialEq, Eq, Error)]
pub enum RawEnd {
    #[error("a line asks for more than 268435456 raw bytes")]
    TooMany,
    #[error("memory is wanting")]
    NoMemory,
}

const RAW_LIMIT: u64 = 268_435_456;

/// Whether a line has no answer: it holds only spaces, tabs and carriage returns.
pub fn is_blank(line: &[u8]) -> bool
    ensures { result ≡ framing.is_blank line.now }
{
    line.iter()
        .all(|b| *b == b' ' || *b == b'\t' || *b == b'\r')
}

/// How many raw bytes a line that is not blank asks for: none but a raw load does.
///
/// Only in version 2 is the line read for that.
pub fn raw_need(alloc: Global, reading: Reading, bytes: &[u8]) -> Result<u64, RawEnd>
    requires not_blank { IsFalse (framing.is_blank bytes.now) }

    // It is the sum of the counts, and `TooMany` comes exactly where that is more than may be.
    ensures { Needs (framing.raw_asked reading bytes.now) result }
{
    match reading {
        Reading::First => Ok(0),
        Reading::One => Ok(0),
        Reading::Two => need_of_two(alloc, bytes),
    }
}

// How many raw bytes a line of version 2 asks for.
fn need_of_two(alloc: Global, bytes: &[u8]) -> Result<u64, RawEnd>
    ensures { Needs (framing.asked_by (line_said Two bytes.now)) result }
{
    match read_as(alloc, bytes, Reading::Two) {
        Ok(read) => need_of(&read),
        Err(_) => Err(RawEnd::NoMemory),
    }
}

// How many raw bytes what was read asks for.
fn need_of(read: &Read) -> Result<u64, RawEnd>
    ensures { Needs (framing.asked_by (read_view read.now)) result }
{
    match read {
        Read::Line(line) => need_of_line(line),
        Read::Json => Ok(0),
        Read::Query => Ok(0),
    }
}

fn need_of_line(line: &Line) -> Result<u64, RawEnd>
    ensures { Needs (framing.asked_by (Ok (line_view line.now))) result }
{
    match line {
        Line::LoadRaw { parts, .. } => match total_of(parts) {
            Some(total) => Ok(total),
            None => Err(RawEnd::TooMany),
        },
        Line::Load { .. }
        | Line::Session
        | Line::Let { .. }
        | Line::Values { .. }
        | Line::Show(_)
        | Line::TypeOf(_)
        | Line::Pack(_)
        | Line::Names => Ok(0),
    }
}

// How many bytes the buffers have together, if they are no more than may follow a line.
#[tactic(auto, unfolding(awk_edge::specs::Units::raw_limit))]
fn total_of(parts: &RawParts) -> Option<u64>
    ensures { MatchOption result (raw_limit < framing.total parts.now)
        (λ n. (n ≡ framing.total parts.now) × (n ≤ raw_limit)) }
{
    let mut sum = 0;
    for i in 0..parts.len() {
        let count = parts.get(i).count;
        if count > RAW_LIMIT - sum {
            return None;
        }
        sum += count;
    }
    Some(sum)
}
