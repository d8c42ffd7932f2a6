//! What a line is read as, and how the next one is read.
ghost use Rattle.std.specs.Prelude.{◌≡◌, Ok, IfOk};
ghost use Rattle.awk_query.specs.AllowedLine.{IsAllowedLine};
ghost use Rattle.awk_query.specs.Line.{line_said};
ghost use Rattle.awk_query.specs.LineView.{line_view};
ghost use Rattle.awk_query.specs.declared.reading.Reading.TheVariants.{First};
ghost use Rattle.awk_framing.specs.Framing as framing;
ghost use Rattle.awk_framing.specs.Listed.{IsListed};
ghost use Rattle.awk_framing.specs.ReadView.{read_view};

use awk_expr::QueryFault;
use awk_query::{Line, Reading, read_line};
use std::alloc::{AllocError, Global};

/// What a line is read as: a line of a session, no JSON, or no line.
#[derive(Drop)]
pub enum Read {
    Line(Line),
    Json,
    Query,
}

/// What a line is read as.
pub fn read_as(alloc: Global, bytes: &[u8], reading: Reading) -> Result<Read, AllocError>
    ensures said { IfOk result (λ read. read_view read ≡ line_said reading bytes.now) }
    ensures allowed { IfOk result (λ read. IfOk (read_view read) IsAllowedLine) }

    // What a values line gives is a list.
    ensures listed { IfOk result (λ read. IfOk (read_view read) IsListed) }
{
    match read_line(alloc, bytes, reading) {
        Ok(line) => Ok(Read::Line(line)),
        Err(QueryFault::Json) => Ok(Read::Json),
        Err(QueryFault::Query) => Ok(Read::Query),
        Err(QueryFault::NoMemory) => Err(AllocError),
    }
}

/// How the next line is read behind one that is not blank.
pub fn reading_behind(reading: Reading, read: &Read) -> Reading
    ensures { result ≡ framing.reading_behind reading (read_view read.now) }
{
    match reading {
        Reading::First => behind_first(read),
        Reading::One => Reading::One,
        Reading::Two => Reading::Two,
    }
}

// The same behind the first such line.
fn behind_first(read: &Read) -> Reading
    ensures { result ≡ framing.reading_behind First (read_view read.now) }
{
    match read {
        Read::Line(line) => behind_line(line),
        Read::Json => Reading::One,
        Read::Query => Reading::One,
    }
}

fn behind_line(line: &Line) -> Reading
    ensures { result ≡ framing.reading_behind First (Ok (line_view line.now)) }
{
    match line {
        Line::Session => Reading::Two,
        Line::Load { .. }
        | Line::LoadRaw { .. }
        | Line::Let { .. }
        | Line::Values { .. }
        | Line::Show(_)
        | Line::TypeOf(_)
        | Line::Pack(_)
        | Line::Names => Reading::One,
    }
}
