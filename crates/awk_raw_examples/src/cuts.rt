//! A session of version 2 that ends in a raw load, cut before its end.
ghost use Rattle.std.specs.Prelude.{◌≡◌, ◌<◌};

use awk_edge::{MemSource, NoMemory, StdSink};
use awk_lanes::Steps;
use awk_run::{Status, run_words};
use std::alloc::Global;
use std::io;
use std::sync::ledger::{Blank, Ledger};

// One list of two int8. The key between the others has no bytes.
const LINES: &[u8] = b"{\"session\":2}\n\
    {\"load\":\"x\",\"form\":{\"class\":\"ListOffsetArray\",\"offsets\":\"i32\",\"content\":\
    {\"class\":\"NumpyArray\",\"primitive\":\"int8\",\"form_key\":\"node1\"},\
    \"form_key\":\"node0\"},\"length\":1,\"byteorder\":\">\",\
    \"raw\":[[\"node0-offsets\",8],[\"none\",0],[\"node1-data\",2]]}";

/// The line's end, the offsets 0 and 2, and the numbers.
pub(crate) const REST: &[u8] = b"\n\x00\x00\x00\x00\x00\x00\x00\x02\x05\xff";

/// A run over the lines and so much of the rest, whose steps nobody reads.
pub(crate) fn answer_part<L: Ledger>(rt: &HostRuntime, blank: Blank, rest: &[u8]) -> Status
    requires name { blank.name ≡ L.name }
    requires parts { blank.parts ≡ L.parts }
    requires some { 0 < blank.parts }
{
    let alloc = rt.alloc();
    let (Ok(words), Ok(mut source)) = (words(alloc), source(alloc, rest)) else {
        return Status::Memory;
    };
    let mut sink = StdSink::new(io::writer(rt));
    run_words(
        alloc,
        &words,
        &mut source,
        &mut sink,
        &mut Steps::<L>::new(rt, blank),
    )
}

fn words(alloc: Global) -> Result<Vec<String>, NoMemory> {
    let mut words = Vec::new(alloc);
    words.push(String::from_str(alloc, "run")?)?;
    Ok(words)
}

fn source(alloc: Global, rest: &[u8]) -> Result<MemSource, NoMemory> {
    let mut session = Vec::new(alloc);
    session.extend_from_slice(LINES)?;
    session.extend_from_slice(rest)?;
    MemSource::new(alloc, &session, 7, &[])
}
