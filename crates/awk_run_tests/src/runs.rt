// Whole runs over memory.
ghost use Rattle.std.specs.Prelude.{◌≡◌, ◌<◌};

use awk_edge::{MemSink, MemSource, NoMemory, Sink, Source, StdSource};
use awk_lanes::Steps;
use awk_run::{Status, run_words};
use std::alloc::Global;
use std::io;
use std::marker::Brand;
use std::process::Abort;
use std::sync::ledger::{Blank, Ledger};
use std::test::Fail;

// A session over a source that gives so many bytes at a time and a sink that takes so many, and has
// room for no more than it says. The calls of these numbers fail, counted from 0; each answer is a
// call to write, if it fits, and one to flush.
#[derive(Drop)]
pub struct Case<'r> {
    pub session: &'r [u8],
    pub gives: usize,
    pub failing_reads: &'r [u64],
    pub takes: usize,
    pub room: usize,
    pub failing_writes: &'r [u64],
    pub answers: &'r [u8],
    pub status: Status,
}

const UNBOUND: &[u8] = b"{\"show\":\"q\"}\n{\"show\":\"q\"}\n";

const FIRST: &[u8] = b"{\"fault\":\"name\",\"name\":\"q\"}\n";

const VERSION_1: &[u8] =
    b"{\"load\":\"x\",\"form\":0,\"length\":0,\"byteorder\":\"<\",\"raw\":[]}\n.{\"show\":1}";

// The text of 786,432 bytes stands between the first two of these, and another between the next.
const LOADS: [&[u8]; 3] = [
    b"{\"load\":\"x\",\"form\":{\"class\":\"NumpyArray\",\"primitive\":\"uint8\",\
    \"form_key\":\"node0\"},\"length\":786432,\"buffers\":{\"node0-data\":\"",
    b"\"}}\n{\"load\":\"y\",\"form\":{\"class\":\"NumpyArray\",\"primitive\":\"uint8\",\
    \"form_key\":\"node0\"},\"length\":786432,\"buffers\":{\"node0-data\":\"",
    b"\"}}\n{\"show\":[\"range\",\"x\",-4,null]}\n{\"show\":[\"range\",\"y\",0,4]}",
];

const CASES: [Case<'static>; 12] = [
    // No byte, no answer.
    Case {
        session: b"",
        gives: 7,
        failing_reads: &[],
        takes: 5,
        room: 0,
        failing_writes: &[],
        answers: b"",
        status: Status::Fine,
    },
    // Lines and answers in pieces; a blank line has no answer, and the last line has no line end.
    Case {
        session: b"{\n \t\r\n{\"show\":\"\"}\n{\"names\":null}",
        gives: 7,
        failing_reads: &[],
        takes: 5,
        room: 1000,
        failing_writes: &[],
        answers: b"{\"fault\":\"json\"}\n{\"fault\":\"name\",\"name\":\"\"}\n{\"names\":[]}\n",
        status: Status::Faults,
    },
    // Blank lines stand before the line that begins version 2. Behind it, it is no line.
    Case {
        session: b" \n\n{\"session\":2}\n{\"session\":2}\n",
        gives: 7,
        failing_reads: &[],
        takes: 5,
        room: 1000,
        failing_writes: &[],
        answers: b"{\"session\":2}\n{\"fault\":\"query\"}\n",
        status: Status::Faults,
    },
    // In version 1 a raw load is no line, and what follows it are lines.
    Case {
        session: VERSION_1,
        gives: 7,
        failing_reads: &[],
        takes: 5,
        room: 1000,
        failing_writes: &[],
        answers: b"{\"fault\":\"query\"}\n{\"fault\":\"json\"}\n",
        status: Status::Faults,
    },
    // The first read fails.
    Case {
        session: UNBOUND,
        gives: 8,
        failing_reads: &[0],
        takes: 4096,
        room: 1000,
        failing_writes: &[],
        answers: b"",
        status: Status::Read,
    },
    // The third read fails, in the midst of the second line.
    Case {
        session: UNBOUND,
        gives: 8,
        failing_reads: &[2],
        takes: 4096,
        room: 1000,
        failing_writes: &[],
        answers: FIRST,
        status: Status::Read,
    },
    // The third read fails, behind two lines that came whole.
    Case {
        session: b"{\"show\":1}\n{\"show\":2}\n{\"show\":3}\n",
        gives: 11,
        failing_reads: &[2],
        takes: 4096,
        room: 1000,
        failing_writes: &[],
        answers: b"{\"value\":1}\n{\"value\":2}\n",
        status: Status::Read,
    },
    // A read fails behind the last line end.
    Case {
        session: b"{\"show\":\"q\"}\n",
        gives: 4096,
        failing_reads: &[1],
        takes: 4096,
        room: 1000,
        failing_writes: &[],
        answers: FIRST,
        status: Status::Read,
    },
    // The write of the first answer fails.
    Case {
        session: UNBOUND,
        gives: 4096,
        failing_reads: &[],
        takes: 4096,
        room: 1000,
        failing_writes: &[0],
        answers: b"",
        status: Status::Write,
    },
    // The flush of the first answer fails.
    Case {
        session: UNBOUND,
        gives: 4096,
        failing_reads: &[],
        takes: 4096,
        room: 1000,
        failing_writes: &[1],
        answers: FIRST,
        status: Status::Write,
    },
    // The write of the second answer fails.
    Case {
        session: UNBOUND,
        gives: 4096,
        failing_reads: &[],
        takes: 4096,
        room: 1000,
        failing_writes: &[2],
        answers: FIRST,
        status: Status::Write,
    },
    // The sink is full in the midst of the second answer.
    Case {
        session: UNBOUND,
        gives: 4096,
        failing_reads: &[],
        takes: 4096,
        room: 33,
        failing_writes: &[],
        answers: b"{\"fault\":\"name\",\"name\":\"q\"}\n{\"fau",
        status: Status::Write,
    },
];

// A session of version 2 whose second line is a raw load. `parts` ends that line, and what follows
// it stands behind.
struct RawCase<'r> {
    parts: &'r [u8],
    gives: usize,
    failing_reads: &'r [u64],
    answers: &'r [u8],
    status: Status,
}

const RAW_START: &[u8] = b"{\"session\":2}\n{\"load\":\"x\",\"form\":{\"class\":\"x\"},";

const RAW_ORDER: &[u8] = b"\"length\":0,\"byteorder\":\"<\",\"raw\":";

const BEGUN: &[u8] = b"{\"session\":2}\n";

const NO_CLASS: &[u8] = b"{\"fault\":\"form\",\"node\":0,\"why\":\"class\"}\n{\"value\":1}\n";

const RAW_CASES: [RawCase<'static>; 9] = [
    // Of no bytes the first key has none.
    RawCase {
        parts: b"[[\"a\",2],[\"b\",0],[\"c\",1]]}\n",
        gives: 7,
        failing_reads: &[],
        answers: b"{\"fault\":\"buffer\",\"key\":\"a\",\"why\":\"cut\"}\n",
        status: Status::Faults,
    },
    // One byte of the first key is there.
    RawCase {
        parts: b"[[\"a\",2],[\"b\",0],[\"c\",1]]}\n.",
        gives: 7,
        failing_reads: &[],
        answers: b"{\"fault\":\"buffer\",\"key\":\"a\",\"why\":\"cut\"}\n",
        status: Status::Faults,
    },
    // The last key lacks a byte; the one before it asks for none.
    RawCase {
        parts: b"[[\"a\",2],[\"b\",0],[\"c\",1]]}\n..",
        gives: 7,
        failing_reads: &[],
        answers: b"{\"fault\":\"buffer\",\"key\":\"c\",\"why\":\"cut\"}\n",
        status: Status::Faults,
    },
    // Behind a last line without its end there are no raw bytes.
    RawCase {
        parts: b"[[\"a\",2],[\"b\",0],[\"c\",1]]}",
        gives: 7,
        failing_reads: &[],
        answers: b"{\"fault\":\"buffer\",\"key\":\"a\",\"why\":\"cut\"}\n",
        status: Status::Faults,
    },
    // All bytes are there, and the next line begins directly behind them.
    RawCase {
        parts: b"[[\"a\",2],[\"b\",0],[\"c\",1]]}\n\n\n\n{\"show\":1}",
        gives: 7,
        failing_reads: &[],
        answers: NO_CLASS,
        status: Status::Faults,
    },
    // As many bytes are asked for as there may be.
    RawCase {
        parts: b"[[\"a\",268435456]]}\n..",
        gives: 4096,
        failing_reads: &[],
        answers: b"{\"fault\":\"buffer\",\"key\":\"a\",\"why\":\"cut\"}\n",
        status: Status::Faults,
    },
    // One byte more is asked for than there may be.
    RawCase {
        parts: b"[[\"a\",268435456],[\"b\",1]]}\n..",
        gives: 4096,
        failing_reads: &[],
        answers: b"",
        status: Status::LineTooLong,
    },
    // The same by a last line without its end.
    RawCase {
        parts: b"[[\"a\",18446744073709551615],[\"b\",1]]}",
        gives: 4096,
        failing_reads: &[],
        answers: b"",
        status: Status::LineTooLong,
    },
    // Reading fails before the raw bytes are all there.
    RawCase {
        parts: b"[[\"a\",2],[\"b\",0],[\"c\",1]]}\n..",
        gives: 4096,
        failing_reads: &[1],
        answers: b"",
        status: Status::Read,
    },
];

// A run whose steps nobody reads.
pub fn run<S: Source, K: Sink>(
    host: &HostRuntime,
    words: &[String],
    source: &mut S,
    sink: &mut K,
) -> Status {
    counted::<S, K, Brand>(host, Blank::new(1), words, source, sink)
}

fn counted<S: Source, K: Sink, L: Ledger>(
    host: &HostRuntime,
    blank: Blank,
    words: &[String],
    source: &mut S,
    sink: &mut K,
) -> Status
    requires name { blank.name ≡ L.name }
    requires parts { blank.parts ≡ L.parts }
    requires some { 0 < blank.parts }
{
    let mut steps = Steps::<L>::new(host, blank);
    run_words(host.alloc(), words, source, sink, &mut steps)
}

pub fn words_of(alloc: Global, words: &[&str]) -> Result<Vec<String>, NoMemory> {
    let mut owned = Vec::new(alloc);
    for word in words {
        owned.push(String::from_str(alloc, *word)?)?;
    }
    Ok(owned)
}

pub fn check_case(rt: &impl Abort, host: &HostRuntime, case: &Case<'_>) -> Result<(), NoMemory> {
    let alloc = host.alloc();
    assert!(rt; case.gives > 0 && case.takes > 0);
    let mut source = MemSource::new(alloc, case.session, case.gives, case.failing_reads)?;
    let mut sink = MemSink::new(alloc, case.room, case.takes, case.failing_writes)?;
    let status = run(host, &words_of(alloc, &["run"])?, &mut source, &mut sink);
    assert!(rt; sink.written() == case.answers);
    assert!(rt; status == case.status);
    Ok(())
}

fn check_cases(rt: &impl Abort, host: &HostRuntime, cases: &[Case<'_>]) -> Result<(), NoMemory> {
    for case in cases {
        check_case(rt, host, case)?;
    }
    Ok(())
}

#[test]
fn streams_come_in_pieces_and_fail(rt: HostRuntime) -> Result<(), Fail> {
    check_cases(&rt, &rt, &CASES)?;
    Ok(())
}

fn joined(alloc: Global, parts: &[&[u8]]) -> Result<Vec<u8>, NoMemory> {
    let mut all = Vec::new(alloc);
    for part in parts {
        all.extend_from_slice(*part)?;
    }
    Ok(all)
}

fn check_raw_case(rt: &impl Abort, host: &HostRuntime, case: &RawCase<'_>) -> Result<(), NoMemory> {
    let alloc = host.alloc();
    let session = joined(alloc, &[RAW_START, RAW_ORDER, case.parts])?;
    let answers = joined(alloc, &[BEGUN, case.answers])?;
    let case = Case {
        session: &session,
        gives: case.gives,
        failing_reads: case.failing_reads,
        takes: 4096,
        room: 1000,
        failing_writes: &[],
        answers: &answers,
        status: case.status,
    };
    check_case(rt, host, &case)
}

#[test]
fn raw_bytes_are_taken(rt: HostRuntime) -> Result<(), Fail> {
    for case in &RAW_CASES {
        check_raw_case(&rt, &rt, case)?;
    }
    Ok(())
}

// Two loads of a mebibyte: the text of the first is decoded over its line.
#[test]
fn long_texts_are_loaded(rt: HostRuntime) -> Result<(), Fail> {
    let alloc = rt.alloc();
    let first = "AQID".repeat(alloc, 262_144)?;
    let second = "BAUG".repeat(alloc, 262_144)?;
    let mut session = joined(alloc, &[LOADS[0]])?;
    session.extend_from_slice(first.as_bytes())?;
    session.extend_from_slice(LOADS[1])?;
    session.extend_from_slice(second.as_bytes())?;
    session.extend_from_slice(LOADS[2])?;
    let case = Case {
        session: &session,
        gives: 4096,
        failing_reads: &[],
        takes: 4096,
        room: 1000,
        failing_writes: &[],
        answers: b"{\"bound\":\"x\"}\n{\"bound\":\"y\"}\n{\"value\":[3,1,2,3]}\n\
            {\"value\":[4,5,6,4]}\n",
        status: Status::Fine,
    };
    check_case(&rt, &rt, &case)?;
    Ok(())
}

#[test]
fn other_words_touch_nothing(rt: HostRuntime) -> Result<(), Fail> {
    let alloc = rt.alloc();
    let cases: [&[&str]; 14] = [
        &[],
        &["x"],
        &[""],
        &["run", "x"],
        &["run", ""],
        &["run", "run"],
        &["make"],
        &["make", "1"],
        &["make", "0", "1"],
        &["make", "1", "01"],
        &["make", "+1", "1"],
        &["make", "1", "1000001"],
        &["make", "2147483647", "1"],
        &["make", "1", "1", "1"],
    ];
    for words in cases {
        let mut source = MemSource::new(alloc, UNBOUND, 4096, &[])?;
        let mut sink = MemSink::new(alloc, 1000, 4096, &[])?;
        let status = run(&rt, &words_of(alloc, words)?, &mut source, &mut sink);
        assert!(rt; status == Status::Words && sink.written().is_empty());
    }
    Ok(())
}

// As many blank lines as there may be, and a byte more.
#[test]
fn too_many_lines_end_the_run(rt: HostRuntime) -> Result<(), Fail> {
    let alloc = rt.alloc();
    let mut bytes = vec![in alloc; b'\n'; 1_048_576]?;
    bytes.push(b'x')?;
    let mut source = MemSource::new(alloc, &bytes, 4096, &[])?;
    let mut sink = MemSink::new(alloc, 100, 4096, &[])?;
    let status = run(&rt, &words_of(alloc, &["run"])?, &mut source, &mut sink);
    assert!(rt; status == Status::TooManyLines && sink.written().is_empty());
    Ok(())
}

// A line without an end.
#[test]
fn a_long_line_ends_the_run(rt: HostRuntime) -> Result<(), Fail> {
    let alloc = rt.alloc();
    let mut source = StdSource::new(io::repeat(b'a'));
    let mut sink = MemSink::new(alloc, 100, 4096, &[])?;
    let status = run(&rt, &words_of(alloc, &["run"])?, &mut source, &mut sink);
    assert!(rt; status == Status::LineTooLong && sink.written().is_empty());
    Ok(())
}

// Answers a made session. The source would fail.
fn make(host: &HostRuntime, words: &[&str], sink: &mut MemSink) -> Result<Status, NoMemory> {
    let mut source = MemSource::new(host.alloc(), UNBOUND, 4096, &[0])?;
    let words = words_of(host.alloc(), words)?;
    Ok(run(host, &words, &mut source, sink))
}

#[test]
fn a_session_is_made_twice(rt: HostRuntime) -> Result<(), Fail> {
    let words = ["make", "7", "100000"];
    let mut first = MemSink::new(rt.alloc(), 10_000, 4096, &[])?;
    let mut second = MemSink::new(rt.alloc(), 10_000, 4096, &[])?;
    let status = make(&rt, &words, &mut first)?;
    assert!(rt; status == make(&rt, &words, &mut second)?);
    assert!(rt; status == Status::Fine || status == Status::Faults);
    assert!(rt; first.written() == second.written());
    assert!(rt; first.written().starts_with(b"{\"bound\":\"muons\"}\n"));
    let ends = first.written().iter().filter(|b| **b == b'\n').count();
    assert!(rt; ends == 8);
    Ok(())
}

// The sink fails at the first answer.
#[test]
fn a_made_session_is_cut(rt: HostRuntime) -> Result<(), Fail> {
    let mut sink = MemSink::new(rt.alloc(), 10_000, 4096, &[0])?;
    let status = make(&rt, &["make", "2147483646", "2"], &mut sink)?;
    assert!(rt; status == Status::Write && sink.written().is_empty());
    Ok(())
}
