// Sessions whose source or sink fails at each call in turn, and a session cut after each byte.
use crate::runs::{Case, check_case, run, words_of};
use awk_edge::{MemSink, MemSource, NoMemory};
use awk_run::Status;
use std::alloc::Global;
use std::process::Abort;
use std::test::Fail;

// Muons of four events, their pairs of opposite charge, and what these add up to.
const MUONS: [&[u8]; 6] = [
    b"{\"load\":\"mu\",\"form\":{\"class\":\"ListOffsetArray\",\"offsets\":\"i64\",\"content\":\
    {\"class\":\"RecordArray\",\"fields\":[\"pt\",\"charge\"],\"contents\":[\
    {\"class\":\"NumpyArray\",\"primitive\":\"int64\",\"form_key\":\"pt\"},\
    {\"class\":\"NumpyArray\",\"primitive\":\"int8\",\"form_key\":\"charge\"}]},\
    \"form_key\":\"muons\"},\"length\":4,\"buffers\":{\
    \"muons-offsets\":\"AAAAAAAAAAACAAAAAAAAAAIAAAAAAAAABQAAAAAAAAAGAAAAAAAAAA==\",\
    \"pt-data\":\"MgAAAAAAAAAoAAAAAAAAAB4AAAAAAAAAFAAAAAAAAAAKAAAAAAAAADwAAAAAAAAA\",\
    \"charge-data\":\"Af8BAf//\"}}\n",
    b"{\"type\":\"mu\"}\n",
    b"{\"let\":\"pairs\",\"be\":[\"combinations\",2,false,1,\"mu\"]}\n",
    b"{\"let\":\"opposite\",\"be\":[\"pick\",\"pairs\",[\"ne\",\
    [\"field\",[\"field\",\"pairs\",\"0\"],\"charge\"],\
    [\"field\",[\"field\",\"pairs\",\"1\"],\"charge\"]]]}\n",
    b"{\"show\":[\"add\",[\"field\",[\"field\",\"opposite\",\"0\"],\"pt\"],\
    [\"field\",[\"field\",\"opposite\",\"1\"],\"pt\"]]}\n",
    b"{\"show\":[\"num\",\"opposite\",1]}\n",
];

const MUON_ANSWERS: [&[u8]; 6] = [
    b"{\"bound\":\"mu\"}\n",
    b"{\"type\":\"4 * var * {pt: int64, charge: int8}\"}\n",
    b"{\"bound\":\"pairs\"}\n",
    b"{\"bound\":\"opposite\"}\n",
    b"{\"value\":[[90],[],[40,30],[]]}\n",
    b"{\"value\":[1,0,2,0]}\n",
];

// How many of the lines are ended by what comes before each call to read, 97 bytes at a time; the
// last call tells the end.
const ENDED: [(u64, usize); 10] = [
    (0, 0),
    (1, 0),
    (2, 0),
    (3, 0),
    (4, 0),
    (5, 1),
    (6, 3),
    (7, 4),
    (8, 5),
    (9, 6),
];

// Three lists of numbers, without the lines' ends.
const LISTS: [&[u8]; 2] = [
    b"{\"load\":\"x\",\"form\":{\"class\":\"ListOffsetArray\",\"offsets\":\"i64\",\"content\":\
    {\"class\":\"NumpyArray\",\"primitive\":\"int64\",\"form_key\":\"node1\"},\
    \"form_key\":\"node0\"},\"length\":3,\"buffers\":{\
    \"node0-offsets\":\"AAAAAAAAAAACAAAAAAAAAAIAAAAAAAAAAwAAAAAAAAA=\",\
    \"node1-data\":\"BQAAAAAAAAD//////////wcAAAAAAAAA\"}}",
    b"{\"show\":\"x\"}",
];

const LIST_ANSWERS: [&[u8]; 2] = [b"{\"bound\":\"x\"}\n", b"{\"value\":[[5,-1],[],[7]]}\n"];

const NO_JSON: &[u8] = b"{\"fault\":\"json\"}\n";

// The first so many parts, one behind the other.
fn first_of(alloc: Global, parts: &[&[u8]], count: usize) -> Result<Vec<u8>, NoMemory> {
    let mut all = Vec::new(alloc);
    for part in parts.iter().take(count) {
        all.extend_from_slice(*part)?;
    }
    Ok(all)
}

// The muons' session whose source gives 97 bytes at a time and fails at one call.
fn check_reads(
    rt: &impl Abort,
    host: &HostRuntime,
    failing: u64,
    lines: usize,
    status: Status,
) -> Result<(), NoMemory> {
    let session = first_of(host.alloc(), &MUONS, 6)?;
    let answers = first_of(host.alloc(), &MUON_ANSWERS, lines)?;
    let case = Case {
        session: &session,
        gives: 97,
        failing_reads: &[failing],
        takes: 4096,
        room: 1000,
        failing_writes: &[],
        answers: &answers,
        status,
    };
    check_case(rt, host, &case)
}

// Whichever call to read fails, the lines that were ended before it are answered.
#[test]
fn each_read_fails(rt: HostRuntime) -> Result<(), Fail> {
    for (call, lines) in &ENDED {
        check_reads(&rt, &rt, *call, *lines, Status::Read)?;
    }
    // The run makes no further call.
    check_reads(&rt, &rt, 10, 6, Status::Fine)?;
    Ok(())
}

// Answers the muons' session into a sink that takes so many bytes at a time and fails at one call.
fn cut_answers(
    rt: &impl Abort,
    host: &HostRuntime,
    takes: usize,
    failing: u64,
) -> Result<Status, NoMemory> {
    let alloc = host.alloc();
    assert!(rt; takes > 0);
    let mut source = MemSource::new(alloc, &first_of(alloc, &MUONS, 6)?, 4096, &[])?;
    let mut sink = MemSink::new(alloc, 1000, takes, &[failing])?;
    let status = run(host, &words_of(alloc, &["run"])?, &mut source, &mut sink);
    let answers = first_of(alloc, &MUON_ANSWERS, 6)?;
    assert!(rt; answers.starts_with(sink.written()));
    assert!(rt; status == Status::Write || sink.written() == answers.as_slice());
    Ok(status)
}

// The number of the first call that a run does not make.
fn calls_to_the_sink(rt: &impl Abort, host: &HostRuntime, takes: usize) -> Result<u64, NoMemory> {
    for call in 0..100 {
        let status = cut_answers(rt, host, takes, call)?;
        if status == Status::Fine {
            return Ok(call);
        }
        assert!(rt; status == Status::Write);
    }
    Ok(100)
}

// Whichever call to write or to flush fails, what was written is a prefix of the answers. Each of
// the six is written at once, or in pieces, and flushed.
#[test]
fn each_write_fails(rt: HostRuntime) -> Result<(), Fail> {
    assert!(rt; calls_to_the_sink(&rt, &rt, 4096)? == 12);
    assert!(rt; calls_to_the_sink(&rt, &rt, 16)? == 18);
    Ok(())
}

fn check_cut(
    rt: &impl Abort,
    host: &HostRuntime,
    session: &[u8],
    answers: [&[u8]; 2],
    status: Status,
) -> Result<(), NoMemory> {
    let answers = first_of(host.alloc(), &answers, 2)?;
    let case = Case {
        session,
        gives: 4096,
        failing_reads: &[],
        takes: 4096,
        room: 1000,
        failing_writes: &[],
        answers: &answers,
        status,
    };
    check_case(rt, host, &case)
}

// Checks the session cut after each byte of its last line, which is not ended: it is no JSON but
// where it is whole.
fn check_cuts(
    rt: &impl Abort,
    host: &HostRuntime,
    session: &mut Vec<u8>,
    line: &[u8],
    before: &[u8],
    answer: &[u8],
) -> Result<(), NoMemory> {
    let whole = session.len().saturating_add(line.len());
    for byte in line {
        session.push(*byte)?;
        if session.len() < whole {
            check_cut(rt, host, session, [before, NO_JSON], Status::Faults)?;
        }
    }
    check_cut(rt, host, session, [before, answer], Status::Fine)
}

// Whole lines are answered, and a rest that is a whole line without its end as that line.
#[test]
fn a_session_is_cut_after_each_byte(rt: HostRuntime) -> Result<(), Fail> {
    let alloc = rt.alloc();
    let mut session = Vec::new(alloc);
    let mut answers = Vec::new(alloc);
    check_cut(&rt, &rt, &session, [b"", b""], Status::Fine)?;
    for (line, answer) in LISTS.iter().zip(LIST_ANSWERS.iter()) {
        check_cuts(&rt, &rt, &mut session, *line, &answers, *answer)?;
        session.push(b'\n')?;
        answers.extend_from_slice(*answer)?;
        check_cut(&rt, &rt, &session, [&answers, b""], Status::Fine)?;
    }
    Ok(())
}
