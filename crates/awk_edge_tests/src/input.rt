// Lines over memory, in pieces and with failing calls, and the two limits.
ghost use Rattle.std.specs.Prelude.{None};

use awk_edge::{Failed, LineFault, Lines, MemSource, NoMemory, Source};
use std::alloc::Global;
use std::test::Fail;

const PIECES: [usize; 5] = [1, 2, 16_383, 16_384, 16_385];

const LIMIT: usize = 1_048_576;

// The lines, each with a bar behind it, and the fault that ended them.
fn barred<S: Source>(
    alloc: Global,
    source: &mut S,
) -> Result<(Vec<u8>, Option<LineFault>), NoMemory> {
    let mut lines = Lines::default();
    let mut text = Vec::new(alloc);
    for _ in 0..100 {
        if !lines.is_open() {
            break;
        }
        match lines.next(alloc, source) {
            Ok(Some(line)) => {
                text.extend_from_slice(&line)?;
                text.push(b'|')?;
            }
            Ok(None) => return Ok((text, None)),
            Err(fault) => return Ok((text, Some(fault))),
        }
    }
    Ok((text, None))
}

#[test]
fn lines_come_in_pieces(rt: HostRuntime) -> Result<(), Fail> {
    let alloc = rt.alloc();
    let long = vec![in alloc; b'x'; 5000]?;
    let mut text = b"ab\n\n".to_vec(alloc)?;
    text.extend_from_slice(&long)?;
    text.extend_from_slice(b"\nlast")?;
    let mut want = b"ab||".to_vec(alloc)?;
    want.extend_from_slice(&long)?;
    want.extend_from_slice(b"|last|")?;
    for piece in PIECES {
        assert!(rt; piece > 0);
        let mut source = MemSource::new(alloc, &text, piece, &[])?;
        let (got, fault) = barred(alloc, &mut source)?;
        assert!(rt; got == want, "pieces of {piece}");
        assert!(rt; fault.is_none(), "pieces of {piece}");
    }
    Ok(())
}

#[test]
fn a_failing_read_ends_the_lines(rt: HostRuntime) -> Result<(), Fail> {
    let alloc = rt.alloc();
    let cases: [(u64, &[u8], Option<LineFault>); 5] = [
        (0, b"", Some(LineFault::Read)),
        (1, b"", Some(LineFault::Read)),
        (2, b"ab|", Some(LineFault::Read)),
        (3, b"ab|", Some(LineFault::Read)),
        (4, b"ab|cd|", None),
    ];
    for (call, want, fault) in cases {
        let mut source = MemSource::new(alloc, b"ab\ncd", 2, &[call])?;
        let (got, ended) = barred(alloc, &mut source)?;
        assert!(rt; got.as_slice() == want, "call {call}");
        assert!(rt; ended == fault, "call {call}");
    }
    Ok(())
}

#[test]
#[tactic(auto, unfolding(awk_edge::specs::Units::raw_limit))]
fn raw_bytes_come_between_lines(rt: HostRuntime) -> Result<(), Fail> {
    let alloc = rt.alloc();
    for piece in PIECES {
        assert!(rt; piece > 0);
        let mut source = MemSource::new(alloc, b"ab\n\n\nxcd\nlast", piece, &[])?;
        let mut lines = Lines::new();
        assert!(rt; lines.next(alloc, &mut source)? == Some(b"ab".to_vec(alloc)?));
        assert!(rt; lines.raw(alloc, &mut source, 3)? == b"\n\nx".to_vec(alloc)?);
        assert!(rt; lines.raw(alloc, &mut source, 0)?.is_empty());
        assert!(rt; lines.next(alloc, &mut source)? == Some(b"cd".to_vec(alloc)?));
        assert!(rt; lines.raw(alloc, &mut source, 9)? == b"last".to_vec(alloc)?);
        assert!(rt; lines.raw(alloc, &mut source, 9)?.is_empty());
        assert!(rt; lines.next(alloc, &mut source)?.is_none());
    }
    Ok(())
}

#[test]
#[tactic(auto, unfolding(awk_edge::specs::Units::raw_limit))]
fn raw_bytes_end_at_a_failing_read(rt: HostRuntime) -> Result<(), Fail> {
    let alloc = rt.alloc();
    let mut source = MemSource::new(alloc, b"a\nbcde", 2, &[2])?;
    let mut lines = Lines::new();
    assert!(rt; lines.next(alloc, &mut source)?.is_some());
    assert!(rt; lines.raw(alloc, &mut source, 2)? == b"bc".to_vec(alloc)?);
    assert!(rt; lines.raw(alloc, &mut source, 2) == Err(LineFault::Read));
    assert!(rt; !lines.is_open());
    Ok(())
}

// A byte many times, and then the end.
#[derive(Drop)]
struct Repeated {
    byte: u8,
    left: usize,
    gave: usize,
    is_ended: bool,
}

impl Source for Repeated {
    ghost left = { λ _. None };

    ghost faults = { λ _. 0 };

    ghost gave = { λ s. s.gave };

    ghost is_ended = { λ s. s.is_ended };

    fn read(&mut self, into: &mut [u8]) -> Result<usize, Failed> {
        let count = into.len().min(self.left);
        into[..count].fill(self.byte);
        self.left -= count;
        self.gave = count;
        if !into.is_empty() {
            self.is_ended = count == 0;
        }
        Ok(count)
    }
}

#[test]
fn a_line_too_many_is_told(rt: HostRuntime) {
    for (bytes, want) in [(LIMIT, None), (LIMIT + 1, Some(LineFault::TooManyLines))] {
        let mut source = Repeated {
            byte: b'\n',
            left: bytes,
            gave: 0,
            is_ended: false,
        };
        let (count, fault) = count_lines(rt.alloc(), &mut source);
        assert!(rt; count == LIMIT, "{bytes} line ends");
        assert!(rt; fault == want, "{bytes} line ends");
    }
}

// How many lines come, and the fault that ended them.
fn count_lines<S: Source>(alloc: Global, source: &mut S) -> (usize, Option<LineFault>) {
    let mut lines = Lines::new();
    for count in 0..LIMIT + 2 {
        if !lines.is_open() {
            break;
        }
        match lines.next(alloc, source) {
            Ok(Some(_)) => {}
            Ok(None) => return (count, None),
            Err(fault) => return (count, Some(fault)),
        }
    }
    (LIMIT + 2, None)
}
