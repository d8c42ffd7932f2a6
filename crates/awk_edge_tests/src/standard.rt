// A source over a reader that fails, and a sink over a writer that fails.
use awk_edge::{LineFault, Lines, Sink, Source, StdSink, StdSource};
use std::io;
use std::io::{Read, Write};
use std::test::Fail;

// Its first call fails, and each later one gives two bytes.
#[derive(Drop)]
struct Stumbling {
    has_failed: bool,
}

impl Read for Stumbling {
    fn read(&mut self, into: &mut [u8]) -> io::Result<usize> {
        if !self.has_failed || into.len() < 2 {
            self.has_failed = true;
            return Err(io::Error::from(io::ErrorKind::Other));
        }
        into[..2].copy_from_slice(b"a\n");
        Ok(2)
    }
}

#[test]
fn a_source_gives_again_after_an_error(rt: HostRuntime) {
    let mut source = StdSource::new(Stumbling { has_failed: false });
    let mut into = [0; 3];
    assert!(rt; source.read(&mut into).is_err());
    assert!(rt; source.read(&mut into) == Ok(2));
    assert!(rt; into == *b"a\n\0");
}

#[test]
fn lines_end_at_the_error(rt: HostRuntime) -> Result<(), Fail> {
    let mut source = StdSource::new(Stumbling { has_failed: false });
    let mut lines = Lines::new();
    assert!(rt; lines.next(rt.alloc(), &mut source) == Err(LineFault::Read));
    assert!(rt; !lines.is_open());
    let mut later = Lines::new();
    let line = later.next(rt.alloc(), &mut source)?;
    assert!(rt; line == Some(b"a".to_vec(rt.alloc())?));
    Ok(())
}

// It takes a byte of each write, no byte of a longer one, and is never flushed.
#[derive(Drop)]
struct Narrow;

impl Write for Narrow {
    fn write(&mut self, from: &[u8]) -> io::Result<usize> {
        Ok(if from.len() > 1 { 0 } else { from.len() })
    }

    fn flush(&mut self) -> io::Result<()> {
        Err(io::Error::from(io::ErrorKind::Other))
    }
}

#[test]
fn a_sink_fails_where_its_writer_takes_nothing(rt: HostRuntime) -> Result<(), Fail> {
    let mut bytes = Vec::new(rt.alloc());
    let mut sink = StdSink::new(&mut bytes);
    assert!(rt; sink.write(b"ab") == Ok(2));
    assert!(rt; sink.flush().is_ok());
    assert!(rt; bytes.as_slice() == b"ab".as_slice());
    let mut narrow = StdSink::new(Narrow);
    assert!(rt; narrow.write(b"a") == Ok(1));
    assert!(rt; narrow.write(b"") == Ok(0));
    assert!(rt; narrow.write(b"ab").is_err());
    assert!(rt; narrow.flush().is_err());
    Ok(())
}
