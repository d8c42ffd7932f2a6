// Output over memory, in pieces and with failing calls.
use awk_edge::{MemSink, Out, WriteFault};
use std::test::Fail;

const PIECES: [usize; 5] = [1, 2, 4095, 4096, 4097];

#[test]
fn output_goes_in_pieces(rt: HostRuntime) -> Result<(), Fail> {
    let alloc = rt.alloc();
    let long = vec![in alloc; b'x'; 5000]?;
    let full = vec![in alloc; b'y'; 4096]?;
    let mut want = b"ab".to_vec(alloc)?;
    want.extend_from_slice(&long)?;
    want.extend_from_slice(b"cd")?;
    want.extend_from_slice(&full)?;
    for piece in PIECES {
        assert!(rt; piece > 0);
        let mut sink = MemSink::new(alloc, 10_000, piece, &[])?;
        let mut out = Out::new();
        out.put(&mut sink, b"ab")?;
        out.put(&mut sink, &long)?;
        out.put(&mut sink, b"cd")?;
        out.put(&mut sink, &full)?;
        out.flush(&mut sink)?;
        assert!(rt; sink.written() == want.as_slice(), "pieces of {piece}");
    }
    Ok(())
}

// Two texts, each put and flushed.
fn put_twice(sink: &mut MemSink) -> Result<(), WriteFault> {
    let mut out = Out::default();
    out.put(sink, b"ab")?;
    out.flush(sink)?;
    out.put(sink, b"cd")?;
    out.flush(sink)
}

#[test]
fn a_failing_call_or_a_full_sink_is_told(rt: HostRuntime) -> Result<(), Fail> {
    let alloc = rt.alloc();
    let cases: [(usize, u64, &[u8], bool); 6] = [
        (10, 0, b"", false),
        (10, 1, b"ab", false),
        (10, 2, b"ab", false),
        (10, 3, b"abcd", false),
        (10, 4, b"abcd", true),
        (3, 9, b"abc", false),
    ];
    for (capacity, failing, want, passes) in cases {
        let mut sink = MemSink::new(alloc, capacity, 10, &[failing])?;
        let answer = put_twice(&mut sink);
        assert!(rt;
            answer.is_ok() == passes,
            "capacity {capacity}, call {failing}"
        );
        assert!(rt;
            sink.written() == want,
            "capacity {capacity}, call {failing}"
        );
    }
    Ok(())
}
