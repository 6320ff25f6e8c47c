// Sources and sinks that fail or have no end.
use super::*;
use fuzzy_io::{ReadSource, WriteSink};
use std::io::repeat;

/// A script, and its report.
const LINES: &str = "a append x hi
a sync x
a sync x";

const REPORT: &[u8] = b"report 1
client a
8 append ok 1 x!0@0
9 sync ok x?1/1 plays 1
+ a.0 1 hi
10 sync ok x?1/1 plays 0
client b
client c
column r x
0 a single a.0 floor 0 wants 0 stamp 1
= clock 1 line a.0:1 queue - cut 1 base 0
column r y
= clock 0 line - queue - cut 0 base 0
";

/// What is written at each word.
const WRITTEN: [(&str, &[u8]); 3] = [
    ("step", REPORT),
    ("run", REPORT),
    ("check", b"refused: report: missing\n"),
];

// In how many pieces of 7 bytes these are read and written.
fn pieces(bytes: &[u8]) -> usize {
    bytes.len().div_ceil(7)
}

#[test]
fn whichever_read_fails_nothing_is_written(rt: HostRuntime) -> Result<(), Fail> {
    let script = script_of(rt.alloc(), ONE_REGION, LINES)?;
    for word in ["step", "run", "check"] {
        // The last read finds the end.
        for number in 0..=pieces(script.as_bytes()) {
            let failing = [number as u64];
            let (status, sink) = run_over(rt.alloc(), &rt, word, script.as_bytes(), &failing, &[])?;
            assert_eq!(rt; status, Status::ReadFault, "{number}");
            assert!(rt; sink.bytes().is_empty());
        }
    }
    Ok(())
}

#[test]
fn whichever_write_fails_what_went_before_is_written(rt: HostRuntime) -> Result<(), Fail> {
    let script = script_of(rt.alloc(), ONE_REGION, LINES)?;
    for (word, text) in WRITTEN {
        for number in 0..pieces(text) {
            let failing = [number as u64];
            let (status, sink) = run_over(rt.alloc(), &rt, word, script.as_bytes(), &[], &failing)?;
            assert_eq!(rt; status, Status::WriteFault, "{number}");
            assert_eq!(rt; Some(sink.bytes()), text.get(..number.wrapping_mul(7)));
        }
    }
    Ok(())
}

// What comes of a script without an end, which these words do, and what is written.
fn run_without_end<R: Threads + Wait + Sync>(
    alloc: Global,
    rt: &R,
    words: &[String],
) -> Result<(Status, MemorySink), AllocError> {
    let mut source = ReadSource::open(repeat(b'#'));
    let mut sink = MemorySink::open(alloc, 7, &[])?;
    let status = run(alloc, rt, words, &mut source, &mut sink, &OpenGate);
    Ok((status, sink))
}

#[test]
fn a_source_without_end_is_too_long(rt: HostRuntime) -> Result<(), Fail> {
    for word in ["step", "run", "check"] {
        let words = vec![in rt.alloc(); String::from_str(rt.alloc(), word)?]?;
        let (status, sink) = run_without_end(rt.alloc(), &rt, &words)?;
        assert_eq!(rt; status, Status::Refused);
        assert_eq!(rt;
            sink.bytes(),
            b"refused: line 0: script too long\n".as_slice()
        );
    }
    Ok(())
}

#[test]
fn a_writer_without_room_is_a_fault(rt: HostRuntime) -> Result<(), Fail> {
    let script = script_of(rt.alloc(), ONE_REGION, LINES)?;
    let words = vec![in rt.alloc(); String::from_str(rt.alloc(), "step")?]?;
    let mut source = MemorySource::open(rt.alloc(), script.as_bytes(), 7, &[])?;
    let mut room = [0; 8];
    let mut sink = WriteSink::open(room.as_mut_slice());
    let status = run(rt.alloc(), &rt, &words, &mut source, &mut sink, &OpenGate);
    assert_eq!(rt; status, Status::WriteFault);
    assert_eq!(rt; room, *b"report 1");
    Ok(())
}
