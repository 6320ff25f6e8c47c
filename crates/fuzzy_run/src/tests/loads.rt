// Loads, whose script is made and not read, and the words of the command line.
use super::*;
use fuzzy_io::{Gate, Source, SteadySource};
use std::sync::atomic::{AtomicU64, Ordering};

/// Loads of so many rounds, and what they print.
const LOADS: [(&str, &str); 3] = [
    ("1", "load 1\neast 0 2 1 1\nwest 2 1 1 0\nnodes 6 rows 2\n"),
    (
        "8",
        "load 8\neast 8 12 8 4\nwest 8 12 8 4\nnodes 48 rows 16\n",
    ),
    (
        "2400",
        "load 2400\neast 2400 3600 2400 1200\nwest 2400 3600 2400 1200\nnodes 14400 rows 4800\n",
    ),
];

/// Words that ask for nothing.
const WRONG: [&[&str]; 19] = [
    &[],
    &["fly"],
    &["runs"],
    &["steps"],
    &["load", "0"],
    &["load", "2401"],
    &["load"],
    &["step", "step"],
    &["--help"],
    &["help"],
    &["load", "01"],
    &["load", "+1"],
    &["load", ""],
    &["load", "1x"],
    &["load", "99999999999"],
    &["load", "1", "1"],
    &["step", "1"],
    &["checks"],
    &["check", "1"],
];

/// Counts how often it is passed.
#[derive(Drop)]
struct Counting {
    passed: AtomicU64,
}

impl Gate for Counting {
    fn pass<R: Wait>(&self, _rt: &R, _client: u8, _step: u8) {
        self.passed.fetch_add(1, Ordering::SeqCst);
    }
}

/// Does what the words ask over a source and a sink of which these writes fail.
pub fn ask<R: Threads + Wait + Sync, S: Source, G: Gate>(
    alloc: Global,
    rt: &R,
    asked: &[&str],
    source: &mut S,
    failing_writes: &[u64],
    gate: &G,
) -> Result<(Status, MemorySink), AllocError> {
    let mut words = Vec::new(alloc);
    for word in asked {
        words.push(String::from_str(alloc, word)?)?;
    }
    let mut sink = MemorySink::open(alloc, 7, failing_writes)?;
    let status = run(alloc, rt, words.as_slice(), source, &mut sink, gate);
    Ok((status, sink))
}

#[test]
fn a_load_prints_its_summary(rt: HostRuntime) -> Result<(), Fail> {
    let mut source = SteadySource::open(rt.alloc(), b"")?;
    for (number, summary) in LOADS {
        let words = ["load", number];
        let (status, sink) = ask(rt.alloc(), &rt, &words, &mut source, &[], &OpenGate)?;
        assert_eq!(rt; status, Status::Done);
        assert_eq!(rt; sink.bytes(), summary.as_bytes());
    }
    Ok(())
}

#[test]
fn a_load_runs_its_script(rt: HostRuntime) -> Result<(), Fail> {
    let gate = Counting {
        passed: AtomicU64::new(0),
    };
    let mut source = SteadySource::open(rt.alloc(), b"")?;
    let (status, _) = ask(rt.alloc(), &rt, &["load", "8"], &mut source, &[], &gate)?;
    assert_eq!(rt; status, Status::Done);
    assert_eq!(rt; gate.passed.load(Ordering::SeqCst), 80);
    Ok(())
}

#[test]
fn a_loads_summary_may_find_a_full_sink(rt: HostRuntime) -> Result<(), Fail> {
    let mut source = SteadySource::open(rt.alloc(), b"")?;
    let words = ["load", "1"];
    let (status, sink) = ask(rt.alloc(), &rt, &words, &mut source, &[1], &OpenGate)?;
    assert_eq!(rt; status, Status::WriteFault);
    assert_eq!(rt; sink.bytes(), b"load 1\n".as_slice());
    Ok(())
}

#[test]
fn wrong_words_are_told(rt: HostRuntime) -> Result<(), Fail> {
    // Whoever reads it is told of a fault.
    let mut source = MemorySource::open(rt.alloc(), b"", 7, &[0])?;
    for words in WRONG {
        let (status, sink) = ask(rt.alloc(), &rt, words, &mut source, &[], &OpenGate)?;
        assert_eq!(rt; status, Status::BadWords);
        assert!(rt; sink.bytes().is_empty());
    }
    Ok(())
}
