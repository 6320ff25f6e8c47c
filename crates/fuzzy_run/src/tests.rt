// Whole runs, from the bytes of a script to the bytes of a report.
use crate::tests::checks::is_judged;
use fuzzy_io::{MemorySink, MemorySource, OpenGate};
use run_script::{Status, run};
use std::alloc::{AllocError, Global};
use std::process::Abort;
use std::sync::Wait;
use std::test::Fail;
use std::thread::Threads;

mod causal;
mod checks;
mod colours_apart;
mod decisions;
mod edges;
mod in_turn;
mod large;
mod loads;
mod maps;
mod objects;
mod only;
mod ordinary;
mod parts;
mod refusals;
mod regions;
mod scans;
mod served_objects;
mod several;
mod singles;
mod stops;
mod threads;
mod transactions;
mod tree_changes;
mod trees;
mod versions;

/// Does a script over a source and a sink of which the reads and writes with these numbers fail.
fn run_over<R: Threads + Wait + Sync>(
    alloc: Global,
    rt: &R,
    word: &str,
    script: &[u8],
    failing_reads: &[u64],
    failing_writes: &[u64],
) -> Result<(Status, MemorySink), AllocError> {
    let words = vec![in alloc; String::from_str(alloc, word)?]?;
    let mut source = MemorySource::open(alloc, script, 7, failing_reads)?;
    let mut sink = MemorySink::open(alloc, 7, failing_writes)?;
    let status = run(
        alloc,
        rt,
        words.as_slice(),
        &mut source,
        &mut sink,
        &OpenGate,
    );
    Ok((status, sink))
}

/// Does a script over a source and a sink that do not fail.
fn step_on<R: Threads + Wait + Sync>(
    alloc: Global,
    rt: &R,
    script: &[u8],
) -> Result<(Status, MemorySink), AllocError> {
    run_over(alloc, rt, "step", script, &[], &[])
}

/// A script ends so and writes these bytes, by this word.
fn leaves<R: Threads + Wait + Sync + Abort>(
    alloc: Global,
    rt: &R,
    word: &str,
    script: &[u8],
    wanted: Status,
    bytes: &[u8],
) -> Result<(), Fail> {
    let (status, sink) = run_over(alloc, rt, word, script, &[], &[])?;
    assert_eq!(rt; status, wanted);
    assert_eq!(rt; sink.bytes(), bytes);
    Ok(())
}

/// What scripts begin with: three clients in one region with two colours; commands begin at line 8.
const ONE_REGION: &str =
    "fuzzylog 1\nregions r\ncolours x y\nclient a r\nclient b r\nclient c r\nbegin\n";

/// What scripts begin with: three clients in two regions with one colour; commands begin at line 8.
const TWO_REGIONS: &str =
    "fuzzylog 1\nregions e w\ncolours x\nclient a e\nclient b w\nclient d e\nbegin\n";

/// The whole scripts stand in their rows.
const WHOLE: &str = "";

/// A script that begins so and goes on with these lines.
fn script_of(alloc: Global, begin: &str, lines: &str) -> Result<String, AllocError> {
    let mut script = String::from_str(alloc, begin)?;
    script.push_str(lines)?;
    Ok(script)
}

/// Scripts that begin so and go on with the lines of a row are done by this word, and leave the row's report, which is judged as it
/// should be.
fn all_leave<R: Threads + Wait + Sync + Abort>(
    alloc: Global,
    rt: &R,
    word: &str,
    begin: &str,
    rows: &[(&str, &str)],
) -> Result<(), Fail> {
    for (lines, report) in rows {
        let script = script_of(alloc, begin, lines)?;
        leaves(
            alloc,
            rt,
            word,
            script.as_bytes(),
            Status::Done,
            report.as_bytes(),
        )?;
        is_judged(alloc, rt, &script, report)?;
    }
    Ok(())
}
