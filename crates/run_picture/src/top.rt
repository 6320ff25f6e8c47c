// The top call: from the bytes of a script to the bytes of a picture.
ghost use Rattle.std.specs.Prelude.{◌≡◌, ◌≢◌, ◌≤◌, ◌⊎◌, Some, None, map, string_bytes};
ghost use Rattle.std.specs.Io.KnownBytes.{Appends};
ghost use Rattle.fuzzy_io.specs.Causes.{Rose};
ghost use Rattle.script_text.specs.Fitting.{IsFitting};
ghost use Rattle.script_meaning.specs.States.{StopsAreLast};
ghost use Rattle.report_text.specs.ReportText.{refusal_bytes};
ghost use Rattle.run_picture.specs.Asked.{drawing_of};
ghost use Rattle.run_picture.specs.TopCall.{code_of, ShowsDrawing, Draws, DrawsAsAsked};

use crate::asked::{Drawing, read_words};
use crate::boxes::boxes_of;
use crate::drawn::print;
use fuzzy_io::{Failed, ReadStop, Sink, Source, read_all};
use log_node::MAX_ROWS;
use report_text::print_refusal;
use script_in_order::run_in_order;
use script_meaning::scripts_stop_last;
use script_text::{MAX_BYTES, Reason, Script, ScriptFault, parse, rows_are_within_limits};
use std::alloc::Global;

/// How a run ends; the program exits with its code.
#[derive(Clone, Copy)]
pub enum Status {
    /// The whole drawing was written.
    Done,
    /// The words ask for no drawing. Nothing was read or written.
    BadWords,
    /// The bytes are no script, and the line that says why was written.
    Refused,
    /// The source failed. Nothing was written.
    ReadFault,
    /// The sink failed. It got the beginning of the text.
    WriteFault,
    /// Memory was refused. Nothing was written.
    NoMemory,
}

impl Status {
    /// The exit code, as that of the program `fuzzy_run`.
    pub fn code(self) -> u8
        ensures { result ≡ code_of self }
    {
        match self {
            Status::Done => 0,
            Status::BadWords => 1,
            Status::Refused => 2,
            Status::ReadFault => 3,
            Status::WriteFault => 4,
            Status::NoMemory => 5,
        }
    }

    /// What is said on standard error.
    pub fn complaint(self) -> Option<&'static str> {
        match self {
            Status::Done | Status::Refused => None,
            Status::BadWords => Some("usage: run_picture picture, or run_picture timeline"),
            Status::ReadFault => Some("run_picture: the input failed"),
            Status::WriteFault => Some("run_picture: the output failed"),
            Status::NoMemory => Some("run_picture: out of memory"),
        }
    }
}

// Writes the line that says why bytes are not done.
fn refuse<K: Sink>(line: u32, why: &[u8], sink: &mut K) -> Status
    ensures refused { result ≡ Status.Refused
        → Appends (K.holds sink.old) (K.holds sink.new) (refusal_bytes line why.now) }
    ensures write_fault { result ≡ Status.WriteFault → Rose (K.faults sink.old) (K.faults sink.new) }
    ensures one { (result ≡ Status.Refused) ⊎ (result ≡ Status.WriteFault) }
{
    match print_refusal(line, why, sink) {
        Ok(()) => Status::Refused,
        Err(Failed) => Status::WriteFault,
    }
}

// Runs the commands of a script, and writes a drawing of the run.
fn draw_script<K: Sink>(alloc: Global, drawing: Drawing, script: &Script, sink: &mut K) -> Status
    requires fits { IsFitting script.now }
    requires rows { script.now.shape.rows ≤ MAX_ROWS }
    requires stops { StopsAreLast script.now }
    ensures done { result ≡ Status.Done → ShowsDrawing drawing script.now (K.holds sink.old) (K.holds sink.new) }
    ensures write_fault { result ≡ Status.WriteFault → Rose (K.faults sink.old) (K.faults sink.new) }
    ensures no_memory { result ≡ Status.NoMemory → sink.new ≡ sink.old }
    ensures no_other { (result ≢ Status.ReadFault) × (result ≢ Status.BadWords) }
{
    let Ok(report) = run_in_order(alloc, script) else {
        return Status::NoMemory;
    };
    let Ok(boxes) = boxes_of(alloc, script, &report) else {
        return Status::NoMemory;
    };
    match print(drawing, script, &report, boxes.as_slice(), sink) {
        Ok(()) => Status::Done,
        Err(Failed) => Status::WriteFault,
    }
}

// Runs the script that the bytes are, and writes a drawing of the run, or the line that says why they are none.
fn draw_bytes<K: Sink>(alloc: Global, drawing: Drawing, bytes: &[u8], sink: &mut K) -> Status
    ensures done { result ≡ Status.Done → Draws drawing (Some bytes.now) (K.holds sink.old) (K.holds sink.new) }
    ensures write_fault { result ≡ Status.WriteFault → Rose (K.faults sink.old) (K.faults sink.new) }
    ensures no_memory { result ≡ Status.NoMemory → sink.new ≡ sink.old }
    ensures no_other { (result ≢ Status.ReadFault) × (result ≢ Status.BadWords) }
{
    rows_are_within_limits();
    scripts_stop_last();
    match parse(alloc, bytes) {
        Ok(script) => draw_script(alloc, drawing, &script, sink),
        Err(ScriptFault::Refused { line, why }) => refuse(line, why.as_str().as_bytes(), sink),
        Err(ScriptFault::NoMemory) => Status::NoMemory,
    }
}

// Reads the source to its end, runs the script that its bytes are in the order of the file, and writes a drawing of the
// run; or the line that says why it is not run.
fn draw_source<S: Source, K: Sink>(
    alloc: Global,
    drawing: Drawing,
    source: &mut S,
    sink: &mut K,
) -> Status
    ensures done { result ≡ Status.Done
        → Draws drawing (S.left source.old) (K.holds sink.old) (K.holds sink.new) }
    ensures read_fault { result ≡ Status.ReadFault → Rose (S.faults source.old) (S.faults source.new) }
    ensures write_fault { result ≡ Status.WriteFault → Rose (K.faults sink.old) (K.faults sink.new) }
    ensures no_memory { result ≡ Status.NoMemory → sink.new ≡ sink.old }
    ensures no_other { result ≢ Status.BadWords }
{
    match read_all(alloc, source, MAX_BYTES) {
        Ok(bytes) => draw_bytes(alloc, drawing, bytes.as_slice(), sink),
        Err(ReadStop::Failed) => Status::ReadFault,
        Err(ReadStop::NoMemory) => Status::NoMemory,
        Err(ReadStop::TooLong) => refuse(0, Reason::ScriptTooLong.as_str().as_bytes(), sink),
    }
}

/// Writes the drawing that the words ask for, which are without the program's name: of the run of the script that the
/// source's bytes are, in the order of the file; or the line that says why it is not run.
pub fn run<S: Source, K: Sink>(
    alloc: Global,
    words: &[String],
    source: &mut S,
    sink: &mut K,
) -> Status
    ensures done { result ≡ Status.Done → DrawsAsAsked (drawing_of (map string_bytes words.now))
        (S.left source.old) (K.holds sink.old) (K.holds sink.new) }
    ensures read_fault { result ≡ Status.ReadFault → Rose (S.faults source.old) (S.faults source.new) }
    ensures write_fault { result ≡ Status.WriteFault → Rose (K.faults sink.old) (K.faults sink.new) }
    ensures no_memory { result ≡ Status.NoMemory → sink.new ≡ sink.old }
    ensures bad_words { result ≡ Status.BadWords → drawing_of (map string_bytes words.now) ≡ None }
    ensures bad_words_unwritten { result ≡ Status.BadWords → sink.new ≡ sink.old }
{
    match read_words(alloc, words) {
        Ok(Some(drawing)) => draw_source(alloc, drawing, source, sink),
        Ok(None) => Status::BadWords,
        Err(_) => Status::NoMemory,
    }
}
