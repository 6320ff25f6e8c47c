// The top call: from the words of a command line and the bytes of a script to the bytes of a report.
ghost use Rattle.std.specs.Prelude.{◌≡◌, ◌≢◌, ◌<◌, ◌≤◌, ◌⊎◌, ℕ, List, map, None, Some, string_bytes};
ghost use Rattle.std.specs.Io.KnownBytes.{Appends, IsAtEnd};
ghost use Rattle.fuzzy_io.specs.Causes.{Rose, ConsumesUpTo, AppendsFront};
ghost use Rattle.std.specs.Prelude.{IfOk};
ghost use Rattle.script_text.specs.declared.script.Script.{Script};
ghost use Rattle.script_text.specs.Fitting.{IsFitting};
ghost use Rattle.script_text.specs.Words.{reason_text};
ghost use Rattle.report_text.specs.ReportText.{refusal_bytes};
ghost use Rattle.script_meaning.specs.States.{StopsAreLast};
ghost use Rattle.load_script.specs.declared.script.TheConstants.{MAX_LOAD};
ghost use Rattle.load_script.specs.Summing.{load_summary, summary_text};
ghost use Rattle.run_script.specs.declared.asked.Asked.{Asked};
ghost use Rattle.run_script.specs.Words.{task_of};
ghost use Rattle.run_script.specs.Refusals.{IsAScript};
ghost use Rattle.run_script.specs.Reading.{LawsForReaders};
ghost use Rattle.run_script.specs.Running.{CanRun};
ghost use Rattle.run_check.specs.declared.verdict.Verdict.{Verdict};
ghost use Rattle.run_check.specs.Verdicts.{IsVerdict};
ghost use Rattle.run_script.specs.TopCall.{IsRunText, IsRefusalText, WritesWhole, WritesFront, Shows, ShowsFront, IsLoaded, WritesLoad, WritesLoadFront};
ghost use Rattle.run_script.specs.TopCall.{status_of, TellsVerdict, OfAll, Says, SaysFront};

use crate::asked::{Asked, Task, read_words};
use crate::checking::{MAX_JUDGED, check_source};
use crate::reading::laws_for_readers;
use crate::serving::run_beside;
use crate::status::Status;
use fuzzy_io::{Failed, Gate, ReadStop, Sink, Source, read_all, write_all};
use load_script::{found_memory, loads_come_to_their_summary, loads_fit, make, sum_up};
use log_node::MAX_ROWS;
use report_beside::print_beside;
use report_text::{print, print_refusal};
use run_check::one_verdict;
use script_beside::{DealtScript, deal, parse_beside};
use script_in_order::run_in_order;
use script_meaning::scripts_stop_last;
use script_text::{Reason, Script, ScriptFault, parse, rows_are_within_limits};
use std::alloc::{AllocError, Global};
use std::num::NonZeroUsize;
use std::sync::Wait;
use std::thread::Threads;
use std::{mem, thread};

/// The most bytes of a script: 2 to the power of 20.
const MAX_BYTES: usize = 1 << 20;

// Writes the line that says why bytes are no script.
fn refuse<K: Sink>(sink: &mut K, line: u32, why: Reason) -> Status
    ensures refused { result ≡ Status.Refused
        → Appends (K.holds sink.old) (K.holds sink.new) (refusal_bytes line (reason_text why)) }
    ensures write_fault { result ≡ Status.WriteFault → Rose (K.faults sink.old) (K.faults sink.new) }
    ensures front { result ≡ Status.WriteFault
        → AppendsFront (K.holds sink.old) (K.holds sink.new) (refusal_bytes line (reason_text why)) }
    ensures one { (result ≡ Status.Refused) ⊎ (result ≡ Status.WriteFault) }
{
    match print_refusal(line, why.as_str().as_bytes(), sink) {
        Ok(()) => Status::Refused,
        Err(Failed) => Status::WriteFault,
    }
}

// Runs the commands of a script in the order of the file, and writes the report.
fn do_script<K: Sink>(alloc: Global, script: Script, sink: &mut K) -> Status
    requires fits { IsFitting script }
    requires rows { script.shape.rows ≤ MAX_ROWS }
    requires stops { StopsAreLast script }
    ensures done { result ≡ Status.Done → Shows Asked.Step script (K.holds sink.old) (K.holds sink.new) }
    ensures write_fault { result ≡ Status.WriteFault → Rose (K.faults sink.old) (K.faults sink.new) }
    ensures front { result ≡ Status.WriteFault → ShowsFront Asked.Step script (K.holds sink.old) (K.holds sink.new) }
    ensures no_memory { result ≡ Status.NoMemory → sink.new ≡ sink.old }
    ensures no_other { (result ≢ Status.BadWords) × (result ≢ Status.Refused) × (result ≢ Status.ReadFault)
        × (result ≢ Status.Unlawful) }
{
    let ran = run_in_order(alloc, &script);
    // Not freed here: the process ends soon, and its end frees all at once.
    mem::forget(script);
    let report = match ran {
        Ok(report) => report,
        Err(_) => return Status::NoMemory,
    };
    let printed = print(&report, sink);
    // Not freed here either.
    mem::forget(report);
    match printed {
        Ok(()) => Status::Done,
        Err(Failed) => Status::WriteFault,
    }
}

// How many processors there are for threads; one where it can't be told.
fn processors<R: Threads>(rt: &R) -> NonZeroUsize {
    match thread::available_parallelism(rt) {
        Ok(count) => count,
        Err(_) => NonZeroUsize::MIN,
    }
}

// Runs the commands of a script on threads, where they have been dealt out to its clients, and writes the report, whose
// parts are made into text beside one another.
fn do_dealt<K: Sink, G: Gate, R: Threads + Wait + Sync>(
    rt: &R,
    alloc: Global,
    gate: &G,
    dealt: DealtScript,
    sink: &mut K,
) -> Status
    requires { (script : Script) × CanRun script dealt }
    ensures done { result ≡ Status.Done → (script : Script) → CanRun script dealt
        → Shows Asked.Run script (K.holds sink.old) (K.holds sink.new) }
    ensures write_fault { result ≡ Status.WriteFault → Rose (K.faults sink.old) (K.faults sink.new) }
    ensures front { result ≡ Status.WriteFault → (script : Script) → CanRun script dealt
        → ShowsFront Asked.Run script (K.holds sink.old) (K.holds sink.new) }
    ensures no_memory { result ≡ Status.NoMemory → sink.new ≡ sink.old }
    ensures no_other { (result ≢ Status.BadWords) × (result ≢ Status.Refused) × (result ≢ Status.ReadFault)
        × (result ≢ Status.Unlawful) }
{
    let threads = processors(rt);
    let report = match run_beside(rt, alloc, gate, dealt, threads) {
        Ok(report) => report,
        Err(_) => return Status::NoMemory,
    };
    let printed = print_beside(rt, alloc, &report, sink, threads);
    // Not freed here: the process ends soon, and its end frees all at once.
    mem::forget(report);
    match printed {
        Ok(()) => Status::Done,
        Err(Failed) => Status::WriteFault,
    }
}

// Runs the script that the bytes are, or writes the line that says why they are none.
fn do_bytes<K: Sink, G: Gate, R: Threads + Wait + Sync>(
    rt: &R,
    alloc: Global,
    asked: Asked,
    gate: &G,
    bytes: &[u8],
    sink: &mut K,
) -> Status
    ensures done { result ≡ Status.Done
        → WritesWhole (IsRunText asked) (Some bytes.now) (K.holds sink.old) (K.holds sink.new) }
    ensures refused { result ≡ Status.Refused
        → WritesWhole IsRefusalText (Some bytes.now) (K.holds sink.old) (K.holds sink.new) }
    ensures write_fault { result ≡ Status.WriteFault → Rose (K.faults sink.old) (K.faults sink.new) }
    ensures front { result ≡ Status.WriteFault
        → WritesFront asked (Some bytes.now) (K.holds sink.old) (K.holds sink.new) }
    ensures no_memory { result ≡ Status.NoMemory → sink.new ≡ sink.old }
    ensures no_other { (result ≢ Status.BadWords) × (result ≢ Status.ReadFault) × (result ≢ Status.Unlawful) }
{
    rows_are_within_limits();
    scripts_stop_last();
    match asked {
        Asked::Step => match parse(alloc, bytes) {
            Ok(script) => do_script(alloc, script, sink),
            Err(ScriptFault::Refused { line, why }) => refuse(sink, line, why),
            Err(ScriptFault::NoMemory) => Status::NoMemory,
        },
        Asked::Run => match parse_beside(rt, alloc, bytes) {
            Ok(dealt) => do_dealt(rt, alloc, gate, dealt, sink),
            Err(ScriptFault::Refused { line, why }) => refuse(sink, line, why),
            Err(ScriptFault::NoMemory) => Status::NoMemory,
        },
    }
}

// Reads the source to its end, and does what its bytes are.
fn perform<S: Source, K: Sink, G: Gate, R: Threads + Wait + Sync>(
    rt: &R,
    alloc: Global,
    asked: Asked,
    gate: &G,
    source: &mut S,
    sink: &mut K,
) -> Status
    ensures done { result ≡ Status.Done
        → WritesWhole (IsRunText asked) (S.left source.old) (K.holds sink.old) (K.holds sink.new) }
    ensures to_the_end { result ≡ Status.Done → IsAtEnd (S.left source.new) }
    ensures refused { result ≡ Status.Refused
        → WritesWhole IsRefusalText (S.left source.old) (K.holds sink.old) (K.holds sink.new) }
    ensures read_fault { result ≡ Status.ReadFault → Rose (S.faults source.old) (S.faults source.new) }
    ensures write_fault { result ≡ Status.WriteFault → Rose (K.faults sink.old) (K.faults sink.new) }
    ensures front { result ≡ Status.WriteFault
        → WritesFront asked (S.left source.old) (K.holds sink.old) (K.holds sink.new) }
    ensures read_fault_unwritten { result ≡ Status.ReadFault → sink.new ≡ sink.old }
    ensures no_memory { result ≡ Status.NoMemory → sink.new ≡ sink.old }
    ensures taken { ConsumesUpTo MAX_BYTES (S.left source.old) (S.left source.new) }
    ensures no_other { (result ≢ Status.BadWords) × (result ≢ Status.Unlawful) }
{
    match read_all(alloc, source, MAX_BYTES) {
        Ok(bytes) => do_bytes(rt, alloc, asked, gate, bytes.as_slice(), sink),
        Err(ReadStop::TooLong) => refuse(sink, 0, Reason::ScriptTooLong),
        Err(ReadStop::Failed) => Status::ReadFault,
        Err(ReadStop::NoMemory) => Status::NoMemory,
    }
}

// Runs the script of a load on threads; what it prints, where no command found want of memory.
fn load_text<G: Gate, R: Threads + Wait + Sync>(
    rt: &R,
    alloc: Global,
    gate: &G,
    count: u32,
) -> Result<String, AllocError>
    requires { count ≤ MAX_LOAD }
    ensures text { IfOk result (λ text. string_bytes text ≡ summary_text (load_summary count)) }
    ensures ran { IfOk result (λ text. IsLoaded count) }
{
    let threads = processors(rt);
    loads_fit();
    loads_come_to_their_summary();
    let script = make(alloc, count)?;
    // Counted before the commands are dealt out to their clients; the report shows the same.
    let text = sum_up(count, script.commands.as_slice()).text(alloc)?;
    let dealt = deal(alloc, script)?;
    let report = run_beside(rt, alloc, gate, dealt, threads)?;
    let found = found_memory(&report);
    // Not freed here either.
    mem::forget(report);
    if found { Ok(text) } else { Err(AllocError) }
}

// Runs a load, and writes its summary.
fn do_load<K: Sink, G: Gate, R: Threads + Wait + Sync>(
    rt: &R,
    alloc: Global,
    gate: &G,
    count: u32,
    sink: &mut K,
) -> Status
    requires { count ≤ MAX_LOAD }
    ensures done { result ≡ Status.Done → WritesLoad count (K.holds sink.old) (K.holds sink.new) }
    ensures write_fault { result ≡ Status.WriteFault → Rose (K.faults sink.old) (K.faults sink.new) }
    ensures front { result ≡ Status.WriteFault → WritesLoadFront count (K.holds sink.old) (K.holds sink.new) }
    ensures no_memory { result ≡ Status.NoMemory → sink.new ≡ sink.old }
    ensures one { (result ≡ Status.Done) ⊎ (result ≡ Status.WriteFault) ⊎ (result ≡ Status.NoMemory) }
{
    let text = match load_text(rt, alloc, gate, count) {
        Ok(text) => text,
        Err(_) => return Status::NoMemory,
    };
    if let Err(Failed) = write_all(sink, text.as_bytes()) {
        return Status::WriteFault;
    }
    Status::Done
}

/// Does what the words ask: the commands of the script that the source is, with the report to the sink; a load, with its
/// summary to the sink; or a check of the script and the report that the source is, with the verdict to the sink. The
/// words are those of the command line without the program's name; the gate stands between the steps of appends on
/// threads. It may wait: on threads a client waits for the turns of columns.
pub fn run<S: Source, K: Sink, G: Gate, R: Threads + Wait + Sync>(
    alloc: Global,
    rt: &R,
    words: &[String],
    source: &mut S,
    sink: &mut K,
    gate: &G,
) -> Status
    // What was done with a script: the whole text of a lawful run, or the line that says why the bytes are not done.
    ensures done { (asked : Asked) → task_of (map string_bytes words.now) ≡ Some (Task.Script asked) → result ≡ Status.Done
        → WritesWhole (IsRunText asked) (S.left source.old) (K.holds sink.old) (K.holds sink.new) }
    ensures to_the_end { (asked : Asked) → task_of (map string_bytes words.now) ≡ Some (Task.Script asked)
        → result ≡ Status.Done → IsAtEnd (S.left source.new) }
    ensures refused { (asked : Asked) → task_of (map string_bytes words.now) ≡ Some (Task.Script asked)
        → result ≡ Status.Refused
        → WritesWhole IsRefusalText (S.left source.old) (K.holds sink.old) (K.holds sink.new) }
    // What was done with a load: it was run, and its summary was written. The source is not read.
    ensures loaded { (count : ℕ) → task_of (map string_bytes words.now) ≡ Some (Task.Load count) → result ≡ Status.Done
        → WritesLoad count (K.holds sink.old) (K.holds sink.new) }
    ensures load_alone { (count : ℕ) → task_of (map string_bytes words.now) ≡ Some (Task.Load count)
        → (source.new ≡ source.old) × (result ≢ Status.Refused) × (result ≢ Status.ReadFault) }
    // What was said of a script and its report: the line of the verdict, which goes with the status.
    ensures judged { task_of (map string_bytes words.now) ≡ Some Task.Check → TellsVerdict result
        → OfAll (S.left source.old) (λ bytes. Says result bytes (K.holds sink.old) (K.holds sink.new)) }
    ensures unlawful { result ≡ Status.Unlawful → task_of (map string_bytes words.now) ≡ Some Task.Check }
    // What holds of the report of each run, for a reader.
    ensures reads { LawsForReaders }
    // When each other answer comes. Memory alone may be refused at any time.
    ensures bad_words { result ≡ Status.BadWords → task_of (map string_bytes words.now) ≡ None }
    ensures wrong_words { task_of (map string_bytes words.now) ≡ None
        → (result ≡ Status.BadWords) ⊎ (result ≡ Status.NoMemory) }
    ensures read_fault { result ≡ Status.ReadFault → Rose (S.faults source.old) (S.faults source.new) }
    ensures write_fault { result ≡ Status.WriteFault → Rose (K.faults sink.old) (K.faults sink.new) }
    // What it leaves then.
    ensures unread { task_of (map string_bytes words.now) ≡ None → source.new ≡ source.old }
    ensures unwritten { result ≢ Status.Done → result ≢ Status.Refused → result ≢ Status.Unlawful
        → result ≢ Status.WriteFault → sink.new ≡ sink.old }
    ensures front { (asked : Asked) → task_of (map string_bytes words.now) ≡ Some (Task.Script asked)
        → result ≡ Status.WriteFault
        → WritesFront asked (S.left source.old) (K.holds sink.old) (K.holds sink.new) }
    ensures load_front { (count : ℕ) → task_of (map string_bytes words.now) ≡ Some (Task.Load count)
        → result ≡ Status.WriteFault → WritesLoadFront count (K.holds sink.old) (K.holds sink.new) }
    ensures judged_front { task_of (map string_bytes words.now) ≡ Some Task.Check → result ≡ Status.WriteFault
        → OfAll (S.left source.old) (λ bytes. SaysFront bytes (K.holds sink.old) (K.holds sink.new)) }
    ensures taken { task_of (map string_bytes words.now) ≢ Some Task.Check
        → ConsumesUpTo MAX_BYTES (S.left source.old) (S.left source.new) }
    ensures judged_taken { task_of (map string_bytes words.now) ≡ Some Task.Check
        → ConsumesUpTo MAX_JUDGED (S.left source.old) (S.left source.new) }
    // Every script is done, every load, and every check: nothing but want of memory stands in the way.
    ensures complete { (asked : Asked) → task_of (map string_bytes words.now) ≡ Some (Task.Script asked)
        → (Rose (S.faults source.old) (S.faults source.new) → ⊥) → (Rose (K.faults sink.old) (K.faults sink.new) → ⊥)
        → IsAScript (S.left source.old) → (result ≡ Status.Done) ⊎ (result ≡ Status.NoMemory) }
    ensures load_complete { (count : ℕ) → task_of (map string_bytes words.now) ≡ Some (Task.Load count)
        → (Rose (K.faults sink.old) (K.faults sink.new) → ⊥) → (result ≡ Status.Done) ⊎ (result ≡ Status.NoMemory) }
    ensures judged_complete { task_of (map string_bytes words.now) ≡ Some Task.Check
        → (Rose (S.faults source.old) (S.faults source.new) → ⊥) → (Rose (K.faults sink.old) (K.faults sink.new) → ⊥)
        → TellsVerdict result ⊎ (result ≡ Status.NoMemory) }
    // The status is that of each verdict that the source's bytes have.
    ensures judged_exact { (bytes : List ℕ) → (verdict : Verdict) → task_of (map string_bytes words.now) ≡ Some Task.Check
        → S.left source.old ≡ Some bytes → IsVerdict bytes verdict → TellsVerdict result
        → result ≡ status_of verdict }
{
    laws_for_readers();
    one_verdict();
    match read_words(alloc, words) {
        Ok(Some(Task::Script(asked))) => perform(rt, alloc, asked, gate, source, sink),
        Ok(Some(Task::Load { count })) => do_load(rt, alloc, gate, count, sink),
        Ok(Some(Task::Check)) => check_source(alloc, source, sink),
        Ok(None) => Status::BadWords,
        Err(AllocError) => Status::NoMemory,
    }
}
