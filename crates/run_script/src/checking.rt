// Judging the report that stands behind its script in a source.
ghost use Rattle.std.specs.Prelude.{◌≡◌, ◌≢◌};
ghost use Rattle.fuzzy_io.specs.Causes.{Rose, ConsumesUpTo};
ghost use Rattle.run_script.specs.TopCall.{status_of, TellsVerdict, Says, SaysFront, OfAll};

use crate::front::{FrontFault, read_front};
use crate::status::Status;
use fuzzy_io::{Failed, Sink, Source, write_all};
use run_check::{Verdict, check};
use std::alloc::{AllocError, Global};

/// The most bytes that are judged: 2 to the power of 20 of a script, and 2 to the power of 24 of a report.
pub const MAX_JUDGED: usize = 17_825_792;

// The status that goes with a verdict.
fn to_status(verdict: Verdict) -> Status
    ensures { result ≡ status_of verdict }
{
    match verdict {
        Verdict::Lawful => Status::Done,
        Verdict::Broken { .. } => Status::Unlawful,
        _ => Status::Refused,
    }
}

// Judges the bytes, and writes the line that says the verdict.
fn judge_bytes<K: Sink>(alloc: Global, bytes: &[u8], sink: &mut K) -> Status
    ensures judged { TellsVerdict result → Says result bytes.now (K.holds sink.old) (K.holds sink.new) }
    ensures write_fault { result ≡ Status.WriteFault → Rose (K.faults sink.old) (K.faults sink.new) }
    ensures front { result ≡ Status.WriteFault → SaysFront bytes.now (K.holds sink.old) (K.holds sink.new) }
    ensures no_memory { result ≡ Status.NoMemory → sink.new ≡ sink.old }
    ensures no_other { (result ≢ Status.BadWords) × (result ≢ Status.ReadFault) }
{
    let verdict = match check(alloc, bytes) {
        Ok(verdict) => verdict,
        Err(AllocError) => return Status::NoMemory,
    };
    let text = match verdict.text(alloc) {
        Ok(text) => text,
        Err(AllocError) => return Status::NoMemory,
    };
    match write_all(sink, text.as_bytes()) {
        Ok(()) => to_status(verdict),
        Err(Failed) => Status::WriteFault,
    }
}

/// Judges the report that stands behind its script in the source, and writes the line that says the verdict. What comes behind the most
/// bytes that are judged and one more is not read, and would change nothing: script or report are too long.
pub fn check_source<S: Source, K: Sink>(alloc: Global, source: &mut S, sink: &mut K) -> Status
    ensures judged { TellsVerdict result → OfAll (S.left source.old) (λ bytes.
        Says result bytes (K.holds sink.old) (K.holds sink.new)) }
    ensures read_fault { result ≡ Status.ReadFault → Rose (S.faults source.old) (S.faults source.new) }
    ensures write_fault { result ≡ Status.WriteFault → Rose (K.faults sink.old) (K.faults sink.new) }
    ensures front { result ≡ Status.WriteFault → OfAll (S.left source.old) (λ bytes.
        SaysFront bytes (K.holds sink.old) (K.holds sink.new)) }
    ensures read_fault_unwritten { result ≡ Status.ReadFault → sink.new ≡ sink.old }
    ensures no_memory { result ≡ Status.NoMemory → sink.new ≡ sink.old }
    ensures taken { ConsumesUpTo MAX_JUDGED (S.left source.old) (S.left source.new) }
    ensures no_other { result ≢ Status.BadWords }
{
    match read_front(alloc, source, MAX_JUDGED) {
        Ok(bytes) => judge_bytes(alloc, bytes.as_slice(), sink),
        Err(FrontFault::Failed) => Status::ReadFault,
        Err(FrontFault::NoMemory) => Status::NoMemory,
    }
}
