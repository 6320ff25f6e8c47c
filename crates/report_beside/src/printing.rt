// Printing a report whose parts are made on threads.
ghost use Rattle.std.specs.Prelude.{◌≡◌, ◌<◌, Some, slice_get, length, IfOk, OnOk, OnErr};
ghost use Rattle.std.specs.Io.KnownBytes.{Appends};
ghost use Rattle.fuzzy_io.specs.Causes.{CountsFaults, AppendsFront};
ghost use Rattle.report_text.specs.Output.{Adds};
ghost use Rattle.report_text.specs.ReportText.{report_bytes};
ghost use Rattle.report_beside.specs.Made.{IsMade, AreMade};
ghost use Rattle.report_beside.specs.Parts.{part_text, ArePartsOf};
ghost use Rattle.report_beside.specs.declared.parts.Part.{Part};

use crate::made::{made_text, put_each};
use crate::parts::{Part, parts_of, threads_for};
use fork_join::map_indices;
use fuzzy_io::{Failed, MemorySink, Sink};
use report_text::{NameIndex, Output, Page, Report, print, put_version};
use std::alloc::{AllocError, Global};
use std::num::NonZeroUsize;
use std::thread::Threads;

// The texts of the parts, made on so many threads at most; of a part there is none where there was no memory for it.
fn made_texts<R: Threads + Sync>(
    rt: &R,
    alloc: Global,
    parts: &[Part<'_>],
    names: &NameIndex<'_>,
    most: NonZeroUsize,
) -> Result<Vec<Option<MemorySink>>, AllocError>
    ensures { IfOk result (λ texts. AreMade (part_text names.now) parts.now texts.items) }
{
    map_indices(
        rt,
        alloc,
        parts.len(),
        threads_for(parts, most),
        &|number: usize| -> Option<MemorySink>
            requires { number < length parts.now }
            ensures { (part : Part) → slice_get parts.entry.now number ≡ Some part → IsMade (part_text names.entry.now part) result }
        { made_text(alloc, &parts[number], names) },
    )
}

// The report to an output, by the texts of its parts.
fn put_report<O: Output>(
    report: &Report,
    names: &NameIndex<'_>,
    parts: &[Part<'_>],
    texts: &[Option<MemorySink>],
    out: &mut O,
)
    requires names { names.now ≡ report.now }
    requires parts { ArePartsOf report.now parts.now }
    requires texts { AreMade (part_text names.now) parts.now texts.now }
    ensures { Adds (O.state out.old) (O.state out.new) (report_bytes report.now) }
{
    put_version(report.version, out);
    put_each(parts, texts, names, out);
}

/// Writes the text of the report, of which the parts are made on that many threads at most first. At `Err` a front of it went out. A part for
/// whose text there is no memory is printed as it is written.
pub fn print_beside<K: Sink, R: Threads + Sync>(
    rt: &R,
    alloc: Global,
    report: &Report,
    sink: &mut K,
    most: NonZeroUsize,
) -> Result<(), Failed>
    ensures ok { OnOk result (Appends (K.holds sink.old) (K.holds sink.new) (report_bytes report.now)) }
    ensures front { OnErr result (AppendsFront (K.holds sink.old) (K.holds sink.new) (report_bytes report.now)) }
    ensures cause { CountsFaults (K.faults sink.old) (K.faults sink.new) result }
{
    let Ok(parts) = parts_of(alloc, report) else {
        return print(report, sink);
    };
    let names = NameIndex::of(report);
    let Ok(texts) = made_texts(rt, alloc, parts.as_slice(), &names, most) else {
        return print(report, sink);
    };
    let mut page = Page::over(sink);
    put_report(
        report,
        &names,
        parts.as_slice(),
        texts.as_slice(),
        &mut page,
    );
    page.finish()
}
