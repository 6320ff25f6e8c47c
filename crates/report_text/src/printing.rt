// Printing a report, and the line of a refusal.
ghost use Rattle.std.specs.Prelude.{OnOk, OnErr};
ghost use Rattle.std.specs.Io.KnownBytes.{Appends};
ghost use Rattle.fuzzy_io.specs.Causes.{CountsFaults, AppendsFront};
ghost use Rattle.report_text.specs.Output.{Adds};
ghost use Rattle.report_text.specs.ReportText.{report_bytes, refusal_bytes, version_line};

use crate::names::NameIndex;
use crate::output::Output;
use crate::page::Page;
use crate::printed::print_each;
use crate::report::Report;
use fuzzy_io::{Failed, Sink};

/// The first line of a report, to an output.
pub fn put_version<O: Output>(version: u8, out: &mut O)
    ensures { Adds (O.state out.old) (O.state out.new) (version_line version) }
{
    out.put(b"report ");
    out.put_number(version as u64);
    out.put(b"\n");
}

/// The report, to an output.
fn put_report<O: Output>(report: &Report, out: &mut O)
    ensures { Adds (O.state out.old) (O.state out.new) (report_bytes report.now) }
{
    let names = NameIndex::of(report);
    put_version(report.version, out);
    print_each(&report.clients, &names, out);
    print_each(&report.rows, &names, out);
    print_each(&report.columns, &names, out);
}

/// Writes the text of the report. At `Err` a front of it went out. It takes no memory.
pub fn print<K: Sink>(report: &Report, sink: &mut K) -> Result<(), Failed>
    ensures ok { OnOk result (Appends (K.holds sink.old) (K.holds sink.new) (report_bytes report.now)) }
    ensures front { OnErr result (AppendsFront (K.holds sink.old) (K.holds sink.new) (report_bytes report.now)) }
    ensures cause { CountsFaults (K.faults sink.old) (K.faults sink.new) result }
{
    let mut page = Page::over(sink);
    put_report(report, &mut page);
    page.finish()
}

/// Writes the line of a refused script, with the reason in words. At `Err` a front of it went out. It takes no memory.
pub fn print_refusal<K: Sink>(line: u32, why: &[u8], sink: &mut K) -> Result<(), Failed>
    ensures ok { OnOk result (Appends (K.holds sink.old) (K.holds sink.new) (refusal_bytes line why.now)) }
    ensures front { OnErr result (AppendsFront (K.holds sink.old) (K.holds sink.new) (refusal_bytes line why.now)) }
    ensures cause { CountsFaults (K.faults sink.old) (K.faults sink.new) result }
{
    let mut page = Page::over(sink);
    put_refusal(line, why, &mut page);
    page.finish()
}

/// The line of a refusal, to an output.
fn put_refusal<O: Output>(line: u32, why: &[u8], out: &mut O)
    ensures { Adds (O.state out.old) (O.state out.new) (refusal_bytes line why.now) }
{
    out.put(b"refused: line ");
    out.put_number(line as u64);
    out.put(b": ");
    out.put(why);
    out.put(b"\n");
}
