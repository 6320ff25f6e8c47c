// A script and its report, read and judged.
ghost use Rattle.std.specs.Prelude.{◌≤◌, IfOk, List, Some, ℕ, length};
ghost use Rattle.std.specs.Option.{option_copied};
ghost use Rattle.script_text.specs.Fitting.{IsFitting};
ghost use Rattle.report_reading.specs.Apart.{AreApart};
ghost use Rattle.run_rules.specs.Deciding.{ColoursDiffer};
ghost use Rattle.run_check.specs.Refusals.{IsTheScript};
ghost use Rattle.run_check.specs.Verdicts.{IsTheReport, IsVerdict, IsVerdictOf};

use crate::start::report_start;
use crate::verdict::Verdict;
use name_law::scripts_name_apart;
use part_law::scripts_keep_apart;
use report_reading::{ReportFault, one_report, read_report};
use report_text::Report;
use run_law::{JudgeFault, Judged, judge};
use script_text::{Script, ScriptFault, parse};
use std::alloc::{AllocError, Global};

/// How many bytes a report may have: 2 to the power of 24.
pub const MAX_REPORT: usize = 16_777_216;

// What is said of a script and a report of it, whose text is not too long.
fn check_run(alloc: Global, script: &Script, report: &Report) -> Result<Verdict, AllocError>
    requires fitting { IsFitting script.now }
    requires differ { ColoursDiffer script.now }
    ensures { IfOk result (λ verdict. (before text : List ℕ) → IsTheScript before script.now → length text ≤ MAX_REPORT
        → IsTheReport script.now text report.now → IsVerdictOf before (Some text) verdict) }
{
    match judge(alloc, script, report) {
        Ok(Judged::Lawful) => Ok(Verdict::Lawful),
        Ok(Judged::Broken { rule }) => Ok(Verdict::Broken { rule }),
        Err(JudgeFault::Hidden { line }) => Ok(Verdict::Hidden { line }),
        Err(JudgeFault::NoMemory) => Err(AllocError),
    }
}

// What is said of a script and the text of its report.
fn check_text(alloc: Global, script: &Script, text: &[u8]) -> Result<Verdict, AllocError>
    requires fitting { IsFitting script.now }
    requires apart { AreApart script.now }
    requires differ { ColoursDiffer script.now }
    ensures { IfOk result (λ verdict. (before : List ℕ) → IsTheScript before script.now
        → IsVerdictOf before (Some text.now) verdict) }
{
    one_report();
    if text.len() > MAX_REPORT {
        return Ok(Verdict::TooLong);
    }
    match read_report(alloc, script, text) {
        Ok(report) => check_run(alloc, script, &report),
        Err(ReportFault::BadForm { .. }) => Ok(Verdict::BadForm),
        Err(ReportFault::NoMemory) => Err(AllocError),
    }
}

// What is said of a script's text, and of the text of its report, if there is one.
fn check_parts(alloc: Global, script: &[u8], report: Option<&[u8]>) -> Result<Verdict, AllocError>
    ensures { IfOk result (IsVerdictOf script.now (option_copied report.entry)) }
{
    scripts_name_apart();
    scripts_keep_apart();
    let script = match parse(alloc, script) {
        Ok(script) => script,
        Err(ScriptFault::Refused { line, why }) => return Ok(Verdict::NoScript { line, why }),
        Err(ScriptFault::NoMemory) => return Err(AllocError),
    };
    match report {
        Some(text) => check_text(alloc, &script, text),
        None => Ok(Verdict::Missing),
    }
}

/// What is said of a script and, from the first line on that is `report 1` or `report 2`, its report.
pub fn check(alloc: Global, bytes: &[u8]) -> Result<Verdict, AllocError>
    ensures { IfOk result (IsVerdict bytes.now) }
{
    match report_start(bytes) {
        Some(start) => check_parts(alloc, &bytes[..start], Some(&bytes[start..])),
        None => check_parts(alloc, bytes, None),
    }
}

/// The same of two texts.
pub fn check_texts(alloc: Global, script: &[u8], report: &[u8]) -> Result<Verdict, AllocError>
    ensures { IfOk result (IsVerdictOf script.now (Some report.now)) }
{
    check_parts(alloc, script, Some(report))
}
