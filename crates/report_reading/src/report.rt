// A whole report.
ghost use Rattle.std.specs.Prelude.{◌≡◌, IfSome, IfOk, length};
ghost use Rattle.std.specs.Str.{bytes_eq};
ghost use Rattle.report_text.specs.ReportText.{report_bytes};
ghost use Rattle.report_reading.specs.Apart.{AreApart};
ghost use Rattle.report_reading.specs.Lists.{Gives};
ghost use Rattle.report_reading.specs.ReportReadings.{behind_clients_at, candidate_at, has_all, report_at};
ghost use Rattle.report_reading.specs.Meant.{IsReportOf};
ghost use Rattle.report_reading.specs.Faults.{IsBadForm, TellsLength};
ghost use Rattle.report_text.specs.declared.report.Report.{Report};

use crate::columns::column_count;
use crate::fault::{ReadFault, ReportFault};
use crate::lists::list;
use crate::pieces::{behind, number};
use crate::setting::Setting;
use fuzzy_io::MemorySink;
use log_node::ListOf;
use report_text::{ClientReport, Report, print};
use script_text::Script;
use std::alloc::Global;

// The report that has these clients, and rows and columns from the bytes.
#[tactic(auto, unfolding(crate::specs::ReportReadings::behind_clients_at))]
fn behind_clients(
    alloc: Global,
    setting: &Setting<'_>,
    clients: ListOf<ClientReport>,
    bytes: &[u8],
) -> Result<Report, ReadFault>
    ensures { Gives (λ r. r) result (behind_clients_at setting.now clients bytes.now) }
{
    let (rows, rest) = list(alloc, setting, bytes)?;
    let (columns, _) = list(alloc, setting, rest)?;
    Ok(Report {
        version: setting.script().version,
        clients,
        rows,
        columns,
    })
}

// The report that the bytes are, if they are one.
#[tactic(auto, unfolding(crate::specs::ReportReadings::candidate_at))]
fn candidate(alloc: Global, setting: &Setting<'_>, bytes: &[u8]) -> Result<Report, ReadFault>
    ensures { Gives (λ r. r) result (candidate_at setting.now bytes.now) }
{
    let (_, rest) = number(behind(bytes, 7));
    let (clients, rest) = list(alloc, setting, behind(rest, 1))?;
    behind_clients(alloc, setting, clients, rest)
}

// Whether the bytes are the text of the report, unless memory runs out.
fn has_text(alloc: Global, report: &Report, bytes: &[u8]) -> Option<bool>
    ensures { IfSome result (λ same. same ≡ bytes_eq (report_bytes report.now) bytes.now) }
{
    let Ok(mut text) = MemorySink::open(alloc, u32::MAX, &[]) else {
        return None;
    };
    match print(report, &mut text) {
        Ok(()) => Some(text.bytes() == bytes),
        Err(_) => None,
    }
}

// Whether all clients and all columns of the script are there.
fn has_all(script: &Script, report: &Report) -> bool
    requires { AreApart script.now }
    ensures { result ≡ has_all script.now report.now }
{
    report.clients.len() == script.clients.len() && report.columns.len() == column_count(script)
}

// The report that the bytes are.
#[tactic(auto, unfolding(crate::specs::ReportReadings::report_at))]
fn report(alloc: Global, script: &Script, bytes: &[u8]) -> Result<Report, ReadFault>
    requires { AreApart script.now }
    ensures { Gives (λ r. r) result (report_at script.now bytes.now) }
{
    let report = candidate(alloc, &Setting::of(script), bytes)?;
    if !has_all(script, &report) {
        return Err(ReadFault::Form);
    }
    match has_text(alloc, &report, bytes) {
        None => Err(ReadFault::Memory),
        Some(false) => Err(ReadFault::Form),
        Some(true) => Ok(report),
    }
}

/// The report that the bytes are, as one of this script.
#[tactic(auto, using(crate::proofs::ReportLaws::is_read, crate::proofs::ReportLaws::none_read))]
pub fn read_report(alloc: Global, script: &Script, bytes: &[u8]) -> Result<Report, ReportFault>
    requires { AreApart script.now }
    // What is read is a report of the script, and the bytes are its text.
    ensures is { IfOk result (λ r. IsReportOf script.now r × (report_bytes r ≡ bytes.now)) }
    // Where the form is bad, no report of the script has this text.
    ensures none { IsBadForm result → (r : Report) → IsReportOf script.now r → report_bytes r ≡ bytes.now → ⊥ }
    // How many bytes there are is told.
    ensures len { TellsLength (length bytes.now) result }
{
    match report(alloc, script, bytes) {
        Ok(report) => Ok(report),
        Err(ReadFault::Memory) => Err(ReportFault::NoMemory),
        Err(ReadFault::Form) => Err(ReportFault::BadForm {
            len: bytes.len() as u64,
        }),
    }
}
