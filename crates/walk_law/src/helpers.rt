// Who completes the appends of others.
ghost use Rattle.std.specs.Prelude.{◌≡◌, ◌<◌, false, IfOk, length, slice_index_or};
ghost use Rattle.std.specs.List.{All};
ghost use Rattle.lawful_run.specs.Asks.{may_help};
ghost use Rattle.lawful_run.specs.Deeds.{manner_of};
ghost use Rattle.lawful_run.specs.Lawful.{HasHelping, IsHelp};
ghost use Rattle.column_track.specs.Tracks.{Tells};
ghost use Rattle.walk_law.specs.Fourth.{AreHelpers, AreHelping, MayHelp};
ghost use Rattle.walk_law.specs.Journals.{AreMakers};

use crate::subject::Subject;
use col_core::{Entry, Event};
use report_text::ColumnReport;
use script_text::What;
use std::alloc::{AllocError, Global};

// Whether a command may complete the appends of others.
fn may_help(what: &What) -> bool
    ensures { result ≡ may_help (manner_of what.now) }
{
    match what {
        What::Append { .. } | What::Put { .. } | What::Del { .. } | What::PutAll { .. } => true,
        What::Enq { .. } | What::Deq { .. } | What::Decide { .. } => true,
        What::Commit { .. } | What::Mk { .. } | What::Rm { .. } | What::Mv { .. } => true,
        What::Scan { .. } | What::GetAll { .. } | What::Read { .. } | What::Ls { .. } => true,
        What::Only { .. } | What::Stop { .. } | What::Sync { .. } | What::Pull { .. } => false,
        What::Trim { .. } | What::Get { .. } | What::Peek { .. } => false,
    }
}

// Whether a client has such a command.
fn has_helping(subject: &Subject<'_>, client: u8) -> bool
    requires { client < length subject.now.report.clients }
    ensures { Tells result (HasHelping subject.now.script client) }
{
    for place in 0..subject.count(client) {
        if may_help(&subject.command(client, place).what) {
            return true;
        }
    }
    false
}

// Which clients have.
fn helping(alloc: Global, subject: &Subject<'_>) -> Result<Vec<bool>, AllocError>
    ensures { IfOk result (λ v. AreHelping subject.now.script v.items) }
{
    subject.agrees();
    let mut helping = Vec::new(alloc);
    for client in 0..subject.clients() {
        helping.push(has_helping(subject, client))?;
    }
    Ok(helping)
}

// Whether an event completes the append of another client than its own.
fn is_help(by: u8, event: &Event) -> bool
    ensures { Tells result (IsHelp by event.now) }
{
    match event {
        Event::Propose { id, .. } | Event::Settle { id, .. } => id.client != by,
        Event::Single { .. }
        | Event::Raise { .. }
        | Event::Give { .. }
        | Event::Carry { .. }
        | Event::Trim { .. } => false,
    }
}

// Whether a client, if its event helps, has a command that may, and is of the column's region.
fn is_helper(subject: &Subject<'_>, helping: &[bool], region: u8, entry: &Entry) -> bool
    requires helping { AreHelping subject.now.script helping.now }
    requires maker { entry.now.by < length subject.now.script.shape.homes }
    ensures { Tells result (MayHelp subject.now.script region entry.now) }
{
    if !is_help(entry.by, &entry.event) {
        return true;
    }
    subject.agrees();
    if subject.own(entry.by) != region {
        return false;
    }
    helping[entry.by as usize]
}

// Whether so it is of all events of a column.
fn are_helpers_in(subject: &Subject<'_>, helping: &[bool], region: u8, journal: &[Entry]) -> bool
    requires helping { AreHelping subject.now.script helping.now }
    requires makers { AreMakers (length subject.now.script.shape.homes) journal.now }
    ensures { Tells result (All (MayHelp subject.now.script region) journal.now) }
{
    for entry in journal {
        if !is_helper(subject, helping, region, entry) {
            return false;
        }
    }
    true
}

// Whether so it is in a column of the report.
fn has_helpers(subject: &Subject<'_>, helping: &[bool], column: &ColumnReport) -> bool
    requires helping { AreHelping subject.now.script helping.now }
    requires makers { AreMakers (length subject.now.script.shape.homes) column.now.journal }
    ensures { Tells result (AreHelpers subject.now.script column.now) }
{
    are_helpers_in(subject, helping, column.region, column.journal.as_slice())
}

/// Whether who helps in a column has a command that may, and is of the column's region.
pub(crate) fn are_helpers(alloc: Global, subject: &Subject<'_>) -> Result<bool, AllocError>
    ensures { IfOk result (λ b. Tells b (All (AreHelpers subject.now.script) subject.now.report.columns)) }
{
    subject.agrees();
    let helping = helping(alloc, subject)?;
    for column in subject.report().columns.as_slice() {
        if !has_helpers(subject, &helping, column) {
            return Ok(false);
        }
    }
    Ok(true)
}
