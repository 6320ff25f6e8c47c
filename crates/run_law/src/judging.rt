// Which of the first nine rules a report is the first to break.
ghost use Rattle.std.specs.Prelude.{IfOk};
ghost use Rattle.script_text.specs.Fitting.{IsFitting};
ghost use Rattle.run_rules.specs.Keeping.{RulesTo};
ghost use Rattle.run_rules.specs.Nodes.{nodes_told};
ghost use Rattle.run_rules.specs.Telling.{account_of};
ghost use Rattle.run_law.specs.LeastOf.{BeginsSo, IsLeastOf};
ghost use Rattle.walk_law.specs.Walking.{MayWalk};

use column_track::Track;
use log_node::ListOf;
use report_text::Report;
use run_rules::{first_rules_decided, later_rules_decided, ninth_rule_decided};
use script_text::Script;
use std::alloc::{AllocError, Global};
use walk_law::{
    Subject, keeps_eighth, keeps_fifth, keeps_first, keeps_fourth, keeps_ninth, keeps_seventh,
    keeps_sixth, keeps_third, tracks_of,
};

// The first that is broken of a report that keeps the first five.
fn least_from_sixth(alloc: Global, subject: &Subject<'_>) -> Result<Option<u8>, AllocError>
    requires { RulesTo subject.now.script subject.now.report
        (account_of subject.now.script subject.now.report (nodes_told subject.now.script subject.now.report)) 5 }
    ensures { IfOk result (IsLeastOf 9 subject.now.script subject.now.report) }
{
    later_rules_decided();
    ninth_rule_decided();
    subject.agrees();
    if !keeps_sixth(alloc, subject)? {
        return Ok(Some(6));
    }
    if !keeps_seventh(alloc, subject)? {
        return Ok(Some(7));
    }
    if !keeps_eighth(alloc, subject.script(), subject.report())? {
        return Ok(Some(8));
    }
    if !keeps_ninth(alloc, subject)? {
        return Ok(Some(9));
    }
    Ok(None)
}

/// The first of nine that is broken, of a report that keeps the first three.
pub(crate) fn least_from_fourth(
    alloc: Global,
    subject: &Subject<'_>,
) -> Result<Option<u8>, AllocError>
    ensures { IfOk result (IsLeastOf 9 subject.now.script subject.now.report) }
{
    first_rules_decided();
    later_rules_decided();
    subject.agrees();
    if !keeps_fourth(alloc, subject)? {
        return Ok(Some(4));
    }
    if !keeps_fifth(alloc, subject)? {
        return Ok(Some(5));
    }
    least_from_sixth(alloc, subject)
}

/// How a report fares by the first three rules.
#[derive(Drop)]
pub(crate) enum Begun {
    /// It breaks this one first.
    Broken { rule: u8 },
    /// It keeps them, and these are the tracks of its columns.
    Kept { tracks: ListOf<Track> },
}

/// Which of the first three rules a report of a script that fits is the first to break, or the tracks of its columns.
pub(crate) fn begin(alloc: Global, script: &Script, report: &Report) -> Result<Begun, AllocError>
    requires { IsFitting script.now }
    ensures { IfOk result (BeginsSo script.now report.now) }
{
    first_rules_decided();
    if !keeps_first(alloc, script, report)? {
        return Ok(Begun::Broken { rule: 1 });
    }
    let Some(tracks) = tracks_of(alloc, script, report)? else {
        return Ok(Begun::Broken { rule: 2 });
    };
    if !keeps_third(alloc, script, report, tracks.as_slice())? {
        return Ok(Begun::Broken { rule: 3 });
    }
    Ok(Begun::Kept { tracks })
}

// The first of nine that is broken, by the tracks of the report's columns.
fn least_walked(
    alloc: Global,
    script: &Script,
    report: &Report,
    tracks: &[Track],
) -> Result<Option<u8>, AllocError>
    requires { MayWalk script.now report.now tracks.now }
    ensures { IfOk result (IsLeastOf 9 script.now report.now) }
{
    let subject = Subject::of(alloc, script, report, tracks)?;
    least_from_fourth(alloc, &subject)
}

/// Which of the first nine rules a report of a script that fits is the first to break; `None` where it keeps them all.
pub fn least_of_nine(
    alloc: Global,
    script: &Script,
    report: &Report,
) -> Result<Option<u8>, AllocError>
    requires { IsFitting script.now }
    ensures { IfOk result (IsLeastOf 9 script.now report.now) }
{
    match begin(alloc, script, report)? {
        Begun::Broken { rule } => Ok(Some(rule)),
        Begun::Kept { tracks } => least_walked(alloc, script, report, tracks.as_slice()),
    }
}
