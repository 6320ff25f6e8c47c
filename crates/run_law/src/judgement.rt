// Whether a report is that of a lawful run, or which rule is the least that it breaks.
ghost use Rattle.std.specs.Prelude.{◌≡◌, ◌↔◌, IfOk, ℕ};
ghost use Rattle.script_text.specs.Fitting.{IsFitting};
ghost use Rattle.lawful_run.specs.Lawful.{LawfulRun};
ghost use Rattle.run_rules.specs.Computing.{finds_of};
ghost use Rattle.run_rules.specs.Deciding.{ColoursDiffer, account_showing, nodes_showing};
ghost use Rattle.run_rules.specs.Keeping.{Keeps, RulesTo, first_hidden};
ghost use Rattle.walk_law.specs.Finds.{finds_at};
ghost use Rattle.walk_law.specs.Walking.{MayWalk};
ghost use Rattle.object_law.specs.NodeTables.{AreNodes};
ghost use Rattle.run_law.specs.Judging.{IsJudged, TellsHidden};
ghost use Rattle.run_law.specs.LeastOf.{IsLeastOf};

use crate::hiding::hidden_line;
use crate::judged::{JudgeFault, Judged};
use crate::judging::{Begun, begin, least_from_fourth};
use crate::judging_laws::{judged_is_lawful, rules_are_asked, rules_stand};
use column_track::Track;
use object_law::{
    Finds, NodeTable, finds_of, keeps_fourteenth, keeps_showing, keeps_tenth, keeps_thirteenth,
    nodes_decided, nodes_found, show,
};
use report_text::Report;
use script_text::Script;
use std::alloc::{AllocError, Global};
use walk_law::{ShownTexts, Subject, keeps_eleventh, keeps_twelfth};

// The first that is broken of a report that keeps the first nine, also at the account that shows what reads found; the last is
// not looked at.
fn least_shown(
    alloc: Global,
    subject: &Subject<'_>,
    nodes: &NodeTable,
) -> Result<Option<u8>, AllocError>
    requires keeps { Keeps subject.now.script subject.now.report 9 }
    requires differ { ColoursDiffer subject.now.script }
    requires nodes { AreNodes (nodes_showing subject.now.script subject.now.report) nodes.now }
    requires kept { RulesTo subject.now.script subject.now.report
        (account_showing subject.now.script subject.now.report) 9 }
    ensures { IfOk result (IsLeastOf 13 subject.now.script subject.now.report) }
{
    rules_are_asked();
    rules_stand();
    subject.agrees();
    if !keeps_tenth(alloc, subject, nodes)? {
        return Ok(Some(10));
    }
    if !keeps_eleventh(alloc, subject)? {
        return Ok(Some(11));
    }
    if !keeps_twelfth(alloc, subject)? {
        return Ok(Some(12));
    }
    if !keeps_thirteenth(alloc, subject, nodes)? {
        return Ok(Some(13));
    }
    Ok(None)
}

// The same of one that keeps the first nine, by what reads found and the texts that are shown.
fn least_found(
    alloc: Global,
    subject: &Subject<'_>,
    finds: &Finds,
    texts: &ShownTexts<'_>,
) -> Result<Option<u8>, AllocError>
    requires keeps { Keeps subject.now.script subject.now.report 9 }
    requires differ { ColoursDiffer subject.now.script }
    requires finds { (client k : ℕ) → finds_at finds.now client k ≡ finds_of subject.now.script subject.now.report client k }
    requires texts { texts.now ≡ subject.now.report }
    ensures { IfOk result (IsLeastOf 13 subject.now.script subject.now.report) }
{
    rules_are_asked();
    subject.agrees();
    let found = nodes_found(alloc, subject, finds)?;
    if !keeps_showing(subject, &found, texts) {
        return Ok(Some(10));
    }
    let shown = show(alloc, subject, found, texts)?;
    least_shown(alloc, subject, &shown)
}

// What a report that keeps the rules before the last is judged to be.
fn judged_by_last(
    alloc: Global,
    subject: &Subject<'_>,
    finds: &Finds,
    texts: &ShownTexts<'_>,
) -> Result<Judged, AllocError>
    requires keeps { Keeps subject.now.script subject.now.report 13 }
    requires differ { ColoursDiffer subject.now.script }
    requires finds { (client k : ℕ) → finds_at finds.now client k ≡ finds_of subject.now.script subject.now.report client k }
    requires texts { texts.now ≡ subject.now.report }
    ensures { IfOk result (IsJudged subject.now.script subject.now.report) }
{
    let nodes = nodes_decided(alloc, subject, finds)?;
    if keeps_fourteenth(alloc, subject, &nodes, texts)? {
        Ok(Judged::Lawful)
    } else {
        Ok(Judged::Broken { rule: 14 })
    }
}

// What a report that keeps the first nine is judged to be.
fn judged_from_tenth(alloc: Global, subject: &Subject<'_>) -> Result<Judged, AllocError>
    requires keeps { Keeps subject.now.script subject.now.report 9 }
    requires differ { ColoursDiffer subject.now.script }
    ensures { IfOk result (IsJudged subject.now.script subject.now.report) }
{
    let texts = ShownTexts::of_report(alloc, subject.report())?;
    let finds = finds_of(alloc, subject)?;
    match least_found(alloc, subject, &finds, &texts)? {
        Some(rule) => Ok(Judged::Broken { rule }),
        None => judged_by_last(alloc, subject, &finds, &texts),
    }
}

// What a report that keeps the first three is judged to be, by the tracks of its columns.
fn judged_walked(
    alloc: Global,
    script: &Script,
    report: &Report,
    tracks: &[Track],
) -> Result<Judged, AllocError>
    requires may { MayWalk script.now report.now tracks.now }
    requires differ { ColoursDiffer script.now }
    ensures { IfOk result (IsJudged script.now report.now) }
{
    let subject = Subject::of(alloc, script, report, tracks)?;
    match least_from_fourth(alloc, &subject)? {
        Some(rule) => Ok(Judged::Broken { rule }),
        None => judged_from_tenth(alloc, &subject),
    }
}

// What a report is judged to be, whatever it hides.
fn judged(alloc: Global, script: &Script, report: &Report) -> Result<Judged, AllocError>
    requires fitting { IsFitting script.now }
    requires differ { ColoursDiffer script.now }
    ensures { IfOk result (IsJudged script.now report.now) }
{
    match begin(alloc, script, report)? {
        Begun::Broken { rule } => Ok(Judged::Broken { rule }),
        Begun::Kept { tracks } => judged_walked(alloc, script, report, tracks.as_slice()),
    }
}

/// Whether a report of a script keeps all rules of a lawful run, or which is the least that it breaks.
pub fn judge(alloc: Global, script: &Script, report: &Report) -> Result<Judged, JudgeFault>
    requires fitting { IsFitting script.now }
    requires differ { ColoursDiffer script.now }
    // It is judged by the rules.
    ensures judged { IfOk result (IsJudged script.now report.now) }
    // None is judged that hides what was done; of others memory alone may be wanting.
    ensures hidden { TellsHidden (first_hidden report.now) result }
    // Lawful is said exactly where the report is that of a lawful run.
    ensures lawful { IfOk result (λ judged. (judged ≡ Judged.Lawful) ↔ LawfulRun script.now report.now) }
{
    judged_is_lawful();
    if let Some(line) = hidden_line(report) {
        return Err(JudgeFault::Hidden { line });
    }
    match judged(alloc, script, report) {
        Ok(judged) => Ok(judged),
        Err(AllocError) => Err(JudgeFault::NoMemory),
    }
}
