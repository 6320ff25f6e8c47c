// The ninth rule: what syncs, stamped reads, pulls and trims show.
ghost use Rattle.std.specs.Prelude.{◌≡◌, ◌<◌, IfOk, length};
ghost use Rattle.col_core.specs.Keeping.{Kept};
ghost use Rattle.script_text.specs.Fitting.{IsWithin};
ghost use Rattle.lawful_run.specs.Callers.{Caller, caller_of};
ghost use Rattle.column_track.specs.Tracks.{Tells};
ghost use Rattle.run_rules.specs.Answering.{CanHave};
ghost use Rattle.run_rules.specs.Told.{Step as StepTold, Untold, kept_told};
ghost use Rattle.run_rules.specs.Telling.{account_of, replies_to};
ghost use Rattle.run_rules.specs.Nodes.{nodes_told};
ghost use Rattle.run_rules.specs.Said.{ShownCouldBeSaid, nodes_shown};
ghost use Rattle.run_rules.specs.Keeping.{RulesTo};
ghost use Rattle.run_rules.specs.Shown.{Rule9};
ghost use Rattle.walk_law.specs.Behind.{IsAnswered};
ghost use Rattle.walk_law.specs.Ninth.{PassesTo, ShowsFirst, StepShows, log_shown};
ghost use Rattle.walk_law.specs.Walking.{GoesOn, HasFew, IsSeen, IsStepOf, Walked, log_walked};

use crate::could_say::keeps_said;
use crate::keeping::Keeping;
use crate::laws::ninth_is_shown;
use crate::shown_texts::ShownTexts;
use crate::subject::Subject;
use crate::walking::{Check, each_step};
use report_text::{Answer, ReplyLine};
use script_text::What;
use std::alloc::{AllocError, Global};

impl Keeping {
    // Goes on behind an answer to the command in this place, where it shows what it has to, and texts as they are first shown.
    fn shows(
        &mut self,
        alloc: Global,
        subject: &Subject<'_>,
        client: u8,
        place: usize,
        what: &What,
        texts: &ShownTexts<'_>,
        reply: &ReplyLine,
    ) -> Result<bool, AllocError>
        requires walker { client < length subject.now.report.clients }
        requires few { HasFew self.old }
        ensures { (kept : Kept) (untold : Untold)
            → IsAnswered subject.now client place what.now reply.now.answer kept untold self.old
            → CanHave (caller_of subject.now.script client) kept what.now reply.now.nodes reply.now.answer
            → IsWithin subject.now.script.shape.regions subject.now.script.shape.colours what.now
            → IfOk result (PassesTo (replies_to subject.now.report client)
            (ShowsFirst texts.now (log_shown subject.now.script subject.now.report) untold (caller_of subject.now.script client) kept
            what.now reply.now.nodes reply.now.answer)
            (kept_told (log_walked subject.now) untold (caller_of subject.now.script client) kept what.now reply.now.answer) self.new) }
    {
        subject.agrees();
        let nodes = reply.nodes.as_slice();
        match &reply.answer {
            Answer::Synced { sync, plays } => {
                Ok(self.shows_played(subject, client, texts, *sync, *plays, nodes))
            }
            Answer::Scanned {
                stamp,
                nodes: count,
                raises,
                syncs,
            } => self.shows_scan(
                alloc,
                subject,
                client,
                texts,
                *stamp,
                *count,
                raises.as_slice(),
                syncs.as_slice(),
                nodes,
            ),
            Answer::Got { sync, .. } => Ok(self.shows_sync(subject, client, *sync)),
            Answer::GotMany { sync, .. } => Ok(self.shows_sync(subject, client, *sync)),
            Answer::Undecided { sync, .. } => Ok(self.shows_sync(subject, client, *sync)),
            Answer::GotKeys {
                stamp,
                raises,
                syncs,
                ..
            } => {
                if !self.reads(subject, client, *stamp, raises.as_slice(), syncs.as_slice())? {
                    return Ok(false);
                }
                self.found(what, place);
                Ok(true)
            }
            Answer::Listed {
                stamp,
                raises,
                syncs,
                ..
            } => self.reads(subject, client, *stamp, raises.as_slice(), syncs.as_slice()),
            Answer::Pulled {
                nodes: many,
                give,
                carry,
            } => self.shows_pull(subject, client, what, *many, *give, *carry),
            Answer::Based { at, base } => self.shows_trim(subject, client, what, *at, *base),
            Answer::Ruled {
                row,
                points,
                read_stamp,
                raises,
                syncs,
                ..
            } => self.shows_behind(
                alloc,
                subject,
                client,
                *row,
                points.as_slice(),
                *read_stamp,
                raises.as_slice(),
                syncs.as_slice(),
            ),
            Answer::Changed {
                row,
                points,
                read_stamp,
                raises,
                syncs,
                ..
            } => self.shows_behind(
                alloc,
                subject,
                client,
                *row,
                points.as_slice(),
                *read_stamp,
                raises.as_slice(),
                syncs.as_slice(),
            ),
            Answer::Decided {
                sync,
                read_stamp,
                raises,
                syncs,
                ended,
                ..
            } => self.shows_decided(
                subject,
                client,
                *sync,
                *read_stamp,
                raises.as_slice(),
                syncs.as_slice(),
                *ended,
            ),
            Answer::Took { point, sync, .. } => {
                self.shows_taken(alloc, subject, client, point, *sync)
            }
            Answer::Stood { .. }
            | Answer::StampEnd { .. }
            | Answer::Full { .. }
            | Answer::Stopped { .. }
            | Answer::SameRegion
            | Answer::Moved { .. }
            | Answer::NoTx
            | Answer::UnreadTrimmed { .. }
            | Answer::UnreadNoMemory { .. }
            | Answer::Trimmed { .. }
            | Answer::NotHome { .. }
            | Answer::NoMemory => {
                self.answered(alloc, subject, client, place, what, &reply.answer)?;
                Ok(true)
            }
        }
    }
}

// What the ninth rule asks of each step, where these texts are first shown.
#[derive(Clone, Copy)]
struct ShownCheck<'t, 'r> {
    texts: &'t ShownTexts<'r>,
}

impl<'t, 'r> Check for ShownCheck<'t, 'r> {
    ghost Asks = { λ self walked caller step. StepShows walked.script walked.report self.texts.now caller step };

    fn go_on(
        &self,
        alloc: Global,
        subject: &Subject<'_>,
        client: u8,
        place: usize,
        keeping: &mut Keeping,
    ) -> Result<bool, AllocError> {
        subject.agrees();
        let what = &subject.command(client, place).what;
        let reply = subject.reply(client, place);
        if !keeping.shows(alloc, subject, client, place, what, self.texts, reply)? {
            return Ok(false);
        }
        keeping.end(what);
        Ok(true)
    }
}

/// Whether a report that keeps the rules before it keeps of the ninth what syncs, reads, pulls and trims show, at the account with
/// the texts that node lines show first.
pub(crate) fn keeps_shown(
    alloc: Global,
    subject: &Subject<'_>,
    texts: &ShownTexts<'_>,
) -> Result<bool, AllocError>
    requires texts { texts.now ≡ subject.now.report }
    requires rules { RulesTo subject.now.script subject.now.report
        (account_of subject.now.script subject.now.report (nodes_told subject.now.script subject.now.report)) 8 }
    ensures { IfOk result (λ b. Tells b (Rule9 subject.now.script subject.now.report
        (account_of subject.now.script subject.now.report (nodes_shown subject.now.script subject.now.report)))) }
{
    ninth_is_shown();
    subject.agrees();
    each_step(alloc, subject, &ShownCheck { texts })
}

/// Whether a report that keeps the rules before it keeps the ninth: syncs, reads, pulls and trims show what they have to, at the
/// account with the texts that node lines show first, and the commands of nodes could have said these.
pub fn keeps_ninth(alloc: Global, subject: &Subject<'_>) -> Result<bool, AllocError>
    requires { RulesTo subject.now.script subject.now.report
        (account_of subject.now.script subject.now.report (nodes_told subject.now.script subject.now.report)) 8 }
    ensures { IfOk result (λ b. Tells b (Rule9 subject.now.script subject.now.report
        (account_of subject.now.script subject.now.report (nodes_shown subject.now.script subject.now.report))
        × ShownCouldBeSaid subject.now.script subject.now.report)) }
{
    let texts = ShownTexts::of_report(alloc, subject.report())?;
    if !keeps_shown(alloc, subject, &texts)? {
        return Ok(false);
    }
    keeps_said(alloc, subject, &texts)
}
