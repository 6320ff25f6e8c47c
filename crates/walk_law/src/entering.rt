// Whether a step enters the node that its client appended, beside the row of this.
ghost use Rattle.std.specs.Prelude.{◌≡◌, ◌<◌, List, IfOk, OnOk, length};
ghost use Rattle.col_core.specs.Keeping.{Kept};
ghost use Rattle.lawful_run.specs.Callers.{caller_of};
ghost use Rattle.column_track.specs.Tracks.{Tells};
ghost use Rattle.report_text.specs.declared.report.ReplyLine.{ReplyLine as Replied};
ghost use Rattle.run_rules.specs.Told.{Step as StepTold, kept_appending, kept_at};
ghost use Rattle.run_rules.specs.Telling.{replies_to};
ghost use Rattle.walk_law.specs.Fifth.{EntersNode, EntersSo, HasNextRow, OfAppended, OfEnd, finding_in, next_id};
ghost use Rattle.walk_law.specs.Keepings.{Counted, IsCounted, KeepsCount};
ghost use Rattle.walk_law.specs.Walking.{CountsBehind, HasFew, IsSeen, IsStepOf, log_walked};

use crate::fifth::{enters_as_node, is_next_row};
use crate::keeping::Keeping;
use crate::row_places::RowPlaces;
use crate::subject::Subject;
use crate::walking::Check;
use report_text::{Answer, Ended, PointPiece};
use script_text::What;
use std::alloc::{AllocError, Global};

impl Keeping {
    // Goes on to where the node of a command with this answer is appended: a decide has synced and read before.
    pub fn to_append(
        &mut self,
        subject: &Subject<'_>,
        client: u8,
        answer: &Answer,
    ) -> Result<(), AllocError>
        requires { client < length subject.now.report.clients }
        ensures kept { (replies : List Replied) (kept : Kept) → IsCounted replies kept self.old → OnOk result (IsCounted replies
            (kept_appending (log_walked subject.now) (caller_of subject.now.script client) kept answer.now) self.new) }
        ensures count { OnOk result (KeepsCount self.old self.new) }
    {
        match answer {
            Answer::Decided {
                sync,
                read_stamp,
                raises,
                syncs,
                ..
            } => {
                self.sync(subject, client, *sync);
                self.stamped_read(
                    subject,
                    client,
                    *read_stamp,
                    raises.as_slice(),
                    syncs.as_slice(),
                )
            }
            _ => Ok(()),
        }
    }

    // Goes on from there behind the step of a client in this place.
    pub(crate) fn from_append(
        &mut self,
        alloc: Global,
        subject: &Subject<'_>,
        client: u8,
        place: usize,
    ) -> Result<(), AllocError>
        requires there { IsStepOf subject.now client place }
        requires few { HasFew self.old }
        ensures { (before : Counted) (step : StepTold) → IsSeen subject.now client place before step
            → IsCounted (replies_to subject.now.report client) (kept_appending (log_walked subject.now)
            (caller_of subject.now.script client) (kept_at step) step.reply.answer) self.old
            → OnOk result (CountsBehind subject.now client step self.new) }
    {
        match &subject.reply(client, place).answer {
            Answer::Decided { ended, .. } => {
                self.ended(client, subject.own(client), *ended)?;
                self.end(&subject.command(client, place).what);
                Ok(())
            }
            _ => self.go_on(alloc, subject, client, place),
        }
    }
}

impl RowPlaces {
    // Whether the row of the client's next node, if there is one, is its own, of these colours.
    fn has_next_row(
        &self,
        alloc: Global,
        subject: &Subject<'_>,
        client: u8,
        own: u8,
        keeping: &Keeping,
        asked: &[u8],
    ) -> Result<bool, AllocError>
        requires own { own ≡ (caller_of subject.now.script client).own }
        requires within { own < subject.now.script.shape.regions }
        ensures { (kept : Kept) → IsCounted (replies_to subject.now.report client) kept keeping.now → IfOk result (λ b. Tells b
            (HasNextRow subject.now.script.shape.colours (log_walked subject.now) (caller_of subject.now.script client) kept asked.now
            (finding_in self.now subject.now.report.rows own (next_id (caller_of subject.now.script client) kept)))) }
    {
        let rows = subject.report().rows.as_slice();
        match self.row(rows, own, keeping.next_id(client)) {
            Some(row) => is_next_row(alloc, subject, client, own, keeping, asked, row),
            None => Ok(true),
        }
    }

    // Whether the event at the point of a node's append enters it, and its row, if there is one, is its own.
    fn enters_beside(
        &self,
        alloc: Global,
        subject: &Subject<'_>,
        client: u8,
        keeping: &Keeping,
        what: &What,
        row: Option<u32>,
        points: &[PointPiece],
    ) -> Result<bool, AllocError>
        requires { client < length subject.now.report.clients }
        ensures { (kept : Kept) → IsCounted (replies_to subject.now.report client) kept keeping.now
            → IfOk result (λ b. Tells b (EntersSo self.now subject.now client what.now kept row points.now)) }
    {
        let own = subject.own(client);
        if !enters_as_node(subject, client, own, keeping, row, points) {
            return Ok(false);
        }
        let asked = keeping.asked(alloc, subject, client, what)?;
        self.has_next_row(alloc, subject, client, own, keeping, asked.as_slice())
    }

    // Whether so does the node of a decision, where it stands.
    fn ends_beside(
        &self,
        alloc: Global,
        subject: &Subject<'_>,
        client: u8,
        keeping: &Keeping,
        what: &What,
        ended: Ended,
    ) -> Result<bool, AllocError>
        requires { client < length subject.now.report.clients }
        ensures { (kept : Kept) → IsCounted (replies_to subject.now.report client) kept keeping.now
            → IfOk result (λ b. Tells b (OfEnd (EntersSo self.now subject.now client what.now) kept ended)) }
    {
        match ended {
            Ended::Stood { point, .. } => {
                self.enters_beside(alloc, subject, client, keeping, what, None, &[point])
            }
            Ended::StampEnd { .. } | Ended::NoMemory => Ok(true),
        }
    }

    // Whether so does the node for which an answer used an id up, of a client that keeps this when it is appended.
    fn enters_node(
        &self,
        alloc: Global,
        subject: &Subject<'_>,
        client: u8,
        keeping: &Keeping,
        what: &What,
        answer: &Answer,
    ) -> Result<bool, AllocError>
        requires { client < length subject.now.report.clients }
        ensures { (kept : Kept) → IsCounted (replies_to subject.now.report client) kept keeping.now
            → IfOk result (λ b. Tells b (OfAppended (EntersSo self.now subject.now client what.now)
            (caller_of subject.now.script client) kept what.now answer.now)) }
    {
        match answer {
            Answer::Stood { row, points, .. } => {
                let points = points.as_slice();
                self.enters_beside(alloc, subject, client, keeping, what, *row, points)
            }
            Answer::StampEnd { .. } => {
                if !keeping.is_several(alloc, subject, client, what)? {
                    return Ok(true);
                }
                self.enters_beside(alloc, subject, client, keeping, what, None, &[])
            }
            Answer::Stopped { steps } => {
                if *steps == 0 {
                    return Ok(true);
                }
                self.enters_beside(alloc, subject, client, keeping, what, None, &[])
            }
            Answer::Ruled { row, points, .. } => {
                let points = points.as_slice();
                self.enters_beside(alloc, subject, client, keeping, what, *row, points)
            }
            Answer::Changed { row, points, .. } => {
                let points = points.as_slice();
                self.enters_beside(alloc, subject, client, keeping, what, *row, points)
            }
            Answer::Took { point, .. } => {
                self.enters_beside(alloc, subject, client, keeping, what, None, &[*point])
            }
            Answer::Decided { ended, .. } => {
                self.ends_beside(alloc, subject, client, keeping, what, *ended)
            }
            _ => Ok(true),
        }
    }
}

impl Check for RowPlaces {
    // the step enters its node, beside the row that is found
    ghost Asks = { λ places walked caller step. EntersNode (finding_in places walked.report.rows) walked caller step };

    fn go_on(
        &self,
        alloc: Global,
        subject: &Subject<'_>,
        client: u8,
        place: usize,
        keeping: &mut Keeping,
    ) -> Result<bool, AllocError> {
        let what = &subject.command(client, place).what;
        let answer = &subject.reply(client, place).answer;
        keeping.to_append(subject, client, answer)?;
        if !self.enters_node(alloc, subject, client, keeping, what, answer)? {
            return Ok(false);
        }
        keeping.from_append(alloc, subject, client, place)?;
        Ok(true)
    }
}
