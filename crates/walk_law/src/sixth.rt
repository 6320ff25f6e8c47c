// The sixth rule: appends that stand.
ghost use Rattle.std.specs.Prelude.{◌≡◌, ◌<◌, IfOk, length};
ghost use Rattle.col_core.specs.Keeping.{Kept};
ghost use Rattle.lawful_run.specs.Callers.{caller_of};
ghost use Rattle.log_node.specs.declared.marks.Outcome.TheVariants as outcomes;
ghost use Rattle.column_track.specs.Tracks.{Tells};
ghost use Rattle.run_rules.specs.Keeping.{RulesTo};
ghost use Rattle.run_rules.specs.Nodes.{nodes_told};
ghost use Rattle.run_rules.specs.Rules.{Rule6};
ghost use Rattle.run_rules.specs.Told.{stamp_told};
ghost use Rattle.run_rules.specs.Telling.{account_of, replies_to};
ghost use Rattle.walk_law.specs.Fifth.{finding_in};
ghost use Rattle.walk_law.specs.Keepings.{IsCounted};
ghost use Rattle.walk_law.specs.Sixth.{HasFinalRow, OfStood, OfStoodEnd, SixthIsStanding, StandsBeside, StandsSo};
ghost use Rattle.walk_law.specs.Walking.{log_walked};

use crate::keeping::Keeping;
use crate::points::stand_there;
use crate::row_places::RowPlaces;
use crate::subject::Subject;
use crate::walking::{Check, each_step};
use log_node::Outcome;
use report_text::{Answer, Ended, PointPiece};
use std::alloc::{AllocError, Global};

/// Where a report keeps the first five rules, the sixth is what is looked at of each step.
pub fn sixth_is_standing()
    ensures { SixthIsStanding }
{}

// Whether an outcome is final under the stamp.
fn is_final(outcome: Outcome, stamp: u64) -> bool
    ensures { Tells result (outcome ≡ outcomes.Final stamp) }
{
    match outcome {
        Outcome::Final(number) => number == stamp,
        Outcome::Open | Outcome::Gone(_) => false,
    }
}

/// Looks at appends that stand, by the places of rows.
#[derive(Drop)]
struct Standing {
    rows: RowPlaces,
}

impl Standing {
    // Whether an append on a row has the client's next one, and this is final under the stamp.
    fn has_final_row(
        &self,
        subject: &Subject<'_>,
        client: u8,
        own: u8,
        keeping: &Keeping,
        stamp: u64,
        row: Option<u32>,
    ) -> bool
        requires own { own ≡ (caller_of subject.now.script client).own }
        ensures { (kept : Kept) → IsCounted (replies_to subject.now.report client) kept keeping.now → Tells result
            (HasFinalRow (finding_in self.now.rows subject.now.report.rows) (caller_of subject.now.script client) kept stamp row) }
    {
        let Some(number) = row else {
            return true;
        };
        if number as u64 != keeping.rows() {
            return false;
        }
        let rows = subject.report().rows.as_slice();
        match self.rows.row(rows, own, keeping.next_id(client)) {
            Some(row) => is_final(row.last, stamp),
            None => false,
        }
    }

    // Whether an append stands under the stamp, as its row and its points say.
    fn stands_so(
        &self,
        subject: &Subject<'_>,
        client: u8,
        keeping: &Keeping,
        stamp: u64,
        row: Option<u32>,
        points: &[PointPiece],
    ) -> bool
        requires { client < length subject.now.report.clients }
        ensures { (kept : Kept) → IsCounted (replies_to subject.now.report client) kept keeping.now → Tells result
            (StandsSo (finding_in self.now.rows subject.now.report.rows) (log_walked subject.now) (caller_of subject.now.script client)
            kept stamp row points.now) }
    {
        let own = subject.own(client);
        if keeping.floor() >= stamp {
            return false;
        }
        if !self.has_final_row(subject, client, own, keeping, stamp, row) {
            return false;
        }
        stand_there(subject, client, own, keeping, stamp, row, points)
    }

    // Whether one does of which the answer prints no stamp.
    fn stands_told(
        &self,
        subject: &Subject<'_>,
        client: u8,
        keeping: &Keeping,
        row: Option<u32>,
        points: &[PointPiece],
    ) -> bool
        requires { client < length subject.now.report.clients }
        ensures { (kept : Kept) → IsCounted (replies_to subject.now.report client) kept keeping.now → Tells result
            (StandsSo (finding_in self.now.rows subject.now.report.rows) (log_walked subject.now) (caller_of subject.now.script client)
            kept (stamp_told (log_walked subject.now) (caller_of subject.now.script client) kept row points.now) row points.now) }
    {
        let stamp = keeping.stamp_told(subject, client, row, points);
        self.stands_so(subject, client, keeping, stamp, row, points)
    }

    // Whether a decision's node stands, where it ended so.
    fn stands_at_end(
        &self,
        subject: &Subject<'_>,
        client: u8,
        keeping: &Keeping,
        ended: Ended,
    ) -> bool
        requires { client < length subject.now.report.clients }
        ensures { (kept : Kept) → IsCounted (replies_to subject.now.report client) kept keeping.now → Tells result
            (OfStoodEnd (StandsSo (finding_in self.now.rows subject.now.report.rows) (log_walked subject.now)
            (caller_of subject.now.script client)) kept ended) }
    {
        match ended {
            Ended::Stood { stamp, point } => {
                self.stands_so(subject, client, keeping, stamp, None, &[point])
            }
            Ended::StampEnd { .. } | Ended::NoMemory => true,
        }
    }

    // Whether the append of a command with this answer stands, of a client that keeps this when its node is appended.
    fn stands(&self, subject: &Subject<'_>, client: u8, keeping: &Keeping, answer: &Answer) -> bool
        requires { client < length subject.now.report.clients }
        ensures { (kept : Kept) → IsCounted (replies_to subject.now.report client) kept keeping.now → Tells result
            (OfStood (StandsSo (finding_in self.now.rows subject.now.report.rows) (log_walked subject.now)
            (caller_of subject.now.script client)) (log_walked subject.now) (caller_of subject.now.script client) kept answer.now) }
    {
        match answer {
            Answer::Stood { stamp, row, points } => {
                self.stands_so(subject, client, keeping, *stamp, *row, points.as_slice())
            }
            Answer::Ruled { row, points, .. } => {
                self.stands_told(subject, client, keeping, *row, points.as_slice())
            }
            Answer::Changed { row, points, .. } => {
                self.stands_told(subject, client, keeping, *row, points.as_slice())
            }
            Answer::Took { point, .. } => {
                self.stands_told(subject, client, keeping, None, &[*point])
            }
            Answer::Decided { ended, .. } => self.stands_at_end(subject, client, keeping, *ended),
            _ => true,
        }
    }
}

impl Check for Standing {
    // the append of the step stands, where it has one, with the row that is found
    ghost Asks = { λ s walked caller step. StandsBeside (finding_in s.rows walked.report.rows) walked caller step };

    fn go_on(
        &self,
        alloc: Global,
        subject: &Subject<'_>,
        client: u8,
        place: usize,
        keeping: &mut Keeping,
    ) -> Result<bool, AllocError> {
        let answer = &subject.reply(client, place).answer;
        keeping.to_append(subject, client, answer)?;
        if !self.stands(subject, client, keeping, answer) {
            return Ok(false);
        }
        keeping.from_append(alloc, subject, client, place)?;
        Ok(true)
    }
}

/// Whether a report that keeps the first five rules keeps the sixth one, at the account with the nodes of its commands: an append
/// that was answered stands under one stamp in all its colours, where its points say.
pub fn keeps_sixth(alloc: Global, subject: &Subject<'_>) -> Result<bool, AllocError>
    requires { RulesTo subject.now.script subject.now.report
        (account_of subject.now.script subject.now.report (nodes_told subject.now.script subject.now.report)) 5 }
    ensures { IfOk result (λ b. Tells b (Rule6 subject.now.script subject.now.report
        (account_of subject.now.script subject.now.report (nodes_told subject.now.script subject.now.report)))) }
{
    sixth_is_standing();
    subject.agrees();
    let rows = RowPlaces::of_rows(alloc, subject.report().rows.as_slice())?;
    let standing = Standing { rows };
    each_step(alloc, subject, &standing)
}
