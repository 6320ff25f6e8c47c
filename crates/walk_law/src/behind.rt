// What a client keeps, beside what is looked up of its report.
ghost use Rattle.std.specs.Prelude.{◌≡◌, ◌+◌, ◌<◌, ◌≤◌, ℕ, IfOk, OnOk, Some, length, slice_get};
ghost use Rattle.std.specs.Option.{option_copied};
ghost use Rattle.col_core.specs.Keeping.{Kept};
ghost use Rattle.report_text.specs.declared.report.ReplyLine.{ReplyLine as Replied};
ghost use Rattle.lawful_run.specs.Callers.{caller_of};
ghost use Rattle.lawful_run.specs.Deeds.{found_by};
ghost use Rattle.script_text.specs.Commands.{use_of};
ghost use Rattle.walk_law.specs.Asking.{AreFoundOf};
ghost use Rattle.run_rules.specs.Told.{Step as StepTold, Untold, is_several, kept_appending, kept_told};
ghost use Rattle.run_rules.specs.Telling.{replies_to, untold_told};
ghost use Rattle.walk_law.specs.Keepings.{IsCounted};
ghost use Rattle.walk_law.specs.Behind.{IsAnswered};
ghost use Rattle.walk_law.specs.Walking.{CountsBehind, HasFew, IsSeen, IsStepOf, log_walked, places_printed};

use crate::asked::colours_asked;
use crate::keeping::Keeping;
use crate::replies::keys_at;
use crate::subject::Subject;
use log_node::ListOf;
use report_text::{Answer, KeyAnswer};
use script_text::{ReadUse, Use, What};
use std::alloc::{AllocError, Global};

impl Keeping {
    // The keys that the read showed which a command uses up, where there is one.
    pub(crate) fn found_of<'s>(
        &self,
        subject: &'s Subject<'_>,
        client: u8,
        what: &What,
    ) -> Option<&'s ListOf<KeyAnswer>>
        ensures { (kept : Kept) → IsCounted (replies_to subject.now.report client) kept self.now
            → AreFoundOf (found_by (use_of what.now) kept) (option_copied result) }
    {
        match what.use_of() {
            Use::OfObject {
                object,
                read: ReadUse::UsesUp,
            } => keys_at(subject.replies(client), self.read(object)),
            _ => None,
        }
    }

    /// Whether a command takes a row, of a client that keeps this.
    pub fn is_several(
        &self,
        alloc: Global,
        subject: &Subject<'_>,
        client: u8,
        what: &What,
    ) -> Result<bool, AllocError>
        requires { client < length subject.now.report.clients }
        ensures { (kept : Kept) → IsCounted (replies_to subject.now.report client) kept self.now → IfOk result (λ b. b
            ≡ is_several (caller_of subject.now.script client) kept what.now) }
    {
        subject.agrees();
        let objects = subject.script().objects.as_slice();
        let found = self.found_of(subject, client, what);
        let asked = colours_asked(alloc, objects, what, found)?;
        Ok(1 < asked.len())
    }

    /// Behind an answer to the command in this place.
    pub(crate) fn answered(
        &mut self,
        alloc: Global,
        subject: &Subject<'_>,
        client: u8,
        place: usize,
        what: &What,
        answer: &Answer,
    ) -> Result<(), AllocError>
        requires walker { client < length subject.now.report.clients }
        requires few { HasFew self.old }
        ensures kept { (kept : Kept) (untold : Untold)
            → IsAnswered subject.now client place what.now answer.now kept untold self.old
            → OnOk result (IsCounted (replies_to subject.now.report client)
            (kept_told (log_walked subject.now) untold (caller_of subject.now.script client) kept what.now answer.now) self.new) }
        ensures ids { OnOk result (self.new.ids ≤ self.old.ids + 1) }
        ensures rows { OnOk result (self.new.rows ≤ self.old.rows + 1) }
    {
        let own = subject.own(client);
        match answer {
            Answer::Stood { stamp, row, points } => {
                self.append(alloc, subject, client, *stamp, *row, points.as_slice())
            }
            Answer::StampEnd { .. } => self.stamp_end(alloc, subject, client, what),
            Answer::Stopped { steps } => self.stopped(alloc, subject, client, *steps),
            Answer::Synced { sync, .. }
            | Answer::Got { sync, .. }
            | Answer::GotMany { sync, .. }
            | Answer::Undecided { sync, .. } => {
                self.sync(subject, client, *sync);
                Ok(())
            }
            Answer::Scanned {
                stamp,
                raises,
                syncs,
                ..
            }
            | Answer::Listed {
                stamp,
                raises,
                syncs,
                ..
            } => self.stamped_read(subject, client, *stamp, raises.as_slice(), syncs.as_slice()),
            Answer::GotKeys {
                stamp,
                raises,
                syncs,
                ..
            } => {
                self.stamped_read(subject, client, *stamp, raises.as_slice(), syncs.as_slice())?;
                self.found(what, place);
                Ok(())
            }
            Answer::Pulled { give, carry, .. } => self.pulled(subject, client, what, *give, *carry),
            Answer::Based { at, .. } => self.trimmed(own, what, *at),
            Answer::Ruled {
                row,
                points,
                read_stamp,
                raises,
                syncs,
                ..
            }
            | Answer::Changed {
                row,
                points,
                read_stamp,
                raises,
                syncs,
                ..
            } => {
                self.append_told(alloc, subject, client, *row, points.as_slice())?;
                self.stamped_read(
                    subject,
                    client,
                    *read_stamp,
                    raises.as_slice(),
                    syncs.as_slice(),
                )
            }
            Answer::Decided {
                sync,
                read_stamp,
                raises,
                syncs,
                ended,
                ..
            } => {
                self.sync(subject, client, *sync);
                self.stamped_read(
                    subject,
                    client,
                    *read_stamp,
                    raises.as_slice(),
                    syncs.as_slice(),
                )?;
                self.ended(client, own, *ended)
            }
            Answer::Moved { colour, events, .. } => {
                self.see(own, *colour, *events as u128);
                Ok(())
            }
            Answer::Took { point, sync, .. } => {
                self.append_told(alloc, subject, client, None, std::slice::from_ref(point))?;
                self.sync(subject, client, *sync);
                Ok(())
            }
            Answer::Full { .. }
            | Answer::SameRegion
            | Answer::NoTx
            | Answer::UnreadTrimmed { .. }
            | Answer::UnreadNoMemory { .. }
            | Answer::Trimmed { .. }
            | Answer::NotHome { .. }
            | Answer::NoMemory => Ok(()),
        }
    }

    /// Goes on behind the step of a client in this place, of which it counts what the client keeps when the command is answered.
    pub fn go_on(
        &mut self,
        alloc: Global,
        subject: &Subject<'_>,
        client: u8,
        place: usize,
    ) -> Result<(), AllocError>
        requires there { IsStepOf subject.now client place }
        requires few { HasFew self.old }
        ensures kept { (step : StepTold) → IsSeen subject.now client place self.old step
            → OnOk result (CountsBehind subject.now client step self.new) }
        ensures ids { OnOk result (self.new.ids ≤ self.old.ids + 1) }
        ensures rows { OnOk result (self.new.rows ≤ self.old.rows + 1) }
    {
        let what = &subject.command(client, place).what;
        let answer = &subject.reply(client, place).answer;
        self.answered(alloc, subject, client, place, what, answer)?;
        self.end(what);
        Ok(())
    }

    /// Goes on behind an answer from where the command's node is appended.
    pub fn behind_append(
        &mut self,
        alloc: Global,
        subject: &Subject<'_>,
        client: u8,
        place: usize,
        what: &What,
        answer: &Answer,
    ) -> Result<(), AllocError>
        requires walker { client < length subject.now.report.clients }
        requires few { HasFew self.old }
        ensures kept { (kept : Kept) (untold : Untold) (reply : Replied)
            → slice_get (replies_to subject.now.report client) place ≡ Some reply → reply.answer ≡ answer.now
            → untold ≡ untold_told (log_walked subject.now) (caller_of subject.now.script client)
            (places_printed subject.now client) kept what.now answer.now
            → IsCounted (replies_to subject.now.report client)
            (kept_appending (log_walked subject.now) (caller_of subject.now.script client) kept answer.now) self.old
            → OnOk result (IsCounted (replies_to subject.now.report client)
            (kept_told (log_walked subject.now) untold (caller_of subject.now.script client) kept what.now answer.now) self.new) }
        ensures ids { OnOk result (self.new.ids ≤ self.old.ids + 1) }
        ensures rows { OnOk result (self.new.rows ≤ self.old.rows + 1) }
    {
        match answer {
            Answer::Decided { ended, .. } => self.ended(client, subject.own(client), *ended),
            _ => self.answered(alloc, subject, client, place, what, answer),
        }
    }
}
