// What a client keeps goes on behind syncs and pulls.
ghost use Rattle.std.specs.Prelude.{◌≡◌, ◌<◌, List, OnOk, ℕ, length};
ghost use Rattle.col_core.specs.Keeping.{Kept};
ghost use Rattle.lawful_run.specs.Callers.{caller_of};
ghost use Rattle.lawful_run.specs.Reads.{kept_after_piece};
ghost use Rattle.report_text.specs.declared.report.ReplyLine.{ReplyLine};
ghost use Rattle.report_text.specs.declared.report.Answer.TheVariants as answers;
ghost use Rattle.run_rules.specs.Told.{Untold, kept_after_read, kept_after_syncs, kept_pulled};
ghost use Rattle.run_rules.specs.Telling.{low_told, made_between};
ghost use Rattle.walk_law.specs.Keepings.{IsCounted, KeepsCount};
ghost use Rattle.walk_law.specs.Walking.{log_walked};

use crate::going_on::events_until;
use crate::keeping::Keeping;
use crate::subject::Subject;
use log_node::At;
use report_text::{RaisePiece, SyncPiece};
use script_text::What;
use std::alloc::AllocError;

impl Keeping {
    // Behind a sync.
    pub(crate) fn sync(&mut self, subject: &Subject<'_>, client: u8, sync: SyncPiece)
        requires { client < length subject.now.report.clients }
        ensures kept { (replies : List ReplyLine) (kept : Kept) → IsCounted replies kept self.old → IsCounted replies
            (kept_after_piece (log_walked subject.now) (caller_of subject.now.script client) kept sync) self.new }
        ensures count { KeepsCount self.old self.new }
    {
        subject.agrees();
        let own = subject.own(client);
        let stamp = subject.greatest_played(own, self.start(sync.colour), sync);
        self.see(own, sync.colour, sync.events as u128);
        self.raise_floor(stamp);
        self.start_from(sync.colour, sync.counts);
        self.know(sync.colour, sync.counts.of_region(own) as u128);
    }

    // Behind the syncs of a stamped read.
    fn syncs(&mut self, subject: &Subject<'_>, client: u8, syncs: &[SyncPiece])
        requires { client < length subject.now.report.clients }
        ensures kept { (replies : List ReplyLine) (kept : Kept) → IsCounted replies kept self.old → IsCounted replies
            (kept_after_syncs (log_walked subject.now) (caller_of subject.now.script client) kept syncs.now) self.new }
        ensures count { KeepsCount self.old self.new }
    {
        for sync in syncs {
            self.sync(subject, client, *sync);
        }
    }

    // Behind a stamped read.
    pub(crate) fn stamped_read(
        &mut self,
        subject: &Subject<'_>,
        client: u8,
        stamp: u64,
        raises: &[RaisePiece],
        syncs: &[SyncPiece],
    ) -> Result<(), AllocError>
        requires { client < length subject.now.report.clients }
        ensures kept { (replies : List ReplyLine) (kept : Kept) → IsCounted replies kept self.old → OnOk result (IsCounted replies
            (kept_after_read (log_walked subject.now) (caller_of subject.now.script client) kept stamp raises.now syncs.now)
            self.new) }
        ensures count { OnOk result (KeepsCount self.old self.new) }
    {
        self.raises(subject.own(client), raises)?;
        self.syncs(subject, client, syncs);
        self.raise_floor(stamp);
        Ok(())
    }

    // The places of a client's own events of a column that no command made before, up to one.
    pub(crate) fn made_between<'s>(
        &self,
        subject: &'s Subject<'_>,
        client: u8,
        region: u8,
        colour: u8,
        place: u64,
    ) -> &'s [u64]
        requires { client < length subject.now.report.clients }
        ensures { (replies : List ReplyLine) (kept : Kept) → IsCounted replies kept self.now → result.now
            ≡ made_between (log_walked subject.now) (caller_of subject.now.script client) kept region colour place }
    {
        let own = subject.own_places(client, region, colour);
        if !subject.has_column(region, colour) {
            return own;
        }
        let past = self.past(region, colour);
        let before = &own[..own.partition_point(|made| *made < place)];
        &before[before.partition_point(|made| (*made as u128) < past)..]
    }

    // Behind a pull.
    pub(crate) fn pulled(
        &mut self,
        subject: &Subject<'_>,
        client: u8,
        what: &What,
        give: At,
        carry: At,
    ) -> Result<(), AllocError>
        requires { client < length subject.now.report.clients }
        ensures kept { (replies : List ReplyLine) (kept : Kept) (untold : Untold) (count : ℕ) → untold.too_low
            ≡ low_told (log_walked subject.now) (caller_of subject.now.script client) kept what.now (answers.Pulled count give carry)
            → IsCounted replies kept self.old → OnOk result (IsCounted replies
            (kept_pulled untold (caller_of subject.now.script client) kept what.now give carry) self.new) }
        ensures count { OnOk result (KeepsCount self.old self.new) }
    {
        match what {
            What::Pull { region, colour } => {
                let place = events_until(give);
                let too_low = self.made_between(subject, client, *region, *colour, place);
                self.places(*region, *colour, too_low)?;
                self.event(*region, *colour, place)?;
                self.place_at(subject.own(client), *colour, carry)
            }
            _ => Ok(()),
        }
    }
}
