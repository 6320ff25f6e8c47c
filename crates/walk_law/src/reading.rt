// Whether syncs and stamped reads are as the log says, one part after another.
ghost use Rattle.std.specs.Prelude.{◌≡◌, ◌<◌, ◌≤◌, ◌⊎◌, IfOk, ℕ, List, length};
ghost use Rattle.std.specs.List.{All, Contains};
ghost use Rattle.log_node.specs.declared.node.Node.{Node};
ghost use Rattle.col_core.specs.Keeping.{Kept};
ghost use Rattle.report_text.specs.declared.report.RaisePiece.{RaisePiece as Raised};
ghost use Rattle.report_text.specs.declared.report.SyncPiece.{SyncPiece as Synced};
ghost use Rattle.lawful_run.specs.Callers.{caller_of};
ghost use Rattle.lawful_run.specs.Reads.{ClearSyncs, IsAboveClocks, IsReadStamp, Raises, RaisesClock};
ghost use Rattle.column_track.specs.Tracks.{Tells};
ghost use Rattle.run_rules.specs.Answering.{HasReads};
ghost use Rattle.run_rules.specs.Told.{kept_after_raises, kept_after_read, kept_after_syncs};
ghost use Rattle.run_rules.specs.Telling.{log_of, replies_to};
ghost use Rattle.run_rules.specs.Shown.{ReadsColours, SyncsAsTold};
ghost use Rattle.walk_law.specs.Keepings.{IsCounted, KeepsCount};
ghost use Rattle.walk_law.specs.Ninth.{PassesTo};
ghost use Rattle.walk_law.specs.Reading.{AreBelow, IsAboveClock, IsClearSync, WasClockOf};

use crate::going_on::events_until;
use crate::keeping::Keeping;
use crate::looks::{event_by, is_raise, is_synced_at};
use crate::subject::Subject;
use log_node::At;
use report_text::{RaisePiece, SyncPiece};
use std::alloc::AllocError;

impl Keeping {
    // Whether a sync is as the log says.
    pub(crate) fn is_sync(&self, subject: &Subject<'_>, client: u8, sync: SyncPiece) -> bool
        requires { client < length subject.now.report.clients }
        ensures { (nodes : ℕ → List Node) (kept : Kept) → sync.colour < subject.now.script.shape.colours
            → IsCounted (replies_to subject.now.report client) kept self.now → Tells result
            (SyncsAsTold (log_of subject.now.report nodes) (caller_of subject.now.script client) kept sync) }
    {
        let own = subject.own(client);
        let colour = sync.colour;
        if !subject.is_in_shape(own, colour) {
            return false;
        }
        if sync.events > subject.event_count(own, colour) {
            return false;
        }
        let mark = subject.mark(own, colour, sync.events);
        let seen = self.seen(own, colour);
        is_synced_at(
            own,
            seen,
            self.known(colour),
            self.start(colour),
            mark,
            sync,
        )
    }

    // Whether a sync is as the log says, and no open entry up to the stamp was left.
    fn is_clear_sync(&self, subject: &Subject<'_>, client: u8, stamp: u64, sync: SyncPiece) -> bool
        requires { client < length subject.now.report.clients }
        ensures { (nodes : ℕ → List Node) (kept : Kept) → sync.colour < subject.now.script.shape.colours
            → IsCounted (replies_to subject.now.report client) kept self.now → Tells result
            (IsClearSync (log_of subject.now.report nodes) (caller_of subject.now.script client) stamp kept sync) }
    {
        let own = subject.own(client);
        if !subject.is_in_shape(own, sync.colour) {
            return false;
        }
        if sync.events > subject.event_count(own, sync.colour) {
            return false;
        }
        if !self.is_sync(subject, client, sync) {
            return false;
        }
        subject.track(own, sync.colour).is_clear(sync.events, stamp)
    }

    // Goes on behind the syncs of a stamped read, where they are as the log says.
    fn clear_syncs(
        &mut self,
        subject: &Subject<'_>,
        client: u8,
        stamp: u64,
        syncs: &[SyncPiece],
    ) -> bool
        requires { client < length subject.now.report.clients }
        ensures kept { (nodes : ℕ → List Node) (kept : Kept) → AreBelow subject.now.script (λ (s : Synced). s.colour) syncs.now
            → IsCounted (replies_to subject.now.report client) kept self.old
            → PassesTo (replies_to subject.now.report client)
            (ClearSyncs (log_of subject.now.report nodes) (caller_of subject.now.script client) stamp kept syncs.now
            (kept_after_syncs (log_of subject.now.report nodes) (caller_of subject.now.script client) kept syncs.now))
            (kept_after_syncs (log_of subject.now.report nodes) (caller_of subject.now.script client) kept syncs.now) self.new
            result }
        ensures count { KeepsCount self.old self.new }
    {
        for sync in syncs {
            if !self.is_clear_sync(subject, client, stamp, *sync) {
                return false;
            }
            self.sync(subject, client, *sync);
        }
        true
    }

    // Whether a raise is as the log says.
    fn is_raise(&self, subject: &Subject<'_>, client: u8, stamp: u64, raise: RaisePiece) -> bool
        requires { client < length subject.now.report.clients }
        ensures { (nodes : ℕ → List Node) (kept : Kept) → raise.colour < subject.now.script.shape.colours
            → IsCounted (replies_to subject.now.report client) kept self.now → Tells result
            (RaisesClock (log_of subject.now.report nodes) (caller_of subject.now.script client) kept stamp raise.colour raise.at) }
    {
        let own = subject.own(client);
        let colour = raise.colour;
        if !subject.is_in_shape(own, colour) {
            return false;
        }
        let events = events_until(raise.at);
        if events > subject.event_count(own, colour) {
            return false;
        }
        if self.seen(own, colour) > events as u128 {
            return false;
        }
        if self.known(colour) > subject.line_length(own, colour, events) as u128 {
            return false;
        }
        match raise.at {
            At::Event(place) => is_raise(
                event_by(subject.journal(own, colour), client, place),
                stamp,
            ),
            At::Look(events) => stamp <= subject.mark(own, colour, events).clock,
        }
    }

    // Goes on behind the raises of a stamped read, where they are as the log says.
    fn raises_clocks(
        &mut self,
        subject: &Subject<'_>,
        client: u8,
        stamp: u64,
        raises: &[RaisePiece],
    ) -> Result<bool, AllocError>
        requires { client < length subject.now.report.clients }
        ensures kept { (nodes : ℕ → List Node) (kept : Kept) → AreBelow subject.now.script (λ (r : Raised). r.colour) raises.now
            → IsCounted (replies_to subject.now.report client) kept self.old
            → IfOk result (PassesTo (replies_to subject.now.report client)
            (Raises (log_of subject.now.report nodes) (caller_of subject.now.script client) stamp kept raises.now
            (kept_after_raises (caller_of subject.now.script client) kept raises.now))
            (kept_after_raises (caller_of subject.now.script client) kept raises.now) self.new) }
        ensures count { IfOk result (λ b. KeepsCount self.old self.new) }
    {
        let own = subject.own(client);
        for raise in raises {
            if !self.is_raise(subject, client, stamp, *raise) {
                return Ok(false);
            }
            self.place_at(own, raise.colour, raise.at)?;
        }
        Ok(true)
    }

    // Whether the clock of a raise's column was the stamp, from what was seen to the raise.
    fn was_clock(&self, subject: &Subject<'_>, client: u8, stamp: u64, raise: RaisePiece) -> bool
        requires { client < length subject.now.report.clients }
        ensures { (nodes : ℕ → List Node) (kept : Kept) → raise.colour < subject.now.script.shape.colours
            → IsCounted (replies_to subject.now.report client) kept self.now → Tells result
            (WasClockOf (log_of subject.now.report nodes) (caller_of subject.now.script client) kept stamp raise) }
    {
        let own = subject.own(client);
        let colour = raise.colour;
        if !subject.is_in_shape(own, colour) {
            return false;
        }
        let seen = self.seen(own, colour);
        subject.had_clock(own, colour, seen, events_until(raise.at), stamp)
    }

    // Whether the stamp of a read is the floor, or the clock of one of the columns that it raises.
    fn is_read_stamp(
        &self,
        subject: &Subject<'_>,
        client: u8,
        stamp: u64,
        raises: &[RaisePiece],
    ) -> bool
        requires { client < length subject.now.report.clients }
        ensures { (nodes : ℕ → List Node) (kept : Kept) → AreBelow subject.now.script (λ (r : Raised). r.colour) raises.now
            → IsCounted (replies_to subject.now.report client) kept self.now → Tells result
            (IsReadStamp (log_of subject.now.report nodes) (caller_of subject.now.script client) kept raises.now stamp) }
    {
        if stamp == self.floor() {
            return true;
        }
        for raise in raises {
            if self.was_clock(subject, client, stamp, *raise) {
                return true;
            }
        }
        false
    }

    // Whether the stamp is not below what was seen of the clock of a raise's column.
    fn is_above_clock(
        &self,
        subject: &Subject<'_>,
        client: u8,
        stamp: u64,
        raise: RaisePiece,
    ) -> bool
        requires { client < length subject.now.report.clients }
        ensures { (nodes : ℕ → List Node) (kept : Kept) → raise.colour < subject.now.script.shape.colours
            → IsCounted (replies_to subject.now.report client) kept self.now → Tells result
            (IsAboveClock (log_of subject.now.report nodes) (caller_of subject.now.script client) kept stamp raise.colour) }
    {
        let own = subject.own(client);
        let colour = raise.colour;
        if !subject.is_in_shape(own, colour) {
            return false;
        }
        let seen = self.seen(own, colour);
        subject.is_clock_within(own, colour, seen, stamp)
    }

    // Whether it is not below those of all columns that a read raises.
    fn is_above_clocks(
        &self,
        subject: &Subject<'_>,
        client: u8,
        stamp: u64,
        raises: &[RaisePiece],
    ) -> bool
        requires { client < length subject.now.report.clients }
        ensures { (nodes : ℕ → List Node) (kept : Kept) → AreBelow subject.now.script (λ (r : Raised). r.colour) raises.now
            → IsCounted (replies_to subject.now.report client) kept self.now → Tells result
            (All (λ (r : Raised). IsAboveClock (log_of subject.now.report nodes) (caller_of subject.now.script client) kept stamp
            r.colour) raises.now) }
    {
        for raise in raises {
            if !self.is_above_clock(subject, client, stamp, *raise) {
                return false;
            }
        }
        true
    }

    // Goes on behind a stamped read, where it is as the log says.
    pub(crate) fn reads(
        &mut self,
        subject: &Subject<'_>,
        client: u8,
        stamp: u64,
        raises: &[RaisePiece],
        syncs: &[SyncPiece],
    ) -> Result<bool, AllocError>
        requires { client < length subject.now.report.clients }
        ensures kept { (nodes : ℕ → List Node) (kept : Kept) (colours : List ℕ) → HasReads colours raises.now syncs.now
            → All (λ c. c < subject.now.script.shape.colours) colours
            → IsCounted (replies_to subject.now.report client) kept self.old
            → IfOk result (PassesTo (replies_to subject.now.report client)
            (ReadsColours (log_of subject.now.report nodes) (caller_of subject.now.script client) kept colours stamp raises.now
            syncs.now)
            (kept_after_read (log_of subject.now.report nodes) (caller_of subject.now.script client) kept stamp raises.now syncs.now)
            self.new) }
        ensures count { IfOk result (λ b. KeepsCount self.old self.new) }
    {
        if stamp < self.floor() {
            return Ok(false);
        }
        if !self.is_above_clocks(subject, client, stamp, raises) {
            return Ok(false);
        }
        if !self.is_read_stamp(subject, client, stamp, raises) {
            return Ok(false);
        }
        if !self.raises_clocks(subject, client, stamp, raises)? {
            return Ok(false);
        }
        if !self.clear_syncs(subject, client, stamp, syncs) {
            return Ok(false);
        }
        self.raise_floor(stamp);
        Ok(true)
    }
}
