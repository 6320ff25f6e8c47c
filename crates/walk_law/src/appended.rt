// What a client keeps goes on behind appends.
ghost use Rattle.std.specs.Prelude.{◌≡◌, ◌+◌, ◌<◌, ◌≤◌, ◌^◌, List, OnOk, Some, length};
ghost use Rattle.col_core.specs.Keeping.{Kept, with_made};
ghost use Rattle.lawful_run.specs.Callers.{caller_of};
ghost use Rattle.report_text.specs.declared.report.ReplyLine.{ReplyLine};
ghost use Rattle.report_text.specs.declared.report.RowReport.{RowReport};
ghost use Rattle.run_rules.specs.Told.{Untold, is_several, kept_after_append, kept_after_row, kept_after_stop, kept_where, stamp_told};
ghost use Rattle.run_rules.specs.Telling.{replies_to};
ghost use Rattle.walk_law.specs.Behind.{LeavesOutSteps, steps_untold};
ghost use Rattle.walk_law.specs.Keepings.{IsCounted, KeepsCount};
ghost use Rattle.walk_law.specs.PlaceTables.{row_with};
ghost use Rattle.walk_law.specs.Walking.{HasFew, log_walked};

use crate::going_on::events_until;
use crate::keeping::Keeping;
use crate::subject::Subject;
use log_node::{ColourMark, Id};
use report_text::PointPiece;
use script_text::What;
use std::alloc::{AllocError, Global};

impl Keeping {
    // The stamp of an append of which the answer prints none.
    pub fn stamp_told(
        &self,
        subject: &Subject<'_>,
        client: u8,
        row: Option<u32>,
        points: &[PointPiece],
    ) -> u64
        requires { client < length subject.now.report.clients }
        ensures { (replies : List ReplyLine) (kept : Kept) → IsCounted replies kept self.now
            → result ≡ stamp_told (log_walked subject.now) (caller_of subject.now.script client) kept row points.now }
    {
        let own = subject.own(client);
        let count = self.ids();
        match row {
            Some(_) => subject.final_number(own, Id { client, count }),
            None => match points.first() {
                Some(point) => subject.stamp_at(own, point.colour, events_until(point.at)),
                None => 0,
            },
        }
    }

    // With the own steps of the id of a row made: they stand in the colours of its marks alone.
    fn make_steps_of(
        &mut self,
        alloc: Global,
        subject: &Subject<'_>,
        client: u8,
        count: u64,
        marks: &[ColourMark],
    ) -> Result<(), AllocError>
        requires walker { client < length subject.now.report.clients }
        requires row { (r : RowReport) × (row_with (caller_of subject.now.script client).own (record { client = client; count = count })
            subject.now.report.rows ≡ Some r) × (marks.now ≡ r.marks) }
        ensures kept { (replies : List ReplyLine) (kept : Kept) → IsCounted replies kept self.old → OnOk result (IsCounted replies
            (with_made kept (caller_of subject.now.script client).own (steps_untold subject.now client count)) self.new) }
        ensures count { OnOk result (KeepsCount self.old self.new) }
    {
        subject.agrees();
        let own = subject.own(client);
        for mark in marks {
            let places = subject.steps(alloc, client, mark.colour, count)?;
            self.places(own, mark.colour, places.as_slice())?;
        }
        Ok(())
    }

    // With the own steps of its next id made.
    fn make_steps(
        &mut self,
        alloc: Global,
        subject: &Subject<'_>,
        client: u8,
    ) -> Result<(), AllocError>
        requires { client < length subject.now.report.clients }
        ensures kept { (replies : List ReplyLine) (kept : Kept) → IsCounted replies kept self.old → OnOk result (IsCounted replies
            (with_made kept (caller_of subject.now.script client).own (steps_untold subject.now client kept.ids)) self.new) }
        ensures count { OnOk result (KeepsCount self.old self.new) }
    {
        subject.agrees();
        let own = subject.own(client);
        let count = self.ids();
        match subject.row(own, Id { client, count }) {
            Some(row) => self.make_steps_of(alloc, subject, client, count, row.marks.as_slice()),
            None => Ok(()),
        }
    }

    // Behind an append that began a row, and does not stand.
    pub(crate) fn begin_row(
        &mut self,
        alloc: Global,
        subject: &Subject<'_>,
        client: u8,
    ) -> Result<(), AllocError>
        requires walker { client < length subject.now.report.clients }
        requires few { HasFew self.old }
        ensures kept { (replies : List ReplyLine) (kept : Kept) (untold : Untold) → LeavesOutSteps subject.now client kept.ids untold
            → IsCounted replies kept self.old → OnOk result (IsCounted replies
            (kept_after_row untold (caller_of subject.now.script client) kept) self.new) }
        ensures ids { OnOk result (self.new.ids ≤ self.old.ids + 1) }
        ensures rows { OnOk result (self.new.rows ≤ self.old.rows + 1) }
    {
        self.make_steps(alloc, subject, client)?;
        self.use_id();
        self.use_row();
        Ok(())
    }

    // Behind an append that stands.
    pub(crate) fn append(
        &mut self,
        alloc: Global,
        subject: &Subject<'_>,
        client: u8,
        stamp: u64,
        row: Option<u32>,
        points: &[PointPiece],
    ) -> Result<(), AllocError>
        requires walker { client < length subject.now.report.clients }
        requires few { HasFew self.old }
        ensures kept { (replies : List ReplyLine) (kept : Kept) (untold : Untold) → LeavesOutSteps subject.now client kept.ids untold
            → IsCounted replies kept self.old → OnOk result (IsCounted replies
            (kept_after_append untold (caller_of subject.now.script client) kept stamp row points.now) self.new) }
        ensures ids { OnOk result (self.new.ids ≤ self.old.ids + 1) }
        ensures rows { OnOk result (self.new.rows ≤ self.old.rows + 1) }
    {
        let own = subject.own(client);
        match row {
            Some(_) => {
                self.points(own, points);
                self.raise_floor(stamp);
                self.begin_row(alloc, subject, client)
            }
            None => match points.first() {
                Some(point) => self.single(
                    own,
                    point.colour,
                    events_until(point.at),
                    stamp,
                    point.position,
                ),
                None => Ok(()),
            },
        }
    }

    // Behind an append that stands, whose answer prints no stamp.
    pub(crate) fn append_told(
        &mut self,
        alloc: Global,
        subject: &Subject<'_>,
        client: u8,
        row: Option<u32>,
        points: &[PointPiece],
    ) -> Result<(), AllocError>
        requires walker { client < length subject.now.report.clients }
        requires few { HasFew self.old }
        ensures kept { (replies : List ReplyLine) (kept : Kept) (untold : Untold) → LeavesOutSteps subject.now client kept.ids untold
            → IsCounted replies kept self.old → OnOk result (IsCounted replies
            (kept_after_append untold (caller_of subject.now.script client) kept
            (stamp_told (log_walked subject.now) (caller_of subject.now.script client) kept row points.now) row points.now)
            self.new) }
        ensures ids { OnOk result (self.new.ids ≤ self.old.ids + 1) }
        ensures rows { OnOk result (self.new.rows ≤ self.old.rows + 1) }
    {
        let stamp = self.stamp_told(subject, client, row, points);
        self.append(alloc, subject, client, stamp, row, points)
    }

    // Behind an append that found no stamp left: one to several colours began a row.
    pub(crate) fn stamp_end(
        &mut self,
        alloc: Global,
        subject: &Subject<'_>,
        client: u8,
        what: &What,
    ) -> Result<(), AllocError>
        requires walker { client < length subject.now.report.clients }
        requires few { HasFew self.old }
        ensures kept { (kept : Kept) (untold : Untold) → LeavesOutSteps subject.now client kept.ids untold
            → IsCounted (replies_to subject.now.report client) kept self.old
            → OnOk result (IsCounted (replies_to subject.now.report client)
            (kept_where (is_several (caller_of subject.now.script client) kept what.now)
            (kept_after_row untold (caller_of subject.now.script client) kept) kept) self.new) }
        ensures ids { OnOk result (self.new.ids ≤ self.old.ids + 1) }
        ensures rows { OnOk result (self.new.rows ≤ self.old.rows + 1) }
    {
        if self.is_several(alloc, subject, client, what)? {
            self.begin_row(alloc, subject, client)
        } else {
            Ok(())
        }
    }

    // Behind an append that stopped after so many steps.
    pub(crate) fn stopped(
        &mut self,
        alloc: Global,
        subject: &Subject<'_>,
        client: u8,
        steps: u8,
    ) -> Result<(), AllocError>
        requires walker { client < length subject.now.report.clients }
        requires few { HasFew self.old }
        ensures kept { (replies : List ReplyLine) (kept : Kept) (untold : Untold) → LeavesOutSteps subject.now client kept.ids untold
            → IsCounted replies kept self.old → OnOk result (IsCounted replies
            (kept_after_stop untold (caller_of subject.now.script client) kept steps) self.new) }
        ensures ids { OnOk result (self.new.ids ≤ self.old.ids + 1) }
        ensures rows { OnOk result (self.new.rows ≤ self.old.rows + 1) }
    {
        if steps == 0 {
            return Ok(());
        }
        self.begin_row(alloc, subject, client)
    }
}
