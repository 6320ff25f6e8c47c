// What a client has seen of its region's columns, from part to part of an answer.
ghost use Rattle.std.specs.Prelude.{◌≡◌, ◌≢◌, ◌+◌, ◌<◌, ◌≤◌, ℕ, IfOk, None, Some, length, slice_index, take};
ghost use Rattle.std.specs.List.{All};
ghost use Rattle.col_core.specs.History.{line};
ghost use Rattle.col_core.specs.Keeping.{Kept, kept_after_look, kept_after_point, kept_after_single, seen_after, seen_past, updated, with_made};
ghost use Rattle.report_text.specs.declared.report.RowReport.{RowReport};
ghost use Rattle.lawful_run.specs.Appends.{kept_after_points};
ghost use Rattle.lawful_run.specs.Callers.{Caller, caller_of};
ghost use Rattle.lawful_run.specs.Reads.{events_until, kept_after_piece, kept_after_place};
ghost use Rattle.column_track.specs.Tracks.{Tells};
ghost use Rattle.run_rules.specs.Told.{Untold, kept_after_append, kept_after_raises, kept_after_read, kept_after_syncs};
ghost use Rattle.run_rules.specs.Naming.{IsRaise, NamesAppend, NamesLook, NamesPlace, NamesPoint, NamesRaises, NamesRead, NamesSteps, NamesSync, NamesSyncs};
ghost use Rattle.walk_law.specs.Behind.{LeavesOutSteps, steps_untold};
ghost use Rattle.walk_law.specs.Fourth.{AndThen, ArePointsLow, AreRaisesLow, AreSyncsLow, Sees};
ghost use Rattle.walk_law.specs.Keepings.{known_at, seen_at};
ghost use Rattle.walk_law.specs.PlaceTables.{row_with};
ghost use Rattle.walk_law.specs.Walking.{journal_walked, log_walked};

use crate::going_on::events_until;
use crate::keeping::Keeping;
use crate::made::seen_past;
use crate::naming::{Kind, are_unseen, is_look, is_named};
use crate::subject::Subject;
use log_node::{At, ColourMark, Id, MAX_COLOURS, MAX_REGIONS};
use report_text::{PointPiece, RaisePiece, SyncPiece};
use std::alloc::{AllocError, Global};
use std::marker::Model;

// How many colours a log can have.
const COLOURS: usize = MAX_COLOURS as usize;

/// What a client has seen of its region's columns, and how many nodes it knows to stand in their lines. Contracts see it in
/// tables by colour.
#[derive(Drop)]
pub(crate) struct OwnSeen {
    client: u8,
    region: u8,
    seen: [u128; COLOURS],
    known: [u128; COLOURS],
}

impl Model for OwnSeen {
    ghost use Rattle.walk_law.specs.Fourth.{Sighted};

    ghost Value = { Sighted };

    ghost view = { λ s. record { client = s.client; region = s.region; seen = s.seen; known = s.known } };

    ghost use Rattle.walk_law.specs.Fourth.{IsSighted};

    ghost invariant = { λ s. IsSighted s.region s.seen s.known };
}

// How many nodes stand in a column's line after so many events.
fn line_length(subject: &Subject<'_>, region: u8, colour: u8, events: u64) -> u64
    requires { events ≤ length (journal_walked subject.now region colour) }
    ensures { result ≡ length (line (take events (journal_walked subject.now region colour))) }
{
    if !subject.has_column(region, colour) {
        return 0;
    }
    let held = subject.track(region, colour).mark(events).held;
    held.of_region(region)
}

impl OwnSeen {
    /// What a client of a region has seen that keeps this.
    pub(crate) fn of(keeping: &Keeping, client: u8, region: u8) -> OwnSeen
        requires { region < MAX_REGIONS }
        ensures client { result.client ≡ client }
        ensures region { result.region ≡ region }
        ensures seen { (colour : ℕ) → colour < MAX_COLOURS → slice_index result.seen colour ≡ seen_at keeping.now region colour }
        ensures known { (colour : ℕ) → colour < MAX_COLOURS → slice_index result.known colour ≡ known_at keeping.now colour }
    {
        let mut seen = [0; COLOURS];
        let mut known = [0; COLOURS];
        seen.as_mut_slice().copy_from_slice(keeping.seen_in(region));
        known.as_mut_slice().copy_from_slice(keeping.known_in_all());
        OwnSeen {
            client,
            region,
            seen,
            known,
        }
    }

    /// The same once more.
    pub(crate) fn copied(&self) -> OwnSeen
        ensures { result ≡ self.now }
    {
        OwnSeen {
            client: self.client,
            region: self.region,
            seen: self.seen,
            known: self.known,
        }
    }

    // How many events of a column it has seen.
    fn seen(&self, colour: u8) -> u128
        ensures table { colour < MAX_COLOURS → result ≡ slice_index self.now.seen colour }
        ensures kept { (caller : Caller) (kept : Kept) → Sees caller kept self.now → colour < MAX_COLOURS
            → result ≡ kept.seen caller.own colour }
    {
        if colour < MAX_COLOURS {
            self.seen[colour as usize]
        } else {
            0
        }
    }

    // How many nodes it knows to stand in a column's line.
    fn known(&self, colour: u8) -> u128
        ensures { (caller : Caller) (kept : Kept) → Sees caller kept self.now → colour < MAX_COLOURS
            → result ≡ kept.known colour }
    {
        if colour < MAX_COLOURS {
            self.known[colour as usize]
        } else {
            0
        }
    }

    // It has seen so many events of a column.
    fn see(&mut self, colour: u8, events: u128)
        ensures kept { (caller : Caller) (kept : Kept) → Sees caller kept self.old
            → Sees caller (kept_after_look kept caller.own colour events) self.new }
        ensures client { self.new.client ≡ self.old.client }
        ensures region { self.new.region ≡ self.old.region }
        ensures here { colour < MAX_COLOURS → slice_index self.new.seen colour ≡ events }
        ensures others { (c : ℕ) → c ≢ colour → slice_index self.new.seen c ≡ slice_index self.old.seen c }
        ensures known { self.new.known ≡ self.old.known }
    {
        if colour < MAX_COLOURS {
            self.seen[colour as usize] = events;
        }
    }

    // So many nodes stand in a column's line, as it knows.
    fn know(&mut self, colour: u8, count: u128)
        ensures { (caller : Caller) (kept : Kept) → Sees caller kept self.old
            → Sees caller (record kept { known = updated kept.known colour count }) self.new }
    {
        if colour < MAX_COLOURS {
            self.known[colour as usize] = count;
        }
    }

    // Behind an event or a look that a reply names.
    fn place(&mut self, colour: u8, at: At)
        ensures { (caller : Caller) (kept : Kept) → Sees caller kept self.old
            → Sees caller (kept_after_look kept caller.own colour (seen_after at)) self.new }
    {
        match at {
            At::Event(place) => self.see(colour, place as u128 + 1),
            At::Look(events) => self.see(colour, events as u128),
        }
    }

    /// Behind an append to one colour.
    pub(crate) fn single(&mut self, point: PointPiece)
        ensures { (caller : Caller) (kept : Kept) (stamp : ℕ) → Sees caller kept self.old → Sees caller
            (kept_after_single kept caller.own point.colour (events_until point.at) stamp point.position) self.new }
    {
        self.see(point.colour, events_until(point.at) as u128 + 1);
        self.know(point.colour, point.position as u128 + 1);
    }

    // Behind a point of an append to several colours.
    fn point(&mut self, point: PointPiece)
        ensures { (caller : Caller) (kept : Kept) → Sees caller kept self.old
            → Sees caller (kept_after_point kept caller.own point.colour point.at point.position) self.new }
    {
        self.place(point.colour, point.at);
        self.know(point.colour, point.position as u128 + 1);
    }

    // Behind all points of one.
    fn points(&mut self, points: &[PointPiece])
        ensures { (caller : Caller) (kept : Kept) → Sees caller kept self.old
            → Sees caller (kept_after_points kept caller.own points.now) self.new }
    {
        for point in points {
            self.point(*point);
        }
    }

    // Behind an append to one colour, where it has a point.
    fn singles(&mut self, points: &[PointPiece])
        ensures { (caller : Caller) (kept : Kept) (untold : Untold) (stamp : ℕ) → Sees caller kept self.old
            → Sees caller (kept_after_append untold caller kept stamp None points.now) self.new }
    {
        if let Some(point) = points.first() {
            self.single(*point);
        }
    }

    // Behind a sync.
    fn synced(&mut self, subject: &Subject<'_>, sync: SyncPiece)
        ensures { (caller : Caller) (kept : Kept) → Sees caller kept self.old
            → Sees caller (kept_after_piece (log_walked subject.now) caller kept sync) self.new }
    {
        let stood = sync.counts.of_region(self.region);
        self.see(sync.colour, sync.events as u128);
        self.know(sync.colour, stood as u128);
    }

    // Behind events of its own at these places of a column.
    fn see_past(&mut self, colour: u8, places: &[u64])
        requires { colour < MAX_COLOURS }
        ensures client { self.new.client ≡ self.old.client }
        ensures region { self.new.region ≡ self.old.region }
        ensures here { slice_index self.new.seen colour ≡ seen_past (slice_index self.old.seen colour) places.now }
        ensures others { (c : ℕ) → c ≢ colour → slice_index self.new.seen c ≡ slice_index self.old.seen c }
        ensures known { self.new.known ≡ self.old.known }
    {
        self.see(colour, seen_past(self.seen(colour), places));
    }

    /// Whether a look at so many events of a column is at no fewer than it has seen, and at no more than there are.
    pub(crate) fn names_look(&self, subject: &Subject<'_>, colour: u8, events: u64) -> bool
        ensures { (caller : Caller) (kept : Kept) → Sees caller kept self.now → colour < MAX_COLOURS
            → Tells result (NamesLook (log_walked subject.now) kept caller.own colour events) }
    {
        is_look(
            subject.journal(self.region, colour),
            self.seen(colour),
            events,
        )
    }

    /// Whether a point is where an id of the client's entered, and its position behind all that the client knew to stand there.
    pub(crate) fn names_point(&self, subject: &Subject<'_>, point: &PointPiece) -> bool
        ensures { (caller : Caller) (kept : Kept) → Sees caller kept self.now → point.now.colour < MAX_COLOURS
            → Tells result (NamesPoint (log_walked subject.now) caller kept point.now) }
    {
        let journal = subject.journal(self.region, point.colour);
        let kind = Kind::Entry(self.client);
        if !is_named(
            journal,
            self.client,
            self.seen(point.colour),
            kind,
            point.at,
        ) {
            return false;
        }
        self.known(point.colour) <= point.position as u128
    }

    // Whether all points are.
    fn names_points(&self, subject: &Subject<'_>, points: &[PointPiece]) -> bool
        ensures { (caller : Caller) (kept : Kept) → Sees caller kept self.now → ArePointsLow points.now
            → Tells result (All (NamesPoint (log_walked subject.now) caller kept) points.now) }
    {
        for point in points {
            if !self.names_point(subject, point) {
                return false;
            }
        }
        true
    }

    // Whether no own step of the id of a row that no reply prints was seen before; where none was, the other sees them. They stand
    // in the colours of its marks alone.
    fn names_steps_of(
        &self,
        alloc: Global,
        subject: &Subject<'_>,
        count: u64,
        marks: &[ColourMark],
        behind: &mut OwnSeen,
    ) -> Result<bool, AllocError>
        requires client { self.now.client < length subject.now.report.clients }
        requires row { (r : RowReport) × (row_with (caller_of subject.now.script self.now.client).own
            (record { client = self.now.client; count = count }) subject.now.report.rows ≡ Some r) × (marks.now ≡ r.marks) }
        ensures { (kept after : Kept) (untold : Untold) → Sees (caller_of subject.now.script self.now.client) kept self.now
            → Sees (caller_of subject.now.script self.now.client) after behind.old
            → count ≡ kept.ids → LeavesOutSteps subject.now self.now.client count untold
            → IfOk result (λ b. AndThen b
            (NamesSteps (log_walked subject.now) (caller_of subject.now.script self.now.client) kept untold.places)
            (Sees (caller_of subject.now.script self.now.client)
            (with_made after (caller_of subject.now.script self.now.client).own untold.places) behind.new)) }
    {
        subject.agrees();
        for mark in marks {
            let steps = subject.steps(alloc, self.client, mark.colour, count)?;
            if !are_unseen(steps.as_slice(), self.seen(mark.colour)) {
                return Ok(false);
            }
            behind.see_past(mark.colour, steps.as_slice());
        }
        Ok(true)
    }

    /// Whether no own step of the id of this count that no reply prints was seen before; where none was, the other sees them.
    pub(crate) fn names_steps(
        &self,
        alloc: Global,
        subject: &Subject<'_>,
        count: u64,
        behind: &mut OwnSeen,
    ) -> Result<bool, AllocError>
        requires { self.now.client < length subject.now.report.clients }
        ensures { (kept after : Kept) (untold : Untold) → Sees (caller_of subject.now.script self.now.client) kept self.now
            → Sees (caller_of subject.now.script self.now.client) after behind.old
            → count ≡ kept.ids → LeavesOutSteps subject.now self.now.client count untold
            → IfOk result (λ b. AndThen b
            (NamesSteps (log_walked subject.now) (caller_of subject.now.script self.now.client) kept untold.places)
            (Sees (caller_of subject.now.script self.now.client)
            (with_made after (caller_of subject.now.script self.now.client).own untold.places) behind.new)) }
    {
        subject.agrees();
        let own = subject.own(self.client);
        let id = Id {
            client: self.client,
            count,
        };
        match subject.row(own, id) {
            Some(row) => {
                self.names_steps_of(alloc, subject, count, row.marks.as_slice(), behind)
            }
            None => Ok(true),
        }
    }

    /// Whether an append that stands names what is there; where it does, goes on behind it. The count is that of its id.
    pub(crate) fn names_append(
        &mut self,
        alloc: Global,
        subject: &Subject<'_>,
        count: u64,
        row: Option<u32>,
        points: &[PointPiece],
    ) -> Result<bool, AllocError>
        requires { self.old.client < length subject.now.report.clients }
        ensures { (kept : Kept) (untold : Untold) (stamp : ℕ) → Sees (caller_of subject.now.script self.old.client) kept self.old
            → count ≡ kept.ids → LeavesOutSteps subject.now self.old.client count untold → ArePointsLow points.now
            → IfOk result (λ b. AndThen b
            (NamesAppend (log_walked subject.now) untold (caller_of subject.now.script self.old.client) kept row points.now)
            (Sees (caller_of subject.now.script self.old.client)
            (kept_after_append untold (caller_of subject.now.script self.old.client) kept stamp row points.now) self.new)) }
    {
        if !self.names_points(subject, points) {
            return Ok(false);
        }
        if row.is_some() {
            let before = self.copied();
            self.points(points);
            let named = before.names_steps(alloc, subject, count, self)?;
            return Ok(named);
        }
        self.singles(points);
        Ok(true)
    }

    /// Whether a sync names what is there; where it does, goes on behind it.
    pub(crate) fn names_sync(&mut self, subject: &Subject<'_>, sync: SyncPiece) -> bool
        ensures { (caller : Caller) (kept : Kept) → Sees caller kept self.old → sync.colour < MAX_COLOURS
            → AndThen result (NamesSync (log_walked subject.now) caller kept sync)
            (Sees caller (kept_after_piece (log_walked subject.now) caller kept sync) self.new) }
    {
        if !self.names_look(subject, sync.colour, sync.events) {
            return false;
        }
        if (sync.counts.of_region(self.region) as u128) < self.known(sync.colour) {
            return false;
        }
        self.synced(subject, sync);
        true
    }

    // Whether all syncs do; where they do, goes on behind them.
    fn names_syncs(&mut self, subject: &Subject<'_>, syncs: &[SyncPiece]) -> bool
        ensures { (caller : Caller) (kept : Kept) → Sees caller kept self.old → AreSyncsLow syncs.now
            → AndThen result (NamesSyncs (log_walked subject.now) caller kept syncs.now)
            (Sees caller (kept_after_syncs (log_walked subject.now) caller kept syncs.now) self.new) }
    {
        for sync in syncs {
            if !self.names_sync(subject, *sync) {
                return false;
            }
        }
        true
    }

    // Whether a raise is the client's own event or a look, behind all nodes that the client knew to stand there.
    fn names_raise(&self, subject: &Subject<'_>, raise: RaisePiece) -> bool
        ensures { (caller : Caller) (kept : Kept) → Sees caller kept self.now → raise.colour < MAX_COLOURS
            → Tells result (NamesPlace (log_walked subject.now) caller kept caller.own raise.colour IsRaise raise.at
            × (kept.known raise.colour ≤ length (line (take (events_until raise.at) (journal_walked subject.now caller.own raise.colour))))) }
    {
        let journal = subject.journal(self.region, raise.colour);
        let seen = self.seen(raise.colour);
        if !is_named(journal, self.client, seen, Kind::Raise, raise.at) {
            return false;
        }
        let stood = line_length(subject, self.region, raise.colour, events_until(raise.at));
        self.known(raise.colour) <= stood as u128
    }

    // Whether all raises are, one after another; where they are, goes on behind them.
    fn names_raises(&mut self, subject: &Subject<'_>, raises: &[RaisePiece]) -> bool
        ensures { (caller : Caller) (kept : Kept) → Sees caller kept self.old → AreRaisesLow raises.now
            → AndThen result (NamesRaises (log_walked subject.now) caller kept raises.now)
            (Sees caller (kept_after_raises caller kept raises.now) self.new) }
    {
        for raise in raises {
            if !self.names_raise(subject, *raise) {
                return false;
            }
            self.place(raise.colour, raise.at);
        }
        true
    }

    /// Whether a stamped read names what is there; where it does, goes on behind it.
    pub(crate) fn names_read(
        &mut self,
        subject: &Subject<'_>,
        raises: &[RaisePiece],
        syncs: &[SyncPiece],
    ) -> bool
        ensures { (caller : Caller) (kept : Kept) (stamp : ℕ) → Sees caller kept self.old → AreRaisesLow raises.now
            → AreSyncsLow syncs.now → AndThen result (NamesRead (log_walked subject.now) caller kept raises.now syncs.now)
            (Sees caller (kept_after_read (log_walked subject.now) caller kept stamp raises.now syncs.now) self.new) }
    {
        if !self.names_raises(subject, raises) {
            return false;
        }
        self.names_syncs(subject, syncs)
    }
}
