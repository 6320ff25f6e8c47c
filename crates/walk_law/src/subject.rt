// What a walk over a report's commands looks up.
ghost use Rattle.std.specs.Prelude.{◌≡◌, ◌<◌, ◌^◌, IfOk, List, Some, length, slice_get};
ghost use Rattle.std.specs.Option.{option_copied};
ghost use Rattle.lawful_run.specs.Callers.{caller_of, commands_of};
ghost use Rattle.run_rules.specs.Told.{stamp_of};
ghost use Rattle.run_rules.specs.Telling.{replies_to};
ghost use Rattle.walk_law.specs.PlaceTables.{final_of, is_own_step, numbers_where, row_with};
ghost use Rattle.walk_law.specs.Behind.{HasColumn, steps_untold};
ghost use Rattle.walk_law.specs.Subjects.{AtColumn};
ghost use Rattle.walk_law.specs.Walking.{IsStepOf, MayWalk, journal_walked};
ghost use Rattle.col_core.specs.Log.{places_of};
ghost use Rattle.column_track.specs.Tracks.{Tracked};

use crate::column_places::{ColumnPlaces, places_of_columns};
use crate::copies::column_place;
use crate::place_lists::{PlaceLists, commands_by_client};
use crate::printed::Printed;
use crate::row_places::RowPlaces;
use col_core::Entry;
use column_track::Track;
use log_node::{Id, ListOf, Outcome};
use report_text::{ReplyLine, Report, RowReport};
use script_text::{Command, Script};
use std::alloc::{AllocError, Global};
use std::marker::Model;

/// A report that keeps the first three rules, beside its script, and what a walk over its commands looks up. Contracts see the
/// script and the report.
#[derive(Drop)]
pub struct Subject<'r> {
    script: &'r Script,
    report: &'r Report,
    tracks: &'r [Track],
    commands: PlaceLists,
    places: Vec<ColumnPlaces>,
    printed: Printed,
    rows: RowPlaces,
}

impl<'r> Model for Subject<'r> {
    ghost use Rattle.walk_law.specs.Walking.{Walked};
    ghost use Rattle.walk_law.specs.Subjects.{IsSubject};

    ghost Value = { Walked };

    ghost view = { λ s. record { script = s.script.now; report = s.report.now } };

    ghost invariant = { λ s. IsSubject s.script.now s.report.now s.tracks.now s.commands s.places.items s.printed s.rows };
}

impl<'r> Subject<'r> {
    /// What is looked up of a report that keeps the first three rules, by the tracks of its columns.
    pub fn of(
        alloc: Global,
        script: &'r Script,
        report: &'r Report,
        tracks: &'r [Track],
    ) -> Result<Subject<'r>, AllocError>
        requires { MayWalk script.now report.now tracks.now }
        ensures { IfOk result (λ s. s ≡ record { script = script.now; report = report.now }) }
    {
        let clients = script.shape.homes.len();
        let commands = commands_by_client(alloc, clients, script.commands.as_slice())?;
        let places = places_of_columns(alloc, clients, report.columns.as_slice())?;
        let printed = Printed::of_report(alloc, script, &commands, report)?;
        let rows = RowPlaces::of_rows(alloc, report.rows.as_slice())?;
        Ok(Subject {
            script,
            report,
            tracks,
            commands,
            places,
            printed,
            rows,
        })
    }

    /// The script.
    pub fn script(&self) -> &'r Script
        ensures { result.now ≡ self.now.script }
    {
        self.script
    }

    /// The report.
    pub fn report(&self) -> &'r Report
        ensures { result.now ≡ self.now.report }
    {
        self.report
    }

    /// The tracks of its columns; it keeps the first three rules.
    pub fn tracks(&self) -> &'r [Track]
        ensures { MayWalk self.now.script self.now.report result.now }
    {
        let _may = &self.rows;
        self.tracks
    }

    /// Says that the report keeps the first three rules, and how many clients it has.
    pub fn agrees(&self)
        ensures may { (tracks : List Tracked) × MayWalk self.now.script self.now.report tracks }
        ensures clients { length self.now.report.clients ≡ length self.now.script.shape.homes }
    {
        let _may = &self.rows;
    }

    /// How many clients there are.
    pub fn clients(&self) -> u8
        ensures { result ≡ length self.now.report.clients }
    {
        let _may = &self.rows;
        self.report.clients.len() as u8
    }

    /// The region of a client.
    pub fn own(&self, client: u8) -> u8
        requires { client < length self.now.report.clients }
        ensures own { result ≡ (caller_of self.now.script client).own }
        ensures within { result < self.now.script.shape.regions }
    {
        let _may = &self.rows;
        self.script.shape.homes.as_slice()[client as usize]
    }

    /// The replies to a client, in order.
    pub fn replies(&self, client: u8) -> &'r [ReplyLine]
        ensures { result.now ≡ replies_to self.now.report client }
    {
        match self.report.clients.get(client as usize) {
            Some(shown) => shown.replies.as_slice(),
            None => &[],
        }
    }

    /// How many commands a client has.
    pub fn count(&self, client: u8) -> usize
        requires { client < length self.now.report.clients }
        ensures count { result ≡ length (commands_of self.now.script client) }
        ensures few { result < 2 ^ 15 }
    {
        self.commands.places(client).len()
    }

    /// A client's command in this place.
    pub fn command(&self, client: u8, place: usize) -> &'r Command
        requires { IsStepOf self.now client place }
        ensures { slice_get (commands_of self.now.script client) place ≡ Some result.now }
    {
        let at = self.commands.places(client)[place];
        &self.script.commands.as_slice()[at as usize]
    }

    /// The reply to it.
    pub fn reply(&self, client: u8, place: usize) -> &'r ReplyLine
        requires { IsStepOf self.now client place }
        ensures { slice_get (replies_to self.now.report client) place ≡ Some result.now }
    {
        let _may = &self.rows;
        &self.replies(client)[place]
    }

    /// Whether the column is one of the shape.
    pub fn has_column(&self, region: u8, colour: u8) -> bool
        ensures { HasColumn self.now region colour result }
    {
        let shape = &self.script.shape;
        region < shape.regions && colour < shape.colours
    }

    // At which place the column stands among all, where it is one of the shape.
    fn column(&self, region: u8, colour: u8) -> Option<usize>
        ensures { AtColumn self.now.script self.now.report region colour result }
    {
        if self.has_column(region, colour) {
            Some(column_place(self.script.shape.colours, region, colour))
        } else {
            None
        }
    }

    /// The journal of a column; none where it is not of the shape.
    pub fn journal(&self, region: u8, colour: u8) -> &'r [Entry]
        ensures { result.now ≡ journal_walked self.now region colour }
    {
        let _may = &self.rows;
        match self.column(region, colour) {
            Some(at) => self.report.columns.as_slice()[at].journal.as_slice(),
            None => &[],
        }
    }

    /// The track of a column.
    pub fn track(&self, region: u8, colour: u8) -> &'r Track
        requires region { region < self.now.script.shape.regions }
        requires colour { colour < self.now.script.shape.colours }
        ensures region { result.now.region ≡ region }
        ensures regions { result.now.regions ≡ self.now.script.shape.regions }
        ensures journal { result.now.journal ≡ journal_walked self.now region colour }
    {
        let _may = &self.rows;
        &self.tracks[column_place(self.script.shape.colours, region, colour)]
    }

    /// The places of a client's own events of a column, in their order.
    pub fn own_places(&self, client: u8, region: u8, colour: u8) -> &[u64]
        requires { client < length self.now.report.clients }
        ensures { result.now ≡ places_of client (journal_walked self.now region colour) }
    {
        match self.column(region, colour) {
            Some(at) => self.places[at].own.places(client),
            None => &[],
        }
    }

    // The places of the own steps of an id in a column.
    fn all_steps(&self, region: u8, colour: u8, id: Id) -> &[u64]
        ensures { result.now ≡ numbers_where (is_own_step id) 0 (journal_walked self.now region colour) }
    {
        match self.column(region, colour) {
            Some(at) => self.places[at].steps.steps(id),
            None => &[],
        }
    }

    /// The places, in a column of a client's region, of its own steps of the id of this count that no reply to it prints.
    pub(crate) fn steps(
        &self,
        alloc: Global,
        client: u8,
        colour: u8,
        count: u64,
    ) -> Result<ListOf<u64>, AllocError>
        requires { client < length self.now.report.clients }
        ensures { IfOk result (λ places. places ≡ steps_untold self.now client count colour) }
    {
        let own = self.own(client);
        let mut places = ListOf::new(alloc);
        for place in self.all_steps(own, colour, Id { client, count }) {
            if !self.printed.has(client, own, colour, *place) {
                places.push(*place)?;
            }
        }
        Ok(places)
    }

    /// A region's row with this id, where there is one.
    pub(crate) fn row(&self, region: u8, id: Id) -> Option<&'r RowReport>
        ensures { option_copied result ≡ row_with region id self.now.report.rows }
    {
        self.rows.row(self.report.rows.as_slice(), region, id)
    }

    /// The final number of a region's row with this id; 0 where there is none, or it is not final.
    pub fn final_number(&self, region: u8, id: Id) -> u64
        ensures { result ≡ final_of (row_with region id self.now.report.rows) }
    {
        match self.row(region, id) {
            Some(row) => match row.last {
                Outcome::Final(number) => number,
                Outcome::Open | Outcome::Gone(_) => 0,
            },
            None => 0,
        }
    }

    /// The stamp of the event at a place of a column; 0 where there is none.
    pub fn stamp_at(&self, region: u8, colour: u8, place: u64) -> u64
        ensures { result ≡ stamp_of (slice_get (journal_walked self.now region colour) place) }
    {
        match self.journal(region, colour).get(place as usize) {
            Some(entry) => entry.stamp,
            None => 0,
        }
    }
}
