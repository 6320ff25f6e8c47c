// The third rule, of the rows of one region: lawful beside the journals of its columns.
ghost use Rattle.std.specs.Prelude.{◌≡◌, ◌<◌, ◌≤◌, ◌==◌, IsTrue, length, map, replicate, IfOk, IfSome, Some, slice_get};
ghost use Rattle.std.specs.List.{All, list_any};
ghost use Rattle.log_node.specs.declared.marks.ColourMark.{ColourMark};
ghost use Rattle.report_text.specs.declared.report.RowReport.{RowReport as RowShown};
ghost use Rattle.col_core.specs.declared.Entry.{Entry as EntryMade};
ghost use Rattle.col_core.specs.History.{IsAtEnd};
ghost use Rattle.col_core.specs.Ids.{Proposes};
ghost use Rattle.col_core.specs.Rows.{FitsRows, IsMarkOf};
ghost use Rattle.lawful_run.specs.Columns.{IsClientIn};
ghost use Rattle.column_track.specs.Tracks.{Tells};
ghost use Rattle.run_rules.specs.Telling.{floor_told, marked_colours};
ghost use Rattle.walk_law.specs.Proposals.{proposal_told, told_in};
ghost use Rattle.walk_law.specs.RowsBeside.{AreBegun, AreBeside, AreInOrder, AreRowsAt, AreRowsBeside, FitColumns, FitRows, HasMarks, HasMarksBelow, HasOutcomeOf, HasRising, IsAtPlace, IsMarkedBeside, IsRowAlone, IsUnproposed, ProposesFirst, RiseFrom, bare_row, floor_beside, histories_in};

use crate::row_table::RowTable;
use col_core::{Entry, Event};
use column_track::Track;
use log_node::{ColourMark, Id, MAX_COLOURS, MAX_STAMP, Mark, Outcome, Why};
use report_text::{ColumnReport, RowReport};
use script_text::Script;
use skeen_core::outcome;
use std::alloc::{AllocError, Global};

/// What the proposal of an id tells: its stamp, and its node's floor.
#[derive(Clone, Copy)]
pub(crate) struct Proposal {
    stamp: u64,
    floor: u64,
}

// What an entry tells where it proposes an id.
fn told_by(entry: &Entry) -> Option<Proposal>
    ensures { result ≡ proposal_told entry.now }
{
    match &entry.event {
        Event::Propose { floor, .. } => Some(Proposal {
            stamp: entry.stamp,
            floor: *floor,
        }),
        Event::Single { .. }
        | Event::Settle { .. }
        | Event::Raise { .. }
        | Event::Give { .. }
        | Event::Carry { .. }
        | Event::Trim { .. } => None,
    }
}

// What the proposal of an id in a journal tells, if one is there.
fn proposal_in(journal: &[Entry], track: &Track, id: Id) -> Option<Proposal>
    requires { track.now.journal ≡ journal.now }
    ensures { result ≡ told_in id journal.now }
{
    track.agrees();
    match track.place(id) {
        Some(place) => told_by(&journal[place as usize]),
        None => None,
    }
}

// What the proposal of an id in a colour tells, if one is there.
fn told_at(columns: &[ColumnReport], tracks: &[Track], id: Id, colour: u8) -> Option<Proposal>
    requires beside { AreBeside columns.now tracks.now }
    requires below { colour < length columns.now }
    ensures { result ≡ told_in id (histories_in columns.now colour) }
{
    let at = colour as usize;
    let column = &columns[at];
    let track = &tracks[at];
    let journal = column.journal.as_slice();
    proposal_in(journal, track, id)
}

// The floor that the proposals of an id in the colours of marks tell.
fn floor_of(columns: &[ColumnReport], tracks: &[Track], id: Id, marks: &[ColourMark]) -> u64
    requires beside { AreBeside columns.now tracks.now }
    requires below { All (λ (m : ColourMark). m.colour < length columns.now) marks.now }
    ensures { result ≡ floor_told id (histories_in columns.now) (marked_colours marks.now) }
{
    for mark in marks {
        if let Some(proposal) = told_at(columns, tracks, id, mark.colour) {
            return proposal.floor;
        }
    }
    MAX_STAMP
}

// Whether no event of a journal proposes an id.
fn is_unproposed(journal: &[Entry], track: &Track, id: Id) -> bool
    requires { track.now.journal ≡ journal.now }
    ensures { Tells result (IsUnproposed journal.now id) }
{
    proposal_in(journal, track, id).is_none()
}

// Whether an event of a journal proposes an id under a stamp.
fn is_proposed(journal: &[Entry], track: &Track, id: Id, stamp: u64) -> bool
    requires { track.now.journal ≡ journal.now }
    ensures { Tells result (Proposes journal.now id stamp) }
{
    track.agrees();
    match proposal_in(journal, track, id) {
        Some(proposal) => proposal.stamp == stamp,
        None => false,
    }
}

/// Whether a whole journal leaves no stamp for a floor.
pub(crate) fn is_at_end(journal: &[Entry], track: &Track, floor: u64) -> bool
    requires { track.now.journal ≡ journal.now }
    ensures { Tells result (IsAtEnd journal.now floor) }
{
    let clock = track.mark(journal.len() as u64).clock;
    clock.max(floor) == MAX_STAMP
}

// Whether a fence is what a journal says of a row's id.
fn is_fence_of(
    columns: &[ColumnReport],
    journal: &[Entry],
    track: &Track,
    row: &RowReport,
    floor: u64,
    why: Why,
) -> bool
    requires track { track.now.journal ≡ journal.now }
    requires floor { floor ≡ floor_beside columns.now row.now }
    ensures { Tells result (IsMarkOf journal.now (bare_row columns.now row.now).node (Mark.Fenced why)) }
{
    match why {
        Why::Memory => is_unproposed(journal, track, row.id),
        Why::StampEnd => {
            if !is_unproposed(journal, track, row.id) {
                return false;
            }
            is_at_end(journal, track, floor)
        }
    }
}

// Whether a mark of a row is what the column says of its id.
fn is_mark_of(
    columns: &[ColumnReport],
    tracks: &[Track],
    row: &RowReport,
    floor: u64,
    mark: ColourMark,
) -> bool
    requires beside { AreBeside columns.now tracks.now }
    requires below { mark.colour < length columns.now }
    requires floor { floor ≡ floor_beside columns.now row.now }
    ensures { Tells result (IsMarkOf (histories_in columns.now mark.colour) (bare_row columns.now row.now).node mark.mark) }
{
    let at = mark.colour as usize;
    let column = &columns[at];
    let track = &tracks[at];
    let journal = column.journal.as_slice();
    match mark.mark {
        Mark::None => is_unproposed(journal, track, row.id),
        Mark::Number(stamp) => is_proposed(journal, track, row.id, stamp),
        Mark::Fenced(why) => is_fence_of(columns, journal, track, row, floor, why),
    }
}

// Whether all marks of a row are what its columns say.
fn are_marks_of(
    columns: &[ColumnReport],
    tracks: &[Track],
    row: &RowReport,
    marks: &[ColourMark],
    floor: u64,
) -> bool
    requires beside { AreBeside columns.now tracks.now }
    requires below { All (λ (m : ColourMark). m.colour < length columns.now) marks.now }
    requires floor { floor ≡ floor_beside columns.now row.now }
    ensures { Tells result (All (λ (m : ColourMark). IsMarkOf (histories_in columns.now m.colour)
        (bare_row columns.now row.now).node m.mark) marks.now) }
{
    for mark in marks {
        if !is_mark_of(columns, tracks, row, floor, *mark) {
            return false;
        }
    }
    true
}

// Whether two outcomes are one.
fn same_outcome(one: Outcome, other: Outcome) -> bool
    ensures { Tells result (one ≡ other) }
{
    one == other
}

// What is said beside colours.
fn marks_of(alloc: Global, marks: &[ColourMark]) -> Result<Vec<Mark>, AllocError>
    ensures { IfOk result (λ v. v.items ≡ map (λ (m : ColourMark). m.mark) marks.now) }
{
    marks.iter().map(|mark| mark.mark).collect(alloc)
}

// Whether a row has no outcome yet, or that of its marks.
fn has_outcome_of(alloc: Global, row: &RowReport) -> Result<bool, AllocError>
    requires { 0 < length row.now.marks }
    ensures { IfOk result (λ b. Tells b (HasOutcomeOf row.now)) }
{
    if same_outcome(row.last, Outcome::Open) {
        return Ok(true);
    }
    let marks = marks_of(alloc, row.marks.as_slice())?;
    Ok(same_outcome(outcome(&marks), row.last))
}

// Whether the colours of marks rise, and are among the first so many.
fn are_rising(marks: &[ColourMark], colours: u8) -> bool
    requires { colours ≤ MAX_COLOURS }
    ensures { Tells result (RiseFrom 0 colours marks.now) }
{
    let mut low = 0;
    for mark in marks {
        if mark.colour < low {
            return false;
        }
        if mark.colour >= colours {
            return false;
        }
        low = mark.colour + 1;
    }
    true
}

/// Whether a client is there, in this region.
pub(crate) fn is_client_in(script: &Script, region: u8, client: u8) -> bool
    ensures { Tells result (IsClientIn script.now region client) }
{
    match script.shape.homes.get(client as usize) {
        Some(home) => *home == region,
        None => false,
    }
}

// Whether a row is by itself what one of the region may be.
fn is_alone(script: &Script, region: u8, row: &RowReport) -> bool
    requires { script.now.shape.colours ≤ MAX_COLOURS }
    ensures { Tells result (IsRowAlone script.now region row.now) }
{
    if row.region != region {
        return false;
    }
    if row.id.client != row.row.client {
        return false;
    }
    if row.marks.len() < 2 {
        return false;
    }
    if !is_client_in(script, region, row.row.client) {
        return false;
    }
    are_rising(row.marks.as_slice(), script.shape.colours)
}

// Whether all rows are.
fn are_alone(script: &Script, region: u8, rows: &[RowReport]) -> bool
    requires { script.now.shape.colours ≤ MAX_COLOURS }
    ensures { Tells result (All (IsRowAlone script.now region) rows.now) }
{
    for row in rows {
        if !is_alone(script, region, row) {
            return false;
        }
    }
    true
}

// Whether each client's rows have the numbers 0, 1, 2 in their order, where none are counted yet.
fn are_counted(rows: &[RowReport], counts: &mut [usize]) -> bool
    requires clients { All (λ (r : RowShown). r.row.client < length counts.old) rows.now }
    requires none { counts.old ≡ replicate (length counts.old) 0 }
    ensures { Tells result (AreInOrder rows.now) }
{
    for row in rows {
        let client = row.row.client as usize;
        let count = counts[client];
        if row.row.number as usize != count {
            return false;
        }
        counts[client] = count + 1;
    }
    true
}

// Whether each client's rows have the numbers 0, 1, 2 in their order.
fn are_in_order(alloc: Global, rows: &[RowReport], clients: usize) -> Result<bool, AllocError>
    requires { All (λ (r : RowShown). r.row.client < clients) rows.now }
    ensures { IfOk result (λ b. Tells b (AreInOrder rows.now)) }
{
    let mut counts = vec![in alloc; 0usize; clients]?;
    Ok(are_counted(rows, counts.as_mut_slice()))
}

// Whether the rows of a region are what they may be by themselves, and in order.
fn are_begun(
    alloc: Global,
    script: &Script,
    region: u8,
    rows: &[RowReport],
) -> Result<bool, AllocError>
    requires { script.now.shape.colours ≤ MAX_COLOURS }
    ensures { IfOk result (λ b. Tells b (AreBegun script.now region rows.now)) }
{
    if !are_alone(script, region, rows) {
        return Ok(false);
    }
    are_in_order(alloc, rows, script.shape.homes.len())
}

// The floors of all rows.
fn floors_of(
    alloc: Global,
    columns: &[ColumnReport],
    tracks: &[Track],
    rows: &[RowReport],
) -> Result<Vec<u64>, AllocError>
    requires beside { AreBeside columns.now tracks.now }
    requires below { All (HasMarksBelow (length columns.now)) rows.now }
    ensures { IfOk result (λ v. v.items ≡ map (floor_beside columns.now) rows.now) }
{
    let mut floors = Vec::with_capacity(alloc, rows.len())?;
    for row in rows {
        let floor = floor_of(columns, tracks, row.id, row.marks.as_slice());
        floors.push(floor)?;
    }
    Ok(floors)
}

// Whether the marks and the outcome of a row are those of the columns.
fn is_marked(
    alloc: Global,
    columns: &[ColumnReport],
    tracks: &[Track],
    row: &RowReport,
    floor: u64,
) -> Result<bool, AllocError>
    requires beside { AreBeside columns.now tracks.now }
    requires below { HasMarksBelow (length columns.now) row.now }
    requires some { HasMarks row.now }
    requires floor { floor ≡ floor_beside columns.now row.now }
    ensures { IfOk result (λ b. Tells b (IsMarkedBeside columns.now row.now)) }
{
    let marks = row.marks.as_slice();
    if !are_marks_of(columns, tracks, row, marks, floor) {
        return Ok(false);
    }
    has_outcome_of(alloc, row)
}

// Whether those of all rows are.
fn are_marked(
    alloc: Global,
    columns: &[ColumnReport],
    tracks: &[Track],
    rows: &[RowReport],
    floors: &[u64],
) -> Result<bool, AllocError>
    requires beside { AreBeside columns.now tracks.now }
    requires below { All (HasMarksBelow (length columns.now)) rows.now }
    requires some { All HasMarks rows.now }
    requires floors { floors.now ≡ map (floor_beside columns.now) rows.now }
    ensures { IfOk result (λ b. Tells b (All (IsMarkedBeside columns.now) rows.now)) }
{
    for at in 0..rows.len() {
        let row = &rows[at];
        if !is_marked(alloc, columns, tracks, row, floors[at])? {
            return Ok(false);
        }
    }
    Ok(true)
}

// Whether a row has a mark of the colour.
fn has_colour(row: &RowReport, colour: u8) -> bool
    ensures { result ≡ list_any (λ (m : ColourMark). m.colour == colour) row.now.marks }
{
    row.marks
        .as_slice()
        .iter()
        .any(|mark| mark.colour == colour)
}

// Whether a row of the id is there, with this floor and a mark of the colour.
fn is_row_proposed(
    rows: &[RowReport],
    floors: &[u64],
    place: Option<u64>,
    floor: u64,
    colour: u8,
) -> bool
    requires place { IfSome place (λ n. n < length rows.now) }
    requires floors { length floors.now ≡ length rows.now }
    ensures { Tells result (IsAtPlace rows.now place (λ n r. (slice_get floors.now n ≡ Some floor)
        × IsTrue (list_any (λ (m : ColourMark). m.colour == colour) r.marks))) }
{
    match place {
        Some(at) => floors[at as usize] == floor && has_colour(&rows[at as usize], colour),
        None => false,
    }
}

// Whether a row of the id is there, with this outcome.
fn is_row_settled(rows: &[RowReport], place: Option<u64>, outcome: Outcome) -> bool
    requires { IfSome place (λ n. n < length rows.now) }
    ensures { Tells result (IsAtPlace rows.now place (λ n r. r.last ≡ outcome)) }
{
    match place {
        Some(at) => same_outcome(rows[at as usize].last, outcome),
        None => false,
    }
}

// Whether the rows are there that an event of a colour asks for.
fn event_fits(
    columns: &[ColumnReport],
    rows: &[RowReport],
    floors: &[u64],
    table: &RowTable,
    colour: u8,
    event: &Event,
) -> bool
    requires table { AreRowsAt rows.now table.now }
    requires floors { floors.now ≡ map (floor_beside columns.now) rows.now }
    requires rising { All HasRising rows.now }
    requires first { ProposesFirst (histories_in columns.now colour) event.now }
    ensures { Tells result (FitsRows (map (bare_row columns.now) rows.now) colour event.now) }
{
    match event {
        Event::Single { id, .. } => table.place(rows, *id).is_none(),
        Event::Propose { id, floor, .. } => {
            is_row_proposed(rows, floors, table.place(rows, *id), *floor, colour)
        }
        Event::Settle { id, outcome } => is_row_settled(rows, table.place(rows, *id), *outcome),
        Event::Raise { .. } | Event::Give { .. } | Event::Carry { .. } | Event::Trim { .. } => true,
    }
}

// Whether they are there for all events of a colour.
fn events_fit(
    columns: &[ColumnReport],
    journal: &[Entry],
    track: &Track,
    rows: &[RowReport],
    floors: &[u64],
    table: &RowTable,
    colour: u8,
) -> bool
    requires journal { journal.now ≡ histories_in columns.now colour }
    requires track { track.now.journal ≡ journal.now }
    requires table { AreRowsAt rows.now table.now }
    requires floors { floors.now ≡ map (floor_beside columns.now) rows.now }
    requires rising { All HasRising rows.now }
    ensures { Tells result (All (λ (e : EntryMade). FitsRows (map (bare_row columns.now) rows.now) colour e.event)
        journal.now) }
{
    track.agrees();
    for entry in journal {
        if !event_fits(columns, rows, floors, table, colour, &entry.event) {
            return false;
        }
    }
    true
}

// Whether they are for all events of all colours.
fn all_events_fit(
    columns: &[ColumnReport],
    tracks: &[Track],
    rows: &[RowReport],
    floors: &[u64],
    table: &RowTable,
    colours: u8,
) -> bool
    requires colours { length columns.now ≡ colours }
    requires beside { AreBeside columns.now tracks.now }
    requires table { AreRowsAt rows.now table.now }
    requires floors { floors.now ≡ map (floor_beside columns.now) rows.now }
    requires rising { All HasRising rows.now }
    ensures { Tells result (FitRows colours columns.now rows.now) }
{
    for colour in 0..colours {
        let at = colour as usize;
        let column = &columns[at];
        let track = &tracks[at];
        let journal = column.journal.as_slice();
        if !events_fit(columns, journal, track, rows, floors, table, colour) {
            return false;
        }
    }
    true
}

// Whether rows have ids of their own, and marks, outcomes and events fit one another.
fn fit_columns(
    alloc: Global,
    rows: &[RowReport],
    columns: &[ColumnReport],
    tracks: &[Track],
    colours: u8,
) -> Result<bool, AllocError>
    requires colours { length columns.now ≡ colours }
    requires beside { AreBeside columns.now tracks.now }
    requires below { All (HasMarksBelow (length columns.now)) rows.now }
    requires some { All HasMarks rows.now }
    requires rising { All HasRising rows.now }
    ensures { IfOk result (λ b. Tells b (FitColumns colours columns.now rows.now)) }
{
    let Some(table) = RowTable::of_rows(alloc, rows)? else {
        return Ok(false);
    };
    let floors = floors_of(alloc, columns, tracks, rows)?;
    if !are_marked(alloc, columns, tracks, rows, &floors)? {
        return Ok(false);
    }
    Ok(all_events_fit(columns, tracks, rows, &floors, &table, colours))
}

/// Whether the rows of a region are lawful beside its columns, which have these tracks.
pub(crate) fn are_rows_beside(
    alloc: Global,
    script: &Script,
    region: u8,
    rows: &[RowReport],
    columns: &[ColumnReport],
    tracks: &[Track],
) -> Result<bool, AllocError>
    requires few { script.now.shape.colours ≤ MAX_COLOURS }
    requires colours { length columns.now ≡ script.now.shape.colours }
    requires beside { AreBeside columns.now tracks.now }
    ensures { IfOk result (λ b. Tells b (AreRowsBeside script.now region columns.now rows.now)) }
{
    if !are_begun(alloc, script, region, rows)? {
        return Ok(false);
    }
    fit_columns(alloc, rows, columns, tracks, script.shape.colours)
}
