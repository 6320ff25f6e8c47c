// The fifth rule: the nodes of commands, their events and their rows.
ghost use Rattle.std.specs.Prelude.{◌≡◌, ◌<◌, IfOk, length};
ghost use Rattle.std.specs.List.{All};
ghost use Rattle.col_core.specs.declared.Event.TheVariants as events;
ghost use Rattle.col_core.specs.Keeping.{Kept};
ghost use Rattle.lawful_run.specs.Callers.{caller_of};
ghost use Rattle.column_track.specs.Tracks.{Tells};
ghost use Rattle.run_rules.specs.Told.{colours_asked};
ghost use Rattle.run_rules.specs.Telling.{account_of, marked_colours, no_nodes, replies_to};
ghost use Rattle.run_rules.specs.Rules.{EntersAsNode, Rule4};
ghost use Rattle.run_rules.specs.Nodes.{nodes_told};
ghost use Rattle.run_rules.specs.Keeping.{RulesTo};
ghost use Rattle.walk_law.specs.Fifth.{AreRowIds, EntersItsNodes, EntersItsOwn, FencesNode, HasItsRows, IsNextRow, MarksNext, ProposesNode, ProposesSo};
ghost use Rattle.walk_law.specs.Keepings.{IsCounted};
ghost use Rattle.walk_law.specs.Proposals.{proposal};
ghost use Rattle.walk_law.specs.RowPlaces.{AreRowPlaces};
ghost use Rattle.walk_law.specs.Walking.{log_walked};

use crate::asked::colours_asked;
use crate::going_on::events_until;
use crate::keeping::Keeping;
use crate::laws::fifth_is_entering;
use crate::place_lists::PlaceLists;
use crate::row_places::RowPlaces;
use crate::rows::{is_at_end, is_client_in};
use crate::subject::Subject;
use crate::walking::walk;
use col_core::{Entry, Event};
use column_track::Track;
use log_node::{ColourList, ColourMark, Counts, Id, Mark, Why};
use report_text::{PointPiece, RowReport};
use script_text::{Script, What};
use std::alloc::{AllocError, Global};

// EVENTS

// Whether two counts are one.
fn same_counts(one: Counts, other: Counts) -> bool
    ensures { Tells result (one ≡ other) }
{
    one == other
}

// Whether an event, if it proposes a node, tells this floor and these wants.
fn proposes_so(event: &Event, floor: u64, wants: Counts) -> bool
    ensures { Tells result (ProposesSo floor wants event.now) }
{
    match event {
        Event::Propose {
            floor: told,
            wants: wanted,
            ..
        } => *told == floor && same_counts(*wanted, wants),
        Event::Single { .. }
        | Event::Settle { .. }
        | Event::Raise { .. }
        | Event::Give { .. }
        | Event::Carry { .. }
        | Event::Trim { .. } => true,
    }
}

// Whether a journal proposes an id, if it does, with this floor and these wants.
fn proposes_node(journal: &[Entry], track: &Track, id: Id, floor: u64, wants: Counts) -> bool
    requires { track.now.journal ≡ journal.now }
    ensures { Tells result (ProposesNode id floor wants (proposal id journal.now)) }
{
    track.agrees();
    match track.place(id) {
        Some(place) => proposes_so(&journal[place as usize].event, floor, wants),
        None => true,
    }
}

// Whether a mark, if it is a fence for the stamps' end, stands where the journal leaves no stamp for the floor.
fn fences_node(journal: &[Entry], track: &Track, floor: u64, mark: Mark) -> bool
    requires { track.now.journal ≡ journal.now }
    ensures { Tells result (FencesNode journal.now floor mark) }
{
    match mark {
        Mark::None | Mark::Number(_) => true,
        Mark::Fenced(why) => match why {
            Why::Memory => true,
            Why::StampEnd => is_at_end(journal, track, floor),
        },
    }
}

// Whether an event enters this node of one colour.
fn enters_single(event: &Event, id: Id, floor: u64, wants: Counts) -> bool
    ensures { Tells result (event.now ≡ events.Single id floor wants) }
{
    match event {
        Event::Single {
            id: other,
            floor: told,
            wants: wanted,
        } => *other == id && *told == floor && same_counts(*wanted, wants),
        Event::Propose { .. }
        | Event::Settle { .. }
        | Event::Raise { .. }
        | Event::Give { .. }
        | Event::Carry { .. }
        | Event::Trim { .. } => false,
    }
}

// THE NEXT NODE

/// Whether an append to one colour has its event at its point, if one is there.
pub(crate) fn enters_as_node(
    subject: &Subject<'_>,
    client: u8,
    own: u8,
    keeping: &Keeping,
    row: Option<u32>,
    points: &[PointPiece],
) -> bool
    requires { own ≡ (caller_of subject.now.script client).own }
    ensures { (kept : Kept) → IsCounted (replies_to subject.now.report client) kept keeping.now → Tells result
        (EntersAsNode (log_walked subject.now) (caller_of subject.now.script client) kept row points.now) }
{
    if row.is_some() {
        return true;
    }
    let Some(point) = points.first() else {
        return true;
    };
    let journal = subject.journal(own, point.colour);
    match journal.get(events_until(point.at) as usize) {
        Some(entry) => enters_single(
            &entry.event,
            keeping.next_id(client),
            keeping.floor(),
            keeping.start(point.colour),
        ),
        None => true,
    }
}

// Whether a mark is beside its column that of the client's next node.
fn marks_next(
    subject: &Subject<'_>,
    client: u8,
    own: u8,
    keeping: &Keeping,
    mark: ColourMark,
) -> bool
    requires own { own ≡ (caller_of subject.now.script client).own }
    requires within { own < subject.now.script.shape.regions }
    ensures { (kept : Kept) → IsCounted (replies_to subject.now.report client) kept keeping.now → Tells result
        (MarksNext subject.now.script.shape.colours (log_walked subject.now) (caller_of subject.now.script client) kept mark) }
{
    if mark.colour >= subject.script().shape.colours {
        return false;
    }
    let journal = subject.journal(own, mark.colour);
    let track = subject.track(own, mark.colour);
    let floor = keeping.floor();
    if !fences_node(journal, track, floor, mark.mark) {
        return false;
    }
    let id = keeping.next_id(client);
    proposes_node(journal, track, id, floor, keeping.start(mark.colour))
}

// Whether all marks are.
fn are_next_marks(
    subject: &Subject<'_>,
    client: u8,
    own: u8,
    keeping: &Keeping,
    marks: &[ColourMark],
) -> bool
    requires own { own ≡ (caller_of subject.now.script client).own }
    requires within { own < subject.now.script.shape.regions }
    ensures { (kept : Kept) → IsCounted (replies_to subject.now.report client) kept keeping.now → Tells result
        (All (MarksNext subject.now.script.shape.colours (log_walked subject.now) (caller_of subject.now.script client) kept)
        marks.now) }
{
    for mark in marks {
        if !marks_next(subject, client, own, keeping, *mark) {
            return false;
        }
    }
    true
}

// The colours of marks.
fn colours_of(alloc: Global, marks: &[ColourMark]) -> Result<Vec<u8>, AllocError>
    ensures { IfOk result (λ v. v.items ≡ marked_colours marks.now) }
{
    marks.iter().map(|mark| mark.colour).collect(alloc)
}

// Whether two lists of colours are one.
fn same_colours(one: &[u8], other: &[u8]) -> bool
    ensures { Tells result (one.now ≡ other.now) }
{
    one == other
}

/// Whether a row is that of the client's next node, of these colours.
pub(crate) fn is_next_row(
    alloc: Global,
    subject: &Subject<'_>,
    client: u8,
    own: u8,
    keeping: &Keeping,
    asked: &[u8],
    row: &RowReport,
) -> Result<bool, AllocError>
    requires own { own ≡ (caller_of subject.now.script client).own }
    requires within { own < subject.now.script.shape.regions }
    ensures { (kept : Kept) → IsCounted (replies_to subject.now.report client) kept keeping.now → IfOk result (λ b. Tells b
        (IsNextRow subject.now.script.shape.colours (log_walked subject.now) (caller_of subject.now.script client) kept asked.now
        row.now)) }
{
    if row.row.client != client {
        return Ok(false);
    }
    if row.row.number as u64 != keeping.rows() {
        return Ok(false);
    }
    let marks = row.marks.as_slice();
    let colours = colours_of(alloc, marks)?;
    if !same_colours(&colours, asked) {
        return Ok(false);
    }
    Ok(are_next_marks(subject, client, own, keeping, marks))
}

impl Keeping {
    /// The id of the node that a client appends next.
    pub fn next_id(&self, client: u8) -> Id
        ensures { result ≡ record { client = client; count = self.now.ids } }
    {
        Id {
            client,
            count: self.ids(),
        }
    }

    /// The colours on which a command appends.
    pub fn asked(
        &self,
        alloc: Global,
        subject: &Subject<'_>,
        client: u8,
        what: &What,
    ) -> Result<ColourList, AllocError>
        ensures { (kept : Kept) → IsCounted (replies_to subject.now.report client) kept self.now → IfOk result (λ asked. asked
            ≡ colours_asked (caller_of subject.now.script client) kept what.now) }
    {
        let _may = subject.tracks();
        let objects = subject.script().objects.as_slice();
        let found = self.found_of(subject, client, what);
        colours_asked(alloc, objects, what, found)
    }
}

// ROWS

// The numbers of the ids of each client's rows in its region.
fn row_ids(alloc: Global, script: &Script, rows: &[RowReport]) -> Result<PlaceLists, AllocError>
    ensures { IfOk result (λ lists. AreRowIds script.now rows.now lists) }
{
    let mut ids = PlaceLists::new(alloc, script.shape.homes.len())?;
    for row in rows {
        if is_client_in(script, row.region, row.row.client) {
            ids.add(row.row.client, row.id.count)?;
        }
    }
    Ok(ids)
}

// Whether a number is below another one.
fn is_below(number: u64, end: u64) -> bool
    ensures { Tells result (number < end) }
{
    number < end
}

// Whether all numbers are.
fn are_below(numbers: &[u64], end: u64) -> bool
    ensures { Tells result (All (λ n. n < end) numbers.now) }
{
    for number in numbers {
        if !is_below(*number, end) {
            return false;
        }
    }
    true
}

// Whether a client that keeps this has as many rows as it began, of ids that it used.
fn has_its_rows(keeping: &Keeping, ids: &[u64]) -> bool
    ensures { Tells result (HasItsRows keeping.now.ids keeping.now.rows ids.now) }
{
    if ids.len() as u64 != keeping.rows() {
        return false;
    }
    are_below(ids, keeping.ids())
}

// Whether a client enters its nodes, and has the rows of these.
fn enters_its_own(
    alloc: Global,
    subject: &Subject<'_>,
    client: u8,
    places: &RowPlaces,
    ids: &PlaceLists,
) -> Result<bool, AllocError>
    requires walker { client < length subject.now.report.clients }
    requires places { AreRowPlaces subject.now.report.rows places.now }
    requires ids { AreRowIds subject.now.script subject.now.report.rows ids.now }
    ensures { IfOk result (λ b. Tells b (EntersItsOwn subject.now.script subject.now.report client)) }
{
    subject.agrees();
    match walk(alloc, subject, client, places)? {
        Some(keeping) => Ok(has_its_rows(&keeping, ids.places(client))),
        None => Ok(false),
    }
}

// Whether all clients do.
fn enter_their_own(
    alloc: Global,
    subject: &Subject<'_>,
    places: &RowPlaces,
    ids: &PlaceLists,
) -> Result<bool, AllocError>
    requires places { AreRowPlaces subject.now.report.rows places.now }
    requires ids { AreRowIds subject.now.script subject.now.report.rows ids.now }
    ensures { IfOk result (λ b. Tells b (EntersItsNodes subject.now.script subject.now.report)) }
{
    for client in 0..subject.clients() {
        if !enters_its_own(alloc, subject, client, places, ids)? {
            return Ok(false);
        }
    }
    Ok(true)
}

/// Whether a report that keeps the first four rules keeps the fifth one, at the account with the nodes of its commands: each id is
/// that of a command's node, with the floor and the wants that its client had, and each row is for one of these.
pub fn keeps_fifth(alloc: Global, subject: &Subject<'_>) -> Result<bool, AllocError>
    requires { Rule4 subject.now.script subject.now.report (account_of subject.now.script subject.now.report no_nodes) }
    ensures { IfOk result (λ b. Tells b (RulesTo subject.now.script subject.now.report
        (account_of subject.now.script subject.now.report (nodes_told subject.now.script subject.now.report)) 5)) }
{
    fifth_is_entering();
    subject.agrees();
    let rows = subject.report().rows.as_slice();
    let places = RowPlaces::of_rows(alloc, rows)?;
    let ids = row_ids(alloc, subject.script(), rows)?;
    enter_their_own(alloc, subject, &places, &ids)
}
