// Where the points of an append say that its node entered and stands.
ghost use Rattle.std.specs.Prelude.{◌≡◌};
ghost use Rattle.std.specs.List.{All};
ghost use Rattle.col_core.specs.History.{line};
ghost use Rattle.col_core.specs.Keeping.{Kept};
ghost use Rattle.lawful_run.specs.Callers.{caller_of};
ghost use Rattle.column_track.specs.Tracks.{Tells};
ghost use Rattle.run_rules.specs.Telling.{replies_to};
ghost use Rattle.walk_law.specs.Fifth.{next_id};
ghost use Rattle.walk_law.specs.Keepings.{IsCounted};
ghost use Rattle.walk_law.specs.Sixth.{EntersOnlyAt, GaveStamp, HasEnteredBy, IsHelped, IsInLine, IsProposedBy, ProposesNext, StandsThere};
ghost use Rattle.walk_law.specs.Walking.{journal_walked, log_walked};

use crate::keeping::Keeping;
use crate::subject::Subject;
use col_core::{Entry, Event};
use log_node::{At, Id, Key};
use report_text::PointPiece;

// COLUMNS

// The line of a column; none where it is not of the shape.
fn line_of<'s>(subject: &'s Subject<'_>, region: u8, colour: u8) -> &'s [Key]
    ensures { result.now ≡ line (journal_walked subject.now region colour) }
{
    if !subject.has_column(region, colour) {
        return &[];
    }
    subject.track(region, colour).line()
}

// The place of the event of a column by which an id enters, if one does.
fn place_of(subject: &Subject<'_>, region: u8, colour: u8, id: Id) -> Option<u64>
    ensures { EntersOnlyAt (journal_walked subject.now region colour) id result }
{
    if !subject.has_column(region, colour) {
        return None;
    }
    let track = subject.track(region, colour);
    track.agrees();
    track.place(id)
}

// AT A POINT

// Whether an event proposes the client's next node.
fn proposes_next(
    subject: &Subject<'_>,
    client: u8,
    keeping: &Keeping,
    colour: u8,
    event: &Event,
) -> bool
    ensures { (kept : Kept) → IsCounted (replies_to subject.now.report client) kept keeping.now → Tells result
        (ProposesNext (caller_of subject.now.script client) kept colour event.now) }
{
    match event {
        Event::Propose { id, floor, wants } => {
            *id == keeping.next_id(client)
                && *floor == keeping.floor()
                && *wants == keeping.start(colour)
        }
        Event::Single { .. }
        | Event::Settle { .. }
        | Event::Raise { .. }
        | Event::Give { .. }
        | Event::Carry { .. }
        | Event::Trim { .. } => false,
    }
}

// Whether an event of another client does.
fn is_helped(
    subject: &Subject<'_>,
    client: u8,
    keeping: &Keeping,
    colour: u8,
    entry: &Entry,
) -> bool
    ensures { (kept : Kept) → IsCounted (replies_to subject.now.report client) kept keeping.now → Tells result
        (IsHelped (caller_of subject.now.script client) kept colour entry.now) }
{
    if entry.by == client {
        return false;
    }
    proposes_next(subject, client, keeping, colour, &entry.event)
}

/// The place at which that node enters a column, if it does.
pub(crate) fn next_place(
    subject: &Subject<'_>,
    client: u8,
    own: u8,
    keeping: &Keeping,
    colour: u8,
) -> Option<u64>
    requires own { own ≡ (caller_of subject.now.script client).own }
    ensures { (kept : Kept) → IsCounted (replies_to subject.now.report client) kept keeping.now → EntersOnlyAt
        (journal_walked subject.now (caller_of subject.now.script client).own colour)
        (next_id (caller_of subject.now.script client) kept) result }
{
    place_of(subject, own, colour, keeping.next_id(client))
}

// Whether it was proposed by the event at a place.
fn is_proposed_at(
    subject: &Subject<'_>,
    client: u8,
    own: u8,
    keeping: &Keeping,
    colour: u8,
    place: u64,
) -> bool
    requires own { own ≡ (caller_of subject.now.script client).own }
    ensures { (kept : Kept) → IsCounted (replies_to subject.now.report client) kept keeping.now → Tells result
        (IsProposedBy (log_walked subject.now) (caller_of subject.now.script client) kept colour (At.Event place)) }
{
    match subject.journal(own, colour).get(place as usize) {
        Some(entry) => proposes_next(subject, client, keeping, colour, &entry.event),
        None => false,
    }
}

// Whether it was by one of another client, among so many first events.
fn is_proposed_before(
    subject: &Subject<'_>,
    client: u8,
    own: u8,
    keeping: &Keeping,
    colour: u8,
    seen: u64,
) -> bool
    requires own { own ≡ (caller_of subject.now.script client).own }
    ensures { (kept : Kept) → IsCounted (replies_to subject.now.report client) kept keeping.now → Tells result
        (IsProposedBy (log_walked subject.now) (caller_of subject.now.script client) kept colour (At.Look seen)) }
{
    let Some(place) = next_place(subject, client, own, keeping, colour) else {
        return false;
    };
    if place >= seen {
        return false;
    }
    match subject.journal(own, colour).get(place as usize) {
        Some(entry) => is_helped(subject, client, keeping, colour, entry),
        None => false,
    }
}

// Whether an event stands at a place, and gave the stamp.
fn gave_stamp(subject: &Subject<'_>, client: u8, own: u8, stamp: u64, colour: u8, at: At) -> bool
    requires own { own ≡ (caller_of subject.now.script client).own }
    ensures { Tells result (GaveStamp (log_walked subject.now) (caller_of subject.now.script client) stamp colour at) }
{
    match at {
        At::Event(place) => subject.stamp_at(own, colour, place) == stamp,
        At::Look(_) => false,
    }
}

// Whether the client's next node entered as a point says.
fn has_entered_by(
    subject: &Subject<'_>,
    client: u8,
    own: u8,
    keeping: &Keeping,
    stamp: u64,
    row: Option<u32>,
    point: PointPiece,
) -> bool
    requires own { own ≡ (caller_of subject.now.script client).own }
    ensures { (kept : Kept) → IsCounted (replies_to subject.now.report client) kept keeping.now → Tells result
        (HasEnteredBy (log_walked subject.now) (caller_of subject.now.script client) kept stamp row point) }
{
    let colour = point.colour;
    match row {
        None => gave_stamp(subject, client, own, stamp, colour, point.at),
        Some(_) => match point.at {
            At::Event(place) => is_proposed_at(subject, client, own, keeping, colour, place),
            At::Look(seen) => is_proposed_before(subject, client, own, keeping, colour, seen),
        },
    }
}

// Whether it stands under the stamp at a point's position of the line.
fn is_in_line(
    subject: &Subject<'_>,
    client: u8,
    own: u8,
    keeping: &Keeping,
    stamp: u64,
    point: PointPiece,
) -> bool
    requires own { own ≡ (caller_of subject.now.script client).own }
    ensures { (kept : Kept) → IsCounted (replies_to subject.now.report client) kept keeping.now → Tells result
        (IsInLine (log_walked subject.now) (caller_of subject.now.script client) kept stamp point) }
{
    let id = keeping.next_id(client);
    match line_of(subject, own, point.colour).get(point.position as usize) {
        Some(key) => *key == Key { stamp, id },
        None => false,
    }
}

// Whether it entered and stands where a point says.
fn stands_there(
    subject: &Subject<'_>,
    client: u8,
    own: u8,
    keeping: &Keeping,
    stamp: u64,
    row: Option<u32>,
    point: PointPiece,
) -> bool
    requires own { own ≡ (caller_of subject.now.script client).own }
    ensures { (kept : Kept) → IsCounted (replies_to subject.now.report client) kept keeping.now → Tells result
        (StandsThere (log_walked subject.now) (caller_of subject.now.script client) kept stamp row point) }
{
    if !has_entered_by(subject, client, own, keeping, stamp, row, point) {
        return false;
    }
    is_in_line(subject, client, own, keeping, stamp, point)
}

/// Whether it does so at all points.
pub(crate) fn stand_there(
    subject: &Subject<'_>,
    client: u8,
    own: u8,
    keeping: &Keeping,
    stamp: u64,
    row: Option<u32>,
    points: &[PointPiece],
) -> bool
    requires own { own ≡ (caller_of subject.now.script client).own }
    ensures { (kept : Kept) → IsCounted (replies_to subject.now.report client) kept keeping.now → Tells result
        (All (StandsThere (log_walked subject.now) (caller_of subject.now.script client) kept stamp row) points.now) }
{
    for point in points {
        if !stands_there(subject, client, own, keeping, stamp, row, *point) {
            return false;
        }
    }
    true
}
