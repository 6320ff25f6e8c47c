// The third rule, of copies: what a region holds of another's chain is the beginning of that one's line.
ghost use Rattle.std.specs.Prelude.{◌≡◌, ◌≢◌, ◌+◌, ◌*◌, ◌^◌, ◌<◌, ◌≤◌, IfSome, IsTrue, Some, slice_get};
ghost use Rattle.std.specs.List.{All};
ghost use Rattle.log_node.specs.declared.ids.Id.{Id as NodeId};
ghost use Rattle.log_node.specs.declared.ids.Counts.{Counts as NodeCounts};
ghost use Rattle.log_node.specs.Vectors.{least};
ghost use Rattle.col_core.specs.declared.Entry.{Entry as EntryMade};
ghost use Rattle.col_core.specs.History.{enters};
ghost use Rattle.col_core.specs.Cuts.{carried, needs_in, needs_of, noted_from};
ghost use Rattle.col_core.specs.Computed.{dated};
ghost use Rattle.col_core.specs.Copies.{IsTrueCopy};
ghost use Rattle.column_track.specs.Tracks.{Tells};
ghost use Rattle.walk_law.specs.Proposals.{PassesHeads, carried_by, line_heads};
ghost use Rattle.walk_law.specs.Columns.{AreCopies, AreCopiesIn, AreCopiesOf, AreTracked, IsCopyAt};

use col_core::{Entry, Event};
use column_track::Track;
use log_node::{Counts, Head, Id, Shape};
use report_text::ColumnReport;

// What the node wants that an event enters.
fn wants_in(event: &Event) -> Counts
    ensures { (id : NodeId) (cut : NodeCounts) → IsTrue (enters id event.now) → least result cut ≡ needs_in event.now cut }
{
    match event {
        Event::Single { wants, .. } | Event::Propose { wants, .. } => *wants,
        Event::Settle { .. }
        | Event::Raise { .. }
        | Event::Give { .. }
        | Event::Carry { .. }
        | Event::Trim { .. } => Counts::zeros(),
    }
}

// What a node needs, from the event by which it entered.
fn needs_of(journal: &[Entry], track: &Track, id: Id) -> Counts
    requires { track.now.journal ≡ journal.now }
    ensures { result ≡ needs_of (dated track.now.region journal.now) id }
{
    track.agrees();
    match track.place(id) {
        Some(place) => {
            let cut = track.mark(place).cut;
            wants_in(&journal[place as usize].event).least(cut)
        }
        None => Counts::zeros(),
    }
}

// The head at a place of a column's own line.
pub(crate) fn head_at(journal: &[Entry], track: &Track, at: usize) -> Option<Head>
    requires { track.now.journal ≡ journal.now }
    ensures head { result ≡ slice_get (line_heads track.now.region journal.now) at }
    ensures within { IfSome result (λ h. at + 1 < 2 ^ 64) }
{
    let key = *track.line().get(at)?;
    let needs = needs_of(journal, track, key.id);
    Some(Head { key, needs })
}

// Whether a head is that at a place of a column's own line.
fn is_head_at(journal: &[Entry], track: &Track, at: usize, head: Head) -> bool
    requires { track.now.journal ≡ journal.now }
    ensures head { Tells result (slice_get (line_heads track.now.region journal.now) at ≡ Some head) }
    ensures within { IsTrue result → at + 1 < 2 ^ 64 }
{
    match head_at(journal, track, at) {
        Some(other) => other == head,
        None => false,
    }
}

// Goes past heads that stand in a column's own line from a place on, to the place behind them; `None` where they do not
// stand there.
fn past_heads(journal: &[Entry], track: &Track, from: usize, heads: &[Head]) -> Option<usize>
    requires { track.now.journal ≡ journal.now }
    ensures { PassesHeads (line_heads track.now.region journal.now) from heads.now result }
{
    let mut at = from;
    for head in heads {
        if !is_head_at(journal, track, at, *head) {
            return None;
        }
        at += 1;
    }
    Some(at)
}

// Goes past the heads of a region's chain that an event brings.
fn past_carried(
    journal: &[Entry],
    track: &Track,
    origin: u8,
    from: usize,
    event: &Event,
) -> Option<usize>
    requires journal { track.now.journal ≡ journal.now }
    requires origin { track.now.region ≡ origin }
    ensures { PassesHeads (line_heads origin journal.now) from (carried origin event.now) result }
{
    match event {
        Event::Carry { region, heads, .. } => {
            if *region != origin {
                return Some(from);
            }
            past_heads(journal, track, from, heads.as_slice())
        }
        Event::Single { .. }
        | Event::Propose { .. }
        | Event::Settle { .. }
        | Event::Raise { .. }
        | Event::Give { .. }
        | Event::Trim { .. } => Some(from),
    }
}

// How many nodes of a region's chain another one's journal brings, where they are the beginning of that chain.
fn copied(journal: &[Entry], track: &Track, origin: u8, copier: &[Entry]) -> Option<usize>
    requires journal { track.now.journal ≡ journal.now }
    requires origin { track.now.region ≡ origin }
    ensures { PassesHeads (line_heads origin journal.now) 0 (carried_by origin copier.now) result }
{
    let mut held = 0;
    for entry in copier {
        let Some(next) = past_carried(journal, track, origin, held, &entry.event) else {
            return None;
        };
        held = next;
    }
    Some(held)
}

// The number from which an event gives the own line to a region.
fn noted_from(event: &Event, region: u8) -> u64
    ensures { result ≡ noted_from region event.now }
{
    match event {
        Event::Give { region: to, from } => { if *to == region { *from } else { 0 } }
        Event::Single { .. }
        | Event::Propose { .. }
        | Event::Settle { .. }
        | Event::Raise { .. }
        | Event::Carry { .. }
        | Event::Trim { .. } => 0,
    }
}

// Whether a journal notes no more nodes as asked for by a region than these.
fn notes_within(journal: &[Entry], region: u8, held: u64) -> bool
    ensures { Tells result (All (λ (e : EntryMade). noted_from region e.event ≤ held) journal.now) }
{
    for entry in journal {
        if noted_from(&entry.event, region) > held {
            return false;
        }
    }
    true
}

// Whether what a region holds of another one's chain is a true copy.
fn is_true_copy(journal: &[Entry], track: &Track, origin: u8, copier: u8, copies: &[Entry]) -> bool
    requires journal { track.now.journal ≡ journal.now }
    requires origin { track.now.region ≡ origin }
    requires apart { origin ≢ copier }
    ensures { Tells result (IsTrueCopy origin copier (dated origin journal.now) (dated copier copies.now)) }
{
    match copied(journal, track, origin, copies) {
        Some(held) => notes_within(journal, copier, held as u64),
        None => false,
    }
}

/// The place of a column among all, which stand by region and then colour.
pub(crate) fn column_place(colours: u8, region: u8, colour: u8) -> usize
    ensures { result ≡ region * colours + colour }
{
    region as usize * colours as usize + colour as usize
}

// The same for two regions, which may be one.
fn is_copy_at(
    columns: &[ColumnReport],
    tracks: &[Track],
    shape: &Shape,
    colour: u8,
    origin: u8,
    copier: u8,
) -> bool
    requires tracked { AreTracked shape.now.regions shape.now.colours columns.now tracks.now }
    requires colour { colour < shape.now.colours }
    requires origin { origin < shape.now.regions }
    requires copier { copier < shape.now.regions }
    ensures { Tells result (IsCopyAt shape.now.colours columns.now colour origin copier) }
{
    if origin == copier {
        return true;
    }
    let from = column_place(shape.colours, origin, colour);
    let to = column_place(shape.colours, copier, colour);
    let column = &columns[from];
    let track = &tracks[from];
    let other = &columns[to];
    let journal = column.journal.as_slice();
    let copies = other.journal.as_slice();
    is_true_copy(journal, track, origin, copier, copies)
}

// The same for all regions that hold something of one.
fn are_copies_of(
    columns: &[ColumnReport],
    tracks: &[Track],
    shape: &Shape,
    colour: u8,
    origin: u8,
) -> bool
    requires tracked { AreTracked shape.now.regions shape.now.colours columns.now tracks.now }
    requires colour { colour < shape.now.colours }
    requires origin { origin < shape.now.regions }
    ensures { Tells result (AreCopiesOf shape.now.regions shape.now.colours columns.now colour origin) }
{
    for copier in 0..shape.regions {
        if !is_copy_at(columns, tracks, shape, colour, origin, copier) {
            return false;
        }
    }
    true
}

// The same for all regions of a colour.
fn are_copies_in(columns: &[ColumnReport], tracks: &[Track], shape: &Shape, colour: u8) -> bool
    requires tracked { AreTracked shape.now.regions shape.now.colours columns.now tracks.now }
    requires colour { colour < shape.now.colours }
    ensures { Tells result (AreCopiesIn shape.now.regions shape.now.colours columns.now colour) }
{
    for origin in 0..shape.regions {
        if !are_copies_of(columns, tracks, shape, colour, origin) {
            return false;
        }
    }
    true
}

/// Whether all that regions hold of one another's chains are true copies.
pub(crate) fn are_copies(columns: &[ColumnReport], tracks: &[Track], shape: &Shape) -> bool
    requires { AreTracked shape.now.regions shape.now.colours columns.now tracks.now }
    ensures { Tells result (AreCopies shape.now.regions shape.now.colours columns.now) }
{
    for colour in 0..shape.colours {
        if !are_copies_in(columns, tracks, shape, colour) {
            return false;
        }
    }
    true
}
