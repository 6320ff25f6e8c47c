// Events and looks that an answer names.
ghost use Rattle.std.specs.Prelude.{◌≡◌, ◌<◌, ◌≤◌, length};
ghost use Rattle.std.specs.List.{All};
ghost use Rattle.column_track.specs.Tracks.{Tells};
ghost use Rattle.run_rules.specs.Naming.{CarriesOf, EntersOf, GivesTo, Has, IsRaise, IsTrim};
ghost use Rattle.walk_law.specs.Fourth.{IsNamed, IsOfKind};

use col_core::{Entry, Event};
use log_node::At;

/// The kind of an event that an answer names.
#[derive(Clone, Copy)]
pub(crate) enum Kind {
    /// An id of this client enters.
    Entry(u8),
    Raise,
    /// It gives to this region.
    Give(u8),
    /// It carries nodes of this region.
    Carry(u8),
    Trim,
}

// Whether an id of the client enters by an event.
fn enters_of(event: &Event, client: u8) -> bool
    ensures { Tells result (EntersOf client event.now) }
{
    match event {
        Event::Single { id, .. } | Event::Propose { id, .. } => id.client == client,
        Event::Settle { .. }
        | Event::Raise { .. }
        | Event::Give { .. }
        | Event::Carry { .. }
        | Event::Trim { .. } => false,
    }
}

// Whether an event raises the clock.
fn is_raise(event: &Event) -> bool
    ensures { Tells result (IsRaise event.now) }
{
    matches!(event, Event::Raise { .. })
}

// Whether an event gives to the region.
fn gives_to(event: &Event, to: u8) -> bool
    ensures { Tells result (GivesTo to event.now) }
{
    match event {
        Event::Give { region, .. } => *region == to,
        Event::Single { .. }
        | Event::Propose { .. }
        | Event::Settle { .. }
        | Event::Raise { .. }
        | Event::Carry { .. }
        | Event::Trim { .. } => false,
    }
}

// Whether an event carries nodes of the region.
fn carries_of(event: &Event, of: u8) -> bool
    ensures { Tells result (CarriesOf of event.now) }
{
    match event {
        Event::Carry { region, .. } => *region == of,
        Event::Single { .. }
        | Event::Propose { .. }
        | Event::Settle { .. }
        | Event::Raise { .. }
        | Event::Give { .. }
        | Event::Trim { .. } => false,
    }
}

// Whether an event trims.
fn is_trim(event: &Event) -> bool
    ensures { Tells result (IsTrim event.now) }
{
    matches!(event, Event::Trim { .. })
}

// Whether an event is of this kind.
fn is_of_kind(event: &Event, kind: Kind) -> bool
    ensures { Tells result (IsOfKind kind event.now) }
{
    match kind {
        Kind::Entry(client) => enters_of(event, client),
        Kind::Raise => is_raise(event),
        Kind::Give(region) => gives_to(event, region),
        Kind::Carry(region) => carries_of(event, region),
        Kind::Trim => is_trim(event),
    }
}

// Whether an entry is an event of this kind by the client itself.
fn is_by(entry: &Entry, client: u8, kind: Kind) -> bool
    ensures { Tells result ((entry.now.by ≡ client) × IsOfKind kind entry.now.event) }
{
    if entry.by != client {
        return false;
    }
    is_of_kind(&entry.event, kind)
}

// Whether such an event is at a place of a journal.
fn has(journal: &[Entry], client: u8, kind: Kind, place: u64) -> bool
    ensures { Tells result (Has client journal.now (IsOfKind kind) place) }
{
    match journal.get(place as usize) {
        Some(entry) => is_by(entry, client, kind),
        None => false,
    }
}

/// Whether such events are at all these places.
pub(crate) fn have_all(journal: &[Entry], client: u8, kind: Kind, places: &[u64]) -> bool
    ensures { Tells result (All (Has client journal.now (IsOfKind kind)) places.now) }
{
    for place in places {
        if !has(journal, client, kind, *place) {
            return false;
        }
    }
    true
}

/// Whether a look is at no fewer events than were seen, and at no more than there are.
pub(crate) fn is_look(journal: &[Entry], seen: u128, events: u64) -> bool
    ensures { Tells result ((seen ≤ events) × (events ≤ length journal.now)) }
{
    if (events as u128) < seen {
        return false;
    }
    events <= journal.len() as u64
}

/// Whether at a place of a journal that was not seen before is such an event, or a look is at no fewer events than were seen.
pub(crate) fn is_named(journal: &[Entry], client: u8, seen: u128, kind: Kind, at: At) -> bool
    ensures { Tells result (IsNamed client seen journal.now (IsOfKind kind) at) }
{
    match at {
        At::Event(place) => {
            if (place as u128) < seen {
                return false;
            }
            has(journal, client, kind, place)
        }
        At::Look(events) => is_look(journal, seen, events),
    }
}

// Whether a place was not seen before.
fn is_unseen(place: u64, seen: u128) -> bool
    ensures { Tells result (seen ≤ place) }
{
    seen <= place as u128
}

/// Whether none of these places was seen before.
pub(crate) fn are_unseen(places: &[u64], seen: u128) -> bool
    ensures { Tells result (All (λ p. seen ≤ p) places.now) }
{
    for place in places {
        if !is_unseen(*place, seen) {
            return false;
        }
    }
    true
}
