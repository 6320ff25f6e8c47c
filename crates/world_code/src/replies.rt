// What the calls of a world answer, each in a type of its own, and the replies of its steps that these are.
ghost use Rattle.std.specs.Prelude.{◌≡◌};
ghost use Rattle.world_code.specs.Replies.{placed_reply, place_reply, begun_reply, marked_reply, decided_reply};
ghost use Rattle.world_code.specs.Replies.{played_reply, number_of, event_at, decided_outcome};

use log_node::{At, Counts, Id, Mark, Outcome, Row};
use world_laws::Reply;

/// Where a node entered a column: the event's place in the column's history, and the stamp that it gave.
#[derive(Clone, Copy, Debug, PartialEq)]
pub struct Placed {
    pub place: u64,
    pub stamp: u64,
}

/// A row that a client has begun, and the id of its node.
#[derive(Clone, Copy, Debug, PartialEq)]
pub struct NewRow {
    pub row: Row,
    pub id: Id,
}

/// The reply of a step that enters a node.
pub(crate) fn placed_reply(placed: Option<Placed>) -> Reply
    ensures { result ≡ placed_reply placed }
{
    match placed {
        Some(Placed { place, stamp }) => Reply::Event { place, stamp },
        None => Reply::Nothing,
    }
}

/// The reply of a step that adds an event without a stamp at this place.
pub(crate) fn place_reply(place: Option<u64>) -> Reply
    ensures { result ≡ place_reply place }
{
    match place {
        Some(place) => Reply::Event { place, stamp: 0 },
        None => Reply::Nothing,
    }
}

/// The reply of a step that begins a row.
pub(crate) fn begun_reply(begun: Option<NewRow>) -> Reply
    ensures { result ≡ begun_reply begun }
{
    match begun {
        Some(NewRow { row, id }) => Reply::Begun { row, id },
        None => Reply::Nothing,
    }
}

/// The reply of a step that sets a mark.
pub(crate) fn marked_reply(mark: Option<Mark>) -> Reply
    ensures { result ≡ marked_reply mark }
{
    match mark {
        Some(mark) => Reply::Marked(mark),
        None => Reply::Nothing,
    }
}

/// The reply of a step that decides a row.
pub(crate) fn decided_reply(outcome: Option<Outcome>) -> Reply
    ensures { result ≡ decided_reply outcome }
{
    match outcome {
        Some(outcome) => Reply::Decided(outcome),
        None => Reply::Nothing,
    }
}

/// The reply of a step by which a client plays.
pub(crate) fn played_reply(cut: Option<Counts>) -> Reply
    ensures { result ≡ played_reply cut }
{
    match cut {
        Some(cut) => Reply::Played { cut },
        None => Reply::Nothing,
    }
}

/// The number of events before this one, or before this look.
pub(crate) fn number_of(at: At) -> u64
    ensures { result ≡ number_of at }
{
    match at {
        At::Event(number) => number,
        At::Look(number) => number,
    }
}

/// The place of the event, if it is one.
pub(crate) fn event_at(at: At) -> Option<u64>
    ensures { result ≡ event_at at }
{
    match at {
        At::Event(place) => Some(place),
        At::Look(_) => None,
    }
}

/// The outcome, if one is told.
pub(crate) fn decided_outcome(outcome: Outcome) -> Option<Outcome>
    ensures { result ≡ decided_outcome outcome }
{
    match outcome {
        Outcome::Open => None,
        Outcome::Gone(_) => Some(outcome),
        Outcome::Final(_) => Some(outcome),
    }
}
