// The steps of the world, and their replies.
use log_node::{Colours, Counts, Id, Mark, Outcome, Row, Text, Why};

/// A step of the world. Where its guard fails it changes nothing.
#[derive(Drop)]
pub enum Step {
    /// The client begins a row, for an append to these colours.
    Begin {
        client: u8,
        colours: Colours,
        text: Text,
    },
    /// The colour's column gives the row a tentative stamp, which is its mark.
    Propose {
        by: u8,
        row: Row,
        colour: u8,
    },
    /// The colour's mark is a fence.
    Fence {
        row: Row,
        colour: u8,
        why: Why,
    },
    /// The row keeps the outcome of its marks.
    Decide {
        row: Row,
    },
    /// The colour's column settles the row's node with the outcome that the row keeps.
    Settle {
        by: u8,
        row: Row,
        colour: u8,
    },
    /// The client appends to one colour.
    Single {
        client: u8,
        colour: u8,
        text: Text,
    },
    /// The column's clock is raised.
    Raise {
        by: u8,
        region: u8,
        colour: u8,
        to: u64,
    },
    /// The origin's column gives its own line, from a number on, to the region, which holds all below.
    Give {
        by: u8,
        origin: u8,
        region: u8,
        colour: u8,
        from: u64,
    },
    /// The region's column carries what it lacks of this many nodes of the origin's line, from a position on.
    Carry {
        by: u8,
        origin: u8,
        region: u8,
        colour: u8,
        start: u64,
        count: u64,
    },
    /// The column is trimmed up to these counts, as far as that may be.
    Trim {
        by: u8,
        region: u8,
        colour: u8,
        counts: Counts,
    },
    /// The client plays what the column's cut has, from where it has played.
    Play {
        client: u8,
        colour: u8,
    },
    /// The client has seen a stamp of a column of its region.
    Seen {
        client: u8,
        to: u64,
    },
}

/// The reply to a step.
#[derive(Clone, Copy, Debug, PartialEq, Eq)]
pub enum Reply {
    /// The guard failed; or the step was `Seen`.
    Nothing,
    /// The row that is begun, and the id of its node.
    Begun { row: Row, id: Id },
    /// The place of the event in its column's history, counted from 0, and the stamp that it gave, else 0.
    Event { place: u64, stamp: u64 },
    /// The mark that was set.
    Marked(Mark),
    /// The outcome with which the row is decided.
    Decided(Outcome),
    /// The cut up to which the client has played.
    Played { cut: Counts },
}
