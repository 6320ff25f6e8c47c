// What a picture of a run is made of.
use log_node::{Counts, Key};

/// A place in the picture: which stamp of the axis, which lane, and how far down in the lane.
#[derive(Clone, Copy)]
pub struct Spot {
    pub slot: u8,
    pub lane: u16,
    pub depth: u8,
}

/// What a node is in its column in the end: it stands in the line, was trimmed from this copy, is final behind an open
/// one, or is open itself.
#[derive(Clone, Copy)]
pub enum Kind {
    Stands,
    Trimmed,
    Waits,
    Open,
}

/// A node of a column, and its position in the line. One that is not in the line has the line's length.
#[derive(Clone, Copy)]
pub struct Mark {
    pub key: Key,
    pub kind: Kind,
    pub position: u64,
}

/// The box of a node of a column.
#[derive(Clone, Copy)]
pub struct NodeBox {
    pub region: u8,
    pub colour: u8,
    pub mark: Mark,
    /// What the event wanted by which it entered the column.
    pub wants: Counts,
    pub at: Spot,
    /// Another client who settled it, where there is one.
    pub helper: Option<u8>,
}

/// Why two boxes are joined: they are one node, the one is the other's predecessor in its chain, or the one's append
/// wanted the other of another region.
#[derive(Clone, Copy)]
pub enum Tie {
    Band,
    Chain,
    Edge,
}
