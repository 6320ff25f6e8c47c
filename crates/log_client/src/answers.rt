// What a client's calls answer.
use append_core::Stood;
use log_node::{At, Id, Items, ListOf};
use playback::Snapshot;

/// A node that was appended: its id, the number of its row where it took one, and where it stands.
#[derive(Drop)]
pub struct Appended {
    pub id: Id,
    pub row: Option<u32>,
    pub stood: Stood,
}

/// A sync: after how many events it looked, its snapshot, and which stretch of the client's played nodes it played: the
/// place of its first, counted from 0, and how many.
#[derive(Clone, Copy, Debug, PartialEq, Eq)]
pub struct Synced {
    pub events: u64,
    pub snapshot: Snapshot,
    pub first: u64,
    pub count: u64,
}

/// A raise of a colour's clock: by an event at its place, or a look at a clock that was there already.
#[derive(Clone, Copy, Debug, PartialEq, Eq)]
pub struct Raised {
    pub colour: u8,
    pub at: At,
}

/// Raises of several colours' clocks, the least colour first.
pub type Raises = ListOf<Raised>;

/// Syncs of several colours, the least colour first.
pub type Syncs = ListOf<Synced>;

/// A stamped read: its stamp, the raises and syncs of its colours, and nodes of its region's own lines of these colours
/// with stamps up to its own, each once, in rising key.
#[derive(Drop)]
pub struct StampedRead {
    pub stamp: u64,
    pub raises: Raises,
    pub syncs: Syncs,
    pub items: Items,
}
