// Where the nodes of appends stand.
use log_node::{At, Key, ListOf};

/// One colour of an appended node: the event by which its entry came, or the look that found it, and its position in the
/// line, counted from 0.
#[derive(Clone, Copy, Debug, PartialEq, Eq)]
pub struct Point {
    pub colour: u8,
    pub at: At,
    pub position: u64,
}

/// Points in rising colour.
pub type Points = ListOf<Point>;

/// Where a node stands: its key, and a point for each of its colours.
#[derive(Drop)]
pub struct Stood {
    pub key: Key,
    pub points: Points,
}
