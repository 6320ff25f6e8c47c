// What the row of a command tells: of which object it is, which node it appends, and what it says.
use log_node::{Colours, Pair, Text};

/// What a command does with the read of its object that a commit may use up.
#[derive(Clone, Copy, Debug, PartialEq, Eq)]
pub enum ReadUse {
    /// Nothing.
    Leaves,
    /// It lets an earlier one go, and leaves one where it is answered.
    Takes,
    /// It uses it up, whatever it is answered.
    UsesUp,
}

/// What a command has to do with an object.
#[derive(Clone, Copy, Debug, PartialEq, Eq)]
pub enum Use {
    /// It is of none; it may be the last of its client.
    OfLog { stops: bool },
    /// It is of this one.
    OfObject { object: u8, read: ReadUse },
}

/// Which node a command appends.
#[derive(Clone, Copy)]
pub enum NodeOf {
    /// None.
    NoNode,
    /// One of one colour.
    OneColour,
    /// One of the colours that it names.
    Named { colours: Colours },
    /// One that has several colours, or as many as its object tells.
    Several,
}

/// What a command says, beside what it is about: its colours, a region, or its object.
#[derive(Clone, Copy)]
pub enum Content<'a> {
    Nothing,
    /// A node's text.
    Text(&'a [u8]),
    Key(&'a [u8]),
    Value(&'a [u8]),
    /// A key and its value.
    Pair(&'a [u8], &'a [u8]),
    Keys(&'a [Text]),
    Pairs(&'a [Pair]),
    /// A path below the root.
    Path(&'a [u8]),
    /// A path, which may be the root.
    Folder(&'a [u8]),
    /// A path below the root, and its value.
    PathValue(&'a [u8], &'a [u8]),
    /// A path below the root, and another one.
    Paths(&'a [u8], &'a [u8]),
}
