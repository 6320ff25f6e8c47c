// Why a node did not enter a column.

/// Why a node did not enter. The column is then as before.
#[derive(Clone, Copy, Debug, PartialEq, Eq)]
pub enum ColumnFault {
    /// No stamp is left: the greater of the clock and the node's floor, `clock`, is the last one.
    StampEnd { clock: u64 },
    /// Memory was refused.
    NoMemory,
}

/// Why a node did not enter that may stand next alone. The column is then as before.
#[derive(Clone, Copy, Debug, PartialEq, Eq)]
pub enum OnlyFault {
    /// The line has `length` nodes, and `waiting` entries are open, after `events` events: it is not as the node wants
    /// it, or one of them may come before the node.
    Moved {
        length: u64,
        waiting: u64,
        events: u64,
    },
    /// No stamp is left in this colour: the greater of the clock and the node's floor, `clock`, is the last one.
    StampEnd {
        colour: u8,
        clock: u64,
    },
    /// Memory was refused.
    NoMemory,
}
