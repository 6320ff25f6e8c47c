// Why a call of a client did nothing.
use log_node::Counts;

/// Why a sync played nothing.
#[derive(Clone, Copy, Debug, PartialEq, Eq)]
pub enum SyncFault {
    /// A node of the colour that was not played is trimmed: the client's counts are not all within the base.
    Trimmed { colour: u8, base: Counts },
    /// Memory was refused.
    NoMemory,
}

/// Why nothing was trimmed.
#[derive(Clone, Copy, Debug, PartialEq, Eq)]
pub enum TrimFault {
    /// The snapshot is of another column: of this region and colour.
    OtherColumn { region: u8, colour: u8 },
    /// Memory was refused.
    NoMemory,
}
