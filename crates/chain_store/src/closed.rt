// What a region is closed with, and what it ends with.
use crate::hold::Hold;
use column::Column;
use log_node::ListOf;
use ring_ends::Rings;
use stamp_board::ClosedRows;

/// The holds of all clients of a region, by number.
pub type Holds = ListOf<Hold>;

/// What a region ends with: its columns, by colour, the rows that were begun, by client and number, and the columns' ends of
/// their rings, by colour.
#[derive(Drop)]
pub struct ClosedRegion {
    pub columns: ListOf<Column>,
    pub rows: ClosedRows,
    pub ends: Vec<Rings>,
}
