// What a client has of a region.
use crate::read_view::desk::Desk;
use crate::seated::Seated;
use stamp_board::Seat;
use turn_cell::Pass;

/// A client's passes of all columns of a region, by colour.
#[derive(Drop)]
pub struct ColumnPasses {
    pub(crate) number: u8,
    pub(crate) items: Vec<Pass<Seated>>,
}

/// What a client has of a region: its passes of all columns, its seat of the board, a number above the counts of all nodes
/// that it has appended here, and by colour what it has of the columns' published copies.
#[derive(Drop)]
pub struct Hold {
    pub(crate) passes: ColumnPasses,
    pub(crate) seat: Seat,
    pub(crate) next: u64,
    pub(crate) desks: Vec<Desk>,
}
