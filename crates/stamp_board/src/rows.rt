// Rows as a board closes with them.
use log_node::{ListOf, Marks, Outcome, Row};

/// A begun row: the mark of each of its colours, the smallest colour first, and the outcome that it was decided with.
#[derive(Drop)]
pub struct ClosedRow {
    pub row: Row,
    pub marks: Marks,
    pub last: Outcome,
}

/// Closed rows, by client and number.
pub type ClosedRows = ListOf<ClosedRow>;
