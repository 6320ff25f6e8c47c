// The seats of a board.
ghost use Rattle.std.specs.Prelude.{◌≡◌, ◌≢◌, ℕ, ◌+◌, ◌*◌, ◌<◌, ◌≤◌, []};
ghost use Rattle.stamp_board.specs.Words.{word_at};
ghost use Rattle.stamp_board.specs.Views.{at};

use crate::view::View;
use log_node::{ListOf, Node};

/// What one thread knows of a board. A client's seat also begins that client's rows.
#[derive(Drop)]
pub struct Seat {
    pub(crate) client: u8,
    pub(crate) used: u32,
    pub(crate) inner: atomic_table::Seat<Node, View>,
    ghost empty: { inner.me.1 ≡ [] },
    ghost few: { used ≤ inner.me.0.size.rows },
    ghost begun: { (j : ℕ)
        → at inner.me.0.mine (word_at inner.me.0.size (client * inner.me.0.size.rows + j) 0) ≢ 0 → j < used },
    ghost all: { (j : ℕ) → j < used
        → at inner.me.0.mine (word_at inner.me.0.size (client * inner.me.0.size.rows + j) 0) ≢ 0 },
}

/// What a column knows of its region's board. It alone sets the marks of its colour.
#[derive(Drop)]
pub struct ColumnSeat {
    pub(crate) colour: u8,
    pub(crate) inner: atomic_table::Seat<Node, View>,
    ghost empty: { inner.me.1 ≡ [] },
    ghost inside: { colour < inner.me.0.size.colours },
    ghost low: { inner.me.0.low ≡ 1 + inner.me.0.size.clients + colour },
    ghost high: { inner.me.0.high ≡ inner.me.0.low + 1 },
}

/// The seats of all clients, by number.
pub type Seats = ListOf<Seat>;

/// The seats of all columns, by colour.
pub type ColumnSeats = ListOf<ColumnSeat>;
