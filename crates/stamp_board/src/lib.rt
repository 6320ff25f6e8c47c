//! The board on which an append of several colours is decided: a row of words for each, over `atomic_table`.
#![tactic(auto)]

mod begins;
mod blank;
mod board;
mod close;
mod closed_words;
mod decide;
mod gather;
mod law;
mod marks;
mod open;
mod reads;
mod rows;
mod seats;
mod steps;
mod tells;
mod view;
mod words;

pub use board::Board;
pub use rows::{ClosedRow, ClosedRows};
pub use seats::{ColumnSeat, ColumnSeats, Seat, Seats};
pub use view::{MAX_WORDS, Size, View};
