// What a client has of a column's copies.
use crate::read_view::copies::Copies;
use crate::read_view::rule::ViewReader;
use std::alloc::Global;
use std::sync::atomic::{AtomicU8, AtomicU64};
use turn_cell::{Cell, Pass};

/// A column's copies beside it, and who uses the column.
#[derive(Drop)]
pub struct Share {
    pub(crate) alloc: Global,
    pub(crate) copies: Cell<Copies>,
    // None yet, one client by its number and one, or several: a hint alone.
    pub(crate) users: AtomicU8,
    // How many events were added since a look last found the turn held: a hint alone.
    pub(crate) quiet: AtomicU64,
    // How many clients there are.
    pub(crate) clients: u8,
}

/// A client's pass of the turns of the writer, and its reader, from when it first wanted one.
#[derive(Drop)]
pub struct Desk {
    pub(crate) pass: Pass<Copies>,
    pub(crate) reader: Option<ViewReader>,
}
