//! Opens and closes a stamp board: the memory and the time that this takes.

use log_node::MAX_ROWS;
use stamp_board::Board;
use std::alloc::Global;
use std::io;
use std::rt::Clock;
use std::time::Instant;

// How many clients and colours the boards have.
const CLIENTS: u8 = 16;

const COLOURS: u8 = 16;

/// Says how many seats a board opens with, with one row for each client.
pub fn count<R: Print>(rt: &R, alloc: Global) -> io::Result<()> {
    let (_board, seats, columns) = Board::open(alloc, CLIENTS, COLOURS, 1)?;
    let seats = seats.as_slice().len() + columns.as_slice().len();
    println!(rt; "rows 1 seats {seats}")
}

/// Says how long opening a board takes on which each client has so many rows, and closing it with no row begun.
pub fn measure<R: Print + Clock>(rt: &R, alloc: Global, rows: u32) -> io::Result<()> {
    if rows == 0 || rows > MAX_ROWS {
        return println!(rt; "each client has 1 to {MAX_ROWS} rows");
    }
    let start = Instant::now(rt)?;
    let (board, seats, columns) = Board::open(alloc, CLIENTS, COLOURS, rows)?;
    let opening = start.elapsed(rt)?.as_micros();
    let start = Instant::now(rt)?;
    board.close(alloc, seats, columns)?;
    let closing = start.elapsed(rt)?.as_micros();
    println!(rt; "rows {rows} microseconds opening {opening} closing {closing}")
}
