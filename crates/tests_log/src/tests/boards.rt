// A board at its end, and the largest one.
ghost use Rattle.std.specs.Prelude.{◌≡◌, ◌≢◌, ◌+◌, ◌<◌, true, length, IfOk, IfSome};
ghost use Rattle.log_node.specs.Sets.{has};
ghost use Rattle.stamp_board.specs.Rows.{AreColours, IsRow};
ghost use Rattle.stamp_board.specs.Views.{KnowsBegun, KnowsColour, KnowsOutcome};
ghost use Rattle.stamp_board.specs.Seats.{IsSeatOf, IsClients, IsColumnOf, IsLater, IsLaterColumn, column_seen, seen};
ghost use Rattle.stamp_board.specs.Seats.{IsFreshClient, IsFreshColumn, AreFreshClients, AreFreshColumns, AreRowsBelow};
ghost use Rattle.stamp_board.specs.declared.view.Size.{Size};

use crate::tests::made::pair;
use log_node::{
    ColourMark, ListOf, MAX_CLIENTS, MAX_COLOURS, MAX_ROWS, Mark, Node, Outcome, Row, Why,
};
use stamp_board::{Board, ClosedRow, ClosedRows, ColumnSeat, ColumnSeats, Seat, Seats};
use std::alloc::{AllocError, Global};
use std::test::Fail;

fn two_clients(board: &Board, seats: Seats) -> (Seat, Seat)
    requires { AreFreshClients board.now seats × (length seats ≡ 2) }
    ensures { IsFreshClient board.now result.0 0 × IsFreshClient board.now result.1 1 }
{
    let mut seats = seats.into_vec();
    match (seats.pop(), seats.pop()) {
        (Some(two), Some(one)) => (one, two),
        _ => unreachable!(),
    }
}

fn two_columns(board: &Board, columns: ColumnSeats) -> (ColumnSeat, ColumnSeat)
    requires { AreFreshColumns board.now columns × (length columns ≡ 2) }
    ensures { IsFreshColumn board.now result.0 0 × IsFreshColumn board.now result.1 1 }
{
    let mut columns = columns.into_vec();
    match (columns.pop(), columns.pop()) {
        (Some(y), Some(x)) => (x, y),
        _ => unreachable!(),
    }
}

// The column learns of the row from the client's seat.
fn teach(board: &Board, seat: &mut Seat, column: &mut ColumnSeat, row: Row, node: &Node)
    requires seats { IsSeatOf board.now seat.old × IsColumnOf board.now column.old }
    requires begun { KnowsBegun (seen seat.old) row node.now }
    ensures seat { IsLater seat.old seat.new }
    ensures column { IsLaterColumn column.old column.new }
    ensures begun { KnowsBegun (column_seen column.new) row node.now }
{
    let note = board.tell(seat);
    board.learn(column, note);
}

// What is set in a row at one of its colours.
#[derive(Clone, Copy)]
enum Set {
    Nothing,
    Number(u8),
    Fence,
}

// Sets the column's mark so.
fn mark_with(board: &Board, column: &mut ColumnSeat, row: Row, set: Set)
    requires column { IsColumnOf board.now column.old × IsRow board.now.size row }
    requires begun { KnowsColour (column_seen column.old) row column.old.colour }
    ensures { IsLaterColumn column.old column.new }
{
    match set {
        Set::Nothing => {}
        Set::Number(number) => {
            board.mark(column, row, u64::from(number) + 1);
        }
        Set::Fence => {
            board.fence(column, row, Why::StampEnd);
        }
    }
}

// Begins the next row of the client 0 for a node of this count, sets its marks, and decides the row where that is asked. Where
// memory is refused, no row is begun.
fn add_row(
    alloc: Global,
    board: &Board,
    one: &mut Seat,
    x: &mut ColumnSeat,
    y: &mut ColumnSeat,
    count: u64,
    marks: (Set, Set),
    decides: bool,
)
    requires size { board.now.size.colours ≡ 2 }
    requires one { IsSeatOf board.now one.old × IsClients board.now one.old × (one.old.client ≡ 0) }
    requires below { AreRowsBelow one.old count }
    requires x { IsColumnOf board.now x.old × (x.old.colour ≡ 0) }
    requires y { IsColumnOf board.now y.old × (y.old.colour ≡ 1) }
    ensures one { IsSeatOf board.now one.new × IsClients board.now one.new × (one.new.client ≡ 0) }
    ensures below { AreRowsBelow one.new (count + 1) }
    ensures x { IsColumnOf board.now x.new × (x.new.colour ≡ 0) }
    ensures y { IsColumnOf board.now y.new × (y.new.colour ≡ 1) }
{
    let Ok(node) = pair(alloc, 0, count) else {
        return;
    };
    let Ok(row) = board.begin(one, &node) else {
        return;
    };
    teach(board, one, x, row, &node);
    teach(board, one, y, row, &node);
    mark_with(board, x, row, marks.0);
    mark_with(board, y, row, marks.1);
    if decides {
        board.decide(one, row);
    }
}

// Closes a board of two clients and two columns.
fn closed(
    alloc: Global,
    board: Board,
    one: Seat,
    two: Seat,
    x: ColumnSeat,
    y: ColumnSeat,
) -> Result<ClosedRows, AllocError>
    requires size { (board.size.clients ≡ 2) × (board.size.colours ≡ 2) }
    requires one { IsSeatOf board one × IsClients board one × (one.client ≡ 0) }
    requires two { IsSeatOf board two × IsClients board two × (two.client ≡ 1) }
    requires x { IsColumnOf board x × (x.colour ≡ 0) }
    requires y { IsColumnOf board y × (y.colour ≡ 1) }
{
    let mut seats = ListOf::new(alloc);
    seats.push(one)?;
    seats.push(two)?;
    let mut columns = ListOf::new(alloc);
    columns.push(x)?;
    columns.push(y)?;
    board.close(alloc, seats, columns)
}

// Whether the client 0's row with this number closed with these marks and this outcome.
fn shows(rows: &[ClosedRow], number: u32, first: Mark, second: Mark, last: Outcome) -> bool {
    let marks = [
        ColourMark {
            colour: 0,
            mark: first,
        },
        ColourMark {
            colour: 1,
            mark: second,
        },
    ];
    match rows.get(number as usize) {
        Some(closed) => {
            closed.row == Row { client: 0, number }
                && closed.marks.as_slice() == marks.as_slice()
                && closed.last == last
        }
        None => false,
    }
}

// Rows with one number, with one above it that is decided, and without any; a fence at one colour ends a row.
fn add_rows(alloc: Global, board: &Board, one: &mut Seat, x: &mut ColumnSeat, y: &mut ColumnSeat)
    requires size { board.now.size.colours ≡ 2 }
    requires one { IsSeatOf board.now one.old × IsClients board.now one.old × (one.old.client ≡ 0) }
    requires below { AreRowsBelow one.old 0 }
    requires x { IsColumnOf board.now x.old × (x.old.colour ≡ 0) }
    requires y { IsColumnOf board.now y.old × (y.old.colour ≡ 1) }
    ensures one { IsSeatOf board.now one.new × IsClients board.now one.new × (one.new.client ≡ 0) }
    ensures x { IsColumnOf board.now x.new × (x.new.colour ≡ 0) }
    ensures y { IsColumnOf board.now y.new × (y.new.colour ≡ 1) }
{
    add_row(
        alloc,
        board,
        one,
        x,
        y,
        0,
        (Set::Nothing, Set::Nothing),
        false,
    );
    add_row(
        alloc,
        board,
        one,
        x,
        y,
        1,
        (Set::Nothing, Set::Number(4)),
        true,
    );
    add_row(
        alloc,
        board,
        one,
        x,
        y,
        2,
        (Set::Number(2), Set::Number(3)),
        false,
    );
    add_row(
        alloc,
        board,
        one,
        x,
        y,
        3,
        (Set::Number(2), Set::Number(6)),
        true,
    );
    add_row(
        alloc,
        board,
        one,
        x,
        y,
        4,
        (Set::Fence, Set::Number(0)),
        true,
    );
}

#[test]
fn a_board_closes_with_its_open_rows_and_its_decided_ones(rt: HostRuntime) -> Result<(), Fail> {
    let alloc = rt.alloc();
    let (board, seats, columns) = Board::open(alloc, 2, 2, 8)?;
    let (mut one, two) = two_clients(&board, seats);
    let (mut x, mut y) = two_columns(&board, columns);
    add_rows(alloc, &board, &mut one, &mut x, &mut y);
    let rows = closed(alloc, board, one, two, x, y)?;
    let rows = rows.as_slice();
    let end = Why::StampEnd;
    assert!(rt; rows.len() == 5);
    assert!(rt; shows(rows, 0, Mark::None, Mark::None, Outcome::Open));
    assert!(rt; shows(rows, 1, Mark::None, Mark::Number(5), Outcome::Open));
    assert!(rt; shows(rows, 2, Mark::Number(3), Mark::Number(4), Outcome::Open));
    assert!(rt; shows(rows, 3, Mark::Number(3), Mark::Number(7), Outcome::Final(7)));
    assert!(rt;
        shows(
            rows,
            4,
            Mark::Fenced(end),
            Mark::Number(1),
            Outcome::Gone(end)
        )
    );
    Ok(())
}

// With as many clients and colours as there may be, a board may have this many rows for each client.
const MOST_ROWS: u32 = 1024;

#[test]
fn the_largest_board_opens(rt: HostRuntime) -> Result<(), Fail> {
    let (board, seats, columns) = Board::open(rt.alloc(), MAX_CLIENTS, MAX_COLOURS, MOST_ROWS)?;
    assert!(rt; board.clients() == MAX_CLIENTS);
    assert!(rt; seats.as_slice().len() == MAX_CLIENTS as usize);
    assert!(rt; columns.as_slice().len() == MAX_COLOURS as usize);
    Ok(())
}
