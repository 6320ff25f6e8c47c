// The stamp board of one thread: the rows of a region's clients, each with a mark for every colour.
ghost use Rattle.std.specs.Prelude.{◌≡◌, ◌<◌, ◌≤◌, length, Some, IfOk, IfErr, OnOk, OnErr};
ghost use Rattle.log_node.specs.Marks.{IsStamp};
ghost use Rattle.skeen_core.specs.Boards.{Board, begun_at, next_of, HasRow, IsFull, IsRow, IsBegunWith};
ghost use Rattle.skeen_core.specs.Boards.{mark_in, outcome_in, last_in, first_mark, marked};
ghost use Rattle.skeen_core.specs.Boards.{with_mark, decided, with_changed, with_begun, fresh_row_of, empty_board};

use crate::client_rows::ClientRows;
use log_node::{Full, MAX_CLIENTS, MAX_COLOURS, MAX_ROWS, Mark, Marked, Node, Outcome, Row, Why};
use std::alloc::{AllocError, Global};
use std::marker::Model;
use std::sync::Arc;

/// A stamp board for one thread.
#[derive(Drop)]
pub struct Rows {
    colours: u8,
    rows: u32,
    clients: Vec<ClientRows>,
}

impl Model for Rows {
    ghost use Rattle.std.specs.Prelude.{◌≤◌, map};
    ghost use Rattle.skeen_core.specs.Boards.{Board, HaveRows};
    ghost use Rattle.log_node.specs.declared.limits.TheConstants.{MAX_COLOURS};

    ghost Value = { Board };

    ghost view = { λ a. record { colours = a.colours; rows = a.rows; begun = map (λ c. c.begun) a.clients.items } };

    ghost invariant = { λ a. (a.colours ≤ MAX_COLOURS) × HaveRows a.colours a.rows a.clients.items };
}

impl Rows {
    /// A board with no begun row. It takes the memory for all rows.
    pub fn open(alloc: Global, clients: u8, colours: u8, rows: u32) -> Result<Rows, AllocError>
        requires clients { clients ≤ MAX_CLIENTS }
        requires colours { colours ≤ MAX_COLOURS }
        requires rows { rows ≤ MAX_ROWS }
        ensures { IfOk result (λ board. board ≡ empty_board clients colours rows) }
    {
        let mut all = Vec::with_capacity(alloc, clients as usize)?;
        for _ in 0..clients {
            all.push(ClientRows::open(alloc, colours, rows)?)?;
        }
        Ok(Rows {
            colours,
            rows,
            clients: all,
        })
    }

    /// The row that the client begins next.
    pub fn next_row(&self, client: u8) -> Result<Row, Full>
        requires { client < length self.now.begun }
        ensures ok { IfOk result (λ row. (row ≡ next_of self.now client) × HasRow self.now client) }
        ensures full { IfErr result (λ full. IsFull self.now client full.used) }
    {
        let used = self.clients[client as usize].used();
        if used == self.rows {
            Err(Full { used })
        } else {
            Ok(Row {
                client,
                number: used,
            })
        }
    }

    /// Begins the client's next row for a node.
    pub fn begin(&mut self, client: u8, node: &Arc<Node>) -> Result<Row, Full>
        requires client { client < length self.old.begun }
        requires row { HasRow self.old client → node.now.value.row ≡ Some (next_of self.old client) }
        ensures ok { IfOk result (λ row. (row ≡ next_of self.old client) × HasRow self.old client) }
        ensures rows { OnOk result (self.new ≡ with_begun self.old client (fresh_row_of node.now.value)) }
        ensures full { IfErr result (λ full. IsFull self.old client full.used) }
        ensures err { OnErr result (self.new ≡ self.old) }
    {
        let row = self.next_row(client)?;
        self.clients[client as usize].begin(node.id, node.colours);
        Ok(row)
    }

    /// Marks a colour of a begun row with a tentative stamp, unless it is marked.
    pub fn mark(&mut self, colour: u8, row: Row, number: u64) -> Marked
        requires colour { colour < self.old.colours }
        requires row { IsBegunWith self.old row colour }
        requires number { IsStamp number }
        ensures answer { result ≡ marked (mark_in (begun_at self.old row) colour) }
        ensures rows { self.new ≡ with_changed self.old row (with_mark colour (Mark.Number number)) }
    {
        match self.set(colour, row, Mark::Number(number)) {
            Mark::None => Marked::Set,
            before => Marked::Already(before),
        }
    }

    /// Fences a colour of a begun row, unless it is marked. The answer is the mark that stands.
    pub fn fence(&mut self, colour: u8, row: Row, why: Why) -> Mark
        requires colour { colour < self.old.colours }
        requires row { IsBegunWith self.old row colour }
        ensures answer { result ≡ first_mark (mark_in (begun_at self.old row) colour) (Mark.Fenced why) }
        ensures rows { self.new ≡ with_changed self.old row (with_mark colour (Mark.Fenced why)) }
    {
        let fence = Mark::Fenced(why);
        match self.set(colour, row, fence) {
            Mark::None => fence,
            before => before,
        }
    }

    // The mark that was there before.
    fn set(&mut self, colour: u8, row: Row, mark: Mark) -> Mark
        requires colour { colour < self.old.colours }
        requires row { IsBegunWith self.old row colour }
        ensures before { result ≡ mark_in (begun_at self.old row) colour }
        ensures rows { self.new ≡ with_changed self.old row (with_mark colour mark) }
    {
        self.clients[row.client as usize].mark(row.number, colour, mark)
    }

    /// The outcome of the row's marks, kept from then on unless it is open: it is open where the row is not begun or a
    /// mark is missing. `_client` is who decides.
    pub fn decide(&mut self, _client: u8, row: Row) -> Outcome
        requires { IsRow self.old row }
        ensures outcome { result ≡ outcome_in (begun_at self.old row) }
        ensures rows { self.new ≡ with_changed self.old row decided }
    {
        self.clients[row.client as usize].decide(row.number)
    }

    /// The mark of a colour of a row; none where the row is not begun. `_client` is the reader.
    pub fn read(&self, _client: u8, row: Row, colour: u8) -> Mark
        requires row { IsRow self.now row }
        requires colour { colour < self.now.colours }
        ensures { result ≡ mark_in (begun_at self.now row) colour }
    {
        self.clients[row.client as usize].read(row.number, colour)
    }

    /// The outcome that is kept for a row; open where none is. `_client` is the reader.
    pub fn last(&self, _client: u8, row: Row) -> Outcome
        requires { IsRow self.now row }
        ensures { result ≡ last_in (begun_at self.now row) }
    {
        self.clients[row.client as usize].last(row.number)
    }
}
