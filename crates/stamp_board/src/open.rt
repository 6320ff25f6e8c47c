// A board with its seats.
ghost use Rattle.std.specs.Prelude.{◌≡◌, ◌+◌, ◌<◌, [], length, replicate, IfOk};
ghost use Rattle.stamp_board.specs.Words.{words_of};
ghost use Rattle.stamp_board.specs.Rows.{IsSize};
ghost use Rattle.stamp_board.specs.Law.{PlaysOne};
ghost use Rattle.stamp_board.specs.Seats.{AreFreshClients, AreFreshColumns};
ghost use Rattle.stamp_board.specs.Inside.{HasParts};

use crate::blank::{BLANK_WORDS, blank_words};
use crate::board::Board;
use crate::seats::{ColumnSeat, ColumnSeats, Seat, Seats};
use crate::steps::Inner;
use crate::view::Size;
use atomic_table::Table;
use log_node::ListOf;
use std::alloc::{AllocError, Global};

fn words(size: Size) -> usize
    requires { IsSize size }
    ensures { result ≡ words_of size }
{
    usize::from(size.clients) * (size.rows as usize) * (usize::from(size.colours) + 2)
}

fn client_seat(client: u8, inner: Inner) -> Seat
    requires { (inner.me.1 ≡ []) × (inner.me.0.mine ≡ []) }
    ensures { (result.client ≡ client) × (result.used ≡ 0) × (result.inner ≡ inner) }
{
    Seat {
        client,
        used: 0,
        inner,
    }
}

fn column_seat(colour: u8, inner: Inner) -> ColumnSeat
    requires held { inner.me.1 ≡ [] }
    requires colour { colour < inner.me.0.size.colours }
    requires part { PlaysOne inner.me.0 (1 + inner.me.0.size.clients + colour) }
    ensures { (result.colour ≡ colour) × (result.inner ≡ inner) }
{
    ColumnSeat { colour, inner }
}

impl Board {
    // A board of these words.
    fn over(alloc: Global, size: Size, blank: &[u64]) -> Result<(Board, Inner), AllocError>
        requires size { IsSize size }
        requires blank { blank.now ≡ replicate (words_of size) 0 }
        ensures { IfOk result (λ b. (b.0.size ≡ size) × HasParts b.0 b.1 1) }
    {
        let (table, first) = Table::of_words(alloc, blank, &size)?;
        Ok((Board { table, size }, first))
    }

    // A board of words that are made for it.
    fn over_list(alloc: Global, size: Size) -> Result<(Board, Inner), AllocError>
        requires { IsSize size }
        ensures { IfOk result (λ b. (b.0.size ≡ size) × HasParts b.0 b.1 1) }
    {
        let blank = Vec::from_elem(alloc, 0, words(size))?;
        Board::over(alloc, size, blank.as_slice())
    }

    fn with_words(alloc: Global, size: Size) -> Result<(Board, Inner), AllocError>
        requires { IsSize size }
        ensures { IfOk result (λ b. (b.0.size ≡ size) × HasParts b.0 b.1 1) }
    {
        let count = words(size);
        if count > BLANK_WORDS {
            return Board::over_list(alloc, size);
        }
        Board::over(alloc, size, blank_words(count))
    }

    fn client_seats(&self, alloc: Global, first: &mut Inner) -> Result<Seats, AllocError>
        requires { HasParts self.now first.old 1 }
        ensures first { IfOk result (λ _. HasParts self.now first.new (1 + self.now.size.clients)) }
        ensures seats { IfOk result (λ seats. (length seats ≡ self.now.size.clients) × AreFreshClients self.now seats) }
    {
        let mut seats = ListOf::new(alloc);
        for client in 0..self.size.clients {
            let inner = self.deal(first);
            seats.push(client_seat(client, inner))?;
        }
        Ok(seats)
    }

    fn column_seats(&self, alloc: Global, first: &mut Inner) -> Result<ColumnSeats, AllocError>
        requires { HasParts self.now first.old (1 + self.now.size.clients) }
        ensures { IfOk result (λ seats. (length seats ≡ self.now.size.colours) × AreFreshColumns self.now seats) }
    {
        let mut seats = ListOf::new(alloc);
        for colour in 0..self.size.colours {
            let inner = self.deal(first);
            seats.push(column_seat(colour, inner))?;
        }
        Ok(seats)
    }

    /// A board whose rows are not begun, with a seat for each client and one for each colour. Each client has `rows`
    /// rows. Each word of each row is written here, so the caller asks for no more rows than can be begun.
    pub fn open(
        alloc: Global,
        clients: u8,
        colours: u8,
        rows: u32,
    ) -> Result<(Board, Seats, ColumnSeats), AllocError>
        requires size { IsSize record { clients = clients; colours = colours; rows = rows } }
        ensures size { IfOk result (λ b. b.0.size ≡ record { clients = clients; colours = colours; rows = rows }) }
        ensures seats { IfOk result (λ b. (length b.1 ≡ clients) × AreFreshClients b.0 b.1) }
        ensures columns { IfOk result (λ b. (length b.2 ≡ colours) × AreFreshColumns b.0 b.2) }
    {
        let size = Size {
            clients,
            colours,
            rows,
        };
        let (board, mut first) = Board::with_words(alloc, size)?;
        let seats = board.client_seats(alloc, &mut first)?;
        let columns = board.column_seats(alloc, &mut first)?;
        Ok((board, seats, columns))
    }
}
