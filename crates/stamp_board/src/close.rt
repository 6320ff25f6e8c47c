// The end of a board.
ghost use Rattle.std.specs.Prelude.{◌≡◌, [], List, ℕ, map, length, ◌++◌, IfOk, OnOk};
ghost use Rattle.std.specs.Mem.Slots.{slots_items};
ghost use Rattle.stamp_board.specs.Law.{Fits, Lawful};
ghost use Rattle.stamp_board.specs.Seats.{AreClientsOf, AreColumnsOf};
ghost use Rattle.stamp_board.specs.Closing.{Closes, all_begun, closed_row, rows_begun};
ghost use Rattle.stamp_board.specs.declared.view.View.{View};

use crate::board::Board;
use crate::closed_words::ClosedWords;
use crate::rows::ClosedRows;
use crate::seats::{ColumnSeats, Seat, Seats};
use crate::steps::Inner;
use log_node::Row;
use std::alloc::{AllocError, Global};

// Adds the rows that the seat has begun.
fn push_begun(rows: &mut Vec<Row>, seat: &Seat) -> Result<(), AllocError>
    ensures { OnOk result (rows.new.items ≡ rows.old.items ++ rows_begun seat.now) }
{
    for number in 0..seat.used {
        rows.push(Row {
            client: seat.client,
            number,
        })?;
    }
    Ok(())
}

// The rows that the seats have begun, by client and number.
fn begun_rows(alloc: Global, seats: &[Seat]) -> Result<Vec<Row>, AllocError>
    ensures { IfOk result (λ rows. rows.items ≡ all_begun seats.now) }
{
    let mut rows = Vec::new(alloc);
    for i in 0..seats.len() {
        push_begun(&mut rows, &seats[i])?;
    }
    Ok(rows)
}

impl Board {
    fn finish(self, last: Inner) -> ClosedWords
        requires seat { (last.table_id ≡ self.table.shared.table_id) × (last.me.1 ≡ []) }
        ensures size { result.size ≡ self.size }
        ensures words { let ws = slots_items result.closed.words in
            Lawful self.size ws × Fits self.size ws last.me.0 }
    {
        let Board { table, size } = self;
        let closed = table.close_with(last);
        ClosedWords { size, closed }
    }

    /// The begun rows with their closing marks and outcomes, by client and number. All that the seats knew stands
    /// there, a colour's mark is set exactly where that colour's seat had set it, and a client's rows are begun
    /// exactly below what its seat has used. Where memory is refused, the board and its seats are gone. The words of
    /// the begun rows are read, and no others; then the board's memory is given back.
    pub fn close(
        self,
        alloc: Global,
        seats: Seats,
        columns: ColumnSeats,
    ) -> Result<ClosedRows, AllocError>
        requires counts { (length seats ≡ self.size.clients) × (length columns ≡ self.size.colours) }
        requires seats { AreClientsOf self seats }
        requires columns { AreColumnsOf self columns }
        ensures { IfOk result (λ rows. (ws : List ℕ) × (v : View) × Closes self.size ws v seats columns
            × (rows ≡ map (closed_row self.size ws) (all_begun seats))) }
    {
        let begun = begun_rows(alloc, seats.as_slice())?;
        let last = self.gather_all(seats.into_vec(), columns.into_vec());
        let words = self.finish(last);
        let rows = words.rows(alloc, begun.as_slice());
        words.free();
        rows
    }
}
