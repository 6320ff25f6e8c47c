// Marks that columns set.
ghost use Rattle.std.specs.Prelude.{◌≡◌, ◌≢◌};
ghost use Rattle.log_node.specs.Marks.{IsStamp, MatchMarked};
ghost use Rattle.stamp_board.specs.Rows.{IsRow};
ghost use Rattle.stamp_board.specs.Views.{KnowsColour, KnowsMark};
ghost use Rattle.stamp_board.specs.Seats.{IsColumnOf, IsLaterColumn, SetsMark, MarkStood, column_seen, set_mark};

use crate::board::Board;
use crate::seats::ColumnSeat;
use crate::words::{mark_of, word_of_why};
use log_node::{Mark, Marked, Row, Why};

impl Board {
    /// Sets the mark of the seat's colour to a number, where it was not set.
    pub fn mark(&self, seat: &mut ColumnSeat, row: Row, number: u64) -> Marked
        requires seat { IsColumnOf self.now seat.old }
        requires row { IsRow self.now.size row }
        requires begun { KnowsColour (column_seen seat.old) row seat.old.colour }
        requires number { IsStamp number }
        ensures seat { IsLaterColumn seat.old seat.new }
        ensures value { MatchMarked result
            (SetsMark seat.old seat.new row (Mark.Number number)) (MarkStood seat.old seat.new row) }
        ensures known { KnowsMark (column_seen seat.new) row seat.old.colour (set_mark seat.new row) }
    {
        let found = self.set_mark(&mut seat.inner, row, seat.colour, number + 2);
        if found == 0 {
            Marked::Set
        } else {
            Marked::Already(mark_of(found))
        }
    }

    /// Fences the mark of the seat's colour, where it was not set. The answer is the mark that stands afterwards.
    pub fn fence(&self, seat: &mut ColumnSeat, row: Row, why: Why) -> Mark
        requires seat { IsColumnOf self.now seat.old }
        requires row { IsRow self.now.size row }
        requires begun { KnowsColour (column_seen seat.old) row seat.old.colour }
        ensures seat { IsLaterColumn seat.old seat.new }
        ensures fenced { set_mark seat.old row ≡ Mark.None → result ≡ Mark.Fenced why }
        ensures set { set_mark seat.old row ≡ Mark.None → SetsMark seat.old seat.new row result }
        ensures already { set_mark seat.old row ≢ Mark.None → MarkStood seat.old seat.new row result }
        ensures known { KnowsMark (column_seen seat.new) row seat.old.colour result }
    {
        let new = word_of_why(why);
        let found = self.set_mark(&mut seat.inner, row, seat.colour, new);
        if found == 0 {
            Mark::Fenced(why)
        } else {
            mark_of(found)
        }
    }
}
