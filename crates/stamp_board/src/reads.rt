// What stands in a row: loads of one word.
ghost use Rattle.std.specs.Prelude.{◌≡◌, ◌≢◌, ◌<◌};
ghost use Rattle.log_node.specs.Marks.{IsMark, IsOutcome};
ghost use Rattle.stamp_board.specs.Rows.{IsRow, mark_in, decided_in};
ghost use Rattle.stamp_board.specs.Views.{KnowsMark, KnowsOutcome, Possibly};
ghost use Rattle.stamp_board.specs.Seats.{IsSeatOf, IsColumnOf, IsLater, IsLaterColumn, SetsNone};
ghost use Rattle.stamp_board.specs.Seats.{seen, column_seen, set_mark};

use crate::board::Board;
use crate::seats::{ColumnSeat, Seat};
use crate::words::{mark_of, outcome_of_word};
use log_node::{Mark, Outcome, Row};

impl Board {
    /// The row's mark of the colour, as the board has it. A mark that the seat knew is the answer.
    pub fn read(&self, seat: &mut Seat, row: Row, colour: u8) -> Mark
        requires seat { IsSeatOf self.now seat.old }
        requires row { IsRow self.now.size row }
        requires colour { colour < self.now.size.colours }
        ensures seat { IsLater seat.old seat.new }
        ensures value { Possibly self.now.size (seen seat.new) (λ ws. mark_in self.now.size ws row colour ≡ result) }
        ensures known { result ≢ Mark.None → KnowsMark (seen seat.new) row colour result }
        ensures before { (m : Mark) → KnowsMark (seen seat.old) row colour m → result ≡ m }
        ensures stamp { IsMark result }
    {
        let word = self.word(row, 1 + colour);
        mark_of(self.load(&mut seat.inner, word))
    }

    /// The outcome that the row was decided with, as the board has it. An outcome that the seat knew is the answer.
    pub fn last(&self, seat: &mut Seat, row: Row) -> Outcome
        requires seat { IsSeatOf self.now seat.old }
        requires row { IsRow self.now.size row }
        ensures seat { IsLater seat.old seat.new }
        ensures value { Possibly self.now.size (seen seat.new) (λ ws. decided_in self.now.size ws row ≡ result) }
        ensures known { result ≢ Outcome.Open → KnowsOutcome (seen seat.new) row result }
        ensures before { (o : Outcome) → KnowsOutcome (seen seat.old) row o → result ≡ o }
        ensures stamp { IsOutcome result }
    {
        let word = self.word(row, self.size.colours + 1);
        outcome_of_word(self.load(&mut seat.inner, word))
    }

    /// The row's mark of the seat's colour, which is the one that this seat has set.
    pub fn look(&self, seat: &mut ColumnSeat, row: Row) -> Mark
        requires seat { IsColumnOf self.now seat.old }
        requires row { IsRow self.now.size row }
        ensures seat { IsLaterColumn seat.old seat.new }
        ensures none { SetsNone seat.old seat.new }
        ensures mark { result ≡ set_mark seat.old row }
        ensures value { let k = self.now.size in
            Possibly k (column_seen seat.new) (λ ws. mark_in k ws row seat.old.colour ≡ result) }
        ensures known { result ≢ Mark.None → KnowsMark (column_seen seat.new) row seat.old.colour result }
        ensures before { (m : Mark) → KnowsMark (column_seen seat.old) row seat.old.colour m → result ≡ m }
        ensures stamp { IsMark result }
    {
        let word = self.word(row, 1 + seat.colour);
        mark_of(self.load(&mut seat.inner, word))
    }
}
