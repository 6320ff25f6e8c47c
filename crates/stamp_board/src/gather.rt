// All seats become one, when the board closes.
ghost use Rattle.std.specs.Prelude.{◌≡◌, ◌≢◌, ℕ, ◌+◌, ◌<◌, ◌≤◌, [], ◌∷◌, length};
ghost use Rattle.stamp_board.specs.Views.{at};
ghost use Rattle.stamp_board.specs.Law.{Follows, merged, nobody};
ghost use Rattle.stamp_board.specs.Seats.{AreClientsOf, AreColumnsOf};
ghost use Rattle.stamp_board.specs.Inside.{Gathered};
ghost use Rattle.stamp_board.specs.Words.{owner_of};

use crate::board::Board;
use crate::law::{Comes, Gathers};
use crate::seats::{ColumnSeat, Seat};
use crate::steps::Inner;

impl Board {
    fn last_seat(&self) -> Inner
        ensures { (result.table_id ≡ self.now.table.shared.table_id) × (result.me ≡ (nobody self.now.size, [])) }
    {
        self.table.shared.load_new_seat::<Comes>(0).1
    }

    fn gather(&self, seat: &mut Inner, other: Inner)
        requires seat { seat.old.table_id ≡ self.now.table.shared.table_id }
        requires other { (other.table_id ≡ self.now.table.shared.table_id) × (other.me.1 ≡ []) }
        requires parts { Follows seat.old.me.0 other.me.0 }
        ensures seat { seat.new.table_id ≡ seat.old.table_id }
        ensures all { seat.new.me ≡ (merged seat.old.me.0 other.me.0, seat.old.me.1) }
    {
        self.table.shared.join_seat::<Gathers>(seat, other);
    }

    // One seat with the parts of all clients and columns.
    pub(crate) fn gather_all(&self, mut seats: Vec<Seat>, mut columns: Vec<ColumnSeat>) -> Inner
        requires counts { (length seats.items ≡ self.now.size.clients)
            × (length columns.items ≡ self.now.size.colours) }
        requires seats { AreClientsOf self.now seats.items }
        requires columns { AreColumnsOf self.now columns.items }
        ensures seat { (result.table_id ≡ self.now.table.shared.table_id) × (result.me.1 ≡ []) }
        ensures parts { (result.me.0.low ≡ 1) × (result.me.0.high ≡ 1 + self.now.size.clients + self.now.size.colours) }
        ensures gathered { Gathered self.now.size seats.items columns.items result.me.0 }
    {
        let mut all = self.last_seat();
        while let Some(column) = columns.pop() {
            let ColumnSeat { colour: _, inner } = column;
            let mut seat = inner;
            self.load(&mut seat, 0);
            self.gather(&mut seat, all);
            all = seat;
        }
        while let Some(client) = seats.pop() {
            let Seat {
                client: _,
                used: _,
                inner,
            } = client;
            let mut seat = inner;
            self.load(&mut seat, 0);
            self.gather(&mut seat, all);
            all = seat;
        }
        all
    }
}
