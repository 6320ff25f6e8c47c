// What seats tell one another.
ghost use Rattle.std.specs.Prelude.{◌≡◌, ℕ, ◌<◌, []};
ghost use Rattle.log_node.specs.declared.node.Node.{Node};
ghost use Rattle.stamp_board.specs.Views.{Agree, KnowsBegun, Learns, told};
ghost use Rattle.stamp_board.specs.Law.{Joins, lowest, others};
ghost use Rattle.stamp_board.specs.Seats.{IsSeatOf, IsClients, IsColumnOf, IsLater, IsLaterColumn, IsNote, SetsNone};
ghost use Rattle.stamp_board.specs.Seats.{seen, column_seen};
ghost use Rattle.stamp_board.specs.Inside.{IsOf, Stays};

use crate::board::Board;
use crate::law::{Deals, Hears, Tells};
use crate::seats::{ColumnSeat, Seat};
use crate::steps::Inner;

impl Board {
    fn split(&self, seat: &mut Inner) -> Inner
        requires { IsOf self.now seat.old }
        ensures seat { (seat.new.table_id ≡ seat.old.table_id) × (seat.new.me ≡ seat.old.me) }
        ensures new { (result.table_id ≡ seat.old.table_id) × (result.me ≡ (told seat.old.me.0, [])) }
    {
        self.table.shared.split_seat::<Tells>(seat)
    }

    fn told_seat(&self, seat: &mut Inner) -> Seat
        requires { IsOf self.now seat.old }
        ensures seat { (seat.new.table_id ≡ seat.old.table_id) × (seat.new.me ≡ seat.old.me) }
        ensures note { IsNote self.now seat.old.me.0 result }
    {
        let inner = self.split(seat);
        Seat {
            client: 0,
            used: 0,
            inner,
        }
    }

    // The load tells that what both knew agrees.
    pub(crate) fn join(&self, seat: &mut Inner, other: Inner)
        requires seat { IsOf self.now seat.old }
        requires other { (other.table_id ≡ self.now.table.shared.table_id) × (other.me.1 ≡ []) }
        ensures seat { Stays seat.old seat.new }
        ensures view { Joins seat.old.me.0 other.me.0 seat.new.me.0 }
    {
        self.table.shared.join_seat::<Hears>(seat, other);
        self.load(seat, 0);
    }

    // The lowest part goes to a new seat.
    pub(crate) fn deal(&self, seat: &mut Inner) -> Inner
        requires seat { IsOf self.now seat.old }
        requires parts { seat.old.me.0.low < seat.old.me.0.high }
        requires fresh { seat.old.me.0.mine ≡ [] }
        ensures seat { seat.new.table_id ≡ seat.old.table_id }
        ensures rest { seat.new.me ≡ (others seat.old.me.0, seat.old.me.1) }
        ensures new { (result.table_id ≡ seat.old.table_id) × (result.me ≡ (lowest seat.old.me.0, [])) }
    {
        self.table.shared.split_seat::<Deals>(seat)
    }

    /// A seat that has seen as much, owns no rows and has no column.
    pub fn tell(&self, seat: &mut Seat) -> Seat
        requires { IsSeatOf self.now seat.old }
        ensures seat { IsLater seat.old seat.new × (seen seat.new ≡ seen seat.old) }
        ensures note { IsNote self.now (seen seat.old) result }
    {
        self.told_seat(&mut seat.inner)
    }

    /// The seat then knows what both knew. What both knew of a row is the same: no two seats know one row as begun for
    /// two nodes, and the rows of the seat's own client that the other one knows as begun are those that the seat began.
    pub fn hear(&self, seat: &mut Seat, other: Seat)
        requires { IsSeatOf self.now seat.old × IsSeatOf self.now other }
        ensures seat { IsLater seat.old seat.new }
        ensures learns { Learns (seen other) (seen seat.new) }
        ensures agree { Agree (seen seat.old) (seen other) }
        ensures own { IsClients self.now seat.old → (j : ℕ) (x : Node) → j < self.now.size.rows
            → KnowsBegun (seen other) (record { client = seat.old.client; number = j }) x → j < seat.old.used }
    {
        let Seat {
            client: _,
            used: _,
            inner,
        } = other;
        self.join(&mut seat.inner, inner);
    }

    /// A seat that has seen as much as the column's, owns no rows and has no column.
    pub fn note(&self, seat: &mut ColumnSeat) -> Seat
        requires { IsColumnOf self.now seat.old }
        ensures seat { IsLaterColumn seat.old seat.new }
        ensures same { column_seen seat.new ≡ column_seen seat.old }
        ensures note { IsNote self.now (column_seen seat.old) result }
    {
        self.told_seat(&mut seat.inner)
    }

    /// The column's seat then knows what both knew.
    pub fn learn(&self, seat: &mut ColumnSeat, other: Seat)
        requires { IsColumnOf self.now seat.old × IsSeatOf self.now other }
        ensures seat { IsLaterColumn seat.old seat.new }
        ensures none { SetsNone seat.old seat.new }
        ensures learns { Learns (seen other) (column_seen seat.new) }
        ensures agree { Agree (column_seen seat.old) (seen other) }
    {
        let Seat {
            client: _,
            used: _,
            inner,
        } = other;
        self.join(&mut seat.inner, inner);
    }
}
