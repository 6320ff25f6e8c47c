// A pass that lies where others may make their own of it.
ghost use Rattle.std.specs.Prelude.{◌≡◌, [], length};

use crate::cell::Cell;
use crate::history::HasHistory;
use crate::pass::{Pass, PassOf};
use crate::rule::Tell;
use crate::view::View;
use atomic_table::{Perch, Seat};

const EMPTY: u64 = 0;

const FULL: u64 = 2;

/// A pass with no number, at rest behind a word of its own: whoever reaches it may take one that has seen as much, and does not wait.
#[derive(Drop)]
pub struct Rest<E, T> {
    pub(crate) perch: Perch<(), View<E, T>>,
    pub(crate) count: u64,
    ghost counted: { count ≡ length perch.view.seen },
}

// Lays the seat down on a new perch, beside how many entries it has seen.
fn settle<E, T>(seat: Seat<(), View<E, T>>, count: u64) -> Rest<E, T>
    requires { (seat.me.1 ≡ []) × (count ≡ length seat.me.0.seen) }
    ensures { (result.perch.table_id ≡ seat.table_id) × (result.perch.view ≡ seat.me.0) }
{
    let perch = Perch::new(&seat, EMPTY);
    drop(perch.give(seat, EMPTY, FULL));
    Rest { perch, count }
}

impl<E, T> Rest<E, T> {
    ghost use Rattle.std.specs.Prelude.{IfSome};
    ghost use Rattle.turn_cell.specs.Rests.{rest_table, rest_view, rest_seen};

    /// How many entries the pass that rests has seen.
    pub fn count(&self) -> u64
        ensures { result ≡ length (rest_seen self.now) }
    {
        self.count
    }

    /// The pass that rests here, moved to another place; `None` where another took it.
    pub fn moved(&self) -> Option<Rest<E, T>>
        ensures { IfSome result (λ r. (rest_table r ≡ rest_table self.now) × (rest_view r ≡ rest_view self.now)) }
    {
        match self.perch.take(EMPTY) {
            (_, Some(seat)) => Some(settle(seat, self.count)),
            (_, None) => None,
        }
    }

    /// The pass that was moved from here rests here again.
    pub fn take_back(&self, moved: Rest<E, T>)
        requires { (rest_table moved ≡ rest_table self.now) × (rest_view moved ≡ rest_view self.now) }
    {
        if let (_, Some(seat)) = moved.perch.take(EMPTY) {
            drop(self.perch.give(seat, EMPTY, FULL));
        }
    }
}

impl<V: HasHistory> Cell<V> {
    ghost use Rattle.std.specs.Prelude.{None, IfSome};
    ghost use Rattle.turn_cell.specs.Cells.{seen, own, met, cell_tag, IsReady};
    ghost use Rattle.turn_cell.specs.Rests.{rest_seen, IsRestOf};

    /// Lays a pass down.
    pub fn lay(&self, pass: Pass<V>) -> Rest<V::Entry, V::Tag>
        requires { IsReady V.tag self.now pass × (own pass ≡ None) × (met pass ≡ []) }
        ensures { IsRestOf V.tag self.now result × (rest_seen result ≡ seen pass) }
    {
        let PassOf { seat, count } = pass;
        settle(seat.into_badge().into_seat::<()>(), count)
    }

    /// A pass that has seen as much as the one that rests; `None` where another is making its own of it just now.
    pub fn copy(&self, rest: &Rest<V::Entry, V::Tag>) -> Option<Pass<V>>
        requires { IsRestOf V.tag self.now rest.now }
        ensures { IfSome result (λ p. IsReady V.tag self.now p × (seen p ≡ rest_seen rest.now) × (own p ≡ None) × (met p ≡ [])) }
    {
        let (_, found) = rest.perch.take(EMPTY);
        match found {
            Some(seat) => {
                let mut rests = seat.into_badge().into_seat();
                let mine = self.table.shared.split_seat::<Tell>(&mut rests);
                drop(
                    rest.perch
                        .give(rests.into_badge().into_seat::<()>(), EMPTY, FULL),
                );
                Some(PassOf {
                    seat: mine,
                    count: rest.count,
                })
            }
            None => None,
        }
    }
}
