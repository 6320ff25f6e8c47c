// What clients of a region tell one another.
ghost use Rattle.std.specs.Prelude.{◌≡◌, ◌<◌, length, IfOk};
ghost use Rattle.stamp_board.specs.Views.{Agree};
ghost use Rattle.chain_store.specs.Holds.{IsHold, HasPasses, view_of};
ghost use Rattle.chain_store.specs.Telling.{IsHoldNote, AreTold, SeenAlike, HeardAll, KnowsSame, Tells, Hears, view_told};

use crate::hold::{ColumnPasses, Hold};
use crate::region::Region;
use crate::seated::Seated;
use stamp_board::Seat;
use std::alloc::{AllocError, Global};
use turn_cell::{Cell, Pass};

/// What a client has seen of a region, for another client to hear.
#[derive(Drop)]
pub struct HoldNote {
    pub(crate) passes: Vec<Pass<Seated>>,
    pub(crate) seat: Seat,
}

// Passes that have seen as much, and have no number.
fn split_all(
    alloc: Global,
    cells: &[Cell<Seated>],
    passes: &mut ColumnPasses,
) -> Result<Vec<Pass<Seated>>, AllocError>
    requires { HasPasses cells.now passes.old.number passes.old.items.items }
    ensures passes { HasPasses cells.now passes.old.number passes.new.items.items }
    ensures number { passes.new.number ≡ passes.old.number }
    ensures same { SeenAlike passes.old.items.items passes.new.items.items }
    ensures told { IfOk result (λ all. AreTold cells.now all.items × SeenAlike passes.old.items.items all.items) }
{
    let mut all = Vec::new(alloc);
    for colour in 0..cells.len() {
        all.push(cells[colour].split(&mut passes.items[colour]))?;
    }
    Ok(all)
}

// Each pass meets what was told of its column: the last colour first.
fn meet_all(cells: &[Cell<Seated>], passes: &mut ColumnPasses, mut told: Vec<Pass<Seated>>)
    requires passes { HasPasses cells.now passes.old.number passes.old.items.items }
    requires told { AreTold cells.now told.items }
    ensures passes { HasPasses cells.now passes.old.number passes.new.items.items }
    ensures number { passes.new.number ≡ passes.old.number }
    ensures heard { HeardAll passes.old.number passes.old.items.items told.items passes.new.items.items }
{
    while let Some(other) = told.pop() {
        let colour = told.len();
        cells[colour].meet(&mut passes.items[colour], other);
    }
}

impl Region {
    /// What the client has seen and knows, for others to hear.
    pub fn tell(&self, alloc: Global, hold: &mut Hold) -> Result<HoldNote, AllocError>
        requires { IsHold self.now hold.old }
        ensures hold { IsHold self.now hold.new }
        ensures same { KnowsSame hold.old hold.new }
        ensures note { IfOk result (λ note. IsHoldNote self.now note × Tells hold.old note) }
    {
        let passes = split_all(alloc, &self.columns, &mut hold.passes)?;
        let seat = self.board.tell(&mut hold.seat);
        Ok(HoldNote { passes, seat })
    }

    /// The client has then seen and knows what it did and what the note tells.
    pub fn hear(&self, hold: &mut Hold, note: HoldNote)
        requires hold { IsHold self.now hold.old }
        requires note { IsHoldNote self.now note }
        ensures hold { IsHold self.now hold.new }
        ensures hears { Hears hold.old note hold.new }
        ensures agree { Agree (view_of hold.old) (view_told note) }
    {
        let HoldNote { passes, seat } = note;
        meet_all(&self.columns, &mut hold.passes, passes);
        self.board.hear(&mut hold.seat, seat);
    }
}
