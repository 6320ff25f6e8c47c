// A client's turn at a column: from its pass at rest until it is at rest again.
ghost use Rattle.std.specs.Prelude.{◌≡◌, ℕ, None, IfSome};
ghost use Rattle.turn_cell.specs.Cells.{seen, IsLook, IsEvent, HasTurn, Adds, MayPut};
ghost use Rattle.chain_store.specs.declared.told.Told.{Told};
ghost use Rattle.chain_store.specs.Histories.{maker, HasIds};
ghost use Rattle.chain_store.specs.Columns.{Stands, newest_of, tag_of};
ghost use Rattle.chain_store.specs.Passes.{IsHolder, HasTurnOf, SeesMore, IsLawfulTold, tag_in};

use crate::seated::Seated;
use log_node::At;
use std::sync::Wait;
use turn_cell::{Cell, Pass, Turn};

/// Waits for the turn.
pub(crate) fn begin<'a, R: Wait>(
    rt: &R,
    cell: &'a Cell<Seated>,
    pass: &mut Pass<Seated>,
    by: u8,
) -> Turn<'a, Seated>
    requires { IsHolder cell.now by pass.old }
    ensures turn { HasTurnOf cell.now by pass.new × (result.cell.now ≡ cell.now) }
    ensures more { SeesMore by (seen pass.old) (seen pass.new) }
    ensures value { Stands result.value.value (seen pass.new) }
    ensures tag { tag_of result.value.value ≡ tag_in cell.now }
    ensures lawful { IsLawfulTold (tag_in cell.now) (seen pass.new) }
    ensures ids { HasIds (seen pass.new) }
{
    let turn = cell.take(rt, pass);
    turn.value.column.agrees();
    turn
}

/// The turn, if it is free just now; does not wait.
pub(crate) fn begin_now<'a>(
    cell: &'a Cell<Seated>,
    pass: &mut Pass<Seated>,
    by: u8,
) -> Option<Turn<'a, Seated>>
    requires { IsHolder cell.now by pass.old }
    ensures turn { IfSome result (λ t. HasTurnOf cell.now by pass.new × (t.cell.now ≡ cell.now)) }
    ensures more { SeesMore by (seen pass.old) (seen pass.new) }
    ensures value { IfSome result (λ t. Stands t.value.value (seen pass.new) × (tag_of t.value.value ≡ tag_in cell.now)) }
    ensures none { result ≡ None → IsHolder cell.now by pass.new }
{
    cell.try_take(pass)
}

/// Ends the turn, with one entry more or none.
pub(crate) fn end(turn: Turn<Seated>, pass: &mut Pass<Seated>) -> At
    requires turn { HasTurn tag_of turn.cell.now pass.old }
    requires tag { tag_of turn.value.value ≡ tag_in turn.cell.now }
    requires value { MayPut Stands maker newest_of turn.value.value pass.old }
    ensures holder { (n : ℕ) → HasTurnOf turn.entry.cell.now n pass.old → IsHolder turn.entry.cell.now n pass.new }
    ensures value { Stands turn.entry.value.value (seen pass.new) }
    ensures look { Stands turn.entry.value.value (seen pass.old) → IsLook pass.old pass.new result }
    ensures event { (t : Told) → Adds Stands maker newest_of turn.entry.value.value pass.old t
        → IsEvent t pass.old pass.new result }
{
    turn.value.column.agrees();
    turn.put(pass)
}
