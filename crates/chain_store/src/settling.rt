// The settling of an append's id, under the column's turn.
ghost use Rattle.std.specs.Prelude.{◌≡◌, ◌≢◌, ◌<◌, ℕ, true, false, None, List, length};
ghost use Rattle.log_node.specs.Sets.{has};
ghost use Rattle.log_node.specs.Standings.{open_entry};
ghost use Rattle.skeen_core.specs.Queues.{has_open};
ghost use Rattle.col_core.specs.History.{entries};
ghost use Rattle.col_core.specs.Ids.{IsFinal};
ghost use Rattle.stamp_board.specs.Views.{KnowsOutcome};
ghost use Rattle.stamp_board.specs.Seats.{IsColumnOf, IsLaterColumn, column_seen};
ghost use Rattle.chain_store.specs.declared.told.Told.{Told};
ghost use Rattle.chain_store.specs.Columns.{Gains, Stands, Stays, told_settle, tag_of};
ghost use Rattle.chain_store.specs.Rows.{KnowsRow};

use crate::seated::Seated;
use log_node::{At, Begun, Outcome};
use stamp_board::Board;

impl Seated {
    /// The append's id, where it is open here, becomes final under the outcome's number, or goes. Takes no memory.
    pub(crate) fn settle(&mut self, board: &Board, by: u8, begun: &Begun, outcome: Outcome) -> At
        requires board { IsColumnOf board.now self.old.seat }
        requires begun { KnowsRow board.now.size self.old.column.region (column_seen self.old.seat) begun.now }
        requires colour { has begun.now.colours self.old.column.colour ≡ true }
        requires maker { by < board.now.size.clients }
        requires outcome { (outcome ≢ Outcome.Open) × KnowsOutcome (column_seen self.old.seat) begun.now.row outcome }
        requires stands { (log : List Told) × Stands self.old log }
        ensures tag { tag_of self.new ≡ tag_of self.old }
        ensures seat { IsLaterColumn self.old.seat self.new.seat }
        ensures event { has_open begun.now.id (entries self.old.column.journal) ≡ true
            → Gains self.old self.new (told_settle by begun.now.id outcome) }
        ensures look { has_open begun.now.id (entries self.old.column.journal) ≡ false → Stays self.old self.new }
        ensures closed { open_entry begun.now.id (entries self.new.column.journal) ≡ None }
        ensures stands { (f : ℕ) → outcome ≡ Outcome.Final f → IsFinal self.new.column.journal begun.now.id f }
    {
        board.look(&mut self.seat, begun.row);
        self.column.agrees();
        let at = self.column.settle(by, begun.id, outcome);
        let _few = self.column.journal().len();
        self.column.agrees();
        at
    }
}
