// The rows that a client begins, and their outcomes.
ghost use Rattle.std.specs.Prelude.{◌≡◌, ◌≢◌, ◌<◌, ◌≤◌, ◌^◌, ℕ, true, map, MatchResult};
ghost use Rattle.log_node.specs.Marks.{IsOutcome};
ghost use Rattle.log_node.specs.Outcomes.{outcome_of};
ghost use Rattle.log_node.specs.Sets.{members};
ghost use Rattle.stamp_board.specs.Rows.{IsRow, AreColours};
ghost use Rattle.stamp_board.specs.Views.{KnowsAll, KnowsBegun, KnowsOutcome};
ghost use Rattle.stamp_board.specs.Seats.{IsNext, IsFull, IsLater};
ghost use Rattle.chain_store.specs.Rows.{OneNode};
ghost use Rattle.chain_store.specs.Holds.{IsHold, view_of};
ghost use Rattle.chain_store.specs.Beginning.{HasNextRow, BeginsRow, KnowsMarks};

use crate::hold::Hold;
use crate::region::Region;
use log_node::{Full, MAX_STAMP, Mark, Node, Outcome, Row};
use std::sync::Arc;

impl Region {
    /// The row that the client begins next.
    pub fn next_row(&self, hold: &Hold) -> Result<Row, Full>
        requires { IsHold self.now hold.now }
        ensures { MatchResult result
            (λ row. IsNext self.now.board hold.now.seat row) (λ full. IsFull self.now.board hold.now.seat full) }
    {
        self.board.next_row(&hold.seat)
    }

    /// Begins the client's next row for the node, which names it.
    pub fn begin(&self, hold: &mut Hold, node: &Arc<Node>) -> Result<Row, Full>
        requires hold { IsHold self.now hold.old }
        requires id { (node.now.value.id.client ≡ hold.old.passes.number) × (hold.old.next ≤ node.now.value.id.count) }
        requires count { node.now.value.id.count < 2 ^ 63 }
        requires row { HasNextRow self.now.board hold.old.seat node.now.value }
        requires region { node.now.value.region ≡ self.now.number }
        requires colours { AreColours self.now.board.size node.now.value.colours }
        requires floor { node.now.value.floor ≤ MAX_STAMP }
        ensures hold { IsHold self.now hold.new }
        ensures passes { hold.new.passes ≡ hold.old.passes }
        ensures row { MatchResult result
            (λ row. IsNext self.now.board hold.old.seat row) (λ full. IsFull self.now.board hold.old.seat full) }
        ensures begun { MatchResult result
            (λ row. BeginsRow self.now hold.old hold.new row node.now.value) (λ _. hold.new ≡ hold.old) }
    {
        let row = self.board.begin(&mut hold.seat, node)?;
        hold.next = node.id.count + 1;
        Ok(row)
    }

    /// The outcome of the row's marks, which stands from then on unless it is open: it is open where the row is not
    /// begun, or a mark that this call looked for was missing. The outcome is loaded once more, which tells that it is that of
    /// the marks that the hold knew.
    pub fn decide(&self, hold: &mut Hold, row: Row) -> Outcome
        requires hold { IsHold self.now hold.old }
        requires row { IsRow self.now.board.size row }
        ensures hold { IsHold self.now hold.new }
        ensures same { (hold.new.passes ≡ hold.old.passes) × (hold.new.next ≡ hold.old.next) }
        ensures seat { IsLater hold.old.seat hold.new.seat }
        ensures known { result ≢ Outcome.Open → KnowsOutcome (view_of hold.new) row result }
        ensures before { (o : Outcome) → KnowsOutcome (view_of hold.old) row o → result ≡ o }
        ensures closed { KnowsAll (view_of hold.old) row → result ≢ Outcome.Open }
        ensures marks { (x : Node) (mark : ℕ → Mark) → KnowsBegun (view_of hold.old) row x
            → KnowsMarks (view_of hold.old) row x mark → result ≡ outcome_of (map mark (members x.colours)) }
        ensures stamp { IsOutcome result }
    {
        self.board.decide(&mut hold.seat, row);
        self.board.last(&mut hold.seat, row)
    }

    /// The outcome that the row has; open while it is not decided.
    pub fn last(&self, hold: &mut Hold, row: Row) -> Outcome
        requires hold { IsHold self.now hold.old }
        requires row { IsRow self.now.board.size row }
        ensures hold { IsHold self.now hold.new }
        ensures same { (hold.new.passes ≡ hold.old.passes) × (hold.new.next ≡ hold.old.next) }
        ensures seat { IsLater hold.old.seat hold.new.seat }
        ensures known { result ≢ Outcome.Open → KnowsOutcome (view_of hold.new) row result }
        ensures before { (o : Outcome) → KnowsOutcome (view_of hold.old) row o → result ≡ o }
        // No row is known as begun for two nodes.
        ensures one_node { (other : Row) → OneNode (view_of hold.new) other }
    {
        self.board.last(&mut hold.seat, row)
    }
}
