// A proposal, under the column's turn.
ghost use Rattle.std.specs.Prelude.{◌≡◌, ◌≢◌, ◌<◌, ℕ, true, None, IfOk, IfErr, OnErr};
ghost use Rattle.log_node.specs.declared.node.Node.{Node};
ghost use Rattle.log_node.specs.Sets.{has};
ghost use Rattle.log_node.specs.Marks.{IsStamp};
ghost use Rattle.column.specs.Columns.{ColumnState, HasEnterCause};
ghost use Rattle.stamp_board.specs.Rows.{IsRow};
ghost use Rattle.stamp_board.specs.Views.{KnowsBegun, KnowsMark};
ghost use Rattle.stamp_board.specs.Seats.{IsColumnOf, IsLaterColumn, column_seen, set_mark};
ghost use Rattle.chain_store.specs.Histories.{FitsColumn};
ghost use Rattle.chain_store.specs.Columns.{Enters, Gains, Stays, told_propose, tag_of};
ghost use Rattle.chain_store.specs.Marks.{IsRowOf};
ghost use Rattle.chain_store.specs.Rows.{IsBegunRow, KnowsRow};
ghost use Rattle.chain_store.specs.Steps.{MatchStep, MayRefuse, mark_after};

use crate::seated::Seated;
use column::ColumnFault;
use log_node::{Begun, MAX_CLIENTS, Mark, Marked, Node, Row, Why};
use stamp_board::Board;
use std::sync::Arc;

/// What came of a proposal: an entry under this number, or the mark that stands.
pub enum Step {
    Added(u64),
    Looked(Mark),
}

fn why(fault: ColumnFault) -> Why
    ensures { (column : ColumnState) (floor : ℕ) → HasEnterCause column floor fault → MayRefuse column.journal floor result }
{
    match fault {
        ColumnFault::StampEnd { clock: _ } => Why::StampEnd,
        ColumnFault::NoMemory => Why::Memory,
    }
}

impl Seated {
    // The node enters as open under the next stamp, and its mark is not set yet.
    fn enter_open(&mut self, by: u8, node: &Arc<Node>) -> Result<u64, Why>
        requires maker { (by < (column_seen self.old.seat).size.clients) × (node.now.value.id.client < MAX_CLIENTS) }
        requires row { node.now.value.row ≢ None }
        requires node { FitsColumn self.old.column.region self.old.column.colour node.now.value }
        ensures seat { self.new.seat ≡ self.old.seat }
        ensures rings { self.new.rings ≡ self.old.rings }
        ensures tag { tag_of self.new ≡ tag_of self.old }
        ensures stamp { IfOk result IsStamp }
        ensures ok { IfOk result (λ n. Enters self.old.column self.new.column (column_seen self.old.seat).size.clients
            (told_propose self.old.column.colour by node.now.value n)) }
        ensures err { OnErr result (Stays self.old self.new) }
        ensures column { OnErr result (self.new.column ≡ self.old.column) }
        ensures cause { IfErr result (MayRefuse self.old.column.journal node.now.value.floor) }
    {
        let client = node.id.client;
        let count = node.id.count;
        if !self.is_new(client, count) {
            return Err(Why::Memory);
        }
        let Ok(shared) = node.clone() else {
            return Err(Why::Memory);
        };
        match self.column.propose(by, shared) {
            Ok((_, stamp)) => {
                let _few = self.column.journal().len();
                self.column.agrees();
                self.entered[client as usize] = count + 1;
                Ok(stamp)
            }
            Err(fault) => Err(why(fault)),
        }
    }

    // The row's mark, which is not set yet, becomes a fence.
    fn fenced(&mut self, board: &Board, row: Row, why: Why) -> Mark
        requires board { IsColumnOf board.now self.old.seat }
        requires row { IsRow board.now.size row }
        requires begun { (x : Node) × KnowsBegun (column_seen self.old.seat) row x
            × (has x.colours self.old.column.colour ≡ true) × MayRefuse self.old.column.journal x.floor why }
        requires unset { set_mark self.old.seat row ≡ Mark.None }
        ensures tag { tag_of self.new ≡ tag_of self.old }
        ensures seat { IsLaterColumn self.old.seat self.new.seat }
        ensures stays { Stays self.old self.new }
        ensures known { KnowsMark (column_seen self.new.seat) row self.old.column.colour result }
        ensures mark { set_mark self.new.seat row ≡ result }
        ensures set { result ≢ Mark.None }
    {
        board.fence(&mut self.seat, row, why)
    }

    // The node of a row whose mark is not set enters as open, and the mark is its number; where the node cannot enter,
    // the mark is a fence.
    fn enter_marked(&mut self, board: &Board, by: u8, row: Row, node: &Arc<Node>) -> Step
        requires board { IsColumnOf board.now self.old.seat }
        requires row { IsRowOf (column_seen self.old.seat) row node.now.value × (node.now.value.id.client < MAX_CLIENTS) }
        requires node { FitsColumn self.old.column.region self.old.column.colour node.now.value }
        requires maker { by < (column_seen self.old.seat).size.clients }
        requires unset { set_mark self.old.seat row ≡ Mark.None }
        ensures tag { tag_of self.new ≡ tag_of self.old }
        ensures seat { IsLaterColumn self.old.seat self.new.seat }
        ensures step { MatchStep result
            (λ n. Gains self.old self.new (told_propose self.old.column.colour by node.now.value n))
            (λ _. Stays self.old self.new) }
        ensures known { KnowsMark (column_seen self.new.seat) row self.old.column.colour (mark_after result) }
        ensures mark { set_mark self.new.seat row ≡ mark_after result }
        ensures set { mark_after result ≢ Mark.None }
    {
        match self.enter_open(by, node) {
            Ok(stamp) => match board.mark(&mut self.seat, row, stamp) {
                Marked::Set => Step::Added(stamp),
                Marked::Already(_) => unreachable!(),
            },
            Err(why) => Step::Looked(self.fenced(board, row, why)),
        }
    }

    /// Looks at the row's mark. Where none is set, its node enters as open and the mark is its number; where the node
    /// cannot enter or is not at hand, the mark is a fence.
    pub(crate) fn propose(&mut self, board: &Board, by: u8, begun: &Begun) -> Step
        requires board { IsColumnOf board.now self.old.seat }
        requires begun { KnowsRow board.now.size self.old.column.region (column_seen self.old.seat) begun.now }
        requires colour { has begun.now.colours self.old.column.colour ≡ true }
        requires maker { (by < board.now.size.clients) × (begun.now.row.client < MAX_CLIENTS) }
        ensures tag { tag_of self.new ≡ tag_of self.old }
        ensures seat { IsLaterColumn self.old.seat self.new.seat }
        ensures step { MatchStep result
            (λ n. (x : Node) × IsBegunRow board.now.size self.old.column.region (column_seen self.old.seat) begun.now x
            × Gains self.old self.new (told_propose self.old.column.colour by x n))
            (λ _. Stays self.old self.new) }
        ensures known { KnowsMark (column_seen self.new.seat) begun.now.row self.old.column.colour
            (mark_after result) }
        ensures mark { set_mark self.new.seat begun.now.row ≡ mark_after result }
        ensures set { mark_after result ≢ Mark.None }
    {
        let row = begun.row;
        match board.look(&mut self.seat, row) {
            Mark::None => {}
            mark => return Step::Looked(mark),
        }
        match &begun.node {
            Some(node) => self.enter_marked(board, by, row, node),
            None => Step::Looked(self.fenced(board, row, Why::Memory)),
        }
    }
}
