// The rows of appends to several colours: their marks, outcomes and settlings.
ghost use Rattle.std.specs.Prelude.{◌≡◌, ◌<◌, true, false, None, IfSome, IfOk, OnOk};
ghost use Rattle.std.specs.Prelude.{Some, OnErr, not, max, ◌==◌, slice_get};
ghost use Rattle.world_laws.specs.Worlds.{after, reply, home_of, event_reply, row_of};
ghost use Rattle.world_laws.specs.Worlds.{is_begun, may_mark, is_row_at_end, after_propose, proposed_stamp};
ghost use Rattle.world_laws.specs.Worlds.{may_fence, with_mark};
ghost use Rattle.log_node.specs.Outcomes.{is_missing};
ghost use Rattle.skeen_core.specs.Queues.{is_decided};
ghost use Rattle.world_code.specs.WorldView.{world_of, client_at};
ghost use Rattle.world_code.specs.Replies.{placed_reply, place_reply, marked_reply, decided_reply};

use crate::replies::{Placed, decided_outcome, event_at};
use crate::world::World;
use column::ColumnFault;
use log_node::{Id, MAX_STAMP, Mark, Node, Outcome, Row, Why};
use std::alloc::AllocError;
use std::sync::Arc;
use world_laws::{Step, is_lawful};

// Whether the colour has not said anything yet.
fn is_missing(mark: Mark) -> bool
    ensures { result ≡ is_missing mark }
{
    match mark {
        Mark::None => true,
        Mark::Number(_) => false,
        Mark::Fenced(_) => false,
    }
}

// Whether no outcome is told.
fn is_open(outcome: Outcome) -> bool
    ensures { result ≡ not (is_decided outcome) }
{
    match outcome {
        Outcome::Open => true,
        Outcome::Gone(_) => false,
        Outcome::Final(_) => false,
    }
}

// Whether no stamp is left.
fn is_at_end(clock: u64, floor: u64) -> bool
    ensures { result ≡ (max clock floor == MAX_STAMP) }
{
    clock.max(floor) == MAX_STAMP
}

impl World {
    /// The node of a begun row; `None` exactly where the row is not begun.
    pub fn row_node(&self, row: Row) -> Option<&Arc<Node>>
        ensures some { IfSome result (λ node. (is_begun (world_of self.now) row ≡ true)
            × (slice_get (client_at self.now row.client).begun row.number ≡ Some node.now.value)) }
        ensures none { result ≡ None → is_begun (world_of self.now) row ≡ false }
    {
        if row.client as usize >= self.clients.len() {
            return None;
        }
        self.clients[row.client as usize].row_node(row.number)
    }

    // Whether the row is begun and has the colour, whose mark is missing.
    pub(crate) fn may_mark(&self, row: Row, colour: u8) -> bool
        ensures { result ≡ may_mark (world_of self.now) row colour }
    {
        let Some(node) = self.row_node(row) else {
            return false;
        };
        if colour >= self.shape.colours || !node.colours.has(colour) {
            return false;
        }
        is_missing(self.mark(row, colour))
    }

    /// The mark of a begun row's colour.
    pub fn mark(&self, row: Row, colour: u8) -> Mark
        requires begun { is_begun (world_of self.now) row ≡ true }
        requires colour { colour < self.now.shape.colours }
        ensures { result ≡ (row_of (world_of self.now) row).marks colour }
    {
        is_lawful();
        self.board.read(row.client, row, colour)
    }

    // Whether no stamp is left in the colour's column for the row's node.
    pub(crate) fn is_row_at_end(&self, row: Row, colour: u8) -> bool
        requires { may_mark (world_of self.now) row colour ≡ true }
        ensures { result ≡ is_row_at_end (world_of self.now) row colour }
    {
        let _whole = &self.shape;
        let Some(node) = self.row_node(row) else {
            unreachable!()
        };
        let home = self.home(row.client);
        let clock = self.column(home, colour).clock();
        is_at_end(clock, node.floor)
    }

    /// The colour's column proposes the row's node: its stamp is the mark.
    pub fn propose(&mut self, by: u8, row: Row, colour: u8) -> Result<Option<Placed>, AllocError>
        ensures ok { OnOk result (world_of self.new ≡ after (world_of self.old) (Step.Propose by row colour)) }
        ensures reply { IfOk result (λ placed.
            placed_reply placed ≡ reply (world_of self.old) (Step.Propose by row colour)) }
        ensures err { OnErr result (self.new ≡ self.old) }
    {
        if !self.may_mark(row, colour) || self.is_row_at_end(row, colour) {
            return Ok(None);
        }
        let placed = self.propose_next(by, row, colour)?;
        Ok(Some(placed))
    }

    // Proposes the row's node, which may be proposed.
    pub(crate) fn propose_next(
        &mut self,
        by: u8,
        row: Row,
        colour: u8,
    ) -> Result<Placed, AllocError>
        requires may { may_mark (world_of self.old) row colour ≡ true }
        requires stamp { is_row_at_end (world_of self.old) row colour ≡ false }
        ensures ok { OnOk result (world_of self.new ≡ after (world_of self.old) (Step.Propose by row colour)) }
        ensures reply { IfOk result (λ placed.
            placed_reply (Some placed) ≡ reply (world_of self.old) (Step.Propose by row colour)) }
        ensures err { OnErr result (self.new ≡ self.old) }
    {
        let Some(node) = self.row_node(row) else {
            unreachable!()
        };
        let node = node.clone()?;
        match self.add_propose(by, row, colour, node) {
            Ok(placed) => Ok(placed),
            Err(_) => Err(AllocError),
        }
    }

    // The node, which is the row's, enters the column, and its stamp is the mark.
    fn add_propose(
        &mut self,
        by: u8,
        row: Row,
        colour: u8,
        node: Arc<Node>,
    ) -> Result<Placed, ColumnFault>
        requires may { may_mark (world_of self.old) row colour ≡ true }
        requires stamp { is_row_at_end (world_of self.old) row colour ≡ false }
        requires node { slice_get (client_at self.old row.client).begun row.number ≡ Some node.value }
        ensures ok { OnOk result (world_of self.new ≡ after_propose (world_of self.old) by row colour) }
        ensures placed { IfOk result (λ placed. placed_reply (Some placed)
            ≡ event_reply (world_of self.old) (home_of (world_of self.old) row.client) colour
            (proposed_stamp (world_of self.old) row colour)) }
        ensures err { OnErr result (self.new ≡ self.old) }
    {
        let home = self.home(row.client);
        let placed = self.regions[home as usize].propose(by, colour, node)?;
        self.board.mark(colour, row, placed.stamp);
        Ok(placed)
    }

    /// The colour's mark is a fence; for the stamps' end only where no stamp is left.
    pub fn fence(&mut self, row: Row, colour: u8, why: Why) -> Option<Mark>
        ensures world { world_of self.new ≡ after (world_of self.old) (Step.Fence row colour why) }
        ensures reply { marked_reply result ≡ reply (world_of self.old) (Step.Fence row colour why) }
    {
        if !self.may_fence(row, colour, why) {
            return None;
        }
        Some(self.add_fence(row, colour, why))
    }

    // Whether the row may be fenced in the colour.
    fn may_fence(&self, row: Row, colour: u8, why: Why) -> bool
        ensures { result ≡ may_fence (world_of self.now) row colour why }
    {
        if !self.may_mark(row, colour) {
            return false;
        }
        match why {
            Why::Memory => true,
            Why::StampEnd => self.is_row_at_end(row, colour),
        }
    }

    // Fences the colour, which may be fenced.
    fn add_fence(&mut self, row: Row, colour: u8, why: Why) -> Mark
        requires { may_fence (world_of self.old) row colour why ≡ true }
        ensures world { world_of self.new ≡ with_mark (world_of self.old) row colour (Mark.Fenced why) }
        ensures mark { result ≡ Mark.Fenced why }
    {
        self.board.fence(colour, row, why)
    }

    /// The row keeps the outcome of its marks, where none is missing and it keeps none yet.
    pub fn decide(&mut self, row: Row) -> Option<Outcome>
        ensures world { world_of self.new ≡ after (world_of self.old) (Step.Decide row) }
        ensures reply { decided_reply result ≡ reply (world_of self.old) (Step.Decide row) }
    {
        let Some(_) = self.row_node(row) else {
            return None;
        };
        if !is_open(self.last(row)) {
            return None;
        }
        self.add_decide(row)
    }

    /// The outcome that a begun row keeps; `Open` where it keeps none.
    pub fn last(&self, row: Row) -> Outcome
        requires { is_begun (world_of self.now) row ≡ true }
        ensures { result ≡ (row_of (world_of self.now) row).last }
    {
        is_lawful();
        self.board.last(row.client, row)
    }

    // Decides the row, which is begun and keeps no outcome yet.
    fn add_decide(&mut self, row: Row) -> Option<Outcome>
        requires begun { is_begun (world_of self.old) row ≡ true }
        requires last { (row_of (world_of self.old) row).last ≡ Outcome.Open }
        ensures world { world_of self.new ≡ after (world_of self.old) (Step.Decide row) }
        ensures reply { decided_reply result ≡ reply (world_of self.old) (Step.Decide row) }
    {
        is_lawful();
        let outcome = self.board.decide(row.client, row);
        decided_outcome(outcome)
    }

    /// The colour's column settles the row's node with the outcome that the row keeps, where the node is open there.
    pub fn settle(&mut self, by: u8, row: Row, colour: u8) -> Option<u64>
        ensures world { world_of self.new ≡ after (world_of self.old) (Step.Settle by row colour) }
        ensures reply { place_reply result ≡ reply (world_of self.old) (Step.Settle by row colour) }
    {
        let Some(node) = self.row_node(row) else {
            return None;
        };
        if colour >= self.shape.colours {
            return None;
        }
        let id = node.id;
        self.add_settle(by, row, colour, id)
    }

    // Settles the node of the row, which is begun, in the column, which is there.
    fn add_settle(&mut self, by: u8, row: Row, colour: u8, id: Id) -> Option<u64>
        requires begun { is_begun (world_of self.old) row ≡ true }
        requires colour { colour < self.old.shape.colours }
        requires id { id ≡ (row_of (world_of self.old) row).node.id }
        ensures world { world_of self.new ≡ after (world_of self.old) (Step.Settle by row colour) }
        ensures reply { place_reply result ≡ reply (world_of self.old) (Step.Settle by row colour) }
    {
        let home = self.home(row.client);
        let outcome = self.last(row);
        let at = self.regions[home as usize].settle(by, colour, id, outcome);
        event_at(at)
    }
}
