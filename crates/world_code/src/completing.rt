// How begun appends are completed.
ghost use Rattle.std.specs.Prelude.{◌≡◌, ◌≤◌, ◌+◌, ◌∷◌, [], ℕ, Bool, true};
ghost use Rattle.world_laws.specs.declared.steps.Step.TheVariants.{Decide};
ghost use Rattle.world_laws.specs.Worlds.{is_begun, may_mark, row_of};
ghost use Rattle.world_laws.specs.Completing.{mark_steps, settle_steps, colours_of};
ghost use Rattle.world_code.specs.WorldView.{world_of};
ghost use Rattle.world_code.specs.Completed.{done_count, IsMarkStep, AreTaken, IsPartCompleted, IsCompleted};

use crate::replies::{decided_reply, marked_reply, place_reply, placed_reply};
use crate::world::World;
use log_node::{Colours, MAX_COLOURS, Outcome, Row, Why};
use world_laws::{Reply, can_complete};

/// What completing an append came to: the outcome that its row keeps, and how many steps were done.
#[derive(Drop, Clone, Copy, Debug, PartialEq)]
pub struct Completed {
    pub outcome: Outcome,
    pub steps: u8,
}

/// How many steps were done, and how many more may be taken.
#[derive(Drop, Clone, Copy)]
pub(crate) struct Taken {
    pub(crate) done: u8,
    pub(crate) left: u8,
}

// How many steps the reply tells of: one, or none.
fn done_count(reply: &Reply) -> u8
    ensures count { result ≡ done_count reply.now }
    ensures few { result ≤ 1 }
{
    match reply {
        Reply::Nothing => 0,
        Reply::Begun { .. } => 1,
        Reply::Event { .. } => 1,
        Reply::Marked(_) => 1,
        Reply::Decided(_) => 1,
        Reply::Played { .. } => 1,
    }
}

impl World {
    /// Completes a begun append for anybody: its missing marks are set, it is decided, and its node is settled in each
    /// of its columns. Where a proposal finds no memory, its colour is fenced. A complete append stays as it is.
    pub fn complete(&mut self, by: u8, row: Row) -> Completed
        requires { is_begun (world_of self.old) row ≡ true }
        ensures { IsCompleted (world_of self.old) by row (world_of self.new) result }
    {
        can_complete();
        let _whole = &self.shape;
        let steps = self.complete_first(by, row, 2 * MAX_COLOURS + 1);
        Completed {
            outcome: self.last(row),
            steps,
        }
    }

    /// Takes the first steps that complete a begun append, no more than `limit` of them; answers how many were done.
    pub fn complete_first(&mut self, by: u8, row: Row, limit: u8) -> u8
        requires { is_begun (world_of self.old) row ≡ true }
        ensures { IsPartCompleted (world_of self.old) by row limit (world_of self.new) result }
    {
        let marks = self.mark_first(by, row, limit);
        let decision = self.decide_first(row, marks.left);
        let settles = self.settle_first(by, row, decision.left);
        marks.done + decision.done + settles.done
    }

    /// Sets the missing mark of a begun row's colour: a fence where no stamp is left, a proposal where its memory is
    /// found, else a fence for want of memory.
    pub fn mark_colour(&mut self, by: u8, row: Row, colour: u8) -> Reply
        requires { may_mark (world_of self.old) row colour ≡ true }
        ensures { IsMarkStep (world_of self.old) by row colour (world_of self.new) result }
    {
        if self.is_row_at_end(row, colour) {
            return marked_reply(self.fence(row, colour, Why::StampEnd));
        }
        match self.propose_next(by, row, colour) {
            Ok(placed) => placed_reply(Some(placed)),
            Err(_) => marked_reply(self.fence(row, colour, Why::Memory)),
        }
    }

    // The colours of a begun row's node.
    fn row_colours(&self, row: Row) -> Colours
        requires { is_begun (world_of self.now) row ≡ true }
        ensures { result ≡ (row_of (world_of self.now) row).node.colours }
    {
        match self.row_node(row) {
            Some(node) => node.colours,
            None => unreachable!(),
        }
    }

    // Sets the missing marks, the least colour first, no more than `limit` of them.
    fn mark_first(&mut self, by: u8, row: Row, limit: u8) -> Taken
        requires { is_begun (world_of self.old) row ≡ true }
        ensures taken { (found : ℕ → Bool) × AreTaken (world_of self.old)
            (mark_steps (world_of self.old) by row found (colours_of (world_of self.old) row)) limit
            (world_of self.new) result }
        ensures few { result.done + result.left ≤ limit }
    {
        let mut taken = Taken {
            done: 0,
            left: limit,
        };
        for colour in self.row_colours(row).members() {
            if taken.left > 0 && self.may_mark(row, colour) {
                let reply = self.mark_colour(by, row, colour);
                taken.done += done_count(&reply);
                taken.left -= 1;
            }
        }
        taken
    }

    // Decides the row, if a step is allowed.
    fn decide_first(&mut self, row: Row, limit: u8) -> Taken
        ensures taken { AreTaken (world_of self.old) (Decide row ∷ []) limit (world_of self.new) result }
        ensures few { result.done + result.left ≤ limit }
    {
        if limit == 0 {
            return Taken { done: 0, left: 0 };
        }
        let reply = decided_reply(self.decide(row));
        Taken {
            done: done_count(&reply),
            left: limit - 1,
        }
    }

    // Settles the row's node in its columns, the least colour first, in no more than `limit` of them.
    fn settle_first(&mut self, by: u8, row: Row, limit: u8) -> Taken
        requires { is_begun (world_of self.old) row ≡ true }
        ensures taken { AreTaken (world_of self.old) (settle_steps by row (colours_of (world_of self.old) row)) limit
            (world_of self.new) result }
        ensures few { result.done + result.left ≤ limit }
    {
        let mut taken = Taken {
            done: 0,
            left: limit,
        };
        for colour in self.row_colours(row).members() {
            if taken.left > 0 {
                let reply = place_reply(self.settle(by, row, colour));
                taken.done += done_count(&reply);
                taken.left -= 1;
            }
        }
        taken
    }
}
