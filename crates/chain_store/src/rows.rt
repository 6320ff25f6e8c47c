// Calls on begun appends, each under one turn of a column.
ghost use Rattle.std.specs.Prelude.{◌≡◌, ◌≢◌, ◌<◌, ℕ, true, None, length, IfSome};
ghost use Rattle.std.specs.List.{filter, find};
ghost use Rattle.std.specs.Option.{option_map};
ghost use Rattle.log_node.specs.declared.marks.Mark.TheVariants.{Number, Fenced};
ghost use Rattle.log_node.specs.declared.marks.Why.TheVariants.{StampEnd};
ghost use Rattle.log_node.specs.declared.node.Node.{Node};
ghost use Rattle.log_node.specs.Seen.{BegunAppend};
ghost use Rattle.log_node.specs.Sets.{has};
ghost use Rattle.log_node.specs.Standings.{Standing, open_entry};
ghost use Rattle.col_core.specs.History.{entries, IsAtEnd};
ghost use Rattle.column.specs.Columns.{is_open_below};
ghost use Rattle.stamp_board.specs.Views.{KnowsMark, KnowsOutcome};
ghost use Rattle.stamp_board.specs.Seats.{IsSeatOf, IsClients, IsLater, seen as seat_seen};
ghost use Rattle.turn_cell.specs.Cells.{seen};
ghost use Rattle.col_core.specs.Ids.{IsFinal};
ghost use Rattle.chain_store.specs.Histories.{entries_in};
ghost use Rattle.chain_store.specs.Marks.{stamps_of, numbers};
ghost use Rattle.chain_store.specs.Columns.{told_propose, told_settle};
ghost use Rattle.chain_store.specs.Passes.{IsHolder, IsBeside, SeesMore, MakesOne, Looks, tag_in};
ghost use Rattle.chain_store.specs.Rows.{IsBegunRow, KnowsRow, IsKnownBelow, OneNode, place_after};
ghost use Rattle.chain_store.specs.Proposals.{HasProposal, IsMarkedOpen};
ghost use Rattle.chain_store.specs.Steps.{MatchAt};

use crate::proposing::Step;
use crate::seated::Seated;
use crate::turns::{begin, end};
use column::Below;
use log_node::{At, Begun, Key, Mark, Outcome};
use stamp_board::{Board, Seat};
use std::sync::Wait;
use turn_cell::{Cell, Pass};

/// What a proposal answers: its event, or a look where it added none, and the mark that stands.
#[derive(Clone, Copy, Debug, PartialEq, Eq)]
pub struct Proposed {
    pub at: At,
    pub mark: Mark,
}

/// What a settling answers: its event, or a look where it added none, and the position of the final key in the line.
#[derive(Clone, Copy, Debug, PartialEq, Eq)]
pub struct Settled {
    pub at: At,
    pub position: Option<u64>,
}

/// Proposes a begun append: where the column has not marked its row, its node enters as open and the mark is its number,
/// or, where the node cannot enter, the mark is a fence. The seat then knows the mark. Waits for the turn.
pub fn propose_in<R: Wait>(
    rt: &R,
    board: &Board,
    cell: &Cell<Seated>,
    pass: &mut Pass<Seated>,
    seat: &mut Seat,
    by: u8,
    begun: &Begun,
) -> Proposed
    requires cell { IsBeside board.now cell.now }
    requires pass { IsHolder cell.now by pass.old }
    requires seat { IsSeatOf board.now seat.old }
    requires client { by < board.now.size.clients }
    requires begun { KnowsRow board.now.size (tag_in cell.now).region (seat_seen seat.old) begun.now }
    requires colour { has begun.now.colours (tag_in cell.now).colour ≡ true }
    ensures pass { IsHolder cell.now by pass.new }
    ensures seat { IsLater seat.old seat.new }
    ensures known { KnowsMark (seat_seen seat.new) begun.now.row (tag_in cell.now).colour result.mark }
    ensures set { result.mark ≢ Mark.None }
    ensures agrees { stamps_of begun.now.row (seen pass.new) ≡ numbers result.mark }
    ensures entered { (n : ℕ) → result.mark ≡ Number n → HasProposal board.now.size (tag_in cell.now).region
        (tag_in cell.now).colour (seat_seen seat.new) begun.now (seen pass.new) n }
    ensures at { MatchAt result.at
        (λ _. (x : Node) × (n : ℕ) × IsBegunRow board.now.size (tag_in cell.now).region (seat_seen seat.new) begun.now x
        × (result.mark ≡ Number n)
        × MakesOne by (told_propose (tag_in cell.now).colour by x n) (seen pass.old) (seen pass.new) result.at)
        (λ events. Looks by (seen pass.old) (seen pass.new) events) }
    ensures ended { result.mark ≡ Fenced StampEnd
        → (x : Node) × IsBegunRow board.now.size (tag_in cell.now).region (seat_seen seat.new) begun.now x
        × IsAtEnd (entries_in (seen pass.new)) x.floor }
    ensures one_node { OneNode (seat_seen seat.old) begun.now.row }
{
    let mut turn = begin(rt, cell, pass, by);
    match turn.value.propose_told(board, seat, by, begun) {
        Step::Added(number) => Proposed {
            at: end(turn, pass),
            mark: Mark::Number(number),
        },
        Step::Looked(mark) => Proposed {
            at: end(turn, pass),
            mark,
        },
    }
}

/// Settles a begun append with the outcome of its row: where its id is open, it becomes final under the number,
/// or goes. It is then not open. Waits for the turn.
pub fn settle_in<R: Wait>(
    rt: &R,
    board: &Board,
    cell: &Cell<Seated>,
    pass: &mut Pass<Seated>,
    seat: &mut Seat,
    by: u8,
    begun: &Begun,
    outcome: Outcome,
) -> Settled
    requires cell { IsBeside board.now cell.now }
    requires pass { IsHolder cell.now by pass.old }
    requires seat { IsSeatOf board.now seat.old }
    requires client { by < board.now.size.clients }
    requires begun { KnowsRow board.now.size (tag_in cell.now).region (seat_seen seat.old) begun.now }
    requires colour { has begun.now.colours (tag_in cell.now).colour ≡ true }
    requires outcome { (outcome ≢ Outcome.Open) × KnowsOutcome (seat_seen seat.old) begun.now.row outcome }
    ensures pass { IsHolder cell.now by pass.new }
    ensures seat { IsLater seat.old seat.new }
    ensures at { MatchAt result.at
        (λ _. MakesOne by (told_settle by begun.now.id outcome) (seen pass.old) (seen pass.new) result.at)
        (λ events. Looks by (seen pass.old) (seen pass.new) events) }
    ensures closed { open_entry begun.now.id (entries (entries_in (seen pass.new))) ≡ None }
    ensures stands { (f : ℕ) → outcome ≡ Outcome.Final f → IsFinal (entries_in (seen pass.new)) begun.now.id f }
    ensures position { result.position ≡ place_after (entries_in (seen pass.new)) begun.now.id outcome }
    ensures one_node { OneNode (seat_seen seat.old) begun.now.row }
{
    let mut turn = begin(rt, cell, pass, by);
    let position = turn.value.settle_told(board, seat, by, begun, outcome);
    Settled {
        at: end(turn, pass),
        position,
    }
}

/// The open entries with a key below, and the least of them, whose row and mark the seat then knows. Waits for the turn.
pub fn below_in<R: Wait>(
    rt: &R,
    board: &Board,
    cell: &Cell<Seated>,
    pass: &mut Pass<Seated>,
    seat: &mut Seat,
    by: u8,
    key: Key,
) -> Below
    requires cell { IsBeside board.now cell.now }
    requires pass { IsHolder cell.now by pass.old }
    requires seat { IsSeatOf board.now seat.old }
    ensures pass { IsHolder cell.now by pass.new }
    ensures seat { IsLater seat.old seat.new }
    ensures look { Looks by (seen pass.old) (seen pass.new) result.events }
    ensures count { result.count ≡ length (filter (is_open_below key) (entries (entries_in (seen pass.new)))) }
    ensures first_id { option_map (λ (b : BegunAppend). b.id) result.first
        ≡ option_map (λ (e : Standing). e.key.id) (find (is_open_below key) (entries (entries_in (seen pass.new)))) }
    ensures known { IfSome result.first
        (IsKnownBelow board.now.size (tag_in cell.now).region (tag_in cell.now).colour (seat_seen seat.new)) }
    ensures own { IfSome result.first (λ b. IsClients board.now seat.old → b.row.client ≡ seat.old.client
        → b.row.number < seat.old.used) }
    ensures marked { IfSome result.first (IsMarkedOpen board.now.size (tag_in cell.now).colour (seat_seen seat.old)
        (seat_seen seat.new) (seen pass.new)) }
{
    let mut turn = begin(rt, cell, pass, by);
    let below = turn.value.below_told(board, seat, key);
    end(turn, pass);
    below
}
