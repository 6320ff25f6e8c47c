// What a client's seat and a column's tell one another, under the column's turn.
ghost use Rattle.std.specs.Prelude.{◌≡◌, ◌≢◌, ◌<◌, ℕ, true, false, None, List, length, IfSome};
ghost use Rattle.std.specs.List.{filter, find};
ghost use Rattle.std.specs.Option.{option_map};
ghost use Rattle.log_node.specs.declared.node.Node.{Node};
ghost use Rattle.log_node.specs.declared.marks.Mark.TheVariants.{Number, Fenced};
ghost use Rattle.log_node.specs.declared.marks.Why.TheVariants.{StampEnd};
ghost use Rattle.log_node.specs.Seen.{BegunAppend};
ghost use Rattle.log_node.specs.Sets.{has};
ghost use Rattle.log_node.specs.Standings.{Standing, open_entry};
ghost use Rattle.skeen_core.specs.Queues.{has_open};
ghost use Rattle.col_core.specs.History.{entries, IsAtEnd};
ghost use Rattle.column.specs.Columns.{is_open_below};
ghost use Rattle.col_core.specs.Ids.{IsFinal};
ghost use Rattle.stamp_board.specs.Views.{Agree, KnowsBegun, KnowsMark, KnowsOutcome, Learns};
ghost use Rattle.stamp_board.specs.Rows.{IsRow};
ghost use Rattle.stamp_board.specs.Seats.{IsSeatOf, IsClients, IsColumnOf, IsLater, IsLaterColumn, seen, column_seen, set_mark};
ghost use Rattle.chain_store.specs.declared.told.Told.{Told};
ghost use Rattle.chain_store.specs.Histories.{entries_in};
ghost use Rattle.chain_store.specs.Marks.{stamps_of, numbers};
ghost use Rattle.chain_store.specs.Columns.{Gains, Stands, Stays, told_propose, told_settle, tag_of};
ghost use Rattle.chain_store.specs.Rows.{IsBegunRow, KnowsRow, OneNode, place_after, IsKnownBelow};
ghost use Rattle.chain_store.specs.Proposals.{HasProposal, IsMarkedOpen};
ghost use Rattle.chain_store.specs.Steps.{MatchStep, mark_after};

use crate::proposing::Step;
use crate::seated::Seated;
use column::Below;
use log_node::{Begun, Id, Key, Mark, Outcome, Row};
use stamp_board::{Board, Seat};

impl Seated {
    // The column's seat then knows what the client's knows.
    fn learn(&mut self, board: &Board, seat: &mut Seat)
        requires { IsColumnOf board.now self.old.seat × IsSeatOf board.now seat.old }
        ensures tag { tag_of self.new ≡ tag_of self.old }
        ensures column { self.new.column ≡ self.old.column }
        ensures later { IsLaterColumn self.old.seat self.new.seat }
        ensures stays { Stays self.old self.new }
        ensures seat { IsLater seat.old seat.new × (seen seat.new ≡ seen seat.old) }
        ensures learns { Learns (seen seat.old) (column_seen self.new.seat) }
    {
        let note = board.tell(seat);
        board.learn(&mut self.seat, note);
    }

    // The client's seat then knows what the column's knows.
    fn teach(&mut self, board: &Board, seat: &mut Seat)
        requires { IsColumnOf board.now self.old.seat × IsSeatOf board.now seat.old }
        ensures tag { tag_of self.new ≡ tag_of self.old }
        ensures column { self.new.column ≡ self.old.column }
        ensures later { IsLaterColumn self.old.seat self.new.seat × (column_seen self.new.seat ≡ column_seen self.old.seat) }
        ensures stays { Stays self.old self.new }
        ensures seat { IsLater seat.old seat.new }
        ensures learns { Learns (column_seen self.old.seat) (seen seat.new) }
        ensures agree { Agree (seen seat.old) (column_seen self.old.seat) }
        ensures own { IsClients board.now seat.old → (j : ℕ) (x : Node) → j < board.now.size.rows
            → KnowsBegun (column_seen self.old.seat) (record { client = seat.old.client; number = j }) x
            → j < seat.old.used }
    {
        let note = board.note(&mut self.seat);
        board.hear(seat, note);
    }

    /// Proposes the append of which the client's seat knows; the client's seat then knows the mark.
    pub(crate) fn propose_told(
        &mut self,
        board: &Board,
        seat: &mut Seat,
        by: u8,
        begun: &Begun,
    ) -> Step
        requires seats { IsColumnOf board.now self.old.seat × IsSeatOf board.now seat.old }
        requires begun { KnowsRow board.now.size self.old.column.region (seen seat.old) begun.now }
        requires colour { has begun.now.colours self.old.column.colour ≡ true }
        requires maker { by < board.now.size.clients }
        ensures tag { tag_of self.new ≡ tag_of self.old }
        ensures seat { IsLater seat.old seat.new }
        ensures step { MatchStep result
            (λ n. (x : Node) × IsBegunRow board.now.size self.old.column.region (seen seat.new) begun.now x
            × Gains self.old self.new (told_propose self.old.column.colour by x n))
            (λ _. Stays self.old self.new) }
        ensures known { KnowsMark (seen seat.new) begun.now.row self.old.column.colour (mark_after result) }
        ensures set { mark_after result ≢ Mark.None }
        ensures agrees { (log : List Told) → Stands self.new log
            → stamps_of begun.now.row log ≡ numbers (mark_after result) }
        ensures entered { (log : List Told) → Stands self.new log → (n : ℕ) → mark_after result ≡ Number n
            → HasProposal board.now.size self.old.column.region self.old.column.colour (seen seat.new) begun.now log n }
        ensures ended { (log : List Told) → Stands self.new log → mark_after result ≡ Fenced StampEnd
            → (x : Node) × IsBegunRow board.now.size self.old.column.region (seen seat.new) begun.now x
            × IsAtEnd (entries_in log) x.floor }
        ensures one_node { OneNode (seen seat.old) begun.now.row }
    {
        self.learn(board, seat);
        let step = self.propose(board, by, begun);
        self.teach(board, seat);
        step
    }

    /// Settles the append of which the client's seat knows, and answers the position of its final key.
    pub(crate) fn settle_told(
        &mut self,
        board: &Board,
        seat: &mut Seat,
        by: u8,
        begun: &Begun,
        outcome: Outcome,
    ) -> Option<u64>
        requires seats { IsColumnOf board.now self.old.seat × IsSeatOf board.now seat.old }
        requires begun { KnowsRow board.now.size self.old.column.region (seen seat.old) begun.now }
        requires colour { has begun.now.colours self.old.column.colour ≡ true }
        requires maker { by < board.now.size.clients }
        requires outcome { (outcome ≢ Outcome.Open) × KnowsOutcome (seen seat.old) begun.now.row outcome }
        requires stands { (log : List Told) × Stands self.old log }
        ensures tag { tag_of self.new ≡ tag_of self.old }
        ensures seat { IsLater seat.old seat.new }
        ensures event { has_open begun.now.id (entries self.old.column.journal) ≡ true
            → Gains self.old self.new (told_settle by begun.now.id outcome) }
        ensures look { has_open begun.now.id (entries self.old.column.journal) ≡ false → Stays self.old self.new }
        ensures closed { open_entry begun.now.id (entries self.new.column.journal) ≡ None }
        ensures stands { (f : ℕ) → outcome ≡ Outcome.Final f → IsFinal self.new.column.journal begun.now.id f }
        ensures position { result ≡ place_after self.new.column.journal begun.now.id outcome }
        ensures one_node { OneNode (seen seat.old) begun.now.row }
    {
        self.learn(board, seat);
        self.settle(board, by, begun, outcome);
        self.teach(board, seat);
        self.final_place(begun.id, outcome)
    }

    // The position of the id's key under the outcome's number; none where it has none.
    fn final_place(&self, id: Id, outcome: Outcome) -> Option<u64>
        ensures { result ≡ place_after self.now.column.journal id outcome }
    {
        match outcome {
            Outcome::Final(stamp) => self.column.place(Key { stamp, id }),
            Outcome::Open | Outcome::Gone(_) => None,
        }
    }

    // The same, where the column's seat first looks at its mark of a row.
    fn teach_marked(&mut self, board: &Board, seat: &mut Seat, row: Row)
        requires seats { IsColumnOf board.now self.old.seat × IsSeatOf board.now seat.old }
        requires row { IsRow board.now.size row }
        ensures tag { tag_of self.new ≡ tag_of self.old }
        ensures column { self.new.column ≡ self.old.column }
        ensures later { IsLaterColumn self.old.seat self.new.seat }
        ensures stays { Stays self.old self.new }
        ensures seat { IsLater seat.old seat.new }
        ensures learns { Learns (column_seen self.new.seat) (seen seat.new) }
        ensures agree { Agree (seen seat.old) (column_seen self.new.seat) }
        ensures own { IsClients board.now seat.old → (j : ℕ) (x : Node) → j < board.now.size.rows
            → KnowsBegun (column_seen self.old.seat) (record { client = seat.old.client; number = j }) x
            → j < seat.old.used }
        ensures mark { set_mark self.new.seat row ≢ Mark.None → KnowsMark (column_seen self.new.seat) row
            self.old.column.colour (set_mark self.new.seat row) }
    {
        board.look(&mut self.seat, row);
        self.teach(board, seat);
    }

    // The same, where the column's seat first looks at its mark of an append, if there is one.
    fn teach_first(&mut self, board: &Board, seat: &mut Seat, first: &Option<Begun>)
        requires seats { IsColumnOf board.now self.old.seat × IsSeatOf board.now seat.old }
        requires rows { IfSome first.now (λ b. IsRow board.now.size b.row) }
        ensures tag { tag_of self.new ≡ tag_of self.old }
        ensures column { self.new.column ≡ self.old.column }
        ensures later { IsLaterColumn self.old.seat self.new.seat }
        ensures stays { Stays self.old self.new }
        ensures seat { IsLater seat.old seat.new }
        ensures learns { Learns (column_seen self.new.seat) (seen seat.new) }
        ensures agree { Agree (seen seat.old) (column_seen self.new.seat) }
        ensures own { IsClients board.now seat.old → (j : ℕ) (x : Node) → j < board.now.size.rows
            → KnowsBegun (column_seen self.old.seat) (record { client = seat.old.client; number = j }) x
            → j < seat.old.used }
        ensures mark { IfSome first.now (λ b. set_mark self.new.seat b.row ≢ Mark.None
            → KnowsMark (column_seen self.new.seat) b.row self.old.column.colour (set_mark self.new.seat b.row)) }
    {
        match first {
            Some(begun) => self.teach_marked(board, seat, begun.row),
            None => self.teach(board, seat),
        }
    }

    /// The open entries with a key below; the client's seat then knows the least one's row and its mark here.
    pub(crate) fn below_told(&mut self, board: &Board, seat: &mut Seat, key: Key) -> Below
        requires seats { IsColumnOf board.now self.old.seat × IsSeatOf board.now seat.old }
        requires stands { (log : List Told) × Stands self.old log }
        ensures tag { tag_of self.new ≡ tag_of self.old }
        ensures seat { IsLater seat.old seat.new }
        ensures stays { Stays self.old self.new }
        ensures column { self.new.column ≡ self.old.column }
        ensures events { result.events ≡ length self.old.column.journal }
        ensures count { result.count ≡ length (filter (is_open_below key) (entries self.old.column.journal)) }
        ensures first_id { option_map (λ (b : BegunAppend). b.id) result.first
            ≡ option_map (λ (e : Standing). e.key.id) (find (is_open_below key) (entries self.old.column.journal)) }
        ensures known { IfSome result.first
            (IsKnownBelow board.now.size self.old.column.region self.old.column.colour (seen seat.new)) }
        ensures own { IfSome result.first (λ b. IsClients board.now seat.old → b.row.client ≡ seat.old.client
            → b.row.number < seat.old.used) }
        ensures marked { (log : List Told) → Stands self.new log → IfSome result.first
            (IsMarkedOpen board.now.size self.old.column.colour (seen seat.old) (seen seat.new) log) }
    {
        let below = self.column.below(key);
        self.teach_first(board, seat, &below.first);
        below
    }
}
