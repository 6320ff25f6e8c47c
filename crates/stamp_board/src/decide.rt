// The outcome of a row, in its final word.
ghost use Rattle.std.specs.Prelude.{◌≡◌, ◌≢◌, ◌+◌, ◌^◌, ◌<◌, ◌≤◌, length, take};
ghost use Rattle.log_node.specs.Outcomes.{outcome_of};
ghost use Rattle.log_node.specs.Marks.{IsOutcome};
ghost use Rattle.stamp_board.specs.Words.{outcome_from};
ghost use Rattle.stamp_board.specs.Rows.{IsRow, outcome_in};
ghost use Rattle.stamp_board.specs.Views.{Grows, KnowsAll, KnowsOutcome, Possibly, Surely};
ghost use Rattle.stamp_board.specs.Law.{AlwaysIn, AreSet, IsDecided, OnceIn};
ghost use Rattle.stamp_board.specs.Seats.{IsSeatOf, IsLater, seen};
ghost use Rattle.stamp_board.specs.Inside.{IsOf, Stays};

use crate::board::Board;
use crate::seats::Seat;
use crate::steps::Inner;
use crate::words::mark_of;
use log_node::{MAX_COLOURS, Mark, Outcome, Row, Why};
use skeen_core::outcome;

// A mark for every colour that there may be.
const MARKS: usize = MAX_COLOURS as usize;

fn word_of_outcome(decided: Outcome) -> u64
    requires { IsDecided decided }
    ensures word { outcome_from result ≡ decided }
    ensures small { (0 < result) × (result < 2 ^ 62 + 2) }
{
    match decided {
        Outcome::Open => unreachable!(),
        Outcome::Gone(Why::Memory) => 1,
        Outcome::Gone(Why::StampEnd) => 2,
        Outcome::Final(f) => f + 2,
    }
}

impl Board {
    // Loads the marks of the row's colours, and says how many they are: 0 where the row is not begun or a mark is
    // missing.
    fn take_marks(&self, seat: &mut Inner, row: Row, marks: &mut [Mark]) -> usize
        requires seat { IsOf self.now seat.old }
        requires row { IsRow self.now.size row }
        requires marks { length marks.old ≡ MAX_COLOURS }
        ensures seat { Stays seat.old seat.new }
        ensures view { Grows seat.old.me.0 seat.new.me.0 × (seat.new.me.0.mine ≡ seat.old.me.0.mine) }
        ensures count { result ≤ MAX_COLOURS }
        ensures none { let k = self.now.size in
            result ≡ 0 → OnceIn k seat.new.me.0 (λ ws. outcome_in k ws row ≡ Outcome.Open) }
        ensures some { let k = self.now.size in
            result ≢ 0 → AlwaysIn k seat.new.me.0 (λ ws. outcome_in k ws row ≡ outcome_of (take result marks.new)) }
        ensures set { AreSet (take result marks.new) }
    {
        let first = self.word(row, 0);
        let bits = self.load(seat, first);
        if bits == 0 {
            return 0;
        }
        let mut count = 0;
        for colour in 0..self.size.colours {
            if (bits >> colour) % 2 == 1 {
                let word = self.word(row, 1 + colour);
                let found = self.load(seat, word);
                if found == 0 {
                    return 0;
                }
                marks[count] = mark_of(found);
                count += 1;
            }
        }
        count
    }

    /// The outcome of the row's marks, which stands from then on unless it is open: it is open where the row is not
    /// begun, or a mark that this call looked for was missing.
    pub fn decide(&self, seat: &mut Seat, row: Row) -> Outcome
        requires seat { IsSeatOf self.now seat.old }
        requires row { IsRow self.now.size row }
        ensures seat { IsLater seat.old seat.new }
        ensures open { let k = self.now.size in
            result ≡ Outcome.Open → Possibly k (seen seat.new) (λ ws. outcome_in k ws row ≡ result) }
        ensures closed { KnowsAll (seen seat.old) row → result ≢ Outcome.Open }
        ensures known { result ≢ Outcome.Open → KnowsOutcome (seen seat.new) row result }
        ensures before { (o : Outcome) → KnowsOutcome (seen seat.old) row o → result ≡ o }
        ensures of_marks { let k = self.now.size in
            result ≢ Outcome.Open → Surely k (seen seat.new) (λ ws. outcome_in k ws row ≡ result) }
        ensures stamp { IsOutcome result }
    {
        let mut marks = [Mark::None; MARKS];
        let count = self.take_marks(&mut seat.inner, row, &mut marks);
        if count == 0 {
            return Outcome::Open;
        }
        let decided = outcome(&marks[..count]);
        let new = word_of_outcome(decided);
        self.set_final(&mut seat.inner, row, new);
        decided
    }
}
