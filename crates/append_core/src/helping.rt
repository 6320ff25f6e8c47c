// How anybody completes a begun append: its missing marks are set, it is decided, and it is settled in each of its
// colours.
ghost use Rattle.std.specs.Prelude.{◌≡◌, ◌≢◌, ◌<◌, ℕ, true};
ghost use Rattle.log_node.specs.Marks.{IsOutcome};
ghost use Rattle.log_node.specs.Sets.{has};
ghost use Rattle.stamp_board.specs.Seats.{IsLater};
ghost use Rattle.stamp_board.specs.Views.{KnowsOutcome};
ghost use Rattle.chain_store.specs.Holds.{IsHold, KnowsAppend, SameBut, view_of};
ghost use Rattle.chain_store.specs.Going.{GoesOn};
ghost use Rattle.append_core.specs.Helping.{IsStepIn};
ghost use Rattle.append_core.specs.Settled.{HoldKnowsMarked, HoldKnowsSettled};

use chain_store::{Hold, Region};
use log_node::{Begun, Outcome};
use std::sync::Wait;

// The append is marked in one of its colours.
fn mark_colour<R: Wait>(rt: &R, region: &Region, hold: &mut Hold, begun: &Begun, colour: u8)
    requires hold { IsHold region.now hold.old }
    requires begun { KnowsAppend region.now hold.old begun.now }
    requires colour { has begun.now.colours colour ≡ true }
    ensures hold { IsHold region.now hold.new }
    ensures seat { IsLater hold.old.seat hold.new.seat }
    ensures next { hold.new.next ≡ hold.old.next }
    ensures goes { GoesOn (IsStepIn begun.now) hold.old hold.new }
    ensures marked { HoldKnowsMarked hold.new begun.now colour }
{
    region.propose(rt, hold, colour, begun);
}

// The append is marked in each of its colours, the least first.
fn mark<R: Wait>(rt: &R, region: &Region, hold: &mut Hold, begun: &Begun)
    requires hold { IsHold region.now hold.old }
    requires begun { KnowsAppend region.now hold.old begun.now }
    ensures hold { IsHold region.now hold.new }
    ensures seat { IsLater hold.old.seat hold.new.seat }
    ensures next { hold.new.next ≡ hold.old.next }
    ensures goes { GoesOn (IsStepIn begun.now) hold.old hold.new }
    ensures marked { (c : ℕ) → has begun.now.colours c ≡ true → HoldKnowsMarked hold.new begun.now c }
{
    for colour in begun.colours.members() {
        mark_colour(rt, region, hold, begun, colour);
    }
}

// The append, which is marked in one of its colours, is settled there with the outcome that its row keeps.
fn settle_colour<R: Wait>(
    rt: &R,
    region: &Region,
    hold: &mut Hold,
    begun: &Begun,
    outcome: Outcome,
    colour: u8,
)
    requires hold { IsHold region.now hold.old }
    requires begun { KnowsAppend region.now hold.old begun.now }
    requires outcome { (outcome ≢ Outcome.Open) × KnowsOutcome (view_of hold.old) begun.now.row outcome }
    requires colour { has begun.now.colours colour ≡ true }
    requires marked { HoldKnowsMarked hold.old begun.now colour }
    ensures hold { IsHold region.now hold.new }
    ensures others { SameBut colour hold.old hold.new }
    ensures seat { IsLater hold.old.seat hold.new.seat }
    ensures next { hold.new.next ≡ hold.old.next }
    ensures goes { GoesOn (IsStepIn begun.now) hold.old hold.new }
    ensures settled { HoldKnowsSettled hold.new begun.now outcome colour }
{
    region.settle(rt, hold, colour, begun, outcome);
}

// The append, which is marked in each of its colours, is settled in each with the outcome that its row keeps.
fn settle<R: Wait>(rt: &R, region: &Region, hold: &mut Hold, begun: &Begun, outcome: Outcome)
    requires hold { IsHold region.now hold.old }
    requires begun { KnowsAppend region.now hold.old begun.now }
    requires outcome { (outcome ≢ Outcome.Open) × KnowsOutcome (view_of hold.old) begun.now.row outcome }
    requires marked { (c : ℕ) → has begun.now.colours c ≡ true → HoldKnowsMarked hold.old begun.now c }
    ensures hold { IsHold region.now hold.new }
    ensures seat { IsLater hold.old.seat hold.new.seat }
    ensures next { hold.new.next ≡ hold.old.next }
    ensures goes { GoesOn (IsStepIn begun.now) hold.old hold.new }
    ensures settled { (c : ℕ) → has begun.now.colours c ≡ true → HoldKnowsSettled hold.new begun.now outcome c }
{
    for colour in begun.colours.members() {
        settle_colour(rt, region, hold, begun, outcome, colour);
    }
}

/// Completes a begun append for anybody, and answers the outcome that its row keeps: where its mark of a colour is missing
/// it is proposed there, the least colour first; it is decided; and it is settled in each of its colours.
pub fn help<R: Wait>(rt: &R, region: &Region, hold: &mut Hold, begun: &Begun) -> Outcome
    requires hold { IsHold region.now hold.old }
    requires begun { KnowsAppend region.now hold.old begun.now }
    ensures hold { IsHold region.now hold.new }
    ensures seat { IsLater hold.old.seat hold.new.seat }
    ensures next { hold.new.next ≡ hold.old.next }
    ensures outcome { (result ≢ Outcome.Open) × KnowsOutcome (view_of hold.new) begun.now.row result × IsOutcome result }
    ensures goes { GoesOn (IsStepIn begun.now) hold.old hold.new }
    ensures settled { (c : ℕ) → has begun.now.colours c ≡ true → HoldKnowsSettled hold.new begun.now result c }
{
    mark(rt, region, hold, begun);
    let outcome = region.decide(hold, begun.row);
    settle(rt, region, hold, begun, outcome);
    outcome
}
