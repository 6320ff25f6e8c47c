// The steps of an append to several colours after its row is begun.
ghost use Rattle.std.specs.Prelude.{◌≡◌, ◌≢◌, ◌≤◌, length, None, IfErr, IfOk};
ghost use Rattle.log_node.specs.declared.node.Node.{Node};
ghost use Rattle.stamp_board.specs.Seats.{IsLater};
ghost use Rattle.stamp_board.specs.Views.{KnowsOutcome};
ghost use Rattle.chain_store.specs.declared.hold.Hold.{Hold};
ghost use Rattle.chain_store.specs.Going.{GoesOn};
ghost use Rattle.chain_store.specs.Holds.{IsHold, KnowsAppend, view_of};
ghost use Rattle.append_core.specs.Helping.{IsStepIn};
ghost use Rattle.append_core.specs.Several.{HoldStopsAfter, own_append};
ghost use Rattle.append_core.specs.Inside.{ArePointsOf, AreProposed, HasDecided, HasProposed, HasSettled, IsAhead, IsNextOf};
ghost use Rattle.append_core.specs.Inside.{IsStopAt, TakesAll, end_after};

use crate::course::Course;
use crate::stood::Point;
use chain_store::{Hold, Region};
use fuzzy_io::Gate;
use log_node::{Begun, MAX_COLOURS, Mark, Outcome, Why};
use std::sync::Wait;

// The first colour whose mark is a fence for the stamps' end, with the mark of one colour more.
fn first_end(ended: Option<u8>, colour: u8, mark: Mark) -> Option<u8>
    ensures { result ≡ end_after ended colour mark }
{
    match ended {
        Some(first) => Some(first),
        None => match mark {
            Mark::Fenced(Why::StampEnd) => Some(colour),
            Mark::None | Mark::Number(_) | Mark::Fenced(Why::Memory) => None,
        },
    }
}

// The append is proposed in the points' colours, the least first, up to the stop. Answers the least colour whose mark is
// a fence for the stamps' end, if there is one; or after which step it stopped.
fn propose_all<R: Wait, G: Gate>(
    rt: &R,
    gate: &G,
    region: &Region,
    hold: &mut Hold,
    begun: &Begun,
    course: Course,
    points: &mut Vec<Point>,
) -> Result<Option<u8>, u8>
    requires hold { IsHold region.now hold.old }
    requires begun { KnowsAppend region.now hold.old begun.now }
    requires few { length points.old.items ≤ MAX_COLOURS }
    requires points { ArePointsOf points.old.items begun.now.colours }
    ensures hold { IsHold region.now hold.new }
    ensures begun { KnowsAppend region.now hold.new begun.now }
    ensures points { ArePointsOf points.new.items begun.now.colours }
    ensures few { length points.new.items ≡ length points.old.items }
    ensures ok { IfOk result (λ ended. (g : Hold) (x : Node) → IsNextOf region.now g x → begun.now ≡ own_append g x
        → AreProposed region.now g hold.old x points.old.items 0 None → IsAhead course.stop 1
        → HasProposed region.now g hold.new x points.new.items ended course.stop) }
    ensures err { IfErr result (λ steps. (g : Hold) (x : Node) → IsNextOf region.now g x → begun.now ≡ own_append g x
        → AreProposed region.now g hold.old x points.old.items 0 None
        → IsStopAt region.now g hold.new x course.stop steps) }
{
    let mut ended = None;
    for n in 0..points.len() {
        let colour = points[n].colour;
        let proposed = region.propose(rt, hold, colour, begun);
        points[n].at = proposed.at;
        ended = first_end(ended, colour, proposed.mark);
        let step = n as u8 + 2;
        if !course.goes_on(rt, gate, step) {
            return Err(step);
        }
    }
    Ok(ended)
}

// The append, which is marked in all its colours, is settled in them, the least first, up to the stop. Notes the position
// in each line, where it stands there already. Refused with the step after which it stopped.
fn settle_all<R: Wait, G: Gate>(
    rt: &R,
    gate: &G,
    region: &Region,
    hold: &mut Hold,
    begun: &Begun,
    outcome: Outcome,
    course: Course,
    points: &[Point],
    places: &mut [Option<u64>],
) -> Result<(), u8>
    requires hold { IsHold region.now hold.old }
    requires begun { KnowsAppend region.now hold.old begun.now }
    requires outcome { (outcome ≢ Outcome.Open) × KnowsOutcome (view_of hold.old) begun.now.row outcome }
    requires few { (length points.now ≤ MAX_COLOURS) × (length places.old ≡ MAX_COLOURS) }
    requires points { ArePointsOf points.now begun.now.colours }
    ensures hold { IsHold region.now hold.new }
    ensures seat { IsLater hold.old.seat hold.new.seat }
    ensures goes { GoesOn (IsStepIn begun.now) hold.old hold.new }
    ensures places { length places.new ≡ MAX_COLOURS }
    ensures ok { IfOk result (λ _. (g : Hold) (x : Node) → IsNextOf region.now g x → begun.now ≡ own_append g x
        → HasDecided region.now g hold.old x outcome places.old course.stop
        → HasSettled region.now g hold.new x outcome places.new course.stop) }
    ensures err { IfErr result (λ steps. (g : Hold) (x : Node) → IsNextOf region.now g x → begun.now ≡ own_append g x
        → HasDecided region.now g hold.old x outcome places.old course.stop
        → IsStopAt region.now g hold.new x course.stop steps) }
{
    let first = points.len() as u8 + 3;
    for n in 0..points.len() {
        let settled = region.settle(rt, hold, points[n].colour, begun, outcome);
        places[n] = settled.position;
        let step = first + n as u8;
        if !course.goes_on(rt, gate, step) {
            return Err(step);
        }
    }
    Ok(())
}

/// All steps of a begun append after the first, up to the stop. Answers its outcome, and the least colour whose mark is a
/// fence for the stamps' end, if there is one; or after which step it stopped.
pub(crate) fn take_steps<R: Wait, G: Gate>(
    rt: &R,
    gate: &G,
    region: &Region,
    hold: &mut Hold,
    begun: &Begun,
    course: Course,
    points: &mut Vec<Point>,
    places: &mut [Option<u64>],
) -> Result<(Outcome, Option<u8>), u8>
    requires hold { IsHold region.now hold.old }
    requires begun { KnowsAppend region.now hold.old begun.now }
    requires few { (length points.old.items ≤ MAX_COLOURS) × (length places.old ≡ MAX_COLOURS) }
    requires points { ArePointsOf points.old.items begun.now.colours }
    requires own { (g : Hold) × (x : Node) × IsNextOf region.now g x × (begun.now ≡ own_append g x)
        × HoldStopsAfter region.now g hold.old x 1 × IsAhead course.stop 1 }
    ensures hold { IsHold region.now hold.new }
    ensures points { ArePointsOf points.new.items begun.now.colours }
    ensures few { length points.new.items ≡ length points.old.items }
    ensures places { length places.new ≡ MAX_COLOURS }
    ensures ok { IfOk result (λ r. (g : Hold) (x : Node) → IsNextOf region.now g x → begun.now ≡ own_append g x
        → HoldStopsAfter region.now g hold.old x 1 → TakesAll region.now g hold.new x points.new.items places.new r.1 r.0 course.stop) }
    ensures err { IfErr result (λ steps. (g : Hold) (x : Node) → IsNextOf region.now g x → begun.now ≡ own_append g x
        → HoldStopsAfter region.now g hold.old x 1 → IsStopAt region.now g hold.new x course.stop steps) }
{
    let ended = propose_all(rt, gate, region, hold, begun, course, points)?;
    let outcome = region.decide(hold, begun.row);
    let decided = points.len() as u8 + 2;
    if !course.goes_on(rt, gate, decided) {
        return Err(decided);
    }
    match settle_all(
        rt, gate, region, hold, begun, outcome, course, points, places,
    ) {
        Ok(()) => Ok((outcome, ended)),
        Err(steps) => Err(steps),
    }
}
