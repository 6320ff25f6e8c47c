// Appends to several colours.
ghost use Rattle.std.specs.Prelude.{true, false, ◌≡◌, ◌≢◌, ◌<◌, ◌≤◌, ◌^◌, ◌+◌, ℕ, length, None, Some, slice_get, IfErr, IfOk, IfSome, OnOk};
ghost use Rattle.log_node.specs.declared.marks.Outcome.TheVariants.{Gone};
ghost use Rattle.log_node.specs.declared.node.Node.{Node};
ghost use Rattle.stamp_board.specs.Rows.{AreColours};
ghost use Rattle.stamp_board.specs.Views.{Grows};
ghost use Rattle.chain_store.specs.declared.hold.Hold.{Hold};
ghost use Rattle.chain_store.specs.Beginning.{HasNextRow, begun_for};
ghost use Rattle.chain_store.specs.Holds.{IsHold, KnowsAppend, view_of};
ghost use Rattle.append_core.specs.declared.stood.Point.{Point};
ghost use Rattle.append_core.specs.Several.{IsStopOf, HoldLeaves, HoldAppendsSeveral, HoldStopsAfter, own_append};
ghost use Rattle.append_core.specs.Inside.{ArePointsOf, HasTakenAll, IsNextOf};

use crate::course::Course;
use crate::placing::{points_of, stood};
use crate::stages::take_steps;
use crate::stood::{Point, Stood};
use chain_store::{Hold, Region};
use fuzzy_io::Gate;
use log_node::{Begun, Key, MAX_COLOURS, MAX_STAMP, Node, Outcome, Row, Why};
use std::alloc::Global;
use std::sync::{Arc, Wait};
use thiserror::Error;

/// Why an append to several colours does not stand.
#[derive(Clone, Copy, Debug, PartialEq, Eq, Error)]
pub enum MultiFault {
    /// The client has begun this many rows, and has no more. `multi` never gives it, since it asks for a row that is left.
    #[error("all {used} rows are used")]
    Full { used: u32 },
    /// No stamp was left in this colour, the least such one.
    #[error("no stamp is left in colour {colour}")]
    StampEnd { colour: u8 },
    /// The append stopped after this many steps, as was asked.
    #[error("stopped after {steps} steps")]
    Stopped { steps: u8 },
    #[error("out of memory")]
    NoMemory,
}

// A place for every colour that there may be.
const PLACES: usize = MAX_COLOURS as usize;

// Why an append is gone: for the stamps' end, of which the colour is known, or for want of memory.
fn gone(why: Why, ended: Option<u8>) -> MultiFault
    requires end { why ≡ Why.StampEnd → (c : ℕ) × (ended ≡ Some c) }
    ensures memory { why ≡ Why.Memory → result ≡ MultiFault.NoMemory }
    ensures end { (c : ℕ) → why ≡ Why.StampEnd → ended ≡ Some c → result ≡ MultiFault.StampEnd c }
{
    match why {
        Why::Memory => MultiFault::NoMemory,
        Why::StampEnd => match ended {
            Some(colour) => MultiFault::StampEnd { colour },
            None => unreachable!(),
        },
    }
}

// What comes of an append that has taken all its steps: where it is final, what stands in its way is helped.
fn finish<R: Wait>(
    rt: &R,
    region: &Region,
    hold: &mut Hold,
    begun: &Begun,
    outcome: Outcome,
    ended: Option<u8>,
    points: Vec<Point>,
    places: &[Option<u64>],
) -> Result<Stood, MultiFault>
    requires hold { IsHold region.now hold.old }
    requires colours { (n : ℕ) (p : Point) → slice_get points.items n ≡ Some p → p.colour < region.now.board.size.colours }
    requires few { length points.items ≤ length places.now }
    requires points { ArePointsOf points.items begun.now.colours }
    requires done { (g : Hold) × (x : Node) × IsNextOf region.now g x × (begun.now ≡ own_append g x)
        × HasTakenAll region.now g hold.old x points.items places.now ended outcome }
    ensures hold { IsHold region.now hold.new }
    ensures ok { IfOk result (λ s. (g : Hold) (x : Node) → IsNextOf region.now g x → begun.now ≡ own_append g x
        → HasTakenAll region.now g hold.old x points.items places.now ended outcome → HoldAppendsSeveral region.now g hold.new x s) }
    ensures err { IfErr result (λ fault. (g : Hold) (x : Node) → IsNextOf region.now g x → begun.now ≡ own_append g x
        → HasTakenAll region.now g hold.old x points.items places.now ended outcome
        → HoldLeaves region.now g hold.new x None fault × (hold.new ≡ hold.old)) }
{
    match outcome {
        Outcome::Final(stamp) => {
            let key = Key {
                stamp,
                id: begun.id,
            };
            Ok(stood(rt, region, hold, key, points, places))
        }
        Outcome::Gone(why) => Err(gone(why, ended)),
        Outcome::Open => unreachable!(),
    }
}

// Whether the append stops before its first step.
fn is_at_once(stop: Option<u8>) -> bool
    ensures stops { result ≡ true → stop ≡ Some 0 }
    ensures goes { result ≡ false → stop ≢ Some 0 }
{
    stop == Some(0)
}

// The append of a node whose row is begun, with a share of the node.
fn begun_with(node: &Arc<Node>, row: Row, shared: Arc<Node>) -> Begun
    requires { shared.value ≡ node.now.value }
    ensures { result ≡ begun_for node.now.value row }
{
    Begun {
        id: node.id,
        colours: node.colours,
        row,
        node: Some(shared),
    }
}

// All steps of an append whose row is begun, after the first, and what comes of it.
fn perform<R: Wait, G: Gate>(
    rt: &R,
    gate: &G,
    region: &Region,
    hold: &mut Hold,
    begun: &Begun,
    stop: Option<u8>,
    points: Vec<Point>,
) -> Result<Stood, MultiFault>
    requires hold { IsHold region.now hold.old }
    requires begun { KnowsAppend region.now hold.old begun.now }
    requires few { length points.items ≤ MAX_COLOURS }
    requires points { ArePointsOf points.items begun.now.colours }
    requires stop { IfSome stop (λ steps. (0 < steps) × (steps ≤ length points.items + length points.items + 2)) }
    requires own { (g : Hold) × (x : Node) × IsNextOf region.now g x × (begun.now ≡ own_append g x)
        × HoldStopsAfter region.now g hold.old x 1 }
    ensures hold { IsHold region.now hold.new }
    ensures ok { IfOk result (λ s. (g : Hold) (x : Node) → IsNextOf region.now g x → begun.now ≡ own_append g x
        → HoldStopsAfter region.now g hold.old x 1 → HoldAppendsSeveral region.now g hold.new x s) }
    ensures whole { OnOk result (stop ≡ None) }
    ensures err { IfErr result (λ fault. (g : Hold) (x : Node) → IsNextOf region.now g x → begun.now ≡ own_append g x
        → HoldStopsAfter region.now g hold.old x 1 → HoldLeaves region.now g hold.new x stop fault) }
{
    let course = Course {
        client: begun.id.client,
        stop,
        last: 2 * points.len() as u8 + 2,
    };
    if !course.goes_on(rt, gate, 1) {
        return Err(MultiFault::Stopped { steps: 1 });
    }
    let mut points = points;
    let mut places = [None; PLACES];
    match take_steps(
        rt,
        gate,
        region,
        hold,
        begun,
        course,
        &mut points,
        &mut places,
    ) {
        Ok((outcome, ended)) => finish(rt, region, hold, begun, outcome, ended, points, &places),
        Err(steps) => Err(MultiFault::Stopped { steps }),
    }
}

/// Appends a node to its colours: its row is begun, it is proposed in its colours, the least first, it is decided, and it
/// is settled in the same order; then what stands in its way in the lines is helped. These are 2k + 2 steps over k
/// colours; the gate is passed after each but the last. With a stop, the append stops after that many steps. The memory of
/// the answer is taken before the first step, after which nothing is refused.
pub fn multi<R: Wait, G: Gate>(
    rt: &R,
    alloc: Global,
    region: &Region,
    hold: &mut Hold,
    gate: &G,
    node: &Arc<Node>,
    stop: Option<u8>,
) -> Result<Stood, MultiFault>
    requires hold { IsHold region.now hold.old }
    requires id { (node.now.value.id.client ≡ hold.old.passes.number) × (hold.old.next ≤ node.now.value.id.count) }
    requires count { node.now.value.id.count < 2 ^ 63 }
    requires row { HasNextRow region.now.board hold.old.seat node.now.value }
    requires room { hold.old.seat.used < region.now.board.size.rows }
    requires region { node.now.value.region ≡ region.now.number }
    requires colours { AreColours region.now.board.size node.now.value.colours }
    requires floor { node.now.value.floor ≤ MAX_STAMP }
    requires stop { IfSome stop (IsStopOf node.now.value) }
    ensures hold { IsHold region.now hold.new }
    ensures seat { Grows (view_of hold.old) (view_of hold.new) }
    ensures ok { IfOk result (HoldAppendsSeveral region.now hold.old hold.new node.now.value) }
    ensures whole { OnOk result (stop ≡ None) }
    ensures err { IfErr result (HoldLeaves region.now hold.old hold.new node.now.value stop) }
{
    if is_at_once(stop) {
        return Err(MultiFault::Stopped { steps: 0 });
    }
    let Ok(points) = points_of(alloc, node.colours) else {
        return Err(MultiFault::NoMemory);
    };
    let Ok(shared) = node.clone() else {
        return Err(MultiFault::NoMemory);
    };
    match region.begin(hold, node) {
        Ok(row) => {
            let begun = begun_with(node, row, shared);
            perform(rt, gate, region, hold, &begun, stop, points)
        }
        Err(full) => Err(MultiFault::Full { used: full.used }),
    }
}
