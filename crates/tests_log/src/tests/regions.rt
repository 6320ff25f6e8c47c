// A region at the end of the stamps, a client that is told of another's append, and appends that may only stand next.
ghost use Rattle.std.specs.Prelude.{◌≡◌, ◌≢◌, ◌<◌, ◌≤◌, ◌^◌, ◌+◌, ℕ, true, None, IfOk, OnOk};
ghost use mathlib.Core.List.{IsPrefix};
ghost use Rattle.log_node.specs.Sets.{has};
ghost use Rattle.chain_store.specs.Histories.{FitsColumn};
ghost use Rattle.chain_store.specs.Holds.{IsHold, KnowsAppend, seen_in, made_in};
ghost use Rattle.tests_log.specs.Clients.{IsSmall, IsClient};

use crate::tests::made::{alone, first_ends, open_small, pair, small};
use append_core::{MultiFault, Point, Stood, multi, only, single};
use chain_store::{ClosedRegion, Hold, Proposed, Region};
use column::{ColumnFault, OnlyFault};
use fuzzy_io::OpenGate;
use log_node::{At, Begun, ColourMark, ListOf, MAX_STAMP, Mark, Node, Outcome, Row, Why};
use std::alloc::{AllocError, Global};
use std::sync::{Arc, Wait};
use std::test::Fail;

const ROW: Row = Row {
    client: 0,
    number: 0,
};

// The first of two small regions, and the holds of its two clients.
fn opened(alloc: Global) -> Result<(Region, Hold, Hold), AllocError>
    ensures region { IfOk result (λ r. IsSmall 0 r.0) }
    ensures one { IfOk result (λ r. IsClient r.0 0 0 r.1) }
    ensures used { IfOk result (λ r. r.1.seat.used ≡ 0) }
    ensures two { IfOk result (λ r. IsClient r.0 1 0 r.2) }
{
    let shape = small(alloc)?;
    let ends = first_ends(alloc, &shape)?;
    open_small(alloc, 0, &shape, ends)
}

// The first client begins its row.
fn begin(alloc: Global, region: &Region, hold: &mut Hold) -> Result<Begun, AllocError>
    requires region { IsSmall 0 region.now }
    requires hold { IsClient region.now 0 0 hold.old × (hold.old.seat.used ≡ 0) }
    ensures hold { IsClient region.now 0 1 hold.new }
    ensures knows { IfOk result (λ b. KnowsAppend region.now hold.new b) }
    ensures row { IfOk result (λ b. b.row ≡ record { client = 0; number = 0 }) }
    ensures each { IfOk result (λ b. (has b.colours 0 ≡ true) × (has b.colours 1 ≡ true)) }
{
    let node = pair(alloc, 0, 0)?;
    let Ok(row) = region.begin(hold, &node) else {
        unreachable!()
    };
    Ok(Begun {
        id: node.id,
        colours: node.colours,
        row,
        node: Some(node),
    })
}

fn propose<R: Wait>(
    rt: &R,
    region: &Region,
    hold: &mut Hold,
    colour: u8,
    begun: &Begun,
) -> (At, Mark)
    requires region { IsSmall 0 region.now }
    requires hold { IsHold region.now hold.old × KnowsAppend region.now hold.old begun.now }
    requires colour { (colour < 2) × (has begun.now.colours colour ≡ true) }
    ensures hold { IsHold region.now hold.new × KnowsAppend region.now hold.new begun.now }
    ensures number { hold.new.passes.number ≡ hold.old.passes.number }
    ensures next { hold.new.next ≡ hold.old.next }
{
    let Proposed { at, mark } = region.propose(rt, hold, colour, begun);
    (at, mark)
}

// What becomes of the append.
fn decide(region: &Region, hold: &mut Hold, begun: &Begun) -> Outcome
    requires hold { IsHold region.now hold.old × KnowsAppend region.now hold.old begun.now }
    ensures hold { IsHold region.now hold.new × KnowsAppend region.now hold.new begun.now }
    ensures number { hold.new.passes.number ≡ hold.old.passes.number }
{
    region.decide(hold, begun.row)
}

// The second client hears the first: it has then seen at least what the first had, still has what it made, and knows
// the append.
fn hears(
    alloc: Global,
    region: &Region,
    one: &mut Hold,
    two: &mut Hold,
    begun: &Begun,
) -> Result<(), AllocError>
    requires one { IsHold region.now one.old × KnowsAppend region.now one.old begun.now }
    requires two { IsHold region.now two.old × (two.old.passes.number ≢ begun.now.row.client) }
    ensures one { IsHold region.now one.new × (one.new.passes.number ≡ one.old.passes.number) }
    ensures two { IsHold region.now two.new × (two.new.passes.number ≡ two.old.passes.number) }
    ensures seen { OnOk result ((c : ℕ) → IsPrefix (seen_in one.old c) (seen_in two.new c)) }
    ensures made { OnOk result ((c : ℕ) → made_in two.new c ≡ made_in two.old c) }
    ensures knows { OnOk result (KnowsAppend region.now two.new begun.now) }
{
    let note = region.tell(alloc, one)?;
    region.hear(two, note);
    Ok(())
}

// The first client begins its row, and stops; the second is told of it, and proposes it in both colours.
fn heard<R: Wait>(
    rt: &R,
    alloc: Global,
    region: &Region,
    one: &mut Hold,
    two: &mut Hold,
) -> Result<([(At, Mark); 2], Outcome), AllocError>
    requires region { IsSmall 0 region.now }
    requires one { IsClient region.now 0 0 one.old × (one.old.seat.used ≡ 0) }
    requires two { IsClient region.now 1 0 two.old }
{
    let begun = begin(alloc, region, one)?;
    hears(alloc, region, one, two, &begun)?;
    let first = propose(rt, region, two, 0, &begun);
    let second = propose(rt, region, two, 1, &begun);
    Ok(([first, second], decide(region, two, &begun)))
}

#[test]
fn a_client_that_hears_of_a_row_appends_it(rt: HostRuntime) -> Result<(), Fail> {
    let (region, mut one, mut two) = opened(rt.alloc())?;
    let (proposed, outcome) = heard(&rt, rt.alloc(), &region, &mut one, &mut two)?;
    assert_eq!(rt; proposed, [(At::Event(0), Mark::Number(1)); 2]);
    assert_eq!(rt; outcome, Outcome::Final(1));
    Ok(())
}

// The first client's node is appended to both colours.
fn append_pair<R: Wait>(
    rt: &R,
    alloc: Global,
    region: &Region,
    hold: &mut Hold,
) -> Result<Result<Stood, MultiFault>, AllocError>
    requires region { IsSmall 0 region.now }
    requires hold { IsClient region.now 0 0 hold.old × (hold.old.seat.used ≡ 0) }
    ensures hold { IsHold region.now hold.new }
    ensures number { hold.new.passes.number ≡ 0 }
{
    let node = pair(alloc, 0, 0)?;
    Ok(multi(rt, alloc, region, hold, &OpenGate, &node, None))
}

// The first client's append to both colours, where no stamp is left in the first.
fn ended<R: Wait>(
    rt: &R,
    alloc: Global,
    region: &Region,
    hold: &mut Hold,
) -> Result<bool, AllocError>
    requires region { IsSmall 0 region.now }
    requires hold { IsClient region.now 0 0 hold.old × (hold.old.seat.used ≡ 0) }
    ensures hold { IsHold region.now hold.new }
    ensures number { hold.new.passes.number ≡ 0 }
{
    region.raise(rt, hold, 0, MAX_STAMP)?;
    match append_pair(rt, alloc, region, hold)? {
        Ok(_) => Ok(false),
        Err(fault) => Ok(fault == MultiFault::StampEnd { colour: 0 }),
    }
}

fn closed<R: Wait>(
    rt: &R,
    alloc: Global,
    region: Region,
    one: Hold,
    two: Hold,
) -> Result<ClosedRegion, AllocError>
    requires region { IsSmall 0 region }
    requires one { IsHold region one × (one.passes.number ≡ 0) }
    requires two { IsHold region two × (two.passes.number ≡ 1) }
{
    let mut holds = ListOf::new(alloc);
    holds.push(one)?;
    holds.push(two)?;
    region.close(rt, alloc, holds)
}

// The first client's row closed as gone: no stamp was left in the first colour, and the second, in which its node was
// proposed and settled, has an empty line.
fn is_gone(closed: &ClosedRegion) -> bool {
    let marks = [
        ColourMark {
            colour: 0,
            mark: Mark::Fenced(Why::StampEnd),
        },
        ColourMark {
            colour: 1,
            mark: Mark::Number(1),
        },
    ];
    let last = Outcome::Gone(Why::StampEnd);
    match (closed.rows.as_slice(), closed.columns.get(1)) {
        ([row], Some(column)) => {
            row.row == ROW
                && row.marks.as_slice() == marks.as_slice()
                && row.last == last
                && column.line().is_empty()
                && column.journal().len() == 2
        }
        _ => false,
    }
}

#[test]
fn no_stamp_is_left_in_the_first_colour(rt: HostRuntime) -> Result<(), Fail> {
    let (region, mut hold, other) = opened(rt.alloc())?;
    assert!(rt; ended(&rt, rt.alloc(), &region, &mut hold)?);
    let closed = closed(&rt, rt.alloc(), region, hold, other)?;
    assert!(rt; is_gone(&closed));
    Ok(())
}

// The first client's first node finds no stamp in the first colour.
fn ends_alone<R: Wait>(
    rt: &R,
    alloc: Global,
    region: &Region,
    hold: &mut Hold,
    node: &Arc<Node>,
) -> bool
    requires region { IsSmall 0 region.now }
    requires hold { IsClient region.now 0 0 hold.old }
    requires id { node.now.value.id ≡ record { client = 0; count = 0 } }
    requires node { (node.now.value.row ≡ None) × FitsColumn 0 0 node.now.value }
    ensures hold { result ≡ true → IsClient region.now 0 0 hold.new }
{
    match single(rt, alloc, region, hold, 0, node) {
        Ok(_) => false,
        Err(fault) => fault == ColumnFault::StampEnd { clock: MAX_STAMP },
    }
}

// The first client's append to the first colour, in which no stamp is left, and its append to the second one then.
fn beside_the_end<R: Wait>(
    rt: &R,
    alloc: Global,
    region: &Region,
    hold: &mut Hold,
) -> Result<bool, AllocError>
    requires region { IsSmall 0 region.now }
    requires hold { IsClient region.now 0 0 hold.old }
{
    let node = alone(alloc, 0)?;
    region.raise(rt, hold, 0, MAX_STAMP)?;
    if !ends_alone(rt, alloc, region, hold, &node) {
        return Ok(false);
    }
    match single(rt, alloc, region, hold, 1, &node) {
        Ok(stood) => Ok(stood.key.stamp == 1),
        Err(_) => Ok(false),
    }
}

#[test]
fn no_stamp_is_left_in_one_colour_alone(rt: HostRuntime) -> Result<(), Fail> {
    let (region, mut hold, _other) = opened(rt.alloc())?;
    assert!(rt; beside_the_end(&rt, rt.alloc(), &region, &mut hold)?);
    Ok(())
}

// What the first client's node of this count is told, which wants nothing and may only stand next: its stamp and its point.
fn next<R: Wait>(
    rt: &R,
    alloc: Global,
    region: &Region,
    hold: &mut Hold,
    colour: u8,
    count: u64,
) -> Result<Result<(u64, Option<Point>), OnlyFault>, AllocError>
    requires region { IsSmall 0 region.now }
    requires hold { IsClient region.now 0 count hold.old }
    requires few { (colour < 2) × (count < 2 ^ 63) }
    ensures hold { IsClient region.now 0 (count + 1) hold.new }
{
    let node = alone(alloc, count)?;
    match only(rt, alloc, region, hold, colour, &node) {
        Ok(stood) => Ok(Ok((stood.key.stamp, stood.points.get(0).copied()))),
        Err(fault) => Ok(Err(fault)),
    }
}

// The first client's append to both colours is left open in the second one. Then it appends to the first, where it may
// only stand next: twice, and once where no stamp is left; and between to the second.
fn stand_next<R: Wait>(
    rt: &R,
    alloc: Global,
    region: &Region,
    hold: &mut Hold,
) -> Result<[Result<(u64, Option<Point>), OnlyFault>; 4], AllocError>
    requires region { IsSmall 0 region.now }
    requires hold { IsClient region.now 0 0 hold.old × (hold.old.seat.used ≡ 0) }
{
    let begun = begin(alloc, region, hold)?;
    propose(rt, region, hold, 1, &begun);
    let first = next(rt, alloc, region, hold, 0, 1)?;
    let second = next(rt, alloc, region, hold, 0, 2)?;
    let beside_open = next(rt, alloc, region, hold, 1, 3)?;
    region.raise(rt, hold, 0, MAX_STAMP)?;
    let at_the_end = next(rt, alloc, region, hold, 0, 4)?;
    Ok([first, second, beside_open, at_the_end])
}

// What a node is told that has not come next, after so many events.
fn moved(length: u64, waiting: u64, events: u64) -> Result<(u64, Option<Point>), OnlyFault> {
    Err(OnlyFault::Moved {
        length,
        waiting,
        events,
    })
}

#[test]
fn what_may_only_stand_next_is_told_what_came(rt: HostRuntime) -> Result<(), Fail> {
    let (region, mut hold, _other) = opened(rt.alloc())?;
    let told = stand_next(&rt, rt.alloc(), &region, &mut hold)?;
    let point = Point {
        colour: 0,
        at: At::Event(0),
        position: 0,
    };
    assert_eq!(rt;
        told,
        [
            Ok((1, Some(point))),
            moved(1, 0, 1),
            moved(0, 1, 1),
            moved(1, 0, 2)
        ]
    );
    Ok(())
}
