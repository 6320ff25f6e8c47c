// Nodes that go from a region's column to the other's through their ring, which holds 64, and what both regions end with.
ghost use Rattle.std.specs.Prelude.{◌≡◌, ◌<◌, ◌+◌, ℕ, None, List, length, Some, slice_get, IfOk};
ghost use Rattle.ring_ends.specs.declared.rings.Rings.{Rings};
ghost use Rattle.chain_store.specs.Histories.{FitsColumn};
ghost use Rattle.chain_store.specs.Holds.{IsHold};
ghost use Rattle.tests_log.specs.Clients.{small, IsSmall, IsClient, HoldsBoth, AreLinked, EndsSmall};

use crate::tests::made::{key_of, open_small, small};
use chain_store::{ClosedRegion, Hold, Region, check_rings};
use col_core::{Entry, Event};
use column::Column;
use log_node::{At, Colours, Counts, Id, Item, ListOf, Node, Text, Wants};
use region_pull::pull;
use ring_ends::make_rings;
use std::alloc::{AllocError, Global};
use std::process::Abort;
use std::sync::{Arc, Wait};
use std::test::Fail;
use std::thread::{Threads, join, yield_now};

/// How many nodes stand in the eastern line.
const NODES: u64 = 200;

/// A client's holds of both regions.
#[derive(Drop)]
struct Moving {
    east: Hold,
    west: Hold,
}

/// What a client does, and what it is answered then.
#[derive(Clone, Copy)]
enum Step {
    /// The east sends to the west.
    Feed,
    /// The west receives: so many are held or received then.
    Drain(u64),
    /// The west carries what it received, if so many are held or received.
    Carry(u64, Option<(At, u64)>),
    /// So many are held in the west.
    Held(u64),
    /// The east notes that so many are held in the west, and drops all below.
    Trim(u64),
}

use Step::{Carry, Drain, Feed, Held, Trim};

/// Which of two clients does it.
#[derive(Clone, Copy)]
enum Who {
    First,
    Second,
}

use Who::{First, Second};

/// A ring's 64 come at once; what is received is carried by one event, where enough is there.
const ONE_CARRY: [(Who, Step); 18] = [
    (First, Feed),
    (First, Drain(64)),
    (First, Drain(64)),
    (First, Feed),
    (First, Feed),
    (First, Drain(128)),
    (First, Carry(129, None)),
    (First, Feed),
    (First, Drain(192)),
    (First, Feed),
    (First, Drain(200)),
    (First, Carry(201, None)),
    (First, Held(0)),
    (First, Carry(200, Some((At::Event(0), 200)))),
    (First, Held(200)),
    (First, Drain(200)),
    (First, Carry(200, Some((At::Look(1), 0)))),
    (First, Carry(201, None)),
];

/// What is in the ring when the east trims, or was not sent yet, is carried all the same.
const TRIMMED: [(Who, Step); 14] = [
    (First, Feed),
    (First, Drain(64)),
    (First, Carry(1, Some((At::Event(0), 64)))),
    (First, Feed),
    (First, Trim(64)),
    (First, Drain(128)),
    (First, Feed),
    (First, Carry(1, Some((At::Event(1), 64)))),
    (First, Trim(128)),
    (First, Drain(192)),
    (First, Feed),
    (First, Drain(200)),
    (First, Carry(200, Some((At::Event(2), 72)))),
    (First, Held(200)),
];

/// Of two clients who pull at once, each receives and carries also what the other sent and received.
const TWO_PULLERS: [(Who, Step); 15] = [
    (First, Feed),
    (Second, Drain(64)),
    (First, Feed),
    (First, Drain(128)),
    (Second, Carry(100, Some((At::Event(0), 128)))),
    (First, Carry(129, None)),
    (First, Feed),
    (Second, Feed),
    (Second, Drain(192)),
    (Second, Feed),
    (First, Carry(192, Some((At::Event(1), 64)))),
    (Second, Drain(200)),
    (First, Drain(200)),
    (Second, Carry(200, Some((At::Event(2), 8)))),
    (First, Carry(200, Some((At::Look(3), 0)))),
];

// Two regions of one store, and the holds of two clients.
fn opened(alloc: Global) -> Result<(Region, Region, Moving, Moving), AllocError>
    ensures regions { IfOk result (λ r. IsSmall 0 r.0 × IsSmall 1 r.1 × AreLinked r.0 r.1) }
    ensures one { IfOk result (λ r. HoldsBoth r.0 r.1 0 r.2.east r.2.west × IsClient r.0 0 0 r.2.east) }
    ensures two { IfOk result (λ r. HoldsBoth r.0 r.1 1 r.3.east r.3.west) }
{
    let shape = small(alloc)?;
    let mut rings = make_rings(alloc, &shape)?.into_vec();
    match (rings.pop(), rings.pop()) {
        (Some(west_ends), Some(east_ends)) => {
            let (east, east_one, east_two) = open_small(alloc, 0, &shape, east_ends)?;
            let (west, west_one, west_two) = open_small(alloc, 1, &shape, west_ends)?;
            let one = Moving {
                east: east_one,
                west: west_one,
            };
            let two = Moving {
                east: east_two,
                west: west_two,
            };
            Ok((east, west, one, two))
        }
        _ => unreachable!(),
    }
}

// The first client's node of this count, which is its text, and which wants as many of the eastern line.
fn numbered(alloc: Global, count: u64) -> Result<Arc<Node>, AllocError>
    requires { count < NODES }
    ensures id { IfOk result (λ node. node.value.id ≡ record { client = 0; count = count }) }
    ensures row { IfOk result (λ node. node.value.row ≡ None) }
    ensures fits { IfOk result (λ node. FitsColumn 0 0 node.value) }
{
    let mut wants = Wants::new(alloc);
    wants.push(Counts([count, 0, 0, 0]))?;
    let node = Node {
        id: Id { client: 0, count },
        region: 0,
        colours: Colours::of(&[0]),
        text: Text::copied(alloc, &[count as u8])?,
        floor: 0,
        wants,
        row: None,
    };
    Ok(Arc::new(alloc, node)?)
}

// The first client appends the next node in the east.
fn append<R: Wait>(
    rt: &R,
    alloc: Global,
    east: &Region,
    hold: &mut Hold,
    count: u64,
) -> Result<(), AllocError>
    requires east { IsSmall 0 east.now }
    requires hold { IsClient east.now 0 count hold.old }
    requires count { count < NODES }
    ensures { IsClient east.now 0 (count + 1) hold.new }
{
    let node = numbered(alloc, count)?;
    match east.single(rt, hold, 0, &node) {
        Ok(_) => Ok(()),
        Err(_) => Err(AllocError),
    }
}

// The first client appends all nodes in the east.
fn append_all<R: Wait>(
    rt: &R,
    alloc: Global,
    east: &Region,
    hold: &mut Hold,
) -> Result<(), AllocError>
    requires east { IsSmall 0 east.now }
    requires hold { IsClient east.now 0 0 hold.old }
    ensures { IsHold east.now hold.new × (hold.new.passes.number ≡ 0) }
{
    for count in 0..NODES {
        append(rt, alloc, east, hold, count)?;
    }
    Ok(())
}

// The east notes that so many nodes are held in the west, and drops those below. Says whether it has.
fn trim<R: Wait>(rt: &R, east: &Region, hold: &mut Hold, held: u64) -> Result<bool, AllocError>
    requires east { IsSmall 0 east.now }
    requires hold { IsHold east.now hold.old }
    ensures { IsHold east.now hold.new × (hold.new.passes.number ≡ hold.old.passes.number) }
{
    east.give(rt, hold, 0, 1, held)?;
    let below = Counts([held, 0, 0, 0]);
    let (_, base) = east.trim(rt, hold, 0, below)?;
    Ok(base == below)
}

// The client does the step. Says whether it is answered so.
fn do_step<R: Wait>(
    rt: &R,
    east: &Region,
    west: &Region,
    client: &mut Moving,
    number: u8,
    step: Step,
) -> Result<bool, AllocError>
    requires regions { IsSmall 0 east.now × IsSmall 1 west.now }
    requires client { HoldsBoth east.now west.now number client.old.east client.old.west }
    ensures { HoldsBoth east.now west.now number client.new.east client.new.west }
{
    match step {
        Feed => {
            east.feed(rt, &mut client.east, 0, 1)?;
            Ok(true)
        }
        Drain(there) => Ok(west.drain(rt, &mut client.west, 0, 0)? == there),
        Carry(least, answer) => Ok(west.carry(rt, &mut client.west, 0, 0, least)? == answer),
        Held(held) => Ok(west.held(rt, &mut client.west, 0).1 == Counts([held, 0, 0, 0])),
        Trim(held) => trim(rt, east, &mut client.east, held),
    }
}

// All steps, one after another. Says how many are answered so.
fn do_steps<R: Wait>(
    rt: &R,
    east: &Region,
    west: &Region,
    one: &mut Moving,
    two: &mut Moving,
    all: &[(Who, Step)],
) -> Result<usize, AllocError>
    requires regions { IsSmall 0 east.now × IsSmall 1 west.now }
    requires one { HoldsBoth east.now west.now 0 one.old.east one.old.west }
    requires two { HoldsBoth east.now west.now 1 two.old.east two.old.west }
    ensures one { HoldsBoth east.now west.now 0 one.new.east one.new.west }
    ensures two { HoldsBoth east.now west.now 1 two.new.east two.new.west }
{
    for place in 0..all.len() {
        let (who, step) = all[place];
        let is_so = match who {
            First => do_step(rt, east, west, one, 0, step)?,
            Second => do_step(rt, east, west, two, 1, step)?,
        };
        if !is_so {
            return Ok(place);
        }
    }
    Ok(all.len())
}

// The item is the node of this count as it was appended.
fn is_numbered(item: &Item, number: u8) -> bool {
    let count = u64::from(number);
    item.head.key == key_of(count + 1, 0, count)
        && item.head.needs == Counts([count, 0, 0, 0])
        && item.node().id == item.head.key.id
        && item.node().text.as_bytes() == [number].as_slice()
}

// A look in the west shows all nodes, as they were appended.
fn all_came<R: Wait>(
    rt: &R,
    alloc: Global,
    west: &Region,
    hold: &mut Hold,
) -> Result<bool, AllocError>
    requires west { IsSmall 1 west.now }
    requires hold { IsHold west.now hold.old }
    ensures { IsHold west.now hold.new × (hold.new.passes.number ≡ hold.old.passes.number) }
{
    let view = west.look(rt, alloc, hold, 0, Counts::zeros())?;
    let Some(items) = view.items.get(0) else {
        return Ok(false);
    };
    let items = items.as_slice();
    Ok(
        view.cut == Counts([NODES, 0, 0, 0])
            && items.len() as u64 == NODES
            && items
                .iter()
                .zip(0..NODES as u8)
                .all(|(item, number)| is_numbered(item, number)),
    )
}

// All nodes are appended in the east, and then the steps are done: how many are answered as they say, and whether all nodes are
// in the west then.
fn do_after_appends<R: Wait>(
    rt: &R,
    alloc: Global,
    east: &Region,
    west: &Region,
    one: &mut Moving,
    two: &mut Moving,
    all: &[(Who, Step)],
) -> Result<(usize, bool), AllocError>
    requires regions { IsSmall 0 east.now × IsSmall 1 west.now }
    requires one { HoldsBoth east.now west.now 0 one.old.east one.old.west × IsClient east.now 0 0 one.old.east }
    requires two { HoldsBoth east.now west.now 1 two.old.east two.old.west }
    ensures one { HoldsBoth east.now west.now 0 one.new.east one.new.west }
    ensures two { HoldsBoth east.now west.now 1 two.new.east two.new.west }
{
    append_all(rt, alloc, east, &mut one.east)?;
    let done = do_steps(rt, east, west, one, two, all)?;
    Ok((done, all_came(rt, alloc, west, &mut two.west)?))
}

// The steps are answered as they say, and all nodes come to the west.
fn all_are_answered<R: Wait + Abort>(
    rt: &R,
    alloc: Global,
    all: &[(Who, Step)],
) -> Result<(), Fail> {
    let (east, west, mut one, mut two) = opened(alloc)?;
    let (done, came) = do_after_appends(rt, alloc, &east, &west, &mut one, &mut two, all)?;
    assert_eq!(rt; done, all.len());
    assert!(rt; came);
    Ok(())
}

#[test]
fn one_feed_and_one_drain_of_200_answer_64(rt: HostRuntime) -> Result<(), Fail> {
    all_are_answered(&rt, rt.alloc(), &ONE_CARRY)
}

#[test]
fn a_trim_between_a_feed_and_a_drain_loses_nothing(rt: HostRuntime) -> Result<(), Fail> {
    all_are_answered(&rt, rt.alloc(), &TRIMMED)
}

#[test]
fn two_pullers_at_once_bring_all_nodes(rt: HostRuntime) -> Result<(), Fail> {
    all_are_answered(&rt, rt.alloc(), &TWO_PULLERS)
}

// The end of one region.
fn closed<R: Wait>(
    rt: &R,
    alloc: Global,
    region: Region,
    one: Hold,
    two: Hold,
) -> Result<ClosedRegion, AllocError>
    requires region { (region.regions ≡ 2) × (region.board.size ≡ small) }
    requires one { IsHold region one × (one.passes.number ≡ 0) }
    requires two { IsHold region two × (two.passes.number ≡ 1) }
    ensures { IfOk result (EndsSmall region) }
{
    let mut holds = ListOf::new(alloc);
    holds.push(one)?;
    holds.push(two)?;
    region.close(rt, alloc, holds)
}

// The end of both regions, of which the rings are checked.
fn both_closed<R: Wait>(
    rt: &R,
    alloc: Global,
    east: Region,
    west: Region,
    one: Moving,
    two: Moving,
) -> Result<Vec<ClosedRegion>, AllocError>
    requires regions { IsSmall 0 east × IsSmall 1 west × AreLinked east west }
    requires one { HoldsBoth east west 0 one.east one.west }
    requires two { HoldsBoth east west 1 two.east two.west }
{
    let mut all = Vec::new(alloc);
    all.push(closed(rt, alloc, east, one.east, two.east)?)?;
    all.push(closed(rt, alloc, west, one.west, two.west)?)?;
    check_rings(&mut all, 2, 2);
    Ok(all)
}

// The column has made one event, a carry of the origin's whole line.
fn has_carried(column: &Column, origin: &Column) -> bool {
    match column.journal() {
        [
            Entry {
                event: Event::Carry {
                    region: 0,
                    start: 0,
                    heads,
                },
                ..
            },
        ] => heads
            .as_slice()
            .iter()
            .map(|head| head.key)
            .eq(origin.line().iter().copied()),
        _ => false,
    }
}

// The first colour's column of the first of these regions has all nodes in its line, and that of the second has carried them.
fn are_true_copies(closed: &[ClosedRegion]) -> bool {
    let [east, west] = closed else {
        return false;
    };
    match (east.columns.get(0), west.columns.get(0)) {
        (Some(origin), Some(copy)) => {
            origin.line().len() as u64 == NODES
                && copy.held() == Counts([NODES, 0, 0, 0])
                && has_carried(copy, origin)
        }
        _ => false,
    }
}

#[test]
fn all_regions_close_with_true_copies(rt: HostRuntime) -> Result<(), Fail> {
    let (east, west, mut one, mut two) = opened(rt.alloc())?;
    do_after_appends(
        &rt,
        rt.alloc(),
        &east,
        &west,
        &mut one,
        &mut two,
        &ONE_CARRY,
    )?;
    let closed = both_closed(&rt, rt.alloc(), east, west, one, two)?;
    assert!(rt; are_true_copies(closed.as_slice()));
    Ok(())
}

/// How often one pulls at most.
const MOST: u32 = 1_000_000;

// Appends all nodes. Says whether it has.
fn append_alone<R: Wait>(rt: &R, alloc: Global, east: &Region, mut hold: Hold) -> bool
    requires east { IsSmall 0 east.now }
    requires hold { IsClient east.now 0 0 hold }
{
    append_all(rt, alloc, east, &mut hold).is_ok()
}

// Pulls until all nodes are held in the west, or so often. Says how many are, if there is memory.
fn pull_all<R: Wait>(rt: &R, east: &Region, west: &Region, mut client: Moving) -> Option<u64>
    requires regions { IsSmall 0 east.now × IsSmall 1 west.now }
    requires client { HoldsBoth east.now west.now 1 client.east client.west }
{
    for _ in 0..MOST {
        pull(rt, east, west, &mut client.east, &mut client.west, 0).ok()?;
        let held = west.held(rt, &mut client.west, 0).1.0[0];
        if held >= NODES {
            return Some(held);
        }
        yield_now();
    }
    None
}

// One thread appends in the east, and another pulls to the west: whether all was appended, and how many nodes are held.
fn pull_beside_appends<R: Threads + Wait + Sync>(
    rt: &R,
    alloc: Global,
    east: &Region,
    west: &Region,
    one: Hold,
    two: Moving,
) -> (bool, Option<u64>)
    requires regions { IsSmall 0 east.now × IsSmall 1 west.now }
    requires one { IsClient east.now 0 0 one }
    requires two { HoldsBoth east.now west.now 1 two.east two.west }
{
    join(
        rt,
        || -> bool
            requires { IsSmall 0 east.now × IsClient east.now 0 0 one }
        { append_alone(rt, alloc, east, one) },
        || -> Option<u64>
            requires { IsSmall 0 east.now × IsSmall 1 west.now × HoldsBoth east.now west.now 1 two.east two.west }
        { pull_all(rt, east, west, two) },
    )
}

#[test]
fn nodes_are_pulled_while_others_are_appended(rt: HostRuntime) -> Result<(), Fail> {
    let (east, west, one, two) = opened(rt.alloc())?;
    let Moving {
        east: appending,
        west: mut reading,
    } = one;
    let (appended, held) = pull_beside_appends(&rt, rt.alloc(), &east, &west, appending, two);
    assert!(rt; appended);
    assert_eq!(rt; held, Some(NODES));
    assert!(rt; all_came(&rt, rt.alloc(), &west, &mut reading)?);
    Ok(())
}
