// Looks at a column while another holds its turn.
ghost use Rattle.std.specs.Prelude.{◌≡◌, ◌<◌, ◌+◌, length, IfOk};
ghost use Rattle.turn_cell.specs.Cells.{IsReady};
ghost use Rattle.chain_store.specs.Columns.{tag_of};
ghost use Rattle.chain_store.specs.Passes.{ColumnCell};
ghost use Rattle.chain_store.specs.Regions.{IsColumnAt};
ghost use Rattle.chain_store.specs.Holds.{IsHold};
ghost use Rattle.tests_log.specs.Clients.{IsClient, IsFirst};

use crate::tests::made::{alone, first_ends};
use chain_store::{Hold, Region, Seated};
use log_node::{Counts, ListOf, Shape};
use std::alloc::{AllocError, Global};
use std::sync::Wait;
use std::sync::atomic::{AtomicBool, Ordering};
use std::test::Fail;
use std::thread::{Threads, join, yield_now};
use turn_cell::Pass;

/// What is done at the column before the first client looks, each by one turn of the client that is named, but that the
/// first hears what the third has seen.
#[derive(Clone, Copy)]
enum Step {
    /// The first appends a node.
    Append,
    /// The second raises the clock.
    Second,
    /// The third raises the clock.
    Third,
    /// The first hears what the third has seen.
    Hear,
}

use Step::{Append, Hear, Second, Third};

/// Columns that several clients have used, with how many events a look has to show.
const SHARED: [(&[Step], u64); 6] = [
    // The first has seen nothing.
    (&[Second, Third], 2),
    (&[Second, Third, Third, Second, Third], 5),
    // It has appended before others came, between their events, and last.
    (&[Append, Second], 2),
    (&[Second, Append, Third, Second], 4),
    (&[Second, Append], 2),
    // It has heard of all that the third has seen.
    (&[Append, Second, Third, Third, Hear], 4),
];

/// How often the turn's holder yields before it gives the turn back whatever the other does.
const MOST: u32 = 1_000_000;

/// The same where it is known that the other waits.
const FEW: u32 = 1_000;

// One region of one colour, and three clients.
fn shape(alloc: Global) -> Result<Shape, AllocError>
    ensures { IfOk result (λ s. (s.regions ≡ 1) × (s.colours ≡ 1) × (length s.homes ≡ 3) × (s.rows ≡ 1)) }
{
    let mut homes = ListOf::new(alloc);
    homes.push(0)?;
    homes.push(0)?;
    homes.push(0)?;
    Ok(Shape {
        regions: 1,
        colours: 1,
        homes,
        rows: 1,
    })
}

// A region of that shape, and the holds of its three clients.
fn opened(alloc: Global) -> Result<(Region, Hold, Hold, Hold), AllocError>
    ensures region { IfOk result (λ r. IsFirst r.0) }
    ensures holds { IfOk result (λ r. IsClient r.0 0 0 r.1 × IsHold r.0 r.2 × IsHold r.0 r.3) }
{
    let shape = shape(alloc)?;
    let ends = first_ends(alloc, &shape)?;
    let (region, holds) = Region::open(alloc, 0, &shape, ends)?;
    let mut holds = holds.into_vec();
    match (holds.pop(), holds.pop(), holds.pop()) {
        (Some(three), Some(two), Some(one)) => Ok((region, one, two, three)),
        _ => unreachable!(),
    }
}

// The client appends a node of this count.
fn append<R: Wait>(
    rt: &R,
    alloc: Global,
    region: &Region,
    hold: &mut Hold,
    count: u64,
) -> Result<(), AllocError>
    requires region { IsFirst region.now }
    requires hold { IsClient region.now 0 count hold.old }
    requires few { count < 100 }
    ensures { IsClient region.now 0 (count + 1) hold.new }
{
    let node = alone(alloc, count)?;
    match region.single(rt, hold, 0, &node) {
        Ok(_) => Ok(()),
        Err(_) => Err(AllocError),
    }
}

// The client raises the clock above all that was done before, of which there is so much.
fn raise<R: Wait>(rt: &R, region: &Region, hold: &mut Hold, count: u64) -> Result<(), AllocError>
    requires region { IsFirst region.now }
    requires hold { IsHold region.now hold.old }
    requires few { count < 100 }
    ensures { IsHold region.now hold.new }
{
    region.raise(rt, hold, 0, 1_000 + count)?;
    Ok(())
}

// The first client hears what the third has seen.
fn hear(
    alloc: Global,
    region: &Region,
    one: &mut Hold,
    three: &mut Hold,
    count: u64,
) -> Result<(), AllocError>
    requires one { IsClient region.now 0 count one.old }
    requires three { IsHold region.now three.old }
    ensures one { IsClient region.now 0 count one.new }
    ensures three { IsHold region.now three.new }
{
    let note = region.tell(alloc, three)?;
    region.hear(one, note);
    Ok(())
}

// One step, before which so many were done.
fn do_step<R: Wait>(
    rt: &R,
    alloc: Global,
    region: &Region,
    one: &mut Hold,
    two: &mut Hold,
    three: &mut Hold,
    step: Step,
    count: u64,
) -> Result<(), AllocError>
    requires region { IsFirst region.now }
    requires one { IsClient region.now 0 count one.old }
    requires others { IsHold region.now two.old × IsHold region.now three.old }
    requires few { count < 100 }
    ensures one { IsClient region.now 0 (count + 1) one.new }
    ensures others { IsHold region.now two.new × IsHold region.now three.new }
{
    match step {
        Append => append(rt, alloc, region, one, count),
        Second => raise(rt, region, two, count),
        Third => raise(rt, region, three, count),
        Hear => hear(alloc, region, one, three, count),
    }
}

// All steps, one after another, of which there are few.
fn do_steps<R: Wait>(
    rt: &R,
    alloc: Global,
    region: &Region,
    one: &mut Hold,
    two: &mut Hold,
    three: &mut Hold,
    all: &[Step],
) -> Result<(), AllocError>
    requires region { IsFirst region.now }
    requires one { IsClient region.now 0 0 one.old }
    requires others { IsHold region.now two.old × IsHold region.now three.old }
    ensures one { IsHold region.now one.new }
    ensures others { IsHold region.now two.new × IsHold region.now three.new }
{
    for place in 0..all.len().min(100) {
        do_step(rt, alloc, region, one, two, three, all[place], place as u64)?;
    }
    Ok(())
}

/// What a thread that holds the turn and one that looks say to one another.
#[derive(Drop)]
struct Beside {
    held: AtomicBool,
    answered: AtomicBool,
}

// Whether the flag is set at last; it is looked at so often, with a yield between.
fn is_set(flag: &AtomicBool, most: u32) -> bool {
    for _ in 0..most {
        if flag.load(Ordering::SeqCst) {
            return true;
        }
        yield_now();
    }
    false
}

impl Beside {
    // Holds the turn until the other's look has answered, for so many yields at most. Says whether it has.
    fn hold<R: Wait>(&self, rt: &R, region: &Region, mut pass: Pass<Seated>, most: u32) -> bool
        requires region { IsFirst region.now }
        requires pass { (c : ColumnCell) → IsColumnAt region.now 0 c → IsReady tag_of c pass }
    {
        let turn = region.column(0).take(rt, &mut pass);
        self.held.store(true, Ordering::SeqCst);
        let answered = is_set(&self.answered, most);
        turn.put(&mut pass);
        answered
    }

    // Looks once the turn is held. Says how many events are shown, if there is memory.
    fn look<R: Wait>(&self, rt: &R, alloc: Global, region: &Region, mut hold: Hold) -> Option<u64>
        requires region { IsFirst region.now }
        requires hold { IsHold region.now hold }
    {
        if !is_set(&self.held, MOST) {
            return None;
        }
        let view = region.look(rt, alloc, &mut hold, 0, Counts::zeros()).ok();
        self.answered.store(true, Ordering::SeqCst);
        Some(view?.events)
    }
}

// One thread holds the turn by the pass until another's look has answered, for so many yields at most: whether it has, and
// how many events the look shows.
fn look_beside<R: Threads + Wait + Sync>(
    rt: &R,
    alloc: Global,
    region: &Region,
    pass: Pass<Seated>,
    hold: Hold,
    most: u32,
) -> (bool, Option<u64>)
    requires region { IsFirst region.now }
    requires pass { (c : ColumnCell) → IsColumnAt region.now 0 c → IsReady tag_of c pass }
    requires hold { IsHold region.now hold }
{
    let beside = Beside {
        held: AtomicBool::new(false),
        answered: AtomicBool::new(false),
    };
    join(
        rt,
        || -> bool
            requires { IsFirst region.now × ((c : ColumnCell) → IsColumnAt region.now 0 c → IsReady tag_of c pass) }
        { beside.hold(rt, region, pass, most) },
        || -> Option<u64>
            requires { IsFirst region.now × IsHold region.now hold }
        { beside.look(rt, alloc, region, hold) },
    )
}

// After the steps the second client holds the turn, and the first looks.
fn look_after<R: Threads + Wait + Sync>(
    rt: &R,
    alloc: Global,
    all: &[Step],
    most: u32,
) -> Result<(bool, Option<u64>), AllocError> {
    let (region, mut one, mut two, mut three) = opened(alloc)?;
    do_steps(rt, alloc, &region, &mut one, &mut two, &mut three, all)?;
    let pass = region.watcher(&mut two, 0);
    Ok(look_beside(rt, alloc, &region, pass, one, most))
}

#[test]
fn a_look_is_answered_while_another_holds_the_turn(rt: HostRuntime) -> Result<(), Fail> {
    for (all, events) in SHARED {
        let (answered, shown) = look_after(&rt, rt.alloc(), all, MOST)?;
        assert!(rt; answered);
        assert_eq!(rt; shown, Some(events));
    }
    Ok(())
}

#[test]
fn a_look_waits_at_a_column_that_one_client_alone_has_used(rt: HostRuntime) -> Result<(), Fail> {
    let (answered, shown) = look_after(&rt, rt.alloc(), &[Append, Append], FEW)?;
    assert!(rt; !answered);
    assert_eq!(rt; shown, Some(2));
    Ok(())
}

// Steps behind which the copy shows fewer events than the first client has seen: events are published one by one only for a
// while, if no look finds the turn held.
fn many_steps(alloc: Global) -> Result<Vec<Step>, AllocError> {
    let mut all = Vec::new(alloc);
    all.push(Second)?;
    for _ in 0..70 {
        all.push(Third)?;
    }
    all.push(Append)?;
    Ok(all)
}

#[test]
fn a_look_waits_where_the_copy_shows_less_than_was_seen(rt: HostRuntime) -> Result<(), Fail> {
    let all = many_steps(rt.alloc())?;
    let (answered, shown) = look_after(&rt, rt.alloc(), all.as_slice(), FEW)?;
    assert!(rt; !answered);
    assert_eq!(rt; shown, Some(72));
    Ok(())
}
