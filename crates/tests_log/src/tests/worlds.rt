// Steps of a world that no command takes, its end of the stamps, and more open entries than clients can leave.
ghost use Rattle.std.specs.Prelude.{◌<◌, ◌≤◌};

use log_node::{Colours, Id, ListOf, MAX_STAMP, Mark, Outcome, Row, Shape, Text, Why};
use std::alloc::{AllocError, Global};
use std::process::Abort;
use std::test::Fail;
use world_code::{Completed, Placed, World};
use world_laws::{Reply, Step};

// Two colours, and two clients of the first region who may begin so many rows each.
fn opened(alloc: Global, regions: u8, rows: u32) -> Result<World, AllocError>
    requires some { 0 < regions }
    requires regions { regions ≤ 2 }
    requires rows { rows ≤ 100 }
{
    let mut homes = ListOf::new(alloc);
    homes.push(0)?;
    homes.push(0)?;
    World::open(
        alloc,
        Shape {
            regions,
            colours: 2,
            homes,
            rows,
        },
    )
}

// Where the client's append to the colour stands.
fn appended(
    alloc: Global,
    world: &mut World,
    client: u8,
    colour: u8,
) -> Result<Option<Placed>, AllocError> {
    let text = Text::copied(alloc, b"a")?;
    world.single(alloc, client, colour, text)
}

// The reply of a step that takes no text.
fn told(
    rt: &impl Abort,
    alloc: Global,
    world: &mut World,
    step: Step,
    reply: Reply,
) -> Result<(), Fail> {
    assert_eq!(rt; world.step(alloc, step)?, reply);
    Ok(())
}

#[test]
fn any_kind_of_step_is_done_by_its_name(rt: HostRuntime) -> Result<(), Fail> {
    let alloc = rt.alloc();
    let text = Text::copied(alloc, b"a")?;
    let mut world = opened(alloc, 1, 1)?;
    let step = Step::Begin {
        client: 0,
        colours: Colours::of(&[0, 1]),
        text,
    };
    let reply = Reply::Begun {
        row: ROW,
        id: Id {
            client: 0,
            count: 0,
        },
    };
    told(&rt, alloc, &mut world, step, reply)?;
    done(&rt, alloc, &mut world)
}

// Its append to both colours is completed, the one proposed and the other fenced.
fn done(rt: &impl Abort, alloc: Global, world: &mut World) -> Result<(), Fail> {
    let step = Step::Propose {
        by: 0,
        row: ROW,
        colour: 0,
    };
    told(rt, alloc, world, step, Reply::Event { place: 0, stamp: 1 })?;
    let why = Why::Memory;
    let step = Step::Fence {
        row: ROW,
        colour: 1,
        why,
    };
    told(rt, alloc, world, step, Reply::Marked(Mark::Fenced(why)))?;
    told(
        rt,
        alloc,
        world,
        Step::Decide { row: ROW },
        Reply::Decided(Outcome::Gone(why)),
    )?;
    let step = Step::Settle {
        by: 1,
        row: ROW,
        colour: 0,
    };
    told(rt, alloc, world, step, Reply::Event { place: 1, stamp: 0 })?;
    let step = Step::Raise {
        by: 1,
        region: 0,
        colour: 0,
        to: 9,
    };
    told(rt, alloc, world, step, Reply::Event { place: 2, stamp: 0 })?;
    told(
        rt,
        alloc,
        world,
        Step::Seen { client: 1, to: 9 },
        Reply::Nothing,
    )
}

// A world in which the first client has begun an append to both colours, where the first one's clock was raised to a
// stamp.
fn begun(alloc: Global, clock: u64) -> Result<World, AllocError> {
    let text = Text::copied(alloc, b"a")?;
    let mut world = opened(alloc, 1, 1)?;
    let _raised = world.raise(0, 0, 0, clock)?;
    let _begun = world.begin(alloc, 0, Colours::of(&[0, 1]), text)?;
    Ok(world)
}

const ROW: Row = Row {
    client: 0,
    number: 0,
};

// Its completing by the second client, where it is begun.
fn completed(world: &mut World) -> Option<Completed> {
    let Some(_) = world.row_node(ROW) else {
        return None;
    };
    Some(world.complete(1, ROW))
}

// How many events and how many delivered nodes the second colour's column has.
fn second_column(world: &World) -> (usize, usize) {
    if world.shape().regions < 1 || world.shape().colours < 2 {
        return (0, 0);
    }
    let column = world.column(0, 1);
    (column.journal().len(), column.line().len())
}

#[test]
fn an_append_past_the_last_stamp_is_gone(rt: HostRuntime) -> Result<(), Fail> {
    let mut world = begun(rt.alloc(), MAX_STAMP)?;
    assert_eq!(rt; appended(rt.alloc(), &mut world, 0, 0)?, None);
    let done = Completed {
        outcome: Outcome::Gone(Why::StampEnd),
        steps: 4,
    };
    assert_eq!(rt; completed(&mut world), Some(done));
    assert_eq!(rt; second_column(&world), (2, 0));
    Ok(())
}

#[test]
fn no_region_carries_with_a_gap(rt: HostRuntime) -> Result<(), Fail> {
    let mut world = opened(rt.alloc(), 2, 1)?;
    assert_eq!(rt;
        appended(rt.alloc(), &mut world, 0, 0)?,
        Some(Placed { place: 0, stamp: 1 })
    );
    assert_eq!(rt; world.carry(rt.alloc(), 1, 0, 1, 0, 1, 1)?, None);
    assert_eq!(rt; world.give(1, 0, 1, 0, 1)?, None);
    Ok(())
}

// The client begins its next row, which has this number, and proposes it in the first colour.
fn proposed(alloc: Global, world: &mut World, number: u32) -> Result<Reply, AllocError> {
    let text = Text::copied(alloc, b"a")?;
    let begin = Step::Begin {
        client: 0,
        colours: Colours::of(&[0, 1]),
        text,
    };
    let _begun = world.step(alloc, begin)?;
    let row = Row { client: 0, number };
    let propose = Step::Propose {
        by: 0,
        row,
        colour: 0,
    };
    world.step(alloc, propose)
}

#[test]
fn seventy_entries_wait_in_one_column(rt: HostRuntime) -> Result<(), Fail> {
    let mut world = opened(rt.alloc(), 1, 70)?;
    for number in 0..70 {
        let place = number as u64;
        let wanted = Reply::Event {
            place,
            stamp: place + 1,
        };
        assert_eq!(rt; proposed(rt.alloc(), &mut world, number)?, wanted);
    }
    Ok(())
}
