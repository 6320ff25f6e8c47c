// The writer's steps, and the reader's plays between them.
ghost use Rattle.std.specs.Prelude.{◌≡◌, ◌<◌, ◌≤◌, IfOk, OnOk, Some, slice_get, take, drop};
ghost use Rattle.world_laws.specs.Worlds.{opened, run_steps};
ghost use Rattle.world_laws.specs.Laws.{OrderedAlike};
ghost use Rattle.world_code.specs.WorldView.{world_of};
ghost use Rattle.example_orders.specs.Orders.{small, writer, in_order, sight_of};

use log_node::{Colours, ListOf, Row, Shape, Text};
use std::alloc::{AllocError, Global};
use world_code::World;
use world_laws::{Step, ordered_alike};

/// How many steps the writer takes.
pub const STEPS: u8 = 6;

const WRITER: u8 = 0;

const READER: u8 = 1;

const LEFT: u8 = 0;

const RIGHT: u8 = 1;

/// How many nodes the reader has played of each colour.
#[derive(Clone, Copy)]
pub struct Sight {
    pub left: u64,
    pub right: u64,
}

// One region with two colours and two clients, of whom each may begin one row.
fn open(alloc: Global) -> Result<World, AllocError>
    ensures { IfOk result (λ world. world_of world ≡ opened small) }
{
    let mut homes = ListOf::new(alloc);
    homes.push(0)?;
    homes.push(0)?;
    World::open(
        alloc,
        Shape {
            regions: 1,
            colours: 2,
            homes,
            rows: 1,
        },
    )
}

// A step of the writer, counted from 0: it begins its row, sets the marks of both colours, decides, and settles its node in
// both columns.
fn writer_step(alloc: Global, number: u8) -> Result<Step, AllocError>
    requires { number < STEPS }
    ensures { IfOk result (λ step. slice_get writer number ≡ Some step) }
{
    let row = Row {
        client: WRITER,
        number: 0,
    };
    match number {
        0 => Ok(Step::Begin {
            client: WRITER,
            colours: Colours::of(&[LEFT, RIGHT]),
            text: Text::copied(alloc, b"note")?,
        }),
        1 => Ok(Step::Propose {
            by: WRITER,
            row,
            colour: LEFT,
        }),
        2 => Ok(Step::Propose {
            by: WRITER,
            row,
            colour: RIGHT,
        }),
        3 => Ok(Step::Decide { row }),
        4 => Ok(Step::Settle {
            by: WRITER,
            row,
            colour: LEFT,
        }),
        _ => Ok(Step::Settle {
            by: WRITER,
            row,
            colour: RIGHT,
        }),
    }
}

// The writer takes its steps from one number on up to another.
fn write_on(alloc: Global, world: &mut World, from: u8, to: u8) -> Result<(), AllocError>
    requires order { from ≤ to }
    requires few { to ≤ STEPS }
    ensures { OnOk result (world_of world.new ≡ run_steps (world_of world.old) (drop from (take to writer))) }
{
    for number in from..to {
        let step = writer_step(alloc, number)?;
        let _reply = world.step(alloc, step)?;
    }
    Ok(())
}

// What the reader has played.
fn seen_in(world: &World) -> Sight
    requires { (world_of world.now).shape ≡ small }
    ensures { result ≡ sight_of (world_of world.now) }
{
    world.is_whole();
    let reader = world.client(READER);
    Sight {
        left: reader.played(LEFT).0[0],
        right: reader.played(RIGHT).0[0],
    }
}

/// The two lines have one order for the nodes that they share, as in every world that steps have made.
pub fn lines_agree(world: &World)
    ensures { OrderedAlike (world_of world.now) }
{
    ordered_alike();
    world.agrees();
}

/// The reader plays the left colour after the first of the writer's steps, and the right one after more of them: what
/// it has then played.
pub fn try_order(alloc: Global, first: u8, second: u8) -> Result<Sight, AllocError>
    requires order { first ≤ second }
    requires few { second ≤ STEPS }
    ensures { IfOk result (λ seen. seen ≡ sight_of (run_steps (opened small) (in_order first second))) }
{
    let mut world = open(alloc)?;
    write_on(alloc, &mut world, 0, first)?;
    let _left = world.play(READER, LEFT);
    write_on(alloc, &mut world, first, second)?;
    let _right = world.play(READER, RIGHT);
    lines_agree(&world);
    Ok(seen_in(&world))
}
