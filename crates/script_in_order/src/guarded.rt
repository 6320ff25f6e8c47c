// Appends that are made only where nothing has come between.
ghost use Rattle.std.specs.Prelude.{◌≡◌, ◌<◌, [], IfOk, OnErr, false, length};
ghost use Rattle.col_core.specs.History.{entries, open_count, line};
ghost use Rattle.world_laws.specs.Worlds.{home_history};
ghost use Rattle.world_code.specs.WorldView.{world_of};
ghost use Rattle.script_meaning.specs.Guards.{has_moved, appended_next};
ghost use Rattle.script_in_order.specs.Doing.{DoneBy, DoesAtHome};

use crate::appends::next_id;
use crate::clears::home;
use crate::moves::played;
use crate::points::position;
use log_node::{At, Key, Text};
use report_text::{Answer, PointPiece, Points};
use script_text::{Command, Object, What};
use std::alloc::{AllocError, Global};
use world_code::World;

// Whether the colour has moved on from what the client has played of it.
fn has_moved(world: &World, client: u8, colour: u8) -> bool
    requires client { client < length world.now.shape.homes }
    requires within { colour < world.now.shape.colours }
    ensures { result ≡ has_moved (world_of world.now) client colour }
{
    world.is_whole();
    let own = home(world, client);
    let column = world.column(own, colour);
    column.open_count() > 0
        || column.line().len() as u64 != played(world, client, colour).of_region(own)
}

// What is answered where it has.
fn moved(world: &World, client: u8, colour: u8) -> Answer
    requires client { client < length world.now.shape.homes }
    requires within { colour < world.now.shape.colours }
    ensures { let history = home_history (world_of world.now) client colour in
        result ≡ Answer.Moved (length (line history)) (open_count (entries history)) colour (length history) }
{
    world.is_whole();
    let column = world.column(home(world, client), colour);
    Answer::Moved {
        length: column.line().len() as u64,
        waiting: column.open_count(),
        colour,
        events: column.journal().len() as u64,
    }
}

/// An append to one colour, made only where the client has played all that there is of it and nothing is open.
pub fn append_next(
    alloc: Global,
    objects: &[Object],
    command: &Command,
    colour: u8,
    text: &Text,
    world: &mut World,
) -> Result<Answer, AllocError>
    requires asks { command.now.what ≡ What.Only colour text.now }
    requires caller { command.now.client < length world.old.shape.homes }
    requires within { colour < world.old.shape.colours }
    ensures ok { IfOk result (λ answer. DoesAtHome objects.now command.now (world_of world.old) (world_of world.new) answer []) }
    ensures err { OnErr result (world_of world.new ≡ world_of world.old) }
{
    if has_moved(world, command.client, colour) {
        return Ok(moved(world, command.client, colour));
    }
    enter_next(alloc, command, colour, text, world)
}

// The same where nothing has come between. The answer takes no memory, so that want of it changes nothing.
fn enter_next(
    alloc: Global,
    command: &Command,
    colour: u8,
    text: &Text,
    world: &mut World,
) -> Result<Answer, AllocError>
    requires caller { command.now.client < length world.old.shape.homes }
    requires within { colour < world.old.shape.colours }
    requires next { has_moved (world_of world.old) command.now.client colour ≡ false }
    ensures ok { IfOk result (λ answer. DoneBy (λ grants state. appended_next state command.now colour text.now) command.now
        (world_of world.old) (world_of world.new) answer []) }
    ensures err { OnErr result (world_of world.new ≡ world_of world.old) }
{
    let client = command.client;
    let id = next_id(world, client);
    let text = Text::copied(alloc, text.as_bytes())?;
    let entered = world.single(alloc, client, colour, text)?;
    match entered {
        Some(placed) => {
            let key = Key {
                stamp: placed.stamp,
                id,
            };
            let point = PointPiece {
                colour,
                at: At::Event(placed.place),
                position: position(world, client, key, colour),
            };
            Ok(Answer::Stood {
                stamp: placed.stamp,
                row: None,
                points: Points::one(point),
            })
        }
        None => Ok(Answer::StampEnd { colour }),
    }
}
