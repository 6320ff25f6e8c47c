// Appends.
ghost use Rattle.std.specs.Prelude.{◌≡◌, ◌≢◌, ◌<◌, [], IfOk, OnErr, true, ◌&&◌, length, map};
ghost use Rattle.report_text.specs.declared.report.PointPiece.{PointPiece};
ghost use Rattle.log_node.specs.Sets.{members};
ghost use Rattle.script_text.specs.Fitting.{AreBelow, HasColours};
ghost use Rattle.world_code.specs.WorldView.{world_of};
ghost use Rattle.log_node.specs.Outcomes.{is_stamp_end_fence};
ghost use Rattle.world_laws.specs.Worlds.{is_begun, next_id, row_of};
ghost use Rattle.script_meaning.specs.Appends.{appended, appended_one, appended_several, ended_colour};
ghost use Rattle.script_in_order.specs.Doing.{DoneBy, DoesAtHome};
ghost use Rattle.script_in_order.specs.Points.{AreFinal, EndsByOutcome};

use crate::clears::{clear, clear_all};
use crate::points::{only_member, places, position, with_positions};
use log_node::{At, Colours, Id, Key, Mark, Outcome, Row, Text, Why};
use report_text::{Answer, PointPiece, Points};
use script_text::{Command, Object, What};
use std::alloc::{AllocError, Global};
use world_code::World;
use world_laws::{can_complete, is_lawful, log_only_grows};

/// An append to the members of a set.
pub fn append(
    alloc: Global,
    command: &Command,
    colours: Colours,
    text: &Text,
    world: &mut World,
) -> Result<Answer, AllocError>
    requires many { HasColours 1 colours }
    requires caller { command.now.client < length world.old.shape.homes }
    requires within { AreBelow world.old.shape.colours colours }
    ensures ok { IfOk result (λ answer. DoneBy
        (λ grants state. appended grants state command.now colours text.now (members colours)) command.now
        (world_of world.old) (world_of world.new) answer []) }
    ensures err { OnErr result (world_of world.new ≡ world_of world.old) }
{
    if colours.count() == 1 {
        append_one(alloc, command, only_member(colours), text, world)
    } else {
        append_several(alloc, command, colours, text, world)
    }
}

/// The same, as a command asks for it.
pub fn append_asked(
    alloc: Global,
    objects: &[Object],
    command: &Command,
    colours: Colours,
    text: &Text,
    world: &mut World,
) -> Result<Answer, AllocError>
    requires asks { command.now.what ≡ What.Append colours text.now }
    requires many { HasColours 1 colours }
    requires caller { command.now.client < length world.old.shape.homes }
    requires within { AreBelow world.old.shape.colours colours }
    ensures ok { IfOk result (λ answer. DoesAtHome objects.now command.now (world_of world.old) (world_of world.new) answer []) }
    ensures err { OnErr result (world_of world.new ≡ world_of world.old) }
{
    append(alloc, command, colours, text, world)
}

/// An append to one colour: its node enters, and its colour is cleared below its key.
pub fn append_one(
    alloc: Global,
    command: &Command,
    colour: u8,
    text: &Text,
    world: &mut World,
) -> Result<Answer, AllocError>
    requires caller { command.now.client < length world.old.shape.homes }
    requires within { colour < world.old.shape.colours }
    ensures ok { IfOk result (λ answer. DoneBy
        (λ grants state. appended_one grants state command.now text.now colour) command.now
        (world_of world.old) (world_of world.new) answer []) }
    ensures err { OnErr result (world_of world.new ≡ world_of world.old) }
{
    log_only_grows();
    world.agrees();
    let client = command.client;
    let id = next_id(world, client);
    let text = Text::copied(alloc, text.as_bytes())?;
    let entered = world.single(alloc, client, colour, text)?;
    match entered {
        Some(placed) => {
            let key = Key {
                stamp: placed.stamp,
                id,
            };
            clear(world, client, key, colour);
            let point = PointPiece {
                colour,
                at: At::Event(placed.place),
                position: position(world, client, key, colour),
            };
            Ok(Answer::Stood {
                stamp: placed.stamp,
                row: None,
                points: Points::one(point),
            })
        }
        None => Ok(Answer::StampEnd { colour }),
    }
}

/// The id that a client uses next.
pub fn next_id(world: &World, client: u8) -> Id
    requires { client < length world.now.shape.homes }
    ensures { result ≡ next_id (world_of world.now) client }
{
    Id {
        client,
        count: world.client(client).count(),
    }
}

// An append to several colours: its row begins and is completed.
fn append_several(
    alloc: Global,
    command: &Command,
    colours: Colours,
    text: &Text,
    world: &mut World,
) -> Result<Answer, AllocError>
    requires many { 1 < length (members colours) }
    requires caller { command.now.client < length world.old.shape.homes }
    requires within { AreBelow world.old.shape.colours colours }
    ensures ok { IfOk result (λ answer. DoneBy
        (λ grants state. appended_several grants state command.now colours text.now) command.now
        (world_of world.old) (world_of world.new) answer []) }
    ensures err { OnErr result (world_of world.new ≡ world_of world.old) }
{
    can_complete();
    is_lawful();
    log_only_grows();
    world.is_whole();
    let client = command.client;
    // The memory for the answer is taken before the first step.
    let places = places(alloc, world, client, colours)?;
    let text = Text::copied(alloc, text.as_bytes())?;
    let new = world.begin(alloc, client, colours, text)?;
    match new {
        Some(begun) => {
            let completed = world.complete(client, begun.row);
            Ok(end(
                world,
                begun.row,
                begun.id,
                completed.outcome,
                colours,
                places,
            ))
        }
        None => Ok(Answer::Full {
            used: world.shape().rows,
        }),
    }
}

// Answers an append to several colours by the outcome of its row, which is complete. Where that is final, the client
// has seen the stamp, and each colour is cleared below the node's key.
fn end(
    world: &mut World,
    row: Row,
    id: Id,
    outcome: Outcome,
    colours: Colours,
    places: Vec<PointPiece>,
) -> Answer
    requires caller { row.client < length world.old.shape.homes }
    requires within { AreBelow world.old.shape.colours colours }
    requires begun { is_begun (world_of world.old) row ≡ true }
    requires placed { map (λ (p : PointPiece). p.colour) places.items ≡ members colours }
    requires decided { outcome ≢ Outcome.Open }
    requires stamped { AreFinal (world_of world.old) row.client id (members colours) outcome }
    ensures { EndsByOutcome (world_of world.old) row id (members colours) outcome places.items (world_of world.new) result }
{
    log_only_grows();
    world.agrees();
    match outcome {
        Outcome::Open => unreachable!(),
        Outcome::Gone(Why::Memory) => Answer::NoMemory,
        Outcome::Gone(Why::StampEnd) => Answer::StampEnd {
            colour: ended_colour(world, row, colours),
        },
        Outcome::Final(stamp) => {
            world.see(row.client, stamp);
            let key = Key { stamp, id };
            clear_all(world, row.client, key, colours);
            Answer::Stood {
                stamp,
                row: Some(row.number),
                points: with_positions(world, row.client, key, places),
            }
        }
    }
}

// Whether a mark is a fence for the end of the stamps.
fn is_stamp_end(mark: Mark) -> bool
    ensures { result ≡ is_stamp_end_fence mark }
{
    match mark {
        Mark::None => false,
        Mark::Number(_) => false,
        Mark::Fenced(Why::Memory) => false,
        Mark::Fenced(Why::StampEnd) => true,
    }
}

// The least colour that had no stamp left.
fn ended_colour(world: &World, row: Row, colours: Colours) -> u8
    requires within { AreBelow world.now.shape.colours colours }
    requires begun { is_begun (world_of world.now) row ≡ true }
    ensures { result ≡ ended_colour (world_of world.now) row (members colours) }
{
    for colour in colours.members() {
        if is_stamp_end(world.mark(row, colour)) {
            return colour;
        }
    }
    0
}
