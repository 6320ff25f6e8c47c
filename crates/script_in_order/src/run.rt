// A run in the order of the file.
ghost use Rattle.std.specs.Prelude.{◌≡◌, ◌+◌, ◌<◌, ◌≤◌, IfOk, Some, length, map};
ghost use Rattle.std.specs.List.{range_with_len};
ghost use Rattle.script_text.specs.Fitting.{IsFitting};
ghost use Rattle.world_code.specs.WorldView.{world_of};
ghost use Rattle.world_laws.specs.Worlds.{opened};
ghost use Rattle.script_meaning.specs.States.{StopsAreLast};
ghost use Rattle.script_in_order.specs.Doing.{IsFit, transaction_of};
ghost use Rattle.script_in_order.specs.Folds.{AreFolded};
ghost use Rattle.script_in_order.specs.Runs.{no_replies, replies_at, found_at, asks, IsDone, IsRunAt};
ghost use Rattle.script_in_order.specs.Transacting.{AreFit, Transacts};

use crate::answers::reply_of;
use crate::folds::Folds;
use crate::homes::answer_at_home;
use crate::replies::Replies;
use crate::transactions::{transact, transaction_of};
use log_node::{ListOf, MAX_ROWS, Shape};
use object_form::reads_back;
use script_text::{Command, Object, Script};
use std::alloc::{AllocError, Global};
use tree_fold::{names_are_answered, reads_back as changes_read_back};
use world_code::World;

// How many of the commands the client asks.
fn asks(commands: &[Command], client: usize) -> usize
    ensures { result ≡ asks client commands.now }
{
    commands
        .iter()
        .filter(|command| command.client as usize == client)
        .count()
}

/// For each client room for the replies to all its commands.
pub fn room_for_replies(alloc: Global, script: &Script) -> Result<Vec<Replies>, AllocError>
    ensures { IfOk result (λ replies. replies.items ≡
        map (λ client. no_replies (asks client script.now.commands) (length script.now.objects))
        (range_with_len 0 (length script.now.shape.homes))) }
{
    let mut replies = Vec::new(alloc);
    for client in 0..script.shape.homes.len() {
        let room = asks(script.commands.as_slice(), client);
        replies.push(Replies::new(alloc, room, script.objects.len())?)?;
    }
    Ok(replies)
}

// The same shape once more.
fn copied(alloc: Global, shape: &Shape) -> Result<Shape, AllocError>
    ensures { IfOk result (λ copy. copy ≡ shape.now) }
{
    let homes = Vec::from_slice(alloc, shape.homes.as_slice())?;
    Ok(Shape {
        regions: shape.regions,
        colours: shape.colours,
        homes: ListOf::from(homes),
        rows: shape.rows,
    })
}

/// The world before the first command of a script.
pub fn open_world(alloc: Global, script: &Script) -> Result<World, AllocError>
    requires fits { IsFitting script.now }
    requires rows { script.now.shape.rows ≤ MAX_ROWS }
    ensures { IfOk result (λ world. world_of world ≡ opened script.now.shape) }
{
    let shape = copied(alloc, &script.shape)?;
    World::open(alloc, shape)
}

// Does a read or a commit of an object, with its reply; where it finds no memory before it has begun, it is answered so.
fn do_transaction(
    alloc: Global,
    objects: &[Object],
    command: &Command,
    object: u8,
    world: &mut World,
    folds: &mut Folds,
    mine: &mut Replies,
)
    requires kind { transaction_of command.now.what ≡ Some object }
    requires fits { IsFit (world_of world.old) objects.now command.now.client command.now.what }
    requires reads { length mine.old.reads ≡ length objects.now }
    requires rests { AreFit (found_at mine.old.reads) }
    requires room { 0 < mine.old.room }
    requires folded { AreFolded (world_of world.old) objects.now folds.old }
    ensures done { Transacts objects.now command.now object (world_of world.old) (world_of world.new) mine.old mine.new }
    ensures folded { AreFolded (world_of world.new) objects.now folds.new }
{
    let taken = mine.take_read(object);
    match transact(alloc, objects, command, object, taken, world, folds) {
        Ok((answer, kept)) => {
            mine.keep_read(object, kept);
            mine.add(reply_of(alloc, command, Ok((answer, ListOf::new(alloc)))));
        }
        Err(fault) => mine.add(reply_of(alloc, command, Err(fault))),
    }
}

// Does one command; where it finds no memory before it has begun, it is answered so.
fn do_command(
    alloc: Global,
    objects: &[Object],
    command: &Command,
    world: &mut World,
    folds: &mut Folds,
    replies: &mut Vec<Replies>,
)
    requires fits { IsFit (world_of world.old) objects.now command.now.client command.now.what }
    requires folded { AreFolded (world_of world.old) objects.now folds.old }
    requires client { command.now.client < length replies.old.items }
    requires room { 0 < (replies_at replies.old.items command.now.client).room }
    requires reads { length (replies_at replies.old.items command.now.client).reads ≡ length objects.now }
    requires rests { AreFit (found_at (replies_at replies.old.items command.now.client).reads) }
    ensures done { IsDone objects.now command.now (record { world = world.old; replies = replies.old.items })
        (record { world = world.new; replies = replies.new.items }) }
    ensures folded { AreFolded (world_of world.new) objects.now folds.new }
{
    world.agrees();
    match transaction_of(&command.what) {
        None => {
            let given = answer_at_home(alloc, objects, command, world, folds);
            replies[command.client as usize].add(reply_of(alloc, command, given));
        }
        Some(object) => {
            let mine = &mut replies[command.client as usize];
            do_transaction(alloc, objects, command, object, world, folds, mine);
        }
    }
}

/// Runs the command at a place of a script, after those before it.
pub fn do_next(
    alloc: Global,
    script: &Script,
    place: usize,
    world: &mut World,
    folds: &mut Folds,
    replies: &mut Vec<Replies>,
)
    requires fits { IsFitting script.now }
    requires stops { StopsAreLast script.now }
    requires place { place < length script.now.commands }
    requires run { IsRunAt script.now place (record { world = world.old; replies = replies.old.items }) }
    requires folded { AreFolded (world_of world.old) script.now.objects folds.old }
    ensures run { IsRunAt script.now (place + 1) (record { world = world.new; replies = replies.new.items }) }
    ensures folded { AreFolded (world_of world.new) script.now.objects folds.new }
{
    reads_back();
    changes_read_back();
    names_are_answered();
    let command = &script.commands.as_slice()[place];
    do_command(
        alloc,
        script.objects.as_slice(),
        command,
        world,
        folds,
        replies,
    );
}
