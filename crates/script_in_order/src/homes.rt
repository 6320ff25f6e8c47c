// The homes of objects: a client of another region is refused there.
ghost use Rattle.std.specs.Prelude.{◌≡◌, ◌<◌, IfOk, OnErr, None, length, slice_get};
ghost use Rattle.std.specs.Option.{option_map};
ghost use Rattle.lawful_run.specs.Asks.{object_home, home_asked};
ghost use Rattle.lawful_run.specs.Callers.{Caller};
ghost use Rattle.world_code.specs.WorldView.{world_of};
ghost use Rattle.script_meaning.specs.Objects.{caller_in, refusing_home};
ghost use Rattle.script_in_order.specs.Doing.{IsFit, Does, transaction_of};
ghost use Rattle.script_in_order.specs.Folds.{AreFolded};

use crate::answers::answer;
use crate::clears::home;
use crate::folds::Folds;
use log_node::{Items, ListOf};
use report_text::Answer;
use script_text::{Command, Kind, Object, Use, What};
use std::alloc::{AllocError, Global};
use world_code::World;

// The home of an object, where it has one.
fn object_home(objects: &[Object], object: u8) -> Option<u8>
    ensures { result ≡ object_home (option_map (λ (o : Object). o.kind) (slice_get objects.now object)) }
{
    match objects.get(object as usize) {
        None => None,
        Some(found) => match &found.kind {
            Kind::Map { home, .. }
            | Kind::Tx { home, .. }
            | Kind::Tree { home, .. }
            | Kind::Parts { home, .. }
            | Kind::Queue { home, .. } => Some(*home),
            Kind::Causal { .. } => None,
        },
    }
}

// The home of the object that a command is of.
fn home_asked(objects: &[Object], what: &What) -> Option<u8>
    ensures { (caller : Caller) → caller.objects ≡ objects.now → result ≡ home_asked caller what.now }
{
    match what.use_of() {
        Use::OfLog { .. } => None,
        Use::OfObject { object, .. } => object_home(objects, object),
    }
}

/// The home of the command's object, where its client is away from it.
pub fn refusing_home(objects: &[Object], command: &Command, world: &World) -> Option<u8>
    requires { command.now.client < length world.now.shape.homes }
    ensures { result ≡ refusing_home (caller_in (world_of world.now) objects.now command.now.client) command.now.what }
{
    match home_asked(objects, &command.what) {
        None => None,
        Some(asked) => if asked == home(world, command.client) {
            None
        } else {
            Some(asked)
        },
    }
}

/// What a command is answered, and the nodes that it shows; `Err` means that it found no memory before it did anything.
/// A client that is away from its object's home is refused. The command is no read and no commit.
pub fn answer_at_home(
    alloc: Global,
    objects: &[Object],
    command: &Command,
    world: &mut World,
    folds: &mut Folds,
) -> Result<(Answer, Items), AllocError>
    requires kind { transaction_of command.now.what ≡ None }
    requires fits { IsFit (world_of world.old) objects.now command.now.client command.now.what }
    requires folded { AreFolded (world_of world.old) objects.now folds.old }
    ensures ok { IfOk result (λ g. Does objects.now command.now (world_of world.old) (world_of world.new) g.0 g.1) }
    ensures err { OnErr result (world_of world.new ≡ world_of world.old) }
    ensures folded { AreFolded (world_of world.new) objects.now folds.new }
{
    world.agrees();
    match refusing_home(objects, command, world) {
        Some(home) => Ok((Answer::NotHome { home }, ListOf::new(alloc))),
        None => {
            let mut nodes = ListOf::new(alloc);
            let answer = answer(alloc, objects, command, world, folds, &mut nodes)?;
            Ok((answer, nodes))
        }
    }
}
