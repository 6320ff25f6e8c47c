// Dequeues: an append, a sync, and the front of the queue before the own node.
ghost use Rattle.std.specs.Prelude.{◌≡◌, ◌<◌, ◌≤◌, [], ℕ, List, IfOk, OnErr, None, length};
ghost use Rattle.object_form.specs.Forms.{form_text};
ghost use Rattle.col_core.specs.History.{line};
ghost use Rattle.world_laws.specs.Worlds.{World as Meant, home_history};
ghost use Rattle.world_laws.specs.Laws.{IsReached};
ghost use Rattle.script_text.specs.Fitting.{UsesObject};
ghost use Rattle.world_code.specs.WorldView.{world_of};
ghost use Rattle.script_meaning.specs.Objects.{caller_in, refusing_home};
ghost use Rattle.script_meaning.specs.Appends.{appended_one};
ghost use Rattle.script_meaning.specs.Dequeues.{sync_now, dequeued_on, dequeued};
ghost use Rattle.script_in_order.specs.Doing.{DoneBy, DoesAtHome, AreKindsWithin};
ghost use Rattle.script_in_order.specs.Folds.{AreFolded, QueueWithin, IsQueueAt};
ghost use Rattle.script_in_order.specs.Reading.{ReadsOwn};

use crate::appends::append_one;
use crate::clears::home;
use crate::folds::{FirstNodes, Folds};
use crate::object_appends::shard;
use crate::syncs::trimmed_base;
use log_node::Form;
use object_form::write_form;
use report_text::{Answer, PointPiece, SyncPiece};
use script_text::{Command, Object, What};
use std::alloc::{AllocError, Global};
use world_code::World;

/// The sync that a client makes now.
pub fn sync_now(world: &World, client: u8, colour: u8) -> SyncPiece
    requires client { client < length world.now.shape.homes }
    requires colour { colour < world.now.shape.colours }
    ensures { result ≡ sync_now (world_of world.now) client colour }
{
    world.is_whole();
    let column = world.column(home(world, client), colour);
    SyncPiece {
        colour,
        events: column.journal().len() as u64,
        counts: column.cut(),
    }
}

// Plays up to the cut, and answers by the nodes before the own one, which stands under the stamp at the point.
fn read_own(
    alloc: Global,
    client: u8,
    object: u8,
    stamp: u64,
    point: PointPiece,
    world: &mut World,
    folds: &mut Folds,
) -> Answer
    requires client { client < length world.old.shape.homes }
    requires colour { point.colour < world.old.shape.colours }
    requires count { point.position ≤ length (line (home_history (world_of world.old) client point.colour)) }
    requires folded { (objects : List Object) × IsQueueAt (world_of world.old) client objects object point.colour
        × AreFolded (world_of world.old) objects folds.old }
    requires behind { QueueWithin folds.old object point.position }
    ensures reads { ReadsOwn client stamp point (world_of world.old) (world_of world.new) result }
    ensures folded { (objects : List Object) → IsQueueAt (world_of world.old) client objects object point.colour
        → AreFolded (world_of world.old) objects folds.old → AreFolded (world_of world.new) objects folds.new }
{
    world.is_whole();
    let colour = point.colour;
    if let Some(base) = trimmed_base(world, client, colour) {
        return Answer::UnreadTrimmed {
            stamp,
            colour,
            base,
        };
    }
    let sync = sync_now(world, client, colour);
    let first = FirstNodes {
        region: home(world, client),
        colour,
        count: point.position as usize,
    };
    let front = folds.front(alloc, world, object, first);
    let _played = world.play(client, colour);
    match front {
        Ok(value) => Answer::Took { value, point, sync },
        Err(_) => Answer::UnreadNoMemory { stamp },
    }
}

// The answer to a dequeue whose append was answered so.
fn read_behind(
    alloc: Global,
    command: &Command,
    object: u8,
    colour: u8,
    appended: Answer,
    world: &mut World,
    folds: &mut Folds,
) -> Answer
    requires client { command.now.client < length world.old.shape.homes }
    requires colour { colour < world.old.shape.colours }
    requires appended { (before : Meant) × DoneBy
        (λ grants state. appended_one grants state command.now (form_text Form.Dequeue) colour) command.now before
        (world_of world.old) appended []
        × QueueWithin folds.old object (length (line (home_history before command.now.client colour)))
        × IsReached before }
    requires folded { (objects : List Object) × IsQueueAt (world_of world.old) command.now.client objects object colour
        × AreFolded (world_of world.old) objects folds.old }
    ensures folded { (objects : List Object) → IsQueueAt (world_of world.old) command.now.client objects object colour
        → AreFolded (world_of world.old) objects folds.old → AreFolded (world_of world.new) objects folds.new }
    ensures done { (before : Meant) → DoneBy
        (λ grants state. appended_one grants state command.now (form_text Form.Dequeue) colour) command.now before
        (world_of world.old) appended []
        → DoneBy (λ grants state. dequeued_on grants state command.now colour) command.now before (world_of world.new)
        result [] }
{
    match appended {
        Answer::Stood {
            stamp,
            row: _row,
            points,
        } => read_own(
            alloc,
            command.client,
            object,
            stamp,
            points.as_slice()[0],
            world,
            folds,
        ),
        other => other,
    }
}

/// A dequeue: an append of its text, a sync, and the front of the queue before its own node.
pub fn dequeue(
    alloc: Global,
    objects: &[Object],
    command: &Command,
    object: u8,
    world: &mut World,
    folds: &mut Folds,
) -> Result<Answer, AllocError>
    requires asks { command.now.what ≡ What.Deq object }
    requires caller { command.now.client < length world.old.shape.homes }
    requires kinds { AreKindsWithin world.old.shape objects.now }
    requires uses { UsesObject objects.now (What.Deq object) }
    requires near { refusing_home (caller_in (world_of world.old) objects.now command.now.client) (What.Deq object) ≡ None }
    requires folded { AreFolded (world_of world.old) objects.now folds.old }
    ensures ok { IfOk result (λ answer. DoesAtHome objects.now command.now (world_of world.old) (world_of world.new) answer []) }
    ensures err { OnErr result (world_of world.new ≡ world_of world.old) }
    ensures folded { AreFolded (world_of world.new) objects.now folds.new }
{
    world.agrees();
    let colour = shard(&objects[object as usize].kind, &[]);
    let text = write_form(alloc, &Form::Dequeue)?;
    let appended = append_one(alloc, command, colour, &text, world)?;
    Ok(read_behind(alloc, command, object, colour, appended, world, folds))
}
