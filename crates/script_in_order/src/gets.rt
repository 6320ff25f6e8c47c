// Gets of maps: what they answer for keys, after a sync or a stamped read.
ghost use Rattle.std.specs.Prelude.{◌≡◌, ◌<◌, ◌≤◌, ℕ, List, [], IfOk, OnErr, None, length, take};
ghost use Rattle.col_core.specs.History.{line};
ghost use Rattle.playback.specs.Merging.{up_to};
ghost use Rattle.world_laws.specs.Worlds.{home_of, home_history};
ghost use Rattle.script_text.specs.Fitting.{UsesObject};
ghost use Rattle.lawful_run.specs.Asks.{colours_of_object, shards};
ghost use Rattle.world_code.specs.WorldView.{world_of};
ghost use Rattle.script_meaning.specs.States.{kind_in};
ghost use Rattle.script_meaning.specs.Objects.{caller_in, refusing_home};
ghost use Rattle.script_meaning.specs.Gets.{got, got_value, got_keys, key_answers, value_up_to};
ghost use Rattle.script_in_order.specs.Doing.{DoneBy, DoesAtHome, AreKindsWithin};
ghost use Rattle.script_in_order.specs.Folds.{whole_line, AreThere, AreFolded, ShardsWithin, IsMapAt};

use crate::causal::get_values;
use crate::clears::home;
use crate::folds::{FirstNodes, Folds};
use crate::object_appends::{key_shards, shard};
use crate::queues::sync_now;
use crate::stamped::{Stamped, stamped_read};
use crate::syncs::trimmed_base;
use log_node::{Keys, ListOf, MAX_COLOURS, Text};
use playback::count_up_to;
use report_text::{Answer, KeyAnswer};
use script_text::{Command, Kind, Object, What};
use std::alloc::{AllocError, Global};
use world_code::World;
use world_laws::stays_within_cuts;

/// A get, by the kind of its object.
pub fn get(
    alloc: Global,
    objects: &[Object],
    command: &Command,
    object: u8,
    key: &Text,
    world: &mut World,
    folds: &mut Folds,
) -> Result<Answer, AllocError>
    requires asks { command.now.what ≡ What.Get object key.now }
    requires caller { command.now.client < length world.old.shape.homes }
    requires kinds { AreKindsWithin world.old.shape objects.now }
    requires uses { UsesObject objects.now (What.Get object key.now) }
    requires near { refusing_home (caller_in (world_of world.old) objects.now command.now.client)
        (What.Get object key.now) ≡ None }
    requires folded { AreFolded (world_of world.old) objects.now folds.old }
    ensures ok { IfOk result (λ answer. DoesAtHome objects.now command.now (world_of world.old) (world_of world.new) answer []) }
    ensures err { OnErr result (world_of world.new ≡ world_of world.old) }
    ensures folded { AreFolded (world_of world.new) objects.now folds.new }
{
    match &objects[object as usize].kind {
        Kind::Map { .. } => get_value(alloc, objects, command, object, key, world, folds),
        Kind::Causal { colour } => {
            get_values(alloc, objects, command, object, *colour, key, world, folds)
        }
        _ => unreachable!(),
    }
}

// A get of a map: plays the shard of the key up to the cut, and answers by the nodes of the own line; refused where one
// that has to be played is trimmed. The memory for the answer is taken before the play.
fn get_value(
    alloc: Global,
    objects: &[Object],
    command: &Command,
    object: u8,
    key: &Text,
    world: &mut World,
    folds: &mut Folds,
) -> Result<Answer, AllocError>
    requires caller { command.now.client < length world.old.shape.homes }
    requires kinds { AreKindsWithin world.old.shape objects.now }
    requires uses { UsesObject objects.now (What.Get object key.now) }
    requires at_home { (colours : List ℕ) × IsMapAt (world_of world.old) command.now.client objects.now object colours }
    requires folded { AreFolded (world_of world.old) objects.now folds.old }
    ensures ok { (colours : List ℕ) → IsMapAt (world_of world.old) command.now.client objects.now object colours
        → IfOk result (λ answer. DoneBy (λ _ state. got_value state command.now colours key.now) command.now
        (world_of world.old) (world_of world.new) answer []) }
    ensures err { OnErr result (world_of world.new ≡ world_of world.old) }
    ensures folded { AreFolded (world_of world.new) objects.now folds.new }
{
    stays_within_cuts();
    world.is_whole();
    let colour = shard(&objects[object as usize].kind, key.as_bytes());
    if let Some(base) = trimmed_base(world, command.client, colour) {
        return Ok(Answer::Trimmed { colour, base });
    }
    let sync = sync_now(world, command.client, colour);
    let region = home(world, command.client);
    let first = FirstNodes {
        region,
        colour,
        count: sync.counts.0[region as usize] as usize,
    };
    let value = folds.value(alloc, world, object, first, key.as_bytes())?;
    let _played = world.play(command.client, colour);
    Ok(Answer::Got { value, sync })
}

/// The nodes of the own line of a colour's column of a client's region up to a stamp.
pub fn nodes_up_to(world: &World, client: u8, colour: u8, stamp: u64) -> FirstNodes
    requires client { client < length world.now.shape.homes }
    requires colour { colour < world.now.shape.colours }
    ensures there { AreThere (world_of world.now) result }
    ensures region { result.region ≡ home_of (world_of world.now) client }
    ensures colour { result.colour ≡ colour }
    ensures count { result.count ≡ length (up_to stamp (line (home_history (world_of world.now) client colour))) }
    ensures nodes { take result.count (whole_line (world_of world.now) result)
        ≡ up_to stamp (line (home_history (world_of world.now) client colour)) }
{
    world.agrees();
    let region = home(world, client);
    let count = count_up_to(world.column(region, colour).line(), stamp);
    FirstNodes {
        region,
        colour,
        count,
    }
}

// The values of keys of a map over the nodes up to a stamp.
fn values_up_to(
    alloc: Global,
    objects: &[Object],
    client: u8,
    object: u8,
    stamp: u64,
    keys: &[Text],
    world: &World,
    folds: &mut Folds,
) -> Result<ListOf<KeyAnswer>, AllocError>
    requires client { client < length world.now.shape.homes }
    requires kinds { AreKindsWithin world.now.shape objects.now }
    requires few { world.now.shape.colours ≤ MAX_COLOURS }
    requires at_home { (colours : List ℕ) × IsMapAt (world_of world.now) client objects.now object colours }
    requires folded { AreFolded (world_of world.now) objects.now folds.old }
    requires behind { ShardsWithin folds.old object
        (shards (colours_of_object (caller_in (world_of world.now) objects.now client) object) keys.now)
        (λ colour. length (up_to stamp (line (home_history (world_of world.now) client colour)))) }
    ensures values { IfOk result (λ values. values ≡ key_answers (value_up_to (world_of world.now) client
        (colours_of_object (caller_in (world_of world.now) objects.now client) object) stamp) keys.now) }
    ensures folded { AreFolded (world_of world.now) objects.now folds.new }
{
    let mut answers = ListOf::new(alloc);
    for key in keys {
        let colour = shard(&objects[object as usize].kind, key.as_bytes());
        let first = nodes_up_to(world, client, colour, stamp);
        let value = folds.value(alloc, world, object, first, key.as_bytes())?;
        let key = Text::copied(alloc, key.as_bytes())?;
        answers.push(KeyAnswer { key, value })?;
    }
    Ok(answers)
}

/// Several keys of a map: a stamped read of their shards, and the values over the nodes up to its stamp; refused where a
/// node that has to be played is trimmed. Where there is no memory for the values it is done all the same.
pub fn get_keys(
    alloc: Global,
    objects: &[Object],
    command: &Command,
    object: u8,
    keys: &Keys,
    world: &mut World,
    folds: &mut Folds,
) -> Result<Answer, AllocError>
    requires asks { command.now.what ≡ What.GetAll object keys.now }
    requires caller { command.now.client < length world.old.shape.homes }
    requires kinds { AreKindsWithin world.old.shape objects.now }
    requires uses { UsesObject objects.now (What.GetAll object keys.now) }
    requires near { refusing_home (caller_in (world_of world.old) objects.now command.now.client)
        (What.GetAll object keys.now) ≡ None }
    requires folded { AreFolded (world_of world.old) objects.now folds.old }
    ensures ok { IfOk result (λ answer. DoesAtHome objects.now command.now (world_of world.old) (world_of world.new) answer []) }
    ensures err { OnErr result (world_of world.new ≡ world_of world.old) }
    ensures folded { AreFolded (world_of world.new) objects.now folds.new }
{
    world.is_whole();
    let colours = key_shards(&objects[object as usize].kind, keys.as_slice());
    match stamped_read(alloc, world, command.client, colours)? {
        Stamped::Unraised => Ok(Answer::NoMemory),
        Stamped::Refused { colour, base } => Ok(Answer::Trimmed { colour, base }),
        Stamped::Whole {
            stamp,
            raises,
            syncs,
        } => match values_up_to(
            alloc,
            objects,
            command.client,
            object,
            stamp,
            keys.as_slice(),
            world,
            folds,
        ) {
            Ok(keys) => Ok(Answer::GotKeys {
                stamp,
                keys,
                raises,
                syncs,
            }),
            Err(_) => Ok(Answer::NoMemory),
        },
    }
}
