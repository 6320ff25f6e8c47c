// Scans.
ghost use Rattle.std.specs.Prelude.{◌≡◌, ◌≢◌, ◌<◌, [], None, IfOk, OnErr, length, map};
ghost use Rattle.std.specs.List.{All};
ghost use Rattle.log_node.specs.declared.ids.Key.{Key};
ghost use Rattle.log_node.specs.Sets.{members};
ghost use Rattle.script_text.specs.Fitting.{AreBelow};
ghost use Rattle.world_code.specs.WorldView.{world_of};
ghost use Rattle.script_meaning.specs.Helping.{node_by_id};
ghost use Rattle.script_meaning.specs.Stamped.{shown_key, keys_read, scanned};
ghost use Rattle.script_in_order.specs.Doing.{DoesAtHome};

use crate::stamped::{Stamped, keys_read, stamped_read};
use log_node::{Colours, Counts, Head, Item, Items, Key, ListOf};
use report_text::Answer;
use script_text::{Command, Object, What};
use std::alloc::{AllocError, Global};
use world_code::World;

// A node that was read, whose needs are not looked up.
fn shown_key(world: &World, key: Key) -> Result<Item, AllocError>
    requires listed { node_by_id (world_of world.now) key.id ≢ None }
    ensures { IfOk result (λ item. item ≡ shown_key (world_of world.now) key) }
{
    match world.node(key.id) {
        Some(node) => Ok(Item {
            head: Head {
                key,
                needs: Counts::zeros(),
            },
            node: node.clone()?,
        }),
        None => unreachable!(),
    }
}

// The nodes with these keys.
fn shown_keys(alloc: Global, world: &World, keys: &[Key]) -> Result<Items, AllocError>
    requires listed { All (λ (key : Key). node_by_id (world_of world.now) key.id ≢ None) keys.now }
    ensures { IfOk result (λ items. items ≡ map (shown_key (world_of world.now)) keys.now) }
{
    let mut items = Vec::with_capacity(alloc, keys.len())?;
    for key in keys {
        items.push(shown_key(world, *key)?)?;
    }
    Ok(ListOf::from(items))
}

// The nodes of the own lines of these colours up to a stamp, in rising key.
fn items_read(
    alloc: Global,
    world: &World,
    client: u8,
    stamp: u64,
    colours: Colours,
) -> Result<Items, AllocError>
    requires client { client < length world.now.shape.homes }
    requires within { AreBelow world.now.shape.colours colours }
    ensures { IfOk result (λ items. let w = world_of world.now in
        items ≡ map (shown_key w) (keys_read w client stamp (members colours))) }
{
    world.agrees();
    let keys = keys_read(alloc, world, client, stamp, colours)?;
    shown_keys(alloc, world, keys.as_slice())
}

/// A stamped read, with its nodes in rising key; refused where a node that has to be played is trimmed. Where there is
/// no memory for its nodes it is done all the same.
pub fn scan(
    alloc: Global,
    objects: &[Object],
    command: &Command,
    colours: Colours,
    world: &mut World,
    nodes: &mut Items,
) -> Result<Answer, AllocError>
    requires asks { command.now.what ≡ What.Scan colours }
    requires caller { command.now.client < length world.old.shape.homes }
    requires within { AreBelow world.old.shape.colours colours }
    requires none { nodes.old ≡ [] }
    ensures ok { IfOk result (λ answer. DoesAtHome objects.now command.now (world_of world.old) (world_of world.new) answer nodes.new) }
    ensures err { OnErr result (world_of world.new ≡ world_of world.old) }
{
    match stamped_read(alloc, world, command.client, colours)? {
        Stamped::Unraised => Ok(Answer::NoMemory),
        Stamped::Refused { colour, base } => Ok(Answer::Trimmed { colour, base }),
        Stamped::Whole {
            stamp,
            raises,
            syncs,
        } => match items_read(alloc, world, command.client, stamp, colours) {
            Ok(items) => {
                let count = items.len() as u64;
                *nodes = items;
                Ok(Answer::Scanned {
                    stamp,
                    nodes: count,
                    raises,
                    syncs,
                })
            }
            Err(_) => Ok(Answer::NoMemory),
        },
    }
}
