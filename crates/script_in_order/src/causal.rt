// Gets of causal maps: a sync, and the writes that no other write follows among all nodes up to the cut.
ghost use Rattle.std.specs.Prelude.{◌≡◌, ◌<◌, ℕ, true, false, [], IfOk, IfSome, OnOk, OnErr, Some, None, length, slice_get};
ghost use Rattle.log_node.specs.Vectors.{at, vector, one_more};
ghost use Rattle.col_core.specs.History.{line};
ghost use Rattle.col_core.specs.Rows.{node_wants};
ghost use Rattle.object_fold.specs.CausalStates.{counts_of};
ghost use Rattle.world_laws.specs.Worlds.{chains_after, home_of};
ghost use Rattle.world_code.specs.WorldView.{world_of};
ghost use Rattle.script_meaning.specs.CausalGets.{causal_values, got_values};
ghost use Rattle.script_meaning.specs.States.{kind_in};
ghost use Rattle.script_in_order.specs.Doing.{DoneBy};
ghost use Rattle.script_in_order.specs.Folds.{AreFolded};
ghost use Rattle.script_in_order.specs.CausalFolds.{place_at, held_node, held_nodes, cut_to_play, is_next, IsCausalFold};

use crate::clears::home;
use crate::folds::Folds;
use crate::queues::sync_now;
use crate::syncs::trimmed_base;
use log_node::{Counts, Key, MAX_REGIONS, Names, Node, Text};
use object_fold::CausalMap;
use report_text::Answer;
use script_text::{Command, Kind, Object};
use std::alloc::{AllocError, Global};
use std::sync::Arc;
use world_code::World;

// What a node wants of a colour.
fn wants_of(node: &Node, colour: u8) -> Counts
    ensures { result ≡ node_wants node.now colour }
{
    let mut place = 0;
    for other in node.colours.members() {
        if other == colour {
            return match node.wants.get(place) {
                Some(wants) => *wants,
                None => Counts::zeros(),
            };
        }
        place += 1;
    }
    Counts::zeros()
}

// The key at a position of a region's own line.
fn key_at(world: &World, colour: u8, region: u8, position: u64) -> Key
    requires region { region < world.now.shape.regions }
    requires colour { colour < world.now.shape.colours }
    requires there { position < length (line ((world_of world.now).histories region colour)) }
    ensures { slice_get (line ((world_of world.now).histories region colour)) position ≡ Some result }
{
    world.column(region, colour).line()[position as usize]
}

// The node at a place of the chains that a region's column holds: it stands in its region's own line, and needs all that
// it wants.
fn node_at(world: &World, own: u8, colour: u8, region: u8, position: u64) -> &Arc<Node>
    requires own { own < world.now.shape.regions }
    requires colour { colour < world.now.shape.colours }
    requires held { position < length (chains_after own ((world_of world.now).histories own colour) region) }
    ensures { held_node (world_of world.now) own colour (place_at region position) ≡ record {
      region = region;
      position = position;
      needs = vector (λ r. at (node_wants result.now.value colour) r);
      text = result.now.value.text;
    } }
{
    world.is_whole();
    let key = key_at(world, colour, region, position);
    match world.node(key.id) {
        Some(node) => node,
        None => unreachable!(),
    }
}

// Whether the next node of a region's chain may be played, up to the cut, after so many of each chain.
fn is_next(world: &World, own: u8, colour: u8, counts: Counts, cut: Counts, region: u8) -> bool
    requires own { own < world.now.shape.regions }
    requires colour { colour < world.now.shape.colours }
    requires cut { cut ≡ cut_to_play (world_of world.now) own colour }
    requires region { region < 4 }
    ensures { result ≡ is_next (world_of world.now) own colour counts region }
{
    world.is_whole();
    let position = counts.of_region(region);
    if position >= cut.of_region(region) {
        return false;
    }
    let node = node_at(world, own, colour, region, position);
    wants_of(node, colour).is_within(counts)
}

// A region whose next node may be played then, where there is one.
fn next_region(world: &World, own: u8, colour: u8, counts: Counts, cut: Counts) -> Option<u8>
    requires own { own < world.now.shape.regions }
    requires colour { colour < world.now.shape.colours }
    requires cut { cut ≡ cut_to_play (world_of world.now) own colour }
    ensures some { IfSome result (λ region. (region < 4)
        × (is_next (world_of world.now) own colour counts region ≡ true)) }
    ensures none { result ≡ None → (region : ℕ) → region < 4
        → is_next (world_of world.now) own colour counts region ≡ false }
{
    for region in 0..MAX_REGIONS {
        if is_next(world, own, colour, counts, cut, region) {
            return Some(region);
        }
    }
    None
}

// Feeds the next node of a region's chain.
fn feed(
    alloc: Global,
    world: &World,
    map: &mut CausalMap,
    own: u8,
    colour: u8,
    cut: Counts,
    region: u8,
) -> Result<(), AllocError>
    requires own { own < world.now.shape.regions }
    requires colour { colour < world.now.shape.colours }
    requires cut { cut ≡ cut_to_play (world_of world.now) own colour }
    requires region { region < 4 }
    requires next { is_next (world_of world.now) own colour (counts_of map.old) region ≡ true }
    requires fold { IsCausalFold (world_of world.now) own colour map.old }
    ensures fold { IsCausalFold (world_of world.now) own colour map.new }
    ensures counts { OnOk result (counts_of map.new ≡ one_more (counts_of map.old) region) }
{
    world.is_whole();
    let position = map.counts().of_region(region);
    let node = node_at(world, own, colour, region, position);
    // It needs what it wants, all of which may be played.
    let needs = wants_of(node, colour).least(cut);
    map.feed(alloc, region, needs, &node.text)?;
    Ok(())
}

// Feeds all nodes up to the cut that were not fed.
fn feed_all(
    alloc: Global,
    world: &World,
    map: &mut CausalMap,
    own: u8,
    colour: u8,
) -> Result<(), AllocError>
    requires own { own < world.now.shape.regions }
    requires colour { colour < world.now.shape.colours }
    requires fold { IsCausalFold (world_of world.now) own colour map.old }
    ensures fold { IsCausalFold (world_of world.now) own colour map.new }
    ensures all { OnOk result ((region : ℕ) → region < 4
        → at (counts_of map.new) region ≡ at (cut_to_play (world_of world.now) own colour) region) }
{
    world.is_whole();
    let cut = world.column(own, colour).cut();
    while let Some(region) = next_region(world, own, colour, map.counts(), cut) {
        feed(alloc, world, map, own, colour, cut, region)?;
    }
    Ok(())
}

/// What a region's map of a colour answers for a key over all nodes up to the cut, of which those that it was fed are not fed
/// again.
pub fn values(
    alloc: Global,
    world: &World,
    map: &mut CausalMap,
    own: u8,
    colour: u8,
    key: &Text,
) -> Result<Names, AllocError>
    requires own { own < world.now.shape.regions }
    requires colour { colour < world.now.shape.colours }
    requires fold { IsCausalFold (world_of world.now) own colour map.old }
    ensures fold { IsCausalFold (world_of world.now) own colour map.new }
    ensures ok { let w = world_of world.now in IfOk result (λ values.
        values ≡ causal_values (held_nodes w own colour (cut_to_play w own colour)) key.now) }
{
    world.is_whole();
    feed_all(alloc, world, map, own, colour)?;
    map.get(alloc, key.as_bytes())
}

/// A get of a causal map on a colour: plays up to the cut, and answers the values of the latest writes of the key among
/// all nodes that are then played; refused where a node that the client has not played is trimmed. The memory for the
/// answer is taken before the play.
pub fn get_values(
    alloc: Global,
    objects: &[Object],
    command: &Command,
    object: u8,
    colour: u8,
    key: &Text,
    world: &mut World,
    folds: &mut Folds,
) -> Result<Answer, AllocError>
    requires caller { command.now.client < length world.old.shape.homes }
    requires colour { colour < world.old.shape.colours }
    requires kind { kind_in objects.now object ≡ Some (Kind.Causal colour) }
    requires folded { AreFolded (world_of world.old) objects.now folds.old }
    ensures ok { IfOk result (λ answer. DoneBy (λ _ state. got_values state command.now colour key.now) command.now
        (world_of world.old) (world_of world.new) answer []) }
    ensures err { OnErr result (world_of world.new ≡ world_of world.old) }
    ensures folded { AreFolded (world_of world.new) objects.now folds.new }
{
    world.is_whole();
    let client = command.client;
    if let Some(base) = trimmed_base(world, client, colour) {
        return Ok(Answer::Trimmed { colour, base });
    }
    let own = home(world, client);
    let values = folds.values(alloc, world, object, own, colour, key)?;
    let sync = sync_now(world, client, colour);
    let _played = world.play(client, colour);
    Ok(Answer::GotMany { values, sync })
}
