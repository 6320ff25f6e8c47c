// Syncs.
ghost use Rattle.std.specs.Prelude.{◌≡◌, ◌<◌, [], IfOk, IfSome, OnErr, length, true, false, None};
ghost use Rattle.world_laws.specs.Worlds.{may_play, base_after, home_of, home_history};
ghost use Rattle.playback.specs.declared.player.Player.{Player};
ghost use Rattle.world_code.specs.WorldView.{world_of};
ghost use Rattle.script_meaning.specs.Moves.{synced};
ghost use Rattle.script_in_order.specs.Doing.{DoesAtHome};

use crate::clears::home;
use crate::moves::{base, played};
use log_node::{Counts, Items};
use playback::{PlayFault, Player, play};
use report_text::{Answer, SyncPiece};
use script_text::{Command, Object, What};
use std::alloc::{AllocError, Global};
use world_code::World;
use world_laws::stays_within_cuts;

// What the client has played of a colour of its region.
fn player_of(world: &World, client: u8, region: u8, colour: u8) -> Player
    requires client { client < length world.now.shape.homes }
    requires colour { colour < world.now.shape.colours }
    ensures { result ≡ record {
      region = region;
      colour = colour;
      played = ((world_of world.now).clients client).played colour;
    } }
{
    world.is_whole();
    Player {
        region,
        colour,
        played: world.client(client).played(colour),
    }
}

/// The base of a colour's column of the client's region, where a node that the client has not played is trimmed.
pub fn trimmed_base(world: &World, client: u8, colour: u8) -> Option<Counts>
    requires client { client < length world.now.shape.homes }
    requires colour { colour < world.now.shape.colours }
    ensures some { let w = world_of world.now in IfSome result (λ base. (may_play w client colour ≡ false)
        × (base ≡ base_after w.shape.regions (home_of w client) (home_history w client colour))) }
    ensures none { result ≡ None → may_play (world_of world.now) client colour ≡ true }
{
    world.is_whole();
    let base = base(world, home(world, client), colour);
    if base.is_within(played(world, client, colour)) {
        None
    } else {
        Some(base)
    }
}

/// Plays all nodes of a colour that the client has not played, up to the cut, in the order of play; refused where one
/// of them is trimmed. The nodes are shown.
pub fn sync(
    alloc: Global,
    objects: &[Object],
    command: &Command,
    colour: u8,
    world: &mut World,
    nodes: &mut Items,
) -> Result<Answer, AllocError>
    requires asks { command.now.what ≡ What.Sync colour }
    requires caller { command.now.client < length world.old.shape.homes }
    requires within { colour < world.old.shape.colours }
    requires none { nodes.old ≡ [] }
    ensures ok { IfOk result (λ answer. DoesAtHome objects.now command.now (world_of world.old) (world_of world.new) answer nodes.new) }
    ensures err { OnErr result (world_of world.new ≡ world_of world.old) }
{
    stays_within_cuts();
    world.is_whole();
    // Tested before the look, which would share nodes that are then not played.
    if let Some(base) = trimmed_base(world, command.client, colour) {
        return Ok(Answer::Trimmed { colour, base });
    }
    let view = world.look(alloc, command.client, colour)?;
    let mut player = player_of(world, command.client, view.region, colour);
    let events = view.events;
    match play(alloc, view, &mut player) {
        Err(PlayFault::NoMemory) => Err(AllocError),
        Err(PlayFault::Trimmed { base }) => Ok(Answer::Trimmed { colour, base }),
        Ok(played) => {
            let sync = SyncPiece {
                colour,
                events,
                counts: played.snapshot.counts,
            };
            let plays = played.items.len() as u64;
            let _played = world.play(command.client, colour);
            *nodes = played.items;
            Ok(Answer::Synced { sync, plays })
        }
    }
}
