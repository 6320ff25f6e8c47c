// What a client plays of a colour of its region.
ghost use Rattle.std.specs.Prelude.{◌≡◌, ◌<◌, IfOk, IfErr, OnOk, OnErr};
ghost use Rattle.log_node.specs.Vectors.{at, IsWithin, one_more};
ghost use Rattle.log_node.specs.Reach.{Chains, Reachable};
ghost use Rattle.playback.specs.Playing.{IsLookedFrom, ShowsChains, ArePlayed, HasPlayCause};
ghost use Rattle.playback.specs.Inside.{AreInOrder};

use crate::faults::PlayFault;
use crate::free::{next_item, next_region};
use crate::lone::{lone_region, taken_chain};
use col_core::View;
use log_node::{Counts, Items, ListOf, MAX_REGIONS};
use std::alloc::{AllocError, Global};

/// How many nodes of each region's chain of a colour a client has played.
#[derive(Debug, Drop)]
pub struct Player {
    pub region: u8,
    pub colour: u8,
    pub played: Counts,
}

/// How many nodes of each region's chain of a colour can be played in a region.
#[derive(Clone, Copy, Debug, PartialEq, Eq)]
pub struct Snapshot {
    pub region: u8,
    pub colour: u8,
    pub counts: Counts,
}

/// The nodes up to a snapshot that were not played before, in the order of play.
#[derive(Drop)]
pub struct Played {
    pub snapshot: Snapshot,
    pub items: Items,
}

// How many nodes the view shows: for so many there is room before they are played.
fn shown_count(view: &View) -> usize {
    let chains = view.items.as_slice().iter();
    chains.fold(0, |count: usize, chain| count.saturating_add(chain.len()))
}

// The counts with one more node of a region, which has one more up to the cut.
fn next_counts(played: Counts, region: u8, cut: Counts) -> Counts
    requires region { region < MAX_REGIONS }
    requires room { at played region < at cut region }
    ensures { result ≡ one_more played region }
{
    let _last = cut.of_region(region);
    played.one_more(region)
}

// The nodes from these counts up to the view's cut, in the order of play.
fn items_in_order(alloc: Global, view: &View, from: Counts) -> Result<Items, AllocError>
    requires from { IsWithin view.now.from from }
    requires cut { IsWithin from view.now.cut }
    ensures { IfOk result (AreInOrder view.now from) }
{
    let mut items = Vec::with_capacity(alloc, shown_count(view))?;
    let mut played = from;
    while let Some(region) = next_region(view, played) {
        items.push(next_item(view, played, region).share()?)?;
        played = next_counts(played, region, view.cut);
    }
    Ok(ListOf::from(items))
}

// The nodes from these counts, where the view starts, up to its cut, in the order of play. Where one chain alone has
// such nodes they are moved out of the view, and shared else.
fn taken_in_order(alloc: Global, view: View, from: Counts) -> Result<Items, AllocError>
    requires from { IsWithin view.from from }
    requires start { IsWithin from view.from }
    requires cut { IsWithin from view.cut }
    ensures { IfOk result (AreInOrder view from) }
{
    match lone_region(from, view.cut) {
        Some(region) => Ok(taken_chain(alloc, view.items, region)),
        None => items_in_order(alloc, &view, from),
    }
}

/// Plays the nodes of the view that the player has not played. `Trimmed` exactly where a played count is below the
/// view's base, which is tested first.
pub fn play(alloc: Global, view: View, player: &mut Player) -> Result<Played, PlayFault>
    // The view was looked at from the player's counts, and these are within the cut.
    requires from { IsLookedFrom view player.old.played }
    requires cut { IsWithin player.old.played view.cut }
    ensures items { IfOk result (λ played. (chains : Chains) → ShowsChains view chains
        → Reachable chains view.cut → ArePlayed view chains player.old.played played.items) }
    ensures snapshot { IfOk result (λ played. played.snapshot ≡ record {
      region = view.region;
      colour = view.colour;
      counts = view.cut;
    }) }
    ensures player { OnOk result (player.new ≡ record player.old { played = view.cut }) }
    // A refusal changes nothing.
    ensures trimmed { OnOk result (IsWithin view.base player.old.played) }
    ensures cause { IfErr result (HasPlayCause view player.old.played) }
    ensures err { OnErr result (player.new ≡ player.old) }
{
    if !view.base.is_within(player.played) {
        return Err(PlayFault::Trimmed { base: view.base });
    }
    let snapshot = Snapshot {
        region: view.region,
        colour: view.colour,
        counts: view.cut,
    };
    let items = taken_in_order(alloc, view, player.played)?;
    player.played = snapshot.counts;
    Ok(Played { snapshot, items })
}
