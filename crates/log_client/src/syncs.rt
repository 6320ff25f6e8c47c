// Syncs.
ghost use Rattle.std.specs.Prelude.{◌≡◌, ◌<◌, ◌≤◌, ◌++◌, length, IsTrue, IfOk, IfErr, OnOk, OnErr};
ghost use Rattle.log_node.specs.declared.limits.TheConstants.{MAX_STAMP};
ghost use Rattle.lawful_run.specs.Reads.{greatest_stamp};
ghost use Rattle.chain_store.specs.Holds.{IsHold, SameBut, SeesMoreIn, seen_in};
ghost use Rattle.log_client.specs.Fits.{HaveGoneOn};
ghost use Rattle.log_client.specs.Clients.{IsClient, IsTrack, Finished, Helps, holds_of};
ghost use Rattle.log_client.specs.Growing.{HasGrown};
ghost use Rattle.playback.specs.Playing.{items_of};
ghost use Rattle.log_client.specs.Inside.{PlaysOn, IsRefusedOn, Extends};
ghost use Rattle.log_client.specs.Reading.{RestsOn, PlaysColour, RefusesColour};
ghost use Rattle.log_client.specs.Calls.{IsExplained, SyncsAs, AnswersSync, SyncRefused, IsSame, nodes_played};

use crate::answers::Synced;
use crate::client::Client;
use crate::faults::SyncFault;
use crate::merging::share_all;
use crate::store::Store;
use crate::track::Track;
use chain_store::{Hold, Looked, Region};
use col_core::View;
use log_node::{Item, Items, ListOf};
use playback::{PlayFault, Played, Player, play};
use std::alloc::{AllocError, Global};
use std::sync::Wait;

// The greatest stamp of some nodes.
fn greatest_stamp(nodes: &[Item]) -> u64
    ensures { result ≡ greatest_stamp nodes.now }
{
    let mut most = 0;
    for node in nodes {
        most = node.head.key.stamp.max(most);
    }
    most
}

// The same nodes once more.
fn copied(alloc: Global, nodes: &[Item]) -> Result<Items, AllocError>
    ensures { IfOk result (λ copy. copy ≡ nodes.now) }
{
    let mut copy = Vec::with_capacity(alloc, nodes.len())?;
    share_all(&mut copy, nodes)?;
    Ok(copy.into())
}

// The nodes of the own line that a view shows, once more.
fn own_line(alloc: Global, view: &View) -> Result<Items, AllocError>
    requires region { view.now.region < length view.now.items }
    ensures { IfOk result (λ items. items ≡ items_of view.now view.now.region) }
{
    copied(
        alloc,
        view.items.as_slice()[view.region as usize].as_slice(),
    )
}

// The nodes once more where they are to be shown.
fn to_show(alloc: Global, nodes: &[Item], shown: bool) -> Result<Items, AllocError>
    ensures { IfOk result (λ copy. IsTrue shown → copy ≡ nodes.now) }
{
    if shown {
        copied(alloc, nodes)
    } else {
        Ok(ListOf::new(alloc))
    }
}

// Puts at the end of a track what was played, and the own line of it; where memory is refused, the track stays.
fn append(track: &mut Track, items: Items, line: Items) -> Result<(), AllocError>
    ensures ok { OnOk result (track.new ≡ record {
      snapshot = track.old.snapshot;
      nodes = track.old.nodes ++ items;
      line = track.old.line ++ line;
    }) }
    ensures err { OnErr result (track.new ≡ track.old) }
{
    let count = track.line.len();
    track.line.append(line)?;
    match track.nodes.append(items) {
        Ok(()) => Ok(()),
        Err(fault) => {
            track.line.truncate(count);
            Err(fault)
        }
    }
}

// Puts on the track what was played, and the own line of it. Answers the sync, the greatest stamp that was played, and the
// nodes where they are to be shown.
fn extend(
    alloc: Global,
    track: &mut Track,
    events: u64,
    played: Played,
    line: Items,
    shown: bool,
) -> Result<(Synced, u64, Items), AllocError>
    ensures ok { IfOk result (λ r. Extends track.old track.new events played line r.0 r.1) }
    ensures nodes { IfOk result (λ r. IsTrue shown → r.2 ≡ played.items) }
    ensures err { OnErr result (track.new ≡ track.old) }
{
    let Played { snapshot, items } = played;
    let nodes = to_show(alloc, items.as_slice(), shown)?;
    let first = track.nodes.len() as u64;
    let count = items.len() as u64;
    let stamp = greatest_stamp(items.as_slice());
    append(track, items, line)?;
    track.snapshot = snapshot;
    Ok((
        Synced {
            events,
            snapshot,
            first,
            count,
        },
        stamp,
        nodes,
    ))
}

// Plays on the track what the region's column has that was not played. Answers the sync, the greatest stamp that was
// played, and the nodes where they are to be shown.
fn play_on<R: Wait>(
    rt: &R,
    alloc: Global,
    region: &Region,
    hold: &mut Hold,
    track: &mut Track,
    shown: bool,
) -> Result<(Synced, u64, Items), SyncFault>
    requires hold { IsHold region.now hold.old }
    requires few { region.now.number < 4 }
    requires colour { track.old.snapshot.colour < region.now.board.size.colours }
    requires track { IsTrack region.now.number track.old.snapshot.colour
        (seen_in hold.old track.old.snapshot.colour) track.old }
    ensures hold { IsHold region.now hold.new }
    ensures others { SameBut track.old.snapshot.colour hold.old hold.new }
    ensures same { (hold.new.seat ≡ hold.old.seat) × (hold.new.next ≡ hold.old.next) }
    ensures sees { SeesMoreIn track.old.snapshot.colour hold.old hold.new }
    ensures ok { IfOk result (λ r. PlaysOn region.now hold.new track.old track.new r.0 r.1) }
    ensures nodes { IfOk result (λ r. IsTrue shown → track.new.nodes ≡ track.old.nodes ++ r.2) }
    ensures err { IfErr result (IsRefusedOn region.now hold.new track.old) }
    ensures same_track { OnErr result (track.new ≡ track.old) }
{
    let colour = track.snapshot.colour;
    let from = track.snapshot.counts;
    let view = match region.look_on(rt, alloc, hold, colour, from) {
        Ok(Looked::On(view)) => view,
        Ok(Looked::Behind { base }) => return Err(SyncFault::Trimmed { colour, base }),
        Err(_) => return Err(SyncFault::NoMemory),
    };
    let Ok(line) = own_line(alloc, &view) else {
        return Err(SyncFault::NoMemory);
    };
    let events = view.events;
    let mut player = Player {
        region: view.region,
        colour,
        played: from,
    };
    match play(alloc, view, &mut player) {
        Ok(played) => match extend(alloc, track, events, played, line, shown) {
            Ok(answer) => Ok(answer),
            Err(_) => Err(SyncFault::NoMemory),
        },
        Err(PlayFault::Trimmed { base }) => Err(SyncFault::Trimmed { colour, base }),
        Err(PlayFault::NoMemory) => Err(SyncFault::NoMemory),
    }
}

impl Client {
    // Plays what the client has not played of the colour. Answers the sync, and the nodes where they are to be shown.
    pub(crate) fn play_colour<R: Wait>(
        &mut self,
        rt: &R,
        alloc: Global,
        store: &Store,
        colour: u8,
        shown: bool,
    ) -> Result<(Synced, Items), SyncFault>
        requires client { IsClient store.now self.old }
        requires colour { colour < store.now.size.colours }
        ensures rests { RestsOn store.now self.old self.new }
        ensures idle { Helps self.new → Helps self.old }
        ensures answer { IfOk result (λ r. AnswersSync self.old self.new colour r.0) }
        ensures ok { IfOk result (λ r. PlaysColour store.now self.old self.new colour r.0) }
        ensures nodes { IfOk result (λ r. IsTrue shown → r.1 ≡ nodes_played self.new colour r.0) }
        ensures err { IfErr result (RefusesColour store.now self.old self.new colour) }
    {
        let region = store.region(self.region);
        let hold = &mut self.holds[self.region as usize];
        let track = &mut self.tracks[colour as usize];
        match play_on(rt, alloc, region, hold, track, shown) {
            Ok((synced, stamp, nodes)) => {
                self.floor = stamp.max(self.floor);
                Ok((synced, nodes))
            }
            Err(fault) => Err(fault),
        }
    }

    /// Plays what the client has not played of the colour, up to the cut of its region's column, in the order of play. The
    /// played nodes are the stretch of `played` that is answered. Waits for the column's turn.
    pub fn sync<R: Wait>(
        &mut self,
        rt: &R,
        alloc: Global,
        store: &Store,
        colour: u8,
    ) -> Result<Synced, SyncFault>
        requires client { IsClient store.now self.old }
        requires colour { colour < store.now.size.colours }
        ensures client { IsClient store.now self.new }
        ensures same { IsSame self.old self.new }
        ensures goes { HaveGoneOn (holds_of self.old) (holds_of self.new) }
        ensures grows { HasGrown self.old self.new }
        ensures finished { Finished self.old → Finished self.new }
        ensures idle { Helps self.new → Helps self.old }
        ensures answer { IfOk result (AnswersSync self.old self.new colour) }
        ensures ok { IfOk result (λ y. IsExplained store.now self.old self.new (SyncsAs self.new colour y)) }
        ensures err { IfErr result (SyncRefused store.now self.old self.new colour) }
    {
        let answer = self.play_colour(rt, alloc, store, colour, false)?;
        Ok(answer.0)
    }

    /// Plays as `sync` does, and answers the nodes as well. The memory for these is taken before anything is played.
    pub fn sync_shown<R: Wait>(
        &mut self,
        rt: &R,
        alloc: Global,
        store: &Store,
        colour: u8,
    ) -> Result<(Synced, Items), SyncFault>
        requires client { IsClient store.now self.old }
        requires colour { colour < store.now.size.colours }
        ensures client { IsClient store.now self.new }
        ensures same { IsSame self.old self.new }
        ensures goes { HaveGoneOn (holds_of self.old) (holds_of self.new) }
        ensures grows { HasGrown self.old self.new }
        ensures finished { Finished self.old → Finished self.new }
        ensures idle { Helps self.new → Helps self.old }
        ensures answer { IfOk result (λ r. AnswersSync self.old self.new colour r.0) }
        ensures nodes { IfOk result (λ r. r.1 ≡ nodes_played self.new colour r.0) }
        ensures ok { IfOk result (λ r. IsExplained store.now self.old self.new (SyncsAs self.new colour r.0)) }
        ensures err { IfErr result (SyncRefused store.now self.old self.new colour) }
    {
        match self.play_colour(rt, alloc, store, colour, true) {
            Ok(answer) => Ok(answer),
            Err(fault) => Err(fault),
        }
    }
}
