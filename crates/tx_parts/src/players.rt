// Players of a transactional map, one for each of its colours that is asked for.
ghost use Rattle.std.specs.Prelude.{◌≡◌, ◌≤◌, length, Some, slice_get, IfOk, IfErr, IfSome};
ghost use Rattle.std.specs.List.{Contains};
ghost use Rattle.log_node.specs.declared.limits.TheConstants.{MAX_COLOURS};
ghost use Rattle.object_fold.specs.Nodes.{shard_of};
ghost use Rattle.log_client.specs.Clients.{IsClient, Helps};
ghost use Rattle.log_client.specs.Objects.{HasColoursOf, RefusesAway};
ghost use Rattle.log_client.specs.Reading.{RestsOn};
ghost use Rattle.tx_parts.specs.Players.{Peeks};
ghost use Rattle.tx_parts.specs.Deciding.{Decides, ShowsRead, StandsInOwn};
ghost use Rattle.tx_parts.specs.MapPlayers.{ArePlayersOf, AreSamePlayers, DecidesNot, IsAtPlace, NotAsked, OfKey, PeeksNot};

use crate::answers::{Decided, Peek};
use crate::player::PartPlayer;
use fuzzy_io::Gate;
use log_client::{Client, ObjectFault, Store, Synced, reads_go_on};
use log_node::{ColourList, ListOf, Text};
use object_fold::shard_of;
use std::alloc::{AllocError, Global};
use std::sync::Wait;

/// Players of the colours of a transactional map at a home region, for one client, with which all their calls are made. A
/// colour's player is opened when it is first asked for, and kept.
#[derive(Drop)]
pub struct PartPlayers {
    pub(crate) home: u8,
    pub(crate) colours: ColourList,
    pub(crate) players: Vec<PartPlayer>,
}

impl PartPlayers {
    /// Those of a map of these colours at a home, of which none is opened yet. Takes no memory.
    pub fn open(alloc: Global, home: u8, colours: ColourList) -> PartPlayers
        requires few { length colours ≤ MAX_COLOURS }
        ensures of { (result.home ≡ home) × (result.colours ≡ colours) }
        ensures players { (client : Client) → HasColoursOf client colours → ArePlayersOf client result }
    {
        PartPlayers {
            home,
            colours,
            players: Vec::new(alloc),
        }
    }

    /// How many colours the map has.
    pub fn colour_count(&self) -> usize
        ensures { result ≡ length self.now.colours }
    {
        self.colours.len()
    }

    // The place of the player of a colour, which is opened where there is none yet.
    fn place_for(&mut self, alloc: Global, colour: u8) -> Result<usize, AllocError>
        requires colour { Contains self.old.colours colour }
        requires few { length self.old.colours ≤ MAX_COLOURS }
        ensures same { AreSamePlayers self.old self.new }
        ensures players { (client : Client) → ArePlayersOf client self.old → ArePlayersOf client self.new }
        ensures there { IfOk result (λ place. (p : PartPlayer)
            × (slice_get self.new.players.items place ≡ Some p) × (p.colour ≡ colour)) }
    {
        if let Some(place) = self
            .players
            .iter()
            .position(|player| player.colour == colour)
        {
            return Ok(place);
        }
        let place = self.players.len();
        let copy = ListOf::from(Vec::from_slice(alloc, self.colours.as_slice())?);
        let player = PartPlayer::open(alloc, self.home, copy, colour);
        self.players.push(player)?;
        Ok(place)
    }

    // The place of the player of a key's shard, where the client is of the home.
    fn place_of_key(
        &mut self,
        alloc: Global,
        client: &Client,
        key: &Text,
    ) -> Result<usize, ObjectFault>
        requires players { ArePlayersOf client.now self.old }
        ensures same { AreSamePlayers self.old self.new }
        ensures players { ArePlayersOf client.now self.new }
        ensures there { IfOk result (IsAtPlace self.new key.now) }
        ensures away { RefusesAway self.old.home client.now result }
        ensures err { IfErr result (NotAsked self.old.home client.now client.now) }
    {
        if client.region() != self.home {
            return Err(ObjectFault::NotHome { home: self.home });
        }
        let colour = shard_of(self.colours.as_slice(), key.as_bytes());
        match self.place_for(alloc, colour) {
            Ok(place) => Ok(place),
            Err(_) => Err(ObjectFault::NoMemory),
        }
    }

    /// What the own line of a key's shard tells of the key: its player's peek. Waits as a sync does; the gate is for appends
    /// alone.
    pub fn peek<R: Wait, G: Gate>(
        &mut self,
        rt: &R,
        alloc: Global,
        client: &mut Client,
        store: &Store,
        gate: &G,
        key: &Text,
    ) -> Result<(Peek, Synced), ObjectFault>
        requires client { IsClient store.now client.old }
        requires players { ArePlayersOf client.old self.old }
        ensures client { RestsOn store.now client.old client.new }
        ensures idle { Helps client.new → Helps client.old }
        ensures players { ArePlayersOf client.new self.new }
        ensures same { AreSamePlayers self.old self.new }
        ensures ok { IfOk result (λ r. OfKey self.old key.now
            (λ p. Peeks store.now client.old client.new p key.now r.0 r.1)) }
        ensures away { RefusesAway self.old.home client.old result }
        ensures err { IfErr result (PeeksNot store.now client.old client.new self.old key.now) }
    {
        reads_go_on();
        let place = self.place_of_key(alloc, client, key)?;
        let player = &mut self.players[place];
        player.peek(rt, alloc, client, store, gate, key)
    }

    /// Decides on the transaction for which the own line of a key's shard waits: its player's decide. Waits as a sync, a read
    /// and an append do.
    pub fn decide<R: Wait, G: Gate>(
        &mut self,
        rt: &R,
        alloc: Global,
        client: &mut Client,
        store: &Store,
        gate: &G,
        key: &Text,
    ) -> Result<(Synced, Option<Decided>), ObjectFault>
        requires client { IsClient store.now client.old }
        requires players { ArePlayersOf client.old self.old }
        ensures client { RestsOn store.now client.old client.new }
        ensures players { ArePlayersOf client.new self.new }
        ensures same { AreSamePlayers self.old self.new }
        ensures ok { IfOk result (λ r. OfKey self.old key.now
            (λ p. Decides store.now client.old client.new p r.0 r.1)) }
        ensures stands { IfOk result (λ r. IfSome r.1
            (StandsInOwn (shard_of self.old.colours key.now))) }
        ensures shows { IfOk result (λ r. IfSome r.1 (ShowsRead self.old.colours)) }
        ensures away { RefusesAway self.old.home client.old result }
        ensures err { IfErr result (DecidesNot store.now client.old client.new self.old key.now) }
    {
        reads_go_on();
        let place = self.place_of_key(alloc, client, key)?;
        let player = &mut self.players[place];
        player.decide(rt, alloc, client, store, gate)
    }
}
