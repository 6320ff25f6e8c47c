// The causal map.
ghost use Rattle.std.specs.Prelude.{◌≡◌, ◌<◌, IsTrue, ◌∷◌, [], length, None, IfOk, IfErr};
ghost use Rattle.object_form.specs.Forms.{is_word, form_text};
ghost use Rattle.log_client.specs.Calls.{AnswersSync};
ghost use Rattle.log_client.specs.Clients.{IsClient, Helps, tracks_of};
ghost use Rattle.log_client.specs.Reading.{RestsOn};
ghost use Rattle.log_client.specs.Objects.{StandsIn, PutRefused, GetRefused};
ghost use Rattle.causal_map.specs.CausalMaps.{IsCausalMapOf, GetsMany};

use crate::played::values;
use fuzzy_io::Gate;
use log_client::{Appended, Client, ObjectFault, Store, Synced};
use log_node::{Form, MAX_COLOURS, Names, Text};
use std::alloc::Global;
use std::sync::Wait;

/// A causal map on a colour, for one client, with which all its calls are made. It has no home: nodes of all regions write it.
/// It keeps what it was fed of the nodes that the client has played.
#[derive(Drop)]
pub struct CausalMap {
    pub(crate) colour: u8,
    pub(crate) map: object_fold::CausalMap,
}

impl CausalMap {
    /// The map of a colour, of which nothing is folded. Takes no memory.
    pub fn open(alloc: Global, colour: u8) -> CausalMap
        ensures of { result.colour ≡ colour }
        ensures map { (client : Client) → colour < length (tracks_of client) → colour < MAX_COLOURS
            → IsCausalMapOf client result }
    {
        CausalMap {
            colour,
            map: object_fold::CausalMap::new(alloc),
        }
    }

    /// Puts a value under a key: its node stands in the map's colour. Waits as an append does.
    pub fn put<R: Wait, G: Gate>(
        &mut self,
        rt: &R,
        alloc: Global,
        client: &mut Client,
        store: &Store,
        gate: &G,
        key: &Text,
        value: &Text,
    ) -> Result<Appended, ObjectFault>
        requires client { IsClient store.now client.old }
        requires map { IsCausalMapOf client.old self.old }
        requires key { IsTrue (is_word key.now) }
        requires value { IsTrue (is_word value.now) }
        ensures client { RestsOn store.now client.old client.new }
        ensures map { IsCausalMapOf client.new self.new }
        ensures same { self.new ≡ self.old }
        ensures ok { IfOk result (StandsIn store.now client.old client.new (self.old.colour ∷ [])
            (form_text (Form.Causal key.now value.now))) }
        ensures err { IfErr result (PutRefused None store.now client.old client.new (self.old.colour ∷ [])
            (form_text (Form.Causal key.now value.now))) }
    {
        let (Ok(key), Ok(value)) = (
            Text::copied(alloc, key.as_bytes()),
            Text::copied(alloc, value.as_bytes()),
        ) else {
            return Err(ObjectFault::NoMemory);
        };
        client.append_form_to(
            rt,
            alloc,
            store,
            gate,
            self.colour,
            Form::Causal { key, value },
        )
    }

    /// The values of the writes of a key that no other one follows, among all nodes that the client has then played, sorted by
    /// their bytes. Waits as a sync does; the gate is for appends alone.
    pub fn get<R: Wait, G: Gate>(
        &mut self,
        rt: &R,
        alloc: Global,
        client: &mut Client,
        store: &Store,
        _gate: &G,
        key: &Text,
    ) -> Result<(Names, Synced), ObjectFault>
        requires client { IsClient store.now client.old }
        requires map { IsCausalMapOf client.old self.old }
        ensures client { RestsOn store.now client.old client.new }
        ensures idle { Helps client.new → Helps client.old }
        ensures map { IsCausalMapOf client.new self.new }
        ensures same { self.new.colour ≡ self.old.colour }
        ensures ok { IfOk result (λ r. GetsMany store.now client.old client.new self.old.colour key.now r.0 r.1) }
        ensures played { IfOk result (λ r. AnswersSync client.old client.new self.old.colour r.1) }
        ensures err { IfErr result (GetRefused None store.now client.old client.new self.old.colour) }
    {
        match client.sync(rt, alloc, store, self.colour) {
            Ok(synced) => {
                let nodes = client.played(self.colour);
                match values(alloc, &mut self.map, nodes, key.as_bytes()) {
                    Ok(values) => Ok((values, synced)),
                    Err(_) => Err(ObjectFault::NoMemory),
                }
            }
            Err(fault) => Err(ObjectFault::Sync(fault)),
        }
    }
}
