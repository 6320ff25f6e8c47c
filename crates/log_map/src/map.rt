// The map.
ghost use Rattle.std.specs.Prelude.{◌≡◌, IsTrue, ◌∷◌, [], Some, IfOk, IfErr, OnOk, length, slice_get};
ghost use Rattle.std.specs.List.{Contains};
ghost use Rattle.object_form.specs.Forms.{is_word, form_text};
ghost use Rattle.object_fold.specs.Nodes.{object_nodes, shard_of};
ghost use Rattle.object_fold.specs.Maps.{shard_value};
ghost use Rattle.object_fold.specs.States.{IsShardMap, HasShardOf};
ghost use Rattle.object_fold.specs.Folds.{FoldsFirst};
ghost use Rattle.log_client.specs.Calls.{AnswersSync};
ghost use Rattle.log_client.specs.Clients.{IsClient, Helps, own_line};
ghost use Rattle.log_client.specs.Reading.{RestsOn};
ghost use Rattle.log_client.specs.Objects.{HasColoursOf, StandsIn, PutRefused, GetRefused, RefusesAway};
ghost use Rattle.log_map.specs.Maps.{AreFresh, AreOpen, IsMapOf, IsSameMap, Gets};

use fuzzy_io::Gate;
use log_client::{Appended, Client, ObjectFault, Store, Synced};
use log_node::{ColourList, Form, Item, ListOf, Text};
use object_fold::{KeptLine, ShardMap, shard_of};
use std::alloc::{AllocError, Global};
use std::sync::Wait;

/// A map at a home region, for one client, with which all its calls are made. A key's nodes are in the colour of its shard; what
/// is folded of each shard is kept, from the first get on.
#[derive(Drop)]
pub struct LogMap {
    pub(crate) home: u8,
    pub(crate) colours: ColourList,
    /// None before the first get; then one for each colour.
    pub(crate) shards: Vec<KeptLine<ShardMap>>,
}

// For each colour of a map a shard, of which nothing is folded.
fn shards_of(alloc: Global, colours: &ColourList) -> Result<Vec<KeptLine<ShardMap>>, AllocError>
    ensures { IfOk result (λ shards. AreFresh colours.now (length colours.now) shards.items) }
{
    let mut shards = Vec::with_capacity(alloc, colours.len())?;
    for colour in colours.as_slice() {
        let copy = Vec::from_slice(alloc, colours.as_slice())?;
        let shard = ShardMap::open(alloc, ListOf::from(copy), *colour);
        shards.push(KeptLine::new(shard))?;
    }
    Ok(shards)
}

// Where a colour stands among colours.
fn place_of(colours: &[u8], colour: u8) -> usize
    requires { Contains colours.now colour }
    ensures { slice_get colours.now result ≡ Some colour }
{
    match colours.iter().position(|other| *other == colour) {
        Some(place) => place,
        None => unreachable!(),
    }
}

// The value of a key after the nodes of the line of its shard, of which those that were folded are not folded again. Without
// memory the fold has come a part of the way.
fn value_kept(
    shard: &mut KeptLine<ShardMap>,
    alloc: Global,
    line: &[Item],
    key: &[u8],
) -> Result<Option<Text>, AllocError>
    requires { FoldsFirst line.now shard.old.count (IsShardMap shard.old.state) }
    ensures shard { HasShardOf shard.old.state shard.new.state }
    ensures folds { FoldsFirst line.now shard.new.count (IsShardMap shard.new.state) }
    ensures value { IfOk result (λ value. value
        ≡ shard_value shard.old.state.colours shard.old.state.shard (object_nodes line.now) key.now) }
{
    shard.fold_to(alloc, line, line.len())?;
    match shard.state.get(key) {
        None => Ok(None),
        Some(value) => Ok(Some(Text::copied(alloc, value.as_bytes())?)),
    }
}

impl LogMap {
    /// The map of these colours at a home, of which nothing is folded. It takes no memory.
    pub fn open(alloc: Global, home: u8, colours: ColourList) -> LogMap
        ensures of { (result.home ≡ home) × (result.colours ≡ colours) }
        ensures map { (client : Client) → HasColoursOf client colours → IsMapOf client result }
    {
        LogMap {
            home,
            colours,
            shards: Vec::new(alloc),
        }
    }

    /// Puts a value under a key: its node stands in the colour of the key's shard. Waits as an append does.
    pub fn put<R: Wait, G: Gate>(
        &mut self,
        rt: &R,
        alloc: Global,
        client: &mut Client,
        store: &Store,
        gate: &G,
        key: &Text,
        value: &Text,
    ) -> Result<Appended, ObjectFault>
        requires client { IsClient store.now client.old }
        requires map { IsMapOf client.old self.old }
        requires key { IsTrue (is_word key.now) }
        requires value { IsTrue (is_word value.now) }
        ensures client { RestsOn store.now client.old client.new }
        ensures map { IsMapOf client.new self.new }
        ensures same { self.new ≡ self.old }
        ensures ok { IfOk result (StandsIn store.now client.old client.new
            (shard_of self.old.colours key.now ∷ []) (form_text (Form.Put key.now value.now))) }
        ensures away { RefusesAway self.old.home client.old result }
        ensures err { IfErr result (PutRefused (Some self.old.home) store.now client.old client.new
            (shard_of self.old.colours key.now ∷ []) (form_text (Form.Put key.now value.now))) }
    {
        if client.region() != self.home {
            return Err(ObjectFault::NotHome { home: self.home });
        }
        let (Ok(copy), Ok(value)) = (
            Text::copied(alloc, key.as_bytes()),
            Text::copied(alloc, value.as_bytes()),
        ) else {
            return Err(ObjectFault::NoMemory);
        };
        let colour = shard_of(self.colours.as_slice(), key.as_bytes());
        client.append_form_to(
            rt,
            alloc,
            store,
            gate,
            colour,
            Form::Put { key: copy, value },
        )
    }

    /// Deletes a key: its node stands in the colour of the key's shard. Waits as an append does.
    pub fn del<R: Wait, G: Gate>(
        &mut self,
        rt: &R,
        alloc: Global,
        client: &mut Client,
        store: &Store,
        gate: &G,
        key: &Text,
    ) -> Result<Appended, ObjectFault>
        requires client { IsClient store.now client.old }
        requires map { IsMapOf client.old self.old }
        requires key { IsTrue (is_word key.now) }
        ensures client { RestsOn store.now client.old client.new }
        ensures map { IsMapOf client.new self.new }
        ensures same { self.new ≡ self.old }
        ensures ok { IfOk result (StandsIn store.now client.old client.new
            (shard_of self.old.colours key.now ∷ []) (form_text (Form.Delete key.now))) }
        ensures away { RefusesAway self.old.home client.old result }
        ensures err { IfErr result (PutRefused (Some self.old.home) store.now client.old client.new
            (shard_of self.old.colours key.now ∷ []) (form_text (Form.Delete key.now))) }
    {
        if client.region() != self.home {
            return Err(ObjectFault::NotHome { home: self.home });
        }
        let Ok(copy) = Text::copied(alloc, key.as_bytes()) else {
            return Err(ObjectFault::NoMemory);
        };
        let colour = shard_of(self.colours.as_slice(), key.as_bytes());
        client.append_form_to(rt, alloc, store, gate, colour, Form::Delete { key: copy })
    }

    // Opens the shards, unless they are open. Without memory the map is as before.
    fn open_shards(&mut self, alloc: Global, client: &Client) -> Result<(), AllocError>
        requires map { IsMapOf client.now self.old }
        ensures map { IsMapOf client.now self.new }
        ensures same { IsSameMap self.old self.new }
        ensures whole { OnOk result (AreOpen self.new) }
    {
        if self.shards.len() != self.colours.len() {
            self.shards = shards_of(alloc, &self.colours)?;
        }
        Ok(())
    }

    // The value of a key, whose shard has this colour, after the own nodes that the client has played of it; the shards are open.
    fn value_open(
        &mut self,
        alloc: Global,
        client: &Client,
        colour: u8,
        key: &[u8],
    ) -> Result<Option<Text>, AllocError>
        requires map { IsMapOf client.now self.old }
        requires whole { AreOpen self.old }
        requires colour { Contains self.old.colours colour }
        ensures map { IsMapOf client.now self.new }
        ensures same { IsSameMap self.old self.new }
        ensures value { IfOk result (λ value. value
            ≡ shard_value self.old.colours colour (object_nodes (own_line client.now colour)) key.now) }
    {
        let place = place_of(self.colours.as_slice(), colour);
        value_kept(&mut self.shards[place], alloc, client.line(colour), key)
    }

    // The value of a key, whose shard has this colour, after the own nodes that the client has played of it.
    fn value(
        &mut self,
        alloc: Global,
        client: &Client,
        colour: u8,
        key: &[u8],
    ) -> Result<Option<Text>, AllocError>
        requires map { IsMapOf client.now self.old }
        requires colour { Contains self.old.colours colour }
        ensures map { IsMapOf client.now self.new }
        ensures same { IsSameMap self.old self.new }
        ensures value { IfOk result (λ value. value
            ≡ shard_value self.old.colours colour (object_nodes (own_line client.now colour)) key.now) }
    {
        self.open_shards(alloc, client)?;
        self.value_open(alloc, client, colour, key)
    }

    /// The value of a key after what the client then plays of its shard, or none. Waits as a sync does; the gate is for appends
    /// alone.
    pub fn get<R: Wait, G: Gate>(
        &mut self,
        rt: &R,
        alloc: Global,
        client: &mut Client,
        store: &Store,
        _gate: &G,
        key: &Text,
    ) -> Result<(Option<Text>, Synced), ObjectFault>
        requires client { IsClient store.now client.old }
        requires map { IsMapOf client.old self.old }
        ensures client { RestsOn store.now client.old client.new }
        ensures idle { Helps client.new → Helps client.old }
        ensures map { IsMapOf client.new self.new }
        ensures same { IsSameMap self.old self.new }
        ensures ok { IfOk result (λ r. Gets store.now client.old client.new self.old.colours
            (shard_of self.old.colours key.now) key.now r.0 r.1) }
        ensures played { IfOk result (λ r. AnswersSync client.old client.new
            (shard_of self.old.colours key.now) r.1) }
        ensures away { RefusesAway self.old.home client.old result }
        ensures err { IfErr result (GetRefused (Some self.old.home) store.now client.old client.new
            (shard_of self.old.colours key.now)) }
    {
        if client.region() != self.home {
            return Err(ObjectFault::NotHome { home: self.home });
        }
        let colour = shard_of(self.colours.as_slice(), key.as_bytes());
        match client.sync(rt, alloc, store, colour) {
            Ok(synced) => match self.value(alloc, client, colour, key.as_bytes()) {
                Ok(value) => Ok((value, synced)),
                Err(_) => Err(ObjectFault::NoMemory),
            },
            Err(fault) => Err(ObjectFault::Sync(fault)),
        }
    }
}
