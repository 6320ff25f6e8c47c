// Maps of shards that are played from get to get.
ghost use Rattle.std.specs.Prelude.{◌≡◌, ◌<◌, ◌≤◌, ℕ, List, IfOk, OnOk};
ghost use Rattle.log_node.specs.declared.node.Node.{Node as Appended};
ghost use Rattle.object_fold.specs.Maps.{shard_value};
ghost use Rattle.column_track.specs.Tracks.{Tells};
ghost use Rattle.object_law.specs.ObjectAnswers.{AreShardPlays, IsShardAt, IsShardPlay, colours_used};
ghost use Rattle.object_law.specs.Tenth.{line_nodes};

use crate::line_play::LinePlay;
use crate::node_table::NodeTable;
use crate::queue_plays::is_found;
use log_node::Text;
use object_fold::ShardMap;
use script_text::Script;
use std::alloc::{AllocError, Global};
use std::collections::BTreeMap;
use walk_law::{Subject, colours_of, copied};

/// The map of a shard of an object, over the own line of its colour in a region.
#[derive(Drop)]
pub(crate) struct ShardPlay {
    object: u8,
    region: u8,
    colour: u8,
    play: LinePlay<ShardMap>,
}

/// The colours of an object, by its number.
pub(crate) fn colours_used(script: &Script, object: u8) -> &[u8]
    ensures { result.now ≡ colours_used script.now object }
{
    match script.objects.get(object as usize) {
        Some(found) => colours_of(Some(&found.kind)),
        None => &[],
    }
}

impl ShardPlay {
    /// Before any node.
    pub(crate) fn open(
        alloc: Global,
        subject: &Subject<'_>,
        object: u8,
        region: u8,
        colour: u8,
    ) -> Result<ShardPlay, AllocError>
        ensures holds { (table : List (List Appended)) → IfOk result (IsShardPlay subject.now table) }
        ensures object { IfOk result (λ p. p.object ≡ object) }
        ensures region { IfOk result (λ p. p.region ≡ region) }
        ensures colour { IfOk result (λ p. p.colour ≡ colour) }
    {
        let colours = copied(alloc, colours_used(subject.script(), object))?;
        Ok(ShardPlay {
            object,
            region,
            colour,
            play: LinePlay::of(ShardMap::open(alloc, colours, colour)),
        })
    }

    /// Whether it is that of this object and column.
    pub(crate) fn is_of(&self, object: u8, region: u8, colour: u8) -> bool
        ensures { Tells result ((self.now.object ≡ object) × (self.now.region ≡ region) × (self.now.colour ≡ colour)) }
    {
        self.object == object && self.region == region && self.colour == colour
    }

    /// Whether a key has this value after so many nodes of the line.
    pub(crate) fn is_value(
        &mut self,
        alloc: Global,
        subject: &Subject<'_>,
        nodes: &NodeTable,
        count: u64,
        key: &Text,
        value: &Option<Text>,
    ) -> Result<bool, AllocError>
        requires holds { IsShardPlay subject.now nodes.now self.old }
        requires region { self.old.region < subject.now.script.shape.regions }
        requires colour { self.old.colour < subject.now.script.shape.colours }
        ensures told { IfOk result (λ b. Tells b (value.now ≡ shard_value (colours_used subject.now.script self.old.object)
            self.old.colour (line_nodes subject.now nodes.now self.old.region self.old.colour count) key.now)) }
        ensures holds { OnOk result (IsShardPlay subject.now nodes.now self.new) }
        ensures object { self.new.object ≡ self.old.object }
        ensures region { self.new.region ≡ self.old.region }
        ensures colour { self.new.colour ≡ self.old.colour }
    {
        let line = subject.track(self.region, self.colour).line();
        let place = line.len().min(count as usize);
        let colours = copied(alloc, colours_used(subject.script(), self.object))?;
        self.play.go_to(
            alloc,
            nodes,
            line,
            place,
            ShardMap::open(alloc, colours, self.colour),
        )?;
        Ok(is_found(value, self.play.fold.get(key.as_bytes())))
    }
}

// A shard of an object in a region.
#[derive(Clone, Copy, Debug, PartialEq, Eq, PartialOrd, Ord)]
struct ShardId {
    object: u8,
    region: u8,
    colour: u8,
}

/// The maps of all shards that gets asked for so far. The table says at which place each stands; what stands there says itself what
/// it is of.
#[derive(Drop)]
pub(crate) struct ShardPlays {
    plays: Vec<ShardPlay>,
    places: BTreeMap<ShardId, usize>,
}

impl ShardPlays {
    /// None yet.
    pub(crate) fn new(alloc: Global, subject: &Subject<'_>) -> ShardPlays
        ensures { (table : List (List Appended)) → AreShardPlays subject.now table result }
    {
        let _subject = subject;
        ShardPlays {
            plays: Vec::new(alloc),
            places: BTreeMap::new(alloc),
        }
    }

    // Whether the map of a shard stands at a place.
    fn is_at(&self, place: usize, id: ShardId) -> bool
        ensures { Tells result (IsShardAt self.now id place) }
    {
        match self.plays.get(place) {
            Some(play) => play.is_of(id.object, id.region, id.colour),
            None => false,
        }
    }

    // One more map, before any node, and its place.
    fn add(
        &mut self,
        alloc: Global,
        subject: &Subject<'_>,
        id: ShardId,
    ) -> Result<usize, AllocError>
        ensures at { IfOk result (IsShardAt self.new id) }
        ensures plays { (table : List (List Appended)) → AreShardPlays subject.now table self.old
            → OnOk result (AreShardPlays subject.now table self.new) }
    {
        let place = self.plays.len();
        let play = ShardPlay::open(alloc, subject, id.object, id.region, id.colour)?;
        self.plays.push(play)?;
        self.places.insert(id, place)?;
        Ok(place)
    }

    // The place of the map of a shard.
    fn place(
        &mut self,
        alloc: Global,
        subject: &Subject<'_>,
        id: ShardId,
    ) -> Result<usize, AllocError>
        ensures at { IfOk result (IsShardAt self.new id) }
        ensures plays { (table : List (List Appended)) → AreShardPlays subject.now table self.old
            → OnOk result (AreShardPlays subject.now table self.new) }
    {
        match self.places.get(&id).copied() {
            Some(place) => {
                if self.is_at(place, id) {
                    Ok(place)
                } else {
                    self.add(alloc, subject, id)
                }
            }
            None => self.add(alloc, subject, id),
        }
    }

    /// Whether a key has this value in the shard of an object with a colour, after so many nodes of its line in a region.
    pub(crate) fn is_value(
        &mut self,
        alloc: Global,
        subject: &Subject<'_>,
        nodes: &NodeTable,
        object: u8,
        region: u8,
        colour: u8,
        count: u64,
        key: &Text,
        value: &Option<Text>,
    ) -> Result<bool, AllocError>
        requires plays { AreShardPlays subject.now nodes.now self.old }
        requires region { region < subject.now.script.shape.regions }
        requires colour { colour < subject.now.script.shape.colours }
        ensures told { IfOk result (λ b. Tells b (value.now ≡ shard_value (colours_used subject.now.script object)
            colour (line_nodes subject.now nodes.now region colour count) key.now)) }
        ensures plays { OnOk result (AreShardPlays subject.now nodes.now self.new) }
    {
        let id = ShardId {
            object,
            region,
            colour,
        };
        let place = self.place(alloc, subject, id)?;
        self.plays[place].is_value(alloc, subject, nodes, count, key, value)
    }
}
