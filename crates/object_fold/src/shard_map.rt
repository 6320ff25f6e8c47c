// The map of one shard, folded from the line of the shard's colour.
ghost use Rattle.std.specs.Prelude.{◌≡◌, ◌==◌, ◌<◌, ◌≤◌, ◌+◌, ◌++◌, ◌∷◌, [], ℕ, List, length, OnOk, OnErr, if◌then◌else◌};
ghost use Rattle.std.specs.Option.{option_copied};
ghost use Rattle.object_form.specs.Readings.{form_of};
ghost use Rattle.object_fold.specs.Nodes.{ObjectNode, shard_of};
ghost use Rattle.object_fold.specs.Tables.{value_at};
ghost use Rattle.object_fold.specs.Maps.{value_with, set_pairs, shard_value};
ghost use Rattle.object_fold.specs.States.{IsShardMap, HasShardOf, is_mine, mine_with};

use crate::fold::LineFold;
use crate::shards::shard_of;
use crate::table::Table;
use log_node::{ColourList, Form, Key, Node, Pair, Pairs, Text};
use object_form::read_form;
use std::alloc::{AllocError, Global};

/// The map of one shard: the values of its keys after the nodes that were fed.
#[derive(Drop)]
pub struct ShardMap {
    colours: ColourList,
    shard: u8,
    values: Table<Text>,
}

impl ShardMap {
    /// The map of the shard with this colour, of a map with these colours, before any node.
    pub fn open(alloc: Global, colours: ColourList, shard: u8) -> Self
        ensures colours { result.colours ≡ colours }
        ensures shard { result.shard ≡ shard }
        ensures empty { IsShardMap result [] }
    {
        ShardMap {
            colours,
            shard,
            values: Table::new(alloc),
        }
    }

    // The key is one of the shard.
    fn has(&self, key: &[u8]) -> bool
        ensures { result ≡ is_mine self.now key.now }
    {
        shard_of(self.colours.as_slice(), key) == self.shard
    }

    /// The value of a key of the shard; none for any other key.
    pub fn get(&self, key: &[u8]) -> Option<&Text>
        ensures { (nodes : List ObjectNode) → IsShardMap self.now nodes
            → option_copied result ≡ shard_value self.now.colours self.now.shard nodes key.now }
    {
        self.values.get(key)
    }

    // Sets a key, if it is one of the shard.
    fn set(&mut self, key: Text, value: Text)
        requires { 0 < self.old.values.spare }
        ensures shard { HasShardOf self.old self.new }
        ensures values { (other : List ℕ) → value_at self.new.values.entries other
            ≡ mine_with self.old other (Form.Put key value) }
        ensures room { self.old.values.spare ≤ self.new.values.spare + 1 }
    {
        if self.has(key.as_bytes()) {
            self.values.set(key, value);
        }
    }

    // Sets the pairs from left to right, as far as their keys are of the shard.
    fn set_all(&mut self, pairs: Pairs)
        requires { length pairs ≤ self.old.values.spare }
        ensures shard { HasShardOf self.old self.new }
        ensures values { (other : List ℕ) → value_at self.new.values.entries other
            ≡ mine_with self.old other (Form.PutAll pairs) }
    {
        for Pair { key, value } in pairs.into_vec() {
            self.set(key, value);
        }
    }

    // Removes a key, if it is one of the shard.
    fn remove(&mut self, key: &[u8])
        ensures shard { HasShardOf self.old self.new }
        ensures values { (other : List ℕ) → value_at self.new.values.entries other
            ≡ mine_with self.old other (Form.Delete key.now) }
    {
        if self.has(key) {
            self.values.remove(key);
        }
    }

    fn apply(&mut self, form: Form) -> Result<(), AllocError>
        ensures shard { HasShardOf self.old self.new }
        ensures ok { (other : List ℕ) → OnOk result (value_at self.new.values.entries other
            ≡ mine_with self.old other form) }
        ensures err { OnErr result (self.new.values.entries ≡ self.old.values.entries) }
    {
        match form {
            Form::Put { key, value } => {
                self.values.reserve(1)?;
                self.set(key, value);
            }
            Form::Delete { key } => self.remove(key.as_bytes()),
            Form::PutAll { pairs } => {
                self.values.reserve(pairs.len())?;
                self.set_all(pairs);
            }
            Form::Transaction {
                reads: _reads,
                writes: _writes,
            } => {}
            Form::Enqueue { value: _value } => {}
            Form::Dequeue => {}
            Form::Causal {
                key: _key,
                value: _value,
            } => {}
            Form::Plain => {}
        }
        Ok(())
    }

    /// Feeds the next node of the line of the shard's colour. At an error the map is as before.
    pub fn feed(&mut self, alloc: Global, text: &Text) -> Result<(), AllocError>
        ensures shard { HasShardOf self.old self.new }
        ensures ok { (nodes : List ObjectNode) (node : ObjectNode) → node.text ≡ text.now → IsShardMap self.old nodes
            → OnOk result (IsShardMap self.new (nodes ++ node ∷ [])) }
        ensures err { (nodes : List ObjectNode) → IsShardMap self.old nodes → OnErr result (IsShardMap self.new nodes) }
    {
        let form = read_form(alloc, text)?;
        self.apply(form)
    }
}

impl LineFold for ShardMap {
    ghost Holds = { IsShardMap };

    ghost Opened = { List ℕ × ℕ };

    ghost opened = { λ map. (map.colours, map.shard) };

    fn feed(&mut self, alloc: Global, _key: Key, node: &Node) -> Result<(), AllocError> {
        self.feed(alloc, &node.text)
    }
}
