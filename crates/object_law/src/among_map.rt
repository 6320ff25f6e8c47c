// Several keys of a map at once, over nodes that are fed one by one.
ghost use Rattle.std.specs.Prelude.{◌≡◌, ◌<◌, ◌≤◌, ◌+◌, ◌++◌, ◌∷◌, [], ℕ, List, length, OnOk, OnErr};
ghost use Rattle.std.specs.Option.{option_copied};
ghost use Rattle.log_node.specs.declared.limits.TheConstants.{MAX_COLOURS as most_colours};
ghost use Rattle.object_fold.specs.Maps.{value_among};
ghost use Rattle.object_fold.specs.Nodes.{ObjectNode, keyed_node, shard_of};
ghost use Rattle.object_fold.specs.Tables.{value_at};
ghost use Rattle.object_law.specs.AmongMaps.{IsAmongMap, counted_with, counts};

use log_node::{ColourList, Colours, Form, Key, MAX_COLOURS, Node, Pair, Pairs, Text};
use object_fold::{LineFold, Table, shard_of};
use object_form::read_form;
use std::alloc::{AllocError, Global};

/// The values of all keys of a map with these colours, after the nodes that were fed: for each key only nodes count that have the
/// colour of its shard.
#[derive(Drop)]
pub(crate) struct AmongMap {
    colours: ColourList,
    values: Table<Text>,
}

impl AmongMap {
    /// Before any node.
    pub(crate) fn new(alloc: Global, colours: ColourList) -> AmongMap
        ensures colours { result.colours ≡ colours }
        ensures empty { IsAmongMap result [] }
    {
        AmongMap {
            colours,
            values: Table::new(alloc),
        }
    }

    // Whether a node of these colours counts for a key.
    fn counts(&self, set: Colours, key: &[u8]) -> bool
        ensures { result ≡ counts self.now set key.now }
    {
        let shard = shard_of(self.colours.as_slice(), key);
        shard < MAX_COLOURS && set.has(shard)
    }

    /// The value of a key.
    pub(crate) fn get(&self, key: &[u8]) -> Option<&Text>
        ensures { (nodes : List ObjectNode) → IsAmongMap self.now nodes → shard_of self.now.colours key.now < most_colours
            → option_copied result ≡ value_among self.now.colours nodes key.now }
    {
        self.values.get(key)
    }

    // Sets a key, where it counts.
    fn set(&mut self, set: Colours, key: Text, value: Text)
        requires { 0 < self.old.values.spare }
        ensures colours { self.new.colours ≡ self.old.colours }
        ensures values { (other : List ℕ) → value_at self.new.values.entries other
            ≡ counted_with self.old set other (Form.Put key value) }
        ensures room { self.old.values.spare ≤ self.new.values.spare + 1 }
    {
        if self.counts(set, key.as_bytes()) {
            self.values.set(key, value);
        }
    }

    // Sets the pairs from left to right, as far as their keys count.
    fn set_all(&mut self, set: Colours, pairs: Pairs)
        requires { length pairs ≤ self.old.values.spare }
        ensures colours { self.new.colours ≡ self.old.colours }
        ensures values { (other : List ℕ) → value_at self.new.values.entries other
            ≡ counted_with self.old set other (Form.PutAll pairs) }
    {
        for Pair { key, value } in pairs.into_vec() {
            self.set(set, key, value);
        }
    }

    // Removes a key, where it counts.
    fn remove(&mut self, set: Colours, key: &[u8])
        ensures colours { self.new.colours ≡ self.old.colours }
        ensures values { (other : List ℕ) → value_at self.new.values.entries other
            ≡ counted_with self.old set other (Form.Delete key.now) }
    {
        if self.counts(set, key) {
            self.values.remove(key);
        }
    }

    fn apply(&mut self, set: Colours, form: Form) -> Result<(), AllocError>
        ensures colours { self.new.colours ≡ self.old.colours }
        ensures ok { (other : List ℕ) → OnOk result (value_at self.new.values.entries other
            ≡ counted_with self.old set other form) }
        ensures err { OnErr result (self.new.values.entries ≡ self.old.values.entries) }
    {
        match form {
            Form::Put { key, value } => {
                self.values.reserve(1)?;
                self.set(set, key, value);
            }
            Form::Delete { key } => self.remove(set, key.as_bytes()),
            Form::PutAll { pairs } => {
                self.values.reserve(pairs.len())?;
                self.set_all(set, pairs);
            }
            Form::Transaction {
                reads: _reads,
                writes: _writes,
            } => {}
            Form::Enqueue { value: _value } => {}
            Form::Dequeue => {}
            Form::Causal {
                key: _key,
                value: _value,
            } => {}
            Form::Plain => {}
        }
        Ok(())
    }
}

impl LineFold for AmongMap {
    ghost Holds = { IsAmongMap };

    ghost Opened = { List ℕ };

    ghost opened = { λ map. map.colours };

    fn feed(&mut self, alloc: Global, _key: Key, node: &Node) -> Result<(), AllocError> {
        let form = read_form(alloc, &node.text)?;
        self.apply(node.colours, form)
    }
}
