// What the nodes of a line write, and how a line folds on.
ghost use Rattle.std.specs.Prelude.{◌≡◌, ◌<◌, ◌≤◌, ◌+◌, ℕ, List, length, take, OnOk, OnErr};
ghost use Rattle.std.specs.Option.{option_copied};
ghost use Rattle.object_fold.specs.Nodes.{keyed_node};
ghost use Rattle.object_fold.specs.Folds.{FoldsFirst};
ghost use Rattle.playback.specs.Merging.{AreRising};
ghost use Rattle.log_client.specs.Reading.{keys_of};
ghost use Rattle.atomic_map.specs.Writes.{HoldsShardWrites, IsWritten, items_up_to, later_write};

use crate::line_writes::{LastWrite, LineWrites};
use log_client::count_up_to;
use log_node::{Form, Item, Key, Node, Pair, Pairs, Text};
use object_fold::{KeptLine, LineFold};
use object_form::read_form;
use std::alloc::{AllocError, Global};

/// That of two writes whose node has the greater key.
pub fn later_write<'a>(
    write: Option<&'a LastWrite>,
    other: Option<&'a LastWrite>,
) -> Option<&'a LastWrite>
    ensures { option_copied result
        ≡ later_write (option_copied write.entry) (option_copied other.entry) }
{
    match (write, other) {
        (None, other) => other,
        (Some(write), None) => Some(write),
        (Some(write), Some(other)) => {
            if write.node.is_below(other.node) {
                Some(other)
            } else {
                Some(write)
            }
        }
    }
}

impl LineWrites {
    // Notes a put, if its node, which stands under this key, counts for the key that is put.
    fn put(&mut self, at: Key, node: &Node, key: Text, value: Text)
        requires room { 0 < self.old.writes.spare }
        ensures colours { self.new.colours ≡ self.old.colours }
        ensures writes { IsWritten self.old (keyed_node at node.now) (Form.Put key value) self.new }
        ensures room { self.old.writes.spare ≤ self.new.writes.spare + 1 }
    {
        if self.counts(node, key.as_bytes()) {
            let write = LastWrite {
                node: at,
                value: Some(value),
            };
            self.writes.set(key, write);
        }
    }

    // Notes puts from left to right, as far as their node counts for their keys.
    fn put_all(&mut self, at: Key, node: &Node, pairs: Pairs)
        requires room { length pairs ≤ self.old.writes.spare }
        ensures colours { self.new.colours ≡ self.old.colours }
        ensures writes { IsWritten self.old (keyed_node at node.now) (Form.PutAll pairs) self.new }
    {
        for Pair { key, value } in pairs.into_vec() {
            self.put(at, node, key, value);
        }
    }

    // Notes a deletion, if its node counts for the key.
    fn delete(&mut self, at: Key, node: &Node, key: Text)
        requires room { 0 < self.old.writes.spare }
        ensures colours { self.new.colours ≡ self.old.colours }
        ensures writes { IsWritten self.old (keyed_node at node.now) (Form.Delete key) self.new }
    {
        if self.counts(node, key.as_bytes()) {
            let write = LastWrite {
                node: at,
                value: None,
            };
            self.writes.set(key, write);
        }
    }

    // Notes what a node with this form writes.
    fn apply(&mut self, at: Key, node: &Node, form: Form) -> Result<(), AllocError>
        ensures colours { self.new.colours ≡ self.old.colours }
        ensures ok { OnOk result (IsWritten self.old (keyed_node at node.now) form self.new) }
        ensures err { OnErr result (self.new.writes.entries ≡ self.old.writes.entries) }
    {
        match form {
            Form::Put { key, value } => {
                self.writes.reserve(1)?;
                self.put(at, node, key, value);
            }
            Form::Delete { key } => {
                self.writes.reserve(1)?;
                self.delete(at, node, key);
            }
            Form::PutAll { pairs } => {
                self.writes.reserve(pairs.len())?;
                self.put_all(at, node, pairs);
            }
            Form::Transaction {
                reads: _reads,
                writes: _writes,
            } => {}
            Form::Enqueue { value: _value } => {}
            Form::Dequeue => {}
            Form::Causal {
                key: _key,
                value: _value,
            } => {}
            Form::Plain => {}
        }
        Ok(())
    }
}

impl LineFold for LineWrites {
    ghost Holds = { HoldsShardWrites };

    ghost Opened = { List ℕ };

    ghost opened = { λ line. line.colours };

    fn feed(&mut self, alloc: Global, key: Key, node: &Node) -> Result<(), AllocError> {
        let form = read_form(alloc, &node.text)?;
        self.apply(key, node, form)
    }
}

/// Folds on over the nodes of a line with stamps up to this one; none that is folded has a greater stamp. Without memory the
/// fold has come a part of the way.
pub fn fold_on(
    kept: &mut KeptLine<LineWrites>,
    alloc: Global,
    line: &[Item],
    stamp: u64,
) -> Result<(), AllocError>
    requires rising { AreRising (keys_of line.now) }
    requires folds { FoldsFirst line.now kept.old.count (HoldsShardWrites kept.old.state) }
    requires low { kept.old.count ≤ length (items_up_to stamp line.now) }
    ensures colours { kept.new.state.colours ≡ kept.old.state.colours }
    ensures folds { FoldsFirst line.now kept.new.count (HoldsShardWrites kept.new.state) }
    ensures low { kept.new.count ≤ length (items_up_to stamp line.now) }
    ensures whole { OnOk result (take kept.new.count line.now ≡ items_up_to stamp line.now) }
{
    kept.fold_to(alloc, line, count_up_to(line, stamp))
}
