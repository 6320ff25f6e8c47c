// The last writes of keys in a line.
ghost use Rattle.std.specs.Prelude.{◌≡◌, []};
ghost use Rattle.std.specs.Option.{option_copied};
ghost use Rattle.log_node.specs.Sets.{has};
ghost use Rattle.object_fold.specs.Nodes.{shard_of};
ghost use Rattle.object_fold.specs.Tables.{value_at};
ghost use Rattle.atomic_map.specs.Colours.{AreFew};

use log_node::{ColourList, Key, Node, Text};
use object_fold::{Table, shard_of};
use std::alloc::Global;

/// A key's last write: the key of the node that has it, and the value; none where it deletes the key.
#[derive(Drop)]
pub struct LastWrite {
    pub node: Key,
    pub value: Option<Text>,
}

/// The last write of each key of a map with these colours in nodes of a line. A node counts for a key where it has the colour of
/// the key's shard.
#[derive(Drop)]
pub struct LineWrites {
    pub(crate) colours: ColourList,
    pub(crate) writes: Table<LastWrite>,
    ghost few: { AreFew colours },
}

impl LineWrites {
    /// What no node writes.
    pub fn open(alloc: Global, colours: ColourList) -> LineWrites
        requires { AreFew colours }
        ensures colours { result.colours ≡ colours }
        ensures empty { result.writes.entries ≡ [] }
    {
        LineWrites {
            colours,
            writes: Table::new(alloc),
        }
    }

    /// The last write of a key.
    pub fn get(&self, key: &[u8]) -> Option<&LastWrite>
        ensures { option_copied result ≡ value_at self.now.writes.entries key.now }
    {
        self.writes.get(key)
    }

    // The node counts for the key.
    pub(crate) fn counts(&self, node: &Node, key: &[u8]) -> bool
        ensures { result ≡ has node.now.colours (shard_of self.now.colours key.now) }
    {
        node.colours.has(shard_of(self.colours.as_slice(), key))
    }
}
