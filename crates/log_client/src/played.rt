// The nodes that a client has played of a colour.
ghost use Rattle.std.specs.Prelude.{◌≡◌, ◌++◌, [], length, take, OnOk, OnErr};

use log_node::{Item, Items};
use std::alloc::{AllocError, Global};
use std::marker::Model;

/// Nodes in the order in which they were played, which contracts see as their list.
#[derive(Drop)]
pub struct PlayedNodes {
    items: Vec<Item>,
}

impl Model for PlayedNodes {
    ghost use Rattle.std.specs.Prelude.{List};
    ghost use Rattle.log_node.specs.Seen.{PlacedNode};

    ghost Value = { List PlacedNode };

    ghost view = { λ a. a.items.items };
}

impl PlayedNodes {
    /// No nodes; takes no memory.
    pub fn new(alloc: Global) -> PlayedNodes
        ensures { result ≡ [] }
    {
        PlayedNodes {
            items: Vec::new(alloc),
        }
    }

    /// How many nodes were played.
    pub fn len(&self) -> usize
        ensures { result ≡ length self.now }
    {
        self.items.len()
    }

    /// The nodes, the first played first.
    pub fn as_slice(&self) -> &[Item]
        ensures { result.now ≡ self.now }
    {
        self.items.as_slice()
    }

    /// Keeps this many of the first nodes, where there are more.
    pub fn truncate(&mut self, count: usize)
        ensures { self.new ≡ take count self.old }
    {
        self.items.truncate(count);
    }

    /// More nodes at the end. Without memory they stay as they were.
    pub fn append(&mut self, nodes: Items) -> Result<(), AllocError>
        ensures ok { OnOk result (self.new ≡ self.old ++ nodes) }
        ensures err { OnErr result (self.new ≡ self.old) }
    {
        let mut more = nodes.into_vec();
        self.items.append(&mut more)
    }
}
