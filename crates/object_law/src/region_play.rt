// What the nodes of a region leave up to a stamp, for reads one after another.
ghost use Rattle.std.specs.Prelude.{◌≡◌, ◌≤◌, [], ℕ, List, length, take, IfOk, OnOk};
ghost use Rattle.log_node.specs.declared.ids.Key.{Key as KeyOf};
ghost use Rattle.log_node.specs.declared.node.Node.{Node as Appended};
ghost use Rattle.object_law.specs.NodeTables.{nodes_under};
ghost use Rattle.object_law.specs.ObjectPlays.{HoldsKeys};

use crate::node_table::NodeTable;
use log_node::Key;
use object_fold::NodeFold;
use std::alloc::{AllocError, Global};

/// What the first nodes in the order of a region leave. It goes on from place to place; to an earlier one it goes from the
/// beginning.
#[derive(Drop)]
pub(crate) struct RegionPlay<F> {
    pub(crate) fold: F,
    count: usize,
}

impl<F: NodeFold> RegionPlay<F> {
    /// Before any node.
    pub(crate) fn new(alloc: Global) -> RegionPlay<F>
        ensures { (table : List (List Appended)) (keys : List KeyOf) → HoldsKeys F.Holds table keys result }
    {
        RegionPlay {
            fold: F::open(alloc),
            count: 0,
        }
    }

    // Feeds the nodes with these keys up to this place.
    fn go_on(
        &mut self,
        alloc: Global,
        nodes: &NodeTable,
        keys: &[Key],
        count: usize,
    ) -> Result<(), AllocError>
        requires holds { HoldsKeys F.Holds nodes.now keys.now self.old }
        requires within { count ≤ length keys.now }
        requires behind { self.old.count ≤ count }
        ensures holds { OnOk result (F.Holds self.new.fold (nodes_under nodes.now (take count keys.now))) }
        ensures count { OnOk result (self.new.count ≡ count) }
    {
        while self.count < count {
            let key = keys[self.count];
            if let Some(node) = nodes.node(key.id) {
                let _told = self.fold.feed(alloc, key, &node.text)?;
            }
            self.count += 1;
        }
        Ok(())
    }

    /// Goes to a place in the order of the region; from its beginning where that is an earlier one.
    pub(crate) fn go_to(
        &mut self,
        alloc: Global,
        nodes: &NodeTable,
        keys: &[Key],
        count: usize,
    ) -> Result<(), AllocError>
        requires holds { HoldsKeys F.Holds nodes.now keys.now self.old }
        requires within { count ≤ length keys.now }
        ensures here { OnOk result (F.Holds self.new.fold (nodes_under nodes.now (take count keys.now))) }
        ensures holds { OnOk result (HoldsKeys F.Holds nodes.now keys.now self.new) }
    {
        if count < self.count {
            self.fold = F::open(alloc);
            self.count = 0;
        }
        self.go_on(alloc, nodes, keys, count)
    }
}
