// What the nodes of a line leave up to a place, for reads one after another.
ghost use Rattle.std.specs.Prelude.{◌≡◌, ◌≤◌, [], ℕ, List, length, take, IfOk, OnOk};
ghost use Rattle.log_node.specs.declared.ids.Key.{Key as KeyOf};
ghost use Rattle.log_node.specs.declared.node.Node.{Node as Appended};
ghost use Rattle.object_law.specs.NodeTables.{nodes_under};
ghost use Rattle.object_law.specs.ObjectPlays.{HoldsLine};

use crate::node_table::NodeTable;
use log_node::Key;
use object_fold::LineFold;
use std::alloc::{AllocError, Global};

/// What the first nodes of a line leave. It goes on from place to place; to an earlier one it goes from the line's beginning.
#[derive(Drop)]
pub(crate) struct LinePlay<F> {
    pub(crate) fold: F,
    count: usize,
}

impl<F: LineFold> LinePlay<F> {
    /// Before any node, by the object before any.
    pub(crate) fn of(fresh: F) -> LinePlay<F>
        requires { F.Holds fresh [] }
        ensures holds { (table : List (List Appended)) (line : List KeyOf) → HoldsLine F.Holds table line result }
        ensures opened { F.opened result.fold ≡ F.opened fresh }
    {
        LinePlay {
            fold: fresh,
            count: 0,
        }
    }

    // Feeds the nodes of the line up to this place.
    fn go_on(
        &mut self,
        alloc: Global,
        nodes: &NodeTable,
        line: &[Key],
        count: usize,
    ) -> Result<(), AllocError>
        requires holds { HoldsLine F.Holds nodes.now line.now self.old }
        requires within { count ≤ length line.now }
        requires behind { self.old.count ≤ count }
        ensures holds { OnOk result (F.Holds self.new.fold (nodes_under nodes.now (take count line.now))) }
        ensures count { OnOk result (self.new.count ≡ count) }
        ensures opened { F.opened self.new.fold ≡ F.opened self.old.fold }
    {
        while self.count < count {
            let key = line[self.count];
            if let Some(node) = nodes.node(key.id) {
                self.fold.feed(alloc, key, node)?;
            }
            self.count += 1;
        }
        Ok(())
    }

    /// Goes to a place of the line; from the line's beginning, by the object before any node, where that is an earlier one.
    pub(crate) fn go_to(
        &mut self,
        alloc: Global,
        nodes: &NodeTable,
        line: &[Key],
        count: usize,
        fresh: F,
    ) -> Result<(), AllocError>
        requires holds { HoldsLine F.Holds nodes.now line.now self.old }
        requires within { count ≤ length line.now }
        requires fresh { F.Holds fresh [] }
        requires opened { F.opened self.old.fold ≡ F.opened fresh }
        ensures here { OnOk result (F.Holds self.new.fold (nodes_under nodes.now (take count line.now))) }
        ensures holds { OnOk result (HoldsLine F.Holds nodes.now line.now self.new) }
        ensures opened { F.opened self.new.fold ≡ F.opened self.old.fold }
    {
        if count < self.count {
            self.fold = fresh;
            self.count = 0;
        }
        self.go_on(alloc, nodes, line, count)
    }
}
