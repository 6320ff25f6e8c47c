// Trees: the names in a path.
ghost use Rattle.std.specs.Prelude.{◌≡◌, ◌<◌, List, IfOk, length, map};
ghost use Rattle.log_node.specs.Sets.{members};
ghost use Rattle.object_fold.specs.Nodes.{ObjectNode};
ghost use Rattle.script_text.specs.Fitting.{AreBelow};
ghost use Rattle.tree_fold.specs.Trees.{tree_after};
ghost use Rattle.tree_fold.specs.TreeStates.{IsTree};
ghost use Rattle.world_code.specs.WorldView.{world_of};
ghost use Rattle.script_meaning.specs.Dequeues.{object_node_at};
ghost use Rattle.script_meaning.specs.Stamped.{keys_read};
ghost use Rattle.script_meaning.specs.Trees.{names_in};
ghost use Rattle.script_in_order.specs.Folds.{IsLinesFold};

use crate::lines_fold::{LinesFold, LinesRead};
use log_node::Names;
use std::alloc::{AllocError, Global};
use tree_fold::{Path, TreeFold};
use world_code::World;

impl LinesFold<TreeFold> {
    /// The names in a path after all nodes that are read, where there is such a path. Where there is no memory, the fold may
    /// begin anew.
    pub fn names(
        &mut self,
        alloc: Global,
        world: &World,
        read: LinesRead,
        path: &Option<Path>,
    ) -> Result<Option<Names>, AllocError>
        requires client { read.client < length world.now.shape.homes }
        requires within { AreBelow world.now.shape.colours read.colours }
        requires folded { IsLinesFold IsTree (world_of world.now) self.old }
        ensures names { IfOk result (λ names. names ≡ names_in (tree_after (map (object_node_at (world_of world.now))
            (keys_read (world_of world.now) read.client read.stamp (members read.colours)))) path.now) }
        ensures folded { IsLinesFold IsTree (world_of world.now) self.new }
    {
        self.fold_to(alloc, world, read)?;
        names_in(alloc, &self.kept.state, path)
    }
}

// The names in a path of a tree, if it is one and is there.
fn names_in(
    alloc: Global,
    tree: &TreeFold,
    path: &Option<Path>,
) -> Result<Option<Names>, AllocError>
    ensures { (nodes : List ObjectNode) → IsTree tree.now nodes
        → IfOk result (λ names. names ≡ names_in (tree_after nodes) path.now) }
{
    match path {
        None => Ok(None),
        Some(path) => tree.names(alloc, path),
    }
}
