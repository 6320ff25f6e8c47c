// What of an object on one line is folded, and kept.
ghost use Rattle.std.specs.Prelude.{◌≡◌, ◌≤◌, ◌<◌, ◌+◌, ◌^◌, ◌++◌, ◌∷◌, [], List, max, min, length, OnOk, OnErr};
ghost use Rattle.object_fold.specs.Nodes.{ObjectNode, keyed_node};
ghost use Rattle.object_fold.specs.Folds.{FoldsFirst};

use crate::fold::LineFold;
use log_node::{Item, Key, Node};
use std::alloc::{AllocError, Global};

/// An object after the first nodes of a line, and how many of them were folded: it goes on from call to call.
#[derive(Drop)]
pub struct KeptLine<F> {
    pub state: F,
    pub count: usize,
}

impl<F: LineFold> KeptLine<F> {
    /// The object as it is opened, of which no node is folded.
    pub fn new(state: F) -> KeptLine<F>
        ensures state { result.state ≡ state }
        ensures count { result.count ≡ 0 }
    {
        KeptLine { state, count: 0 }
    }

    /// Folds on by the next node of the line. Without memory the object is as before.
    pub fn feed(&mut self, alloc: Global, key: Key, node: &Node) -> Result<(), AllocError>
        requires { self.old.count < 2 ^ 63 }
        ensures opened { F.opened self.new.state ≡ F.opened self.old.state }
        ensures count { OnOk result (self.new.count ≡ self.old.count + 1) }
        ensures stays { OnErr result (self.new.count ≡ self.old.count) }
        ensures ok { (nodes : List ObjectNode) → F.Holds self.old.state nodes
            → OnOk result (F.Holds self.new.state (nodes ++ keyed_node key node.now ∷ [])) }
        ensures err { (nodes : List ObjectNode) → F.Holds self.old.state nodes → OnErr result (F.Holds self.new.state nodes) }
    {
        self.state.feed(alloc, key, node)?;
        self.count += 1;
        Ok(())
    }

    /// Folds on up to the first so many nodes of the line, as far as it has so many; of which those that were folded are not
    /// folded again. Without memory it has come a part of the way.
    pub fn fold_to(&mut self, alloc: Global, line: &[Item], end: usize) -> Result<(), AllocError>
        requires { FoldsFirst line.now self.old.count (F.Holds self.old.state) }
        ensures opened { F.opened self.new.state ≡ F.opened self.old.state }
        ensures folds { FoldsFirst line.now self.new.count (F.Holds self.new.state) }
        ensures within { self.new.count ≤ max self.old.count (min end (length line.now)) }
        ensures whole { OnOk result (self.new.count ≡ max self.old.count (min end (length line.now))) }
    {
        let end = end.min(line.len());
        for place in self.count..end {
            let item = &line[place];
            self.state.feed(alloc, item.head.key, item.node())?;
            self.count = place + 1;
        }
        Ok(())
    }
}
