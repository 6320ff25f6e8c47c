// What of an object in the order of a region is folded, and kept.
ghost use Rattle.std.specs.Prelude.{◌≡◌, ◌++◌, ◌∷◌, [], ℕ, List, Some, None, true, false, IfOk, OnOk, OnErr};
ghost use Rattle.object_fold.specs.Nodes.{ObjectNode, object_node, object_nodes};
ghost use Rattle.object_fold.specs.Folds.{FeedsAll, FeedsFirst, IsAbsent, is_behind, told_of};

use crate::fold::NodeFold;
use log_node::{Item, Key, Text};
use std::alloc::{AllocError, Global};

/// An object after some nodes in rising key, and the key of the last of these, if there is one: it goes on from call to call.
#[derive(Drop)]
pub struct KeptFold<F> {
    pub state: F,
    pub last: Option<Key>,
}

// Whether the key comes behind the last one, or there is no last one.
fn is_behind(last: Option<Key>, key: Key) -> bool
    ensures { result ≡ is_behind last key }
{
    match last {
        Some(last) => last.is_below(key),
        None => true,
    }
}

impl<F: NodeFold> KeptFold<F> {
    /// The fold of no node. Takes no memory.
    pub fn open(alloc: Global) -> KeptFold<F>
        ensures state { F.Holds result.state [] }
        ensures last { result.last ≡ None }
    {
        KeptFold {
            state: F::open(alloc),
            last: None,
        }
    }

    /// Feeds the next node, and gives what it is told. At an error the fold is as before.
    pub fn feed(
        &mut self,
        alloc: Global,
        key: Key,
        text: &Text,
    ) -> Result<Option<F::Told>, AllocError>
        ensures told { (nodes : List ObjectNode) (node : ObjectNode) → node.key ≡ key → node.text ≡ text.now
            → F.Holds self.old.state nodes → IfOk result (λ told. told ≡ F.told nodes node) }
        ensures ok { (nodes : List ObjectNode) (node : ObjectNode) → node.key ≡ key → node.text ≡ text.now
            → F.Holds self.old.state nodes → OnOk result (F.Holds self.new.state (nodes ++ node ∷ [])) }
        ensures err { (nodes : List ObjectNode) → F.Holds self.old.state nodes → OnErr result (F.Holds self.new.state nodes) }
        ensures last { OnOk result (self.new.last ≡ Some key) }
        ensures stays { OnErr result (self.new.last ≡ self.old.last) }
    {
        let told = self.state.feed(alloc, key, text)?;
        self.last = Some(key);
        Ok(told)
    }

    // Feeds the next node, and gives what it is told.
    fn feed_item(&mut self, alloc: Global, item: &Item) -> Result<Option<F::Told>, AllocError>
        ensures told { (nodes : List ObjectNode) → F.Holds self.old.state nodes
            → IfOk result (λ told. told ≡ F.told nodes (object_node item.now)) }
        ensures ok { OnOk result (FeedsAll F.Holds self.old self.new (item.now ∷ [])) }
        ensures err { OnErr result (FeedsAll F.Holds self.old self.new []) }
    {
        let told = self.feed(alloc, item.head.key, &item.node().text)?;
        Ok(told)
    }

    /// Folds on by nodes that come behind the last one. Without memory it has come a part of the way.
    pub fn fold_on(&mut self, alloc: Global, items: &[Item]) -> Result<(), AllocError>
        ensures first { FeedsFirst F.Holds self.old self.new items.now }
        ensures whole { OnOk result (FeedsAll F.Holds self.old self.new items.now) }
    {
        for item in items {
            let _told = self.feed_item(alloc, item)?;
        }
        Ok(())
    }

    /// Begins anew where the key of a node that is to be answered does not come behind the last one, so that it may have been
    /// folded.
    pub fn stay_before(&mut self, alloc: Global, own: Key)
        ensures before { is_behind self.new.last own ≡ true }
        ensures same { is_behind self.old.last own ≡ true → self.new ≡ self.old }
        ensures anew { is_behind self.old.last own ≡ false → (self.new.last ≡ None) × F.Holds self.new.state [] }
    {
        if !is_behind(self.last, own) {
            *self = KeptFold::open(alloc);
        }
    }

    /// Folds on by nodes that come behind the last one, up to the own one among them, and gives what that one is told. Without
    /// memory it has come a part of the way.
    pub fn told(
        &mut self,
        alloc: Global,
        items: &[Item],
        own: Key,
    ) -> Result<Option<F::Told>, AllocError>
        ensures first { FeedsFirst F.Holds self.old self.new items.now }
        ensures ok { (nodes : List ObjectNode) → F.Holds self.old.state nodes → IsAbsent own nodes
            → IfOk result (λ told. told ≡ told_of F.told (nodes ++ object_nodes items.now) own) }
    {
        for item in items {
            let told = self.feed_item(alloc, item)?;
            if item.head.key.is_same(own) {
                return Ok(told);
            }
        }
        Ok(None)
    }
}
