// The tree, folded from nodes in rising key.
ghost use Rattle.std.specs.Prelude.{◌≡◌, ◌++◌, ◌∷◌, ◌≤◌, IsTrue, [], List, length, IfOk, OnOk, OnErr, Some, None};
ghost use Rattle.std.specs.Option.{option_copied};
ghost use Rattle.object_fold.specs.Nodes.{ObjectNode};
ghost use Rattle.tree_fold.specs.Paths.{Path, is_path};
ghost use Rattle.tree_fold.specs.Changes.{IsChange};
ghost use Rattle.tree_fold.specs.Readings.{change_of};
ghost use Rattle.tree_fold.specs.Trees.{value_in, is_there, has_more, is_too_deep, why, changed, tree_with, tree_after, told_under, told_of_change, telling, IsNamesAnswer};
ghost use Rattle.tree_fold.specs.TreeStates.{SameTree, IsTree};

use crate::change::Change;
use crate::changing::{make, relocate, remove};
use crate::entries::{Entries, Entry, begins_with, entry_of, goes_deeper, names_in};
use crate::path::{MAX_NAMES, Path};
use crate::places::parent_of;
use crate::reading::read_change;
use crate::told::Told;
use log_node::{Key, Names, Text};
use object_fold::NodeFold;
use object_form::TreeWhy;
use std::alloc::{AllocError, Global};
use std::collections::BTreeMap;
use std::marker::Model;

/// The tree of names: the paths that are there after the nodes that were fed, with their values. Contracts see the list
/// of its entries.
#[derive(Drop)]
pub struct TreeFold {
    entries: Entries,
}

impl Model for TreeFold {
    ghost use Rattle.std.specs.Prelude.{List};
    ghost use Rattle.tree_fold.specs.declared.entries.Entry.{Entry as Seen};

    ghost Value = { List Seen };

    ghost use Rattle.std.specs.BTreeMap.{values};
    ghost use Rattle.tree_fold.specs.Places.{AreTreeEntries};

    ghost view = { λ a. values a.entries };

    ghost invariant = { λ a. AreTreeEntries a.entries.entries };
}

impl TreeFold {
    /// The tree before any node: the root alone.
    pub fn new(alloc: Global) -> Self
        ensures { IsTree result [] }
    {
        TreeFold {
            entries: BTreeMap::new(alloc),
        }
    }

    fn value_in(&self, path: &[Text]) -> Option<&Text>
        requires { IsTrue (is_path path.now) }
        ensures { option_copied result ≡ value_in self.now path.now }
    {
        match entry_of(&self.entries, path) {
            Some(entry) => Some(&entry.value),
            None => None,
        }
    }

    fn is_there(&self, path: &[Text]) -> bool
        requires { IsTrue (is_path path.now) }
        ensures { result ≡ is_there self.now path.now }
    {
        path.is_empty() || self.value_in(path).is_some()
    }

    // Some path goes on from this one.
    fn has_more(&self, path: &[Text]) -> bool
        requires { IsTrue (is_path path.now) }
        ensures { result ≡ has_more self.now path.now }
    {
        goes_deeper(&self.entries, path, 0)
    }

    // Some path would have too many names with the target in the place of the source.
    fn is_too_deep(&self, source: &[Text], target: &[Text]) -> bool
        requires source { IsTrue (is_path source.now) }
        requires target { length target.now ≤ 4 }
        ensures { result ≡ is_too_deep self.now source.now target.now }
    {
        goes_deeper(&self.entries, source, MAX_NAMES - target.len())
    }

    fn why_not_moved(&self, source: &[Text], target: &[Text]) -> Option<TreeWhy>
        requires source { IsTrue (is_path source.now) }
        requires target { IsTrue (is_path target.now) }
        ensures { result ≡ why self.now (Change.Move source.now target.now) }
    {
        if !self.is_there(source) {
            Some(TreeWhy::Missing)
        } else if begins_with(source, target) {
            Some(TreeWhy::Inside)
        } else if self.is_there(target) {
            Some(TreeWhy::Exists)
        } else if !self.is_there(parent_of(target)) {
            Some(TreeWhy::NoParent)
        } else if self.is_too_deep(source, target) {
            Some(TreeWhy::Deep)
        } else {
            None
        }
    }

    // Why a change fails, or none where it may be done.
    fn why(&self, change: &Change) -> Option<TreeWhy>
        ensures { result ≡ why self.now change.now }
    {
        match change {
            Change::Make {
                path,
                value: _value,
            } => {
                if self.is_there(path.names()) {
                    Some(TreeWhy::Exists)
                } else if !self.is_there(parent_of(path.names())) {
                    Some(TreeWhy::NoParent)
                } else {
                    None
                }
            }
            Change::Remove { path } => {
                if !self.is_there(path.names()) {
                    Some(TreeWhy::Missing)
                } else if self.has_more(path.names()) {
                    Some(TreeWhy::NotEmpty)
                } else {
                    None
                }
            }
            Change::Move { source, target } => self.why_not_moved(source.names(), target.names()),
        }
    }

    // Does a change that may be done.
    fn apply(&mut self, alloc: Global, change: Change) -> Result<(), AllocError>
        requires change { IsChange change }
        requires done { why self.old change ≡ None }
        ensures ok { (tree : List Entry) → SameTree self.old tree
            → OnOk result (SameTree self.new (changed tree change)) }
        ensures err { OnErr result (self.new ≡ self.old) }
    {
        match change {
            Change::Make { path, value } => make(&mut self.entries, path.into_names(), value),
            Change::Remove { path } => {
                remove(&mut self.entries, path.names());
                Ok(())
            }
            Change::Move { source, target } => {
                relocate(alloc, &mut self.entries, source.names(), target.names())
            }
        }
    }

    // Does a change, or tells why it fails.
    fn take(&mut self, alloc: Global, stamp: u64, change: Change) -> Result<Told, AllocError>
        requires { IsChange change }
        ensures told { IfOk result (λ told. told ≡ told_under stamp (why self.old change)) }
        ensures ok { (tree : List Entry) → SameTree self.old tree
            → OnOk result (SameTree self.new (tree_with tree (Some change))) }
        ensures err { OnErr result (self.new ≡ self.old) }
    {
        match self.why(&change) {
            Some(why) => Ok(Told::Failed { stamp, why }),
            None => {
                self.apply(alloc, change)?;
                Ok(Told::Done { stamp })
            }
        }
    }

    /// Feeds the next node in rising key, and tells what became of its change; a node without one is passed over. At an
    /// error the tree is as before.
    pub fn feed(&mut self, alloc: Global, key: Key, text: &Text) -> Result<Option<Told>, AllocError>
        ensures told { (nodes : List ObjectNode) → IsTree self.old nodes
            → IfOk result (λ told. told ≡ told_of_change key.stamp (tree_after nodes) (change_of text.now)) }
        ensures ok { (nodes : List ObjectNode) (node : ObjectNode) → node.text ≡ text.now → IsTree self.old nodes
            → OnOk result (IsTree self.new (nodes ++ node ∷ [])) }
        ensures err { OnErr result (self.new ≡ self.old) }
    {
        match read_change(alloc, text)? {
            Some(change) => Ok(Some(self.take(alloc, key.stamp, change)?)),
            None => Ok(None),
        }
    }

    /// The value of a path, if it is there and not the root.
    pub fn value(&self, path: &Path) -> Option<&Text>
        ensures { (nodes : List ObjectNode) → IsTree self.now nodes
            → option_copied result ≡ value_in (tree_after nodes) path.now }
    {
        self.value_in(path.names())
    }

    /// The names in a path, by their bytes: those that come next after it in the tree, each once; nothing where the path
    /// is not there. `AllocError` where memory is refused.
    pub fn names(&self, alloc: Global, path: &Path) -> Result<Option<Names>, AllocError>
        ensures { (nodes : List ObjectNode) → IsTree self.now nodes
            → IfOk result (λ names. IsNamesAnswer (tree_after nodes) path.now names) }
    {
        let path = path.names();
        if !self.is_there(path) {
            return Ok(None);
        }
        let names = names_in(alloc, &self.entries, path)?;
        Ok(Some(names))
    }
}

impl NodeFold for TreeFold {
    type Told = Told;

    ghost Holds = { IsTree };

    ghost told = { telling };

    fn open(alloc: Global) -> Self {
        TreeFold::new(alloc)
    }

    fn feed(&mut self, alloc: Global, key: Key, text: &Text) -> Result<Option<Told>, AllocError> {
        self.feed(alloc, key, text)
    }
}
