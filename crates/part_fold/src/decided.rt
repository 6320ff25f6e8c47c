// The first decision on each transaction.
ghost use Rattle.std.specs.Prelude.{◌≡◌, [], List, None, OnOk, OnErr};
ghost use Rattle.log_node.specs.declared.ids.Key.{Key as NodeKey};
ghost use Rattle.part_fold.specs.PartStates.{decided_at, decided_with};

use crate::decision::Decision;
use log_node::Key;
use std::alloc::{AllocError, Global};
use std::collections::BTreeMap;

/// What the first decision on each transaction says.
#[derive(Drop)]
pub struct Decided {
    outcomes: BTreeMap<Key, bool>,
}

impl Decided {
    /// No decision.
    pub fn new(alloc: Global) -> Self
        ensures { (key : NodeKey) → decided_at result key ≡ None }
    {
        Decided {
            outcomes: BTreeMap::new(alloc),
        }
    }

    /// Whether the transaction with this key commits, if that was decided.
    pub fn get(&self, key: Key) -> Option<bool>
        ensures { result ≡ decided_at self.now key }
    {
        self.outcomes.get(&key).copied()
    }

    /// One more decision, which says nothing where one on this transaction is there. Without memory all stays as it was.
    pub fn add(&mut self, decision: Decision) -> Result<(), AllocError>
        ensures ok { (key : NodeKey) → OnOk result (decided_at self.new key
            ≡ decided_with (decided_at self.old key) decision key) }
        ensures err { (key : NodeKey) → OnErr result (decided_at self.new key ≡ decided_at self.old key) }
    {
        match self.get(decision.key) {
            Some(_) => {}
            None => {
                self.outcomes.insert(decision.key, decision.commits)?;
            }
        }
        Ok(())
    }
}
