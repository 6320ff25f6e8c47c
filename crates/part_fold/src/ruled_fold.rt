// The transactional map with what became of each of its transactions, folded from the nodes of its colours in rising key.
ghost use Rattle.std.specs.Prelude.{◌≡◌, [], List, Some, None, OnOk};
ghost use Rattle.log_node.specs.declared.ids.Key.{Key as NodeKey};
ghost use Rattle.object_fold.specs.Nodes.{ObjectNode};
ghost use Rattle.object_fold.specs.Transactions.{ruling, verdict_of};
ghost use Rattle.part_fold.specs.Agreement.{outcome};
ghost use Rattle.part_fold.specs.Ruled.{AreApart, IsRuled, decision_on, outcome_in};

use crate::decided::Decided;
use crate::decision::Decision;
use log_node::{Key, Text};
use object_fold::{NodeFold, TxState, Verdict};
use std::alloc::{AllocError, Global};

/// The transactional map after the nodes that were fed, and of each transaction among them whether it commits.
#[derive(Drop)]
pub struct RuledFold {
    map: TxState,
    outcomes: Decided,
    // What became of the last node that was fed: it takes memory to put it among the others.
    latest: Option<Decision>,
}

fn commits(verdict: &Verdict) -> bool
    ensures { outcome (Some verdict.now) ≡ Some result }
{
    match verdict {
        Verdict::Committed { stamp: _stamp } => true,
        Verdict::Conflict {
            key: _key,
            stamp: _stamp,
        } => false,
    }
}

// What became of the node with this key.
fn decision_on(key: Key, verdict: &Option<Verdict>) -> Option<Decision>
    ensures { result ≡ decision_on key verdict.now }
{
    match verdict {
        Some(verdict) => Some(Decision {
            key,
            commits: commits(verdict),
        }),
        None => None,
    }
}

impl RuledFold {
    /// The map before any node. Takes no memory.
    pub fn new(alloc: Global) -> Self
        ensures { IsRuled result [] }
    {
        RuledFold {
            map: TxState::new(alloc),
            outcomes: Decided::new(alloc),
            latest: None,
        }
    }

    /// Whether the node with this key among those that were fed is a transaction that commits; none where it is no
    /// transaction, or there is no such node.
    pub fn outcome(&self, key: Key) -> Option<bool>
        ensures { (nodes : List ObjectNode) → IsRuled self.now nodes → AreApart nodes
            → result ≡ outcome (verdict_of nodes key) }
    {
        match self.outcomes.get(key) {
            Some(commits) => Some(commits),
            None => match self.latest {
                Some(decision) if decision.key.is_same(key) => Some(decision.commits),
                _ => None,
            },
        }
    }

    // Puts what became of the last node among the others. Without memory all stays as it was.
    fn settle(&mut self) -> Result<(), AllocError>
        ensures map { self.new.map ≡ self.old.map }
        ensures outcomes { (key : NodeKey) → outcome_in self.new key ≡ outcome_in self.old key }
        ensures ok { OnOk result (self.new.latest ≡ None) }
    {
        if let Some(decision) = self.latest {
            self.outcomes.add(decision)?;
            self.latest = None;
        }
        Ok(())
    }
}

impl NodeFold for RuledFold {
    type Told = Verdict;

    ghost Holds = { IsRuled };

    ghost told = { ruling };

    fn open(alloc: Global) -> Self {
        RuledFold::new(alloc)
    }

    fn feed(
        &mut self,
        alloc: Global,
        key: Key,
        text: &Text,
    ) -> Result<Option<Verdict>, AllocError> {
        self.settle()?;
        let verdict = self.map.feed(alloc, key, text)?;
        self.latest = decision_on(key, &verdict);
        Ok(verdict)
    }
}
