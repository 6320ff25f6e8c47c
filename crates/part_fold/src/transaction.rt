// Transactions that wait for what became of those before them.
ghost use Rattle.std.specs.Prelude.{◌≡◌, ◌+◌, ◌<◌, ◌^◌, ◌++◌, ◌∷◌, [], length, OnOk, OnErr};
ghost use Rattle.std.specs.Option.{option_copied};
ghost use Rattle.part_fold.specs.Waits.{front_of, front_key, behind, pairs_in};

use log_node::{Key, Pairs, Versions};
use std::alloc::{AllocError, Global};
use std::collections::VecDeque;
use std::marker::Model;

/// A transaction: its node's key, the versions that it read, and the pairs that it writes if it commits.
#[derive(Drop)]
pub struct Transaction {
    pub key: Key,
    pub reads: Versions,
    pub pairs: Pairs,
}

/// Transactions in the order of their line, which contracts see as their list.
#[derive(Drop)]
pub struct Waiting {
    transactions: VecDeque<Transaction>,
    // How many pairs all of them write.
    pairs: usize,
}

impl Model for Waiting {
    ghost use Rattle.std.specs.Prelude.{◌≡◌, List};
    ghost use Rattle.part_fold.specs.Waits.{pairs_in};
    ghost use Rattle.part_fold.specs.declared.transaction.Transaction.{Transaction as One};

    ghost Value = { List One };

    ghost view = { λ a. a.transactions.items };

    ghost invariant = { λ a. a.pairs ≡ pairs_in a.transactions.items };
}

impl Waiting {
    /// None waits.
    pub fn new(alloc: Global) -> Self
        ensures { result ≡ [] }
    {
        Waiting {
            transactions: VecDeque::new(alloc),
            pairs: 0,
        }
    }

    /// The first of them.
    pub fn front(&self) -> Option<&Transaction>
        ensures { option_copied result ≡ front_of self.now }
    {
        self.transactions.front()
    }

    /// The key of the first of them.
    pub fn front_key(&self) -> Option<Key>
        ensures { result ≡ front_key self.now }
    {
        match self.front() {
            Some(transaction) => Some(transaction.key),
            None => None,
        }
    }

    /// How many pairs all of them write.
    pub fn pairs(&self) -> usize
        ensures { result ≡ pairs_in self.now }
    {
        self.pairs
    }

    /// One more waits. Without memory they stay as they were.
    pub fn push(&mut self, transaction: Transaction) -> Result<(), AllocError>
        requires { pairs_in self.old + length transaction.pairs < 2 ^ 64 }
        ensures ok { OnOk result (self.new ≡ self.old ++ transaction ∷ []) }
        ensures err { OnErr result (self.new ≡ self.old) }
    {
        let pairs = self.pairs + transaction.pairs.len();
        self.transactions.push_back(transaction)?;
        self.pairs = pairs;
        Ok(())
    }

    /// The first of them, which waits no more.
    pub fn pop(&mut self) -> Option<Transaction>
        ensures first { result ≡ front_of self.old }
        ensures others { self.new ≡ behind self.old }
    {
        let transaction = self.transactions.pop_front()?;
        self.pairs -= transaction.pairs.len();
        Some(transaction)
    }
}
