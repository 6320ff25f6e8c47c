// The transactional map, folded from the nodes of its colours in rising key.
ghost use Rattle.std.specs.Prelude.{◌≡◌, ◌≤◌, ◌++◌, ◌∷◌, [], ℕ, List, length, map, IfOk, OnOk, OnErr};
ghost use Rattle.std.specs.List.{find};
ghost use Rattle.std.specs.Option.{option_copied};
ghost use Rattle.object_form.specs.Readings.{form_of};
ghost use Rattle.object_fold.specs.Nodes.{ObjectNode};
ghost use Rattle.object_fold.specs.Tables.{value_at};
ghost use Rattle.object_fold.specs.Transactions.{Write, is_same_writer, stamp_of, value_of, writer_of, writes_after, writes_with, values_after, versions_after, verdict_on, form_verdict, ruled, ruling};
ghost use Rattle.object_fold.specs.States.{HoldsWrites, IsTxState, value_in, writer_in, differs_in, written_pairs};

use crate::fold::NodeFold;
use crate::several_keys::Values;
use crate::table::Table;
use crate::verdict::Verdict;
use log_node::{Form, Key, Keys, ListOf, Pair, Pairs, Text, Version, Versions};
use object_form::read_form;
use std::alloc::{AllocError, Global};

/// A key's value, and the key of the transaction that wrote it.
#[derive(Drop)]
pub struct Written {
    pub value: Text,
    pub writer: Key,
}

/// The transactional map: what the committed transactions among the nodes that were fed have written.
#[derive(Drop)]
pub struct TxState {
    written: Table<Written>,
}

fn same_writer(a: Option<Key>, b: Option<Key>) -> bool
    ensures { result ≡ is_same_writer a b }
{
    a == b
}

fn stamp_of(writer: Option<Key>) -> u64
    ensures { result ≡ stamp_of writer }
{
    match writer {
        None => 0,
        Some(key) => key.stamp,
    }
}

impl TxState {
    /// The map before any node.
    pub fn new(alloc: Global) -> Self
        ensures { IsTxState result [] }
    {
        TxState {
            written: Table::new(alloc),
        }
    }

    fn value_in(&self, key: &[u8]) -> Option<&Text>
        ensures { option_copied result ≡ value_in self.now.written.entries key.now }
    {
        match self.written.get(key) {
            Some(written) => Some(&written.value),
            None => None,
        }
    }

    fn writer_in(&self, key: &[u8]) -> Option<Key>
        ensures { result ≡ writer_in self.now.written.entries key.now }
    {
        match self.written.get(key) {
            Some(written) => Some(written.writer),
            None => None,
        }
    }

    // The first key read that has another last committed writer.
    fn first_conflict<'a>(&self, reads: &'a [Version]) -> Option<&'a Version>
        ensures { option_copied result ≡ find (differs_in self.now.written.entries) reads.now }
    {
        reads.iter().find(|read| !same_writer(read.writer, self.writer_in(read.key.as_bytes())))
    }

    fn verdict(&self, alloc: Global, stamp: u64, reads: &[Version]) -> Result<Verdict, AllocError>
        ensures { (writes : List Write) → HoldsWrites self.now.written.entries writes
            → IfOk result (λ verdict. verdict ≡ verdict_on writes stamp reads.now) }
    {
        match self.first_conflict(reads) {
            None => Ok(Verdict::Committed { stamp }),
            Some(read) => Ok(Verdict::Conflict {
                key: Text::copied(alloc, read.key.as_bytes())?,
                stamp: stamp_of(self.writer_in(read.key.as_bytes())),
            }),
        }
    }

    // The writes of a committed transaction, from left to right.
    fn write_all(&mut self, writer: Key, pairs: Pairs)
        requires { length pairs ≤ self.old.written.spare }
        ensures { (key : List ℕ) → value_at self.new.written.entries key
            ≡ written_pairs writer key (value_at self.old.written.entries key) pairs }
    {
        for Pair { key, value } in pairs.into_vec() {
            self.written.set(key, Written { value, writer });
        }
    }

    // The verdict on a transaction, whose writes are taken over where it commits.
    #[tactic(auto, using(crate::proofs::TxLemmas::written_is))]
    fn rule(
        &mut self,
        alloc: Global,
        key: Key,
        reads: &[Version],
        pairs: Pairs,
    ) -> Result<Verdict, AllocError>
        ensures verdict { (writes : List Write) → HoldsWrites self.old.written.entries writes
            → IfOk result (λ verdict. verdict ≡ verdict_on writes key.stamp reads.now) }
        ensures ok { (writes : List Write) → HoldsWrites self.old.written.entries writes
            → IfOk result (λ verdict. HoldsWrites self.new.written.entries (ruled key writes verdict pairs)) }
        ensures err { OnErr result (self.new.written.entries ≡ self.old.written.entries) }
    {
        let verdict = self.verdict(alloc, key.stamp, reads)?;
        match &verdict {
            Verdict::Committed { stamp: _stamp } => {
                self.written.reserve(pairs.len())?;
                self.write_all(key, pairs);
            }
            Verdict::Conflict {
                key: _key,
                stamp: _stamp,
            } => {}
        }
        Ok(verdict)
    }

    /// Feeds the next node in rising key, and gives the verdict on it if it is a transaction. At an error the map is as
    /// before.
    pub fn feed(
        &mut self,
        alloc: Global,
        key: Key,
        text: &Text,
    ) -> Result<Option<Verdict>, AllocError>
        ensures verdict { (nodes : List ObjectNode) → IsTxState self.old nodes
            → IfOk result (λ verdict. verdict ≡ form_verdict key (writes_after nodes) (form_of text.now)) }
        ensures ok { (nodes : List ObjectNode) (node : ObjectNode) → node.key ≡ key → node.text ≡ text.now
            → IsTxState self.old nodes → OnOk result (IsTxState self.new (nodes ++ node ∷ [])) }
        ensures err { (nodes : List ObjectNode) → IsTxState self.old nodes → OnErr result (IsTxState self.new nodes) }
    {
        match read_form(alloc, text)? {
            Form::Transaction { reads, writes } => {
                let verdict = self.rule(alloc, key, reads.as_slice(), writes)?;
                Ok(Some(verdict))
            }
            Form::Put {
                key: _key,
                value: _value,
            } => Ok(None),
            Form::Delete { key: _key } => Ok(None),
            Form::PutAll { pairs: _pairs } => Ok(None),
            Form::Enqueue { value: _value } => Ok(None),
            Form::Dequeue => Ok(None),
            Form::Causal {
                key: _key,
                value: _value,
            } => Ok(None),
            Form::Plain => Ok(None),
        }
    }

    /// A key's value.
    pub fn value(&self, key: &[u8]) -> Option<&Text>
        ensures { (nodes : List ObjectNode) → IsTxState self.now nodes
            → option_copied result ≡ value_of (writes_after nodes) key.now }
    {
        self.value_in(key)
    }

    /// The key of a key's last committed writer.
    pub fn writer(&self, key: &[u8]) -> Option<Key>
        ensures { (nodes : List ObjectNode) → IsTxState self.now nodes
            → result ≡ writer_of (writes_after nodes) key.now }
    {
        self.writer_in(key)
    }

    fn copied_value(&self, alloc: Global, key: &[u8]) -> Result<Option<Text>, AllocError>
        ensures { IfOk result (λ value. value ≡ value_in self.now.written.entries key.now) }
    {
        match self.value_in(key) {
            Some(value) => Ok(Some(Text::copied(alloc, value.as_bytes())?)),
            None => Ok(None),
        }
    }

    /// The values of keys. `AllocError` where memory is refused.
    pub fn values(&self, alloc: Global, keys: &Keys) -> Result<Values, AllocError>
        ensures { (nodes : List ObjectNode) → IsTxState self.now nodes
            → IfOk result (λ values. values ≡ values_after nodes keys.now) }
    {
        let mut values = ListOf::new(alloc);
        for key in keys.as_slice() {
            let value = self.copied_value(alloc, key.as_bytes())?;
            values.push(value)?;
        }
        Ok(values)
    }

    /// The versions of keys, for a commit that rests on them. `AllocError` where memory is refused.
    pub fn versions(&self, alloc: Global, keys: &Keys) -> Result<Versions, AllocError>
        ensures { (nodes : List ObjectNode) → IsTxState self.now nodes
            → IfOk result (λ versions. versions ≡ versions_after nodes keys.now) }
    {
        let mut versions = ListOf::new(alloc);
        for key in keys.as_slice() {
            let writer = self.writer_in(key.as_bytes());
            let key = Text::copied(alloc, key.as_bytes())?;
            versions.push(Version { key, writer })?;
        }
        Ok(versions)
    }
}

impl NodeFold for TxState {
    type Told = Verdict;

    ghost Holds = { IsTxState };

    ghost told = { ruling };

    fn open(alloc: Global) -> Self {
        TxState::new(alloc)
    }

    fn feed(
        &mut self,
        alloc: Global,
        key: Key,
        text: &Text,
    ) -> Result<Option<Verdict>, AllocError> {
        self.feed(alloc, key, text)
    }
}
