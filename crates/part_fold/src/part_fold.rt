// The part of the transactional map that one colour's line tells, folded from that line.
ghost use Rattle.std.specs.Prelude.{◌≡◌, ◌≤◌, ◌<◌, ◌+◌, ◌++◌, ◌∷◌, [], ℕ, Bool, List, None, length, IfOk, OnOk, OnErr};
ghost use Rattle.std.specs.List.{list_any, cons_option};
ghost use Rattle.std.specs.Option.{option_copied, option_map};
ghost use Rattle.object_form.specs.Readings.{form_of};
ghost use Rattle.object_fold.specs.Nodes.{ObjectNode};
ghost use Rattle.object_fold.specs.Tables.{value_at};
ghost use Rattle.object_fold.specs.States.{value_in, writer_in, differs_in};
ghost use Rattle.object_fold.specs.Transactions.{is_same_writer};
ghost use Rattle.part_fold.specs.declared.decision.Decision.{Decision as Said};
ghost use Rattle.part_fold.specs.declared.transaction.Transaction.{Transaction as One};
ghost use Rattle.part_fold.specs.Parts.{Part as Seen, own_reads, transaction_by, undecided_after, part_value};
ghost use Rattle.part_fold.specs.Waits.{pairs_in};
ghost use Rattle.part_fold.specs.PartStates.{verdict_in, front_verdict, own_pairs, SettlesFront, IsUnchanged, Holds, StopsAtFront, IsPart};

use crate::decided::Decided;
use crate::decision::{Decision, read_decision};
use crate::part::Part;
use crate::transaction::{Transaction, Waiting};
use log_node::{Form, Key, Node, Pair, Pairs, Text, Version};
use object_fold::{LineFold, Table, Written};
use object_form::read_form;
use std::alloc::{AllocError, Global};

/// The part of the transactional map that one colour's line tells: of the transactions in this line, up to the first of
/// which it is not known whether it commits, those that do, with what they wrote to keys of the colour's shard.
#[derive(Drop)]
pub struct PartFold {
    part: Part,
    decided: Decided,
    written: Table<Written>,
    // From the first transaction on that is not known.
    waiting: Waiting,
}

fn same_writer(a: Option<Key>, b: Option<Key>) -> bool
    ensures { result ≡ is_same_writer a b }
{
    a == b
}

// Writes a pair, if its key is of the shard.
fn write(written: &mut Table<Written>, part: &Part, writer: Key, pair: Pair)
    requires { 0 < written.old.spare }
    ensures values { (key : List ℕ) → value_at written.new.entries key
        ≡ own_pairs part.now writer key (value_at written.old.entries key) (pair ∷ []) }
    ensures room { written.old.spare ≤ written.new.spare + 1 }
{
    let Pair { key, value } = pair;
    if part.has(key.as_bytes()) {
        written.set(key, Written { value, writer });
    }
}

// Writes those pairs whose keys are of the shard, from left to right.
fn write_own(written: &mut Table<Written>, part: &Part, writer: Key, pairs: Pairs)
    requires { length pairs ≤ written.old.spare }
    ensures values { (key : List ℕ) → value_at written.new.entries key
        ≡ own_pairs part.now writer key (value_at written.old.entries key) pairs }
    ensures room { written.old.spare ≤ written.new.spare + length pairs }
{
    for pair in pairs.into_vec() {
        write(written, part, writer, pair);
    }
}

impl PartFold {
    /// The part of the shard at this place of that many colours, counted from 0, before any node.
    pub fn open(alloc: Global, place: u8, colours: u8) -> Self
        requires { place < colours }
        ensures part { result.part ≡ record { place = place; colours = colours } }
        ensures empty { IsPart result [] }
    {
        PartFold {
            part: Part::of(place, colours),
            decided: Decided::new(alloc),
            written: Table::new(alloc),
            waiting: Waiting::new(alloc),
        }
    }

    fn writer_in(&self, key: &[u8]) -> Option<Key>
        ensures { result ≡ writer_in self.now.written.entries key.now }
    {
        match self.written.get(key) {
            Some(written) => Some(written.writer),
            None => None,
        }
    }

    // Some key that was read has another last committed writer.
    fn conflicts(&self, reads: &[Version]) -> bool
        ensures { result ≡ list_any (differs_in self.now.written.entries) reads.now }
    {
        reads.iter().any(|read| !same_writer(read.writer, self.writer_in(read.key.as_bytes())))
    }

    fn reads_own(&self, reads: &[Version]) -> bool
        ensures { result ≡ own_reads self.now.part reads.now }
    {
        reads.iter().all(|read| self.part.has(read.key.as_bytes()))
    }

    // Whether a transaction commits, if that is known, where all before it are.
    fn verdict(&self, transaction: &Transaction) -> Option<bool>
        ensures { result ≡ verdict_in self.now transaction.now }
    {
        let reads = transaction.reads.as_slice();
        if self.reads_own(reads) {
            Some(!self.conflicts(reads))
        } else {
            self.decided.get(transaction.key)
        }
    }

    fn front_verdict(&self) -> Option<bool>
        ensures { result ≡ front_verdict self.now self.now.waiting }
    {
        match self.waiting.front() {
            Some(transaction) => self.verdict(transaction),
            None => None,
        }
    }

    // The first transaction waits no more: it commits, or it doesn't.
    fn settle(&mut self, commits: bool)
        requires { pairs_in self.old.waiting ≤ self.old.written.spare }
        ensures settles { SettlesFront commits self.old self.new }
        ensures room { pairs_in self.new.waiting ≤ self.new.written.spare }
    {
        if let Some(transaction) = self.waiting.pop() {
            let Transaction {
                key,
                reads: _reads,
                pairs,
            } = transaction;
            if commits {
                write_own(&mut self.written, &self.part, key, pairs);
            }
        }
    }

    // Settles the transactions that wait, as far as they are known.
    fn go_on(&mut self)
        requires { pairs_in self.old.waiting ≤ self.old.written.spare }
        ensures part { self.new.part ≡ self.old.part }
        ensures stands { (said : List Said) (txs : List One) → Holds self.old said txs → StopsAtFront self.new said txs }
    {
        while let Some(commits) = self.front_verdict() {
            self.settle(commits);
        }
    }

    fn decide(&mut self, decision: Decision) -> Result<(), AllocError>
        ensures part { self.new.part ≡ self.old.part }
        ensures ok { (said : List Said) (txs : List One) → StopsAtFront self.old said txs
            → OnOk result (StopsAtFront self.new (said ++ decision ∷ []) txs) }
        ensures err { OnErr result (IsUnchanged self.old self.new) }
    {
        self.written.reserve(self.waiting.pairs())?;
        self.decided.add(decision)?;
        self.go_on();
        Ok(())
    }

    fn add(&mut self, transaction: Transaction) -> Result<(), AllocError>
        ensures part { self.new.part ≡ self.old.part }
        ensures ok { (said : List Said) (txs : List One) → StopsAtFront self.old said txs
            → OnOk result (StopsAtFront self.new said (txs ++ transaction ∷ [])) }
        ensures err { OnErr result (IsUnchanged self.old self.new) }
    {
        match self.waiting.pairs().checked_add(transaction.pairs.len()) {
            Some(room) => {
                self.written.reserve(room)?;
                self.waiting.push(transaction)?;
                self.go_on();
                Ok(())
            }
            None => Err(AllocError),
        }
    }

    fn take(&mut self, key: Key, form: Form) -> Result<(), AllocError>
        ensures part { self.new.part ≡ self.old.part }
        ensures ok { (said : List Said) (txs : List One) → StopsAtFront self.old said txs
            → OnOk result (StopsAtFront self.new said (txs ++ cons_option (transaction_by key form) [])) }
        ensures err { OnErr result (IsUnchanged self.old self.new) }
    {
        match form {
            Form::Transaction { reads, writes } => self.add(Transaction {
                key,
                reads,
                pairs: writes,
            }),
            Form::Put {
                key: _key,
                value: _value,
            } => Ok(()),
            Form::Delete { key: _key } => Ok(()),
            Form::PutAll { pairs: _pairs } => Ok(()),
            Form::Enqueue { value: _value } => Ok(()),
            Form::Dequeue => Ok(()),
            Form::Causal {
                key: _key,
                value: _value,
            } => Ok(()),
            Form::Plain => Ok(()),
        }
    }

    /// Feeds the next node of the line of the shard's colour, from position 0 on: its key and its text. At an error the
    /// part is as before.
    pub fn feed(&mut self, alloc: Global, key: Key, text: &Text) -> Result<(), AllocError>
        ensures part { self.new.part ≡ self.old.part }
        ensures ok { (nodes : List ObjectNode) (node : ObjectNode) → node.key ≡ key → node.text ≡ text.now
            → IsPart self.old nodes → OnOk result (IsPart self.new (nodes ++ node ∷ [])) }
        ensures err { (nodes : List ObjectNode) → IsPart self.old nodes → OnErr result (IsPart self.new nodes) }
    {
        match read_decision(text) {
            Some(decision) => self.decide(decision),
            None => {
                let form = read_form(alloc, text)?;
                self.take(key, form)
            }
        }
    }

    fn value_in(&self, key: &[u8]) -> Option<&Text>
        ensures { option_copied result ≡ value_in self.now.written.entries key.now }
    {
        match self.written.get(key) {
            Some(written) => Some(&written.value),
            None => None,
        }
    }

    /// The value of a key of the shard, by what is known; none for any other key.
    #[tactic(auto, using(crate::proofs::RestLemmas::value_told))]
    pub fn value(&self, key: &[u8]) -> Option<&Text>
        ensures { (nodes : List ObjectNode) → IsPart self.now nodes
            → option_copied result ≡ part_value self.now.part nodes key.now }
    {
        self.value_in(key)
    }

    /// The key of the first transaction that is not known; none where all are.
    #[tactic(auto, using(crate::proofs::RestLemmas::undecided_told))]
    pub fn undecided(&self) -> Option<Key>
        ensures { (nodes : List ObjectNode) → IsPart self.now nodes
            → result ≡ undecided_after self.now.part nodes }
    {
        self.waiting.front_key()
    }
}

impl LineFold for PartFold {
    ghost Holds = { IsPart };

    ghost Opened = { Seen };

    ghost opened = { λ fold. fold.part };

    fn feed(&mut self, alloc: Global, key: Key, node: &Node) -> Result<(), AllocError> {
        self.feed(alloc, key, &node.text)
    }
}
