// The causal map, folded from the played nodes of its colour.
ghost use Rattle.std.specs.Prelude.{◌≡◌, ◌<◌, ◌==◌, ◌++◌, ◌∷◌, [], ℕ, List, length, nat_lt, count_by, IfOk, OnOk, OnErr, slice_set};
ghost use Rattle.log_node.specs.Vectors.{at};
ghost use Rattle.object_form.specs.Readings.{form_of};
ghost use Rattle.object_fold.specs.Causal.{ChainNode, IsCausalAnswer};
ghost use Rattle.object_fold.specs.Pasts.{MayPlayNext, at_once, past_of, past_chain};
ghost use Rattle.object_fold.specs.CausalStates.{IsCausalMap, counts_of, latest_at, not_followed, change_by, latest_with};

use crate::pasts::{at_once, past_of};
use crate::table::Table;
use log_node::{Counts, Form, ListOf, Names, Text};
use object_form::read_form;
use std::alloc::{AllocError, Global};

/// A played write that no other played write of its key follows: its node's region and position in that region's
/// chain, and the value.
#[derive(Drop)]
pub struct LatestWrite {
    pub region: u8,
    pub position: u64,
    pub value: Text,
}

/// The causal map: the writes of each key that no other one follows, after the nodes that were played.
#[derive(Drop)]
pub struct CausalMap {
    pasts: [ListOf<Counts>; 4],
    latest: Table<ListOf<LatestWrite>>,
}

impl LatestWrite {
    fn copied(&self, alloc: Global) -> Result<LatestWrite, AllocError>
        ensures { IfOk result (λ write. write ≡ self.now) }
    {
        let value = Text::copied(alloc, self.value.as_bytes())?;
        Ok(LatestWrite {
            region: self.region,
            position: self.position,
            value,
        })
    }

    // A node with this vector follows it.
    fn is_followed(&self, past: Counts) -> bool
        ensures { result ≡ nat_lt self.now.position (at past self.now.region) }
    {
        match past.0.get(self.region as usize) {
            Some(count) => self.position < *count,
            None => false,
        }
    }
}

// Those of some writes that a node with this vector does not follow.
fn not_followed(
    alloc: Global,
    past: Counts,
    writes: &[LatestWrite],
) -> Result<ListOf<LatestWrite>, AllocError>
    ensures { IfOk result (λ left. left ≡ not_followed past writes.now) }
{
    let mut left = ListOf::new(alloc);
    for write in writes {
        if !write.is_followed(past) {
            left.push(write.copied(alloc)?)?;
        }
    }
    Ok(left)
}

impl CausalMap {
    /// The map before any node.
    pub fn new(alloc: Global) -> Self
        ensures { IsCausalMap result [] }
    {
        CausalMap {
            pasts: [
                ListOf::new(alloc),
                ListOf::new(alloc),
                ListOf::new(alloc),
                ListOf::new(alloc),
            ],
            latest: Table::new(alloc),
        }
    }

    // How many nodes of a region's chain were fed.
    fn fed(&self, region: u8) -> u64
        requires { region < 4 }
        ensures { result ≡ length (past_chain self.now.pasts region) }
    {
        self.pasts[region as usize].len() as u64
    }

    /// How many nodes of each region's chain were fed.
    pub fn counts(&self) -> Counts
        ensures value { result ≡ counts_of self.now }
        ensures fed { (played : List ChainNode) → IsCausalMap self.now played → (region : ℕ) → region < 4
            → at result region ≡ count_by (λ node. node.region == region) played }
    {
        Counts([self.fed(0), self.fed(1), self.fed(2), self.fed(3)])
    }

    fn latest_of(&self, key: &[u8]) -> &[LatestWrite]
        ensures { result.now ≡ latest_at self.now.latest.entries key.now }
    {
        match self.latest.get(key) {
            Some(writes) => writes.as_slice(),
            None => &[],
        }
    }

    // The key that a node with this place, vector and text writes, and the latest writes of it then.
    fn change(
        &self,
        alloc: Global,
        region: u8,
        position: u64,
        past: Counts,
        form: Form,
    ) -> Result<Option<(Text, ListOf<LatestWrite>)>, AllocError>
        ensures { IfOk result (λ change. change ≡ change_by self.now.latest.entries region position past form) }
    {
        match form {
            Form::Causal { key, value } => {
                let mut left = not_followed(alloc, past, self.latest_of(key.as_bytes()))?;
                left.push(LatestWrite {
                    region,
                    position,
                    value,
                })?;
                Ok(Some((key, left)))
            }
            Form::Put {
                key: _key,
                value: _value,
            } => Ok(None),
            Form::Delete { key: _key } => Ok(None),
            Form::PutAll { pairs: _pairs } => Ok(None),
            Form::Transaction {
                reads: _reads,
                writes: _writes,
            } => Ok(None),
            Form::Enqueue { value: _value } => Ok(None),
            Form::Dequeue => Ok(None),
            Form::Plain => Ok(None),
        }
    }

    // Takes a node over: its vector, and the latest writes of the key that it writes.
    fn take(
        &mut self,
        region: u8,
        past: Counts,
        change: Option<(Text, ListOf<LatestWrite>)>,
    ) -> Result<(), AllocError>
        requires { region < 4 }
        ensures pasts { OnOk result (self.new.pasts
            ≡ slice_set self.old.pasts region (past_chain self.old.pasts region ++ past ∷ [])) }
        ensures latest { (other : List ℕ) → OnOk result (latest_at self.new.latest.entries other
            ≡ latest_with self.old.latest.entries change other) }
        ensures pasts_stay { OnErr result (self.new.pasts ≡ self.old.pasts) }
        ensures latest_stays { OnErr result (self.new.latest.entries ≡ self.old.latest.entries) }
    {
        self.latest.reserve(1)?;
        self.pasts[region as usize].push(past)?;
        if let Some((key, writes)) = change {
            self.latest.set(key, writes);
        }
        Ok(())
    }

    /// Feeds the next node of a region's chain, after the nodes that it needs. At an error the map is as before.
    pub fn feed(
        &mut self,
        alloc: Global,
        region: u8,
        needs: Counts,
        text: &Text,
    ) -> Result<(), AllocError>
        requires { region < 4 }
        ensures ok { (played : List ChainNode) (node : ChainNode) → node.region ≡ region → node.needs ≡ needs
            → node.text ≡ text.now → MayPlayNext played node → IsCausalMap self.old played
            → OnOk result (IsCausalMap self.new (played ++ node ∷ [])) }
        ensures err { (played : List ChainNode) → IsCausalMap self.old played
            → OnErr result (IsCausalMap self.new played) }
    {
        let position = self.fed(region);
        let past = past_of(&self.pasts, at_once(region as usize, position, needs));
        let form = read_form(alloc, text)?;
        let change = self.change(alloc, region, position, past, form)?;
        self.take(region, past, change)
    }

    /// The values of the played writes of a key that no other played write of it follows, sorted by their bytes.
    pub fn get(&self, alloc: Global, key: &[u8]) -> Result<Names, AllocError>
        ensures { (played : List ChainNode) → IsCausalMap self.now played
            → IfOk result (λ values. IsCausalAnswer played key.now values) }
    {
        let mut values = Vec::new(alloc);
        for write in self.latest_of(key) {
            values.push(Text::copied(alloc, write.value.as_bytes())?)?;
        }
        values.sort_unstable_by(|a, b| a.as_bytes().cmp(b.as_bytes()));
        Ok(ListOf::from(values))
    }
}
