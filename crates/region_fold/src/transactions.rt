// The transactional map.
ghost use Rattle.std.specs.Prelude.{◌≡◌, List, length, map, Some, None, Err, IfOk, IfErr, IfSome};
ghost use Rattle.std.specs.Option.{option_map};
ghost use Rattle.object_form.specs.Forms.{ArePairs, AreVersions};
ghost use Rattle.lawful_run.specs.Asks.{rising};
ghost use Rattle.object_fold.specs.Nodes.{ObjectNode};
ghost use Rattle.object_fold.specs.States.{IsTxState};
ghost use Rattle.object_fold.specs.Transactions.{CanRead};
ghost use Rattle.append_core.specs.declared.stood.Point.{Point};
ghost use Rattle.log_client.specs.Calls.{AnswersEach};
ghost use Rattle.log_client.specs.Clients.{IsClient};
ghost use Rattle.log_client.specs.Reading.{RestsOn, raised_colours, synced_colours};
ghost use Rattle.log_client.specs.Objects.{HasColoursOf, RefusesAway};
ghost use Rattle.region_fold.specs.Transactions.{AreFound, IsTxMapOf, IsSameTx, ReadsKeys, KeysRefused, Commits, CommitRefused, transaction_colours, transaction_text};

use crate::fold::RegionFold;
use fuzzy_io::Gate;
use log_client::{
    Appended, Client, ObjectFault, StampedRead, Store, copied_pairs, transaction_shards,
};
use log_node::{ColourList, Form, Keys, Pairs, Text, Versions};
use object_fold::{TxState, Values, Verdict};
use object_form::{reads_back, write_form};
use std::alloc::{AllocError, Global};
use std::sync::Wait;

/// What a read found, on which a commit rests: its stamp, and for each key the key of its last committed writer, or none.
#[derive(Drop)]
pub struct Tx {
    pub stamp: u64,
    pub versions: Versions,
}

/// A transactional map at a home region, for one client, with which all its calls are made. What is folded of the nodes that it
/// read is kept.
#[derive(Drop)]
pub struct TxMap {
    pub(crate) home: u8,
    pub(crate) colours: ColourList,
    pub(crate) fold: RegionFold<TxState>,
}

// The text of a transaction that read these versions.
fn text_of(alloc: Global, reads: Versions, writes: &Pairs) -> Result<Text, AllocError>
    requires versions { AreVersions reads }
    requires writes { ArePairs 2 writes.now }
    ensures { IfOk result (λ text. text ≡ transaction_text reads writes.now) }
{
    let writes = copied_pairs(alloc, writes.as_slice())?;
    write_form(alloc, &Form::Transaction { reads, writes })
}

impl TxMap {
    /// The map of these colours at a home, of which nothing is folded. Takes no memory.
    pub fn open(alloc: Global, home: u8, colours: ColourList) -> TxMap
        ensures of { (result.home ≡ home) × (result.colours ≡ colours) }
        ensures last { result.fold.kept.last ≡ None }
        ensures map { (client : Client) → HasColoursOf client colours → IsTxMapOf client result }
    {
        TxMap {
            home,
            colours,
            fold: RegionFold::open(alloc),
        }
    }

    /// How many colours the map was opened with.
    pub fn colour_count(&self) -> usize
        ensures { result ≡ length self.now.colours }
    {
        self.colours.len()
    }

    // What is held of keys, as of a stamp.
    fn found(&self, alloc: Global, stamp: u64, keys: &Keys) -> Result<(Values, Tx), AllocError>
        ensures found { IfOk result (λ r. (r.1.stamp ≡ stamp) × ((nodes : List ObjectNode)
            → IsTxState self.now.fold.kept.state nodes → AreFound keys.now r.0 r.1 nodes)) }
    {
        let writes = self.fold.state();
        let values = writes.values(alloc, keys)?;
        let versions = writes.versions(alloc, keys)?;
        Ok((values, Tx { stamp, versions }))
    }

    /// The values of keys after all nodes of the map's colours up to the stamp of a stamped read of these, and what a commit may
    /// rest on; of its nodes it answers those that were not folded before. Waits as the read does; the gate is for appends
    /// alone.
    pub fn read<R: Wait, G: Gate>(
        &mut self,
        rt: &R,
        alloc: Global,
        client: &mut Client,
        store: &Store,
        _gate: &G,
        keys: &Keys,
    ) -> Result<(Values, Tx, StampedRead), ObjectFault>
        requires client { IsClient store.now client.old }
        requires map { IsTxMapOf client.old self.old }
        ensures client { RestsOn store.now client.old client.new }
        ensures map { IsTxMapOf client.new self.new }
        ensures same { IsSameTx self.old self.new }
        ensures ok { IfOk result (λ r. ReadsKeys store.now client.old client.new
            self.old.colours self.old.fold.kept.last keys.now r.0 r.1 r.2) }
        ensures many { IfOk result (λ r. length r.0 ≡ length keys.now) }
        ensures versions { CanRead keys.now → IfOk result (λ r. AreVersions r.1.versions) }
        ensures raises { IfOk result (λ r. raised_colours r.2.raises ≡ rising self.old.colours) }
        ensures syncs { IfOk result (λ r. synced_colours r.2.syncs ≡ rising self.old.colours) }
        ensures played { IfOk result (λ r. AnswersEach client.old client.new r.2.syncs) }
        ensures away { RefusesAway self.old.home client.old result }
        ensures err { IfErr result (KeysRefused self.old.home store.now client.old client.new
            (rising self.old.colours)) }
    {
        if client.region() != self.home {
            return Err(ObjectFault::NotHome { home: self.home });
        }
        match self
            .fold
            .read(rt, alloc, client, store, self.colours.as_slice())
        {
            Ok(read) => match self.found(alloc, read.stamp, keys) {
                Ok((values, tx)) => Ok((values, tx, read)),
                Err(_) => Err(ObjectFault::NoMemory),
            },
            Err(fault) => Err(ObjectFault::Sync(fault)),
        }
    }

    /// Commits these writes, which rest on a read, or finds that a key that was read has another last committed writer by then:
    /// its node stands, a stamped read of all colours follows, and the nodes before it rule. Without a read it is refused. Waits
    /// as an append and a read do.
    pub fn commit<R: Wait, G: Gate>(
        &mut self,
        rt: &R,
        alloc: Global,
        client: &mut Client,
        store: &Store,
        gate: &G,
        tx: Option<Tx>,
        writes: &Pairs,
    ) -> Result<(Verdict, Appended, StampedRead), ObjectFault>
        requires client { IsClient store.now client.old }
        requires map { IsTxMapOf client.old self.old }
        requires versions { IfSome tx (λ t. AreVersions t.versions) }
        requires writes { ArePairs 2 writes.now }
        ensures client { RestsOn store.now client.old client.new }
        ensures map { IsTxMapOf client.new self.new }
        ensures same { IsSameTx self.old self.new }
        ensures ok { IfOk result (λ r. (rests : Tx) × (tx ≡ Some rests)
            × Commits store.now client.old client.new self.old.colours self.old.fold.kept.last
            rests.versions writes.now r.0 r.1 r.2) }
        ensures points { IfOk result (λ r. (rests : Tx) × (tx ≡ Some rests)
            × (map (λ (p : Point). p.colour) r.1.stood.points
            ≡ transaction_colours self.old.colours rests.versions writes.now)) }
        ensures raises { IfOk result (λ r. raised_colours r.2.raises ≡ rising self.old.colours) }
        ensures syncs { IfOk result (λ r. synced_colours r.2.syncs ≡ rising self.old.colours) }
        ensures played { IfOk result (λ r. AnswersEach client.old client.new r.2.syncs) }
        ensures away { RefusesAway self.old.home client.old result }
        ensures no_tx { client.old.region ≡ self.old.home → tx ≡ None
            → result ≡ Err ObjectFault.NoTx }
        ensures err { IfErr result (CommitRefused self.old.home store.now client.old client.new
            self.old.colours (option_map (λ (t : Tx). t.versions) tx) writes.now) }
    {
        reads_back();
        if client.region() != self.home {
            return Err(ObjectFault::NotHome { home: self.home });
        }
        let Some(tx) = tx else {
            return Err(ObjectFault::NoTx);
        };
        let colours = self.colours.as_slice();
        let set = transaction_shards(colours, tx.versions.as_slice(), writes.as_slice());
        let Ok(text) = text_of(alloc, tx.versions, writes) else {
            return Err(ObjectFault::NoMemory);
        };
        let fold = &mut self.fold;
        match fold.append_and_read(rt, alloc, client, store, gate, colours, set, text) {
            Ok((told, own, read)) => {
                let stamp = own.stood.key.stamp;
                Ok((told.unwrap_or(Verdict::Committed { stamp }), own, read))
            }
            Err(fault) => Err(fault),
        }
    }
}
