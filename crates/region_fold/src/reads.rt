// The reads of an object of which what is folded is kept.
ghost use Rattle.std.specs.Prelude.{◌≡◌, [], List, IfOk, IfErr, map, length};
ghost use Rattle.log_node.specs.Sets.{members};
ghost use Rattle.lawful_run.specs.Asks.{rising};
ghost use Rattle.object_fold.specs.Nodes.{ObjectNode};
ghost use Rattle.append_core.specs.declared.stood.Point.{Point};
ghost use Rattle.log_client.specs.Appends.{AreColoursOf};
ghost use Rattle.log_client.specs.Calls.{IsExplained};
ghost use Rattle.log_client.specs.Clients.{IsClient};
ghost use Rattle.log_client.specs.Reading.{RestsOn};
ghost use Rattle.log_client.specs.StampedReads.{ReadHidden, ReadRefused};
ghost use Rattle.log_client.specs.Objects.{HasColoursOf};
ghost use Rattle.region_fold.specs.Reads.{AreOfObject, AreWriters, Fetches, KeepsFold, ReadsNodes, AnswersOwnNode, ShowsEach, TellsOwn, TellRefused};

use crate::fold::RegionFold;
use fuzzy_io::Gate;
use log_client::{Appended, Client, ObjectFault, StampedRead, Store, SyncFault, reads_go_on};
use log_node::{Colours, Key, Text};
use object_fold::NodeFold;
use std::alloc::{AllocError, Global};
use std::sync::Wait;

// Reads the colours of an object, and answers the nodes behind the last key.
fn fetch<R: Wait>(
    rt: &R,
    alloc: Global,
    client: &mut Client,
    store: &Store,
    colours: &[u8],
    last: Option<Key>,
) -> Result<StampedRead, SyncFault>
    requires client { IsClient store.now client.old }
    requires colours { HasColoursOf client.old colours.now }
    ensures client { RestsOn store.now client.old client.new }
    ensures ok { IfOk result (Fetches store.now client.old client.new (rising colours.now) last) }
    ensures shows { IfOk result (ShowsEach client.old client.new colours.now) }
    ensures hidden { IfOk result (λ read. ReadHidden store.now client.old client.new
        (rising colours.now)) }
    ensures err { IfErr result (ReadRefused store.now client.old client.new (rising colours.now)) }
{
    client.read_on(rt, alloc, store, Colours::of(colours), last)
}

impl<F: NodeFold> RegionFold<F> {
    /// Reads all nodes of the object's colours up to the stamp of a stamped read of these, and folds them. The read answers those
    /// that were not folded before. Waits as the read does.
    pub fn read<R: Wait>(
        &mut self,
        rt: &R,
        alloc: Global,
        client: &mut Client,
        store: &Store,
        colours: &[u8],
    ) -> Result<StampedRead, SyncFault>
        requires client { IsClient store.now client.old }
        requires colours { HasColoursOf client.old colours.now }
        requires kept { KeepsFold F.Holds client.old (rising colours.now) self.old.kept }
        ensures client { RestsOn store.now client.old client.new }
        ensures kept { KeepsFold F.Holds client.new (rising colours.now) self.new.kept }
        ensures ok { IfOk result (λ read. ReadsNodes store.now client.old client.new colours.now
            self.old.kept.last read
            (λ nodes. F.Holds self.new.kept.state nodes × AreWriters nodes)) }
        ensures shows { IfOk result (ShowsEach client.old client.new colours.now) }
        ensures hidden { IfOk result (λ read. ReadHidden store.now client.old client.new
            (rising colours.now)) }
        ensures err { IfErr result (ReadRefused store.now client.old client.new
            (rising colours.now)) }
    {
        reads_go_on();
        match fetch(rt, alloc, client, store, colours, self.kept.last) {
            Ok(read) => match self.kept.fold_on(alloc, read.items.as_slice()) {
                Ok(()) => Ok(read),
                Err(_) => Err(SyncFault::NoMemory),
            },
            Err(fault) => Err(fault),
        }
    }

    /// Reads all nodes of the object's colours up to the stamp of a stamped read of these, and gives what the node with this key
    /// is told behind those before it, if it is among them. The read answers those that were not folded before; where that node
    /// was, it answers all, and they are folded anew up to it. Waits as the read does.
    pub fn read_behind<R: Wait>(
        &mut self,
        rt: &R,
        alloc: Global,
        client: &mut Client,
        store: &Store,
        colours: &[u8],
        own: Key,
    ) -> Result<(Option<F::Told>, StampedRead), SyncFault>
        requires client { IsClient store.now client.old }
        requires colours { HasColoursOf client.old colours.now }
        requires kept { KeepsFold F.Holds client.old (rising colours.now) self.old.kept }
        ensures client { RestsOn store.now client.old client.new }
        ensures kept { KeepsFold F.Holds client.new (rising colours.now) self.new.kept }
        ensures ok { IfOk result (λ r. AnswersOwnNode F.told store.now client.old client.new
            (rising colours.now) self.old.kept.last own r.0 r.1) }
        ensures shows { IfOk result (λ r. ShowsEach client.old client.new colours.now r.1) }
        ensures err { IfErr result (ReadRefused store.now client.old client.new
            (rising colours.now)) }
    {
        reads_go_on();
        self.kept.stay_before(alloc, own);
        match fetch(rt, alloc, client, store, colours, self.kept.last) {
            Ok(read) => match self.kept.told(alloc, read.items.as_slice(), own) {
                Ok(told) => Ok((told, read)),
                Err(_) => Err(SyncFault::NoMemory),
            },
            Err(fault) => Err(fault),
        }
    }

    /// Appends a node with the text to some of the object's colours, and then reads all of them: the answer is what the node is
    /// told behind those before it in the order of the region. Waits as an append and a read do.
    pub fn append_and_read<R: Wait, G: Gate>(
        &mut self,
        rt: &R,
        alloc: Global,
        client: &mut Client,
        store: &Store,
        gate: &G,
        colours: &[u8],
        set: Colours,
        text: Text,
    ) -> Result<(Option<F::Told>, Appended, StampedRead), ObjectFault>
        requires client { IsClient store.now client.old }
        requires colours { HasColoursOf client.old colours.now }
        requires kept { KeepsFold F.Holds client.old (rising colours.now) self.old.kept }
        requires set { AreColoursOf store.now set }
        requires own { AreOfObject colours.now (members set) }
        ensures client { RestsOn store.now client.old client.new }
        ensures kept { KeepsFold F.Holds client.new (rising colours.now) self.new.kept }
        ensures ok { IfOk result (λ r. IsExplained store.now client.old client.new
            (TellsOwn F.told set text (rising colours.now) self.old.kept.last r.0 r.1 r.2)) }
        ensures points { IfOk result (λ r.
            map (λ (p : Point). p.colour) r.1.stood.points ≡ members set) }
        ensures shows { IfOk result (λ r. ShowsEach client.old client.new colours.now r.2) }
        ensures err { IfErr result (TellRefused store.now client.old client.new
            (members set) text colours.now) }
    {
        reads_go_on();
        match client.append(rt, alloc, store, gate, set, text, None) {
            Ok(own) => match self.read_behind(rt, alloc, client, store, colours, own.stood.key) {
                Ok((told, read)) => Ok((told, own, read)),
                Err(why) => Err(ObjectFault::Unread {
                    stamp: own.stood.key.stamp,
                    why,
                }),
            },
            Err(fault) => Err(ObjectFault::Append(fault)),
        }
    }
}
