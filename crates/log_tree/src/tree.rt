// The tree over a client.
ghost use Rattle.std.specs.Prelude.{◌≡◌, List, length, map, None, IfOk, IfErr};
ghost use Rattle.lawful_run.specs.Asks.{rising};
ghost use Rattle.object_fold.specs.Nodes.{ObjectNode};
ghost use Rattle.append_core.specs.declared.stood.Point.{Point};
ghost use Rattle.log_client.specs.Clients.{IsClient};
ghost use Rattle.log_client.specs.Reading.{RestsOn};
ghost use Rattle.log_client.specs.StampedReads.{ReadHidden};
ghost use Rattle.log_client.specs.Objects.{HasColoursOf, RefusesAway};
ghost use Rattle.region_fold.specs.Reads.{ShowsEach};
ghost use Rattle.tree_fold.specs.Changes.{IsChange, change_keys, change_text};
ghost use Rattle.tree_fold.specs.Trees.{NamesAfter, ValueAfter};
ghost use Rattle.tree_fold.specs.TreeStates.{IsTree};
ghost use Rattle.log_tree.specs.Trees.{IsTreeOf, IsSameTree, change_colours, Changes, ChangeRefused, Looks, TreeRefused};

use fuzzy_io::Gate;
use log_client::{Appended, Client, ObjectFault, StampedRead, Store, key_shards};
use log_node::{ColourList, Names, Text};
use region_fold::RegionFold;
use std::alloc::{AllocError, Global};
use std::sync::Wait;
use tree_fold::{Change, Path, Told, TreeFold, change_keys, reads_back, write_change};

/// A tree of names at a home region, for one client, with which all its calls are made. Its changes stand in the shards of the
/// first names of their paths. What is folded of the nodes that the client read is kept.
#[derive(Drop)]
pub struct LogTree {
    pub(crate) home: u8,
    pub(crate) colours: ColourList,
    pub(crate) fold: RegionFold<TreeFold>,
}

// A copy of the value of a path, if it is there and not the root.
fn copied_value(alloc: Global, tree: &TreeFold, path: &Path) -> Result<Option<Text>, AllocError>
    ensures { (nodes : List ObjectNode) → IsTree tree.now nodes
        → IfOk result (λ value. ValueAfter path.now value nodes) }
{
    match tree.value(path) {
        Some(value) => Ok(Some(Text::copied(alloc, value.as_bytes())?)),
        None => Ok(None),
    }
}

impl LogTree {
    /// The tree of these colours at a home, of which nothing is folded. Takes no memory.
    pub fn open(alloc: Global, home: u8, colours: ColourList) -> LogTree
        ensures of { (result.home ≡ home) × (result.colours ≡ colours) }
        ensures last { result.fold.kept.last ≡ None }
        ensures tree { (client : Client) → HasColoursOf client colours → IsTreeOf client result }
    {
        LogTree {
            home,
            colours,
            fold: RegionFold::open(alloc),
        }
    }

    /// How many colours the tree was opened with.
    pub fn colour_count(&self) -> usize
        ensures { result ≡ length self.now.colours }
    {
        self.colours.len()
    }

    // Reads all colours, where the client is of the home.
    fn look<R: Wait>(
        &mut self,
        rt: &R,
        alloc: Global,
        client: &mut Client,
        store: &Store,
    ) -> Result<StampedRead, ObjectFault>
        requires client { IsClient store.now client.old }
        requires tree { IsTreeOf client.old self.old }
        ensures client { RestsOn store.now client.old client.new }
        ensures tree { IsTreeOf client.new self.new }
        ensures same { IsSameTree self.old self.new }
        ensures ok { IfOk result (λ read. Looks store.now client.old client.new self.old read
            (IsTree self.new.fold.kept.state)) }
        ensures shows { IfOk result (ShowsEach client.old client.new self.old.colours) }
        ensures hidden { IfOk result (λ read. ReadHidden store.now client.old client.new
            (rising self.old.colours)) }
        ensures away { RefusesAway self.old.home client.old result }
        ensures err { IfErr result (TreeRefused store.now client.old client.new self.old) }
    {
        if client.region() != self.home {
            return Err(ObjectFault::NotHome { home: self.home });
        }
        match self
            .fold
            .read(rt, alloc, client, store, self.colours.as_slice())
        {
            Ok(read) => Ok(read),
            Err(fault) => Err(ObjectFault::Sync(fault)),
        }
    }

    /// Makes a change of the tree: its node stands, a stamped read of all colours follows, and the nodes before it tell what
    /// became of it. Waits as an append and a read do.
    pub fn change<R: Wait, G: Gate>(
        &mut self,
        rt: &R,
        alloc: Global,
        client: &mut Client,
        store: &Store,
        gate: &G,
        change: &Change,
    ) -> Result<(Told, Appended, StampedRead), ObjectFault>
        requires client { IsClient store.now client.old }
        requires tree { IsTreeOf client.old self.old }
        requires change { IsChange change.now }
        ensures client { RestsOn store.now client.old client.new }
        ensures tree { IsTreeOf client.new self.new }
        ensures same { IsSameTree self.old self.new }
        ensures ok { IfOk result (λ r. Changes store.now client.old client.new self.old change.now
            r.0 r.1 r.2) }
        ensures points { IfOk result (λ r. map (λ (p : Point). p.colour) r.1.stood.points
            ≡ change_colours self.old change.now) }
        ensures shows { IfOk result (λ r. ShowsEach client.old client.new self.old.colours r.2) }
        ensures away { RefusesAway self.old.home client.old result }
        ensures err { IfErr result (ChangeRefused store.now client.old client.new self.old
            change.now) }
    {
        reads_back();
        if client.region() != self.home {
            return Err(ObjectFault::NotHome { home: self.home });
        }
        let Ok(keys) = change_keys(alloc, change) else {
            return Err(ObjectFault::NoMemory);
        };
        let colours = self.colours.as_slice();
        let set = key_shards(colours, keys.as_slice());
        let Ok(text) = write_change(alloc, change) else {
            return Err(ObjectFault::NoMemory);
        };
        let fold = &mut self.fold;
        match fold.append_and_read(rt, alloc, client, store, gate, colours, set, text) {
            Ok((told, own, read)) => {
                let stamp = own.stood.key.stamp;
                Ok((told.unwrap_or(Told::Done { stamp }), own, read))
            }
            Err(fault) => Err(fault),
        }
    }

    /// The names in a path after all nodes of the tree's colours up to the stamp of a stamped read of these, or nothing where
    /// the path is not there. The read answers the nodes that were not folded before. Waits as the read does; the gate is
    /// for appends alone.
    pub fn list<R: Wait, G: Gate>(
        &mut self,
        rt: &R,
        alloc: Global,
        client: &mut Client,
        store: &Store,
        _gate: &G,
        path: &Path,
    ) -> Result<(Option<Names>, StampedRead), ObjectFault>
        requires client { IsClient store.now client.old }
        requires tree { IsTreeOf client.old self.old }
        ensures client { RestsOn store.now client.old client.new }
        ensures tree { IsTreeOf client.new self.new }
        ensures same { IsSameTree self.old self.new }
        ensures ok { IfOk result (λ r. Looks store.now client.old client.new self.old r.1
            (NamesAfter path.now r.0)) }
        ensures shows { IfOk result (λ r. ShowsEach client.old client.new self.old.colours r.1) }
        ensures away { RefusesAway self.old.home client.old result }
        ensures err { IfErr result (TreeRefused store.now client.old client.new self.old) }
    {
        match self.look(rt, alloc, client, store) {
            Ok(read) => match self.fold.state().names(alloc, path) {
                Ok(names) => Ok((names, read)),
                Err(_) => Err(ObjectFault::NoMemory),
            },
            Err(fault) => Err(fault),
        }
    }

    /// The value of a path, if it is there and not the root, as `list` gives names.
    pub fn value<R: Wait, G: Gate>(
        &mut self,
        rt: &R,
        alloc: Global,
        client: &mut Client,
        store: &Store,
        _gate: &G,
        path: &Path,
    ) -> Result<(Option<Text>, StampedRead), ObjectFault>
        requires client { IsClient store.now client.old }
        requires tree { IsTreeOf client.old self.old }
        ensures client { RestsOn store.now client.old client.new }
        ensures tree { IsTreeOf client.new self.new }
        ensures same { IsSameTree self.old self.new }
        ensures ok { IfOk result (λ r. Looks store.now client.old client.new self.old r.1
            (ValueAfter path.now r.0)) }
        ensures shows { IfOk result (λ r. ShowsEach client.old client.new self.old.colours r.1) }
        ensures away { RefusesAway self.old.home client.old result }
        ensures err { IfErr result (TreeRefused store.now client.old client.new self.old) }
    {
        match self.look(rt, alloc, client, store) {
            Ok(read) => match copied_value(alloc, self.fold.state(), path) {
                Ok(value) => Ok((value, read)),
                Err(_) => Err(ObjectFault::NoMemory),
            },
            Err(fault) => Err(fault),
        }
    }
}
