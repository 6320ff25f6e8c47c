// Objects in the order of a region, each folded up to the stamp of the last stamped read of it, so that the next read folds
// only what is new.
ghost use Rattle.std.specs.Prelude.{◌≡◌, ◌≤◌, ◌<◌, ◌++◌, [], ℕ, List, IfOk, OnOk, IsTrue, length, map, false};
ghost use Rattle.std.specs.List.{All, Contains};
ghost use Rattle.log_node.specs.Order.{same_key};
ghost use Rattle.log_node.specs.Sets.{members};
ghost use Rattle.object_fold.specs.Folds.{told_of};
ghost use Rattle.script_text.specs.Fitting.{AreBelow};
ghost use Rattle.world_laws.specs.Worlds.{World as Meant};
ghost use Rattle.world_code.specs.WorldView.{world_of};
ghost use Rattle.script_meaning.specs.Dequeues.{object_node_at};
ghost use Rattle.script_meaning.specs.Stamped.{keys_read};
ghost use Rattle.script_in_order.specs.Folds.{AreThere, first_keys, keys_behind, AreReadUpTo, IsLinesFold};
ghost use Rattle.script_in_order.specs.Transacting.{AreOfLines, AreOthers, found_with};

use crate::folds::{FirstNodes, node_of};
use crate::gets::nodes_up_to;
use crate::stamped::keys_read;
use log_node::{Colours, Key};
use object_fold::{KeptFold, NodeFold};
use playback::with_line;
use std::alloc::{AllocError, Global};
use world_code::World;

/// The nodes that a stamped read of a client has: those of the own lines of these colours at its home up to a stamp.
#[derive(Clone, Copy)]
pub struct LinesRead {
    pub client: u8,
    pub colours: Colours,
    pub stamp: u64,
}

/// An object after the first nodes of some lines: all of their nodes up to a stamp, when they were folded.
#[derive(Drop)]
pub struct LinesFold<F> {
    pub kept: KeptFold<F>,
    firsts: Vec<FirstNodes>,
    stamp: u64,
}

// The first nodes of each line that a read has.
fn firsts_of(alloc: Global, world: &World, read: LinesRead) -> Result<Vec<FirstNodes>, AllocError>
    requires client { read.client < length world.now.shape.homes }
    requires within { AreBelow world.now.shape.colours read.colours }
    ensures { IfOk result (λ firsts.
        AreReadUpTo (world_of world.now) read.client read.stamp (members read.colours) firsts.items) }
{
    world.agrees();
    let mut firsts = Vec::new(alloc);
    for colour in read.colours.members() {
        firsts.push(nodes_up_to(world, read.client, colour, read.stamp))?;
    }
    Ok(firsts)
}

fn is_same(one: FirstNodes, other: FirstNodes) -> bool
    ensures { IsTrue result → one ≡ other }
{
    one.region == other.region && one.colour == other.colour && one.count == other.count
}

// Whether these are the same first nodes.
fn are_same(some: &[FirstNodes], others: &[FirstNodes]) -> bool
    ensures { IsTrue result → some.now ≡ others.now }
{
    if some.len() != others.len() {
        return false;
    }
    for place in 0..some.len() {
        if !is_same(some[place], others[place]) {
            return false;
        }
    }
    true
}

// The keys of the nodes behind these first ones up to a stamp, in rising key, each once.
fn keys_behind(
    alloc: Global,
    world: &World,
    firsts: &[FirstNodes],
    stamp: u64,
) -> Result<Vec<Key>, AllocError>
    requires there { (first : FirstNodes) → Contains firsts.now first → AreThere (world_of world.now) first }
    ensures { IfOk result (λ keys. keys.items ≡ keys_behind (world_of world.now) stamp firsts.now) }
{
    world.agrees();
    let mut keys = Vec::new(alloc);
    for first in firsts {
        let line = world.column(first.region, first.colour).line();
        keys = with_line(alloc, keys.as_slice(), &line[first.count..], stamp)?;
    }
    Ok(keys)
}

// Feeds the nodes with these keys, one after another.
fn feed_all<F: NodeFold>(
    alloc: Global,
    world: &World,
    kept: &mut KeptFold<F>,
    keys: &[Key],
) -> Result<(), AllocError>
    requires stand { AreOfLines (world_of world.now) keys.now }
    ensures { (before : List Key) → F.Holds kept.old.state (map (object_node_at (world_of world.now)) before)
        → OnOk result (F.Holds kept.new.state (map (object_node_at (world_of world.now)) (before ++ keys.now))) }
{
    for key in keys {
        let _told = kept.feed(alloc, *key, &node_of(world, *key).text)?;
    }
    Ok(())
}

// What a node was told, where that was found before, or now that the one with this key was told this.
fn found_with<T: Drop>(
    found: Option<Option<T>>,
    told: Option<T>,
    key: Key,
    own: Key,
) -> Option<Option<T>>
    ensures { result ≡ found_with found told key own }
{
    match found {
        Some(told) => Some(told),
        None => { if key.is_same(own) { Some(told) } else { None } }
    }
}

// Feeds the nodes with these keys, one after another, behind those that were fed before; gives what the node with one of
// them is told, which is not among those before.
fn feed_for<F: NodeFold>(
    alloc: Global,
    world: &World,
    kept: &mut KeptFold<F>,
    keys: &[Key],
    own: Key,
) -> Result<Option<F::Told>, AllocError>
    requires stand { AreOfLines (world_of world.now) keys.now }
    ensures told { (before : List Key) → F.Holds kept.old.state (map (object_node_at (world_of world.now)) before)
        → AreOthers own before
        → IfOk result (λ told. told ≡ told_of F.told (map (object_node_at (world_of world.now)) (before ++ keys.now)) own) }
    ensures folded { (before : List Key) → F.Holds kept.old.state (map (object_node_at (world_of world.now)) before)
        → OnOk result (F.Holds kept.new.state (map (object_node_at (world_of world.now)) (before ++ keys.now))) }
{
    let mut found = None;
    for key in keys {
        let told = kept.feed(alloc, *key, &node_of(world, *key).text)?;
        found = found_with(found, told, *key, own);
    }
    Ok(found.unwrap_or(None))
}

impl<F: NodeFold> LinesFold<F> {
    /// The fold of no node.
    pub fn open(alloc: Global) -> LinesFold<F>
        ensures firsts { result.firsts.items ≡ [] }
        ensures folded { (w : Meant) → IsLinesFold F.Holds w result }
    {
        LinesFold {
            kept: KeptFold::open(alloc),
            firsts: Vec::new(alloc),
            stamp: 0,
        }
    }

    // Lets go of what is folded.
    fn clear(&mut self, alloc: Global)
        ensures firsts { self.new.firsts.items ≡ [] }
        ensures folded { (w : Meant) → IsLinesFold F.Holds w self.new }
    {
        *self = LinesFold::open(alloc);
    }

    // Lets go of what is folded, if the node with this key may be among it.
    fn leave_out(&mut self, alloc: Global, own: Key)
        ensures folded { (w : Meant) → IsLinesFold F.Holds w self.old → IsLinesFold F.Holds w self.new }
        ensures others { (w : Meant) → IsLinesFold F.Holds w self.old → AreOthers own (first_keys w self.new.firsts.items) }
    {
        if own.stamp <= self.stamp {
            self.clear(alloc);
        }
    }

    // Whether what is folded are all nodes up to its stamp still, and no more than is read. It is so after every stamped
    // read of the same colours, since none of its columns then gets a node up to the read's stamp.
    fn goes_on(&self, alloc: Global, world: &World, read: LinesRead) -> Result<bool, AllocError>
        requires client { read.client < length world.now.shape.homes }
        requires within { AreBelow world.now.shape.colours read.colours }
        ensures { IfOk result (λ goes. IsTrue goes → (self.now.stamp ≤ read.stamp)
            × AreReadUpTo (world_of world.now) read.client self.now.stamp (members read.colours) self.now.firsts.items) }
    {
        let before = LinesRead {
            client: read.client,
            colours: read.colours,
            stamp: self.stamp,
        };
        let firsts = firsts_of(alloc, world, before)?;
        Ok(self.stamp <= read.stamp && are_same(firsts.as_slice(), self.firsts.as_slice()))
    }

    // The keys with which the fold goes on to all nodes that are read, from the first on where it can't go on.
    fn keys_to(
        &mut self,
        alloc: Global,
        world: &World,
        read: LinesRead,
    ) -> Result<Vec<Key>, AllocError>
        requires client { read.client < length world.now.shape.homes }
        requires within { AreBelow world.now.shape.colours read.colours }
        requires folded { IsLinesFold F.Holds (world_of world.now) self.old }
        ensures keys { IfOk result (λ keys. keys_read (world_of world.now) read.client read.stamp (members read.colours)
            ≡ first_keys (world_of world.now) self.new.firsts.items ++ keys.items) }
        ensures folded { IsLinesFold F.Holds (world_of world.now) self.new }
        ensures others { (own : Key) → AreOthers own (first_keys (world_of world.now) self.old.firsts.items)
            → AreOthers own (first_keys (world_of world.now) self.new.firsts.items) }
    {
        if self.goes_on(alloc, world, read)? {
            keys_behind(alloc, world, self.firsts.as_slice(), read.stamp)
        } else {
            self.clear(alloc);
            keys_read(alloc, world, read.client, read.stamp, read.colours)
        }
    }

    /// What the node with a key is told among all nodes that are read. Where there is no memory, the fold begins anew.
    pub fn told(
        &mut self,
        alloc: Global,
        world: &World,
        read: LinesRead,
        own: Key,
    ) -> Result<Option<F::Told>, AllocError>
        requires client { read.client < length world.now.shape.homes }
        requires within { AreBelow world.now.shape.colours read.colours }
        requires folded { IsLinesFold F.Holds (world_of world.now) self.old }
        ensures told { IfOk result (λ told. told ≡ told_of F.told (map (object_node_at (world_of world.now))
            (keys_read (world_of world.now) read.client read.stamp (members read.colours))) own) }
        ensures folded { IsLinesFold F.Holds (world_of world.now) self.new }
    {
        world.agrees();
        self.leave_out(alloc, own);
        let firsts = firsts_of(alloc, world, read)?;
        let keys = self.keys_to(alloc, world, read)?;
        match feed_for(alloc, world, &mut self.kept, keys.as_slice(), own) {
            Ok(told) => {
                self.firsts = firsts;
                self.stamp = read.stamp;
                Ok(told)
            }
            Err(fault) => {
                self.clear(alloc);
                Err(fault)
            }
        }
    }

    /// Folds on to all nodes that are read. Where there is no memory, the fold begins anew.
    pub fn fold_to(
        &mut self,
        alloc: Global,
        world: &World,
        read: LinesRead,
    ) -> Result<(), AllocError>
        requires client { read.client < length world.now.shape.homes }
        requires within { AreBelow world.now.shape.colours read.colours }
        requires folded { IsLinesFold F.Holds (world_of world.now) self.old }
        ensures ok { OnOk result (F.Holds self.new.kept.state (map (object_node_at (world_of world.now))
            (keys_read (world_of world.now) read.client read.stamp (members read.colours)))) }
        ensures folded { IsLinesFold F.Holds (world_of world.now) self.new }
    {
        world.agrees();
        let firsts = firsts_of(alloc, world, read)?;
        let keys = self.keys_to(alloc, world, read)?;
        match feed_all(alloc, world, &mut self.kept, keys.as_slice()) {
            Ok(()) => {
                self.firsts = firsts;
                self.stamp = read.stamp;
                Ok(())
            }
            Err(fault) => {
                self.clear(alloc);
                Err(fault)
            }
        }
    }
}
