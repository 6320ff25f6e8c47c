// Folds that are kept: what of each object's nodes is folded already, so that a command folds only what is new. All
// clients of an object with a home are of one region, and each command of it takes at least the whole line that stood
// before it, so one fold serves them all.
ghost use Rattle.std.specs.Prelude.{◌≡◌, ◌<◌, ◌≤◌, ◌∷◌, [], ℕ, List, Some, IfOk, OnOk, length, map};
ghost use Rattle.std.specs.List.{Contains};
ghost use Rattle.log_node.specs.Sets.{members};
ghost use Rattle.object_fold.specs.Transactions.{value_of, writes_after, versions_after};
ghost use Rattle.object_fold.specs.Maps.{shard_value};
ghost use Rattle.object_fold.specs.Nodes.{keyed_node};
ghost use Rattle.object_fold.specs.Queues.{front_after};
ghost use Rattle.tree_fold.specs.Trees.{tree_after};
ghost use Rattle.col_core.specs.History.{line};
ghost use Rattle.world_laws.specs.Worlds.{World as Meant};
ghost use Rattle.script_text.specs.Fitting.{AreBelow, IsKindWithin, IsFitting, HasObject, is_tx};
ghost use Rattle.world_code.specs.WorldView.{world_of};
ghost use Rattle.script_meaning.specs.States.{kind_in};
ghost use Rattle.script_meaning.specs.CausalGets.{causal_values};
ghost use Rattle.script_meaning.specs.Dequeues.{object_node_at};
ghost use Rattle.script_meaning.specs.Gets.{key_answers};
ghost use Rattle.script_meaning.specs.Stamped.{keys_read};
ghost use Rattle.script_meaning.specs.Trees.{names_in};
ghost use Rattle.script_in_order.specs.CausalFolds.{held_nodes, cut_to_play, AreCausalFolds};
ghost use Rattle.script_in_order.specs.Folds.{nodes_at, AreThere, IsKeptLine, IsShardFold, AreShardFolds, IsQueueFold, IsFoldOf, AreFolded, ShardsWithin, QueueWithin, MayFold, IsTreeAt};

use crate::causal::values;
use crate::lines_fold::{LinesFold, LinesRead};
use crate::tx_folds::TxFolds;
use log_node::{ColourList, Key, Keys, ListOf, MAX_COLOURS, Names, Node, Shape, Text, Versions};
use object_fold::{CausalMap, KeptLine, LineFold, ShardMap, ValueQueue};
use report_text::KeyAnswer;
use script_text::{Kind, Object, Script};
use std::alloc::{AllocError, Global};
use std::marker::Model;
use tree_fold::{Path, TreeFold};
use world_code::World;

/// What of one object is folded.
#[derive(Drop)]
pub enum Fold {
    /// Of a map: its shards by colours.
    Map(Vec<KeptLine<ShardMap>>),
    /// Of a queue.
    Queue(KeptLine<ValueQueue>),
    /// Of a causal map: what each region's column lets play, by region.
    Causal(Vec<CausalMap>),
    /// Of a transactional map.
    Tx(TxFolds),
    /// Of a tree.
    Tree(LinesFold<TreeFold>),
}

/// What is folded of each object, by the object's number.
#[derive(Drop)]
pub struct Folds {
    pub of: Vec<Fold>,
}

impl Model for Folds {
    ghost use Rattle.std.specs.Prelude.{List};
    ghost use Rattle.std.specs.Coded.{coded_list};
    ghost use Rattle.script_in_order.specs.contracts.folds.Fold as fold;
    ghost use Rattle.script_in_order.specs.declared.folds.Fold.{Fold};

    ghost Value = { List Fold };

    ghost coded = { coded_list fold.the_row.coded };

    ghost view = { λ a. a.of.items };
}

/// This many first nodes of the own line of a region's column.
#[derive(Clone, Copy)]
pub struct FirstNodes {
    pub region: u8,
    pub colour: u8,
    pub count: usize,
}

/// The node with a key of a line.
pub fn node_of(world: &World, key: Key) -> &Node
    requires { (region : ℕ) × (colour : ℕ) × Contains (line ((world_of world.now).histories region colour)) key }
    ensures { keyed_node key result.now ≡ object_node_at (world_of world.now) key }
{
    world.is_whole();
    match world.node(key.id) {
        Some(node) => node,
        None => unreachable!(),
    }
}

/// Folds on up to the first so many nodes of the line of a column at home. Without memory it stays where it was, or has come
/// a part of the way.
pub fn fold_to<F: LineFold>(
    alloc: Global,
    world: &World,
    kept: &mut KeptLine<F>,
    first: FirstNodes,
) -> Result<(), AllocError>
    requires there { AreThere (world_of world.now) first }
    requires behind { kept.old.count ≤ first.count }
    requires folded { IsKeptLine F.Holds (world_of world.now) first.region first.colour kept.old }
    ensures opened { F.opened kept.new.state ≡ F.opened kept.old.state }
    ensures ok { OnOk result (kept.new.count ≡ first.count) }
    ensures within { kept.new.count ≤ first.count }
    ensures folded { IsKeptLine F.Holds (world_of world.now) first.region first.colour kept.new }
{
    let line = world.column(first.region, first.colour).line();
    for place in kept.count..first.count {
        let key = line[place];
        kept.feed(alloc, key, node_of(world, key))?;
    }
    Ok(())
}

// The value of a key of a shard after the first nodes of the line of a column at home.
fn shard_value(
    alloc: Global,
    world: &World,
    kept: &mut KeptLine<ShardMap>,
    first: FirstNodes,
    key: &[u8],
) -> Result<Option<Text>, AllocError>
    requires there { AreThere (world_of world.now) first }
    requires behind { kept.old.count ≤ first.count }
    requires folded { (colours : List ℕ) × IsShardFold (world_of world.now) first.region colours first.colour kept.old }
    ensures value { (colours : List ℕ) → IsShardFold (world_of world.now) first.region colours first.colour kept.old
        → IfOk result (λ value. value ≡ shard_value colours first.colour (nodes_at (world_of world.now) first) key.now) }
    ensures within { kept.new.count ≤ first.count }
    ensures folded { (colours : List ℕ) → IsShardFold (world_of world.now) first.region colours first.colour kept.old
        → IsShardFold (world_of world.now) first.region colours first.colour kept.new }
{
    fold_to(alloc, world, kept, first)?;
    match kept.state.get(key) {
        None => Ok(None),
        Some(value) => Ok(Some(Text::copied(alloc, value.as_bytes())?)),
    }
}

// The front of a queue after the first nodes of the line of a column at home.
fn queue_front(
    alloc: Global,
    world: &World,
    kept: &mut KeptLine<ValueQueue>,
    first: FirstNodes,
) -> Result<Option<Text>, AllocError>
    requires there { AreThere (world_of world.now) first }
    requires behind { kept.old.count ≤ first.count }
    requires folded { IsQueueFold (world_of world.now) first.region first.colour kept.old }
    ensures value { IfOk result (λ value. value ≡ front_after (nodes_at (world_of world.now) first)) }
    ensures folded { IsQueueFold (world_of world.now) first.region first.colour kept.new }
{
    fold_to(alloc, world, kept, first)?;
    match kept.state.front() {
        None => Ok(None),
        Some(front) => Ok(Some(Text::copied(alloc, front.as_bytes())?)),
    }
}

// For each colour the fold of no node of a map with these colours.
fn open_shards(
    alloc: Global,
    colours: &ColourList,
    count: u8,
) -> Result<Vec<KeptLine<ShardMap>>, AllocError>
    ensures { (w : Meant) (home : ℕ) → w.shape.colours ≡ count
        → IfOk result (λ shards. AreShardFolds w home colours.now shards.items) }
{
    let mut shards = Vec::new(alloc);
    for colour in 0..count {
        let copy = Vec::from_slice(alloc, colours.as_slice())?;
        let map = ShardMap::open(alloc, ListOf::from(copy), colour);
        shards.push(KeptLine::new(map))?;
    }
    Ok(shards)
}

// For each region the fold of no node of a causal map.
fn open_causal(alloc: Global, count: u8) -> Result<Vec<CausalMap>, AllocError>
    ensures { (w : Meant) (colour : ℕ) → w.shape.regions ≡ count → colour < MAX_COLOURS
        → IfOk result (λ folds. AreCausalFolds w colour folds.items) }
{
    let mut folds = Vec::new(alloc);
    for _ in 0..count {
        folds.push(CausalMap::new(alloc))?;
    }
    Ok(folds)
}

// The fold of no node of an object of a kind, where there are so many regions and colours.
fn open_fold(alloc: Global, kind: &Kind, shape: &Shape) -> Result<Fold, AllocError>
    requires within { IsKindWithin shape.now.regions shape.now.colours kind.now }
    requires few { shape.now.colours ≤ MAX_COLOURS }
    ensures { (w : Meant) → w.shape ≡ shape.now → IfOk result (IsFoldOf w kind.now) }
{
    match kind {
        Kind::Map {
            home: _home,
            colours,
        } => Ok(Fold::Map(open_shards(alloc, colours, shape.colours)?)),
        Kind::Queue {
            home: _home,
            colour: _colour,
        } => Ok(Fold::Queue(KeptLine::new(ValueQueue::new(alloc)))),
        Kind::Tx { .. } | Kind::Parts { .. } => Ok(Fold::Tx(TxFolds::open(alloc, kind)?)),
        Kind::Tree {
            home: _home,
            colours: _colours,
        } => Ok(Fold::Tree(LinesFold::open(alloc))),
        Kind::Causal { colour: _colour } => Ok(Fold::Causal(open_causal(alloc, shape.regions)?)),
    }
}

impl Folds {
    /// Of each object of a script the fold of no node.
    pub fn open(alloc: Global, script: &Script) -> Result<Folds, AllocError>
        requires { IsFitting script.now }
        ensures { (w : Meant) → w.shape ≡ script.now.shape → IfOk result (AreFolded w script.now.objects) }
    {
        let mut of = Vec::new(alloc);
        for object in script.objects.as_slice() {
            of.push(open_fold(alloc, &object.kind, &script.shape)?)?;
        }
        Ok(Folds { of })
    }

    /// The value of a key of a map after the first nodes of the line of its shard's colour at home. The fold goes on
    /// from where it is; without memory it stays where it was, or has come a part of the way.
    pub fn value(
        &mut self,
        alloc: Global,
        world: &World,
        object: u8,
        first: FirstNodes,
        key: &[u8],
    ) -> Result<Option<Text>, AllocError>
        requires may { (objects : List Object) × (colours : List ℕ)
            × MayFold (world_of world.now) objects self.old object (Kind.Map first.region colours) first }
        requires behind { ShardsWithin self.old object (first.colour ∷ []) (λ _. first.count) }
        ensures value { (objects : List Object) (colours : List ℕ)
            → kind_in objects object ≡ Some (Kind.Map first.region colours)
            → AreFolded (world_of world.now) objects self.old
            → IfOk result (λ value. value ≡ shard_value colours first.colour (nodes_at (world_of world.now) first) key.now) }
        ensures folded { (objects : List Object) (colours : List ℕ)
            → kind_in objects object ≡ Some (Kind.Map first.region colours)
            → AreFolded (world_of world.now) objects self.old → AreFolded (world_of world.now) objects self.new }
        ensures within { (colours : List ℕ) (bound : ℕ → ℕ) → ShardsWithin self.old object colours bound
            → first.count ≤ bound first.colour → ShardsWithin self.new object colours bound }
    {
        match &mut self.of[object as usize] {
            Fold::Map(shards) => {
                shard_value(alloc, world, &mut shards[first.colour as usize], first, key)
            }
            _ => unreachable!(),
        }
    }

    /// The front of a queue after the first nodes of its line at home. The fold goes on from where it is; without memory
    /// it stays where it was, or has come a part of the way.
    pub fn front(
        &mut self,
        alloc: Global,
        world: &World,
        object: u8,
        first: FirstNodes,
    ) -> Result<Option<Text>, AllocError>
        requires may { (objects : List Object)
            × MayFold (world_of world.now) objects self.old object (Kind.Queue first.region first.colour) first }
        requires behind { QueueWithin self.old object first.count }
        ensures value { IfOk result (λ value. value ≡ front_after (nodes_at (world_of world.now) first)) }
        ensures folded { (objects : List Object)
            → kind_in objects object ≡ Some (Kind.Queue first.region first.colour)
            → AreFolded (world_of world.now) objects self.old → AreFolded (world_of world.now) objects self.new }
    {
        match &mut self.of[object as usize] {
            Fold::Queue(kept) => queue_front(alloc, world, kept, first),
            _ => unreachable!(),
        }
    }

    /// The values of the latest writes of a key of a causal map on a colour, among all nodes that a region's column of it
    /// lets play. The fold goes on from where it is; without memory it stays where it was, or has come a part of the way.
    pub fn values(
        &mut self,
        alloc: Global,
        world: &World,
        object: u8,
        region: u8,
        colour: u8,
        key: &Text,
    ) -> Result<Names, AllocError>
        requires region { region < world.now.shape.regions }
        requires colour { colour < world.now.shape.colours }
        requires may { (objects : List Object) × AreFolded (world_of world.now) objects self.old
            × (kind_in objects object ≡ Some (Kind.Causal colour)) }
        ensures values { let w = world_of world.now in
            IfOk result (λ values. values ≡ causal_values (held_nodes w region colour (cut_to_play w region colour)) key.now) }
        ensures folded { (objects : List Object) → kind_in objects object ≡ Some (Kind.Causal colour)
            → AreFolded (world_of world.now) objects self.old → AreFolded (world_of world.now) objects self.new }
    {
        match &mut self.of[object as usize] {
            Fold::Causal(folds) => {
                let map = &mut folds[region as usize];
                values(alloc, world, map, region, colour, key)
            }
            _ => unreachable!(),
        }
    }

    /// What the nodes that are read of a transactional map leave under keys, and who wrote these last. The fold goes on from
    /// where it is; without memory it may begin anew.
    pub fn found(
        &mut self,
        alloc: Global,
        world: &World,
        object: u8,
        read: LinesRead,
        keys: &Keys,
    ) -> Result<(ListOf<KeyAnswer>, Versions), AllocError>
        requires client { read.client < length world.now.shape.homes }
        requires within { AreBelow world.now.shape.colours read.colours }
        requires may { (objects : List Object) × HasObject objects object is_tx × AreFolded (world_of world.now) objects self.old }
        ensures found { IfOk result (λ found. let nodes = map (object_node_at (world_of world.now))
            (keys_read (world_of world.now) read.client read.stamp (members read.colours)) in
            (found.0 ≡ key_answers (value_of (writes_after nodes)) keys.now) × (found.1 ≡ versions_after nodes keys.now)) }
        ensures folded { (objects : List Object) → HasObject objects object is_tx → AreFolded (world_of world.now) objects self.old
            → AreFolded (world_of world.now) objects self.new }
    {
        match &mut self.of[object as usize] {
            Fold::Tx(fold) => fold.map.found(alloc, world, read, keys),
            _ => unreachable!(),
        }
    }

    /// The names in a path after the nodes that are read of a tree, where there is such a path. The fold goes on from where it
    /// is; without memory it may begin anew.
    pub fn names(
        &mut self,
        alloc: Global,
        world: &World,
        object: u8,
        read: LinesRead,
        path: &Option<Path>,
    ) -> Result<Option<Names>, AllocError>
        requires client { read.client < length world.now.shape.homes }
        requires within { AreBelow world.now.shape.colours read.colours }
        requires may { (objects : List Object) × IsTreeAt objects object × AreFolded (world_of world.now) objects self.old }
        ensures names { IfOk result (λ names. names ≡ names_in (tree_after (map (object_node_at (world_of world.now))
            (keys_read (world_of world.now) read.client read.stamp (members read.colours)))) path.now) }
        ensures folded { (objects : List Object) → IsTreeAt objects object → AreFolded (world_of world.now) objects self.old
            → AreFolded (world_of world.now) objects self.new }
    {
        match &mut self.of[object as usize] {
            Fold::Tree(fold) => fold.names(alloc, world, read, path),
            _ => unreachable!(),
        }
    }
}
