// Transactional maps: what of one is folded, and what the parts of one tell that is played by them.
ghost use Rattle.std.specs.Prelude.{◌≡◌, ◌≤◌, ◌<◌, ℕ, List, IfOk, length};
ghost use Rattle.log_node.specs.declared.limits.TheConstants.{MAX_COLOURS};
ghost use Rattle.object_fold.specs.Nodes.{ObjectNode, shard_of};
ghost use Rattle.part_fold.specs.Parts.{part_value, undecided_after};
ghost use Rattle.part_fold.specs.PartStates.{IsPart};
ghost use Rattle.world_laws.specs.Worlds.{World as Meant, home_of};
ghost use Rattle.script_text.specs.Apart.{colours_of};
ghost use Rattle.script_text.specs.Fitting.{AreObjectColours};
ghost use Rattle.world_code.specs.WorldView.{world_of};
ghost use Rattle.script_meaning.specs.Dequeues.{sync_now};
ghost use Rattle.script_meaning.specs.Parts.{nodes_now, part_of, peek_answer};
ghost use Rattle.script_in_order.specs.Folds.{IsKeptLine, ArePartFolds, AreTxFolds};

use crate::clears::home;
use crate::folds::{FirstNodes, fold_to};
use crate::lines_fold::LinesFold;
use crate::queues::sync_now;
use log_node::{ColourList, Key, Text};
use object_fold::{KeptLine, TxState, shard_of};
use part_fold::{PartFold, RuledFold, place_of};
use report_text::{Answer, SyncPiece};
use script_text::Kind;
use std::alloc::{AllocError, Global};
use world_code::World;
use world_laws::stays_within_cuts;

/// What of a transactional map is folded: the map; and of one that is played by its parts, by the places of its colours what
/// each one's line tells, and what became of each transaction.
#[derive(Drop)]
pub struct TxFolds {
    pub map: LinesFold<TxState>,
    pub parts: Vec<KeptLine<PartFold>>,
    pub ruled: LinesFold<RuledFold>,
}

// For each colour of a map the fold of no node of its line.
fn open_parts(alloc: Global, colours: &ColourList) -> Result<Vec<KeptLine<PartFold>>, AllocError>
    requires { length colours.now ≤ MAX_COLOURS }
    ensures { (w : Meant) (home : ℕ) → IfOk result (λ parts. ArePartFolds w home colours.now parts.items) }
{
    let count = colours.len() as u8;
    let mut parts = Vec::new(alloc);
    for place in 0..count {
        parts.push(KeptLine::new(PartFold::open(alloc, place, count)))?;
    }
    Ok(parts)
}

// Folds the part of a colour on to the nodes of its line that a client plays now, and gives the client's sync of it.
fn fold_part(
    alloc: Global,
    world: &World,
    client: u8,
    colour: u8,
    kept: &mut KeptLine<PartFold>,
) -> Result<SyncPiece, AllocError>
    requires client { client < length world.now.shape.homes }
    requires colour { colour < world.now.shape.colours }
    requires folded { IsKeptLine IsPart (world_of world.now) (home_of (world_of world.now) client) colour kept.old }
    ensures part { kept.new.state.part ≡ kept.old.state.part }
    ensures sync { IfOk result (λ sync. sync ≡ sync_now (world_of world.now) client colour) }
    ensures played { IfOk result (λ _. IsPart kept.new.state (nodes_now (world_of world.now) client colour)) }
    ensures folded { IsKeptLine IsPart (world_of world.now) (home_of (world_of world.now) client) colour kept.new }
{
    stays_within_cuts();
    world.is_whole();
    let sync = sync_now(world, client, colour);
    let region = home(world, client);
    let first = FirstNodes {
        region,
        colour,
        count: sync.counts.0[region as usize] as usize,
    };
    fold_to(alloc, world, kept, first)?;
    Ok(sync)
}

// What a part answers of a key, behind this sync of its colour.
fn answer_of(
    alloc: Global,
    part: &PartFold,
    key: &[u8],
    sync: SyncPiece,
) -> Result<Answer, AllocError>
    ensures { (nodes : List ObjectNode) → IsPart part.now nodes → IfOk result (λ answer. answer
        ≡ peek_answer (undecided_after part.now.part nodes) (part_value part.now.part nodes key.now) sync) }
{
    if let Some(waits) = part.undecided() {
        return Ok(Answer::Undecided {
            stamp: waits.stamp,
            sync,
        });
    }
    match part.value(key) {
        None => Ok(Answer::Got { value: None, sync }),
        Some(value) => Ok(Answer::Got {
            value: Some(Text::copied(alloc, value.as_bytes())?),
            sync,
        }),
    }
}

// What the part of a colour answers of a key, by the nodes that a client plays now.
fn peek_part(
    alloc: Global,
    world: &World,
    client: u8,
    colour: u8,
    key: &[u8],
    kept: &mut KeptLine<PartFold>,
) -> Result<Answer, AllocError>
    requires client { client < length world.now.shape.homes }
    requires colour { colour < world.now.shape.colours }
    requires folded { IsKeptLine IsPart (world_of world.now) (home_of (world_of world.now) client) colour kept.old }
    ensures part { kept.new.state.part ≡ kept.old.state.part }
    ensures answer { let w = world_of world.now in let nodes = nodes_now w client colour in
        IfOk result (λ answer. answer ≡ peek_answer (undecided_after kept.old.state.part nodes)
        (part_value kept.old.state.part nodes key.now) (sync_now w client colour)) }
    ensures folded { IsKeptLine IsPart (world_of world.now) (home_of (world_of world.now) client) colour kept.new }
{
    let sync = fold_part(alloc, world, client, colour, kept)?;
    answer_of(alloc, &kept.state, key, sync)
}

// The transaction for which the part of a colour waits, by the nodes that a client plays now, and the client's sync of it.
fn part_waits(
    alloc: Global,
    world: &World,
    client: u8,
    colour: u8,
    kept: &mut KeptLine<PartFold>,
) -> Result<(Option<Key>, SyncPiece), AllocError>
    requires client { client < length world.now.shape.homes }
    requires colour { colour < world.now.shape.colours }
    requires folded { IsKeptLine IsPart (world_of world.now) (home_of (world_of world.now) client) colour kept.old }
    ensures part { kept.new.state.part ≡ kept.old.state.part }
    ensures waits { let w = world_of world.now in
        IfOk result (λ r. r.0 ≡ undecided_after kept.old.state.part (nodes_now w client colour)) }
    ensures sync { IfOk result (λ r. r.1 ≡ sync_now (world_of world.now) client colour) }
    ensures folded { IsKeptLine IsPart (world_of world.now) (home_of (world_of world.now) client) colour kept.new }
{
    let sync = fold_part(alloc, world, client, colour, kept)?;
    Ok((kept.state.undecided(), sync))
}

impl TxFolds {
    /// The fold of no node of a transactional map of this kind.
    pub fn open(alloc: Global, kind: &Kind) -> Result<TxFolds, AllocError>
        requires { length (colours_of kind.now) ≤ MAX_COLOURS }
        ensures { (w : Meant) → IfOk result (AreTxFolds w kind.now) }
    {
        let parts = match kind {
            Kind::Parts {
                home: _home,
                colours,
            } => open_parts(alloc, colours)?,
            _ => Vec::new(alloc),
        };
        Ok(TxFolds {
            map: LinesFold::open(alloc),
            parts,
            ruled: LinesFold::open(alloc),
        })
    }

    /// What the part of a key's shard answers of the key, by the nodes that a client at the map's home plays now. The fold
    /// goes on from where it is; without memory it stays where it was, or has come a part of the way.
    pub fn peek(
        &mut self,
        alloc: Global,
        world: &World,
        client: u8,
        colours: &[u8],
        key: &[u8],
    ) -> Result<Answer, AllocError>
        requires client { client < length world.now.shape.homes }
        requires colours { AreObjectColours world.now.shape.colours colours.now }
        requires folded { let w = world_of world.now in
            AreTxFolds w (Kind.Parts (home_of w client) colours.now) self.old }
        ensures answer { let w = world_of world.now in let colour = shard_of colours.now key.now in
            let nodes = nodes_now w client colour in let part = part_of colours.now key.now in
            IfOk result (λ answer. answer ≡ peek_answer (undecided_after part nodes) (part_value part nodes key.now)
            (sync_now w client colour)) }
        ensures folded { let w = world_of world.now in
            AreTxFolds w (Kind.Parts (home_of w client) colours.now) self.new }
    {
        let place = place_of(key, colours.len());
        let colour = shard_of(colours, key);
        peek_part(alloc, world, client, colour, key, &mut self.parts[place])
    }

    /// The transaction for which the part of a key's shard waits, by the nodes that a client at the map's home plays now, and
    /// the client's sync of the shard. The fold goes on from where it is; without memory it stays where it was, or has come
    /// a part of the way.
    pub fn waits(
        &mut self,
        alloc: Global,
        world: &World,
        client: u8,
        colours: &[u8],
        key: &[u8],
    ) -> Result<(Option<Key>, SyncPiece), AllocError>
        requires client { client < length world.now.shape.homes }
        requires colours { AreObjectColours world.now.shape.colours colours.now }
        requires folded { let w = world_of world.now in
            AreTxFolds w (Kind.Parts (home_of w client) colours.now) self.old }
        ensures waits { let w = world_of world.now in let colour = shard_of colours.now key.now in
            IfOk result (λ r. r.0 ≡ undecided_after (part_of colours.now key.now) (nodes_now w client colour)) }
        ensures sync { IfOk result (λ r. r.1 ≡ sync_now (world_of world.now) client (shard_of colours.now key.now)) }
        ensures folded { let w = world_of world.now in
            AreTxFolds w (Kind.Parts (home_of w client) colours.now) self.new }
    {
        let place = place_of(key, colours.len());
        let colour = shard_of(colours, key);
        part_waits(alloc, world, client, colour, &mut self.parts[place])
    }
}
