// Maps that are played by their parts: peeks, which one colour's line answers, and decisions on transactions for which a part
// waits.
ghost use Rattle.std.specs.Prelude.{◌≡◌, ◌≢◌, ◌<◌, [], ℕ, List, IfOk, OnErr, None, length, map};
ghost use Rattle.log_node.specs.Sets.{members};
ghost use Rattle.part_fold.specs.Decisions.{decision_text};
ghost use Rattle.part_fold.specs.Ruled.{IsRuled};
ghost use Rattle.world_laws.specs.Worlds.{World as Meant, home_of};
ghost use Rattle.script_text.specs.Fitting.{AreBelow, AreObjectColours, UsesObject};
ghost use Rattle.lawful_run.specs.Asks.{object_colours, rising};
ghost use Rattle.world_code.specs.WorldView.{world_of};
ghost use Rattle.script_meaning.specs.Dequeues.{object_node_at};
ghost use Rattle.script_meaning.specs.Objects.{caller_in, refusing_home};
ghost use Rattle.script_meaning.specs.Parts.{commits_among, decided, peeked};
ghost use Rattle.script_meaning.specs.Stamped.{keys_read};
ghost use Rattle.script_meaning.specs.States.{kind_in};
ghost use Rattle.script_in_order.specs.Deciding.{DecidesBehind, EndsDecision};
ghost use Rattle.script_in_order.specs.Doing.{DoneBy, DoesAtHome, AreKindsWithin};
ghost use Rattle.script_in_order.specs.Folds.{AreFolded, AreTxFolds, IsLinesFold};
ghost use Rattle.script_in_order.specs.Stamped.{ReadsStamped, end_in};

use crate::appends::append_one;
use crate::folds::{Fold, Folds};
use crate::lines_fold::{LinesFold, LinesRead};
use crate::object_appends::all_colours;
use crate::stamped::{Stamped, stamped_read};
use crate::syncs::trimmed_base;
use crate::tx_folds::TxFolds;
use log_node::{Colours, Key, Text};
use object_fold::shard_of;
use part_fold::{Decision, RuledFold, write_decision};
use report_text::{Answer, Ended, SyncPiece};
use script_text::{Command, Kind, Object, What};
use std::alloc::{AllocError, Global};
use world_code::World;

// A peek at a key of a map with these colours: plays the shard of the key up to the cut, and answers by what the own line
// tells; refused where a node that has to be played is trimmed. The memory for the answer is taken before the play.
fn peek_in(
    alloc: Global,
    command: &Command,
    colours: &[u8],
    key: &Text,
    world: &mut World,
    fold: &mut TxFolds,
) -> Result<Answer, AllocError>
    requires caller { command.now.client < length world.old.shape.homes }
    requires colours { AreObjectColours world.old.shape.colours colours.now }
    requires folded { let w = world_of world.old in
        AreTxFolds w (Kind.Parts (home_of w command.now.client) colours.now) fold.old }
    ensures ok { IfOk result (λ answer. DoneBy (λ _ state. peeked state command.now colours.now key.now) command.now
        (world_of world.old) (world_of world.new) answer []) }
    ensures err { OnErr result (world_of world.new ≡ world_of world.old) }
    ensures folded { let w = world_of world.old in
        AreTxFolds (world_of world.new) (Kind.Parts (home_of w command.now.client) colours.now) fold.new }
{
    world.is_whole();
    let colour = shard_of(colours, key.as_bytes());
    if let Some(base) = trimmed_base(world, command.client, colour) {
        return Ok(Answer::Trimmed { colour, base });
    }
    let answer = fold.peek(alloc, world, command.client, colours, key.as_bytes())?;
    let _played = world.play(command.client, colour);
    Ok(answer)
}

/// A peek: the value of a key, by what the own line of its shard tells, or that a transaction waits there for a decision.
pub fn peek(
    alloc: Global,
    objects: &[Object],
    command: &Command,
    object: u8,
    key: &Text,
    world: &mut World,
    folds: &mut Folds,
) -> Result<Answer, AllocError>
    requires asks { command.now.what ≡ What.Peek object key.now }
    requires caller { command.now.client < length world.old.shape.homes }
    requires kinds { AreKindsWithin world.old.shape objects.now }
    requires uses { UsesObject objects.now (What.Peek object key.now) }
    requires near { refusing_home (caller_in (world_of world.old) objects.now command.now.client)
        (What.Peek object key.now) ≡ None }
    requires folded { AreFolded (world_of world.old) objects.now folds.old }
    ensures ok { IfOk result (λ answer. DoesAtHome objects.now command.now (world_of world.old) (world_of world.new) answer []) }
    ensures err { OnErr result (world_of world.new ≡ world_of world.old) }
    ensures folded { AreFolded (world_of world.new) objects.now folds.new }
{
    world.is_whole();
    let Kind::Parts {
        home: _home,
        colours,
    } = &objects[object as usize].kind
    else {
        unreachable!()
    };
    match &mut folds.of[object as usize] {
        Fold::Tx(fold) => peek_in(alloc, command, colours.as_slice(), key, world, fold),
        _ => unreachable!(),
    }
}

// Whether the transaction with this key, which is among the nodes that are read, commits, and the text that says so. Where
// there is no memory, the fold may begin anew.
fn decision(
    alloc: Global,
    world: &World,
    read: LinesRead,
    waits: Key,
    ruled: &mut LinesFold<RuledFold>,
) -> Result<(bool, Text), AllocError>
    requires client { read.client < length world.now.shape.homes }
    requires within { AreBelow world.now.shape.colours read.colours }
    requires folded { IsLinesFold IsRuled (world_of world.now) ruled.old }
    ensures commits { let w = world_of world.now in IfOk result (λ r. r.0 ≡ commits_among
        (map (object_node_at w) (keys_read w read.client read.stamp (members read.colours))) waits) }
    ensures text { IfOk result (λ r. r.1 ≡ decision_text (record { key = waits; commits = r.0 })) }
    ensures folded { IsLinesFold IsRuled (world_of world.now) ruled.new }
{
    world.agrees();
    ruled.fold_to(alloc, world, read)?;
    // The transaction is among those that were read, so there is an outcome.
    let commits = ruled.kept.state.outcome(waits).unwrap_or(false);
    let text = write_decision(
        alloc,
        &Decision {
            key: waits,
            commits,
        },
    )?;
    Ok((commits, text))
}

// The append of a decision with this text to a colour, and how it ends. All other memory is taken before it.
fn append_decision(
    alloc: Global,
    command: &Command,
    colour: u8,
    text: &Text,
    world: &mut World,
) -> Ended
    requires caller { command.now.client < length world.old.shape.homes }
    requires within { colour < world.old.shape.colours }
    ensures { EndsDecision command.now colour text.now (world_of world.old) (world_of world.new) result }
{
    match append_one(alloc, command, colour, text, world) {
        Ok(answer) => match answer {
            Answer::Stood {
                stamp,
                row: _row,
                points,
            } => Ended::Stood {
                stamp,
                point: points.as_slice()[0],
            },
            _ => Ended::StampEnd { colour },
        },
        Err(_) => Ended::NoMemory,
    }
}

// The answer to a decide on the transaction with this key, for which the part waits behind the sync, by what the stamped read
// of all colours came to.
fn decide_by(
    alloc: Global,
    command: &Command,
    colours: Colours,
    waits: Key,
    sync: SyncPiece,
    read: Stamped,
    world: &mut World,
    ruled: &mut LinesFold<RuledFold>,
) -> Answer
    requires caller { command.now.client < length world.old.shape.homes }
    requires within { AreBelow world.old.shape.colours colours }
    requires shard { sync.colour < world.old.shape.colours }
    requires folded { IsLinesFold IsRuled (world_of world.old) ruled.old }
    ensures decides { (own : List ℕ) (old : Meant) → members colours ≡ rising own
        → ReadsStamped old (world_of world.old) command.now.client (members colours)
        (end_in (world_of world.old) command.now.client (members colours) read)
        → DecidesBehind command.now own sync waits old (world_of world.new) result }
    ensures folded { IsLinesFold IsRuled (world_of world.new) ruled.new }
{
    world.agrees();
    match read {
        Stamped::Unraised => Answer::NoMemory,
        Stamped::Refused { colour, base } => Answer::Trimmed { colour, base },
        Stamped::Whole {
            stamp,
            raises,
            syncs,
        } => {
            let lines = LinesRead {
                client: command.client,
                colours,
                stamp,
            };
            match decision(alloc, world, lines, waits, ruled) {
                Ok((commits, text)) => Answer::Decided {
                    commits,
                    stamp: waits.stamp,
                    sync,
                    read_stamp: stamp,
                    raises,
                    syncs,
                    ended: append_decision(alloc, command, sync.colour, &text, world),
                },
                Err(_) => Answer::NoMemory,
            }
        }
    }
}

// Decides on the transaction with this key, for which the part waits behind the sync: a stamped read of all colours tells what
// became of it, and a node says so on the colour of the sync.
fn decide_on(
    alloc: Global,
    command: &Command,
    colours: Colours,
    waits: Key,
    sync: SyncPiece,
    world: &mut World,
    ruled: &mut LinesFold<RuledFold>,
) -> Answer
    requires caller { command.now.client < length world.old.shape.homes }
    requires within { AreBelow world.old.shape.colours colours }
    requires some { members colours ≢ [] }
    requires shard { sync.colour < world.old.shape.colours }
    requires folded { IsLinesFold IsRuled (world_of world.old) ruled.old }
    ensures decides { (own : List ℕ) → members colours ≡ rising own
        → DecidesBehind command.now own sync waits (world_of world.old) (world_of world.new) result }
    ensures folded { IsLinesFold IsRuled (world_of world.new) ruled.new }
{
    world.agrees();
    match stamped_read(alloc, world, command.client, colours) {
        Err(_) => Answer::NoMemory,
        Ok(read) => decide_by(alloc, command, colours, waits, sync, read, world, ruled),
    }
}

// A decide on a key of a map with these colours: plays the shard of the key up to the cut, and decides on the transaction for
// which the part waits, if there is one; refused where a node that has to be played is trimmed.
fn decide_in(
    alloc: Global,
    command: &Command,
    colours: &[u8],
    all: Colours,
    key: &Text,
    world: &mut World,
    fold: &mut TxFolds,
) -> Result<Answer, AllocError>
    requires caller { command.now.client < length world.old.shape.homes }
    requires colours { AreObjectColours world.old.shape.colours colours.now }
    requires all { members all ≡ rising colours.now }
    requires within { AreBelow world.old.shape.colours all }
    requires some { members all ≢ [] }
    requires folded { let w = world_of world.old in
        AreTxFolds w (Kind.Parts (home_of w command.now.client) colours.now) fold.old }
    ensures ok { (objects : List Object) (object : ℕ) → object_colours (kind_in objects object) ≡ colours.now
        → IfOk result (λ answer. DoneBy (λ grants state. decided objects grants state command.now object key.now)
        command.now (world_of world.old) (world_of world.new) answer []) }
    ensures err { OnErr result (world_of world.new ≡ world_of world.old) }
    ensures folded { let w = world_of world.old in
        AreTxFolds (world_of world.new) (Kind.Parts (home_of w command.now.client) colours.now) fold.new }
{
    world.is_whole();
    let colour = shard_of(colours, key.as_bytes());
    if let Some(base) = trimmed_base(world, command.client, colour) {
        return Ok(Answer::Trimmed { colour, base });
    }
    let (waits, sync) = fold.waits(alloc, world, command.client, colours, key.as_bytes())?;
    let _played = world.play(command.client, colour);
    match waits {
        None => Ok(Answer::Got { value: None, sync }),
        Some(waits) => Ok(decide_on(alloc, command, all, waits, sync, world, &mut fold.ruled)),
    }
}

/// A decide: on the shard of a key, where its own line waits for a transaction, a node says what became of that, after a
/// stamped read of all colours of the map.
pub fn decide(
    alloc: Global,
    objects: &[Object],
    command: &Command,
    object: u8,
    key: &Text,
    world: &mut World,
    folds: &mut Folds,
) -> Result<Answer, AllocError>
    requires asks { command.now.what ≡ What.Decide object key.now }
    requires caller { command.now.client < length world.old.shape.homes }
    requires kinds { AreKindsWithin world.old.shape objects.now }
    requires uses { UsesObject objects.now (What.Decide object key.now) }
    requires near { refusing_home (caller_in (world_of world.old) objects.now command.now.client)
        (What.Decide object key.now) ≡ None }
    requires folded { AreFolded (world_of world.old) objects.now folds.old }
    ensures ok { IfOk result (λ answer. DoesAtHome objects.now command.now (world_of world.old) (world_of world.new) answer []) }
    ensures err { OnErr result (world_of world.new ≡ world_of world.old) }
    ensures folded { AreFolded (world_of world.new) objects.now folds.new }
{
    world.is_whole();
    let kind = &objects[object as usize].kind;
    let all = all_colours(kind);
    let Kind::Parts {
        home: _home,
        colours,
    } = kind
    else {
        unreachable!()
    };
    match &mut folds.of[object as usize] {
        Fold::Tx(fold) => decide_in(alloc, command, colours.as_slice(), all, key, world, fold),
        _ => unreachable!(),
    }
}
