// Transactions: reads of transactional maps, and commits that rest on them.
ghost use Rattle.std.specs.Prelude.{◌≡◌, ◌<◌, ◌++◌, List, [], Option, IfOk, IfSome, OnErr, Some, None, length, map};
ghost use Rattle.object_form.specs.Forms.{AreVersions};
ghost use Rattle.script_text.specs.Fitting.{AreObjectColours, UsesObject};
ghost use Rattle.lawful_run.specs.Asks.{object_colours, keys_of_pairs};
ghost use Rattle.world_code.specs.WorldView.{world_of};
ghost use Rattle.script_meaning.specs.Objects.{shard_set};
ghost use Rattle.script_meaning.specs.Transactions.{version_keys, read_in, committed_by};
ghost use Rattle.script_meaning.specs.Meaning.{done};
ghost use Rattle.script_in_order.specs.Doing.{IsFit, DoneBy, transaction_of, AreKindsWithin};
ghost use Rattle.script_in_order.specs.Folds.{AreFolded};
ghost use Rattle.script_in_order.specs.Transacting.{LeavesForCommit};

use crate::folds::{Fold, Folds};
use crate::homes::refusing_home;
use crate::lines_fold::LinesRead;
use crate::object_appends::{all_colours, copied_pairs, shard};
use crate::stamped::{Stamped, stamped_read};
use crate::told::append_and_tell;
use log_node::{Colours, Form, Keys, MAX_COLOURS, Pair, Pairs, Version, Versions};
use object_form::write_form;
use report_text::Answer;
use script_text::{Command, Kind, Object, ReadUse, Use, What};
use std::alloc::{AllocError, Global};
use world_code::World;

/// The object that a read or a commit is of.
pub fn transaction_of(what: &What) -> Option<u8>
    ensures { result ≡ transaction_of what.now }
{
    match what.use_of() {
        Use::OfObject {
            object,
            read: ReadUse::Takes,
        } => Some(object),
        Use::OfObject {
            object,
            read: ReadUse::UsesUp,
        } => Some(object),
        _ => None,
    }
}

// The set of the shards of the keys that a transaction has read and writes.
fn shards_of(kind: &Kind, versions: &[Version], pairs: &[Pair]) -> Colours
    requires { AreObjectColours MAX_COLOURS (object_colours (Some kind.now)) }
    ensures { result ≡ shard_set (object_colours (Some kind.now)) (version_keys versions.now ++ keys_of_pairs pairs.now) }
{
    let mut set = Colours::NONE;
    for version in versions {
        set = set.with(shard(kind, version.key.as_bytes()));
    }
    for pair in pairs {
        set = set.with(shard(kind, pair.key.as_bytes()));
    }
    set
}

// A read of keys: a stamped read of all colours of the map, and what the nodes that were read leave under the keys. Beside
// the answer stands who wrote these last, unless the read was refused or found no memory.
fn read(
    alloc: Global,
    objects: &[Object],
    command: &Command,
    object: u8,
    keys: &Keys,
    world: &mut World,
    folds: &mut Folds,
) -> Result<(Answer, Option<Versions>), AllocError>
    requires asks { command.now.what ≡ What.Read object keys.now }
    requires caller { command.now.client < length world.old.shape.homes }
    requires kinds { AreKindsWithin world.old.shape objects.now }
    requires uses { UsesObject objects.now (What.Read object keys.now) }
    requires folded { AreFolded (world_of world.old) objects.now folds.old }
    ensures ok { IfOk result (λ g. (taken : Option (List Version))
        → LeavesForCommit (λ grants state. read_in objects.now grants state command.now object keys.now) command.now object taken
        (world_of world.old) (world_of world.new) g.0 g.1) }
    ensures err { OnErr result (world_of world.new ≡ world_of world.old) }
    ensures folded { AreFolded (world_of world.new) objects.now folds.new }
{
    world.is_whole();
    let colours = all_colours(&objects[object as usize].kind);
    match stamped_read(alloc, world, command.client, colours)? {
        Stamped::Unraised => Ok((Answer::NoMemory, None)),
        Stamped::Refused { colour, base } => Ok((Answer::Trimmed { colour, base }, None)),
        Stamped::Whole {
            stamp,
            raises,
            syncs,
        } => {
            let lines = LinesRead {
                client: command.client,
                colours,
                stamp,
            };
            match folds.found(alloc, world, object, lines, keys) {
                Ok((keys, versions)) => {
                    let answer = Answer::GotKeys {
                        stamp,
                        keys,
                        raises,
                        syncs,
                    };
                    Ok((answer, Some(versions)))
                }
                Err(_) => Ok((Answer::NoMemory, None)),
            }
        }
    }
}

// A commit that rests on these versions: its transaction is appended to the shards of the keys read and written, and it is told
// the verdict.
fn commit_on(
    alloc: Global,
    objects: &[Object],
    command: &Command,
    object: u8,
    pairs: &Pairs,
    reads: Versions,
    world: &mut World,
    folds: &mut Folds,
) -> Result<Answer, AllocError>
    requires caller { command.now.client < length world.old.shape.homes }
    requires kinds { AreKindsWithin world.old.shape objects.now }
    requires uses { UsesObject objects.now (What.Commit object pairs.now) }
    requires rests { AreVersions reads }
    requires folded { AreFolded (world_of world.old) objects.now folds.old }
    ensures ok { IfOk result (λ answer. DoneBy
        (λ grants state. committed_by objects.now grants state command.now object pairs.now (Some reads)) command.now
        (world_of world.old) (world_of world.new) answer []) }
    ensures err { OnErr result (world_of world.new ≡ world_of world.old) }
    ensures folded { AreFolded (world_of world.new) objects.now folds.new }
{
    world.is_whole();
    let kind = &objects[object as usize].kind;
    let colours = all_colours(kind);
    let set = shards_of(kind, reads.as_slice(), pairs.as_slice());
    let writes = copied_pairs(alloc, pairs.as_slice())?;
    let text = write_form(alloc, &Form::Transaction { reads, writes })?;
    match &mut folds.of[object as usize] {
        Fold::Tx(fold) => append_and_tell(
            alloc,
            command,
            colours,
            set,
            &text,
            world,
            &mut fold.map,
        ),
        _ => unreachable!(),
    }
}

// A commit that rests on what the client's last read of the map found; without such a read it is refused.
fn commit(
    alloc: Global,
    objects: &[Object],
    command: &Command,
    object: u8,
    pairs: &Pairs,
    taken: Option<Versions>,
    world: &mut World,
    folds: &mut Folds,
) -> Result<Answer, AllocError>
    requires caller { command.now.client < length world.old.shape.homes }
    requires kinds { AreKindsWithin world.old.shape objects.now }
    requires uses { UsesObject objects.now (What.Commit object pairs.now) }
    requires rests { IfSome taken AreVersions }
    requires folded { AreFolded (world_of world.old) objects.now folds.old }
    ensures ok { IfOk result (λ answer. DoneBy
        (λ grants state. committed_by objects.now grants state command.now object pairs.now taken) command.now
        (world_of world.old) (world_of world.new) answer []) }
    ensures err { OnErr result (world_of world.new ≡ world_of world.old) }
    ensures folded { AreFolded (world_of world.new) objects.now folds.new }
{
    match taken {
        None => Ok(Answer::NoTx),
        Some(reads) => commit_on(alloc, objects, command, object, pairs, reads, world, folds),
    }
}

/// What a read or a commit of an object is answered, and what the client keeps of the object then. A commit takes what the
/// client's last read of it found. `Err` means that it found no memory before it did anything; then nothing is kept.
pub fn transact(
    alloc: Global,
    objects: &[Object],
    command: &Command,
    object: u8,
    taken: Option<Versions>,
    world: &mut World,
    folds: &mut Folds,
) -> Result<(Answer, Option<Versions>), AllocError>
    requires kind { transaction_of command.now.what ≡ Some object }
    requires fits { IsFit (world_of world.old) objects.now command.now.client command.now.what }
    requires rests { IfSome taken AreVersions }
    requires folded { AreFolded (world_of world.old) objects.now folds.old }
    ensures ok { IfOk result (λ g. LeavesForCommit (λ grants state. done objects.now grants state command.now) command.now object
        taken (world_of world.old) (world_of world.new) g.0 g.1) }
    ensures err { OnErr result (world_of world.new ≡ world_of world.old) }
    ensures folded { AreFolded (world_of world.new) objects.now folds.new }
{
    match refusing_home(objects, command, world) {
        Some(home) => Ok((Answer::NotHome { home }, None)),
        None => match &command.what {
            What::Read {
                object: _object,
                keys,
            } => read(alloc, objects, command, object, keys, world, folds),
            What::Commit {
                object: _object,
                pairs,
            } => {
                let answer = commit(alloc, objects, command, object, pairs, taken, world, folds)?;
                Ok((answer, None))
            }
            _ => unreachable!(),
        },
    }
}
