// Commands that append a node to an object, and are told what becomes of it by a stamped read of all colours of the object.
//
// What a command of this shape adds:
//
// - of an object that no such command had: a variant of `Fold` with its row in `IsFoldOf`, and an `impl Shown` here;
// - its meaning, `appended_and_told` with what it is told, and a lemma that this is what the object tells (as `tells_verdict`);
// - a function that makes the set and the text of the command's node and calls `append_and_tell` with the object's fold (as
//   `commit_on` of `transactions.rt`).
ghost use Rattle.std.specs.Prelude.{◌≡◌, ◌≢◌, ◌<◌, [], IfOk, OnErr, length};
ghost use Rattle.log_node.specs.Sets.{members};
ghost use Rattle.object_fold.specs.declared.verdict.Verdict.TheVariants.{Committed};
ghost use Rattle.tree_fold.specs.declared.told.Told.TheVariants.{Done};
ghost use Rattle.script_text.specs.Fitting.{AreBelow, HasColours};
ghost use Rattle.world_laws.specs.Worlds.{World as Meant};
ghost use Rattle.world_code.specs.WorldView.{world_of};
ghost use Rattle.script_meaning.specs.Stamped.{keys_read};
ghost use Rattle.script_meaning.specs.Transactions.{verdict_answer};
ghost use Rattle.script_meaning.specs.Trees.{change_answer};
ghost use Rattle.script_in_order.specs.Folds.{IsLinesFold};
ghost use Rattle.script_in_order.specs.Stamped.{ReadsStamped, end_in};
ghost use Rattle.script_in_order.specs.Telling.{AppendsAndTells, TellsAt, tells_by, told_in};

use crate::appends::{append, next_id};
use crate::lines_fold::{LinesFold, LinesRead};
use crate::stamped::{Stamped, stamped_read};
use log_node::{Colours, Key, ListOf, Text};
use object_fold::{NodeFold, TxState, Verdict};
use report_text::{Answer, PointPiece, Points, RaisePiece, SyncPiece};
use script_text::Command;
use std::alloc::{AllocError, Global};
use tree_fold::{Told, TreeFold};
use world_code::World;

/// An object whose nodes are told something, and how a report shows that.
///
/// Who implements it says by two ghost members which answer shows what a node is told, and as what a node is shown that is told
/// nothing.
pub trait Shown: NodeFold {
    ghost use Rattle.std.specs.Prelude.{◌≡◌, ℕ, List, Option};
    ghost use Rattle.log_node.specs.declared.ids.Key.{Key};
    ghost use Rattle.report_text.specs.declared.report.Answer.{Answer};
    ghost use Rattle.report_text.specs.declared.report.PointPiece.{PointPiece};
    ghost use Rattle.report_text.specs.declared.report.RaisePiece.{RaisePiece};
    ghost use Rattle.report_text.specs.declared.report.SyncPiece.{SyncPiece};

    // the answer that shows what a node in a row and at points is told, and the stamp, raises and syncs of the read behind it
    ghost shown: { Self.Told → Option ℕ → List PointPiece → ℕ → List RaisePiece → List SyncPiece → Answer };

    // what a node with this key is shown as being told, where it is told nothing
    ghost untold: { Key → Self.Told };

    /// The answer that shows what a node is told: its row, where it has several points, and these; and the stamp, raises and
    /// syncs of the stamped read behind it. Takes no memory.
    fn show(
        told: Self::Told,
        row: Option<u32>,
        points: ListOf<PointPiece>,
        read_stamp: u64,
        raises: ListOf<RaisePiece>,
        syncs: ListOf<SyncPiece>,
    ) -> Answer
        ensures { result ≡ shown told row points read_stamp raises syncs };

    /// What a node with this key is shown as being told, where it is told nothing. Takes no memory.
    fn untold(own: Key) -> Self::Told
        ensures { result ≡ untold own };
}

impl Shown for TxState {
    ghost shown = { verdict_answer };

    ghost untold = { λ own. Committed own.stamp };

    fn show(
        told: Verdict,
        row: Option<u32>,
        points: ListOf<PointPiece>,
        read_stamp: u64,
        raises: ListOf<RaisePiece>,
        syncs: ListOf<SyncPiece>,
    ) -> Answer {
        let (conflict, stamp) = match told {
            Verdict::Committed { stamp } => (None, stamp),
            Verdict::Conflict { key, stamp } => (Some(key), stamp),
        };
        Answer::Ruled {
            conflict,
            stamp,
            row,
            points,
            read_stamp,
            raises,
            syncs,
        }
    }

    fn untold(own: Key) -> Verdict {
        Verdict::Committed { stamp: own.stamp }
    }
}

impl Shown for TreeFold {
    ghost shown = { change_answer };

    ghost untold = { λ own. Done own.stamp };

    fn show(
        told: Told,
        row: Option<u32>,
        points: ListOf<PointPiece>,
        read_stamp: u64,
        raises: ListOf<RaisePiece>,
        syncs: ListOf<SyncPiece>,
    ) -> Answer {
        let (failed, stamp) = match told {
            Told::Done { stamp } => (None, stamp),
            Told::Failed { stamp, why } => (Some(why), stamp),
        };
        Answer::Changed {
            failed,
            stamp,
            row,
            points,
            read_stamp,
            raises,
            syncs,
        }
    }

    fn untold(own: Key) -> Told {
        Told::Done { stamp: own.stamp }
    }
}

// What the own node is told among the nodes that are read, and its points as a list.
fn told_at<F: Shown>(
    alloc: Global,
    world: &World,
    read: LinesRead,
    own: Key,
    points: Points,
    fold: &mut LinesFold<F>,
) -> Result<(F::Told, ListOf<PointPiece>), AllocError>
    requires client { read.client < length world.now.shape.homes }
    requires within { AreBelow world.now.shape.colours read.colours }
    requires folded { IsLinesFold F.Holds (world_of world.now) fold.old }
    ensures told { IfOk result (λ r. r.0 ≡ told_in F.told F.untold (world_of world.now)
        (keys_read (world_of world.now) read.client read.stamp (members read.colours)) own) }
    ensures points { IfOk result (λ r. r.1 ≡ points) }
    ensures folded { IsLinesFold F.Holds (world_of world.now) fold.new }
{
    let told = fold.told(alloc, world, read, own)?;
    let points = Vec::from_slice(alloc, points.as_slice())?;
    Ok((told.unwrap_or(F::untold(own)), ListOf::from(points)))
}

// The answer to a command whose node stands under this key, in the row and at the points, by what the stamped read of these
// colours behind it came to.
fn tell_by<F: Shown>(
    alloc: Global,
    client: u8,
    colours: Colours,
    own: Key,
    row: Option<u32>,
    points: Points,
    read: Stamped,
    world: &World,
    fold: &mut LinesFold<F>,
) -> Answer
    requires caller { client < length world.now.shape.homes }
    requires within { AreBelow world.now.shape.colours colours }
    requires folded { IsLinesFold F.Holds (world_of world.now) fold.old }
    ensures is_told { (old : Meant) → ReadsStamped old (world_of world.now) client (members colours)
        (end_in (world_of world.now) client (members colours) read)
        → TellsAt (tells_by F.told F.shown F.untold) client (members colours) own row points
        old (world_of world.now) result }
    ensures folded { IsLinesFold F.Holds (world_of world.now) fold.new }
{
    match read {
        Stamped::Unraised => Answer::UnreadNoMemory { stamp: own.stamp },
        Stamped::Refused { colour, base } => Answer::UnreadTrimmed {
            stamp: own.stamp,
            colour,
            base,
        },
        Stamped::Whole {
            stamp,
            raises,
            syncs,
        } => {
            let lines = LinesRead {
                client,
                colours,
                stamp,
            };
            match told_at(alloc, world, lines, own, points, fold) {
                Ok((told, points)) => F::show(told, row, points, stamp, raises, syncs),
                Err(_) => Answer::UnreadNoMemory { stamp: own.stamp },
            }
        }
    }
}

// The stamped read behind a command's node, which stands under this key, in the row and at the points, and what the command
// is told, as its answer.
fn tell<F: Shown>(
    alloc: Global,
    client: u8,
    colours: Colours,
    own: Key,
    row: Option<u32>,
    points: Points,
    world: &mut World,
    fold: &mut LinesFold<F>,
) -> Answer
    requires caller { client < length world.old.shape.homes }
    requires within { AreBelow world.old.shape.colours colours }
    requires some { members colours ≢ [] }
    requires folded { IsLinesFold F.Holds (world_of world.old) fold.old }
    ensures is_told { TellsAt (tells_by F.told F.shown F.untold) client (members colours) own row
        points (world_of world.old) (world_of world.new) result }
    ensures folded { IsLinesFold F.Holds (world_of world.new) fold.new }
{
    world.agrees();
    match stamped_read(alloc, world, client, colours) {
        Err(_) => Answer::UnreadNoMemory { stamp: own.stamp },
        Ok(read) => tell_by(alloc, client, colours, own, row, points, read, world, fold),
    }
}

/// A command of an object with these colours: a node with the text is appended to the set, a stamped read of all colours of
/// the object follows, and by its fold the command is told what becomes of the node.
pub fn append_and_tell<F: Shown>(
    alloc: Global,
    command: &Command,
    colours: Colours,
    set: Colours,
    text: &Text,
    world: &mut World,
    fold: &mut LinesFold<F>,
) -> Result<Answer, AllocError>
    requires caller { command.now.client < length world.old.shape.homes }
    requires within { AreBelow world.old.shape.colours colours }
    requires some { members colours ≢ [] }
    requires set { AreBelow world.old.shape.colours set }
    requires many { HasColours 1 set }
    requires folded { IsLinesFold F.Holds (world_of world.old) fold.old }
    ensures ok { IfOk result (AppendsAndTells (tells_by F.told F.shown F.untold) (members colours) command.now
        set text.now (world_of world.old) (world_of world.new)) }
    ensures err { OnErr result (world_of world.new ≡ world_of world.old) }
    ensures folded { IsLinesFold F.Holds (world_of world.new) fold.new }
{
    world.is_whole();
    let id = next_id(world, command.client);
    match append(alloc, command, set, text, world)? {
        Answer::Stood { stamp, row, points } => {
            let own = Key { stamp, id };
            Ok(tell(
                alloc,
                command.client,
                colours,
                own,
                row,
                points,
                world,
                fold,
            ))
        }
        other => Ok(other),
    }
}
