// The thirteenth rule: what answers show of trees is what these say.
ghost use Rattle.std.specs.Prelude.{◌≡◌, ◌<◌, List, Some, length, IfOk, OnOk};
ghost use Rattle.log_node.specs.declared.node.Node.{Node as Appended};
ghost use Rattle.tree_fold.specs.Trees.{told_under};
ghost use Rattle.lawful_run.specs.Asks.{Committing};
ghost use Rattle.lawful_run.specs.Callers.{caller_of};
ghost use Rattle.lawful_run.specs.Deeds.{manner_of};
ghost use Rattle.column_track.specs.Tracks.{Tells};
ghost use Rattle.run_rules.specs.Deciding.{account_showing, nodes_showing};
ghost use Rattle.run_rules.specs.Keeping.{RulesTo};
ghost use Rattle.run_rules.specs.Shown.{Rule13};
ghost use Rattle.run_rules.specs.Told.{Step};
ghost use Rattle.object_law.specs.NodeTables.{AreNodes};
ghost use Rattle.object_law.specs.PartAnswers.{IfThere};
ghost use Rattle.object_law.specs.Thirteenth.{ListsNames, TellsChange, TreesSaySo};
ghost use Rattle.object_law.specs.TreePlays.{IsTreePlay, SyncsWhole, TreesStand};
ghost use Rattle.walk_law.specs.Walking.{IsSeen, IsStepOf, Walked};

use crate::node_table::NodeTable;
use crate::object_laws::thirteenth_is_said;
use crate::play_walk::{PlayCheck, each_step_played};
use crate::tree_play::TreePlay;
use log_node::{Key, MAX_REGIONS, Names};
use object_form::TreeWhy;
use report_text::Answer;
use script_text::What;
use std::alloc::{AllocError, Global};
use std::mem;
use tree_fold::Told;
use walk_law::{Keeping, Subject};

// How many objects a region can have.
const OBJECTS: usize = 256;

// How many there can be in all regions.
const PLACES: usize = MAX_REGIONS as usize * OBJECTS;

/// Trees of which something was asked, by region and object.
#[derive(Drop)]
pub(crate) struct TreePlays {
    plays: Vec<Option<TreePlay>>,
}

// The place of an object of a region in a table of all.
fn cell(region: u8, object: u8) -> usize {
    OBJECTS * region as usize + object as usize
}

// The object of a command that syncs all of its colours, each once.
fn synced_object(what: &What) -> Option<u8>
    ensures { SyncsWhole what.now result }
{
    match what {
        What::Read { object, .. }
        | What::Commit { object, .. }
        | What::Mk { object, .. }
        | What::Rm { object, .. }
        | What::Mv { object, .. }
        | What::Ls { object, .. } => Some(*object),
        _ => None,
    }
}

// Whether this is told of a change under a stamp, which failed for this reason or is done.
fn is_told(told: Option<Told>, failed: Option<TreeWhy>, stamp: u64) -> bool
    ensures { Tells result (told ≡ Some (told_under stamp failed)) }
{
    let right = match failed {
        Some(why) => Told::Failed { stamp, why },
        None => Told::Done { stamp },
    };
    match told {
        Some(told) => told == right,
        None => false,
    }
}

impl TreePlays {
    // None is played.
    fn new(alloc: Global) -> Result<TreePlays, AllocError>
        ensures { (walked : Walked) (table : List (List Appended)) → IfOk result (λ plays. TreesStand plays walked table) }
    {
        let mut plays = Vec::with_capacity(alloc, PLACES)?;
        for _ in 0..PLACES {
            plays.push(None)?;
        }
        Ok(TreePlays { plays })
    }

    // Takes out what is played in a place.
    fn take(&mut self, at: usize) -> Option<TreePlay>
        ensures { (walked : Walked) (table : List (List Appended)) → TreesStand self.old walked table
            → IfThere (IsTreePlay walked table) result × TreesStand self.new walked table }
    {
        if at < self.plays.len() {
            mem::replace(&mut self.plays[at], None)
        } else {
            None
        }
    }

    // Puts it back.
    fn put(&mut self, at: usize, play: TreePlay)
        ensures { (walked : Walked) (table : List (List Appended)) → TreesStand self.old walked table → IsTreePlay walked table play
            → TreesStand self.new walked table }
    {
        if at < self.plays.len() {
            self.plays[at] = Some(play);
        }
    }

    // The tree of an object in a region: what was played of it, or before any node.
    fn tree_of(
        &mut self,
        alloc: Global,
        subject: &Subject<'_>,
        nodes: &NodeTable,
        region: u8,
        object: u8,
    ) -> Result<TreePlay, AllocError>
        requires region { region < subject.now.script.shape.regions }
        requires stands { TreesStand self.old subject.now nodes.now }
        ensures play { IfOk result (IsTreePlay subject.now nodes.now) }
        ensures region { IfOk result (λ p. p.region ≡ region) }
        ensures object { IfOk result (λ p. p.object ≡ object) }
        ensures stands { OnOk result (TreesStand self.new subject.now nodes.now) }
    {
        if let Some(play) = self.take(cell(region, object)) {
            if play.is_of(region, object) {
                return Ok(play);
            }
        }
        let play = TreePlay::open(alloc, subject, nodes, region, object)?;
        Ok(play)
    }

    // Whether the tree tells this of the change with a key, up to the stamp of a read.
    fn tells_change(
        &mut self,
        alloc: Global,
        subject: &Subject<'_>,
        nodes: &NodeTable,
        client: u8,
        what: &What,
        own: Key,
        failed: Option<TreeWhy>,
        stamp: u64,
        read_stamp: u64,
    ) -> Result<bool, AllocError>
        requires client { client < length subject.now.report.clients }
        requires stands { TreesStand self.old subject.now nodes.now }
        ensures told { manner_of what.now ≡ Committing → IfOk result (λ b. Tells b
            (TellsChange subject.now nodes.now (caller_of subject.now.script client) what.now failed stamp own read_stamp)) }
        ensures stands { OnOk result (TreesStand self.new subject.now nodes.now) }
    {
        let Some(object) = synced_object(what) else {
            return Ok(false);
        };
        let region = subject.own(client);
        let play = self.tree_of(alloc, subject, nodes, region, object)?;
        let told = play.told(own, read_stamp);
        self.put(cell(region, object), play);
        Ok(is_told(told, failed, stamp))
    }

    // Whether the tree has these names in the path for which a command asks, or no such path.
    fn lists_names(
        &mut self,
        alloc: Global,
        subject: &Subject<'_>,
        nodes: &NodeTable,
        client: u8,
        what: &What,
        names: &Option<Names>,
        stamp: u64,
    ) -> Result<bool, AllocError>
        requires client { client < length subject.now.report.clients }
        requires stands { TreesStand self.old subject.now nodes.now }
        ensures told { IfOk result (λ b. Tells b
            (ListsNames subject.now nodes.now (caller_of subject.now.script client) what.now names.now stamp)) }
        ensures stands { OnOk result (TreesStand self.new subject.now nodes.now) }
    {
        let What::Ls { object, path } = what else {
            return Ok(false);
        };
        let region = subject.own(client);
        let mut play = self.tree_of(alloc, subject, nodes, region, *object)?;
        let right = play.has_names(alloc, nodes, path, names, stamp)?;
        self.put(cell(region, *object), play);
        Ok(right)
    }

    // Whether what a step shows of a tree is what the tree says.
    fn say_so(
        &mut self,
        alloc: Global,
        subject: &Subject<'_>,
        nodes: &NodeTable,
        client: u8,
        place: usize,
        keeping: &Keeping,
    ) -> Result<bool, AllocError>
        requires there { IsStepOf subject.now client place }
        requires stands { TreesStand self.old subject.now nodes.now }
        ensures told { (step : Step) → IsSeen subject.now client place keeping.now step → IfOk result (λ b. Tells b
            (TreesSaySo subject.now nodes.now (caller_of subject.now.script client) step)) }
        ensures stands { OnOk result (TreesStand self.new subject.now nodes.now) }
    {
        let what = &subject.command(client, place).what;
        match &subject.reply(client, place).answer {
            Answer::Changed {
                failed,
                stamp,
                row,
                points,
                read_stamp,
                ..
            } => {
                let own = Key {
                    stamp: keeping.stamp_told(subject, client, *row, points.as_slice()),
                    id: keeping.next_id(client),
                };
                self.tells_change(
                    alloc,
                    subject,
                    nodes,
                    client,
                    what,
                    own,
                    *failed,
                    *stamp,
                    *read_stamp,
                )
            }
            Answer::Listed { names, stamp, .. } => {
                self.lists_names(alloc, subject, nodes, client, what, names, *stamp)
            }
            _ => Ok(true),
        }
    }
}

impl PlayCheck for TreePlays {
    ghost Asks = { TreesSaySo };

    ghost Stands = { TreesStand };

    fn go_on(
        &mut self,
        alloc: Global,
        subject: &Subject<'_>,
        nodes: &NodeTable,
        client: u8,
        place: usize,
        keeping: &mut Keeping,
    ) -> Result<bool, AllocError> {
        if !self.say_so(alloc, subject, nodes, client, place, keeping)? {
            return Ok(false);
        }
        keeping.go_on(alloc, subject, client, place)?;
        Ok(true)
    }
}

/// Whether the thirteenth rule holds of a report that keeps the rules before at the account that shows what reads found: whether
/// what each answer shows of a tree is what the tree says by the nodes of that account.
pub fn keeps_thirteenth(
    alloc: Global,
    subject: &Subject<'_>,
    nodes: &NodeTable,
) -> Result<bool, AllocError>
    requires nodes { AreNodes (nodes_showing subject.now.script subject.now.report) nodes.now }
    requires kept { RulesTo subject.now.script subject.now.report (account_showing subject.now.script subject.now.report) 12 }
    ensures { IfOk result (λ b. Tells b
        (Rule13 subject.now.script subject.now.report (account_showing subject.now.script subject.now.report))) }
{
    subject.agrees();
    thirteenth_is_said();
    let mut plays = TreePlays::new(alloc)?;
    each_step_played(alloc, subject, nodes, &mut plays)
}
