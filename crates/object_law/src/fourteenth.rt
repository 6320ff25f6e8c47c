// The fourteenth rule: a map that is played by its parts answers what one colour's line tells, and a decision is the verdict among
// the nodes that were read, as its node says.
ghost use Rattle.std.specs.Prelude.{◌≡◌, ◌≢◌, ◌<◌, List, Some, IfOk, OnOk, ℕ, length};
ghost use Rattle.std.specs.List.{All, AllPairs};
ghost use Rattle.std.specs.Option.{option_copied};
ghost use Rattle.log_node.specs.declared.node.Node.{Node as Appended};
ghost use Rattle.log_node.specs.Seen.{PlacedNode};
ghost use Rattle.log_node.specs.Vectors.{at};
ghost use Rattle.object_fold.specs.Nodes.{ObjectNode};
ghost use Rattle.object_fold.specs.Transactions.{verdict_of};
ghost use Rattle.part_fold.specs.Agreement.{outcome};
ghost use Rattle.part_fold.specs.Decisions.{decision_text};
ghost use Rattle.part_fold.specs.PartStates.{IsPart};
ghost use Rattle.col_core.specs.Keeping.{Kept};
ghost use Rattle.col_core.specs.Log.{HasText};
ghost use Rattle.script_text.specs.Fitting.{AreObjectColours};
ghost use Rattle.lawful_run.specs.Asks.{kind_asked};
ghost use Rattle.lawful_run.specs.Callers.{Caller, caller_of};
ghost use Rattle.script_text.specs.declared.script.Kind.TheVariants as kinds;
ghost use Rattle.lawful_run.specs.Parts.{AnswersGet, AnswersUndecided, AsksOf};
ghost use Rattle.column_track.specs.Tracks.{Tells};
ghost use Rattle.run_rules.specs.Answering.{CanGet, CanHave};
ghost use Rattle.run_rules.specs.Computing.{finds_of};
ghost use Rattle.run_rules.specs.Deciding.{ColoursDiffer, decisions_of};
ghost use Rattle.run_rules.specs.Keeping.{Keeps};
ghost use Rattle.run_rules.specs.Nodes.{nodes_with};
ghost use Rattle.run_rules.specs.Shown.{OfParts, SaysSo};
ghost use Rattle.walk_law.specs.Asking.{AreLow};
ghost use Rattle.object_law.specs.Fourteenth.{AnswersByParts, IsDecision, IsPartAnswer, object_nodes, synced_nodes};
ghost use Rattle.object_law.specs.NodeTables.{AreNodes};
ghost use Rattle.object_law.specs.PartAnswers.{ArePartPlays, IfThere, IsPartPlay, IsPlayOf, IsRuledPlay, IsValueOfPart, IsWaitedFor, StandSo, part_colours};
ghost use Rattle.object_law.specs.Tenth.{log_with};
ghost use Rattle.walk_law.specs.Walking.{Walked};

use crate::key_order::KeyOrder;
use crate::node_table::NodeTable;
use crate::object_laws::{fourteenth_is_decided, fourteenth_is_of_parts};
use crate::part_plays::{PartPlay, Shard, place_of};
use crate::play_walk::{PlayCheck, each_step_played};
use crate::queue_plays::is_found;
use crate::ruled_plays::RuledPlay;
use crate::showing::shows_decisions;
use log_node::{ColourList, Id, Key, MAX_COLOURS, MAX_REGIONS, Text};
use part_fold::{Decision, PartFold, write_decision};
use report_text::{Answer, Ended, SyncPiece};
use script_text::{Kind, What};
use std::alloc::{AllocError, Global};
use std::mem;
use walk_law::{Keeping, ShownTexts, Subject, all_colours, kind_asked, same_text};

// How many columns a log can have.
const COLUMNS: usize = MAX_REGIONS as usize * MAX_COLOURS as usize;

/// Transactional maps that are played by their parts: the part of each column, and what became of the transactions of the map whose
/// first colour it is. No two such maps have a colour in common.
#[derive(Drop)]
pub(crate) struct PartPlays {
    parts: Vec<Option<PartPlay>>,
    ruled: Vec<Option<RuledPlay>>,
}

// The place of a column in a table of all.
fn cell(region: u8, colour: u8) -> usize {
    MAX_COLOURS as usize * region as usize + colour as usize
}

/// The colours of the map of a command that is played by its parts.
pub(crate) fn parts_of<'s>(subject: &'s Subject<'_>, what: &What) -> Option<&'s [u8]>
    ensures { (client : ℕ) → option_copied result ≡ part_colours (kind_asked (caller_of subject.now.script client) what.now) }
{
    subject.agrees();
    match kind_asked(subject.script().objects.as_slice(), what) {
        Some(Kind::Parts { colours, .. }) => Some(colours.as_slice()),
        _ => None,
    }
}

// Whether what a command asks of a part has this value.
fn is_value(part: &PartFold, what: &What, value: &Option<Text>) -> bool
    ensures { (nodes : List ObjectNode) → IsPart part.now nodes
        → Tells result (IsValueOfPart what.now value.now part.now.part nodes) }
{
    match what {
        What::Get { key, .. } | What::Peek { key, .. } => {
            part.undecided().is_none() && is_found(value, part.value(key.as_bytes()))
        }
        What::Decide { .. } => value.is_none() && part.undecided().is_none(),
        _ => false,
    }
}

// Whether the node with this id says the decision.
fn says(alloc: Global, nodes: &NodeTable, id: Id, decision: &Decision) -> Result<bool, AllocError>
    ensures { (walked : Walked) → IfOk result (λ b. Tells b (HasText (log_with walked nodes.now) id (decision_text decision.now))) }
{
    let text = write_decision(alloc, decision)?;
    Ok(match nodes.node(id) {
        Some(node) => node.id == id && same_text(&node.text, &text),
        None => false,
    })
}

// Whether a transaction commits as is said.
fn is_ruled(outcome: Option<bool>, commits: bool) -> bool
    ensures { Tells result (outcome ≡ Some commits) }
{
    match outcome {
        Some(other) => other == commits,
        None => false,
    }
}

// Whether the client's next node says the decision, where it stands.
fn says_so(
    alloc: Global,
    nodes: &NodeTable,
    id: Id,
    decision: &Decision,
    ended: Ended,
) -> Result<bool, AllocError>
    ensures { (walked : Walked) (caller : Caller) (kept : Kept) → id ≡ record { client = caller.client; count = kept.ids }
        → IfOk result (λ b. Tells b (SaysSo (log_with walked nodes.now) caller kept (decision_text decision.now) ended)) }
{
    match ended {
        Ended::Stood { .. } => says(alloc, nodes, id, decision),
        Ended::StampEnd { .. } | Ended::NoMemory => Ok(true),
    }
}

impl PartPlays {
    // None is played.
    fn new(alloc: Global) -> Result<PartPlays, AllocError>
        ensures { (walked : Walked) (table : List (List Appended)) → IfOk result (ArePartPlays walked table) }
    {
        let mut parts = Vec::with_capacity(alloc, COLUMNS)?;
        let mut ruled = Vec::with_capacity(alloc, COLUMNS)?;
        for _ in 0..COLUMNS {
            parts.push(None)?;
            ruled.push(None)?;
        }
        Ok(PartPlays { parts, ruled })
    }

    // Takes out what is played of a column.
    fn take_part(&mut self, at: usize) -> Option<PartPlay>
        ensures { (walked : Walked) (table : List (List Appended)) → ArePartPlays walked table self.old
            → IfThere (IsPartPlay walked table) result × ArePartPlays walked table self.new }
    {
        if at < self.parts.len() {
            mem::replace(&mut self.parts[at], None)
        } else {
            None
        }
    }

    // Puts it back.
    fn put_part(&mut self, at: usize, play: PartPlay)
        ensures { (walked : Walked) (table : List (List Appended)) → ArePartPlays walked table self.old → IsPartPlay walked table play
            → ArePartPlays walked table self.new }
    {
        if at < self.parts.len() {
            self.parts[at] = Some(play);
        }
    }

    // Takes out the map whose first colour is that of a column.
    fn take_ruled(&mut self, at: usize) -> Option<RuledPlay>
        ensures { (walked : Walked) (table : List (List Appended)) → ArePartPlays walked table self.old
            → IfThere (IsRuledPlay walked table) result × ArePartPlays walked table self.new }
    {
        if at < self.ruled.len() {
            mem::replace(&mut self.ruled[at], None)
        } else {
            None
        }
    }

    // Puts it back.
    fn put_ruled(&mut self, at: usize, play: RuledPlay)
        ensures { (walked : Walked) (table : List (List Appended)) → ArePartPlays walked table self.old → IsRuledPlay walked table play
            → ArePartPlays walked table self.new }
    {
        if at < self.ruled.len() {
            self.ruled[at] = Some(play);
        }
    }

    // The part of a shard: what was played of it, or before any node.
    fn part_of(&mut self, alloc: Global, subject: &Subject<'_>, shard: Shard) -> PartPlay
        requires { shard.place < shard.colours }
        ensures play { (table : List (List Appended)) → ArePartPlays subject.now table self.old
            → IsPartPlay subject.now table result × ArePartPlays subject.now table self.new }
        ensures shard { result.shard ≡ shard }
    {
        if let Some(play) = self.take_part(cell(shard.region, shard.colour)) {
            if play.is_of(shard) {
                return play;
            }
        }
        PartPlay::open(alloc, subject, shard)
    }

    // The part of a sync's colour behind the nodes that the sync played, where the map has the colour.
    fn played(
        &mut self,
        alloc: Global,
        subject: &Subject<'_>,
        nodes: &NodeTable,
        region: u8,
        own: &[u8],
        sync: &SyncPiece,
    ) -> Result<Option<PartPlay>, AllocError>
        requires plays { ArePartPlays subject.now nodes.now self.old }
        requires region { region < subject.now.script.shape.regions }
        requires own { AreObjectColours subject.now.script.shape.colours own.now }
        ensures play { IfOk result (IsPlayOf subject.now nodes.now region own.now sync.now.colour (at sync.now.counts region)) }
        ensures plays { OnOk result (ArePartPlays subject.now nodes.now self.new) }
    {
        subject.agrees();
        let Some(place) = place_of(own, sync.colour) else {
            return Ok(None);
        };
        let shard = Shard {
            region,
            colour: sync.colour,
            place: place as u8,
            colours: own.len() as u8,
        };
        let mut play = self.part_of(alloc, subject, shard);
        play.go_to(alloc, subject, nodes, sync.counts.of_region(region))?;
        Ok(Some(play))
    }

    // Whether a get of a part, a peek or a decide is answered by what the part tells.
    fn has_value(
        &mut self,
        alloc: Global,
        subject: &Subject<'_>,
        nodes: &NodeTable,
        client: u8,
        what: &What,
        value: &Option<Text>,
        sync: &SyncPiece,
    ) -> Result<bool, AllocError>
        requires client { client < length subject.now.report.clients }
        requires stands { StandSo self.old subject.now nodes.now }
        ensures told { CanGet (caller_of subject.now.script client) what.now sync.now value.now
            (kind_asked (caller_of subject.now.script client) what.now) → IfOk result (λ b. Tells b
            (OfParts (kind_asked (caller_of subject.now.script client) what.now) (AnswersGet (caller_of subject.now.script client)
            what.now sync.now value.now (synced_nodes subject.now nodes.now (caller_of subject.now.script client) sync.now)))) }
        ensures stands { OnOk result (StandSo self.new subject.now nodes.now) }
    {
        subject.agrees();
        let Some(own) = parts_of(subject, what) else {
            return Ok(true);
        };
        let Some(play) = self.played(alloc, subject, nodes, subject.own(client), own, sync)? else {
            return Ok(false);
        };
        let right = is_value(play.part(), what, value);
        self.put_part(cell(subject.own(client), sync.colour), play);
        Ok(right)
    }

    // The transaction for which the part of a sync's colour waits.
    fn waiting(
        &mut self,
        alloc: Global,
        subject: &Subject<'_>,
        nodes: &NodeTable,
        client: u8,
        own: &[u8],
        sync: &SyncPiece,
    ) -> Result<Option<Key>, AllocError>
        requires client { client < length subject.now.report.clients }
        requires stands { StandSo self.old subject.now nodes.now }
        requires own { AreObjectColours subject.now.script.shape.colours own.now }
        requires differ { AllPairs (λ (a b : ℕ). a ≢ b) own.now }
        ensures told { IfOk result (IsWaitedFor own.now sync.now.colour
            (synced_nodes subject.now nodes.now (caller_of subject.now.script client) sync.now)) }
        ensures stands { OnOk result (StandSo self.new subject.now nodes.now) }
    {
        let Some(play) = self.played(alloc, subject, nodes, subject.own(client), own, sync)? else {
            return Ok(None);
        };
        let key = play.part().undecided();
        self.put_part(cell(subject.own(client), sync.colour), play);
        Ok(key)
    }

    // The map with these colours of a region: what was played of it, or before any node.
    fn ruled_of(
        &mut self,
        alloc: Global,
        subject: &Subject<'_>,
        at: usize,
        region: u8,
        colours: ColourList,
    ) -> Result<RuledPlay, AllocError>
        requires region { region < subject.now.script.shape.regions }
        requires colours { All (λ colour. colour < subject.now.script.shape.colours) colours }
        ensures play { (table : List (List Appended)) → ArePartPlays subject.now table self.old
            → IfOk result (IsRuledPlay subject.now table) }
        ensures plays { (table : List (List Appended)) → ArePartPlays subject.now table self.old
            → OnOk result (ArePartPlays subject.now table self.new) }
        ensures region { IfOk result (λ p. p.order.region ≡ region) }
        ensures colours { IfOk result (λ p. p.order.colours ≡ colours) }
    {
        if let Some(play) = self.take_ruled(at) {
            if play.is_of(region, colours.as_slice()) {
                return Ok(play);
            }
        }
        let order = KeyOrder::of(alloc, subject, region, colours)?;
        Ok(RuledPlay::new(alloc, subject, order))
    }

    // Whether the transaction with this key commits among the nodes of all colours of a map up to a stamp; none where there is none.
    fn outcome(
        &mut self,
        alloc: Global,
        subject: &Subject<'_>,
        nodes: &NodeTable,
        client: u8,
        own: &[u8],
        stamp: u64,
        key: Key,
    ) -> Result<Option<bool>, AllocError>
        requires client { client < length subject.now.report.clients }
        requires stands { StandSo self.old subject.now nodes.now }
        requires own { AreObjectColours subject.now.script.shape.colours own.now }
        requires low { AreLow own.now }
        ensures told { IfOk result (λ o. o ≡ outcome (verdict_of
            (object_nodes subject.now nodes.now (caller_of subject.now.script client) own.now stamp) key)) }
        ensures stands { OnOk result (StandSo self.new subject.now nodes.now) }
    {
        subject.agrees();
        let region = subject.own(client);
        let colours = all_colours(alloc, own)?;
        let at = cell(region, own[0]);
        let mut play = self.ruled_of(alloc, subject, at, region, colours)?;
        let outcome = play.outcome(alloc, subject, nodes, stamp, key)?;
        self.put_ruled(at, play);
        Ok(outcome)
    }

    // Whether a part waits for a transaction with this stamp.
    fn is_undecided(
        &mut self,
        alloc: Global,
        subject: &Subject<'_>,
        nodes: &NodeTable,
        client: u8,
        what: &What,
        stamp: u64,
        sync: &SyncPiece,
    ) -> Result<bool, AllocError>
        requires client { client < length subject.now.report.clients }
        requires stands { StandSo self.old subject.now nodes.now }
        ensures told { (home : ℕ) (colours key : List ℕ) → AsksOf (caller_of subject.now.script client) what.now sync.now
            (Some (kinds.Parts home colours)) key → IfOk result (λ b. Tells b
            (AnswersUndecided (caller_of subject.now.script client) what.now sync.now stamp
            (synced_nodes subject.now nodes.now (caller_of subject.now.script client) sync.now))) }
        ensures stands { OnOk result (StandSo self.new subject.now nodes.now) }
    {
        subject.agrees();
        let Some(own) = parts_of(subject, what) else {
            return Ok(false);
        };
        match self.waiting(alloc, subject, nodes, client, own, sync)? {
            Some(key) => Ok(key.stamp == stamp),
            None => Ok(false),
        }
    }

    // Whether a decision is right, of a client that has used so many ids.
    fn is_decision(
        &mut self,
        alloc: Global,
        subject: &Subject<'_>,
        nodes: &NodeTable,
        client: u8,
        ids: u64,
        own: &[u8],
        commits: bool,
        stamp: u64,
        sync: &SyncPiece,
        read_stamp: u64,
        ended: Ended,
    ) -> Result<bool, AllocError>
        requires client { client < length subject.now.report.clients }
        requires stands { StandSo self.old subject.now nodes.now }
        requires own { AreObjectColours subject.now.script.shape.colours own.now }
        requires low { AreLow own.now }
        requires differ { AllPairs (λ (a b : ℕ). a ≢ b) own.now }
        ensures told { (kept : Kept) → kept.ids ≡ ids → IfOk result (λ b. Tells b (IsDecision subject.now nodes.now
            (caller_of subject.now.script client) kept own.now commits stamp sync.now read_stamp ended)) }
        ensures stands { OnOk result (StandSo self.new subject.now nodes.now) }
    {
        let Some(key) = self.waiting(alloc, subject, nodes, client, own, sync)? else {
            return Ok(false);
        };
        if key.stamp != stamp {
            return Ok(false);
        }
        let outcome = self.outcome(alloc, subject, nodes, client, own, read_stamp, key)?;
        if !is_ruled(outcome, commits) {
            return Ok(false);
        }
        let id = Id { client, count: ids };
        says_so(alloc, nodes, id, &Decision { key, commits }, ended)
    }

    // Whether an answer is right, of a client that has used so many ids.
    fn is_right(
        &mut self,
        alloc: Global,
        subject: &Subject<'_>,
        nodes: &NodeTable,
        client: u8,
        ids: u64,
        what: &What,
        answer: &Answer,
    ) -> Result<bool, AllocError>
        requires client { client < length subject.now.report.clients }
        requires stands { StandSo self.old subject.now nodes.now }
        ensures told { (kept : Kept) (lines : List PlacedNode) → kept.ids ≡ ids
            → CanHave (caller_of subject.now.script client) kept what.now lines answer.now → IfOk result (λ b. Tells b
            (IsPartAnswer subject.now nodes.now (caller_of subject.now.script client) kept what.now answer.now)) }
        ensures stands { OnOk result (StandSo self.new subject.now nodes.now) }
    {
        match answer {
            Answer::Got { value, sync } => {
                self.has_value(alloc, subject, nodes, client, what, value, sync)
            }
            Answer::Undecided { stamp, sync } => {
                self.is_undecided(alloc, subject, nodes, client, what, *stamp, sync)
            }
            Answer::Decided {
                commits,
                stamp,
                sync,
                read_stamp,
                ended,
                ..
            } => {
                subject.agrees();
                let Some(own) = parts_of(subject, what) else {
                    return Ok(false);
                };
                self.is_decision(
                    alloc,
                    subject,
                    nodes,
                    client,
                    ids,
                    own,
                    *commits,
                    *stamp,
                    sync,
                    *read_stamp,
                    *ended,
                )
            }
            _ => Ok(true),
        }
    }
}

impl PlayCheck for PartPlays {
    ghost Asks = { AnswersByParts };

    ghost Stands = { StandSo };

    fn go_on(
        &mut self,
        alloc: Global,
        subject: &Subject<'_>,
        nodes: &NodeTable,
        client: u8,
        place: usize,
        keeping: &mut Keeping,
    ) -> Result<bool, AllocError> {
        let what = &subject.command(client, place).what;
        let answer = &subject.reply(client, place).answer;
        if !self.is_right(alloc, subject, nodes, client, keeping.ids(), what, answer)? {
            return Ok(false);
        }
        keeping.go_on(alloc, subject, client, place)?;
        Ok(true)
    }
}

/// Whether a report that keeps the rules before the last keeps this one too: the decisions that are computed are those that are
/// shown, and each answer of a map that is played by its parts is right by the nodes of commands.
pub fn keeps_fourteenth(
    alloc: Global,
    subject: &Subject<'_>,
    nodes: &NodeTable,
    texts: &ShownTexts<'_>,
) -> Result<bool, AllocError>
    requires keeps { Keeps subject.now.script subject.now.report 13 }
    requires differ { ColoursDiffer subject.now.script }
    requires nodes { AreNodes (nodes_with subject.now.script subject.now.report
        (finds_of subject.now.script subject.now.report) (decisions_of subject.now.script subject.now.report)) nodes.now }
    requires texts { texts.now ≡ subject.now.report }
    ensures { IfOk result (λ b. Tells b (Keeps subject.now.script subject.now.report 14)) }
{
    subject.agrees();
    fourteenth_is_decided();
    fourteenth_is_of_parts();
    if !shows_decisions(subject, nodes, texts) {
        return Ok(false);
    }
    let mut plays = PartPlays::new(alloc)?;
    each_step_played(alloc, subject, nodes, &mut plays)
}
