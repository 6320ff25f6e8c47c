// Parts of transactional maps that are played on from decision to decision, while what the decisions say is computed.
ghost use Rattle.std.specs.Prelude.{◌≡◌, ◌++◌, ◌≤◌, ◌<◌, [], List, Some, length, slice_get, slice_index_or, take, IfOk, OnOk};
ghost use Rattle.std.specs.List.{All};
ghost use Rattle.log_node.specs.Vectors.{at};
ghost use Rattle.object_fold.specs.Nodes.{ObjectNode};
ghost use Rattle.part_fold.specs.Agreement.{part_at};
ghost use Rattle.part_fold.specs.PartStates.{IsPart};
ghost use Rattle.part_fold.specs.Parts.{undecided_after};
ghost use Rattle.col_core.specs.History.{line as line_of};
ghost use Rattle.script_text.specs.Fitting.{AreObjectColours};
ghost use Rattle.run_rules.specs.Computing.{finds_of, node_read};
ghost use Rattle.object_law.specs.Decided.{AreDecided, IsDecidedPlay, StandsDecided, decided_nodes, node_deciding};
ghost use Rattle.object_law.specs.PartAnswers.{IfThere};
ghost use Rattle.walk_law.specs.Finds.{decision_at};
ghost use Rattle.walk_law.specs.Walking.{journal_walked};

use crate::decided_nodes::DecidedNodes;
use crate::finds::Decisions;
use crate::part_plays::Shard;
use log_node::{Key, MAX_COLOURS, MAX_REGIONS};
use part_fold::{PartFold, write_decision};
use report_text::SyncPiece;
use std::alloc::{AllocError, Global};
use std::mem;
use walk_law::Subject;

// How many columns a log can have.
const COLUMNS: usize = MAX_REGIONS as usize * MAX_COLOURS as usize;

/// The part of a shard, over the own line of its colour. It never goes back: behind each node that was fed it is noted for which
/// transaction the part waited there.
#[derive(Drop)]
pub(crate) struct DecidedPlay {
    shard: Shard,
    part: PartFold,
    waits: Vec<Option<Key>>,
    count: usize,
}

// The key in a place of a line.
fn key_at(keys: &[Key], place: usize) -> Key
    requires { place < length keys.now }
    ensures { result ≡ slice_index_or keys.now place result }
{
    keys[place]
}

// Feeds the node with a key, with the text that it has where decisions say this.
fn feed(
    part: &mut PartFold,
    alloc: Global,
    subject: &Subject<'_>,
    nodes: &DecidedNodes,
    decisions: &Decisions,
    key: Key,
) -> Result<(), AllocError>
    requires { AreDecided subject.now (finds_of subject.now.script subject.now.report) nodes.now }
    ensures holds { (before : List ObjectNode) → IsPart part.old before → OnOk result (IsPart part.new
        (before ++ node_read key (node_deciding subject.now (decision_at decisions.now) key.id))) }
    ensures part { part.new.part ≡ part.old.part }
{
    let _subject = subject;
    let Some(it) = nodes.node(key.id) else {
        return Ok(());
    };
    match it.place {
        Some(place) => {
            let decision = decisions.decision(key.id.client, place);
            let text = write_decision(alloc, &decision)?;
            part.feed(alloc, key, &text)
        }
        None => part.feed(alloc, key, &it.node.text),
    }
}

// For which transaction a part waits before any node.
fn before_any(alloc: Global, shard: Shard) -> Option<Key>
    requires { shard.place < shard.colours }
    ensures { result ≡ undecided_after (record { place = shard.place; colours = shard.colours }) [] }
{
    let part = PartFold::open(alloc, shard.place, shard.colours);
    part.undecided()
}

impl DecidedPlay {
    // Before any node.
    fn open(alloc: Global, subject: &Subject<'_>, shard: Shard) -> DecidedPlay
        requires { shard.place < shard.colours }
        ensures play { IsDecidedPlay subject.now result }
        ensures shard { result.shard ≡ shard }
    {
        let _subject = subject;
        DecidedPlay {
            shard,
            part: PartFold::open(alloc, shard.place, shard.colours),
            waits: Vec::new(alloc),
            count: 0,
        }
    }

    // Feeds the nodes up to a place of the line, where they are not fed yet.
    fn go_to(
        &mut self,
        alloc: Global,
        subject: &Subject<'_>,
        nodes: &DecidedNodes,
        decisions: &Decisions,
        keys: &[Key],
        count: usize,
    ) -> Result<(), AllocError>
        requires keys { keys.now ≡ line_of (journal_walked subject.now self.old.shard.region self.old.shard.colour) }
        requires play { IsDecidedPlay subject.now self.old }
        requires within { count ≤ length keys.now }
        requires nodes { AreDecided subject.now (finds_of subject.now.script subject.now.report) nodes.now }
        requires stand { All (StandsDecided subject.now (decision_at decisions.now)) (take count keys.now) }
        ensures play { OnOk result (IsDecidedPlay subject.now self.new) }
        ensures fed { OnOk result (count ≤ self.new.count) }
        ensures shard { self.new.shard ≡ self.old.shard }
    {
        while self.count < count {
            let key = key_at(keys, self.count);
            feed(&mut self.part, alloc, subject, nodes, decisions, key)?;
            self.waits.push(self.part.undecided())?;
            self.count += 1;
        }
        Ok(())
    }

    // The transaction for which the part waited behind so many nodes.
    fn behind(&self, alloc: Global, subject: &Subject<'_>, count: usize) -> Option<Key>
        requires play { IsDecidedPlay subject.now self.now }
        requires place { self.now.shard.place < self.now.shard.colours }
        requires fed { count ≤ self.now.count }
        ensures { result ≡ undecided_after
            (record { place = self.now.shard.place; colours = self.now.shard.colours })
            (decided_nodes subject.now (take count
            (line_of (journal_walked subject.now self.now.shard.region self.now.shard.colour)))) }
    {
        let _subject = subject;
        if count == 0 {
            return before_any(alloc, self.shard);
        }
        self.waits[count - 1]
    }

    // The transaction for which the part waits behind the nodes that a sync played.
    fn waiting(
        &mut self,
        alloc: Global,
        subject: &Subject<'_>,
        nodes: &DecidedNodes,
        decisions: &Decisions,
        sync: &SyncPiece,
    ) -> Result<Option<Key>, AllocError>
        requires play { IsDecidedPlay subject.now self.old }
        requires region { self.old.shard.region < subject.now.script.shape.regions }
        requires colour { self.old.shard.colour < subject.now.script.shape.colours }
        requires place { self.old.shard.place < self.old.shard.colours }
        requires nodes { AreDecided subject.now (finds_of subject.now.script subject.now.report) nodes.now }
        requires stand { All (StandsDecided subject.now (decision_at decisions.now)) (take (at sync.now.counts self.old.shard.region)
            (line_of (journal_walked subject.now self.old.shard.region self.old.shard.colour))) }
        ensures waits { IfOk result (λ key. key ≡ undecided_after
            (record { place = self.old.shard.place; colours = self.old.shard.colours })
            (decided_nodes subject.now (take (at sync.now.counts self.old.shard.region)
            (line_of (journal_walked subject.now self.old.shard.region self.old.shard.colour))))) }
        ensures play { OnOk result (IsDecidedPlay subject.now self.new) }
        ensures shard { self.new.shard ≡ self.old.shard }
    {
        subject.agrees();
        let keys = subject.track(self.shard.region, self.shard.colour).line();
        let count = (sync.counts.of_region(self.shard.region) as usize).min(keys.len());
        self.go_to(alloc, subject, nodes, decisions, keys, count)?;
        Ok(self.behind(alloc, subject, count))
    }
}

/// The parts of all columns that were played so far.
#[derive(Drop)]
pub(crate) struct DecidedPlays {
    parts: Vec<Option<DecidedPlay>>,
}

impl DecidedPlays {
    /// None is played.
    pub(crate) fn new(alloc: Global, subject: &Subject<'_>) -> Result<DecidedPlays, AllocError>
        ensures { IfOk result (λ p. All (IfThere (IsDecidedPlay subject.now)) p.parts.items) }
    {
        let _subject = subject;
        let mut parts = Vec::with_capacity(alloc, COLUMNS)?;
        for _ in 0..COLUMNS {
            parts.push(None)?;
        }
        Ok(DecidedPlays { parts })
    }

    // Takes out what is played of a column.
    fn take(&mut self, subject: &Subject<'_>, at: usize) -> Option<DecidedPlay>
        requires { All (IfThere (IsDecidedPlay subject.now)) self.old.parts.items }
        ensures play { IfThere (IsDecidedPlay subject.now) result }
        ensures plays { All (IfThere (IsDecidedPlay subject.now)) self.new.parts.items }
    {
        let _subject = subject;
        if at < self.parts.len() {
            mem::replace(&mut self.parts[at], None)
        } else {
            None
        }
    }

    // Puts it back.
    fn put(&mut self, subject: &Subject<'_>, at: usize, play: DecidedPlay)
        requires plays { All (IfThere (IsDecidedPlay subject.now)) self.old.parts.items }
        requires play { IsDecidedPlay subject.now play }
        ensures { All (IfThere (IsDecidedPlay subject.now)) self.new.parts.items }
    {
        let _subject = subject;
        if at < self.parts.len() {
            self.parts[at] = Some(play);
        }
    }

    // The part of a shard: what was played of it, or before any node.
    fn part_of(
        &mut self,
        alloc: Global,
        subject: &Subject<'_>,
        at: usize,
        shard: Shard,
    ) -> DecidedPlay
        requires place { shard.place < shard.colours }
        requires plays { All (IfThere (IsDecidedPlay subject.now)) self.old.parts.items }
        ensures play { IsDecidedPlay subject.now result }
        ensures shard { result.shard ≡ shard }
        ensures plays { All (IfThere (IsDecidedPlay subject.now)) self.new.parts.items }
    {
        match self.take(subject, at) {
            Some(play) => {
                if play.shard == shard {
                    play
                } else {
                    DecidedPlay::open(alloc, subject, shard)
                }
            }
            None => DecidedPlay::open(alloc, subject, shard),
        }
    }

    /// The transaction for which the part of a sync's colour waits behind the nodes that the sync played. It is in this place among the
    /// colours of its map.
    pub(crate) fn waiting(
        &mut self,
        alloc: Global,
        subject: &Subject<'_>,
        nodes: &DecidedNodes,
        decisions: &Decisions,
        region: u8,
        own: &[u8],
        place: usize,
        sync: &SyncPiece,
    ) -> Result<Option<Key>, AllocError>
        requires plays { All (IfThere (IsDecidedPlay subject.now)) self.old.parts.items }
        requires region { region < subject.now.script.shape.regions }
        requires own { AreObjectColours subject.now.script.shape.colours own.now }
        requires there { slice_get own.now place ≡ Some sync.now.colour }
        requires nodes { AreDecided subject.now (finds_of subject.now.script subject.now.report) nodes.now }
        requires stand { All (StandsDecided subject.now (decision_at decisions.now)) (take (at sync.now.counts region)
            (line_of (journal_walked subject.now region sync.now.colour))) }
        ensures waits { IfOk result (λ key. key ≡ undecided_after (part_at own.now place)
            (decided_nodes subject.now (take (at sync.now.counts region)
            (line_of (journal_walked subject.now region sync.now.colour))))) }
        ensures plays { OnOk result (All (IfThere (IsDecidedPlay subject.now)) self.new.parts.items) }
    {
        let shard = Shard {
            region,
            colour: sync.colour,
            place: place as u8,
            colours: own.len() as u8,
        };
        let at = MAX_COLOURS as usize * region as usize + sync.colour as usize;
        let mut play = self.part_of(alloc, subject, at, shard);
        let key = play.waiting(alloc, subject, nodes, decisions, sync)?;
        self.put(subject, at, play);
        Ok(key)
    }
}
