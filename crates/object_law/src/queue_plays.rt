// Queues that are played from dequeue to dequeue.
ghost use Rattle.std.specs.Prelude.{◌≡◌, ◌<◌, ◌≤◌, ℕ, List, IfOk, OnOk};
ghost use Rattle.std.specs.Option.{option_copied};
ghost use Rattle.log_node.specs.declared.node.Node.{Node as Appended};
ghost use Rattle.object_fold.specs.Queues.{front_after};
ghost use Rattle.column_track.specs.Tracks.{Tells};
ghost use Rattle.object_law.specs.AnswerPlays.{AreQueuePlays, IsQueueAt};
ghost use Rattle.object_law.specs.ObjectAnswers.{IsQueuePlay};
ghost use Rattle.object_law.specs.Tenth.{line_nodes};

use crate::line_play::LinePlay;
use crate::node_table::NodeTable;
use log_node::Text;
use object_fold::ValueQueue;
use std::alloc::{AllocError, Global};
use std::collections::BTreeMap;
use walk_law::{Subject, same_text};

/// The queue over the own line of a colour in a region.
#[derive(Drop)]
pub(crate) struct QueuePlay {
    region: u8,
    colour: u8,
    play: LinePlay<ValueQueue>,
}

/// Whether a value is the one that is found, or both are none.
pub(crate) fn is_found(value: &Option<Text>, found: Option<&Text>) -> bool
    ensures { Tells result (value.now ≡ option_copied found.entry) }
{
    match value {
        Some(text) => match found {
            Some(other) => same_text(text, other),
            None => false,
        },
        None => found.is_none(),
    }
}

impl QueuePlay {
    /// Before any node.
    pub(crate) fn new(alloc: Global, subject: &Subject<'_>, region: u8, colour: u8) -> QueuePlay
        ensures holds { (table : List (List Appended)) → IsQueuePlay subject.now table result }
        ensures region { result.region ≡ region }
        ensures colour { result.colour ≡ colour }
    {
        let _subject = subject;
        QueuePlay {
            region,
            colour,
            play: LinePlay::of(ValueQueue::new(alloc)),
        }
    }

    /// Whether it is that of this column.
    pub(crate) fn is_of(&self, region: u8, colour: u8) -> bool
        ensures { Tells result ((self.now.region ≡ region) × (self.now.colour ≡ colour)) }
    {
        self.region == region && self.colour == colour
    }

    /// Whether this value is in front after so many nodes of the line.
    pub(crate) fn is_front(
        &mut self,
        alloc: Global,
        subject: &Subject<'_>,
        nodes: &NodeTable,
        count: u64,
        value: &Option<Text>,
    ) -> Result<bool, AllocError>
        requires holds { IsQueuePlay subject.now nodes.now self.old }
        requires region { self.old.region < subject.now.script.shape.regions }
        requires colour { self.old.colour < subject.now.script.shape.colours }
        ensures told { IfOk result (λ b. Tells b (value.now
            ≡ front_after (line_nodes subject.now nodes.now self.old.region self.old.colour count))) }
        ensures holds { OnOk result (IsQueuePlay subject.now nodes.now self.new) }
        ensures region { self.new.region ≡ self.old.region }
        ensures colour { self.new.colour ≡ self.old.colour }
    {
        let line = subject.track(self.region, self.colour).line();
        let place = line.len().min(count as usize);
        self.play
            .go_to(alloc, nodes, line, place, ValueQueue::new(alloc))?;
        Ok(is_found(value, self.play.fold.front()))
    }
}

// A column of a queue.
#[derive(Clone, Copy, Debug, PartialEq, Eq, PartialOrd, Ord)]
struct QueueId {
    region: u8,
    colour: u8,
}

/// The queues of all columns that dequeues asked for so far. The table says at which place each stands; what stands there says itself
/// what it is of.
#[derive(Drop)]
pub(crate) struct QueuePlays {
    plays: Vec<QueuePlay>,
    places: BTreeMap<QueueId, usize>,
}

impl QueuePlays {
    /// None yet.
    pub(crate) fn new(alloc: Global, subject: &Subject<'_>) -> QueuePlays
        ensures { (table : List (List Appended)) → AreQueuePlays subject.now table result }
    {
        let _subject = subject;
        QueuePlays {
            plays: Vec::new(alloc),
            places: BTreeMap::new(alloc),
        }
    }

    // Whether the queue of a column stands at a place.
    fn is_at(&self, place: usize, id: QueueId) -> bool
        ensures { Tells result (IsQueueAt self.now id.region id.colour place) }
    {
        match self.plays.get(place) {
            Some(play) => play.is_of(id.region, id.colour),
            None => false,
        }
    }

    // One more queue, before any node, and its place.
    fn add(
        &mut self,
        alloc: Global,
        subject: &Subject<'_>,
        id: QueueId,
    ) -> Result<usize, AllocError>
        ensures at { IfOk result (IsQueueAt self.new id.region id.colour) }
        ensures plays { (table : List (List Appended)) → AreQueuePlays subject.now table self.old
            → OnOk result (AreQueuePlays subject.now table self.new) }
    {
        let place = self.plays.len();
        let play = QueuePlay::new(alloc, subject, id.region, id.colour);
        self.plays.push(play)?;
        self.places.insert(id, place)?;
        Ok(place)
    }

    // The place of the queue of a column.
    fn place(
        &mut self,
        alloc: Global,
        subject: &Subject<'_>,
        id: QueueId,
    ) -> Result<usize, AllocError>
        ensures at { IfOk result (IsQueueAt self.new id.region id.colour) }
        ensures plays { (table : List (List Appended)) → AreQueuePlays subject.now table self.old
            → OnOk result (AreQueuePlays subject.now table self.new) }
    {
        match self.places.get(&id).copied() {
            Some(place) => {
                if self.is_at(place, id) {
                    Ok(place)
                } else {
                    self.add(alloc, subject, id)
                }
            }
            None => self.add(alloc, subject, id),
        }
    }

    /// Whether this value is in front of the queue of a column, after so many nodes of its line in a region.
    pub(crate) fn is_front(
        &mut self,
        alloc: Global,
        subject: &Subject<'_>,
        nodes: &NodeTable,
        region: u8,
        colour: u8,
        count: u64,
        value: &Option<Text>,
    ) -> Result<bool, AllocError>
        requires plays { AreQueuePlays subject.now nodes.now self.old }
        requires region { region < subject.now.script.shape.regions }
        requires colour { colour < subject.now.script.shape.colours }
        ensures told { IfOk result (λ b. Tells b
            (value.now ≡ front_after (line_nodes subject.now nodes.now region colour count))) }
        ensures plays { OnOk result (AreQueuePlays subject.now nodes.now self.new) }
    {
        let place = self.place(alloc, subject, QueueId { region, colour })?;
        self.plays[place].is_front(alloc, subject, nodes, count, value)
    }
}
