// Causal maps that are played from get to get.
ghost use Rattle.std.specs.Prelude.{◌≡◌, ◌<◌, ℕ, List, Some, None, IfOk, IfSome, OnOk, length};
ghost use Rattle.std.specs.Option.{option_copied};
ghost use Rattle.log_node.specs.declared.node.Node.{Node as Appended};
ghost use Rattle.log_node.specs.Reach.{Reachable};
ghost use Rattle.log_node.specs.Vectors.{IsWithin};
ghost use Rattle.object_fold.specs.CausalStates.{counts_of};
ghost use Rattle.column_track.specs.Tracks.{Tells};
ghost use Rattle.lawful_run.specs.Callers.{caller_of};
ghost use Rattle.lawful_run.specs.Objects.{GetsValues};
ghost use Rattle.object_law.specs.CausalPlays.{AreCausalPlays, GetsByLines, HasNode, IsCausalPlay, IsFedTo, ShowsCut};
ghost use Rattle.object_law.specs.PartAnswers.{IfThere};
ghost use Rattle.object_law.specs.Tenth.{log_with};
ghost use Rattle.walk_law.specs.Playing.{free_head, lines_of};
ghost use Rattle.walk_law.specs.Walking.{Walked};

use crate::node_table::NodeTable;
use crate::tree_play::are_same;
use log_node::{Counts, Head, Id, MAX_COLOURS, MAX_REGIONS, Node, Text};
use object_fold::CausalMap;
use report_text::SyncPiece;
use std::alloc::{AllocError, Global};
use std::mem;
use walk_law::Subject;

// How many columns a log can have.
const COLUMNS: usize = MAX_REGIONS as usize * MAX_COLOURS as usize;

// The place of a column in a table of all.
fn cell(region: u8, colour: u8) -> usize {
    MAX_COLOURS as usize * region as usize + colour as usize
}

/// The causal map of a colour, over the lines of all regions up to what it was fed.
#[derive(Drop)]
pub(crate) struct CausalPlay {
    colour: u8,
    map: CausalMap,
}

/// The causal maps of columns. The map of a column goes on from snapshot to snapshot; where one does not count all that the map was
/// fed, it begins again.
#[derive(Drop)]
pub(crate) struct CausalPlays {
    plays: Vec<Option<CausalPlay>>,
}

// A region whose next node may be fed, and that node's head.
#[derive(Clone, Copy)]
struct NextFed {
    region: u8,
    head: Head,
}

// A node up to a vector that may be fed after so many of each line, where there is one.
fn next_fed(subject: &Subject<'_>, colour: u8, counts: Counts, to: Counts) -> Option<NextFed>
    ensures some { IfSome result (λ next. (next.region < 4)
        × (free_head (lines_of subject.now colour) counts to next.region ≡ Some next.head)) }
    ensures none { result ≡ None → (region : ℕ) → region < 4
        → free_head (lines_of subject.now colour) counts to region ≡ None }
{
    for region in 0..MAX_REGIONS {
        if let Some(head) = subject.free_head(colour, counts, to, region) {
            return Some(NextFed { region, head });
        }
    }
    None
}

// The node with an id, where the table has it under its own.
fn node_with(nodes: &NodeTable, id: Id) -> Option<&Node>
    ensures { (walked : Walked) → HasNode (log_with walked nodes.now) id (option_copied result) }
{
    let node = nodes.node(id)?;
    if node.id == id { Some(node) } else { None }
}

impl CausalPlay {
    // Before any node.
    fn new(alloc: Global, colour: u8) -> CausalPlay
        ensures holds { (walked : Walked) (table : List (List Appended)) → IsCausalPlay walked table result }
        ensures colour { result.colour ≡ colour }
    {
        CausalPlay {
            colour,
            map: CausalMap::new(alloc),
        }
    }

    // Feeds the nodes up to a vector; `false` where the table lacks one.
    fn go_on(
        &mut self,
        alloc: Global,
        subject: &Subject<'_>,
        nodes: &NodeTable,
        to: Counts,
    ) -> Result<bool, AllocError>
        requires holds { IsCausalPlay subject.now nodes.now self.old }
        requires behind { IsWithin (counts_of self.old.map) to }
        ensures fed { Reachable (lines_of subject.now self.old.colour) to
            → IfOk result (IsFedTo subject.now nodes.now self.old.colour to (counts_of self.new.map)) }
        ensures holds { OnOk result (IsCausalPlay subject.now nodes.now self.new) }
        ensures colour { self.new.colour ≡ self.old.colour }
    {
        while let Some(next) = next_fed(subject, self.colour, self.map.counts(), to) {
            let Some(node) = node_with(nodes, next.head.key.id) else {
                return Ok(false);
            };
            self.map
                .feed(alloc, next.region, next.head.needs, &node.text)?;
        }
        Ok(true)
    }

    // Goes to a vector; from the beginning, where it was fed more. `false` where the table lacks a node.
    fn go_to(
        &mut self,
        alloc: Global,
        subject: &Subject<'_>,
        nodes: &NodeTable,
        to: Counts,
    ) -> Result<bool, AllocError>
        requires { IsCausalPlay subject.now nodes.now self.old }
        ensures fed { Reachable (lines_of subject.now self.old.colour) to
            → IfOk result (IsFedTo subject.now nodes.now self.old.colour to (counts_of self.new.map)) }
        ensures holds { OnOk result (IsCausalPlay subject.now nodes.now self.new) }
        ensures colour { self.new.colour ≡ self.old.colour }
    {
        if !self.map.counts().is_within(to) {
            self.map = CausalMap::new(alloc);
        }
        self.go_on(alloc, subject, nodes, to)
    }

    // Whether these are the values of a key over all nodes up to a vector.
    fn has_values(
        &mut self,
        alloc: Global,
        subject: &Subject<'_>,
        nodes: &NodeTable,
        to: Counts,
        key: &Text,
        values: &[Text],
    ) -> Result<bool, AllocError>
        requires { IsCausalPlay subject.now nodes.now self.old }
        ensures told { Reachable (lines_of subject.now self.old.colour) to → IfOk result (λ b. Tells b
            (GetsByLines subject.now nodes.now self.old.colour to key.now values.now)) }
        ensures holds { OnOk result (IsCausalPlay subject.now nodes.now self.new) }
    {
        if !self.go_to(alloc, subject, nodes, to)? {
            return Ok(false);
        }
        let found = self.map.get(alloc, key.as_bytes())?;
        Ok(are_same(found.as_slice(), values))
    }
}

impl CausalPlays {
    /// None is played.
    pub(crate) fn new(alloc: Global) -> Result<CausalPlays, AllocError>
        ensures { (walked : Walked) (table : List (List Appended)) → IfOk result (AreCausalPlays walked table) }
    {
        let mut plays = Vec::with_capacity(alloc, COLUMNS)?;
        for _ in 0..COLUMNS {
            plays.push(None)?;
        }
        Ok(CausalPlays { plays })
    }

    // Takes out what is played of a column.
    fn take(&mut self, at: usize) -> Option<CausalPlay>
        ensures { (walked : Walked) (table : List (List Appended)) → AreCausalPlays walked table self.old
            → IfThere (IsCausalPlay walked table) result × AreCausalPlays walked table self.new }
    {
        if at < self.plays.len() {
            mem::replace(&mut self.plays[at], None)
        } else {
            None
        }
    }

    // Puts it back.
    fn put(&mut self, at: usize, play: CausalPlay)
        ensures { (walked : Walked) (table : List (List Appended)) → AreCausalPlays walked table self.old
            → IsCausalPlay walked table play → AreCausalPlays walked table self.new }
    {
        if at < self.plays.len() {
            self.plays[at] = Some(play);
        }
    }

    // The map of a column: what was played of it, or before any node.
    fn play_of(&mut self, alloc: Global, at: usize, colour: u8) -> CausalPlay
        ensures play { (walked : Walked) (table : List (List Appended)) → AreCausalPlays walked table self.old
            → IsCausalPlay walked table result × AreCausalPlays walked table self.new }
        ensures colour { result.colour ≡ colour }
    {
        if let Some(play) = self.take(at) {
            if play.colour == colour {
                return play;
            }
        }
        CausalPlay::new(alloc, colour)
    }

    /// Whether these are the values of a key over all nodes that the snapshot of a client's sync counts.
    pub(crate) fn gets_values(
        &mut self,
        alloc: Global,
        subject: &Subject<'_>,
        nodes: &NodeTable,
        client: u8,
        sync: SyncPiece,
        key: &Text,
        values: &[Text],
    ) -> Result<bool, AllocError>
        requires plays { AreCausalPlays subject.now nodes.now self.old }
        requires client { client < length subject.now.report.clients }
        ensures told { sync.colour < subject.now.script.shape.colours → ShowsCut subject.now client sync
            → IfOk result (λ b. Tells b (GetsValues (log_with subject.now nodes.now) (caller_of subject.now.script client) sync
            key.now values.now)) }
        ensures plays { OnOk result (AreCausalPlays subject.now nodes.now self.new) }
    {
        subject.agrees();
        let own = subject.own(client);
        if sync.colour >= subject.script().shape.colours {
            return Ok(false);
        }
        subject.track(own, sync.colour).agrees();
        let at = cell(own, sync.colour);
        let mut play = self.play_of(alloc, at, sync.colour);
        let right = play.has_values(alloc, subject, nodes, sync.counts, key, values)?;
        self.put(at, play);
        Ok(right)
    }
}
