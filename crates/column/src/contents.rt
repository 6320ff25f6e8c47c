// What a column has but for its cut: its journal, its entries with their nodes, and the carried nodes.
ghost use Rattle.std.specs.Prelude.{◌≡◌, ◌<◌, ◌≤◌, ◌&&◌, true, false, None, nat_lt, length};
ghost use Rattle.std.specs.Prelude.{if◌then◌else◌, IfOk, IfErr, OnOk, OnErr};
ghost use Rattle.log_node.specs.Sets.{has};
ghost use Rattle.skeen_core.specs.Queues.{has_open, is_decided, IsContinued, MaySettle};
ghost use Rattle.col_core.specs.History.{clock, last_stamp, next_stamp, entries, line, has_entered};
ghost use Rattle.column.specs.Columns.{new_column, with_room, after_single, after_propose, after_settle, after_raise};
ghost use Rattle.column.specs.Columns.{cut_of, stamp_for, HasEnterCause};
ghost use Rattle.column.specs.Inside.{IsStillReached};

use crate::copies::Copies;
use crate::entered::Entered;
use crate::faults::ColumnFault;
use crate::wants::wants_for;
use col_core::{Entry, Event};
use log_node::{At, Counts, Id, MAX_COLOURS, MAX_REGIONS, MAX_STAMP, Node, Outcome, Shape};
use skeen_core::Queue;
use std::alloc::{AllocError, Global};
use std::marker::Model;
use std::sync::Arc;

/// The journal of a column's events, its entries with their nodes, and for each other region the carried nodes.
#[derive(Drop)]
pub(crate) struct Contents {
    pub(crate) region: u8,
    pub(crate) colour: u8,
    pub(crate) regions: u8,
    pub(crate) journal: Vec<Entry>,
    pub(crate) queue: Queue<Entered>,
    pub(crate) copies: Copies,
    // How many nodes of each other region's chain were carried.
    pub(crate) carried: Counts,
    // The greatest number from which each region has asked for the own line.
    pub(crate) notes: Counts,
    // Below these counts nodes are dropped.
    pub(crate) base: Counts,
    // No fewer than the open entries. The journal has room for the settling of each.
    pub(crate) opens: usize,
    // For how many more entries, and their settlings, there is memory: one at most.
    pub(crate) spare: usize,
}

impl Model for Contents {
    ghost use Rattle.std.specs.Prelude.{vec_capacity};
    ghost use Rattle.column.specs.Columns.{ColumnState};

    ghost Value = { ColumnState };

    ghost use Rattle.column.specs.Inside.{IsKept};

    ghost view = { λ a. record {
      region = a.region;
      colour = a.colour;
      regions = a.regions;
      journal = a.journal.items;
      queue = a.queue;
      copies = a.copies;
    } };

    ghost invariant = { λ a. IsKept (record {
      region = a.region;
      colour = a.colour;
      regions = a.regions;
      journal = a.journal.items;
      queue = a.queue;
      copies = a.copies;
    }) a.carried a.notes a.base a.opens a.spare (vec_capacity a.journal) };
}

impl Contents {
    /// Nothing in it.
    pub(crate) fn open(
        alloc: Global,
        region: u8,
        colour: u8,
        shape: &Shape,
    ) -> Result<Contents, AllocError>
        requires region { region < MAX_REGIONS }
        requires colour { colour < MAX_COLOURS }
        requires regions { shape.now.regions ≤ MAX_REGIONS }
        ensures { IfOk result (λ contents. contents ≡ new_column region colour shape.now.regions) }
    {
        Ok(Contents {
            region,
            colour,
            regions: shape.regions,
            journal: Vec::new(alloc),
            queue: Queue::open(alloc),
            copies: Copies::open(alloc)?,
            carried: Counts([0; 4]),
            notes: Counts([0; 4]),
            base: Counts([0; 4]),
            opens: 0,
            spare: 0,
        })
    }

    /// Takes the memory for one entry, its place in the line, its event and its settling, unless it is there; the
    /// answer is the stamp that comes next for the floor.
    pub(crate) fn room(&mut self, floor: u64) -> Result<u64, ColumnFault>
        requires { floor ≤ MAX_STAMP }
        ensures stamp { IfOk result (λ s. (s ≡ next_stamp self.old.journal floor) × (s ≤ last_stamp)) }
        ensures ok { OnOk result (self.new ≡ with_room self.old) }
        ensures cause { IfErr result (HasEnterCause self.old floor) }
        ensures err { OnErr result (self.new ≡ self.old) }
    {
        let stamp = match self.queue.next(floor) {
            Ok(stamp) => stamp,
            Err(end) => return Err(ColumnFault::StampEnd { clock: end.clock }),
        };
        if self.spare > 0 {
            return Ok(stamp);
        }
        let Ok(()) = self.journal.reserve(self.opens + 2) else {
            return Err(ColumnFault::NoMemory);
        };
        let Ok(()) = self.queue.room() else {
            return Err(ColumnFault::NoMemory);
        };
        self.spare = 1;
        Ok(stamp)
    }

    /// The node enters as final under the next stamp, where there is room. Answers the event and the stamp.
    pub(crate) fn add_single(&mut self, by: u8, node: Arc<Node>, cut: Counts) -> (At, u64)
        requires cut { cut ≡ cut_of self.old }
        requires room { 0 < self.old.queue.spare }
        requires stamp { stamp_for self.old node.value ≤ last_stamp }
        requires fresh { has_entered node.value.id self.old.journal ≡ false }
        requires region { node.value.region ≡ self.old.region }
        requires colour { has node.value.colours self.old.colour ≡ true }
        ensures at { result.0 ≡ At.Event (length self.old.journal) }
        ensures stamp { result.1 ≡ stamp_for self.old node.value }
        ensures entry { self.new ≡ after_single self.old by node.value }
        ensures line { IsContinued (line self.old.journal) (line self.new.journal) }
        ensures cut { IsStillReached self.old self.new }
    {
        let place = self.journal.len() as u64;
        let (id, floor) = (node.id, node.floor);
        let wants = wants_for(&node, self.colour);
        let needs = wants.least(cut);
        let stamp = self.queue.enter(id, floor, Entered::of(needs, node));
        self.spare -= 1;
        self.journal.push_reserved(Entry {
            by,
            event: Event::Single { id, floor, wants },
            stamp,
        });
        (At::Event(place), stamp)
    }

    /// The node of several colours enters as open under the next stamp, where there is room. Answers the event and the
    /// stamp.
    pub(crate) fn add_propose(&mut self, by: u8, node: Arc<Node>, cut: Counts) -> (At, u64)
        requires cut { cut ≡ cut_of self.old }
        requires room { 0 < self.old.queue.spare }
        requires stamp { stamp_for self.old node.value ≤ last_stamp }
        requires fresh { has_entered node.value.id self.old.journal ≡ false }
        requires region { node.value.region ≡ self.old.region }
        requires colour { has node.value.colours self.old.colour ≡ true }
        requires row { node.value.row ≡ None → ⊥ }
        ensures at { result.0 ≡ At.Event (length self.old.journal) }
        ensures stamp { result.1 ≡ stamp_for self.old node.value }
        ensures entry { self.new ≡ after_propose self.old by node.value }
        ensures line { line self.new.journal ≡ line self.old.journal }
        ensures cut { cut_of self.new ≡ cut_of self.old }
    {
        let place = self.journal.len() as u64;
        let (id, floor) = (node.id, node.floor);
        let wants = wants_for(&node, self.colour);
        let needs = wants.least(cut);
        let stamp = self.queue.propose(id, floor, Entered::of(needs, node));
        self.spare -= 1;
        self.opens += 1;
        self.journal.push_reserved(Entry {
            by,
            event: Event::Propose { id, floor, wants },
            stamp,
        });
        (At::Event(place), stamp)
    }

    /// An id that is open here becomes final under its number, or goes; an event exactly where it was open and the
    /// outcome is not `Open`. Takes no memory.
    pub(crate) fn settle(&mut self, by: u8, id: Id, outcome: Outcome) -> At
        requires { MaySettle id outcome (entries self.old.journal) MAX_STAMP }
        ensures answer { let settles = has_open id (entries self.old.journal) && is_decided outcome in
            let place = length self.old.journal in
            result ≡ (if settles then At.Event place else At.Look place) }
        ensures column { let settles = has_open id (entries self.old.journal) && is_decided outcome in
            self.new ≡ (if settles then after_settle self.old by id outcome else self.old) }
        ensures line { IsContinued (line self.old.journal) (line self.new.journal) }
        ensures cut { IsStillReached self.old self.new }
    {
        let place = self.journal.len() as u64;
        if !self.queue.settle(id, outcome) {
            return At::Look(place);
        }
        self.opens -= 1;
        self.journal.push_reserved(Entry {
            by,
            event: Event::Settle { id, outcome },
            stamp: 0,
        });
        At::Event(place)
    }

    /// Raises the clock; an event exactly where it was smaller.
    pub(crate) fn raise(&mut self, by: u8, to: u64) -> Result<At, AllocError>
        requires { to ≤ MAX_STAMP }
        ensures answer { let place = length self.old.journal in
            IfOk result (λ at. at ≡ (if nat_lt (clock self.old.journal) to then At.Event place else At.Look place)) }
        ensures column { OnOk result
            (self.new ≡ (if nat_lt (clock self.old.journal) to then after_raise self.old by to else self.old)) }
        ensures cut { OnOk result (cut_of self.new ≡ cut_of self.old) }
        ensures err { OnErr result (self.new ≡ self.old) }
    {
        let place = self.journal.len() as u64;
        if to <= self.queue.clock() {
            return Ok(At::Look(place));
        }
        self.journal
            .reserve(self.opens + self.spare + self.spare + 1)?;
        self.queue.raise(to);
        self.journal.push_reserved(Entry {
            by,
            event: Event::Raise { to },
            stamp: 0,
        });
        Ok(At::Event(place))
    }
}
