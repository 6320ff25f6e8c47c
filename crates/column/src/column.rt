// A column, one region's copy of one colour. Clocks are those of Lamport, "Time, Clocks, and the Ordering of Events in
// a Distributed System" (1978), stamps and delivery those of Skeen's multicast, as in Birman and Joseph, "Reliable
// Communication in the Presence of Failures" (1987), colours and chains those of Lockerman et al., "The FuzzyLog" (OSDI
// 2018). The journal is this project's own.
ghost use Rattle.std.specs.Prelude.{◌≡◌, ◌≢◌, ◌+◌, ◌<◌, ◌≤◌, ◌&&◌, true, false, None, Some, [], nat_lt, length};
ghost use Rattle.std.specs.Prelude.{if◌then◌else◌, slice_get, IfOk, IfErr, OnOk, OnErr};
ghost use Rattle.log_node.specs.Sets.{has};
ghost use Rattle.log_node.specs.Vectors.{at, IsWithin};
ghost use Rattle.skeen_core.specs.Queues.{has_open, is_decided, IsContinued, MaySettle};
ghost use Rattle.col_core.specs.History.{clock, last_stamp, next_stamp, entries, line, has_entered};
ghost use Rattle.column.specs.Columns.{new_column, with_room, after_single, after_propose, after_settle, after_raise};
ghost use Rattle.column.specs.Columns.{after_give, after_carry, after_trim, with_items, new_items, chains_of, base_of, cut_of};
ghost use Rattle.column.specs.Columns.{stamp_for, HasEnterCause, HasStored, AreItems, IsGiven};
ghost use Rattle.log_node.specs.Reach.{Reachable};

use crate::contents::Contents;
use crate::entered::Entered;
use crate::faults::ColumnFault;
use crate::given::Given;
use log_node::{
    At, Counts, Id, Item, Items, Key, MAX_COLOURS, MAX_REGIONS, MAX_STAMP, Node, Outcome, Shape,
};
use snapshot_cut::admit;
use std::alloc::{AllocError, Global};
use std::marker::Model;
use std::sync::Arc;

/// One region's copy of one colour: the journal of its events, its entries with their nodes, the nodes that were carried
/// from other regions, and how much of each chain may be played.
#[derive(Drop)]
pub struct Column {
    pub(crate) contents: Contents,
    pub(crate) cut: Counts,
}

impl Model for Column {
    ghost use Rattle.std.specs.Prelude.{◌≡◌};
    ghost use Rattle.column.specs.Columns.{ColumnState, cut_of};

    ghost Value = { ColumnState };

    ghost view = { λ a. a.contents };

    ghost invariant = { λ a. a.cut ≡ cut_of a.contents };
}

// How much of each chain may be played now, where so much could be played before.
fn admitted(contents: &Contents, cut: Counts) -> Counts
    requires reached { Reachable (chains_of contents.now) cut }
    requires base { IsWithin (base_of contents.now) cut }
    ensures { result ≡ cut_of contents.now }
{
    admit(contents, cut)
}

impl Column {
    /// The column of a region and a colour with nothing in it.
    pub fn open(alloc: Global, region: u8, colour: u8, shape: &Shape) -> Result<Column, AllocError>
        requires region { region < MAX_REGIONS }
        requires colour { colour < MAX_COLOURS }
        requires regions { shape.now.regions ≤ MAX_REGIONS }
        ensures { IfOk result (λ column. column ≡ new_column region colour shape.now.regions) }
    {
        Ok(Column {
            contents: Contents::open(alloc, region, colour, shape)?,
            cut: Counts([0; 4]),
        })
    }

    /// Takes the memory for one entry, its place in the line, its event and its settling, unless it is there; the
    /// answer is the stamp that comes next for the floor.
    pub fn room(&mut self, floor: u64) -> Result<u64, ColumnFault>
        requires { floor ≤ MAX_STAMP }
        ensures stamp { IfOk result (λ s. (s ≡ next_stamp self.old.journal floor) × (s ≤ last_stamp)) }
        ensures ok { OnOk result (self.new ≡ with_room self.old) }
        ensures cause { IfErr result (HasEnterCause self.old floor) }
        ensures err { OnErr result (self.new ≡ self.old) }
    {
        self.contents.room(floor)
    }

    /// The node enters as final under the next stamp. Answers the event and the stamp.
    pub fn single(&mut self, by: u8, node: Arc<Node>) -> Result<(At, u64), ColumnFault>
        requires fresh { has_entered node.value.id self.old.journal ≡ false }
        requires region { node.value.region ≡ self.old.region }
        requires colour { has node.value.colours self.old.colour ≡ true }
        requires floor { node.value.floor ≤ MAX_STAMP }
        ensures answer { IfOk result (λ r. (r.0 ≡ At.Event (length self.old.journal))
            × (r.1 ≡ stamp_for self.old node.value)) }
        ensures entry { OnOk result (self.new ≡ after_single (with_room self.old) by node.value) }
        ensures line { IsContinued (line self.old.journal) (line self.new.journal) }
        ensures cause { IfErr result (HasEnterCause self.old node.value.floor) }
        ensures err { OnErr result (self.new ≡ self.old) }
    {
        let floor = node.floor;
        self.room(floor)?;
        Ok(self.add_single(by, node))
    }

    // The same where there is room.
    fn add_single(&mut self, by: u8, node: Arc<Node>) -> (At, u64)
        requires room { 0 < self.old.queue.spare }
        requires stamp { stamp_for self.old node.value ≤ last_stamp }
        requires fresh { has_entered node.value.id self.old.journal ≡ false }
        requires region { node.value.region ≡ self.old.region }
        requires colour { has node.value.colours self.old.colour ≡ true }
        ensures at { result.0 ≡ At.Event (length self.old.journal) }
        ensures stamp { result.1 ≡ stamp_for self.old node.value }
        ensures entry { self.new ≡ after_single self.old by node.value }
        ensures line { IsContinued (line self.old.journal) (line self.new.journal) }
    {
        let answer = self.contents.add_single(by, node, self.cut);
        self.cut = admitted(&self.contents, self.cut);
        answer
    }

    /// The node of several colours enters as open under the next stamp. Answers the event and the stamp.
    pub fn propose(&mut self, by: u8, node: Arc<Node>) -> Result<(At, u64), ColumnFault>
        requires fresh { has_entered node.value.id self.old.journal ≡ false }
        requires region { node.value.region ≡ self.old.region }
        requires colour { has node.value.colours self.old.colour ≡ true }
        requires floor { node.value.floor ≤ MAX_STAMP }
        requires row { node.value.row ≡ None → ⊥ }
        ensures answer { IfOk result (λ r. (r.0 ≡ At.Event (length self.old.journal))
            × (r.1 ≡ stamp_for self.old node.value)) }
        ensures entry { OnOk result (self.new ≡ after_propose (with_room self.old) by node.value) }
        ensures line { line self.new.journal ≡ line self.old.journal }
        ensures cause { IfErr result (HasEnterCause self.old node.value.floor) }
        ensures err { OnErr result (self.new ≡ self.old) }
    {
        let floor = node.floor;
        self.contents.room(floor)?;
        Ok(self.contents.add_propose(by, node, self.cut))
    }

    /// An id that is open here becomes final under its number, or goes; an event exactly where it was open and the
    /// outcome is not `Open`. Takes no memory.
    pub fn settle(&mut self, by: u8, id: Id, outcome: Outcome) -> At
        requires { MaySettle id outcome (entries self.old.journal) MAX_STAMP }
        ensures answer { let settles = has_open id (entries self.old.journal) && is_decided outcome in
            let place = length self.old.journal in
            result ≡ (if settles then At.Event place else At.Look place) }
        ensures column { let settles = has_open id (entries self.old.journal) && is_decided outcome in
            self.new ≡ (if settles then after_settle self.old by id outcome else self.old) }
        ensures line { IsContinued (line self.old.journal) (line self.new.journal) }
    {
        let at = self.contents.settle(by, id, outcome);
        self.cut = admitted(&self.contents, self.cut);
        at
    }

    /// Raises the clock; an event exactly where it was smaller.
    pub fn raise(&mut self, by: u8, to: u64) -> Result<At, AllocError>
        requires { to ≤ MAX_STAMP }
        ensures answer { let place = length self.old.journal in
            IfOk result (λ at. at ≡ (if nat_lt (clock self.old.journal) to then At.Event place else At.Look place)) }
        ensures column { OnOk result
            (self.new ≡ (if nat_lt (clock self.old.journal) to then after_raise self.old by to else self.old)) }
        ensures err { OnErr result (self.new ≡ self.old) }
    {
        self.contents.raise(by, to)
    }

    /// Gives another region the own nodes from a number on, or from the base on where that is greater, and notes that it
    /// has asked past that number. A number above the line's length counts as that length. Always an event.
    pub fn give(
        &mut self,
        alloc: Global,
        by: u8,
        region: u8,
        from: u64,
    ) -> Result<(At, Given), AllocError>
        requires other { region ≢ self.old.region }
        requires region { region < self.old.regions }
        ensures at { IfOk result (λ r. r.0 ≡ At.Event (length self.old.journal)) }
        ensures given { IfOk result (λ r. IsGiven self.old from r.1) }
        ensures column { OnOk result (self.new ≡ after_give self.old by region from) }
        ensures err { OnErr result (self.new ≡ self.old) }
    {
        self.contents.agrees();
        let own = self.contents.own_region();
        let end = self.contents.line().len() as u64;
        let start = from.min(end).max(self.contents.base().of_region(own));
        let items = self.contents.stretch(alloc, own, start, end)?;
        let at = self.contents.note(by, region, from)?;
        Ok((at, Given { start, items }))
    }

    /// Notes that another region has asked past a number, as `give` does, and hands over no nodes. Always an event.
    pub fn note(&mut self, by: u8, region: u8, from: u64) -> Result<At, AllocError>
        requires other { region ≢ self.old.region }
        requires region { region < self.old.regions }
        ensures at { IfOk result (λ at. at ≡ At.Event (length self.old.journal)) }
        ensures column { OnOk result (self.new ≡ after_give self.old by region from) }
        ensures err { OnErr result (self.new ≡ self.old) }
    {
        self.contents.note(by, region, from)
    }

    /// So many own nodes from a number on, which is at least the base.
    pub fn stretch(&self, alloc: Global, start: u64, count: u64) -> Result<Items, AllocError>
        requires base { at (base_of self.now) self.now.region ≤ start }
        requires end { start + count ≤ length (line self.now.journal) }
        ensures { IfOk result (λ items. AreItems self.now self.now.region start (start + count) items) }
    {
        self.contents.agrees();
        let _whole = self.contents.line();
        self.contents
            .stretch(alloc, self.contents.own_region(), start, start + count)
    }

    /// The key and the node at a place of the own line, counted from 0, which is at least the base.
    pub fn own_entered(&self, place: u64) -> (Key, &Entered)
        requires base { at (base_of self.now) self.now.region ≤ place }
        requires end { place < length (line self.now.journal) }
        ensures key { slice_get (line self.now.journal) place ≡ Some result.0 }
        ensures node { HasStored self.now result.0 result.1.now.node }
        ensures head { slice_get (chains_of self.now self.now.region) place
            ≡ Some (record { key = result.0; needs = result.1.now.needs }) }
    {
        self.contents.own_entered(place)
    }

    /// Takes over what is new of a part of another region's line: the nodes behind those held, and none where one
    /// between is missing. An event exactly where there is one. Answers by how much the chain grew.
    pub fn carry(
        &mut self,
        alloc: Global,
        by: u8,
        region: u8,
        given: &Given,
    ) -> Result<(At, u64), AllocError>
        requires other { region ≢ self.old.region }
        requires region { region < self.old.regions }
        ensures at { let place = length self.old.journal in
            let count = length (new_items self.old region given.now) in
            IfOk result (λ r. r.0 ≡ (if nat_lt 0 count then At.Event place else At.Look place)) }
        ensures count { IfOk result (λ r. r.1 ≡ length (new_items self.old region given.now)) }
        ensures column { OnOk result (self.new ≡ after_carry self.old by region given.now) }
        ensures err { OnErr result (self.new ≡ self.old) }
    {
        let answer = self.contents.carry(alloc, by, region, given)?;
        self.cut = admitted(&self.contents, self.cut);
        Ok(answer)
    }

    /// Takes over nodes of another region's chain, the next ones after those held: all of them, and leaves none. An
    /// event exactly where there is one.
    pub fn take_over(&mut self, by: u8, region: u8, items: &mut Vec<Item>) -> Result<At, AllocError>
        requires other { region ≢ self.old.region }
        requires region { region < self.old.regions }
        ensures at { let place = length self.old.journal in
            IfOk result (λ at. at ≡ (if nat_lt 0 (length items.old.items) then At.Event place else At.Look place)) }
        ensures column { OnOk result (self.new ≡ with_items self.old by region items.old.items) }
        ensures left { OnOk result (items.new.items ≡ []) }
        ensures err { OnErr result ((self.new ≡ self.old) × (items.new.items ≡ items.old.items)) }
    {
        let at = self.contents.take_over(by, region, items)?;
        self.cut = admitted(&self.contents, self.cut);
        Ok(at)
    }

    /// Drops the nodes below the least of these counts and the cut, and of the own nodes those alone past which every
    /// other region has asked. Answers the base afterwards. Always an event.
    pub fn trim(&mut self, by: u8, counts: Counts) -> Result<(At, Counts), AllocError>
        ensures at { IfOk result (λ r. r.0 ≡ At.Event (length self.old.journal)) }
        ensures base { IfOk result (λ r. r.1 ≡ base_of self.new) }
        ensures column { OnOk result (self.new ≡ after_trim self.old by counts) }
        ensures err { OnErr result (self.new ≡ self.old) }
    {
        self.contents.trim(by, counts, self.cut)
    }
}
