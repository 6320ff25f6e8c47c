// What can be read of a column's contents.
ghost use Rattle.std.specs.Prelude.{◌≡◌, ◌≢◌, ◌+◌, ◌-◌, ◌<◌, ◌≤◌, Some, length, take, drop, slice_get, IfOk};
ghost use Rattle.log_node.specs.declared.node.Head.{Head};
ghost use Rattle.std.specs.List.{position};
ghost use Rattle.std.specs.Option.{option_map};
ghost use Rattle.log_node.specs.Seen.{PlacedNode};
ghost use Rattle.log_node.specs.Order.{same_key};
ghost use Rattle.log_node.specs.Vectors.{at};
ghost use Rattle.log_node.specs.Standings.{queue_of};
ghost use Rattle.col_core.specs.History.{clock, entries, line};
ghost use Rattle.col_core.specs.Cuts.{held};
ghost use Rattle.column.specs.Columns.{history_of, chains_of, copy_of, held_of, base_of, items_under, AreItems, HasStored};
ghost use Rattle.column.specs.Entering.{EnteredNode};
ghost use Rattle.column.specs.Inside.{IsColumn};
ghost use Rattle.column.specs.Views.{IsBelow};

use crate::contents::Contents;
use crate::entered::{Entered, items_of};
use crate::keys::place_of;
use crate::views::Below;
use crate::waits::{first_below, open_below};
use col_core::{Entries, Entry};
use log_node::{Counts, Item, Items, Key, ListOf};
use snapshot_cut::NeedsView;
use std::alloc::{AllocError, Global};

// The same nodes once more.
fn shared(alloc: Global, items: &[Item]) -> Result<Items, AllocError>
    ensures { IfOk result (λ copies. copies ≡ items.now) }
{
    let mut copies = Vec::with_capacity(alloc, items.len())?;
    for item in items {
        copies.push_reserved(item.share()?);
    }
    Ok(ListOf::from(copies))
}

// The nodes from one place on up to another.
fn shared_between(alloc: Global, items: &[Item], first: u64, last: u64) -> Result<Items, AllocError>
    requires order { first ≤ last }
    requires end { last ≤ length items.now }
    ensures { IfOk result (λ copies. copies ≡ take (last - first) (drop first items.now)) }
{
    shared(alloc, &items[first as usize..last as usize])
}

// The nodes in a line from one place on up to another, where those below the base are dropped.
fn entered_between(
    alloc: Global,
    keys: &[Key],
    nodes: &[Entered],
    base: u64,
    from: u64,
    to: u64,
) -> Result<Items, AllocError>
    requires base { base ≤ from }
    requires order { from ≤ to }
    requires end { to ≤ length keys.now }
    requires kept { base + length nodes.now ≡ length keys.now }
    ensures { IfOk result (λ items. items ≡ items_under (take (to - from) (drop from keys.now))
        (take (to - from) (drop (from - base) nodes.now))) }
{
    let nodes = &nodes[(from - base) as usize..(to - base) as usize];
    items_of(alloc, &keys[from as usize..to as usize], nodes)
}

// What the node at a place needs.
fn entered_needs(nodes: &[Entered], at: u64) -> Counts
    requires { at < length nodes.now }
    ensures { (node : EnteredNode) → slice_get nodes.now at ≡ Some node → result ≡ node.needs }
{
    nodes[at as usize].needs()
}

// What the carried node at a place needs.
fn item_needs(items: &[Item], at: u64) -> Counts
    requires { at < length items.now }
    ensures { (item : PlacedNode) → slice_get items.now at ≡ Some item → result ≡ item.head.needs }
{
    let item = &items[at as usize];
    item.head.needs
}

impl Contents {
    /// The nodes of a region's chain from a number on up to another.
    pub(crate) fn stretch(
        &self,
        alloc: Global,
        region: u8,
        from: u64,
        to: u64,
    ) -> Result<Items, AllocError>
        requires region { region < 4 }
        requires base { at (base_of self.now) region ≤ from }
        requires held { to ≤ held_of self.now region }
        ensures { IfOk result (λ items. AreItems self.now region from to items) }
    {
        if to <= from {
            return Ok(ListOf::new(alloc));
        }
        if region == self.region {
            self.own_stretch(alloc, from, to)
        } else {
            self.carried_stretch(alloc, region, from, to)
        }
    }

    // The same of the own line.
    fn own_stretch(&self, alloc: Global, from: u64, to: u64) -> Result<Items, AllocError>
        requires base { at (base_of self.now) self.now.region ≤ from }
        requires order { from ≤ to }
        requires held { to ≤ length (line self.now.journal) }
        ensures { IfOk result (λ items. AreItems self.now self.now.region from to items) }
    {
        let keys = self.queue.line();
        let (base, things) = self.queue.kept();
        let items = entered_between(alloc, keys, things, base, from, to)?;
        Ok(items)
    }

    // The same of another region's chain.
    fn carried_stretch(
        &self,
        alloc: Global,
        region: u8,
        from: u64,
        to: u64,
    ) -> Result<Items, AllocError>
        requires region { region < 4 }
        requires other { region ≢ self.now.region }
        requires base { at (base_of self.now) region ≤ from }
        requires order { from ≤ to }
        requires held { to ≤ held_of self.now region }
        ensures { IfOk result (λ items. AreItems self.now region from to items) }
    {
        let base = self.base.of_region(region);
        let items = shared_between(alloc, self.copies.of(region), from - base, to - base)?;
        Ok(items)
    }

    /// The carried nodes of another region's chain that are kept.
    pub(crate) fn copy(&self, region: u8) -> &[Item]
        requires { region < 4 }
        ensures { result.now ≡ copy_of self.now region }
    {
        self.copies.of(region)
    }

    /// How many open entries have a key below, and the least of them.
    pub(crate) fn below(&self, key: Key) -> Below
        ensures { IsBelow self.now key result }
    {
        let waiting = self.queue.waiting();
        Below {
            events: self.journal.len() as u64,
            count: open_below(waiting, key) as u64,
            first: first_below(waiting, key),
        }
    }

    /// The position of a key in the line, counted from 0; `None` exactly where it is not in the line.
    pub(crate) fn place(&self, key: Key) -> Option<u64>
        ensures { result ≡ position (λ k. same_key k key) (line self.now.journal) }
    {
        place_of(self.queue.line(), key)
    }

    /// The clock: no entry has a greater stamp.
    pub(crate) fn clock(&self) -> u64
        ensures { result ≡ clock self.now.journal }
    {
        self.queue.clock()
    }

    /// All events, the first one first.
    pub(crate) fn journal(&self) -> &[Entry]
        ensures { result.now ≡ self.now.journal }
    {
        self.journal.as_slice()
    }

    /// The same, where these are no longer needed.
    pub(crate) fn into_journal(self) -> Entries
        ensures { result ≡ self.journal }
    {
        ListOf::from(self.journal)
    }

    /// The keys of the line, also of trimmed nodes.
    pub(crate) fn line(&self) -> &[Key]
        ensures { result.now ≡ line self.now.journal }
    {
        self.queue.line()
    }

    /// The key at that place among the entries that are not in the line, in rising key, counted from 0, and whether it
    /// is settled. `None` exactly where there are no more than `at`.
    pub(crate) fn waiting(&self, at: u64) -> Option<(Key, bool)>
        ensures { result ≡ option_map (λ e. (e.key, e.settled)) (slice_get (queue_of (entries self.now.journal)) at) }
    {
        let entry = self.queue.waiting().get(at as usize)?;
        Some((entry.key, entry.settled))
    }

    /// Of which region it is.
    pub(crate) fn own_region(&self) -> u8
        ensures { result ≡ self.now.region }
    {
        self.region
    }

    /// Of which colour it is.
    pub(crate) fn own_colour(&self) -> u8
        ensures { result ≡ self.now.colour }
    {
        self.colour
    }

    /// How many nodes of each region's chain are here.
    pub(crate) fn held(&self) -> Counts
        ensures { result ≡ held self.now.region (history_of self.now) }
    {
        let own = self.queue.line().len() as u64;
        self.carried.with_number(self.region, own)
    }

    /// Below these counts nodes are dropped.
    pub(crate) fn base(&self) -> Counts
        ensures { result ≡ base_of self.now }
    {
        self.base
    }

    /// The key and the node at a place of the own line, counted from 0, which is at least the base.
    pub(crate) fn own_entered(&self, place: u64) -> (Key, &Entered)
        requires base { at (base_of self.now) self.now.region ≤ place }
        requires end { place < length (line self.now.journal) }
        ensures key { slice_get (line self.now.journal) place ≡ Some result.0 }
        ensures node { HasStored self.now result.0 result.1.now.node }
        ensures head { slice_get (chains_of self.now self.now.region) place
            ≡ Some (record { key = result.0; needs = result.1.now.needs }) }
    {
        let keys = self.queue.line();
        let (base, things) = self.queue.kept();
        (keys[place as usize], &things[(place - base) as usize])
    }

    /// The facts that tie a column's entries to its journal.
    pub(crate) fn agrees(&self)
        ensures { IsColumn self.now }
    {
        let _whole = &self.journal;
    }

    // What an own node needs.
    fn own_needs(&self, position: u64) -> Counts
        requires base { at (base_of self.now) self.now.region ≤ position }
        requires held { position < length (line self.now.journal) }
        ensures { (head : Head) → slice_get (chains_of self.now self.now.region) position ≡ Some head
            → result ≡ head.needs }
    {
        let (base, things) = self.queue.kept();
        entered_needs(things, position - base)
    }

    // What a carried node needs.
    fn carried_needs(&self, region: u8, position: u64) -> Counts
        requires region { region < 4 }
        requires other { region ≢ self.now.region }
        requires base { at (base_of self.now) region ≤ position }
        requires held { position < held_of self.now region }
        ensures { (head : Head) → slice_get (chains_of self.now region) position ≡ Some head → result ≡ head.needs }
    {
        let base = self.base.of_region(region);
        item_needs(self.copies.of(region), position - base)
    }
}

impl NeedsView for Contents {
    ghost chains = { chains_of };

    ghost bases = { base_of };

    fn base(&self, region: u8) -> u64 {
        self.base.of_region(region)
    }

    fn count(&self, region: u8) -> u64 {
        if region == self.region {
            self.queue.line().len() as u64
        } else {
            self.carried.of_region(region)
        }
    }

    fn needs(&self, region: u8, position: u64) -> Counts {
        if region == self.region {
            self.own_needs(position)
        } else {
            self.carried_needs(region, position)
        }
    }
}
