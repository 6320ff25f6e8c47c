// What can be asked of a column.
ghost use Rattle.std.specs.Prelude.{◌≡◌, ℕ, ◌<◌, ◌≤◌, [], length, slice_get, slice_index_or, IfOk};
ghost use Rattle.std.specs.List.{position};
ghost use Rattle.std.specs.Option.{option_map};
ghost use Rattle.log_node.specs.Order.{same_key};
ghost use Rattle.log_node.specs.Vectors.{at, IsWithin};
ghost use Rattle.log_node.specs.Standings.{queue_of};
ghost use Rattle.col_core.specs.History.{clock, entries, line};
ghost use Rattle.col_core.specs.Cuts.{held};
ghost use Rattle.column.specs.Columns.{history_of, copy_of, cut_of, base_of, AreItems};
ghost use Rattle.column.specs.Inside.{IsColumn};
ghost use Rattle.column.specs.Views.{IsView, IsBelow};

use crate::column::Column;
use crate::views::Below;
use col_core::{Chains, Entries, Entry, View};
use log_node::{Counts, Item, Items, Key, MAX_REGIONS};
use std::alloc::{AllocError, Global};

impl Column {
    /// What a reader with these counts sees: the nodes from there up to the cut.
    pub fn look(&self, alloc: Global, from: Counts) -> Result<View, AllocError>
        ensures { IfOk result (λ view. IsView self.now from view) }
    {
        let base = self.contents.base();
        let start = from.greater(base);
        let items = self.chains(alloc, start)?;
        Ok(View {
            region: self.contents.own_region(),
            colour: self.contents.own_colour(),
            events: self.contents.journal().len() as u64,
            cut: self.cut,
            base,
            from: start,
            items,
        })
    }

    // For each region the nodes of its chain from a number on up to the cut.
    fn chains(&self, alloc: Global, from: Counts) -> Result<Chains, AllocError>
        requires { IsWithin (base_of self.now) from }
        ensures so_many { IfOk result (λ items. length items ≡ 4) }
        ensures items { IfOk result (λ items. (region : ℕ) → region < 4
            → AreItems self.now region (at from region) (at (cut_of self.now) region)
            (slice_index_or items region [])) }
    {
        let mut items = Chains::new(alloc);
        for region in 0..MAX_REGIONS {
            items.push(self.items(alloc, region, from.of_region(region))?)?;
        }
        Ok(items)
    }

    // The nodes of a region's chain from a number on up to the cut.
    fn items(&self, alloc: Global, region: u8, from: u64) -> Result<Items, AllocError>
        requires region { region < 4 }
        requires base { at (base_of self.now) region ≤ from }
        ensures { IfOk result (λ items. AreItems self.now region from (at (cut_of self.now) region) items) }
    {
        self.contents.agrees();
        self.contents
            .stretch(alloc, region, from, self.cut.of_region(region))
    }

    /// The carried nodes of another region's chain that are kept: those from the base on.
    pub fn copy(&self, region: u8) -> &[Item]
        requires { region < 4 }
        ensures { result.now ≡ copy_of self.now region }
    {
        self.contents.copy(region)
    }

    /// How many open entries have a key below, and the least of them.
    pub fn below(&self, key: Key) -> Below
        ensures { IsBelow self.now key result }
    {
        self.contents.below(key)
    }

    /// The position of a key in the line, counted from 0; `None` exactly where it is not in the line.
    pub fn place(&self, key: Key) -> Option<u64>
        ensures { result ≡ position (λ k. same_key k key) (line self.now.journal) }
    {
        self.contents.place(key)
    }

    /// The region whose copy it is.
    pub fn region(&self) -> u8
        ensures { result ≡ self.now.region }
    {
        self.contents.own_region()
    }

    /// The colour of which it is a copy.
    pub fn colour(&self) -> u8
        ensures { result ≡ self.now.colour }
    {
        self.contents.own_colour()
    }

    /// The clock: no entry has a greater stamp.
    pub fn clock(&self) -> u64
        ensures { result ≡ clock self.now.journal }
    {
        self.contents.clock()
    }

    /// All events, the first one first.
    pub fn journal(&self) -> &[Entry]
        ensures { result.now ≡ self.now.journal }
    {
        self.contents.journal()
    }

    /// The same, where the column is no longer needed; takes no memory.
    pub fn into_journal(self) -> Entries
        ensures { result ≡ self.journal }
    {
        self.contents.into_journal()
    }

    /// The keys of the line, also of trimmed nodes.
    pub fn line(&self) -> &[Key]
        ensures { result.now ≡ line self.now.journal }
    {
        self.contents.line()
    }

    /// The key at that place among the entries that are not in the line, in rising key, counted from 0, and whether it
    /// is settled. `None` exactly where there are no more than `at`.
    pub fn waiting(&self, at: u64) -> Option<(Key, bool)>
        ensures { result ≡ option_map (λ e. (e.key, e.settled)) (slice_get (queue_of (entries self.now.journal)) at) }
    {
        self.contents.waiting(at)
    }

    /// How many nodes of each region's chain are here.
    pub fn held(&self) -> Counts
        ensures { result ≡ held self.now.region (history_of self.now) }
    {
        self.contents.held()
    }

    /// How many nodes of each region's chain may be played.
    pub fn cut(&self) -> Counts
        ensures { result ≡ cut_of self.now }
    {
        self.cut
    }

    /// Below these counts nodes are trimmed.
    pub fn base(&self) -> Counts
        ensures { result ≡ base_of self.now }
    {
        self.contents.base()
    }

    /// The facts that tie a column's entries to its journal.
    pub fn agrees(&self)
        ensures { IsColumn self.now }
    {
        self.contents.agrees()
    }
}
