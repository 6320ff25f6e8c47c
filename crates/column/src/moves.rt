// What passes between the columns of a colour: what is noted as asked for, what is carried, and what is trimmed.
ghost use Rattle.std.specs.Prelude.{◌≡◌, ◌≢◌, ◌<◌, nat_lt, ◌-◌, [], length, vec_len, map, drop, IfOk, OnOk, OnErr};
ghost use Rattle.std.specs.Prelude.{if◌then◌else◌};
ghost use Rattle.column.specs.Columns.{after_give, after_carry, after_trim, with_items, new_items};
ghost use Rattle.column.specs.Columns.{cut_of, base_of};
ghost use Rattle.column.specs.Inside.{IsStillReached};

use crate::contents::Contents;
use crate::given::Given;
use crate::trimming::Trimming;
use col_core::{Entry, Event, Heads};
use log_node::{At, Counts, Item};
use std::alloc::{AllocError, Global};

// The same nodes once more.
fn shared(alloc: Global, items: &[Item]) -> Result<Vec<Item>, AllocError>
    ensures { IfOk result (λ copies. copies.items ≡ items.now) }
{
    let mut copies = Vec::with_capacity(alloc, items.len())?;
    for item in items {
        copies.push(item.share()?)?;
    }
    Ok(copies)
}

// The nodes of a part of a line from a number on; none where one between is missing.
fn shared_from(alloc: Global, held: u64, given: &Given) -> Result<Vec<Item>, AllocError>
    ensures { IfOk result (λ items. items.items
        ≡ (if nat_lt held given.now.start then [] else drop (held - given.now.start) given.now.items)) }
{
    if held < given.start {
        return Ok(Vec::new(alloc));
    }
    let items = given.items.as_slice();
    let from = ((held - given.start) as usize).min(items.len());
    shared(alloc, &items[from..])
}

// The heads of nodes.
fn heads_of(alloc: Global, items: &[Item]) -> Result<Heads, AllocError>
    ensures { IfOk result (λ heads. heads ≡ map (λ i. i.head) items.now) }
{
    let mut heads = Heads::with_capacity(alloc, items.len())?;
    for item in items {
        heads.push(item.head)?;
    }
    Ok(heads)
}

impl Contents {
    /// Notes that another region has asked for the line from a number on, which counts as the line's length where it is
    /// above.
    pub(crate) fn note(&mut self, by: u8, region: u8, from: u64) -> Result<At, AllocError>
        requires other { region ≢ self.old.region }
        requires region { region < self.old.regions }
        ensures answer { IfOk result (λ at. at ≡ At.Event (length self.old.journal)) }
        ensures column { OnOk result (self.new ≡ after_give self.old by region from) }
        ensures cut { OnOk result (cut_of self.new ≡ cut_of self.old) }
        ensures err { OnErr result (self.new ≡ self.old) }
    {
        let place = self.journal.len() as u64;
        let from = from.min(self.queue.line().len() as u64);
        self.journal
            .reserve(self.opens + self.spare + self.spare + 1)?;
        self.notes = self
            .notes
            .with_number(region, self.notes.of_region(region).max(from));
        self.journal.push_reserved(Entry {
            by,
            event: Event::Give { region, from },
            stamp: 0,
        });
        Ok(At::Event(place))
    }

    /// Takes over what is new of a part of another region's line; an event exactly where something is. Answers how much
    /// that is.
    pub(crate) fn carry(
        &mut self,
        alloc: Global,
        by: u8,
        region: u8,
        given: &Given,
    ) -> Result<(At, u64), AllocError>
        requires other { region ≢ self.old.region }
        requires region { region < self.old.regions }
        ensures at { let place = length self.old.journal in
            let count = length (new_items self.old region given.now) in
            IfOk result (λ r. r.0 ≡ (if nat_lt 0 count then At.Event place else At.Look place)) }
        ensures count { IfOk result (λ r. r.1 ≡ length (new_items self.old region given.now)) }
        ensures column { OnOk result (self.new ≡ after_carry self.old by region given.now) }
        ensures cut { OnOk result (IsStillReached self.old self.new) }
        ensures err { OnErr result (self.new ≡ self.old) }
    {
        let held = self.carried.of_region(region);
        let mut items = shared_from(alloc, held, given)?;
        let count = items.len() as u64;
        let at = self.take_over(by, region, &mut items)?;
        Ok((at, count))
    }

    /// Takes over nodes of another region's chain, the next ones after those held: all of them, and leaves none. An
    /// event exactly where there is one.
    pub(crate) fn take_over(
        &mut self,
        by: u8,
        region: u8,
        items: &mut Vec<Item>,
    ) -> Result<At, AllocError>
        requires other { region ≢ self.old.region }
        requires region { region < self.old.regions }
        ensures at { let place = length self.old.journal in
            IfOk result (λ at. at ≡ (if nat_lt 0 (length items.old.items) then At.Event place else At.Look place)) }
        ensures column { OnOk result (self.new ≡ with_items self.old by region items.old.items) }
        ensures left { OnOk result (items.new.items ≡ []) }
        ensures cut { OnOk result (IsStillReached self.old self.new) }
        ensures err { OnErr result ((self.new ≡ self.old) × (items.new.items ≡ items.old.items)) }
    {
        let place = self.journal.len() as u64;
        if items.is_empty() {
            return Ok(At::Look(place));
        }
        self.add_items(by, region, items)?;
        Ok(At::Event(place))
    }

    // The nodes come to the end of a region's chain.
    fn add_items(&mut self, by: u8, region: u8, items: &mut Vec<Item>) -> Result<(), AllocError>
        requires other { region ≢ self.old.region }
        requires region { region < self.old.regions }
        requires items { 0 < vec_len items.old }
        ensures column { OnOk result (self.new ≡ with_items self.old by region items.old.items) }
        ensures left { OnOk result (items.new.items ≡ []) }
        ensures cut { OnOk result (IsStillReached self.old self.new) }
        ensures err { OnErr result ((self.new ≡ self.old) × (items.new.items ≡ items.old.items)) }
    {
        let start = self.carried.of_region(region);
        let Some(end) = start.checked_add(items.len() as u64) else {
            return Err(AllocError);
        };
        let heads = heads_of(*items.allocator(), items)?;
        self.journal
            .reserve(self.opens + self.spare + self.spare + 1)?;
        self.copies.append(region, items)?;
        self.carried = self.carried.with_number(region, end);
        self.journal.push_reserved(Entry {
            by,
            event: Event::Carry {
                region,
                start,
                heads,
            },
            stamp: 0,
        });
        Ok(())
    }

    /// Drops the nodes that these counts allow to drop. Answers the base afterwards.
    pub(crate) fn trim(
        &mut self,
        by: u8,
        counts: Counts,
        cut: Counts,
    ) -> Result<(At, Counts), AllocError>
        requires { cut ≡ cut_of self.old }
        ensures at { IfOk result (λ r. r.0 ≡ At.Event (length self.old.journal)) }
        ensures base { IfOk result (λ r. r.1 ≡ base_of self.new) }
        ensures column { OnOk result (self.new ≡ after_trim self.old by counts) }
        ensures cut { OnOk result (cut_of self.new ≡ cut_of self.old) }
        ensures err { OnErr result (self.new ≡ self.old) }
    {
        let place = self.journal.len() as u64;
        self.journal
            .reserve(self.opens + self.spare + self.spare + 1)?;
        let trimming = Trimming {
            base: self.base,
            notes: self.notes,
            cut,
            counts,
            own: self.region,
            regions: self.regions,
        };
        let base = trimming.base_after();
        self.queue.drop_to(base.of_region(self.region));
        self.copies.drop_to(self.base, base);
        self.base = base;
        self.journal.push_reserved(Entry {
            by,
            event: Event::Trim { counts },
            stamp: 0,
        });
        Ok((At::Event(place), base))
    }
}
