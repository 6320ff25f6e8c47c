// What a column does under its turn with its rings.
ghost use Rattle.std.specs.Prelude.{◌≡◌, ◌≢◌, ◌↔◌, ◌<◌, ◌≤◌, ◌+◌, ◌++◌, ℕ, List, Ok, Some, None, length, IfOk, IfSome, OnOk, OnErr};
ghost use mathlib.Core.List.{IsPrefix};
ghost use Rattle.log_node.specs.Seen.{PlacedNode};
ghost use Rattle.column.specs.Columns.{held_of};
ghost use Rattle.stamp_board.specs.Seats.{column_seen};
ghost use Rattle.ring_ends.specs.Rings.{ring_sent, gone};
ghost use Rattle.chain_store.specs.Rings.{AreNextOwn, IsFedFrom};
ghost use Rattle.chain_store.specs.Columns.{Gains, Stays, told_carry, tag_of};
ghost use Rattle.chain_store.specs.Columns.{waiting_of, IsFed, IsDrained};

use crate::seated::Seated;
use column::Column;
use ring_ends::{Sends, place_of};
use std::alloc::AllocError;

// Nodes of the column's line go into the ring, from the one on that comes next there, while the ring has room. None goes
// where the next one is trimmed.
fn send_line(column: &Column, sends: &mut Sends) -> Result<(), AllocError>
    ensures ring { ring_sent sends.new ≡ ring_sent sends.old }
    ensures gone { (more : List PlacedNode) × (gone sends.new ≡ gone sends.old ++ more)
        × AreNextOwn column.now (length (gone sends.old)) more }
    ensures fed { OnOk result (IsFedFrom column.now sends.new) }
{
    column.agrees();
    let base = column.base().of_region(column.region());
    let lined = column.line().len() as u64;
    for _ in 0..sends.room() {
        let place = sends.sent();
        if place < base || place >= lined {
            break;
        }
        let (key, entered) = column.own_entered(place);
        let item = entered.item(key)?;
        sends.send(item);
    }
    Ok(())
}

impl Seated {
    /// Sends own nodes to another region, in their order, until its ring is full, none is left, or the next one is trimmed.
    /// Where one can't be shared for want of memory, those before it are sent.
    pub(crate) fn feed(&mut self, region: u8) -> Result<(), AllocError>
        requires other { region ≢ self.old.column.region }
        requires region { region < self.old.column.regions }
        ensures tag { tag_of self.new ≡ tag_of self.old }
        ensures same { self.new.column ≡ self.old.column }
        ensures fed { OnOk result (IsFed self.new region) }
        ensures stays { Stays self.old self.new }
    {
        let place = place_of(self.column.region(), region);
        send_line(&self.column, &mut self.rings.sends[place])
    }

    /// Receives what another region's ring has, and answers how many nodes of that region are held or received then. A
    /// refusal loses nothing.
    pub(crate) fn drain(&mut self, region: u8) -> Result<u64, AllocError>
        requires other { region ≢ self.old.column.region }
        requires region { region < self.old.column.regions }
        ensures tag { tag_of self.new ≡ tag_of self.old }
        ensures same { self.new.column ≡ self.old.column }
        ensures count { IfOk result (λ n. n ≡ held_of self.new.column region + length (waiting_of self.new region)) }
        ensures all { OnOk result (IsDrained self.new region) }
        ensures waiting { IsPrefix (waiting_of self.old region) (waiting_of self.new region) }
        ensures stays { Stays self.old self.new }
    {
        self.column.agrees();
        let held = self.column.held().of_region(region);
        let place = place_of(self.column.region(), region);
        let receives = &mut self.rings.receives[place];
        receives.receive(region)?;
        let Some(there) = held.checked_add(receives.waiting.len() as u64) else {
            return Err(AllocError);
        };
        Ok(there)
    }

    /// Takes over what was received from another region, and answers how many nodes that were; `None`, and nothing changes,
    /// exactly where fewer than so many of that region are held or received.
    pub(crate) fn carry(
        &mut self,
        by: u8,
        region: u8,
        least: u64,
    ) -> Result<Option<u64>, AllocError>
        requires maker { by < (column_seen self.old.seat).size.clients }
        requires other { region ≢ self.old.column.region }
        requires region { region < self.old.column.regions }
        ensures tag { tag_of self.new ≡ tag_of self.old }
        ensures few { IfOk result (λ carried. (carried ≡ None)
            ↔ (held_of self.old.column region + length (waiting_of self.old region) < least)) }
        ensures count { IfOk result (λ carried. IfSome carried (λ count. count ≡ length (waiting_of self.old region))) }
        ensures carried { let items = waiting_of self.old region in let held = held_of self.old.column region in
            (count : ℕ) → result ≡ Ok (Some count) → 0 < count → Gains self.old self.new (told_carry by region held items) }
        ensures covers { IfOk result (λ carried. IfSome carried (λ _. least ≤ held_of self.new.column region)) }
        ensures none { result ≡ Ok None → Stays self.old self.new }
        ensures nothing { result ≡ Ok (Some 0) → Stays self.old self.new }
        ensures err { OnErr result (Stays self.old self.new) }
    {
        self.column.agrees();
        let held = self.column.held().of_region(region);
        let place = place_of(self.column.region(), region);
        let count = self.rings.receives[place].waiting.len() as u64;
        if held.saturating_add(count) < least {
            return Ok(None);
        }
        let waiting = &mut self.rings.receives[place].waiting;
        self.column.take_over(by, region, waiting)?;
        let _few = self.column.journal().len();
        Ok(Some(count))
    }
}
