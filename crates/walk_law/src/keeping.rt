// What a client keeps, counted up.
ghost use Rattle.std.specs.Prelude.{◌≡◌, ◌+◌, ◌<◌, ◌^◌, ◌++◌, ℕ, List, IfOk, OnOk, Option, Some, None, length, slice_get, slice_index};
ghost use Rattle.log_node.specs.declared.forms.Version.{Version};
ghost use Rattle.col_core.specs.Keeping.{Kept, kept_after_look, nothing_kept, seen_past, updated, updated_at, with_floor, with_read};
ghost use Rattle.report_text.specs.declared.report.ReplyLine.{ReplyLine};
ghost use Rattle.walk_law.specs.Keepings.{IsCell, IsCounted, IsFoundAt, KeepsCount, cell, known_at, made_at, read_at, seen_at, start_at};

use crate::made::Made;
use log_node::{Counts, MAX_COLOURS, MAX_REGIONS};
use std::alloc::{AllocError, Global};
use std::marker::Model;

// How many columns a log can have.
const COLUMNS: usize = MAX_REGIONS as usize * MAX_COLOURS as usize;

// How many numbers colours and objects have.
const NUMBERS: usize = 256;

/// What a client keeps behind some of its replies, as the report tells it. Contracts see it in tables by region, colour and
/// object.
#[derive(Drop)]
pub struct Keeping {
    floor: u64,
    starts: Vec<Counts>,
    seen: Vec<u128>,
    known: Vec<u128>,
    made: Vec<Made>,
    ids: u64,
    rows: u64,
    reads: Vec<Option<usize>>,
}

impl Model for Keeping {
    ghost use Rattle.walk_law.specs.Keepings.{Counted};

    ghost Value = { Counted };

    ghost view = { λ k. record {
      floor = k.floor;
      starts = k.starts.items;
      seen = k.seen.items;
      known = k.known.items;
      made = k.made.items;
      ids = k.ids;
      rows = k.rows;
      reads = k.reads.items;
    } };

    ghost use Rattle.walk_law.specs.Tables.{IsKeeping};

    ghost invariant = { λ k. IsKeeping k.starts.items k.seen.items k.known.items k.made.items k.reads.items };
}

// The place of a column in a table of all.
fn cell(region: u8, colour: u8) -> usize
    requires { IsCell region colour }
    ensures place { result ≡ cell region colour }
    ensures within { result < 256 }
{
    MAX_COLOURS as usize * region as usize + colour as usize
}

impl Keeping {
    /// What is kept before the first command.
    pub fn new(alloc: Global) -> Result<Keeping, AllocError>
        ensures { IfOk result (λ k. (replies : List ReplyLine) → IsCounted replies nothing_kept k) }
    {
        let mut made = Vec::new(alloc);
        for _ in 0..COLUMNS {
            made.push(Made::new(alloc))?;
        }
        Ok(Keeping {
            floor: 0,
            starts: vec![in alloc; Counts::zeros(); NUMBERS]?,
            seen: vec![in alloc; 0; COLUMNS]?,
            known: vec![in alloc; 0; NUMBERS]?,
            made,
            ids: 0,
            rows: 0,
            reads: vec![in alloc; None; NUMBERS]?,
        })
    }

    /// The greatest stamp of its own nodes, of those that it played, and of its stamped reads.
    pub fn floor(&self) -> u64
        ensures { result ≡ self.now.floor }
    {
        self.floor
    }

    /// The snapshot of its last sync of a colour.
    pub fn start(&self, colour: u8) -> Counts
        ensures { result ≡ start_at self.now colour }
    {
        self.starts[colour as usize]
    }

    /// How many events of a column it has seen.
    pub fn seen(&self, region: u8, colour: u8) -> u128
        requires { IsCell region colour }
        ensures { result ≡ seen_at self.now region colour }
    {
        self.seen[cell(region, colour)]
    }

    /// The same of each column of a region, by colour.
    pub(crate) fn seen_in(&self, region: u8) -> &[u128]
        requires { region < MAX_REGIONS }
        ensures many { length result.now ≡ MAX_COLOURS }
        ensures each { (colour : ℕ) → colour < MAX_COLOURS → slice_index result.now colour ≡ seen_at self.now region colour }
    {
        let from = cell(region, 0);
        &self.seen[from..from + MAX_COLOURS as usize]
    }

    /// How many nodes it knows to stand in its region's line of a colour.
    pub fn known(&self, colour: u8) -> u128
        ensures { result ≡ known_at self.now colour }
    {
        self.known[colour as usize]
    }

    /// The same of each colour that a log can have.
    pub(crate) fn known_in_all(&self) -> &[u128]
        ensures many { length result.now ≡ MAX_COLOURS }
        ensures each { (colour : ℕ) → colour < MAX_COLOURS → slice_index result.now colour ≡ known_at self.now colour }
    {
        &self.known[..MAX_COLOURS as usize]
    }

    /// The places of the events of a column that its commands made, in their order.
    pub fn made(&self, region: u8, colour: u8) -> &[u64]
        requires { IsCell region colour }
        ensures { result.now ≡ made_at self.now region colour }
    {
        self.made[cell(region, colour)].places()
    }

    /// The number behind all places of a column at which its commands made events.
    pub fn past(&self, region: u8, colour: u8) -> u128
        requires { IsCell region colour }
        ensures { result ≡ seen_past 0 (made_at self.now region colour) }
    {
        self.made[cell(region, colour)].behind()
    }

    /// How many ids it has used.
    pub fn ids(&self) -> u64
        ensures { result ≡ self.now.ids }
    {
        self.ids
    }

    /// How many rows it has begun.
    pub fn rows(&self) -> u64
        ensures { result ≡ self.now.rows }
    {
        self.rows
    }

    /// The place among its replies of the read of an object that a commit may use up.
    pub fn read(&self, object: u8) -> Option<usize>
        ensures { result ≡ read_at self.now object }
    {
        self.reads[object as usize]
    }

    /// It has seen so many events of a column.
    pub(crate) fn see(&mut self, region: u8, colour: u8, events: u128)
        ensures kept { (replies : List ReplyLine) (kept : Kept) → IsCounted replies kept self.old
            → IsCounted replies (kept_after_look kept region colour events) self.new }
        ensures count { KeepsCount self.old self.new }
    {
        if region >= MAX_REGIONS || colour >= MAX_COLOURS {
            return;
        }
        let at = cell(region, colour);
        self.seen[at] = events;
    }

    /// Its commands made events at these places of a column.
    pub(crate) fn make(&mut self, region: u8, colour: u8, places: &[u64]) -> Result<(), AllocError>
        ensures kept { (replies : List ReplyLine) (kept : Kept) → IsCounted replies kept self.old → OnOk result
            (IsCounted replies (record kept { made = updated_at kept.made region colour (kept.made region colour ++ places.now) })
            self.new) }
        ensures count { OnOk result (KeepsCount self.old self.new) }
    {
        if region >= MAX_REGIONS || colour >= MAX_COLOURS {
            return Ok(());
        }
        let at = cell(region, colour);
        self.made[at].extend(places)
    }

    /// So many nodes of a colour stand in its region's line, as it knows.
    pub(crate) fn know(&mut self, colour: u8, count: u128)
        ensures kept { (replies : List ReplyLine) (kept : Kept) → IsCounted replies kept self.old
            → IsCounted replies (record kept { known = updated kept.known colour count }) self.new }
        ensures count { KeepsCount self.old self.new }
    {
        self.known[colour as usize] = count;
    }

    /// The snapshot of its last sync of a colour is this one.
    pub(crate) fn start_from(&mut self, colour: u8, snapshot: Counts)
        ensures kept { (replies : List ReplyLine) (kept : Kept) → IsCounted replies kept self.old
            → IsCounted replies (record kept { starts = updated kept.starts colour snapshot }) self.new }
        ensures count { KeepsCount self.old self.new }
    {
        self.starts[colour as usize] = snapshot;
    }

    /// Its floor is at this stamp or above.
    pub(crate) fn raise_floor(&mut self, stamp: u64)
        ensures kept { (replies : List ReplyLine) (kept : Kept) → IsCounted replies kept self.old
            → IsCounted replies (with_floor kept stamp) self.new }
        ensures count { KeepsCount self.old self.new }
    {
        self.floor = self.floor.max(stamp);
    }

    /// It has used one more id.
    pub(crate) fn use_id(&mut self)
        requires { self.old.ids + 1 < 2 ^ 64 }
        ensures kept { (replies : List ReplyLine) (kept : Kept) → IsCounted replies kept self.old
            → IsCounted replies (record kept { ids = kept.ids + 1 }) self.new }
        ensures ids { self.new.ids ≡ self.old.ids + 1 }
        ensures rows { self.new.rows ≡ self.old.rows }
    {
        self.ids += 1;
    }

    /// It has begun one more row.
    pub(crate) fn use_row(&mut self)
        requires { self.old.rows + 1 < 2 ^ 64 }
        ensures kept { (replies : List ReplyLine) (kept : Kept) → IsCounted replies kept self.old
            → IsCounted replies (record kept { rows = kept.rows + 1 }) self.new }
        ensures ids { self.new.ids ≡ self.old.ids }
        ensures rows { self.new.rows ≡ self.old.rows + 1 }
    {
        self.rows += 1;
    }

    /// The read of an object is that of the reply in this place, or there is none.
    pub(crate) fn keep_read(&mut self, object: u8, place: Option<usize>)
        ensures kept { (replies : List ReplyLine) (kept : Kept) (found : Option (List Version)) → IsFoundAt replies found place
            → IsCounted replies kept self.old → IsCounted replies (with_read kept object found) self.new }
        ensures count { KeepsCount self.old self.new }
    {
        self.reads[object as usize] = place;
    }
}
