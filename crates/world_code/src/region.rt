// The columns of one region.
ghost use Rattle.std.specs.Prelude.{◌≡◌, ◌≢◌, ◌<◌, ◌≤◌, nat_le, nat_lt, length, slice_set};
ghost use Rattle.std.specs.Prelude.{true, false, None, ◌&&◌, if◌then◌else◌, IfOk, IfErr, OnOk, OnErr};
ghost use Rattle.std.specs.List.{list_any};
ghost use Rattle.col_core.specs.History.{clock, has_entered, entries};
ghost use Rattle.log_node.specs.Sets.{has};
ghost use Rattle.skeen_core.specs.Queues.{MaySettle, has_open, is_decided};
ghost use Rattle.column.specs.Columns.{after_raise, after_single, after_propose, after_settle, with_room, stamp_for};
ghost use Rattle.column.specs.Columns.{after_give, after_carry, after_trim, new_items, HasEnterCause};
ghost use Rattle.world_code.specs.WorldView.{column_in, fresh_columns};

use crate::replies::{Placed, number_of};
use column::{Column, ColumnFault, Given};
use log_node::{At, Counts, Id, MAX_COLOURS, MAX_STAMP, Node, Outcome, Shape};
use std::alloc::{AllocError, Global};
use std::marker::Model;
use std::sync::Arc;

/// The columns of a region, by colour.
#[derive(Drop)]
pub struct RegionColumns {
    items: Vec<Column>,
}

impl Model for RegionColumns {
    ghost use Rattle.std.specs.Prelude.{List};
    ghost use Rattle.column.specs.Columns.{ColumnState};

    ghost Value = { List ColumnState };

    ghost view = { λ a. a.items.items };
}

impl RegionColumns {
    /// A region's columns with nothing in them.
    pub fn open(alloc: Global, region: u8, shape: &Shape) -> Result<RegionColumns, AllocError>
        requires region { region < 4 }
        requires colours { shape.now.colours ≤ MAX_COLOURS }
        requires regions { shape.now.regions ≤ 4 }
        ensures { IfOk result (λ columns. columns ≡ fresh_columns region shape.now) }
    {
        let mut items = Vec::new(alloc);
        for colour in 0..shape.colours {
            items.push(Column::open(alloc, region, colour, shape)?)?;
        }
        Ok(RegionColumns { items })
    }

    /// The column of a colour.
    pub fn column(&self, colour: u8) -> &Column
        requires { colour < length self.now }
        ensures { result.now ≡ column_in self.now colour }
    {
        &self.items[colour as usize]
    }

    /// All of them, by colour; takes no memory.
    pub fn into_columns(self) -> Vec<Column>
        ensures { result.items ≡ self }
    {
        self.items
    }

    /// Raises the clock of a colour's column.
    pub fn raise(&mut self, by: u8, colour: u8, to: u64) -> Result<u64, AllocError>
        requires colour { colour < length self.old }
        requires above { clock (column_in self.old colour).journal < to }
        requires within { to ≤ MAX_STAMP }
        ensures answer { IfOk result (λ place. place ≡ length (column_in self.old colour).journal) }
        ensures ok { OnOk result
            (self.new ≡ slice_set self.old colour (after_raise (column_in self.old colour) by to)) }
        ensures err { OnErr result (self.new ≡ self.old) }
    {
        let at = self.items[colour as usize].raise(by, to)?;
        Ok(number_of(at))
    }

    /// A colour's column notes that another region has asked for its line from a number on.
    pub fn note(&mut self, by: u8, colour: u8, region: u8, from: u64) -> Result<u64, AllocError>
        requires colour { colour < length self.old }
        requires other { region ≢ (column_in self.old colour).region }
        requires region { region < (column_in self.old colour).regions }
        ensures answer { IfOk result (λ place. place ≡ length (column_in self.old colour).journal) }
        ensures ok { OnOk result (self.new ≡ slice_set self.old colour
            (after_give (column_in self.old colour) by region from)) }
        ensures err { OnErr result (self.new ≡ self.old) }
    {
        let at = self.items[colour as usize].note(by, region, from)?;
        Ok(number_of(at))
    }

    /// A colour's column takes over what is new of a part of another region's line.
    pub fn carry(
        &mut self,
        alloc: Global,
        by: u8,
        colour: u8,
        region: u8,
        given: &Given,
    ) -> Result<At, AllocError>
        requires colour { colour < length self.old }
        requires other { region ≢ (column_in self.old colour).region }
        requires region { region < (column_in self.old colour).regions }
        ensures answer { let column = column_in self.old colour in
            let place = length column.journal in
            IfOk result (λ answer. answer ≡ (if nat_lt 0 (length (new_items column region given.now))
            then At.Event place else At.Look place)) }
        ensures ok { OnOk result (self.new ≡ slice_set self.old colour
            (after_carry (column_in self.old colour) by region given.now)) }
        ensures err { OnErr result (self.new ≡ self.old) }
    {
        let (at, _count) = self.items[colour as usize].carry(alloc, by, region, given)?;
        Ok(at)
    }

    /// A colour's column is trimmed up to these counts.
    pub fn trim(&mut self, by: u8, colour: u8, counts: Counts) -> Result<u64, AllocError>
        requires { colour < length self.old }
        ensures answer { IfOk result (λ place. place ≡ length (column_in self.old colour).journal) }
        ensures ok { OnOk result (self.new ≡ slice_set self.old colour
            (after_trim (column_in self.old colour) by counts)) }
        ensures err { OnErr result (self.new ≡ self.old) }
    {
        let (at, _count) = self.items[colour as usize].trim(by, counts)?;
        Ok(number_of(at))
    }

    /// Whether the clock of one of the columns is no less.
    pub fn reaches(&self, to: u64) -> bool
        ensures { result ≡ list_any (λ column. nat_le to (clock column.journal)) self.now }
    {
        self.items.iter().any(|column| to <= column.clock())
    }

    /// A node enters a colour's column as final.
    pub fn single(&mut self, by: u8, colour: u8, node: Arc<Node>) -> Result<Placed, ColumnFault>
        requires colour { colour < length self.old }
        requires fresh { has_entered node.value.id (column_in self.old colour).journal ≡ false }
        requires region { node.value.region ≡ (column_in self.old colour).region }
        requires of_colour { has node.value.colours (column_in self.old colour).colour ≡ true }
        requires floor { node.value.floor ≤ MAX_STAMP }
        ensures answer { IfOk result (λ placed. placed ≡ record {
          place = length (column_in self.old colour).journal;
          stamp = stamp_for (column_in self.old colour) node.value;
        }) }
        ensures ok { OnOk result (self.new ≡ slice_set self.old colour
            (after_single (with_room (column_in self.old colour)) by node.value)) }
        ensures cause { IfErr result (HasEnterCause (column_in self.old colour) node.value.floor) }
        ensures err { OnErr result (self.new ≡ self.old) }
    {
        let (at, stamp) = self.items[colour as usize].single(by, node)?;
        Ok(Placed {
            place: number_of(at),
            stamp,
        })
    }

    /// A node of several colours enters a colour's column as open.
    pub fn propose(&mut self, by: u8, colour: u8, node: Arc<Node>) -> Result<Placed, ColumnFault>
        requires colour { colour < length self.old }
        requires fresh { has_entered node.value.id (column_in self.old colour).journal ≡ false }
        requires region { node.value.region ≡ (column_in self.old colour).region }
        requires of_colour { has node.value.colours (column_in self.old colour).colour ≡ true }
        requires floor { node.value.floor ≤ MAX_STAMP }
        requires row { node.value.row ≡ None → ⊥ }
        ensures answer { IfOk result (λ placed. placed ≡ record {
          place = length (column_in self.old colour).journal;
          stamp = stamp_for (column_in self.old colour) node.value;
        }) }
        ensures ok { OnOk result (self.new ≡ slice_set self.old colour
            (after_propose (with_room (column_in self.old colour)) by node.value)) }
        ensures cause { IfErr result (HasEnterCause (column_in self.old colour) node.value.floor) }
        ensures err { OnErr result (self.new ≡ self.old) }
    {
        let (at, stamp) = self.items[colour as usize].propose(by, node)?;
        Ok(Placed {
            place: number_of(at),
            stamp,
        })
    }

    /// An id that is open in a colour's column becomes final under its number, or goes.
    pub fn settle(&mut self, by: u8, colour: u8, id: Id, outcome: Outcome) -> At
        requires colour { colour < length self.old }
        requires settles { MaySettle id outcome (entries (column_in self.old colour).journal) MAX_STAMP }
        ensures answer { let column = column_in self.old colour in
            let settles = has_open id (entries column.journal) && is_decided outcome in
            let place = length column.journal in
            result ≡ (if settles then At.Event place else At.Look place) }
        ensures columns { let column = column_in self.old colour in
            let settles = has_open id (entries column.journal) && is_decided outcome in
            self.new ≡ slice_set self.old colour (if settles then after_settle column by id outcome else column) }
    {
        self.items[colour as usize].settle(by, id, outcome)
    }
}
