// A region's columns: their turns, their copies, and looks at them.
ghost use Rattle.std.specs.Prelude.{◌≡◌, ◌<◌, Some, slice_get, IfOk};
ghost use Rattle.turn_cell.specs.Cells.{IsReady};
ghost use Rattle.chain_store.specs.Columns.{tag_of};
ghost use Rattle.chain_store.specs.Looking.{ShowsOn};
ghost use Rattle.chain_store.specs.Passes.{ColumnCell, ShowsHistory};
ghost use Rattle.chain_store.specs.Regions.{tag_at, IsColumnAt};
ghost use Rattle.chain_store.specs.Desks.{HasDesks, IsShareOf};
ghost use Rattle.chain_store.specs.Holds.{IsHold, SameBut, SeesMoreIn, seen_in};
ghost use Rattle.chain_store.specs.Telling.{KnowsSame};

use crate::hold::Hold;
use crate::looks::Looked;
use crate::read_view::desk::{Desk, Share};
use crate::region::Region;
use crate::seated::Seated;
use crate::sharing::{look_on_shared, look_shared};
use col_core::View;
use log_node::Counts;
use std::alloc::{AllocError, Global};
use std::sync::Wait;
use turn_cell::{Cell, Pass};

impl Region {
    /// The colour's column, under its turns.
    pub fn column(&self, colour: u8) -> &Cell<Seated>
        requires { colour < self.now.board.size.colours }
        ensures { IsColumnAt self.now colour result.now }
    {
        &self.columns[colour as usize]
    }

    // Its published copies.
    fn share(&self, colour: u8) -> &Share
        requires { colour < self.now.board.size.colours }
        ensures there { slice_get self.now.shares.items colour ≡ Some result.now }
        ensures of { (c : ColumnCell) → IsColumnAt self.now colour c → IsShareOf c result.now }
    {
        &self.shares[colour as usize]
    }

    // What there is to publish behind a turn of the colour's column, which added an event or not.
    pub(crate) fn behind<R: Wait>(
        &self,
        rt: &R,
        desks: &mut Vec<Desk>,
        colour: u8,
        by: u8,
        event: bool,
    )
        requires desks { HasDesks self.now.shares.items desks.old.items }
        requires colour { colour < self.now.board.size.colours }
        ensures { HasDesks self.now.shares.items desks.new.items }
    {
        let desk = &mut desks[colour as usize];
        self.share(colour)
            .behind(rt, self.column(colour), desk, by, event);
    }

    /// What a reader with these counts sees of the colour's column.
    pub fn look<R: Wait>(
        &self,
        rt: &R,
        alloc: Global,
        hold: &mut Hold,
        colour: u8,
        from: Counts,
    ) -> Result<View, AllocError>
        requires hold { IsHold self.now hold.old }
        requires colour { colour < self.now.board.size.colours }
        ensures hold { IsHold self.now hold.new }
        ensures others { SameBut colour hold.old hold.new }
        ensures same { (hold.new.seat ≡ hold.old.seat) × (hold.new.next ≡ hold.old.next) }
        ensures sees { SeesMoreIn colour hold.old hold.new }
        ensures view { IfOk result (λ view.
            ShowsHistory (tag_at self.now colour) (seen_in hold.new colour) from view) }
    {
        let by = hold.passes.number;
        let pass = &mut hold.passes.items[colour as usize];
        let desk = &mut hold.desks[colour as usize];
        look_shared(
            rt,
            alloc,
            self.column(colour),
            self.share(colour),
            pass,
            desk,
            by,
            from,
        )
    }

    /// What a reader sees of the colour's column who goes on from these counts; behind the column's base that is the base
    /// alone, at no cost for what the column has above it.
    pub fn look_on<R: Wait>(
        &self,
        rt: &R,
        alloc: Global,
        hold: &mut Hold,
        colour: u8,
        from: Counts,
    ) -> Result<Looked, AllocError>
        requires hold { IsHold self.now hold.old }
        requires colour { colour < self.now.board.size.colours }
        ensures hold { IsHold self.now hold.new }
        ensures others { SameBut colour hold.old hold.new }
        ensures same { (hold.new.seat ≡ hold.old.seat) × (hold.new.next ≡ hold.old.next) }
        ensures sees { SeesMoreIn colour hold.old hold.new }
        ensures looked { IfOk result (ShowsOn (tag_at self.now colour) (seen_in hold.new colour) from) }
    {
        let by = hold.passes.number;
        let pass = &mut hold.passes.items[colour as usize];
        let desk = &mut hold.desks[colour as usize];
        look_on_shared(
            rt,
            alloc,
            self.column(colour),
            self.share(colour),
            pass,
            desk,
            by,
            from,
        )
    }

    /// A pass of the colour's column that has seen what the client has there. It has no number: with it a turn may be taken
    /// that adds nothing.
    pub fn watcher(&self, hold: &mut Hold, colour: u8) -> Pass<Seated>
        requires hold { IsHold self.now hold.old }
        requires colour { colour < self.now.board.size.colours }
        ensures hold { IsHold self.now hold.new }
        ensures same { KnowsSame hold.old hold.new }
        ensures pass { (c : ColumnCell) → IsColumnAt self.now colour c → IsReady tag_of c result }
    {
        let pass = &mut hold.passes.items[colour as usize];
        self.column(colour).split(pass)
    }
}
