// Nodes that enter a colour only where nothing has come between.
ghost use Rattle.std.specs.Prelude.{◌≡◌, ◌<◌, ◌≤◌, ◌+◌, ℕ, List, None, Some, slice_get, IfErr, IfOk, OnErr, OnOk};
ghost use Rattle.log_node.specs.declared.node.Node.{Node};
ghost use Rattle.col_core.specs.declared.Entry.{Entry};
ghost use Rattle.col_core.specs.History.{entry_key, line};
ghost use Rattle.column.specs.Columns.{stamp_for};
ghost use Rattle.stamp_board.specs.Seats.{column_seen};
ghost use Rattle.turn_cell.specs.Cells.{seen};
ghost use Rattle.chain_store.specs.Histories.{FitsColumn, entries_in};
ghost use Rattle.chain_store.specs.Columns.{Gains, Stays, told_single, single_told, tag_of};
ghost use Rattle.chain_store.specs.Passes.{IsHolder, SeesMore, tag_in};
ghost use Rattle.chain_store.specs.Steps.{HasSingleCause};
ghost use Rattle.chain_store.specs.Guarded.{wanted, IsNext, HasNextCause, MakesNext};
ghost use Rattle.chain_store.specs.Holds.{IsHold, SameBut, SeesMoreIn, seen_in, entries_seen};

use crate::calls::Single;
use crate::hold::Hold;
use crate::region::Region;
use crate::seated::Seated;
use crate::turns::{begin, end};
use column::{ColumnFault, OnlyFault};
use log_node::{At, MAX_CLIENTS, Node};
use std::sync::{Arc, Wait};
use turn_cell::{Cell, Pass};

// Why a node did not enter that would have stood next.
fn fault_of(colour: u8, fault: ColumnFault) -> OnlyFault
    ensures { (region : ℕ) (history : List Entry) (node : Node) → IsNext history (wanted region colour node)
        → HasSingleCause history node.floor fault → HasNextCause region colour history node result }
{
    match fault {
        ColumnFault::StampEnd { clock } => OnlyFault::StampEnd { colour, clock },
        ColumnFault::NoMemory => OnlyFault::NoMemory,
    }
}

impl Seated {
    /// The node enters as final under the next stamp, exactly where no entry is open and the line has as many nodes as it
    /// wants of it.
    pub(crate) fn only(&mut self, by: u8, node: &Arc<Node>) -> Result<(At, u64), OnlyFault>
        requires maker { (by < MAX_CLIENTS) × (by < (column_seen self.old.seat).size.clients) × (node.now.value.id.client ≡ by) }
        requires row { node.now.value.row ≡ None }
        requires node { FitsColumn self.old.column.region self.old.column.colour node.now.value }
        ensures tag { tag_of self.new ≡ tag_of self.old }
        ensures ok { OnOk result (Gains self.old self.new (single_told self.old.column by node.now.value)) }
        ensures stamp { IfOk result (λ r. r.1 ≡ stamp_for self.old.column node.now.value) }
        ensures next { OnOk result (IsNext self.old.column.journal
            (wanted self.old.column.region self.old.column.colour node.now.value)) }
        ensures cause { IfErr result (HasNextCause self.old.column.region self.old.column.colour
            self.old.column.journal node.now.value) }
        ensures err { OnErr result (Stays self.old self.new) }
    {
        if let Some(fault) = self.column.moved(node) {
            return Err(fault);
        }
        let colour = self.column.colour();
        match self.single(by, node) {
            Ok(entered) => Ok(entered),
            Err(fault) => Err(fault_of(colour, fault)),
        }
    }
}

/// The node enters as final under the next stamp, exactly where no entry is open and the line has as many nodes as it wants
/// of it, which is then its position. Waits for the turn.
pub fn only_in<R: Wait>(
    rt: &R,
    cell: &Cell<Seated>,
    pass: &mut Pass<Seated>,
    by: u8,
    node: &Arc<Node>,
) -> Result<Single, OnlyFault>
    requires pass { IsHolder cell.now by pass.old }
    requires client { (by < MAX_CLIENTS) × (by < (tag_in cell.now).size.clients) × (node.now.value.id.client ≡ by) }
    requires row { node.now.value.row ≡ None }
    requires node { FitsColumn (tag_in cell.now).region (tag_in cell.now).colour node.now.value }
    ensures pass { IsHolder cell.now by pass.new }
    ensures ok { IfOk result (λ s.
        MakesNext by (told_single (tag_in cell.now).colour by node.now.value s.stamp)
        (wanted (tag_in cell.now).region (tag_in cell.now).colour node.now.value) (seen pass.old) (seen pass.new) s.at) }
    ensures position { IfOk result (λ s. s.position
        ≡ Some (wanted (tag_in cell.now).region (tag_in cell.now).colour node.now.value)) }
    ensures cause { IfErr result (HasNextCause (tag_in cell.now).region (tag_in cell.now).colour
        (entries_in (seen pass.new)) node.now.value) }
    ensures err { OnErr result (SeesMore by (seen pass.old) (seen pass.new)) }
{
    let mut turn = begin(rt, cell, pass, by);
    let count = turn.value.column.line().len() as u64;
    match turn.value.only(by, node) {
        Ok((_, stamp)) => Ok(Single {
            at: end(turn, pass),
            stamp,
            position: Some(count),
        }),
        Err(fault) => {
            end(turn, pass);
            Err(fault)
        }
    }
}

impl Region {
    /// The node enters the colour's column as final under the next stamp, exactly where no entry is open there and the own
    /// line has as many nodes as it wants of it, which is then its position. Nothing is helped.
    pub fn only<R: Wait>(
        &self,
        rt: &R,
        hold: &mut Hold,
        colour: u8,
        node: &Arc<Node>,
    ) -> Result<Single, OnlyFault>
        requires hold { IsHold self.now hold.old }
        requires colour { colour < self.now.board.size.colours }
        requires id { (node.now.value.id.client ≡ hold.old.passes.number) × (hold.old.next ≤ node.now.value.id.count) }
        requires row { node.now.value.row ≡ None }
        requires node { FitsColumn self.now.number colour node.now.value }
        ensures hold { IsHold self.now hold.new }
        ensures others { SameBut colour hold.old hold.new }
        ensures seat { hold.new.seat ≡ hold.old.seat }
        ensures next { OnOk result (hold.new.next ≡ node.now.value.id.count + 1) }
        ensures ok { IfOk result (λ s.
            MakesNext hold.old.passes.number (told_single colour hold.old.passes.number node.now.value s.stamp)
            (wanted self.now.number colour node.now.value) (seen_in hold.old colour) (seen_in hold.new colour) s.at) }
        ensures position { IfOk result (λ s. s.position ≡ Some (wanted self.now.number colour node.now.value)) }
        ensures stands { IfOk result (λ s.
            slice_get (line (entries_seen hold.new colour)) (wanted self.now.number colour node.now.value)
            ≡ Some (entry_key s.stamp node.now.value.id)) }
        ensures cause { IfErr result
            (HasNextCause self.now.number colour (entries_seen hold.new colour) node.now.value) }
        ensures err { OnErr result (SeesMoreIn colour hold.old hold.new × (hold.new.next ≡ hold.old.next)) }
    {
        let by = hold.passes.number;
        let pass = &mut hold.passes.items[colour as usize];
        let entered = only_in(rt, self.column(colour), pass, by, node);
        self.behind(rt, &mut hold.desks, colour, by, entered.is_ok());
        match entered {
            Ok(answer) => {
                hold.next = node.id.count + 1;
                Ok(answer)
            }
            Err(fault) => Err(fault),
        }
    }
}
