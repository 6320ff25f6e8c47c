// Nodes that enter a column only where nothing has come between.
ghost use Rattle.std.specs.Prelude.{◌≡◌, ◌≤◌, ◌<◌, true, false, None, length, IfOk, IfErr, IfSome, OnOk, OnErr};
ghost use Rattle.log_node.specs.Sets.{has};
ghost use Rattle.log_node.specs.declared.node.Node.{Node};
ghost use Rattle.col_core.specs.History.{entries, open_count, line, has_entered};
ghost use Rattle.column.specs.Columns.{ColumnState, moved_from, stamp_for, after_single, with_room};
ghost use Rattle.column.specs.Columns.{HasEnterCause, HasOnlyCause};

use crate::column::Column;
use crate::contents::Contents;
use crate::faults::{ColumnFault, OnlyFault};
use crate::wants::wants_for;
use log_node::{At, MAX_STAMP, Node};
use std::sync::Arc;

// Why a node did not enter a column that had not moved on.
fn fault_of(colour: u8, fault: ColumnFault) -> OnlyFault
    ensures { (column : ColumnState) (node : Node) → colour ≡ column.colour → moved_from column node ≡ false
        → HasEnterCause column node.floor fault → HasOnlyCause column node result }
{
    match fault {
        ColumnFault::StampEnd { clock } => OnlyFault::StampEnd { colour, clock },
        ColumnFault::NoMemory => OnlyFault::NoMemory,
    }
}

impl Contents {
    // How many entries are open.
    fn open_count(&self) -> u64
        ensures { result ≡ open_count (entries self.now.journal) }
    {
        self.queue.open_count()
    }

    // Whether the node finds the column moved on.
    fn has_moved(&self, node: &Node) -> bool
        requires { has node.now.colours self.now.colour ≡ true }
        ensures { result ≡ moved_from self.now node.now }
    {
        let wanted = wants_for(node, self.colour).of_region(self.region);
        self.open_count() > 0 || self.line().len() as u64 != wanted
    }

    // What is told where it does.
    fn moved(&self) -> OnlyFault
        ensures { result ≡ OnlyFault.Moved (length (line self.now.journal)) (open_count (entries self.now.journal))
            (length self.now.journal) }
    {
        OnlyFault::Moved {
            length: self.line().len() as u64,
            waiting: self.open_count(),
            events: self.journal.len() as u64,
        }
    }
}

impl Column {
    /// The node enters as final under the next stamp, exactly where no entry is open and the line has as many nodes as it
    /// wants of its own region. Answers the event and the stamp.
    pub fn only(&mut self, by: u8, node: Arc<Node>) -> Result<(At, u64), OnlyFault>
        requires fresh { has_entered node.value.id self.old.journal ≡ false }
        requires region { node.value.region ≡ self.old.region }
        requires colour { has node.value.colours self.old.colour ≡ true }
        requires floor { node.value.floor ≤ MAX_STAMP }
        ensures answer { IfOk result (λ r. (r.0 ≡ At.Event (length self.old.journal))
            × (r.1 ≡ stamp_for self.old node.value)) }
        ensures entry { OnOk result (self.new ≡ after_single (with_room self.old) by node.value) }
        ensures held { OnOk result (moved_from self.old node.value ≡ false) }
        ensures moved { moved_from self.old node.value ≡ true → result ≡ Err (OnlyFault.Moved
            (length (line self.old.journal)) (open_count (entries self.old.journal)) (length self.old.journal)) }
        ensures cause { IfErr result (HasOnlyCause self.old node.value) }
        ensures err { OnErr result (self.new ≡ self.old) }
    {
        if self.contents.has_moved(&node) {
            return Err(self.contents.moved());
        }
        let colour = self.contents.own_colour();
        match self.single(by, node) {
            Ok(entered) => Ok(entered),
            Err(fault) => Err(fault_of(colour, fault)),
        }
    }

    /// How many entries are open.
    pub fn open_count(&self) -> u64
        ensures { result ≡ open_count (entries self.now.journal) }
    {
        self.contents.open_count()
    }

    /// What the node is told where it finds the column moved on, so that it would not enter by `only`.
    pub fn moved(&self, node: &Node) -> Option<OnlyFault>
        requires colour { has node.now.colours self.now.colour ≡ true }
        ensures some { IfSome result (λ fault. (moved_from self.now node.now ≡ true) × (fault ≡ OnlyFault.Moved
            (length (line self.now.journal)) (open_count (entries self.now.journal)) (length self.now.journal))) }
        ensures none { result ≡ None → moved_from self.now node.now ≡ false }
    {
        if self.contents.has_moved(node) {
            return Some(self.contents.moved());
        }
        None
    }
}
