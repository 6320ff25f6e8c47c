// What a column does under its turn.
ghost use Rattle.std.specs.Prelude.{◌≡◌, ◌<◌, ◌≤◌, true, None, slice_index, IfOk, IfErr, OnOk, OnErr};
ghost use Rattle.column.specs.Columns.{stamp_for};
ghost use Rattle.stamp_board.specs.Seats.{column_seen};
ghost use Rattle.chain_store.specs.Histories.{FitsColumn};
ghost use Rattle.chain_store.specs.Columns.{Gains, Stays, single_told, tag_of};
ghost use Rattle.chain_store.specs.Steps.{HasSingleCause};

use crate::seated::Seated;
use column::ColumnFault;
use log_node::{At, MAX_CLIENTS, Node};
use std::sync::Arc;

impl Seated {
    // Whether an id of the client with this count is above all that have entered.
    pub(crate) fn is_new(&self, client: u8, count: u64) -> bool
        requires { client < MAX_CLIENTS }
        ensures { result ≡ true → slice_index self.now.entered client ≤ count }
    {
        self.entered[client as usize] <= count
    }

    /// The node enters as final under the next stamp.
    pub(crate) fn single(&mut self, by: u8, node: &Arc<Node>) -> Result<(At, u64), ColumnFault>
        requires maker { (by < MAX_CLIENTS) × (by < (column_seen self.old.seat).size.clients) × (node.now.value.id.client ≡ by) }
        requires row { node.now.value.row ≡ None }
        requires node { FitsColumn self.old.column.region self.old.column.colour node.now.value }
        ensures tag { tag_of self.new ≡ tag_of self.old }
        ensures ok { OnOk result (Gains self.old self.new (single_told self.old.column by node.now.value)) }
        ensures stamp { IfOk result (λ r. r.1 ≡ stamp_for self.old.column node.now.value) }
        ensures cause { IfErr result (HasSingleCause self.old.column.journal node.now.value.floor) }
        ensures err { OnErr result (Stays self.old self.new) }
    {
        let count = node.id.count;
        if !self.is_new(by, count) {
            return Err(ColumnFault::NoMemory);
        }
        let Ok(shared) = node.clone() else {
            return Err(ColumnFault::NoMemory);
        };
        match self.column.single(by, shared) {
            Ok(answer) => {
                let _few = self.column.journal().len();
                self.column.agrees();
                self.entered[by as usize] = count + 1;
                Ok(answer)
            }
            Err(fault) => Err(fault),
        }
    }
}
