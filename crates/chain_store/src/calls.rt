// Calls on one column, each under one turn.
ghost use Rattle.std.specs.Prelude.{◌≡◌, ◌<◌, None, IfErr, IfOk, OnErr};
ghost use Rattle.std.specs.List.{position};
ghost use Rattle.log_node.specs.Order.{same_key};
ghost use Rattle.col_core.specs.History.{entry_key, line};
ghost use Rattle.turn_cell.specs.Cells.{seen};
ghost use Rattle.chain_store.specs.Histories.{FitsColumn, entries_in};
ghost use Rattle.chain_store.specs.Columns.{told_single};
ghost use Rattle.chain_store.specs.Passes.{IsHolder, SeesMore, MakesOne, tag_in};
ghost use Rattle.chain_store.specs.Steps.{HasSingleCause};

use crate::seated::Seated;
use crate::turns::{begin, end};
use column::ColumnFault;
use log_node::{At, Key, MAX_CLIENTS, Node};
use std::sync::{Arc, Wait};
use turn_cell::{Cell, Pass};

/// What a node that entered as final answers: its event, its stamp, and its position in the line, counted from 0; `None`
/// where an open entry stands before it.
#[derive(Clone, Copy, Debug, PartialEq, Eq)]
pub struct Single {
    pub at: At,
    pub stamp: u64,
    pub position: Option<u64>,
}

/// The node enters as final under the next stamp. Waits for the turn.
pub fn single_in<R: Wait>(
    rt: &R,
    cell: &Cell<Seated>,
    pass: &mut Pass<Seated>,
    by: u8,
    node: &Arc<Node>,
) -> Result<Single, ColumnFault>
    requires pass { IsHolder cell.now by pass.old }
    requires client { (by < MAX_CLIENTS) × (by < (tag_in cell.now).size.clients) × (node.now.value.id.client ≡ by) }
    requires row { node.now.value.row ≡ None }
    requires node { FitsColumn (tag_in cell.now).region (tag_in cell.now).colour node.now.value }
    ensures pass { IsHolder cell.now by pass.new }
    ensures ok { IfOk result (λ s.
        MakesOne by (told_single (tag_in cell.now).colour by node.now.value s.stamp) (seen pass.old) (seen pass.new) s.at) }
    ensures position { IfOk result (λ s. s.position
        ≡ position (λ k. same_key k (entry_key s.stamp node.now.value.id)) (line (entries_in (seen pass.new)))) }
    ensures cause { IfErr result (HasSingleCause (entries_in (seen pass.new)) node.now.value.floor) }
    ensures err { OnErr result (SeesMore by (seen pass.old) (seen pass.new)) }
{
    let mut turn = begin(rt, cell, pass, by);
    match turn.value.single(by, node) {
        Ok((_, stamp)) => {
            let position = turn.value.column.place(Key { stamp, id: node.id });
            Ok(Single {
                at: end(turn, pass),
                stamp,
                position,
            })
        }
        Err(fault) => {
            end(turn, pass);
            Err(fault)
        }
    }
}
