// At which place each id stands among rows.
ghost use Rattle.std.specs.Prelude.{◌≡◌, None, IfOk, ◌||◌, OnOk, is_none, is_some, if◌then◌else◌, Some};
ghost use Rattle.log_node.specs.Order.{same_id};
ghost use Rattle.log_node.specs.declared.ids.Id.{Id as NodeId};
ghost use Rattle.walk_law.specs.RowsBeside.{row_in, HasRow, AreRowsAt, MaybeRowsAt, is_same_as};

use log_node::Id;
use report_text::RowReport;
use std::alloc::{AllocError, Global};
use std::collections::BTreeMap;

/// At which place each id stands among rows.
#[derive(Drop)]
pub(crate) struct RowTable {
    by_id: BTreeMap<Id, u64>,
}

impl RowTable {
    /// None yet.
    pub(crate) fn new(alloc: Global) -> Self
        ensures { (id : NodeId) → row_in result id ≡ None }
    {
        RowTable {
            by_id: BTreeMap::new(alloc),
        }
    }

    /// One more row with this id, at the place. Says whether the id was new.
    pub(crate) fn add(&mut self, id: Id, place: u64) -> Result<bool, AllocError>
        ensures fresh { IfOk result (λ fresh. fresh ≡ is_none (row_in self.old id)) }
        ensures added { (other : NodeId) → IfOk result (λ fresh. row_in self.new other
            ≡ (if same_id other id then Some place else row_in self.old other)) }
    {
        Ok(self.by_id.insert(id, place)?.is_none())
    }

    /// Puts an id in, where there is one.
    pub(crate) fn put(&mut self, id: Option<Id>) -> Result<(), AllocError>
        ensures { (other : NodeId) → OnOk result (is_some (row_in self.new other)
            ≡ (is_same_as other id || is_some (row_in self.old other))) }
    {
        match id {
            Some(id) => {
                self.add(id, 0)?;
                Ok(())
            }
            None => Ok(()),
        }
    }

    /// Whether a row with this id was put in.
    pub(crate) fn has(&self, id: Id) -> bool
        ensures { result ≡ is_some (row_in self.now id) }
    {
        self.by_id.get(&id).copied().is_some()
    }

    /// The place of the row with this id, if there is one.
    pub(crate) fn place(&self, rows: &[RowReport], id: Id) -> Option<u64>
        requires { AreRowsAt rows.now self.now }
        ensures { HasRow rows.now id result }
    {
        self.by_id.get(&id).copied()
    }

    /// The places of all rows; `None` exactly where two have the same id.
    pub(crate) fn of_rows(alloc: Global, rows: &[RowReport]) -> Result<Option<RowTable>, AllocError>
        ensures { IfOk result (MaybeRowsAt rows.now) }
    {
        let mut table = RowTable::new(alloc);
        for at in 0..rows.len() {
            if !table.add(rows[at].id, at as u64)? {
                return Ok(None);
            }
        }
        Ok(Some(table))
    }
}
