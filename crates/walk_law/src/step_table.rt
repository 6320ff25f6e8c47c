// Where a column has its clients' own steps of each id.
ghost use Rattle.std.specs.Prelude.{◌≡◌, ◌++◌, ◌∷◌, [], IfOk, OnOk, if◌then◌else◌};
ghost use Rattle.log_node.specs.Order.{same_id};
ghost use Rattle.log_node.specs.declared.ids.Id.{Id as NodeId};
ghost use Rattle.walk_law.specs.PlaceTables.{AreSteps, step_made, steps_in};

use col_core::{Entry, Event};
use log_node::{Id, ListOf};
use std::alloc::{AllocError, Global};
use std::collections::BTreeMap;

/// Where a column has the own steps of each id: what its client proposed and settled of it by itself.
#[derive(Drop)]
pub(crate) struct StepTable {
    by_id: BTreeMap<Id, ListOf<u64>>,
}

// The id of which an event that a client made is a step, where it is the client's.
fn step_made(by: u8, event: &Event) -> Option<Id>
    ensures { result ≡ step_made by event.now }
{
    let id = match event {
        Event::Propose { id, .. } => *id,
        Event::Settle { id, .. } => *id,
        Event::Single { .. }
        | Event::Raise { .. }
        | Event::Give { .. }
        | Event::Carry { .. }
        | Event::Trim { .. } => return None,
    };
    if id.client == by { Some(id) } else { None }
}

impl StepTable {
    // None yet.
    fn new(alloc: Global) -> StepTable
        ensures { (id : NodeId) → steps_in result id ≡ [] }
    {
        StepTable {
            by_id: BTreeMap::new(alloc),
        }
    }

    /// The places of the own steps of an id.
    pub(crate) fn steps(&self, id: Id) -> &[u64]
        ensures { result.now ≡ steps_in self.now id }
    {
        match self.by_id.get(&id) {
            Some(places) => places.as_slice(),
            None => &[],
        }
    }

    // One more step of an id.
    fn add(&mut self, alloc: Global, id: Id, place: u64) -> Result<(), AllocError>
        ensures { (other : NodeId) → OnOk result (steps_in self.new other
            ≡ (if same_id other id then steps_in self.old other ++ place ∷ [] else steps_in self.old other)) }
    {
        let mut places = match self.by_id.remove(&id) {
            Some(places) => places,
            None => ListOf::new(alloc),
        };
        places.push(place)?;
        self.by_id.insert(id, places)?;
        Ok(())
    }

    /// The own steps of a journal.
    pub(crate) fn of_journal(alloc: Global, journal: &[Entry]) -> Result<StepTable, AllocError>
        ensures { IfOk result (AreSteps journal.now) }
    {
        let mut table = StepTable::new(alloc);
        for at in 0..journal.len() {
            let entry = &journal[at];
            if let Some(id) = step_made(entry.by, &entry.event) {
                table.add(alloc, id, at as u64)?;
            }
        }
        Ok(table)
    }
}
