// At which place of a journal each id enters.
ghost use Rattle.std.specs.Prelude.{◌≡◌, None, IfOk, is_none, if◌then◌else◌, Some};
ghost use Rattle.log_node.specs.Order.{same_id};
ghost use Rattle.log_node.specs.declared.ids.Id.{Id as NodeId};
ghost use Rattle.column_track.specs.Doing.{place_in, entering, ArePlaces, IsStampOf, MaybePlaces};

use col_core::{Entry, Event};
use log_node::Id;
use std::alloc::{AllocError, Global};
use std::collections::BTreeMap;

/// At which place of a journal each id enters.
#[derive(Drop)]
pub(crate) struct Places {
    by_id: BTreeMap<Id, u64>,
}

// The id that an event enters.
fn entering(event: &Event) -> Option<Id>
    ensures { result ≡ entering event.now }
{
    match event {
        Event::Single { id, .. } | Event::Propose { id, .. } => Some(*id),
        Event::Settle { .. }
        | Event::Raise { .. }
        | Event::Give { .. }
        | Event::Carry { .. }
        | Event::Trim { .. } => None,
    }
}

impl Places {
    // None yet.
    fn new(alloc: Global) -> Self
        ensures { (id : NodeId) → place_in result id ≡ None }
    {
        Places {
            by_id: BTreeMap::new(alloc),
        }
    }

    /// The place at which the id enters, if it does.
    pub(crate) fn of(&self, id: Id) -> Option<u64>
        ensures { result ≡ place_in self.now id }
    {
        self.by_id.get(&id).copied()
    }

    // One more id, which enters at the place. Says whether it was new.
    fn add(&mut self, id: Id, place: u64) -> Result<bool, AllocError>
        ensures fresh { IfOk result (λ fresh. fresh ≡ is_none (place_in self.old id)) }
        ensures added { (other : NodeId) → IfOk result (λ fresh. place_in self.new other
            ≡ (if same_id other id then Some place else place_in self.old other)) }
    {
        Ok(self.by_id.insert(id, place)?.is_none())
    }

    /// The places of all ids of a journal; `None` exactly where one enters twice.
    pub(crate) fn of_journal(alloc: Global, journal: &[Entry]) -> Result<Option<Places>, AllocError>
        ensures { IfOk result (MaybePlaces journal.now) }
    {
        let mut places = Places::new(alloc);
        for at in 0..journal.len() {
            if let Some(id) = entering(&journal[at].event) {
                if !places.add(id, at as u64)? {
                    return Ok(None);
                }
            }
        }
        Ok(Some(places))
    }
}

/// The stamp under which an id of the journal entered, if it did.
pub(crate) fn stamp_of(journal: &[Entry], places: &Places, id: Id) -> Option<u64>
    requires { ArePlaces journal.now places.now }
    ensures { IsStampOf journal.now id result }
{
    let place = places.of(id)?;
    Some(journal[place as usize].stamp)
}
