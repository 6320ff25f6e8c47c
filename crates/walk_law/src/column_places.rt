// Where a column has its clients' own events.
ghost use Rattle.std.specs.Prelude.{◌≡◌, ◌<◌, IfOk};
ghost use Rattle.col_core.specs.Log.{is_own};
ghost use Rattle.walk_law.specs.PlaceTables.{AreOfMakers};
ghost use Rattle.walk_law.specs.Subjects.{AreAllPlaces, ArePlacesOf};

use crate::place_lists::PlaceLists;
use crate::step_table::StepTable;
use col_core::{Entry, Event};
use report_text::ColumnReport;
use std::alloc::{AllocError, Global};

/// Where a column has its clients' own events, by client, and the own steps of each id.
#[derive(Drop)]
pub(crate) struct ColumnPlaces {
    pub(crate) own: PlaceLists,
    pub(crate) steps: StepTable,
}

// Whether the event, made by the client, is a step of a command of its own.
fn is_own(by: u8, event: &Event) -> bool
    ensures { result ≡ is_own by event.now }
{
    match event {
        Event::Propose { id, .. } => id.client == by,
        Event::Settle { id, .. } => id.client == by,
        Event::Single { .. }
        | Event::Raise { .. }
        | Event::Give { .. }
        | Event::Carry { .. }
        | Event::Trim { .. } => true,
    }
}

// The places of own events of a journal, by client.
fn own_places(alloc: Global, clients: usize, journal: &[Entry]) -> Result<PlaceLists, AllocError>
    ensures { IfOk result (AreOfMakers clients journal.now) }
{
    let mut own = PlaceLists::new(alloc, clients)?;
    for at in 0..journal.len() {
        let entry = &journal[at];
        if is_own(entry.by, &entry.event) {
            own.add(entry.by, at as u64)?;
        }
    }
    Ok(own)
}

impl ColumnPlaces {
    // The places of a journal.
    fn of_journal(
        alloc: Global,
        clients: usize,
        journal: &[Entry],
    ) -> Result<ColumnPlaces, AllocError>
        ensures { IfOk result (ArePlacesOf clients journal.now) }
    {
        Ok(ColumnPlaces {
            own: own_places(alloc, clients, journal)?,
            steps: StepTable::of_journal(alloc, journal)?,
        })
    }
}

/// Those of all columns, in their order.
pub(crate) fn places_of_columns(
    alloc: Global,
    clients: usize,
    columns: &[ColumnReport],
) -> Result<Vec<ColumnPlaces>, AllocError>
    ensures { IfOk result (λ places. AreAllPlaces clients columns.now places.items) }
{
    let mut places = Vec::with_capacity(alloc, columns.len())?;
    for column in columns {
        places.push(ColumnPlaces::of_journal(alloc, clients, column.journal.as_slice())?)?;
    }
    Ok(places)
}
