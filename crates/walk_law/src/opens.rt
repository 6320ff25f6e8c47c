// How many entries of each column are open after each number of its events.
ghost use Rattle.std.specs.Prelude.{◌≡◌, ◌+◌, ◌<◌, ◌^◌, IfOk};
ghost use Rattle.walk_law.specs.Twelfth.{AreOfColumns, open_behind, open_in, opens_in, opens_of};

use crate::copies::column_place;
use col_core::{Entry, Event};
use column_track::Track;
use log_node::ListOf;
use report_text::ColumnReport;
use std::alloc::{AllocError, Global};

// How many entries are open behind an event, where so many were before it.
fn open_behind(before: u64, event: &Event) -> u64
    requires { before + 1 < 2 ^ 64 }
    ensures { result ≡ open_behind before event.now }
{
    match event {
        Event::Propose { .. } => before + 1,
        Event::Settle { .. } => before.saturating_sub(1),
        Event::Single { .. }
        | Event::Raise { .. }
        | Event::Give { .. }
        | Event::Carry { .. }
        | Event::Trim { .. } => before,
    }
}

// How many entries a journal leaves open after each number of its events.
fn opens_of(alloc: Global, journal: &[Entry], track: &Track) -> Result<ListOf<u64>, AllocError>
    requires { track.now.journal ≡ journal.now }
    ensures { IfOk result (λ opens. opens ≡ opens_of journal.now) }
{
    track.agrees();
    let _len = journal.len();
    let mut opens = ListOf::new(alloc);
    let mut count = 0;
    opens.push(count)?;
    for entry in journal {
        count = open_behind(count, &entry.event);
        opens.push(count)?;
    }
    Ok(opens)
}

/// How many entries of each column are open after each number of its events.
#[derive(Drop)]
pub(crate) struct Opens {
    by_column: Vec<ListOf<u64>>,
}

impl Opens {
    /// Those of columns, in their order, by their tracks.
    pub(crate) fn of_columns(
        alloc: Global,
        columns: &[ColumnReport],
        tracks: &[Track],
    ) -> Result<Opens, AllocError>
        requires { AreOfColumns columns.now tracks.now }
        ensures { IfOk result (λ opens. opens.by_column.items ≡ opens_in columns.now) }
    {
        let mut by_column = Vec::with_capacity(alloc, columns.len())?;
        for at in 0..columns.len() {
            by_column.push(opens_of(alloc, columns[at].journal.as_slice(), &tracks[at])?)?;
        }
        Ok(Opens { by_column })
    }

    /// How many entries of a column are open after so many events; 0 where the column is not there, or has fewer.
    pub(crate) fn number(&self, colours: u8, region: u8, colour: u8, events: u64) -> u64
        ensures { result ≡ open_in colours self.now.by_column.items region colour events }
    {
        match self.by_column.get(column_place(colours, region, colour)) {
            Some(opens) => match opens.as_slice().get(events as usize) {
                Some(count) => *count,
                None => 0,
            },
            None => 0,
        }
    }
}
