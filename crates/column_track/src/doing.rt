// A whole journal done again.
ghost use Rattle.std.specs.Prelude.{◌≡◌, ◌<◌, ◌≤◌, IfOk, []};
ghost use Rattle.column_track.specs.Tracks.{IsDoneAgain};
ghost use Rattle.column_track.specs.Doing.{ArePlaces, Goes, GoesThrough, IsNextOf, is_stamped};

use crate::again::{
    carry_again, give_again, propose_again, raise_again, settle_again, single_again, trim_again,
};
use crate::marks::{Mark, mark_of};
use crate::places::{Places, stamp_of};
use crate::track::Track;
use col_core::{Entry, Event};
use column::Column;
use log_node::{MAX_REGIONS, Shape};
use std::alloc::{AllocError, Global};

// Whether the entry's event gives a stamp, or else the entry has none.
fn is_stamped(entry: &Entry) -> bool
    ensures { result ≡ is_stamped entry.now }
{
    match &entry.event {
        Event::Single { .. } | Event::Propose { .. } => true,
        Event::Settle { .. }
        | Event::Raise { .. }
        | Event::Give { .. }
        | Event::Carry { .. }
        | Event::Trim { .. } => entry.stamp == 0,
    }
}

// The journal's next entry, where those before it were done again.
fn entry_again(
    alloc: Global,
    column: &mut Column,
    regions: u8,
    journal: &[Entry],
    places: &Places,
    entry: &Entry,
) -> Result<bool, AllocError>
    requires colour { column.old.colour ≡ 0 }
    requires regions { column.old.regions ≡ regions }
    requires places { ArePlaces journal.now places.now }
    requires next { IsNextOf journal.now column.old.journal entry.now }
    ensures { IfOk result (Goes column.old column.new entry.now.by entry.now.event entry.now.stamp) }
{
    column.agrees();
    if !is_stamped(entry) {
        return Ok(false);
    }
    let by = entry.by;
    match &entry.event {
        Event::Single { id, floor, wants } => {
            single_again(alloc, column, by, *id, *floor, *wants, entry.stamp)
        }
        Event::Propose { id, floor, wants } => {
            propose_again(alloc, column, by, *id, *floor, *wants, entry.stamp)
        }
        Event::Settle { id, outcome } => {
            let proposed = stamp_of(journal, places, *id);
            Ok(settle_again(column, by, *id, *outcome, proposed))
        }
        Event::Raise { to } => raise_again(column, by, *to),
        Event::Give { region, from } => give_again(column, by, regions, *region, *from),
        Event::Carry {
            region,
            start,
            heads,
        } => carry_again(
            alloc,
            column,
            by,
            regions,
            *region,
            *start,
            heads.as_slice(),
        ),
        Event::Trim { counts } => trim_again(column, by, *counts),
    }
}

// All entries of the journal, with a mark before the first and behind each.
fn entries_again(
    alloc: Global,
    column: &mut Column,
    marks: &mut Vec<Mark>,
    regions: u8,
    journal: &[Entry],
    places: &Places,
) -> Result<bool, AllocError>
    requires colour { column.old.colour ≡ 0 }
    requires regions { column.old.regions ≡ regions }
    requires empty { column.old.journal ≡ [] }
    requires places { ArePlaces journal.now places.now }
    requires none { marks.old.items ≡ [] }
    ensures { IfOk result (GoesThrough column.old column.new journal.now marks.new.items) }
{
    marks.push(mark_of(column))?;
    for entry in journal {
        if !entry_again(alloc, column, regions, journal, places, entry)? {
            return Ok(false);
        }
        marks.push(mark_of(column))?;
    }
    Ok(true)
}

/// Does a journal again, as that of a column of this region. There is a track exactly where the journal is a lawful
/// history of one.
pub fn do_again(
    alloc: Global,
    region: u8,
    shape: &Shape,
    journal: &[Entry],
) -> Result<Option<Track>, AllocError>
    requires region { region < MAX_REGIONS }
    requires regions { shape.now.regions ≤ MAX_REGIONS }
    ensures { IfOk result (IsDoneAgain region shape.now.regions journal.now) }
{
    let Some(places) = Places::of_journal(alloc, journal)? else {
        return Ok(None);
    };
    let mut column = Column::open(alloc, region, 0, shape)?;
    let mut marks = Vec::new(alloc);
    if !entries_again(
        alloc,
        &mut column,
        &mut marks,
        shape.regions,
        journal,
        &places,
    )? {
        return Ok(None);
    }
    column.agrees();
    Ok(Some(Track {
        column,
        marks,
        places,
    }))
}
