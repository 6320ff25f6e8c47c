// Columns in the end, shown on threads.
ghost use Rattle.std.specs.Prelude.{◌≡◌, ◌<◌, Some, map, IfOk, IfSome};
ghost use Rattle.std.specs.List.{All};
ghost use Rattle.closing_report.specs.Columns.{column_shown, HasNames};
ghost use Rattle.closing_report.specs.Places.{open_place, IsShown, ArePlacesShown};
ghost use Rattle.closing_report.specs.declared.beside.Place.{Place};

use crate::columns::column_report;
use column::Column;
use fork_join::for_each_mut;
use log_node::{ListOf, Names};
use report_text::ColumnReport;
use std::alloc::{AllocError, Global};
use std::num::NonZeroUsize;
use std::thread::Threads;

/// For how many keys of lines a thread is begun.
const KEYS: usize = 1024;

/// A column, and in its place what is shown of it.
#[derive(Drop)]
pub struct Place {
    pub column: Option<Column>,
    pub shown: Option<ColumnReport>,
}

// Each column in a place of its own.
fn places_of(alloc: Global, columns: Vec<Column>) -> Result<Vec<Place>, AllocError>
    ensures { IfOk result (λ places. places.items ≡ map open_place columns.items) }
{
    let mut places = Vec::new(alloc);
    for column in columns {
        places.push(Place {
            column: Some(column),
            shown: None,
        })?;
    }
    Ok(places)
}

// How many threads are to show these columns: one more for so many keys of their lines, up to the most.
fn threads_for(columns: &[Column], most: NonZeroUsize) -> usize
    ensures { 0 < result }
{
    let mut keys = 0usize;
    for column in columns {
        keys = keys.saturating_add(column.line().len());
    }
    (keys / KEYS + 1).min(most.get())
}

// Shows the column of a place, unless there is no memory for it.
fn show(alloc: Global, regions: &Names, colours: &Names, place: &mut Place)
    requires { IfSome place.old.column (HasNames regions.now colours.now) }
    ensures { IsShown regions.now colours.now place.old place.new }
{
    if let Some(column) = place.column.take() {
        place.shown = column_report(alloc, regions, colours, column).ok();
    }
}

// Shows the columns of all places.
fn show_all<R: Threads + Sync>(
    rt: &R,
    alloc: Global,
    regions: &Names,
    colours: &Names,
    threads: usize,
    places: &mut [Place],
)
    requires threads { 0 < threads }
    requires names { All (λ place. IfSome place.column (HasNames regions.now colours.now)) places.old }
    ensures { ArePlacesShown regions.now colours.now places.old places.new }
{
    for_each_mut(
        rt,
        places,
        threads,
        &|_number: usize, place: &mut Place|
            requires { IfSome place.now.column (HasNames regions.now colours.now) }
            ensures { IsShown regions.entry.now colours.entry.now place.entry.now place.exit.now }
        { show(alloc, regions, colours, place) },
    );
}

// What is shown in the places; where there is one without, memory was refused.
fn reports_of(alloc: Global, places: Vec<Place>) -> Result<ListOf<ColumnReport>, AllocError>
    ensures { IfOk result (λ reports. map Some reports ≡ map (λ (place : Place). place.shown) places.items) }
{
    let mut reports = ListOf::new(alloc);
    for place in places {
        let Place { column: _, shown } = place;
        match shown {
            Some(report) => reports.push(report)?,
            None => return Err(AllocError),
        }
    }
    Ok(reports)
}

/// What is shown of the columns, under the names of regions and colours, made on that many threads at most, and on fewer where
/// the columns are short: what a column holds beside is given back there too.
pub fn columns_beside<R: Threads + Sync>(
    rt: &R,
    alloc: Global,
    regions: &Names,
    colours: &Names,
    columns: Vec<Column>,
    most: NonZeroUsize,
) -> Result<ListOf<ColumnReport>, AllocError>
    requires { All (HasNames regions.now colours.now) columns.items }
    ensures { IfOk result (λ reports. reports ≡ map (column_shown regions.now colours.now) columns.items) }
{
    let threads = threads_for(columns.as_slice(), most);
    let mut places = places_of(alloc, columns)?;
    show_all(rt, alloc, regions, colours, threads, places.as_mut_slice());
    reports_of(alloc, places)
}
