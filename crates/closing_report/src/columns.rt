// Columns in the end.
ghost use Rattle.std.specs.Prelude.{◌≡◌, ◌<◌, ◌++◌, [], length, map, unwrap_or, slice_get, IfOk, OnOk};
ghost use Rattle.std.specs.List.{All};
ghost use Rattle.log_node.specs.Standings.{queue_of};
ghost use Rattle.col_core.specs.History.{entries};
ghost use Rattle.closing_report.specs.Columns.{waiting_shown, column_shown, HasNames};

use column::Column;
use log_node::{Key, ListOf, Names, Text};
use report_text::{ColumnReport, QueueKey};
use std::alloc::{AllocError, Global};

// The keys of a line.
fn copied_keys(alloc: Global, keys: &[Key]) -> Result<ListOf<Key>, AllocError>
    ensures { IfOk result (λ list. list ≡ keys.now) }
{
    Ok(ListOf::from(Vec::from_slice(alloc, keys)?))
}

// The entries that are not in the line.
fn queue_keys(alloc: Global, column: &Column) -> Result<ListOf<QueueKey>, AllocError>
    ensures { IfOk result (λ keys. keys ≡ map waiting_shown (queue_of (entries column.now.journal))) }
{
    let mut keys = ListOf::new(alloc);
    while let Some((key, settled)) = column.waiting(keys.len() as u64) {
        keys.push(QueueKey { key, settled })?;
    }
    Ok(keys)
}

// A name once more.
fn name_at(alloc: Global, names: &Names, at: u8) -> Result<Text, AllocError>
    requires { at < length names.now }
    ensures { IfOk result (λ name. name ≡ unwrap_or (slice_get names.now at) []) }
{
    Text::copied(alloc, names.as_slice()[at as usize].as_bytes())
}

/// What is shown of a column.
pub(crate) fn column_report(
    alloc: Global,
    regions: &Names,
    colours: &Names,
    column: Column,
) -> Result<ColumnReport, AllocError>
    requires { HasNames regions.now colours.now column }
    ensures { IfOk result (λ shown. shown ≡ column_shown regions.now colours.now column) }
{
    let (region, colour) = (column.region(), column.colour());
    Ok(ColumnReport {
        region,
        colour,
        region_name: name_at(alloc, regions, region)?,
        colour_name: name_at(alloc, colours, colour)?,
        clock: column.clock(),
        line: copied_keys(alloc, column.line())?,
        queue: queue_keys(alloc, &column)?,
        cut: column.cut(),
        base: column.base(),
        journal: column.into_journal(),
    })
}

/// Takes columns into the reports, under the names of regions and colours. Where memory is refused, some may have been
/// taken.
pub fn push_columns(
    alloc: Global,
    regions: &Names,
    colours: &Names,
    columns: Vec<Column>,
    reports: &mut ListOf<ColumnReport>,
) -> Result<(), AllocError>
    requires { All (HasNames regions.now colours.now) columns.items }
    ensures { OnOk result (reports.new ≡ reports.old ++ map (column_shown regions.now colours.now) columns.items) }
{
    for column in columns {
        reports.push(column_report(alloc, regions, colours, column)?)?;
    }
    Ok(())
}
