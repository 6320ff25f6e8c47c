// The clients, the columns and the rows of a report, as they have to be listed.
ghost use Rattle.std.specs.Prelude.{◌≡◌, ◌<◌, ℕ, IfOk, Some, map, slice_get};
ghost use Rattle.std.specs.List.{All};
ghost use Rattle.report_text.specs.declared.report.ClientReport.{ClientReport};
ghost use Rattle.report_text.specs.declared.report.ColumnReport.{ColumnReport};
ghost use Rattle.column_track.specs.Tracks.{Tells};
ghost use Rattle.lawful_run.specs.Columns.{column_numbers};
ghost use Rattle.run_rules.specs.Rules.{IsNamed};
ghost use Rattle.walk_law.specs.Lists.{HasLists};
ghost use Rattle.walk_law.specs.Listed.{ClientsRise, IsListed, RisesFrom, numbers_of};

use crate::texts::same_text;
use log_node::Text;
use report_text::{ClientReport, ColumnReport, Report, RowReport};
use script_text::{NameSet, Script};
use std::alloc::{AllocError, Global};

// Whether the clients have these names, in their order.
fn have_names(clients: &[ClientReport], names: &[Text]) -> bool
    ensures { Tells result (map (λ (c : ClientReport). c.name) clients.now ≡ names.now) }
{
    let [client, clients @ ..] = clients else {
        return names.is_empty();
    };
    let [name, names @ ..] = names else {
        return false;
    };
    same_text(&client.name, name) && have_names(clients, names)
}

// The numbers of all columns, by region and then colour.
fn column_numbers(alloc: Global, regions: u8, colours: u8) -> Result<Vec<(u8, u8)>, AllocError>
    ensures { IfOk result (λ numbers. numbers.items ≡ column_numbers regions colours) }
{
    let mut numbers = Vec::new(alloc);
    for region in 0..regions {
        for colour in 0..colours {
            numbers.push((region, colour))?;
        }
    }
    Ok(numbers)
}

// Whether the columns have these numbers, in their order.
fn have_numbers(columns: &[ColumnReport], numbers: &[(u8, u8)]) -> bool
    ensures { Tells result (map numbers_of columns.now ≡ numbers.now) }
{
    let [column, columns @ ..] = columns else {
        return numbers.is_empty();
    };
    let [number, numbers @ ..] = numbers else {
        return false;
    };
    column.region == number.0 && column.colour == number.1 && have_numbers(columns, numbers)
}

// Whether all columns are there, by region and then colour.
fn are_columns(
    alloc: Global,
    regions: u8,
    colours: u8,
    columns: &[ColumnReport],
) -> Result<bool, AllocError>
    ensures { IfOk result (λ ok. Tells ok (map numbers_of columns.now ≡ column_numbers regions colours)) }
{
    let numbers = column_numbers(alloc, regions, colours)?;
    Ok(have_numbers(columns, numbers.as_slice()))
}

// Whether a number has this name.
fn has_name(names: &NameSet, number: u8, name: &Text) -> bool
    ensures { Tells result (slice_get names.now number ≡ Some name.now) }
{
    match names.get(number as usize) {
        Some(own) => same_text(own, name),
        None => false,
    }
}

// Whether the names of its region and of its colour stand beside a column.
fn is_named(script: &Script, column: &ColumnReport) -> bool
    ensures { Tells result (IsNamed script.now column.now) }
{
    has_name(&script.regions, column.region, &column.region_name)
        && has_name(&script.colours, column.colour, &column.colour_name)
}

// Whether each column stands under its names.
fn are_named(script: &Script, columns: &[ColumnReport]) -> bool
    ensures { Tells result (All (IsNamed script.now) columns.now) }
{
    let [column, columns @ ..] = columns else {
        return true;
    };
    if !is_named(script, column) {
        return false;
    }
    are_named(script, columns)
}

// Whether rows stand by region, and are of regions that there are.
fn are_by_region(rows: &[RowReport], regions: u8) -> bool
    ensures { Tells result (RisesFrom 0 regions rows.now) }
{
    let mut last = 0;
    for row in rows {
        if row.region < last || row.region >= regions {
            return false;
        }
        last = row.region;
    }
    true
}

// Whether the clients of a region's rows do not fall.
fn are_by_client(rows: &[RowReport], region: u8) -> bool
    ensures { Tells result (ClientsRise region 0 rows.now) }
{
    let mut last = 0;
    for row in rows {
        if row.region == region {
            if row.row.client < last {
                return false;
            }
            last = row.row.client;
        }
    }
    true
}

// Whether the clients of each region's rows do not fall.
fn are_by_clients(rows: &[RowReport], regions: u8) -> bool
    ensures { Tells result ((region : ℕ) → region < regions → ClientsRise region 0 rows.now) }
{
    for region in 0..regions {
        if !are_by_client(rows, region) {
            return false;
        }
    }
    true
}

// Whether each list of a report is as it has to be, item by item.
fn are_lists(alloc: Global, script: &Script, report: &Report) -> Result<bool, AllocError>
    ensures { IfOk result (λ ok. Tells ok (IsListed script.now report.now)) }
{
    let (regions, colours) = (script.shape.regions, script.shape.colours);
    let columns = report.columns.as_slice();
    let rows = report.rows.as_slice();
    if report.version != script.version {
        return Ok(false);
    }
    if !have_names(report.clients.as_slice(), script.clients.as_slice()) {
        return Ok(false);
    }
    if !are_columns(alloc, regions, colours, columns)? {
        return Ok(false);
    }
    if !are_named(script, columns) {
        return Ok(false);
    }
    if !are_by_region(rows, regions) {
        return Ok(false);
    }
    Ok(are_by_clients(rows, regions))
}

/// Whether all that a report has to list is there, and in its order.
pub fn is_listed(alloc: Global, script: &Script, report: &Report) -> Result<bool, AllocError>
    ensures { IfOk result (λ ok. Tells ok (HasLists script.now report.now)) }
{
    are_lists(alloc, script, report)
}
