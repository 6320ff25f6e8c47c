// The report in the end: the replies to each client, the rows, and what has become of each column.
ghost use Rattle.std.specs.Prelude.{◌≡◌, ℕ, ◌<◌, ◌≤◌, length, map, IfOk};
ghost use Rattle.std.specs.List.{All, enumerate_from};
ghost use Rattle.script_text.specs.Fitting.{IsFitting};
ghost use Rattle.world_code.specs.WorldView.{IsPlaced, column_at};
ghost use Rattle.script_meaning.specs.Meaning.{report_of};
ghost use Rattle.script_in_order.specs.Runs.{state_of};
ghost use Rattle.script_in_order.specs.Reports.{client_shown, columns_shown};

use crate::replies::Replies;
use crate::rows::row_reports;
use closing_report::push_columns;
use log_node::{ListOf, Names, Text};
use report_text::{ClientReport, ColumnReport, Report};
use script_text::Script;
use std::alloc::{AllocError, Global};
use world_code::{RegionColumns, World};

// The replies to each client under its name.
fn client_reports(
    alloc: Global,
    names: &Names,
    mut replies: Vec<Replies>,
) -> Result<ListOf<ClientReport>, AllocError>
    requires { length names.now ≤ length replies.items }
    ensures { IfOk result (λ reports. reports ≡ map (client_shown replies.items) (enumerate_from 0 names.now)) }
{
    let mut reports = ListOf::new(alloc);
    for (number, name) in names.as_slice().iter().enumerate() {
        let mine = &mut replies[number];
        reports.push(ClientReport {
            name: Text::copied(alloc, name.as_bytes())?,
            replies: mine.take(alloc),
        })?;
    }
    Ok(reports)
}

// All columns in the end, by region and colour.
fn column_reports(
    alloc: Global,
    script: &Script,
    regions: Vec<RegionColumns>,
) -> Result<ListOf<ColumnReport>, AllocError>
    requires fits { IsFitting script.now }
    requires regions { length regions.items ≡ script.now.shape.regions }
    requires wide { All (λ columns. length columns ≡ script.now.shape.colours) regions.items }
    requires placed { (region colour : ℕ) → region < script.now.shape.regions → colour < script.now.shape.colours
        → IsPlaced (column_at regions.items region colour) region colour script.now.shape.regions }
    ensures { IfOk result (λ reports. reports ≡ columns_shown script.now regions.items) }
{
    let mut reports = ListOf::new(alloc);
    for columns in regions {
        push_columns(
            alloc,
            script.regions.as_list(),
            script.colours.as_list(),
            columns.into_columns(),
            &mut reports,
        )?;
    }
    Ok(reports)
}

/// The report of all clients, rows and columns.
pub fn report(
    alloc: Global,
    script: &Script,
    world: World,
    replies: Vec<Replies>,
) -> Result<Report, AllocError>
    requires fits { IsFitting script.now }
    requires shape { world.shape ≡ script.now.shape }
    requires clients { length replies.items ≡ length script.now.shape.homes }
    ensures { IfOk result (λ report. report
        ≡ report_of script.now (state_of (record { world = world; replies = replies.items }))) }
{
    world.is_whole();
    let rows = row_reports(alloc, &world)?;
    Ok(Report {
        version: script.version,
        clients: client_reports(alloc, script.clients.as_list(), replies)?,
        rows,
        columns: column_reports(alloc, script, world.into_columns())?,
    })
}
