// What has become of the rows.
ghost use Rattle.std.specs.Prelude.{◌≡◌, ℕ, ◌<◌, ◌≤◌, ◌++◌, true, length, IfOk, OnOk};
ghost use Rattle.std.specs.List.{flat_map, range_with_len};
ghost use Rattle.world_laws.specs.Laws.{begun_row};
ghost use Rattle.world_laws.specs.Worlds.{is_begun, is_member};
ghost use Rattle.world_code.specs.WorldView.{world_of};
ghost use Rattle.script_in_order.specs.Reports.{client_rows_shown, region_rows_shown};

use log_node::{ColourMark, Colours, ListOf, MAX_CLIENTS, Marks, Row};
use report_text::RowReport;
use std::alloc::{AllocError, Global};
use world_code::World;
use world_laws::is_lawful;

// The marks of a row's colours.
fn marks_of(alloc: Global, world: &World, row: Row, colours: Colours) -> Result<Marks, AllocError>
    requires begun { is_begun (world_of world.now) row ≡ true }
    requires colours { colours ≡ (begun_row (world_of world.now) row).node.colours }
    requires within { (colour : ℕ) → is_member colours colour ≡ true → colour < world.now.shape.colours }
    ensures { IfOk result (λ marks. marks ≡ (begun_row (world_of world.now) row).marks) }
{
    let mut marks = ListOf::new(alloc);
    for colour in colours.members() {
        marks.push(ColourMark {
            colour,
            mark: world.mark(row, colour),
        })?;
    }
    Ok(marks)
}

// Takes the rows that a client of the region began into the reports.
fn push_client_rows(
    alloc: Global,
    world: &World,
    region: u8,
    client: u8,
    reports: &mut ListOf<RowReport>,
) -> Result<(), AllocError>
    ensures { OnOk result (reports.new ≡ reports.old ++ client_rows_shown (world_of world.now) region client) }
{
    is_lawful();
    world.is_whole();
    for number in 0..world.shape().rows {
        let row = Row { client, number };
        let Some(node) = world.row_node(row) else {
            return Ok(());
        };
        reports.push(RowReport {
            region,
            row,
            id: node.id,
            marks: marks_of(alloc, world, row, node.colours)?,
            last: world.last(row),
        })?;
    }
    Ok(())
}

// Takes the rows that the clients of a region began into the reports.
fn push_region_rows(
    alloc: Global,
    world: &World,
    region: u8,
    reports: &mut ListOf<RowReport>,
) -> Result<(), AllocError>
    requires { length world.now.shape.homes ≤ MAX_CLIENTS }
    ensures { OnOk result (reports.new ≡ reports.old ++ region_rows_shown (world_of world.now) region) }
{
    let homes = world.shape().homes.as_slice();
    for (client, home) in homes.iter().enumerate() {
        if *home == region {
            push_client_rows(alloc, world, region, client as u8, reports)?;
        }
    }
    Ok(())
}

/// All rows by region, client and number.
pub fn row_reports(alloc: Global, world: &World) -> Result<ListOf<RowReport>, AllocError>
    requires { length world.now.shape.homes ≤ MAX_CLIENTS }
    ensures { IfOk result (λ reports. reports ≡
        flat_map (region_rows_shown (world_of world.now)) (range_with_len 0 world.now.shape.regions)) }
{
    let mut reports = ListOf::new(alloc);
    for region in 0..world.shape().regions {
        push_region_rows(alloc, world, region, &mut reports)?;
    }
    Ok(reports)
}
