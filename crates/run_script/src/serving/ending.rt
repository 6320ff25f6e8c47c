// The report of a store in the end, and of the replies to its clients.
ghost use Rattle.std.specs.Prelude.{◌≡◌, ◌≤◌, ◌++◌, length, map, IfOk, OnOk};
ghost use Rattle.std.specs.List.{flat_map, enumerate_from};
ghost use Rattle.run_script.specs.EndReports.{nodes_in, HaveNodes, row_shown, rows_shown, region_shown, replies_shown, CanShow, end_report};

use chain_store::ClosedRegion;
use closing_report::columns_beside;
use log_client::{Closed, RowNodes};
use log_node::{ListOf, Names, Text};
use report_text::{ClientReport, ColumnReport, ReplyLine, Report, RowReport};
use script_text::Script;
use stamp_board::ClosedRows;
use std::alloc::{AllocError, Global};
use std::mem;
use std::num::NonZeroUsize;
use std::thread::Threads;

// The replies to each client under its name.
fn client_reports(
    alloc: Global,
    names: &Names,
    mut replies: Vec<ListOf<ReplyLine>>,
) -> Result<ListOf<ClientReport>, AllocError>
    requires { length names.now ≤ length replies.items }
    ensures { IfOk result (λ reports. reports ≡ map (replies_shown replies.items) (enumerate_from 0 names.now)) }
{
    let mut reports = ListOf::new(alloc);
    for (number, name) in names.as_slice().iter().enumerate() {
        let mine = &mut replies[number];
        reports.push(ClientReport {
            name: Text::copied(alloc, name.as_bytes())?,
            replies: mem::replace(mine, ListOf::new(alloc)),
        })?;
    }
    Ok(reports)
}

// Takes the rows of a region into the reports; the nodes are those of each client's rows.
fn push_rows(
    nodes: &[RowNodes],
    region: u8,
    rows: ClosedRows,
    reports: &mut ListOf<RowReport>,
) -> Result<(), AllocError>
    requires { HaveNodes (nodes_in nodes.now) rows }
    ensures { OnOk result (reports.new ≡ reports.old ++ map (row_shown (nodes_in nodes.now) region) rows) }
{
    for closed in rows.into_vec() {
        let row = closed.row;
        let node = &nodes[row.client as usize].as_slice()[row.number as usize];
        reports.push(RowReport {
            region,
            row,
            id: node.id,
            marks: closed.marks,
            last: closed.last,
        })?;
    }
    Ok(())
}

// The rows and the columns of all regions; the nodes are those of each client's rows.
fn region_reports<R: Threads + Sync>(
    rt: &R,
    alloc: Global,
    regions: &Names,
    colours: &Names,
    nodes: &[RowNodes],
    ends: Vec<ClosedRegion>,
    threads: NonZeroUsize,
) -> Result<(ListOf<RowReport>, ListOf<ColumnReport>), AllocError>
    requires { CanShow regions.now colours.now (record { regions = ends.items; nodes = nodes.now }) }
    ensures rows { IfOk result (λ r. r.0 ≡ flat_map (rows_shown (nodes_in nodes.now)) (enumerate_from 0 ends.items)) }
    ensures columns { IfOk result (λ r. r.1 ≡ flat_map (region_shown regions.now colours.now) ends.items) }
{
    let mut rows = ListOf::new(alloc);
    let mut columns = Vec::new(alloc);
    let mut region = 0;
    for end in ends {
        let ClosedRegion {
            columns: own,
            rows: begun,
            ends: _,
        } = end;
        push_rows(nodes, region, begun, &mut rows)?;
        columns.append(&mut own.into_vec())?;
        region += 1;
    }
    let columns = columns_beside(rt, alloc, regions, colours, columns, threads)?;
    Ok((rows, columns))
}

/// The report of all clients, rows and columns; the columns are shown on that many threads at most.
pub fn end_report<R: Threads + Sync>(
    rt: &R,
    alloc: Global,
    script: &Script,
    closed: Closed,
    replies: Vec<ListOf<ReplyLine>>,
    threads: NonZeroUsize,
) -> Result<Report, AllocError>
    requires clients { length script.now.clients ≤ length replies.items }
    requires regions { CanShow script.now.regions script.now.colours closed }
    ensures { IfOk result (λ report. report ≡ end_report script.now closed replies.items) }
{
    let Closed {
        regions: ends,
        nodes,
    } = closed;
    let (rows, columns) = region_reports(
        rt,
        alloc,
        script.regions.as_list(),
        script.colours.as_list(),
        nodes.as_slice(),
        ends.into_vec(),
        threads,
    )?;
    Ok(Report {
        version: script.version,
        clients: client_reports(alloc, script.clients.as_list(), replies)?,
        rows,
        columns,
    })
}
