// The eighth rule: what is left open is of clients that stopped, and what was helped is complete.
ghost use Rattle.std.specs.Prelude.{◌≡◌, ◌<◌, ◌||◌, ◌&&◌, ◌==◌, true, false, ℕ, List, IfOk, OnOk};
ghost use Rattle.std.specs.List.{All, list_any};
ghost use Rattle.log_node.specs.declared.ids.Id.{Id as NodeId};
ghost use Rattle.log_node.specs.declared.node.Node.{Node};
ghost use Rattle.lawful_run.specs.Lawful.{HasStopped};
ghost use Rattle.column_track.specs.Tracks.{Tells};
ghost use Rattle.run_rules.specs.Rules.{Rule2, Rule8};
ghost use Rattle.run_rules.specs.Telling.{IsWellFormed, account_of};
ghost use Rattle.col_core.specs.declared.Entry.{Entry as EntryMade};
ghost use Rattle.walk_law.specs.Columns.{AreAllColumns};
ghost use Rattle.walk_law.specs.LeftOpen.{AreAllWhole, IsColumnLeft, IsHelpedWhole, IsLeftBy, IsRowLeft, IsStopped, has_id, helps, is_help_among, is_help_in, is_open_among, is_open_in, is_open_key};
ghost use Rattle.walk_law.specs.RowsBeside.{is_same_as};

use crate::row_table::RowTable;
use col_core::{Entry, Event};
use log_node::{Id, Outcome};
use report_text::{Answer, ColumnReport, QueueKey, Report, RowReport};
use script_text::Script;
use std::alloc::{AllocError, Global};

// Whether an answer is that of a stop.
fn is_stopped(answer: &Answer) -> bool
    ensures { Tells result (IsStopped answer.now) }
{
    matches!(answer, Answer::Stopped { .. })
}

// Whether the last reply to a client is that its append stopped.
fn has_stopped(report: &Report, client: u8) -> bool
    ensures { Tells result (HasStopped report.now client) }
{
    let Some(shown) = report.clients.get(client as usize) else {
        return false;
    };
    let replies = shown.replies.as_slice();
    if replies.is_empty() {
        return false;
    }
    is_stopped(&replies[replies.len() - 1].answer)
}

// Whether an entry that is not in the line is settled, or of a client that stopped.
fn is_left(report: &Report, shown: QueueKey) -> bool
    ensures { Tells result (IsLeftBy report.now shown) }
{
    if shown.settled {
        return true;
    }
    has_stopped(report, shown.key.id.client)
}

// Whether all such entries of a column are.
fn is_column_left(report: &Report, queue: &[QueueKey]) -> bool
    ensures { Tells result (All (IsLeftBy report.now) queue.now) }
{
    for shown in queue {
        if !is_left(report, *shown) {
            return false;
        }
    }
    true
}

// Whether those of all columns are.
fn are_columns_left(report: &Report, columns: &[ColumnReport]) -> bool
    ensures { Tells result (All (IsColumnLeft report.now) columns.now) }
{
    for column in columns {
        if !is_column_left(report, column.queue.as_slice()) {
            return false;
        }
    }
    true
}

// Whether an outcome is still open.
fn is_open(outcome: Outcome) -> bool
    ensures { Tells result (outcome ≡ Outcome.Open) }
{
    match outcome {
        Outcome::Open => true,
        Outcome::Gone(_) | Outcome::Final(_) => false,
    }
}

// Whether a row has an outcome, or is of a client that stopped.
fn is_row_left(report: &Report, row: &RowReport) -> bool
    ensures { Tells result (IsRowLeft report.now row.now) }
{
    if !is_open(row.last) {
        return true;
    }
    has_stopped(report, row.row.client)
}

// Whether all rows have, or are.
fn are_rows_left(report: &Report, rows: &[RowReport]) -> bool
    ensures { Tells result (All (IsRowLeft report.now) rows.now) }
{
    for row in rows {
        if !is_row_left(report, row) {
            return false;
        }
    }
    true
}

// The id of an entry that is open.
fn open_id(shown: QueueKey) -> Option<Id>
    ensures { (id : NodeId) → is_open_key id shown ≡ is_same_as id result }
{
    if shown.settled {
        None
    } else {
        Some(shown.key.id)
    }
}

// Puts in the ids of open entries.
pub(crate) fn put_open(ids: &mut RowTable, queue: &[QueueKey]) -> Result<(), AllocError>
    ensures { (id : NodeId) → OnOk result (has_id ids.new id ≡ (has_id ids.old id || list_any (is_open_key id) queue.now)) }
{
    for shown in queue {
        ids.put(open_id(*shown))?;
    }
    Ok(())
}

// Puts in the ids that a column leaves open, where it is of the region.
fn add_open(ids: &mut RowTable, column: &ColumnReport, region: u8) -> Result<(), AllocError>
    ensures { (id : NodeId) → OnOk result (has_id ids.new id
        ≡ (has_id ids.old id || ((column.now.region == region) && is_open_in id column.now))) }
{
    if column.region != region {
        return Ok(());
    }
    put_open(ids, column.queue.as_slice())
}

/// The ids that a region's columns leave open.
pub(crate) fn open_ids(
    alloc: Global,
    columns: &[ColumnReport],
    region: u8,
) -> Result<RowTable, AllocError>
    ensures { (id : NodeId) → IfOk result (λ ids. has_id ids id ≡ is_open_among region columns.now id) }
{
    let mut ids = RowTable::new(alloc);
    for column in columns {
        add_open(&mut ids, column, region)?;
    }
    Ok(ids)
}

// The id whose append an event of a client completes for another one.
fn helped_by(by: u8, event: &Event) -> Option<Id>
    ensures { (id : NodeId) → helps id by event.now ≡ is_same_as id result }
{
    match event {
        Event::Propose { id, .. } | Event::Settle { id, .. } => {
            if id.client == by {
                return None;
            }
            Some(*id)
        }
        Event::Single { .. }
        | Event::Raise { .. }
        | Event::Give { .. }
        | Event::Carry { .. }
        | Event::Trim { .. } => None,
    }
}

// Puts in the ids whose appends a journal's events complete for others.
fn put_helped(ids: &mut RowTable, journal: &[Entry]) -> Result<(), AllocError>
    ensures { (id : NodeId) → OnOk result (has_id ids.new id
        ≡ (has_id ids.old id || list_any (λ (e : EntryMade). helps id e.by e.event) journal.now)) }
{
    for entry in journal {
        ids.put(helped_by(entry.by, &entry.event))?;
    }
    Ok(())
}

// Puts in those of a column, where it is of the region.
fn add_helped(ids: &mut RowTable, column: &ColumnReport, region: u8) -> Result<(), AllocError>
    ensures { (id : NodeId) → OnOk result (has_id ids.new id
        ≡ (has_id ids.old id || ((column.now.region == region) && is_help_in id column.now))) }
{
    if column.region != region {
        return Ok(());
    }
    put_helped(ids, column.journal.as_slice())
}

// The ids whose appends were completed for others in a region.
fn helped_ids(alloc: Global, columns: &[ColumnReport], region: u8) -> Result<RowTable, AllocError>
    ensures { (id : NodeId) → IfOk result (λ ids. has_id ids id ≡ is_help_among region columns.now id) }
{
    let mut ids = RowTable::new(alloc);
    for column in columns {
        add_helped(&mut ids, column, region)?;
    }
    Ok(ids)
}

// Whether a row is complete where it is of the region and was helped.
fn is_helped_whole(row: &RowReport, region: u8, helped: bool, waits: bool) -> bool
    ensures { Tells result (row.now.region ≡ region → helped ≡ true → (row.now.last ≡ Outcome.Open → ⊥) × (waits ≡ false)) }
{
    if row.region != region {
        return true;
    }
    if !helped {
        return true;
    }
    if waits {
        return false;
    }
    !is_open(row.last)
}

// Whether all rows of a region are that were helped.
fn are_helped_whole(
    alloc: Global,
    columns: &[ColumnReport],
    rows: &[RowReport],
    region: u8,
) -> Result<bool, AllocError>
    ensures { IfOk result (λ b. Tells b (All (IsHelpedWhole region columns.now) rows.now)) }
{
    let helped = helped_ids(alloc, columns, region)?;
    let waiting = open_ids(alloc, columns, region)?;
    for row in rows {
        if !is_helped_whole(row, region, helped.has(row.id), waiting.has(row.id)) {
            return Ok(false);
        }
    }
    Ok(true)
}

// Whether those of all regions are.
fn are_all_whole(
    alloc: Global,
    columns: &[ColumnReport],
    rows: &[RowReport],
    regions: u8,
) -> Result<bool, AllocError>
    ensures { IfOk result (λ b. Tells b (AreAllWhole regions columns.now rows.now)) }
{
    for region in 0..regions {
        if !are_helped_whole(alloc, columns, rows, region)? {
            return Ok(false);
        }
    }
    Ok(true)
}

/// Whether a report that keeps the second rule keeps the eighth one, whatever nodes its clients appended: what is left open is
/// of clients that stopped, and what was helped is complete.
pub fn keeps_eighth(alloc: Global, script: &Script, report: &Report) -> Result<bool, AllocError>
    requires formed { IsWellFormed script.now report.now }
    requires columns { AreAllColumns script.now.shape.regions script.now.shape.colours report.now.columns }
    requires second { Rule2 script.now report.now }
    ensures { (nodes : ℕ → List Node) → IfOk result (λ b. Tells b (Rule8 script.now report.now (account_of script.now report.now nodes))) }
{
    let columns = report.columns.as_slice();
    let rows = report.rows.as_slice();
    if !are_columns_left(report, columns) {
        return Ok(false);
    }
    if !are_rows_left(report, rows) {
        return Ok(false);
    }
    are_all_whole(alloc, columns, rows, script.shape.regions)
}
