// The third rule: rows beside their columns, and copies.
ghost use Rattle.std.specs.Prelude.{◌≡◌, ◌<◌, ◌≤◌, count_by, IfOk};
ghost use Rattle.script_text.specs.Fitting.{IsFitting};
ghost use Rattle.column_track.specs.Tracks.{Tells};
ghost use Rattle.run_rules.specs.Rules.{Rule3};
ghost use Rattle.run_rules.specs.Telling.{IsWellFormed, account_of, is_in, no_nodes};
ghost use Rattle.walk_law.specs.Columns.{AreTracked};
ghost use Rattle.walk_law.specs.Third.{AreRows, AreRowsIn, rows_in};

use crate::copies::{are_copies, column_place};
use crate::rows::are_rows_beside;
use column_track::Track;
use log_node::MAX_COLOURS;
use report_text::{Report, RowReport};
use script_text::Script;
use std::alloc::{AllocError, Global};

// How many rows are of a region.
fn count_in(rows: &[RowReport], region: u8) -> usize
    ensures { result ≡ count_by (is_in region) rows.now }
{
    rows.iter().filter(|row| row.region == region).count()
}

// Whether the rows of a region are lawful beside its columns.
fn are_rows_in(
    alloc: Global,
    script: &Script,
    report: &Report,
    tracks: &[Track],
    region: u8,
    rows: &[RowReport],
) -> Result<bool, AllocError>
    requires few { script.now.shape.colours ≤ MAX_COLOURS }
    requires tracked { AreTracked script.now.shape.regions script.now.shape.colours report.now.columns tracks.now }
    requires region { region < script.now.shape.regions }
    requires rows { rows.now ≡ rows_in region report.now.rows }
    ensures { IfOk result (λ b. Tells b (AreRowsIn script.now report.now region)) }
{
    let from = column_place(script.shape.colours, region, 0);
    let to = from + script.shape.colours as usize;
    let all = report.columns.as_slice();
    let columns = &all[from..to];
    let tracked = &tracks[from..to];
    are_rows_beside(alloc, script, region, rows, columns, tracked)
}

// Whether those of all regions are.
fn are_rows(
    alloc: Global,
    script: &Script,
    report: &Report,
    tracks: &[Track],
) -> Result<bool, AllocError>
    requires few { script.now.shape.colours ≤ MAX_COLOURS }
    requires formed { IsWellFormed script.now report.now }
    requires tracked { AreTracked script.now.shape.regions script.now.shape.colours report.now.columns tracks.now }
    ensures { IfOk result (λ b. Tells b (AreRows script.now report.now)) }
{
    let rows = report.rows.as_slice();
    let _len = rows.len();
    let mut from = 0;
    for region in 0..script.shape.regions {
        let to = from + count_in(rows, region);
        let here = &rows[from..to];
        if !are_rows_in(alloc, script, report, tracks, region, here)? {
            return Ok(false);
        }
        from = to;
    }
    Ok(true)
}

/// Whether a well-formed report keeps the third rule, by the tracks of its columns: its rows are lawful beside these, and what
/// regions hold of one another's chains are true copies.
pub fn keeps_third(
    alloc: Global,
    script: &Script,
    report: &Report,
    tracks: &[Track],
) -> Result<bool, AllocError>
    requires fitting { IsFitting script.now }
    requires formed { IsWellFormed script.now report.now }
    requires tracked { AreTracked script.now.shape.regions script.now.shape.colours report.now.columns tracks.now }
    ensures { IfOk result (λ b. Tells b (Rule3 script.now (account_of script.now report.now no_nodes))) }
{
    if !are_rows(alloc, script, report, tracks)? {
        return Ok(false);
    }
    let columns = report.columns.as_slice();
    Ok(are_copies(columns, tracks, &script.shape))
}
