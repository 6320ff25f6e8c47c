// The second rule: each column's journal done again, and its closing line.
ghost use Rattle.std.specs.Prelude.{◌≡◌, ◌<◌, ◌≤◌, map, IfOk, Some};
ghost use Rattle.log_node.specs.Standings.{queue_of};
ghost use Rattle.col_core.specs.History.{entries};
ghost use Rattle.lawful_run.specs.Columns.{ShowsClosing};
ghost use Rattle.column_track.specs.Tracks.{Tells};
ghost use Rattle.walk_law.specs.Journals.{AreMakers, AreTracksOf, IsTrackOf, HasRegions, standing_shown, track_shown};
ghost use Rattle.run_rules.specs.Rules.{IsLawfulColumn};
ghost use Rattle.walk_law.specs.Columns.{AreAllColumns};

use col_core::Entry;
use column_track::{Track, do_again};
use log_node::{Key, ListOf, MAX_REGIONS};
use report_text::{ColumnReport, QueueKey, Report};
use script_text::Script;
use std::alloc::{AllocError, Global};

// Whether all events are of the first so many clients.
fn are_makers(journal: &[Entry], clients: usize) -> bool
    ensures { Tells result (AreMakers clients journal.now) }
{
    for entry in journal {
        if entry.by as usize >= clients {
            return false;
        }
    }
    true
}

// Whether a key is this one, and settled or not as is shown.
fn is_shown(waits: Option<(Key, bool)>, shown: QueueKey) -> bool
    ensures { Tells result (waits ≡ Some (shown.key, shown.settled)) }
{
    match waits {
        Some((key, settled)) => key == shown.key && settled == shown.settled,
        None => false,
    }
}

// Whether the entries that are not in the line are those shown.
fn shows_queue(track: &Track, queue: &[QueueKey]) -> bool
    ensures { Tells result (map standing_shown queue.now ≡ queue_of (entries track.now.journal)) }
{
    for at in 0..queue.len() {
        if !is_shown(track.waiting(at as u64), queue[at]) {
            return false;
        }
    }
    track.waiting(queue.len() as u64).is_none()
}

// Whether a column's closing line shows what its journal is.
fn shows_closing(track: &Track, column: &ColumnReport) -> bool
    requires region { track.now.region ≡ column.now.region }
    requires journal { track.now.journal ≡ column.now.journal }
    ensures { Tells result (ShowsClosing track.now.regions column.now.journal column.now) }
{
    if !track.ends_as(
        column.clock,
        column.line.as_slice(),
        column.cut,
        column.base,
    ) {
        return false;
    }
    shows_queue(track, column.queue.as_slice())
}

// Whether a journal that was done again is of clients' events, and the closing line shows it.
fn is_lawful(script: &Script, column: &ColumnReport, track: &Track) -> bool
    requires { track.now ≡ track_shown script.now.shape.regions column.now }
    ensures { Tells result (IsLawfulColumn script.now column.now) }
{
    track.agrees();
    if !are_makers(column.journal.as_slice(), script.clients.len()) {
        return false;
    }
    shows_closing(track, column)
}

// The track of a column's journal, where that is a lawful history of clients' events, and the closing line shows it.
fn track_of(
    alloc: Global,
    script: &Script,
    column: &ColumnReport,
) -> Result<Option<Track>, AllocError>
    requires region { HasRegions script.now.shape.regions column.now }
    requires regions { script.now.shape.regions ≤ MAX_REGIONS }
    ensures { IfOk result (IsTrackOf script.now column.now) }
{
    let journal = column.journal.as_slice();
    let Some(track) = do_again(alloc, column.region, &script.shape, journal)? else {
        return Ok(None);
    };
    if !is_lawful(script, column, &track) {
        return Ok(None);
    }
    Ok(Some(track))
}

/// Tracks of a report's columns, one for each, exactly where the columns keep the second rule; `None` where they do not.
pub fn tracks_of(
    alloc: Global,
    script: &Script,
    report: &Report,
) -> Result<Option<ListOf<Track>>, AllocError>
    requires regions { script.now.shape.regions ≤ MAX_REGIONS }
    requires columns { AreAllColumns script.now.shape.regions script.now.shape.colours report.now.columns }
    ensures { IfOk result (AreTracksOf script.now report.now) }
{
    let mut tracks = Vec::new(alloc);
    for column in report.columns.as_slice() {
        let Some(track) = track_of(alloc, script, column)? else {
            return Ok(None);
        };
        tracks.push(track)?;
    }
    Ok(Some(ListOf::from(tracks)))
}
