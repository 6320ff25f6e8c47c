// What holds of a column after a number of its events.
ghost use Rattle.std.specs.Prelude.{◌≡◌};
ghost use Rattle.col_core.specs.History.{entries};
ghost use Rattle.column_track.specs.Tracks.{least_open, mark_after};

use column::Column;
use log_node::Counts;

/// What holds of a column after a number of its events: its clock, how many nodes of each chain may be played, below
/// which counts nodes are trimmed, how many nodes of each chain are held, and the least stamp of an open entry, where one is
/// open.
#[derive(Clone, Copy)]
pub struct Mark {
    pub clock: u64,
    pub cut: Counts,
    pub base: Counts,
    pub held: Counts,
    pub least_open: Option<u64>,
}

// The least stamp of an open entry: of those that are not in the line the first one is open.
fn least_open(column: &Column) -> Option<u64>
    ensures { result ≡ least_open (entries column.now.journal) }
{
    column.agrees();
    let (key, _) = column.waiting(0)?;
    Some(key.stamp)
}

/// What holds of a column now.
pub(crate) fn mark_of(column: &Column) -> Mark
    ensures { result ≡ mark_after column.now.region column.now.regions column.now.journal }
{
    Mark {
        clock: column.clock(),
        cut: column.cut(),
        base: column.base(),
        held: column.held(),
        least_open: least_open(column),
    }
}
