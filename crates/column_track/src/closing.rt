// What a closing line says of a column in the end.
ghost use Rattle.std.specs.Prelude.{◌≡◌};
ghost use Rattle.column_track.specs.Tracks.{EndsAs, Tells};

use crate::track::Track;
use log_node::{Counts, Key};

// Whether two vectors are one.
fn same_counts(one: Counts, other: Counts) -> bool
    ensures { Tells result (one ≡ other) }
{
    one == other
}

// Whether two lines are one.
fn same_line(one: &[Key], other: &[Key]) -> bool
    ensures { Tells result (one.now ≡ other.now) }
{
    one == other
}

impl Track {
    /// Whether after all events the column has this clock, this line, this cut and this base.
    pub fn ends_as(&self, clock: u64, line: &[Key], cut: Counts, base: Counts) -> bool
        ensures { Tells result (EndsAs self.now clock line.now cut base) }
    {
        if clock != self.column.clock() {
            return false;
        }
        if !same_counts(cut, self.column.cut()) {
            return false;
        }
        if !same_counts(base, self.column.base()) {
            return false;
        }
        same_line(line, self.column.line())
    }
}
