// Whether the base of a column was this one after some number of its events.
ghost use Rattle.std.specs.Prelude.{◌≡◌, ◌<◌, ◌≤◌, length};
ghost use Rattle.column_track.specs.Tracks.{Tells};
ghost use Rattle.walk_law.specs.Bases.{IsFirstBase, WasBase};

use col_core::cuts_grow;
use column_track::Track;
use log_node::Counts;

// Whether two vectors are one.
fn same_vector(one: Counts, other: Counts) -> bool
    ensures { Tells result (one ≡ other) }
{
    one == other
}

// A number from one to below another one, halfway between them.
fn halfway(low: u64, high: u64) -> u64
    requires { low < high }
    ensures from_on { low ≤ result }
    ensures below { result < high }
{
    low + (high - low) / 2
}

// The first number of events from one on, but not behind another one, after which the base is not below this one.
fn first_base(track: &Track, from: u64, to: u64, base: Counts) -> u64
    requires order { from ≤ to }
    requires within { to ≤ length track.now.journal }
    ensures { IsFirstBase track.now from to base result }
{
    cuts_grow();
    track.agrees();
    let mut low = from;
    let mut high = to;
    while low < high {
        let middle = halfway(low, high);
        if base.is_within(track.mark(middle).base) {
            high = middle;
        } else {
            low = middle + 1;
        }
    }
    low
}

/// Whether the base of a column was this one after some number of events, from one number to another.
pub(crate) fn was_base(track: &Track, from: u64, to: u64, base: Counts) -> bool
    requires order { from ≤ to }
    requires within { to ≤ length track.now.journal }
    ensures { Tells result (WasBase track.now from to base) }
{
    cuts_grow();
    track.agrees();
    let events = first_base(track, from, to, base);
    same_vector(track.mark(events).base, base)
}
